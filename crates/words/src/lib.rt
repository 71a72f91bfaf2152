// Total access to lent words and bytes: 0 is read outside, and nothing is written there. So no caller owes a bound. A place is `word as usize`, here and in
// all crates: `usize` has no `From` of 32 bits.
#![tactic(auto)]

ghost use Rattle.std.specs.Prelude.{◌≡◌, ◌*◌, ◌%◌, ◌^◌, bit_xor, slice_index_or, slice_set};
ghost use Rattle.words.specs.Parts.{part, same_bytes, copied, cleared};
ghost use Rattle.words.specs.Sums.{low32, sum32};
ghost use Rattle.words.specs.Hash.{rotated, hashed, hash};

// What lent areas and texts are made of: 32-bit words and bytes, whose 0 is read outside.
pub trait Word: Copy {
    ghost ZERO: { Self };

    const ZERO: Self;
}

impl Word for u32 {
    ghost ZERO = { 0 };

    const ZERO: u32 = 0;
}

impl Word for u8 {
    ghost ZERO = { 0 };

    const ZERO: u8 = 0;
}

// The word or the byte at a place.
pub fn at<T: Word>(s: &[T], i: usize) -> T
    ensures { result ≡ slice_index_or s.now i T.ZERO }
{
    if i < s.len() {
        return s[i];
    }
    T::ZERO
}

// Sets the word or the byte at a place.
pub fn put<T: Word>(s: &mut [T], i: usize, v: T)
    ensures { s.new ≡ slice_set s.old i v }
{
    if i < s.len() {
        s[i] = v;
    }
}

// The words or the bytes from `start` up to `end`, as far as they are there.
#[tactic(auto, unfolding(crate::specs::Parts::part))]
pub fn part<T>(s: &[T], start: usize, end: usize) -> &[T]
    ensures { result.now ≡ part start end s.now }
{
    if end < start {
        return &s[..0];
    }
    if end <= s.len() {
        return &s[start..end];
    }
    if start <= s.len() {
        return &s[start..];
    }
    &s[..0]
}

// Whether a part of a text is equal to `key`, by taking the part.
#[tactic(auto, using(crate::proofs::Laws::same_pointwise))]
fn is_taken(text: &[u8], start: usize, end: usize, key: &[u8]) -> bool
    ensures { result ≡ same_bytes (part start end text.now) key.now }
{
    part(text, start, end) == key
}

// The same, where names are searched for: the bounds and the last byte tell most parts that are not equal. Inlined, as each link of a chain asks it.
#[tactic(auto, using(crate::proofs::Laws::unlike))]
#[inline(always)]
pub fn is_part(text: &[u8], start: usize, end: usize, key: &[u8]) -> bool
    ensures { result ≡ same_bytes (part start end text.now) key.now }
{
    let n = key.len();
    if n == 0 {
        return is_taken(text, start, end, key);
    }
    if text.len() < end {
        return is_taken(text, start, end, key);
    }
    if end <= start {
        return false;
    }
    if end - start != n {
        return false;
    }
    if text[end - 1] != key[n - 1] {
        return false;
    }
    is_taken(text, start, end, key)
}

// Whether a part of one text is equal to a part of another.
#[tactic(auto, using(crate::proofs::Laws::same_pointwise))]
pub fn same_bytes(a: &[u8], start: usize, end: usize, b: &[u8], from: usize, to: usize) -> bool
    ensures { result ≡ same_bytes (part start end a.now) (part from to b.now) }
{
    part(a, start, end) == part(b, from, to)
}

// Whether two lists of words are equal. A loop of its own, since `==` of slices is a call of the library for each comparison: with it, the bench's load
// "most abbreviations" misses its bar.
#[inline(always)]
#[tactic(auto, using(crate::proofs::Laws::comparing))]
pub fn same_words(a: &[u32], b: &[u32]) -> bool
    ensures { result ≡ same_bytes a.now b.now }
{
    if a.len() != b.len() {
        return false;
    }
    for i in 0..a.len() {
        if a[i] != b[i] {
            return false;
        }
    }
    true
}

// Copies the first n words of `from` to place i of `to`, as far as that goes on: 0 where `from` has ended. One by one, as `writing::put_bytes` does, since a
// slice's own copy wants equal lengths, and asks the archive for `memmove`.
#[tactic(auto, using(crate::proofs::Writing::copying))]
pub fn copy(to: &mut [u32], i: usize, from: &[u32], n: usize)
    ensures { to.new ≡ copied to.old i from.now 0 n }
{
    if to.len() <= i {
        return;
    }
    for j in 0..n.min(to.len() - i) {
        to[i + j] = at(from, j);
    }
}

// Sets the first n words to 0, or all of them where there are fewer.
#[tactic(auto, using(crate::proofs::Laws::cleared_zeros))]
pub fn clear(s: &mut [u32], n: usize)
    ensures { s.new ≡ cleared n s.old }
{
    let end = n.min(s.len());
    s[..end].fill(0);
}

// A sum in 32 bits. Those that a text asks for never wrap. In place of the method, since its promise is the model's sum, which stays shut above.
#[tactic(auto, unfolding(crate::specs::Sums::sum32))]
pub fn plus(a: u32, b: u32) -> u32
    ensures { result ≡ sum32 a b }
{
    a.wrapping_add(b)
}

// A place as a word. Those of a text that a call takes are kept whole.
pub fn low(x: usize) -> u32
    ensures { result ≡ low32 x }
{
    (x % 4294967296) as u32
}

// The low 64 bits of a product. A function of its own, as the two below are: its contract is the model's word, and the hash is proved from that.
pub fn wrapping_mul(a: u64, b: u64) -> u64
    ensures { result ≡ (a * b) % 2 ^ 64 }
{
    a.wrapping_mul(b)
}

// Rotated left by 5.
#[tactic(auto, using(crate::proofs::Laws::rotated_or))]
pub fn rotate_left_5(h: u64) -> u64
    ensures { result ≡ rotated h }
{
    h.rotate_left(5)
}

// Both words xored.
pub fn xor(a: u64, b: u64) -> u64
    ensures { result ≡ bit_xor a b }
{
    a ^ b
}

// One word more in a hash.
#[tactic(auto, unfolding(crate::specs::Hash::hashed, crate::specs::Hash::product))]
pub fn hash_word(h: u64, word: u32) -> u64
    ensures { result ≡ hashed h word }
{
    let rotated = rotate_left_5(h);
    let mixed = xor(rotated, u64::from(word));
    wrapping_mul(mixed, 0x517cc1b727220a95)
}

// The hash of all words of a slice.
#[tactic(auto, using(crate::proofs::Laws::hashing), unfolding(crate::specs::Hash::hash))]
pub fn hash_all(s: &[u32]) -> u64
    ensures { result ≡ hash s.now }
{
    let mut h: u64 = 0;
    for &word in s {
        h = hash_word(h, word);
    }
    h
}
