// Entries in a lent area of words, found by their names through hash buckets. An entry at address e (0 is none) has the bounds of its name
// in a text at e and e + 1, and at e + 2 the address of the last entry before it in its bucket; further words are the caller's.
// Chains in lent words, and no map: a call takes no heap. So 0 stands for no entry there, and not an Option.
#![tactic(auto)]

ghost use Rattle.std.specs.Prelude.{◌≡◌, ◌+◌, ◌%◌};
ghost use Rattle.words.specs.Parts.{same_bytes};
ghost use Rattle.names.specs.Chains.{hash_of, bucket_of, name_at, before, found, added, answered};

// The hash of a name.
#[tactic(auto, using(crate::proofs::Turns::hashing), unfolding(crate::specs::Chains::hash_of))]
fn hash(name: &[u8]) -> u64
    ensures { result ≡ hash_of name.now }
{
    let mut h: u64 = 0;
    for &b in name {
        h = (h * 31 + u64::from(b)) % 4294967296;
    }
    h
}

// The place of a name's bucket. The counts in use, said as constants, cost no division. Where the buckets begin and how many there are stay two numbers,
// here and in all that looks up a name: each caller has one of them, or both, as a constant.
#[tactic(auto, using(crate::proofs::Turns::buckets))]
fn bucket(buckets: u32, count: u32, name: &[u8]) -> usize
    ensures { result ≡ buckets + bucket_of count name.now }
{
    let first = buckets as usize;
    if count == 0 {
        return first;
    }
    let h = hash(name);
    if count == 256 {
        return first + (h % 256) as usize;
    }
    if count == 192 {
        return first + (h % 192) as usize;
    }
    if count == 64 {
        return first + (h % 64) as usize;
    }
    first + (h % u64::from(count)) as usize
}

// Whether the entry at e has the name `key`.
#[tactic(auto, unfolding(crate::specs::Chains::name_at))]
fn is_named(area: &[u32], e: u32, text: &[u8], key: &[u8]) -> bool
    ensures { result ≡ same_bytes (name_at area.now text.now e) key.now }
{
    let start = words::at(area, e as usize);
    let end = words::at(area, e as usize + 1);
    words::is_part(text, start as usize, end as usize, key)
}

// The entry before the one at e in its bucket. A link that does not fall is no link, so every chain ends.
#[tactic(auto, using(crate::proofs::Turns::linking))]
fn link(area: &[u32], e: u32) -> u32
    ensures { result ≡ before area.now e }
{
    let last = words::at(area, e as usize + 2);
    if last < e {
        return last;
    }
    0
}

// The address of the newest entry that has a name. The entries' names are parts of `text`, the name may be of any.
#[tactic(auto, using(crate::proofs::Turns::chasing), unfolding(crate::specs::Chains::found))]
pub fn find(area: &[u32], buckets: u32, count: u32, text: &[u8], name: &[u8]) -> Option<u32>
    ensures { answered result ≡ found area.now buckets count text.now name.now }
{
    let place = bucket(buckets, count, name);
    let mut e = words::at(area, place);
    // No index is counted here: a chain is walked, and how far it falls is not known before.
    while 0 < e {
        if is_named(area, e, text, name) {
            return Some(e);
        }
        e = link(area, e);
    }
    None
}

// Makes e the newest entry of its bucket, named by a part of the text. The bounds are what is kept, so they are given, here and in all that enters a name.
#[tactic(auto, unfolding(crate::specs::Chains::added, crate::specs::Chains::linked))]
pub fn add(
    area: &mut [u32],
    buckets: u32,
    count: u32,
    e: u32,
    text: &[u8],
    start: usize,
    end: usize,
)
    ensures { area.new ≡ added area.old buckets count e text.now start end }
{
    let name = words::part(text, start, end);
    let place = bucket(buckets, count, name);
    let last = words::at(area, place);
    words::put(area, e as usize, words::low(start));
    words::put(area, e as usize + 1, words::low(end));
    words::put(area, e as usize + 2, last);
    words::put(area, place, e);
}
