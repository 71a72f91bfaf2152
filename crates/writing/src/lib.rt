// Texts in a lent buffer, piece by piece. Each writer says what the whole buffer holds afterwards; a byte outside the buffer is not
// written, so no caller owes room. A single byte is written by `words::put`.
#![tactic(auto)]

ghost use Rattle.std.specs.Prelude.{◌+◌, ◌-◌, ◌≤◌, min, ◌≡◌, length, drop};
ghost use Rattle.horn.specs.Layout.{plain};
ghost use Rattle.horn.specs.Output as output;
ghost use Rattle.writing.specs.Buffer.{placed};

// What a call that writes one text answers: its number, and the length of the text, 0 if it is refused. C reads it: so a number stands beside the length.
#[repr(C)]
#[derive(Clone, Copy)]
pub struct Written {
    pub number: u32,
    pub length: u32,
}

// "Zero if refused."
pub fn refused(number: u32) -> Written
    ensures { result ≡ record { number = number; length = 0 } }
{
    Written { number, length: 0 }
}

// Writes bytes from a place on, one by one: C interface, since the archive asks for `memcpy` and `memset` alone, and a slice's own copy for `memmove`.
// The place is counted beside the bytes: by `enumerate` it would be a sum at each byte.
#[tactic(auto, using(crate::proofs::Turns::putting))]
pub fn put_bytes(out: &mut [u8], at: usize, bytes: &[u8])
    ensures { out.new ≡ placed at bytes.now out.old }
{
    let mut p = at;
    for &b in bytes {
        if out.len() <= p {
            return;
        }
        out[p] = b;
        p += 1;
    }
}

// Writes spaces from a place on: "all filling is with spaces".
#[tactic(auto, using(crate::proofs::Placed::placed_out))]
pub fn fill(out: &mut [u8], at: usize, count: usize)
    ensures { out.new ≡ placed at (output.spaces count) out.old }
{
    if out.len() <= at {
        return;
    }
    let n = count.min(out.len() - at);
    out[at..at + n].fill(0x20);
}

// The place behind so many bytes, and the buffer's end where it is farther off: so the sum does not wrap, and nothing is written there.
fn behind(at: usize, bytes: usize, end: usize) -> usize
    ensures { result ≡ min (at + bytes) end }
{
    at.saturating_add(bytes).min(end)
}

// Whether the character before a place of a name goes on there.
#[tactic(auto, unfolding(horn::specs::Output::goes_on, horn::specs::Utf8::within, horn::specs::Utf8::tail))]
fn goes_on(name: &[u8], k: usize) -> bool
    ensures { result ≡ output.goes_on k name.now }
{
    let b = words::at(name, k);
    if b < 0x80 {
        return false;
    }
    b <= 0xBF
}

// How many bytes of a name a field shows: it "is cut after the last whole character that fits".
#[tactic(auto, using(crate::proofs::Turns::cutting))]
pub fn cut(name: &[u8], width: usize) -> usize
    ensures { result ≡ length (output.cut width name.now) }
{
    for k in (1..=width).rev() {
        if !goes_on(name, k) {
            return k.min(name.len());
        }
    }
    0
}

// Writes a name in a field, the spaces behind it.
#[tactic(auto, using(crate::proofs::Fields::name_written))]
pub fn put_name(out: &mut [u8], at: usize, width: usize, name: &[u8])
    ensures { out.new ≡ placed at (output.name_field width name.now) out.old }
{
    let k = cut(name, width);
    let shown = words::part(name, 0, k);
    put_bytes(out, at, shown);
    let p = behind(at, k, out.len());
    let left = width.saturating_sub(k);
    fill(out, p, left);
}

// The digits of a number at the end of ten bytes, from the last on. Answers where they start. `io` has the same for programs; the library that C links
// does not name it. A turn takes a digit off the number, however many it has.
#[tactic(auto, using(crate::proofs::Turns::digits))]
fn decimal(n: u32, text: &mut [u8]) -> usize
    requires { length text.old ≡ 10 }
    ensures within { result ≤ 10 }
    ensures digits { drop result text.new ≡ plain n }
{
    let mut i: usize = 10;
    let mut m = n;
    while 10 <= m {
        i -= 1;
        text[i] = (m % 10) as u8 + 0x30;
        m = m / 10;
    }
    i -= 1;
    text[i] = m as u8 + 0x30;
    i
}

// Writes a number right-aligned in a field, and in full where it is longer.
#[tactic(auto, using(crate::proofs::Fields::numbers))]
pub fn put_number(out: &mut [u8], at: usize, width: usize, n: u32)
    ensures { out.new ≡ placed at (output.right_aligned width n) out.old }
{
    let mut text = [0u8; 10];
    let start = decimal(n, &mut text);
    let left = width.saturating_sub(10 - start);
    fill(out, at, left);
    let p = behind(at, left, out.len());
    put_bytes(out, p, &text[start..]);
}
