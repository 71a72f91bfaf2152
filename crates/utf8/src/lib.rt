// Characters: the first of some bytes, and its kind.
#![tactic(auto)]

ghost use Rattle.std.specs.Prelude.{◌≡◌, ◌+◌, ◌*◌, ◌%◌, get_or, drop};
ghost use Rattle.horn.specs.Tokens.{white, kind};
ghost use Rattle.utf8.specs.Classes.{kind_number};
ghost use Rattle.utf8.specs.White.{white_rows};
ghost use Rattle.utf8.specs.Characters.{first, longer_by, by_class, plain_value, width, value, kind_at};

pub mod classes;

// A character's width in bytes, 0 where there is none, and its value in 16 bits: 0 for one of four bytes, which lies above FFFF and is
// not put together. Width 0 says that there is none, as in the model: an Option would have to promise beside it that no width is 0.
#[derive(Clone, Copy)]
pub struct Character {
    pub width: usize,
    pub value: u16,
}

// The number of a character's kind, and its width. `NEVER` is a class of bytes and, as a kind, no character: an Option would say it a second time.
#[derive(Clone, Copy)]
pub struct Seen {
    pub kind: u8,
    pub width: usize,
}

// The table of white space: 32 places in rows of four, that of the lowest place last. The 25 white-space characters stand each at its place, and
// 20 stands at the others too, so that whatever is found there is white space. A match, for the reason that `classes::row` has.
#[tactic(auto, unfolding(crate::specs::White::white_rows))]
fn white_row(n: u32) -> u64
    ensures { result ≡ get_or white_rows n 0 }
{
    match n {
        0 => 0x2005_2004_0020_2003,
        1 => 0x0020_2007_2006_202F,
        2 => 0x200A_0020_2009_2008,
        3 => 0x000A_205F_0009_0085,
        4 => 0x0020_000C_0020_000B,
        5 => 0x0020_00A0_0020_000D,
        6 => 0x2029_3000_2028_0020,
        7 => 0x2002_1680_2001_2000,
        _ => 0,
    }
}

// Whether a character is white space, by its value in 16 bits: whether the table has it at its place. By the factor 3151 no two white-space
// characters have the same place. Up to 3000 no test parts some letters from others, so that none of them takes longer than another.
#[tactic(auto, using(crate::proofs::Cases::whites))]
pub fn is_white(v: u16) -> bool
    ensures { result ≡ white v }
{
    if 0x3000 < v {
        return false;
    }
    let place = u32::from(v) * 3151 / 2048 % 32;
    let held = (white_row(place / 4) >> (place % 4 * 16)) % 65536;
    held == u64::from(v)
}

// The number of a character's kind, by its value in 16 bits.
#[tactic(auto, unfolding(horn::specs::Tokens::kind, crate::specs::Classes::kind_number))]
pub fn kind_of(v: u16) -> u8
    ensures { result ≡ kind_number (kind v) }
{
    if is_white(v) {
        return classes::WHITE;
    }
    if 0x3B < v {
        return classes::ORDINARY;
    }
    if v == 0x28 {
        return classes::OPENS;
    }
    if v == 0x29 {
        return classes::CLOSES;
    }
    if v == 0x3B {
        return classes::COMMENTS;
    }
    classes::ORDINARY
}

// The value of a character of two bytes.
fn two(a: u8, b: u8) -> u16
    ensures { result ≡ a % 32 * 64 + b % 64 }
{
    u16::from(a % 32) * 64 + u16::from(b % 64)
}

// Of three bytes.
fn three(a: u8, b: u8, c: u8) -> u32
    ensures { result ≡ (a % 16 * 64 + b % 64) * 64 + c % 64 }
{
    (u32::from(a % 16) * 64 + u32::from(b % 64)) * 64 + u32::from(c % 64)
}

// The first character of some bytes.
#[tactic(auto, using(crate::proofs::Cases::firsts), unfolding(crate::specs::Characters::width, crate::specs::Characters::value))]
pub fn first_of(s: &[u8]) -> Character
    ensures wide { result.width ≡ width (first s.now) }
    ensures valued { result.value ≡ value (first s.now) }
{
    if s.len() == 0 {
        return Character { width: 0, value: 0 };
    }
    let b = s[0];
    let c = classes::class(b);
    if c < classes::NEVER {
        return Character {
            width: 1,
            value: u16::from(b),
        };
    }
    if c == classes::NEVER {
        return Character { width: 0, value: 0 };
    }
    longer(s, b, c)
}

// The first character of some bytes whose first byte leads longer ones. A later byte without a range of its own has 2 in its upper two bits.
#[tactic(auto, using(crate::proofs::Cases::longers), unfolding(crate::specs::Characters::width, crate::specs::Characters::value))]
fn longer(s: &[u8], b: u8, c: u8) -> Character
    ensures wide { result.width ≡ width (longer_by c b s.now) }
    ensures valued { result.value ≡ value (longer_by c b s.now) }
{
    let second = words::at(s, 1);
    if c == classes::LEADS_TWO {
        if second / 64 != 2 {
            return Character { width: 0, value: 0 };
        }
        return Character {
            width: 2,
            value: two(b, second),
        };
    }
    if second < classes::low(c) {
        return Character { width: 0, value: 0 };
    }
    if classes::high(c) < second {
        return Character { width: 0, value: 0 };
    }
    let third = words::at(s, 2);
    if third / 64 != 2 {
        return Character { width: 0, value: 0 };
    }
    if c < classes::LEADS_F0 {
        return Character {
            width: 3,
            value: three(b, second, third) as u16,
        };
    }
    let fourth = words::at(s, 3);
    if fourth / 64 != 2 {
        return Character { width: 0, value: 0 };
    }
    Character { width: 4, value: 0 }
}

// What stands at a place: the number of the character's kind and its width.
#[tactic(auto, using(crate::proofs::Looks::looks), unfolding(crate::specs::Characters::width, crate::specs::Characters::kind_at))]
pub fn look(text: &[u8], p: usize) -> Seen
    ensures kinds { result.kind ≡ kind_at (first (drop p text.now)) }
    ensures wide { result.width ≡ width (first (drop p text.now)) }
{
    if text.len() <= p {
        return Seen {
            kind: classes::NEVER,
            width: 0,
        };
    }
    let c = classes::class(text[p]);
    if c < classes::NEVER {
        return Seen { kind: c, width: 1 };
    }
    look_longer(text, p, c)
}

// The same where the byte at the place is no character by itself. It is apart so that a loop over characters of one byte stays small.
#[tactic(auto, using(crate::proofs::Looks::longer_looks), unfolding(crate::specs::Characters::width, crate::specs::Characters::kind_at))]
pub fn look_longer(text: &[u8], p: usize, c: u8) -> Seen
    ensures kinds { result.kind ≡ kind_at (by_class c (drop p text.now)) }
    ensures wide { result.width ≡ width (by_class c (drop p text.now)) }
{
    if text.len() <= p {
        return Seen {
            kind: classes::NEVER,
            width: 0,
        };
    }
    if c == classes::NEVER {
        return Seen {
            kind: classes::NEVER,
            width: 0,
        };
    }
    let found = longer(&text[p..], text[p], c);
    let width = found.width;
    if width == 0 {
        return Seen {
            kind: classes::NEVER,
            width: 0,
        };
    }
    // It lies above FFFF: no white space, no bracket and no `;`.
    if width == 4 {
        return Seen {
            kind: classes::ORDINARY,
            width: 4,
        };
    }
    let kind = kind_of(found.value);
    Seen { kind, width }
}

// The last character that is white space.
pub const LAST_WHITE: u32 = 0x3000;

// The value of the first character where its first byte, of class c, is one of E1 to EC, EE and EF; 0 for any other, and where there is none.
// Their second and third bytes are of one range, so that these few tests pass over most characters of three bytes.
// A number, no Option: one comparison with `LAST_WHITE` tells both that there is such a character and that it is no white space.
#[tactic(auto, using(crate::proofs::Plain::plains))]
pub fn plain_three(s: &[u8], c: u8) -> u32
    ensures { result ≡ plain_value c s.now }
{
    if c != classes::LEADS_PLAIN {
        return 0;
    }
    if s.len() < 3 {
        return 0;
    }
    if s[1] / 64 != 2 {
        return 0;
    }
    if s[2] / 64 != 2 {
        return 0;
    }
    three(s[0], s[1], s[2])
}
