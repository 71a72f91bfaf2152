// The table of byte classes. They are numbers, no enum: they are the digits of the table of 256 that the paper asks for, and one comparison with
// `NEVER` parts the characters of one byte from all else.
ghost use Rattle.std.specs.Prelude.{◌≡◌, get_or};
ghost use Rattle.utf8.specs.Classes.{rows, class_of, low_of, high_of};

// Classes of bytes that are a character, which are also the kinds of all characters (specs/Classes.antt says the same of the models).
pub const ORDINARY: u8 = 0;

pub const WHITE: u8 = 1;

pub const OPENS: u8 = 2;

pub const CLOSES: u8 = 3;

pub const COMMENTS: u8 = 4;

// Never a first byte; as a kind, no character.
pub const NEVER: u8 = 5;

// First bytes of longer characters: C2 to DF; E0; E1 to EC, EE, EF; ED; F0; F1 to F3; F4.
pub const LEADS_TWO: u8 = 6;

pub const LEADS_E0: u8 = 7;

pub const LEADS_PLAIN: u8 = 8;

pub const LEADS_ED: u8 = 9;

pub const LEADS_F0: u8 = 10;

pub const LEADS_F4: u8 = 12;

// The table of 256 classes: a row for each high half of a byte, in it a digit for each low half, that of 0 last.
// The digits are those above, and B for F1 to F3.
// It is a match because the compiler keeps that as a table of constants; an array of constants it builds anew at each read.
#[tactic(auto, unfolding(crate::specs::Classes::rows))]
fn row(high: u8) -> u64
    ensures { result ≡ get_or rows high 0 }
{
    match high {
        0x0 => 0x0011_1110_0000_0000,
        0x1 => 0x0000_0000_0000_0000,
        0x2 => 0x0000_0032_0000_0001,
        0x3 => 0x0000_4000_0000_0000,
        0x4 => 0x0000_0000_0000_0000,
        0x5 => 0x0000_0000_0000_0000,
        0x6 => 0x0000_0000_0000_0000,
        0x7 => 0x0000_0000_0000_0000,
        0x8 => 0x5555_5555_5555_5555,
        0x9 => 0x5555_5555_5555_5555,
        0xA => 0x5555_5555_5555_5555,
        0xB => 0x5555_5555_5555_5555,
        0xC => 0x6666_6666_6666_6655,
        0xD => 0x6666_6666_6666_6666,
        0xE => 0x8898_8888_8888_8887,
        0xF => 0x5555_5555_555C_BBBA,
        _ => 0,
    }
}

// The class of a byte.
#[tactic(auto, using(crate::proofs::Cases::row_class))]
pub fn class(b: u8) -> u8
    ensures { result ≡ class_of b }
{
    let digits = row(b / 16) >> u32::from(4 * (b % 16));
    (digits % 16) as u8
}

// The least second byte after a first byte of a class.
#[tactic(auto, unfolding(crate::specs::Classes::low_of))]
pub fn low(c: u8) -> u8
    ensures { result ≡ low_of c }
{
    if c == LEADS_E0 {
        return 0xA0;
    }
    if c == LEADS_F0 {
        return 0x90;
    }
    0x80
}

// The greatest second byte after a first byte of a class.
#[tactic(auto, unfolding(crate::specs::Classes::high_of))]
pub fn high(c: u8) -> u8
    ensures { result ≡ high_of c }
{
    if c == LEADS_ED {
        return 0x9F;
    }
    if c == LEADS_F4 {
        return 0x8F;
    }
    0xBF
}
