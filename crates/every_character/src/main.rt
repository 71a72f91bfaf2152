// Every character by its bytes: what `utf8::look` says of it, whether `scanning` has an atom go on with it, and of a value of 16 bits what
// `utf8::is_white` says, are held to Unicode's list. Standard input has that list: the lines of PropList.txt for White_Space, in their order and
// as they have been since Unicode 6.3.
#![tactic(auto)]

use printing::GoingOn;
use std::ops::RangeInclusive;
use std::{io, iter};
use utf8::classes;

// So many bytes of the list are read.
const LIST_BYTES: usize = 4096;

// Characters seen so far, those of them that the list has, and those of which something wrong was said.
#[derive(Clone, Copy, Default)]
struct Tally {
    characters: u32,
    white: u32,
    wrong: u32,
}

// A line of the list: the characters that it has, by their values, and what stands behind it.
#[derive(Drop)]
struct Listed<'a> {
    values: RangeInclusive<u32>,
    rest: &'a [u8],
}

// The number that some bytes begin with, of four hexadecimal digits. The bit 32 makes a capital small. A byte that is no digit counts as 0, and so does
// one that is missing.
fn number(bytes: &[u8]) -> u32 {
    let mut n = 0;
    for b in bytes.iter().copied().chain(iter::repeat(0)).take(4) {
        n = n << 4 | u32::from(case_text::hex_digit(b | 32));
    }
    n
}

impl<'a> Listed<'a> {
    // The line that some bytes begin with, read by its places: one number, or two with `..` between them.
    fn first_of(list: &'a [u8]) -> Listed<'a> {
        let low = number(list);
        let high = match list.get(4) {
            Some(b'.') => number(list.get(6..).unwrap_or(&[])),
            _ => low,
        };
        Listed {
            values: low..=high,
            rest: list.splitn(2, |b| *b == b'\n').nth(1).unwrap_or(&[]),
        }
    }

    // This line, or the next one where this lies before a value.
    fn reaching(self, value: u32) -> Listed<'a> {
        if value <= *self.values.end() {
            return self;
        }
        Listed::first_of(self.rest)
    }
}

// The kind that a character has, by whether the list has it. That is a fact that is compared, here and below, and no choice between two ways: so it
// is a bool.
fn kind_due(c: char, white: bool) -> u8 {
    match c {
        _ if white => classes::WHITE,
        '(' => classes::OPENS,
        ')' => classes::CLOSES,
        ';' => classes::COMMENTS,
        _ => classes::ORDINARY,
    }
}

// Whether an atom that begins with `a` goes on with a character exactly if that is an ordinary one. The text is both, and another `a`.
fn atom_right(text: &[u8], kind: u8) -> bool {
    let due = if kind == classes::ORDINARY {
        text.len()
    } else {
        1
    };
    scanning::atom_end(text, text.len(), 0) == due
}

// Whether the leaf says of a value what the list does; above 16 bits it is not asked.
fn leaf_right(c: char, white: bool) -> bool {
    match u16::try_from(u32::from(c)) {
        Ok(value) => utf8::is_white(value) == white,
        Err(_) => !white,
    }
}

// Whether all that is said of a character is right.
fn right(c: char, white: bool) -> bool {
    let mut text = *b"aaaaaa";
    let width = c.encode_utf8(&mut text[1..5]).len();
    let kind = kind_due(c, white);
    let seen = utf8::look(&text[..width + 1], 1);
    seen.width == width
        && seen.kind == kind
        && atom_right(&text[..width + 2], kind)
        && leaf_right(c, white)
}

impl Tally {
    // One more character. Each that the list has is written, and each of which something wrong was said.
    fn and(self, rt: &impl Print, c: char, white: bool) -> io::Result<Tally> {
        let value = u32::from(c);
        let wrong = !right(c, white);
        if white {
            println!(rt; "{value:04x}")?;
        }
        if wrong {
            println!(rt; "{value:04x} is wrong")?;
        }
        Ok(Tally {
            characters: self.characters.wrapping_add(1),
            white: self.white.wrapping_add(u32::from(white)),
            wrong: self.wrong.wrapping_add(u32::from(wrong)),
        })
    }
}

// All characters, in the order of their values, which the list has too.
fn all(rt: &impl Print, list: &[u8]) -> io::Result<Tally> {
    let mut line = Listed::first_of(list);
    let mut tally = Tally::default();
    for value in 0..=u32::from(char::MAX) {
        line = line.reaching(value);
        // A surrogate is no character.
        if let Some(c) = char::from_u32(value) {
            tally = tally.and(rt, c, line.values.contains(&value))?;
        }
    }
    Ok(tally)
}

fn main(rt: HostRuntime) -> io::Result<()> {
    let mut buffer = [0; LIST_BYTES];
    let n = reading::fill_so_far(&mut rt.stdin(), &mut buffer);
    let out = GoingOn(&rt);
    let tally = all(&out, &buffer[..n])?;
    println!(&out; "{} characters", tally.characters)?;
    println!(&out; "{} white space", tally.white)?;
    println!(&out; "{} wrong", tally.wrong)
}
