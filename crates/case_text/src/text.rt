// Texts, as the signs of a line make them.
ghost use Rattle.std.specs.Prelude.{◌≡◌, ◌+◌, ◌%◌, ◌^◌, replicate, slice_set, take};

use super::{Line, hex_digit};

// How many signs of a line, or of a repetition in one of its turns, are read at most.
const SIGNS: u32 = 100000;

// A text as it is made: how many bytes there are, and those of them for which there is room. It has kilobytes, so it is not copied.
#[derive(Drop)]
pub struct Text<const N: usize> {
    bytes: [u8; N],
    made: u32,
}

impl<const N: usize> Text<N> {
    // No byte yet.
    pub fn new() -> Text<N>
        ensures bytes { result.bytes ≡ replicate N 0 }
        ensures made { result.made ≡ 0 }
    {
        Text {
            bytes: [0; N],
            made: 0,
        }
    }

    // No byte again.
    pub fn clear(&mut self)
        ensures bytes { self.new.bytes ≡ self.old.bytes }
        ensures made { self.new.made ≡ 0 }
    {
        self.made = 0;
    }

    // One byte more. It is counted, in 32 bits, also where it has no room.
    pub fn push(&mut self, byte: u8)
        ensures bytes { self.new.bytes ≡ slice_set self.old.bytes self.old.made byte }
        ensures made { self.new.made ≡ (self.old.made + 1) % 2 ^ 32 }
    {
        let place = self.made as usize;
        if place < self.bytes.len() {
            self.bytes[place] = byte;
        }
        self.made = self.made.wrapping_add(1);
    }

    // The bytes that are made and had room.
    pub fn as_slice(&self) -> &[u8]
        ensures { result.now ≡ take self.now.made self.now.bytes }
    {
        self.bytes.get(..self.made as usize).unwrap_or(&self.bytes)
    }

    // The last four digits of a number, without zeros before its first digit.
    fn push_number(&mut self, n: u32) {
        for unit in [1000, 100, 10, 1] {
            if unit <= n || unit == 1 {
                self.push(b'0' + (n / unit % 10) as u8);
            }
        }
    }
}

// What a sign stands for.
#[derive(Clone, Copy)]
enum Sign {
    // A byte that stands for itself, or `\n`, `\\`, `\xHH`.
    Byte(u8),
    // `\#` and `\-`, for a repetition: how often it was done, and so many more.
    Turns(u32),
}

// The sign with which a line goes on, and how many bytes it takes.
fn sign_at(line: Line<'_>) -> (Sign, usize) {
    if line.byte(0) != b'\\' {
        return (Sign::Byte(line.byte(0)), 1);
    }
    match line.byte(1) {
        b'#' => (Sign::Turns(1), 2),
        b'-' => (Sign::Turns(0), 2),
        b'x' => {
            let high = hex_digit(line.byte(2));
            let low = hex_digit(line.byte(3));
            (Sign::Byte(high * 16 + low), 4)
        }
        b'n' => (Sign::Byte(b'\n'), 2),
        b => (Sign::Byte(b), 2),
    }
}

// Writes the sign with which a line goes on, and answers what stands behind it.
fn put_sign<'a, const N: usize>(line: Line<'a>, turn: u32, out: &mut Text<N>) -> Line<'a> {
    let (sign, taken) = sign_at(line);
    match sign {
        Sign::Byte(b) => out.push(b),
        Sign::Turns(more) => out.push_number(turn.wrapping_add(more)),
    }
    line.behind(taken)
}

// Writes the signs of a repetition in one of its turns.
fn put_turn<const N: usize>(signs: Line<'_>, turn: u32, out: &mut Text<N>) {
    let mut line = signs;
    for _ in 0..SIGNS {
        if line.left == 0 {
            return;
        }
        line = put_sign(line, turn, out);
    }
}

// Writes `\{N*SIGNS}`, from the N on, and answers what stands behind it. A repetition has none within it.
fn put_repeated<'a, const N: usize>(line: Line<'a>, out: &mut Text<N>) -> Line<'a> {
    let (count, behind) = line.number();
    let signs = behind.behind(1);
    let left = signs.before(b'}');
    for turn in 0..count {
        put_turn(Line { left, ..signs }, turn, out);
    }
    signs.behind(left).behind(1)
}

// Writes the bytes for which a line stands, behind those that are there.
pub fn write_signs<const N: usize>(line: Line<'_>, out: &mut Text<N>) {
    let mut line = line;
    for _ in 0..SIGNS {
        if line.left == 0 {
            return;
        }
        line = if line.byte(0) == b'\\' && line.byte(1) == b'{' {
            put_repeated(line.behind(2), out)
        } else {
            put_sign(line, 0, out)
        };
    }
}
