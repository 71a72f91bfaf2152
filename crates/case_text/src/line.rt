// Lines of a list, and what is read of them.
ghost use Rattle.std.specs.Prelude.{◌≡◌, ◌≤◌, ◌-◌, drop, get_or, length};
ghost use Rattle.std.specs.Iterator.{at_most};

// How many lines of a list are read at most.
const LINES: u32 = 100000;

// How many digits of a number are read at most.
const DIGITS: u32 = 20;

// What is left of a line: the bytes of the list from there on, and how many of them are the line's own.
#[derive(Clone, Copy)]
pub struct Line<'a> {
    pub list: &'a [u8],
    pub left: usize,
}

impl<'a> Line<'a> {
    // The byte so many places on, 0 where the list has none.
    pub fn byte(self, i: usize) -> u8
        ensures { result ≡ get_or self.entry.list.now i 0 }
    {
        self.list.get(i).copied().unwrap_or(0)
    }

    // The same line from so many places on.
    pub fn behind(self, n: usize) -> Line<'a>
        ensures list { result.list.now ≡ drop n self.entry.list.now }
        ensures left { result.left ≡ self.entry.left - n }
    {
        Line {
            list: self.list.get(n..).unwrap_or(b""),
            left: self.left.saturating_sub(n),
        }
    }

    // How many bytes of the list stand before the next one of this value, or before the list's end.
    pub fn before(self, value: u8) -> usize
        ensures { result ≤ length self.entry.list.now }
    {
        let place = self.list.iter().position(|&b| b == value);
        place.unwrap_or(self.list.len())
    }

    // The number whose digits the line goes on with, in 32 bits, and the line behind them. It is 0 where there are none.
    pub fn number(self) -> (u32, Line<'a>)
        ensures { result.1.left ≤ self.entry.left }
    {
        let mut value: u32 = 0;
        let mut line = self;
        for _ in 0..DIGITS {
            let b = line.byte(0);
            if !b.is_ascii_digit() {
                break;
            }
            value = value
                .wrapping_mul(10)
                .wrapping_add(u32::from(super::hex_digit(b)));
            line = line.behind(1);
        }
        (value, line)
    }
}

// The lines of a list, those that are not read yet, and how many more are read at most. It moves on in place, as iterators do, so it is not copied.
#[derive(Drop)]
pub struct Lines<'a> {
    list: &'a [u8],
    more: u32,
}

impl<'a> Lines<'a> {
    // Those of the list's bytes.
    pub fn of(list: &'a [u8]) -> Lines<'a>
        ensures list { result.list.now ≡ list.now }
        ensures more { result.more ≡ 100000 }
    {
        Lines { list, more: LINES }
    }
}

impl<'a> Iterator for Lines<'a> {
    type Item = Line<'a>;

    ghost remaining = { λ s. at_most s.more };

    fn next(&mut self) -> Option<Line<'a>> {
        if self.list.is_empty() {
            return None;
        }
        self.more = self.more.checked_sub(1)?;
        let all = Line {
            list: self.list,
            left: self.list.len(),
        };
        let left = all.before(b'\n');
        self.list = all.behind(left).behind(1).list;
        Some(Line { left, ..all })
    }
}
