// The notation in which docs/paper/cases.md writes texts and numbers. A list is read by its bytes, from a line on to its end; behind that zeros are
// read. So no byte of a list ends a program, and a text or a number that its line cuts short goes on with what stands behind the line.
#![tactic(auto)]

ghost use Rattle.std.specs.Prelude.{◌<◌, ◌+◌, ◌≡◌, ◌≤◌, ◌-◌, ◌%◌, ◌^◌, length};
ghost use Rattle.case_text.specs.Notation.{hex_digit};

mod line;
mod text;

pub use line::{Line, Lines};
pub use text::{Text, write_signs};

// The value of a hexadecimal digit, 0 of any other byte.
#[tactic(auto, unfolding(crate::specs::Notation::hex_digit))]
pub fn hex_digit(b: u8) -> u8
    ensures value { result ≡ hex_digit b }
    ensures few { result < 16 }
{
    match b {
        b'0'..=b'9' => b - b'0',
        b'a'..=b'f' => b - b'a' + 10,
        _ => 0,
    }
}
