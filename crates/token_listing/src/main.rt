// Reads texts from standard input, one to a line as hexadecimal digits, and lists the tokens of each: a bracket, or an
// atom's bounds; then `end`, or 3 for a line that is not UTF-8. A line that starts with `#` is written as it is.
#![tactic(auto)]

use arrayvec::ArrayVec;
use lex::{Read, Reader, Token};
use printing::GoingOn;
use std::io;

// What is taken of the input: so many bytes, and so many lines of these. What lies behind is left out, here and below.
const INPUT_BYTES: usize = 65536;

const LINES: usize = 4096;

// What is taken of a line: a text of so many bytes, and so many tokens of it.
const TEXT_BYTES: usize = 4096;

const TOKENS: u32 = 1024;

// The bytes that a line of hexadecimal digits stands for, two digits each. A byte that is no such digit counts as 0, and an odd last one not at all.
fn text_of(line: &[u8]) -> ArrayVec<u8, TEXT_BYTES> {
    let mut text = ArrayVec::new();
    let (pairs, _) = line.as_chunks::<2>();
    for [high, low] in pairs {
        let _ = text.try_push(case_text::hex_digit(*high) * 16 + case_text::hex_digit(*low));
    }
    text
}

// A token as a line: a bracket, or the bounds of an atom.
fn show(rt: &impl Print, token: Token) -> io::Result<()> {
    match token {
        Token::Opening => println!(rt; "("),
        Token::Closing => println!(rt; ")"),
        Token::Atom(start, end) => println!(rt; "{start} {end}"),
    }
}

// Looks at each token, then takes it from the reader that the look handed back. Then the text's end, or the refusal of a bad line.
fn list(rt: &impl Print, text: &[u8]) -> io::Result<()> {
    let mut reader = Reader::new();
    for _ in 0..TOKENS {
        let read = match reader.peek(text) {
            Read::Got(_, holding) => holding.token(text),
            other => other,
        };
        match read {
            Read::Got(token, next) => {
                show(rt, token)?;
                reader = next;
            }
            Read::End => return println!(rt; "end"),
            Read::Bad => return println!(rt; "3"),
        }
    }
    Ok(())
}

// One line of the input.
fn answer(rt: &impl Print, line: &[u8]) -> io::Result<()> {
    if line.starts_with(b"#") {
        rt.write_all(line)?;
        return rt.write_all(b"\n");
    }
    list(rt, &text_of(line))
}

fn main(rt: HostRuntime) -> io::Result<()> {
    let mut buffer = [0; INPUT_BYTES];
    let n = reading::fill_so_far(&mut rt.stdin(), &mut buffer);
    let out = GoingOn(&rt);
    for line in buffer[..n].split_inclusive(|b| *b == b'\n').take(LINES) {
        answer(&out, line.strip_suffix(b"\n").unwrap_or(line))?;
    }
    Ok(())
}
