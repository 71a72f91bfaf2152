// Runs the call that writes the release page on the cases of the paper, docs/paper/pages.txt (docs/paper/cases.md has its form), over areas
// that held other words and a buffer of bytes that no page has, and compares number, length, areas and every byte of the buffer with what the
// paper states. That list is this program's own data, so that neither can differ from the other.
#![tactic(auto)]

use answers::{Answer, Call, Fault};
use case_lines::{Case, Kind, Tally};
use case_text::{Line, Lines};
use lent::Texts;
use printing::GoingOn;
use std::fs::File;
use std::io;

// The call over so many bytes of the buffer, with 64 or more before them and behind them that it is not lent.
fn lend(case: &Case, room: u32, out: &mut [u8]) -> Result<Answer, Fault> {
    let texts = Texts {
        rulebook: case.rulebook.as_slice(),
        goals: case.goals.as_slice(),
        certificate: case.certificate.as_slice(),
    };
    let end = 64 + room as usize;
    if out.len() < end + 64 {
        return Err(Fault::TooLong(Call::Page));
    }
    lent_calls::answered(
        Call::Page,
        areas::garbage(),
        case.lengths,
        texts,
        &mut out[64..end],
    )
}

// What a case answers over a buffer of so many bytes. "A release that is refused writes no byte." The buffer is an array, so that no memory can be
// missing.
fn answered(case: &Case, room: u32) -> Result<Answer, Fault> {
    let mut out = [0u8; 48640];
    buffers::fill(&mut out);
    let seen = lend(case, room, &mut out);
    let page = match seen {
        Ok(answer) if answer.number == 0 => case.page.as_slice(),
        _ => b"",
    };
    buffers::with_buffer(seen, &out, 64, page)
}

// A call of the case at hand against the answer that is stated, counted: `page BUFFER NUMBER LENGTH`.
fn compare<R: Print>(rt: &R, case: &Case, tally: Tally, line: Line<'_>) -> io::Result<Tally> {
    let (room, line) = line.behind(5).number();
    let (number, line) = line.behind(1).number();
    let (length, _) = line.behind(1).number();
    let due = Answer {
        call: Call::Page,
        number,
        counts: [length, 0, 0, 0, 0],
    };
    let seen = answered(case, room);
    case_lines::compared(rt, tally, format_args!("page {room}"), due, seen)
}

// All lines: one that states an answer, or one that changes the case at hand. Crate `paper_cases` says why it has a loop of its own.
fn all<R: Print>(rt: &R, list: &[u8]) -> io::Result<Tally> {
    let mut case = Case::none();
    let mut tally = Tally::default();
    for line in Lines::of(list) {
        if Kind::of(line) == Kind::Answer {
            tally = compare(rt, &case, tally, line)?;
        } else {
            case_lines::read_line(rt, &mut case, &mut tally, line)?;
        }
    }
    Ok(tally)
}

fn main(rt: HostRuntime) -> io::Result<()> {
    let mut file = File::open(&rt, "cases.txt")?;
    // An array, so that no memory can be missing. A longer list is read as far as this goes.
    let mut list = [0u8; 131072];
    let n = reading::fill(&mut file, &mut list)?;
    let out = GoingOn(&rt);
    let tally = all(&out, &list[..n])?;
    print!(out; "{tally}")
}
