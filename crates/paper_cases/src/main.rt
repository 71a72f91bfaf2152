// Runs both calls on the cases of the paper, docs/paper/cases.txt (docs/paper/cases.md has its form), over areas that held other words,
// and compares number, counts and areas with what the paper states. That list is this program's own data, so that neither can differ
// from the other.
#![tactic(auto)]

use answers::Call;
use case_lines::{Case, Kind, Tally};
use case_text::{Line, Lines};
use lent::Texts;
use printing::GoingOn;
use std::fs::File;
use std::io;

// A call of the case at hand against the answer that is stated, counted.
fn compare<R: Print>(
    rt: &R,
    call: Call,
    case: &Case,
    tally: Tally,
    line: Line<'_>,
) -> io::Result<Tally> {
    let due = case_lines::read_stated(call, line.behind(line.before(b' ')).behind(1));
    let texts = Texts {
        rulebook: case.rulebook.as_slice(),
        goals: case.goals.as_slice(),
        certificate: case.certificate.as_slice(),
    };
    let seen = lent_calls::answered(call, areas::garbage(), case.lengths, texts, &mut []);
    case_lines::compared(rt, tally, call, due, seen)
}

// `release ANSWER`, `rulebook ANSWER` or `both ANSWER`, told apart by their first two bytes.
fn answer_line<R: Print>(rt: &R, case: &Case, tally: Tally, line: Line<'_>) -> io::Result<Tally> {
    match (line.byte(0), line.byte(1)) {
        (b'b', _) => {
            let after = compare(rt, Call::Release, case, tally, line)?;
            compare(rt, Call::Rulebook, case, after, line)
        }
        (_, b'u') => compare(rt, Call::Rulebook, case, tally, line),
        _ => compare(rt, Call::Release, case, tally, line),
    }
}

// All lines: one that states an answer, or one that changes the case at hand. One loop for this and crate `page_cases` would take a closure that
// says of each line what it states, which is no plainer than this; what else the two share is in crate `case_lines`.
fn all<R: Print>(rt: &R, list: &[u8]) -> io::Result<Tally> {
    let mut case = Case::none();
    let mut tally = Tally::default();
    for line in Lines::of(list) {
        if Kind::of(line) == Kind::Answer {
            tally = answer_line(rt, &case, tally, line)?;
        } else {
            case_lines::read_line(rt, &mut case, &mut tally, line)?;
        }
    }
    Ok(tally)
}

fn main(rt: HostRuntime) -> io::Result<()> {
    let mut file = File::open(&rt, "cases.txt")?;
    // An array, so that no memory can be missing. A longer list is read as far as this goes.
    let mut list = [0u8; 131072];
    let n = reading::fill(&mut file, &mut list)?;
    let out = GoingOn(&rt);
    let tally = all(&out, &list[..n])?;
    print!(out; "{tally}")
}
