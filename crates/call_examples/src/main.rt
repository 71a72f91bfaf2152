// Runs either call on the examples of document 01 and of its readings, over areas that held other words, and writes for each its
// number, its counts, and what it did to the areas.
//
// compare/replay-data writes the file `examples` (crate `call_cases` has its form) and the answers that are due. The byte
// of a case that is the program's own says what the areas hold before, 1 for ones, else words of no sense; and 2 is added where the
// rulebook is judged alone. Its first four numbers are the words of each area that are lent; the fifth says nothing.
#![tactic(auto)]

use answers::{Answer, Call, Fault};
use areas::Lengths;
use call_cases::{Buffers, Case};
use lent::Texts;
use printing::GoingOn;
use std::fs::File;
use std::io;
use std::io::Read;

// One case over as many words of each area as it lends.
fn judge(case: Case<'_>) -> Result<Answer, Fault> {
    let head = case.head;
    let call = if 2 <= head.own {
        Call::Rulebook
    } else {
        Call::Release
    };
    let before = if head.own % 2 == 1 {
        areas::ones()
    } else {
        areas::garbage()
    };
    let lengths = Lengths {
        first: head.first,
        second: head.second,
        third: head.third,
        fourth: head.fourth,
    };
    let texts = Texts {
        rulebook: case.rulebook,
        goals: case.goals,
        certificate: case.certificate,
    };
    lent_calls::answered(call, before, lengths, texts, &mut [])
}

// Writes what a case answers, and what it did to the areas. A label is written as its bytes are, since it need not be text.
fn show<R: Print>(rt: &R, label: &[u8], seen: Result<Answer, Fault>) -> io::Result<()> {
    if let Err(fault) = seen {
        print!(rt; "{fault}")?;
    }
    rt.write_all(label)?;
    let answer = answers::written(seen);
    let areas = if answers::cleared(answer.number) == 0 {
        " untouched\n"
    } else {
        " cleared\n"
    };
    print!(rt; ":{answer}{areas}")
}

// Runs the next case of the file, and answers whether there may be one more. The buffers are arrays, so that no memory can be missing.
fn run_next<R: Print, F: Read>(rt: &R, file: &mut F) -> io::Result<bool> {
    let buffers = Buffers {
        label: &mut [0; 255],
        rulebook: &mut [0; 8193],
        goals: &mut [0; 8193],
        certificate: &mut [0; 32769],
    };
    match call_cases::next_case(file, buffers) {
        Some(Ok(case)) => {
            show(rt, case.label, judge(case))?;
            Ok(true)
        }
        Some(Err(_)) => {
            print!(rt; "a case cut short\n")?;
            Ok(false)
        }
        None => Ok(false),
    }
}

fn main(rt: HostRuntime) -> io::Result<()> {
    let mut file = File::open(&rt, "examples")?;
    let out = GoingOn(&rt);
    // Nothing says that a file ends: so many cases at most.
    for _ in 0..1000000 {
        if !run_next(&out, &mut file)? {
            break;
        }
    }
    Ok(())
}
