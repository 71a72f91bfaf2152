// Replays kept cases with the Rust's answers (compare/cases/fixed.tsv and rulebooks.tsv) over areas that held other words. The fifth
// count of a release, which the Rust has not, is that of compare's second opinion.
//
// compare/replay-data writes the file `cases` (crate `call_cases` has its form). The byte of a case that is the program's own is the
// number, with 128 added where the rulebook is judged alone; its five numbers are the counts, of which a rulebook alone has four and a 0.
#![tactic(auto)]

use answers::{Answer, Call, Difference, Fault, Tally};
use areas::Lengths;
use call_cases::{Buffers, Case, Head};
use lent::Texts;
use printing::GoingOn;
use std::fs::File;
use std::io;
use std::io::Read;

// The answer that was kept.
fn kept(head: Head) -> Answer {
    let (call, number) = if 128 <= head.own {
        (Call::Rulebook, head.own - 128)
    } else {
        (Call::Release, head.own)
    };
    Answer {
        call,
        number,
        counts: [head.first, head.second, head.third, head.fourth, head.fifth],
    }
}

// What a case answers now.
fn answered(call: Call, case: Case<'_>) -> Result<Answer, Fault> {
    let lengths = Lengths {
        first: 16384,
        second: 20000,
        third: 16385,
        fourth: 16384,
    };
    let texts = Texts {
        rulebook: case.rulebook,
        goals: case.goals,
        certificate: case.certificate,
    };
    lent_calls::answered(call, areas::garbage(), lengths, texts, &mut [])
}

// One case beside what was kept of it: writes the difference, if there is one, and answers whether there is. A fault counts by the number that is
// written for it. A label is written as its bytes are, since it need not be text.
fn differs<R: Print>(rt: &R, case: Case<'_>) -> io::Result<bool> {
    let due = kept(case.head);
    let seen = answered(due.call, case);
    if let Err(fault) = seen {
        print!(rt; "{fault}")?;
    }
    if answers::written(seen) == due {
        return Ok(false);
    }
    let difference = Difference {
        word: "kept",
        due,
        seen,
    };
    rt.write_all(case.label)?;
    println!(rt; "{difference}")?;
    Ok(true)
}

// Replays the next case of the file, and answers whether it differs; nothing at the file's end. A case that is cut short differs, and the file goes
// on behind what was read of it. The buffers are arrays, so that no memory can be missing.
fn replay_next<R: Print, F: Read>(rt: &R, file: &mut F) -> io::Result<Option<bool>> {
    let buffers = Buffers {
        label: &mut [0; 255],
        rulebook: &mut [0; 8192],
        goals: &mut [0; 8192],
        certificate: &mut [0; 32768],
    };
    match call_cases::next_case(file, buffers) {
        Some(Ok(case)) => Ok(Some(differs(rt, case)?)),
        Some(Err(_)) => {
            print!(rt; "a case cut short\n")?;
            Ok(Some(true))
        }
        None => Ok(None),
    }
}

fn main(rt: HostRuntime) -> io::Result<()> {
    let mut file = File::open(&rt, "cases")?;
    let out = GoingOn(&rt);
    let mut tally = Tally::default();
    // Nothing says that a file ends: so many cases at most.
    for _ in 0..1000000 {
        let Some(different) = replay_next(&out, &mut file)? else {
            break;
        };
        tally = tally.with(different);
    }
    print!(out; "{tally}")
}
