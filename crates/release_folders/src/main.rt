// Runs what the program `release` runs on files that stand in the folders of data/: the bench set, and it with one of its
// three files refused, missing, empty, at its limit, too long, or a folder. The answers that are due are worked from
// document 01, and their last field from L1: 7 for the bench set with blanks behind any of its texts.
#![tactic(auto)]

use printing::GoingOn;
use release_files::Three;
use std::io;
use std::rt::Files;

// The names of the three files in each folder. Not every file is there: of `none` no file, of `longer` the certificate alone.
const BENCH: Three<&str> = Three {
    rulebook: "bench/rulebook.txt",
    goals: "bench/goals.txt",
    certificate: "bench/proof.txt",
};

const REFUSED: Three<&str> = Three {
    rulebook: "refused/rulebook.txt",
    goals: "refused/goals.txt",
    certificate: "refused/proof.txt",
};

const NONE: Three<&str> = Three {
    rulebook: "none/rulebook.txt",
    goals: "none/goals.txt",
    certificate: "none/proof.txt",
};

const EMPTY: Three<&str> = Three {
    rulebook: "empty/rulebook.txt",
    goals: "empty/goals.txt",
    certificate: "empty/proof.txt",
};

const LIMIT: Three<&str> = Three {
    rulebook: "limit/rulebook.txt",
    goals: "limit/goals.txt",
    certificate: "limit/proof.txt",
};

const LONG: Three<&str> = Three {
    rulebook: "long/rulebook.txt",
    goals: "long/goals.txt",
    certificate: "long/proof.txt",
};

const LONGER: Three<&str> = Three {
    rulebook: "longer/rulebook.txt",
    goals: "longer/goals.txt",
    certificate: "longer/proof.txt",
};

const FOLDER: Three<&str> = Three {
    rulebook: "folder/rulebook.txt",
    goals: "folder/goals.txt",
    certificate: "folder/proof.txt",
};

// Each case: what its files are, and the folder of the rulebook, of the goals and of the certificate.
const CASES: [(&str, [Three<&str>; 3]); 26] = [
    // The bench set.
    ("bench set", [BENCH, BENCH, BENCH]),
    // Each of the three texts refused.
    ("rulebook refused", [REFUSED, BENCH, BENCH]),
    ("goals refused", [BENCH, REFUSED, BENCH]),
    ("certificate refused", [BENCH, BENCH, REFUSED]),
    // Each of the three files missing, and all.
    ("no rulebook.txt", [NONE, BENCH, BENCH]),
    ("no goals.txt", [BENCH, NONE, BENCH]),
    ("no proof.txt", [BENCH, BENCH, NONE]),
    ("none of the three", [NONE, NONE, NONE]),
    // 30 comes before all else.
    ("no proof.txt, rulebook refused", [REFUSED, BENCH, NONE]),
    ("no goals.txt, rulebook too long", [LONG, NONE, BENCH]),
    // Each of the three files empty.
    ("rulebook empty", [EMPTY, BENCH, BENCH]),
    ("goals empty", [BENCH, EMPTY, BENCH]),
    ("certificate empty", [BENCH, BENCH, EMPTY]),
    // Files as long as they may be.
    ("rulebook of 8,192 bytes", [LIMIT, BENCH, BENCH]),
    ("goals of 8,192 bytes", [BENCH, LIMIT, BENCH]),
    ("certificate of 32,768 bytes", [BENCH, BENCH, LIMIT]),
    ("all three at their limits", [LIMIT, LIMIT, LIMIT]),
    // Files that are too long: 2, before any text is judged.
    ("rulebook of 8,193 bytes", [LONG, BENCH, BENCH]),
    ("goals of 8,193 bytes", [BENCH, LONG, BENCH]),
    ("certificate of 32,769 bytes", [BENCH, BENCH, LONG]),
    ("certificate of 100,000 bytes", [BENCH, BENCH, LONGER]),
    (
        "certificate too long, rulebook refused",
        [REFUSED, BENCH, LONG],
    ),
    // A folder opens and cannot be read.
    ("rulebook.txt a folder", [FOLDER, BENCH, BENCH]),
    ("goals.txt a folder", [BENCH, FOLDER, BENCH]),
    ("proof.txt a folder", [BENCH, BENCH, FOLDER]),
    (
        "proof.txt a folder, rulebook too long",
        [LONG, BENCH, FOLDER],
    ),
];

// One line: what the files are, and the answer on them. Where the first half of it is not written, the second is tried all the same.
fn show(
    rt: &(impl Files + Print + Eprint),
    label: &str,
    folders: [Three<&str>; 3],
) -> io::Result<()> {
    let [rulebook, goals, certificate] = folders;
    let names = Three {
        rulebook: rulebook.rulebook.as_bytes(),
        goals: goals.goals.as_bytes(),
        certificate: certificate.certificate.as_bytes(),
    };
    let out = GoingOn(rt);
    print!(out; "{label}\t")?;
    release_files::print(rt, release_files::release(rt, names));
    Ok(())
}

fn main(rt: HostRuntime) -> io::Result<()> {
    for (label, folders) in CASES {
        show(&rt, label, folders)?;
    }
    Ok(())
}
