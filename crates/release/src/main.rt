// The program: rulebook.txt, goals.txt and proof.txt of the current folder to one line.
#![tactic(auto)]

use release_files::Three;

fn main(rt: HostRuntime) {
    let names: Three<&[u8]> = Three {
        rulebook: b"rulebook.txt",
        goals: b"goals.txt",
        certificate: b"proof.txt",
    };
    release_files::print(&rt, release_files::release(&rt, names));
}
