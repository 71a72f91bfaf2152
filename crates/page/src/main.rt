// The program that writes the release page: of rulebook.txt, goals.txt and proof.txt of the current folder.
#![tactic(auto)]

use release_files::Three;

fn main(rt: HostRuntime) {
    let names: Three<&[u8]> = Three {
        rulebook: b"rulebook.txt",
        goals: b"goals.txt",
        certificate: b"proof.txt",
    };
    page_files::show(&rt, names);
}
