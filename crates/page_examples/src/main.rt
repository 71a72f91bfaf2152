// Pages in full, for whoever wants to see one: the call that writes the page, its number and length, and whether all other bytes of the buffer are
// as they were; numbers in their field, longer ones than a release can have; and what the program `page` writes of files, refused ones too.
#![tactic(auto)]

use answers::{Answer, Call, Fault};
use areas::Lengths;
use lent::Texts;
use printing::GoingOn;
use release_files::Three;
use std::io;
use std::rt::Files;

// The call over so many bytes of the buffer.
fn lend(room: usize, texts: Texts<'_>, out: &mut [u8]) -> Result<Answer, Fault> {
    let lent = out.get_mut(..room).ok_or(Fault::TooLong(Call::Page))?;
    lent_calls::answered(
        Call::Page,
        areas::garbage(),
        Lengths::default(),
        texts,
        lent,
    )
}

// Writes what the call answers over so many bytes of a buffer, and the page. The buffer is an array, so that no memory can be missing.
fn show<R: Print>(rt: &R, label: &str, room: usize, texts: Texts<'_>) -> io::Result<()> {
    let mut out = [0u8; 512];
    buffers::fill(&mut out);
    let seen = lend(room, texts, &mut out);
    if let Err(fault) = seen {
        print!(rt; "{fault}")?;
    }
    let answer = answers::written(seen);
    let page = &out[..out.len().min(answer.counts[0] as usize)];
    let left = if buffers::holds(&out, 0, page) {
        ", all else untouched\n"
    } else {
        ", and more touched\n"
    };
    print!(rt; "{label}:{answer}{left}")?;
    rt.write_all(page)
}

// The example set, in a buffer of so many bytes.
fn example_set<R: Print>(rt: &R, label: &str, room: usize) -> io::Result<()> {
    show(
        rt,
        label,
        room,
        Texts {
            rulebook: b"(sort t)(ctor z () t)(ctor s (t) t)(pred hold (t))(rule base () (hold z))(rule more ((hold ?x)) (hold (s ?x)))",
            goals: b"(goal g (hold (s z)))",
            certificate: b"(step 0 base ())\n(step 1 more (0))\n(result g 1)\n",
        },
    )
}

// More goals than one, and a step of four that none leans on.
fn goals<R: Print>(rt: &R) -> io::Result<()> {
    show(
        rt,
        "three goals, results in another order",
        512,
        Texts {
            rulebook: b"(sort t)(ctor z () t)(ctor s (t) t)(pred hold (t))(rule base () (hold z))(rule more ((hold ?x)) (hold (s ?x)))",
            goals: b"(goal two (hold (s (s z))))(goal none (hold z))(goal one (hold (s z)))",
            certificate: b"(step 0 base ())(step 1 more (0))(result one 1)(step 2 base ())(result none 0)(step 3 more (1))(result two 3)",
        },
    )
}

// Names as long as their fields, one byte shorter, one longer.
fn names<R: Print>(rt: &R) -> io::Result<()> {
    show(
        rt,
        "names of 31, 32 and 33 bytes, of rules 21, 22 and 23",
        512,
        Texts {
            rulebook: b"(sort t)(ctor z () t)(pred hold (t))(rule x23456789012345678901 () (hold z))(rule y234567890123456789012 () (hold z))\
                (rule w2345678901234567890123 () (hold z))",
            goals: b"(goal a234567890123456789012345678901 (hold z))(goal b2345678901234567890123456789012 (hold z))\
                (goal c23456789012345678901234567890123 (hold z))",
            certificate: b"(step 0 x23456789012345678901 ())(step 1 y234567890123456789012 ())(step 2 w2345678901234567890123 ())\
                (result a234567890123456789012345678901 0)(result b2345678901234567890123456789012 1)(result c23456789012345678901234567890123 2)",
        },
    )
}

// A character of three bytes at the end of the field, and one or two bytes beyond it.
fn characters<R: Print>(rt: &R) -> io::Result<()> {
    show(
        rt,
        "a character up to the 32nd byte and across it, of rules the 22nd",
        512,
        Texts {
            rulebook: b"(sort t)(ctor z () t)(pred hold (t))(rule x234567890123456789\xe2\x82\xac () (hold z))\
                (rule y2345678901234567890\xe2\x82\xac () (hold z))(rule w23456789012345678901\xe2\x82\xac () (hold z))",
            goals: b"(goal a2345678901234567890123456789\xe2\x82\xac (hold z))(goal b23456789012345678901234567890\xe2\x82\xac (hold z))\
                (goal c234567890123456789012345678901\xe2\x82\xac (hold z))",
            certificate: b"(step 0 x234567890123456789\xe2\x82\xac ())(step 1 y2345678901234567890\xe2\x82\xac ())(step 2 w23456789012345678901\xe2\x82\xac ())\
                (result a2345678901234567890123456789\xe2\x82\xac 0)(result b23456789012345678901234567890\xe2\x82\xac 1)\
                (result c234567890123456789012345678901\xe2\x82\xac 2)",
        },
    )
}

// "Halves up".
fn percentage<R: Print>(rt: &R) -> io::Result<()> {
    show(
        rt,
        "1 of 8 steps used",
        512,
        Texts {
            rulebook: b"(sort t)(ctor z () t)(pred hold (t))(rule base () (hold z))",
            goals: b"(goal g (hold z))",
            certificate: b"(step 0 base ())(step 1 base ())(step 2 base ())(step 3 base ())(step 4 base ())(step 5 base ())(step 6 base ())(step 7 base ())\
                (result g 7)",
        },
    )
}

// A number in the page's field of 8 bytes. A release has at most 2,257 steps: more digits are shown here alone.
fn number<R: Print>(rt: &R, n: u32) -> io::Result<()> {
    let mut field = [0u8; 8];
    writing::put_number(&mut field, 0, 8, n);
    rt.write_all(b"[")?;
    rt.write_all(&field)?;
    rt.write_all(b"]\n")
}

// What the program writes of three files: the page, or the line of a refusal.
fn files<R: Files + Print + Eprint>(rt: &R, rulebook: &[u8], goals: &[u8], certificate: &[u8]) {
    page_files::show(
        rt,
        Three {
            rulebook,
            goals,
            certificate,
        },
    );
}

fn main(rt: HostRuntime) -> io::Result<()> {
    let out = GoingOn(&rt);
    example_set(&out, "one byte short", 129)?;
    example_set(&out, "exactly as long", 130)?;
    example_set(&out, "longer", 200)?;
    goals(&out)?;
    names(&out)?;
    characters(&out)?;
    percentage(&out)?;
    for n in [0, 10, 999, 2256, 65535] {
        number(&out, n)?;
    }
    files(&rt, b"rulebook.txt", b"goals.txt", b"proof.txt");
    files(&rt, b"refused.txt", b"goals.txt", b"proof.txt");
    files(&rt, b"rulebook.txt", b"none.txt", b"proof.txt");
    files(&rt, b"rulebook.txt", b"goals.txt", b"none.txt");
    Ok(())
}
