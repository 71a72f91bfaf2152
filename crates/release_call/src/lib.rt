// The call with three texts: the lengths, then what crate `walks` answers of the first 16,384 words of each area.
#![tactic(auto)]

ghost use Rattle.std.specs.Prelude.{◌≡◌, length, replicate};
ghost use Rattle.horn.specs.Setting.{document01};
ghost use Rattle.horn.specs.Calls.{called, release_left};
ghost use Rattle.horn.specs.Demand3.{Sound, Complete};
ghost use Rattle.horn.specs.Longer.{Kept};
ghost use Rattle.reports.specs.Below.checker.specs.Checker as checking;
ghost use Rattle.reports.specs.Release.{told, released_by};

use lent::{Areas, Texts};
use reports::Report;

// The walks over areas of just this length. The areas are four parameters and become one value here: lent within a struct, a part of a longer
// area would be known by its length alone afterwards.
fn judge(
    texts: Texts<'_>,
    bytes: u32,
    a: &mut [u32],
    b: &mut [u32],
    c: &mut [u32],
    d: &mut [u32],
) -> Report
    ensures report { result
        ≡ released_by bytes (checking.check texts.entry.rulebook.now texts.entry.goals.now
        texts.entry.certificate.now a.old b.old c.old d.old) }
    ensures first { a.new ≡ replicate (length a.old) 0 }
    ensures second { b.new ≡ replicate (length b.old) 0 }
    ensures third { c.new ≡ replicate (length c.old) 0 }
    ensures fourth { d.new ≡ replicate (length d.old) 0 }
{
    walks::check(
        texts,
        bytes,
        &mut Areas {
            store: a,
            table: b,
            stack: c,
            heap: d,
        },
    )
}

// "The other takes three texts and answers a number, steps, goals, terms, bytes." L1: "a fifth count, nodes requested".
// The texts and the areas are parameters one by one, since the C interface lends them so.
#[tactic(auto, using(reports::proofs::Lengths::lengths_right))]
pub fn release(
    rulebook: &[u8],
    goals: &[u8],
    certificate: &[u8],
    a: &mut [u32],
    b: &mut [u32],
    c: &mut [u32],
    d: &mut [u32],
) -> Report
    ensures whole { called (told result) a.new b.new c.new d.new
        ≡ release_left document01 a.old b.old c.old d.old rulebook.now goals.now
        certificate.now }
    ensures sound { Sound document01 rulebook.now goals.now (told result) }
    ensures complete { Complete document01 (length a.old) (length b.old) (length c.old) (length d.old)
        rulebook.now goals.now certificate.now (told result) }
    ensures kept { Kept document01 (length a.old) (length b.old) (length c.old) (length d.old)
        rulebook.now goals.now certificate.now (told result) }
{
    let texts = Texts {
        rulebook,
        goals,
        certificate,
    };
    match reports::check_lengths(texts, a.len(), b.len(), c.len(), d.len()) {
        Err(refusal) => Report::from(refusal),
        Ok(()) => judge(
            texts,
            certificate.len() as u32,
            &mut a[..clearing::AREA_WORDS],
            &mut b[..clearing::AREA_WORDS],
            &mut c[..clearing::AREA_WORDS],
            &mut d[..clearing::AREA_WORDS],
        ),
    }
}
