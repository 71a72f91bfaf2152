// The call that writes the release page: the lengths, then what crate `page_walks` answers of the first 16,384 words of each area.
#![tactic(auto)]

ghost use Rattle.std.specs.Prelude.{◌≡◌, length, replicate};
ghost use Rattle.horn.specs.Setting.{document01};
ghost use Rattle.horn.specs.Calls.{called};
ghost use Rattle.horn.specs.Page.{page_left};
ghost use Rattle.page_walks.specs.Below.checker.specs.Checker as checking;
ghost use Rattle.page_walks.specs.Walks.{page_by};
ghost use Rattle.writing.specs.Answers.{told};

use lent::{Areas, Texts};
use writing::Written;

// The walks and the page over areas of just this length. The areas are four parameters and become one value here: lent within a struct, a part
// of a longer area would be known by its length alone afterwards.
fn judge(
    texts: Texts<'_>,
    a: &mut [u32],
    b: &mut [u32],
    c: &mut [u32],
    d: &mut [u32],
    out: &mut [u8],
) -> Written
    ensures output { told result out.new
        ≡ page_by texts.entry.rulebook.now texts.entry.goals.now texts.entry.certificate.now
        (checking.check texts.entry.rulebook.now texts.entry.goals.now texts.entry.certificate.now
        a.old b.old c.old d.old) out.old }
    ensures first { a.new ≡ replicate (length a.old) 0 }
    ensures second { b.new ≡ replicate (length b.old) 0 }
    ensures third { c.new ≡ replicate (length c.old) 0 }
    ensures fourth { d.new ≡ replicate (length d.old) 0 }
{
    page_walks::page(
        texts,
        &mut Areas {
            store: a,
            table: b,
            stack: c,
            heap: d,
        },
        out,
    )
}

// L2: "For an accepted release, write one line for each goal in goals order".
// The texts and the areas are parameters one by one, since the C interface lends them so.
#[tactic(auto, using(reports::proofs::Lengths::lengths_right))]
pub fn page(
    rulebook: &[u8],
    goals: &[u8],
    certificate: &[u8],
    a: &mut [u32],
    b: &mut [u32],
    c: &mut [u32],
    d: &mut [u32],
    out: &mut [u8],
) -> Written
    ensures { called (told result out.new) a.new b.new c.new d.new
        ≡ page_left document01 a.old b.old c.old d.old rulebook.now goals.now
        certificate.now out.old }
{
    let texts = Texts {
        rulebook,
        goals,
        certificate,
    };
    match reports::check_lengths(texts, a.len(), b.len(), c.len(), d.len()) {
        Err(refusal) => writing::refused(refusal.number()),
        Ok(()) => judge(
            texts,
            &mut a[..clearing::AREA_WORDS],
            &mut b[..clearing::AREA_WORDS],
            &mut c[..clearing::AREA_WORDS],
            &mut d[..clearing::AREA_WORDS],
            out,
        ),
    }
}
