// The call with the rulebook alone: the lengths, then both walks over the first 16,384 words of each area, cleared behind them.
#![tactic(auto)]

ghost use Rattle.std.specs.Prelude.{◌≡◌, length, replicate};
ghost use Rattle.horn.specs.Setting.{document01};
ghost use Rattle.horn.specs.Calls.{called, rulebook_left};
ghost use Rattle.theory.specs.Below.outcomes.specs.Told.{told, number};
ghost use Rattle.theory.specs.Walks.{theory};
ghost use Rattle.rulebook_call.specs.Reports.{reported, reported_by, answered};

use lent::Areas;
use outcomes::Refusal;
use theory::Counts;

// A number, and the counts of what the rulebook declares. C reads it: so a number stands beside the counts, and it is no Result.
#[repr(C)]
#[derive(Clone, Copy)]
pub struct RulebookReport {
    pub number: u32,
    pub sorts: u32,
    pub constructors: u32,
    pub predicates: u32,
    pub rules: u32,
}

// "A refusal has zero counts."
impl From<Refusal> for RulebookReport {
    ghost from_gives = { λ refusal report. report ≡ record { number = number refusal; sorts = 0; constructors = 0; predicates = 0; rules = 0 } };

    fn from(refusal: Refusal) -> RulebookReport {
        RulebookReport {
            number: refusal.number(),
            sorts: 0,
            constructors: 0,
            predicates: 0,
            rules: 0,
        }
    }
}

// What is reported of what the walks over a rulebook answer.
impl From<Result<Counts, Refusal>> for RulebookReport {
    ghost from_gives = { λ judged report. report ≡ reported (told judged) };

    fn from(judged: Result<Counts, Refusal>) -> RulebookReport {
        match judged {
            Err(refusal) => RulebookReport::from(refusal),
            Ok(c) => RulebookReport {
                number: 0,
                sorts: c.sorts,
                constructors: c.constructors,
                predicates: c.predicates,
                rules: c.rules,
            },
        }
    }
}

// Both walks over a rulebook, then the areas cleared behind them. The areas are four parameters and become one value here: lent within a
// struct, a part of a longer area would be known by its length alone afterwards.
fn judge(text: &[u8], a: &mut [u32], b: &mut [u32], c: &mut [u32], d: &mut [u32]) -> RulebookReport
    ensures report { result ≡ reported_by (theory text.now b.old c.old d.old) }
    ensures first { a.new ≡ replicate (length a.old) 0 }
    ensures second { b.new ≡ replicate (length b.old) 0 }
    ensures third { c.new ≡ replicate (length c.old) 0 }
    ensures fourth { d.new ≡ replicate (length d.old) 0 }
{
    let judged = theory::theory(text, b, c, d);
    clearing::clear_all(&mut Areas {
        store: a,
        table: b,
        stack: c,
        heap: d,
    });
    RulebookReport::from(judged)
}

// "One call takes the rulebook alone and answers a number and the counts of sorts, constructors, predicates and rules."
// The areas are four parameters, since the C interface lends them one by one.
#[tactic(auto, using(crate::proofs::Call::unjudged))]
pub fn rulebook(
    rulebook: &[u8],
    a: &mut [u32],
    b: &mut [u32],
    c: &mut [u32],
    d: &mut [u32],
) -> RulebookReport
    ensures { called (answered result) a.new b.new c.new d.new
        ≡ rulebook_left document01 a.old b.old c.old d.old rulebook.now }
{
    if !clearing::long_enough(a.len(), b.len(), c.len(), d.len()) {
        return RulebookReport::from(Refusal::AreaShort);
    }
    if clearing::TEXT_BYTES < rulebook.len() {
        return RulebookReport::from(Refusal::TextLong);
    }
    judge(
        rulebook,
        &mut a[..clearing::AREA_WORDS],
        &mut b[..clearing::AREA_WORDS],
        &mut c[..clearing::AREA_WORDS],
        &mut d[..clearing::AREA_WORDS],
    )
}
