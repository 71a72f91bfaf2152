// What the call with three texts reports of what the walks answer, and the lengths that the calls with three texts ask for.
#![tactic(auto)]

ghost use Rattle.std.specs.Prelude.{◌≡◌, length};
ghost use Rattle.outcomes.specs.Told.{number, told};
ghost use Rattle.checker.specs.Numbers.{numbered};
ghost use Rattle.reports.specs.Lengths.{lengths_tested};
ghost use Rattle.reports.specs.Release.{released};

use checker::Counts;
use lent::Texts;
use outcomes::Refusal;

// A number, the counts of a release, and the certificate's length. C reads it: so a number stands beside the counts, and it is no Result.
#[repr(C)]
#[derive(Clone, Copy)]
pub struct Report {
    pub number: u32,
    pub steps: u32,
    pub goals: u32,
    pub terms: u32,
    pub bytes: u32,
    pub requested: u32,
}

// "A refusal has zero counts." By its number alone, for callers that have no more.
pub fn unreleased(number: u32) -> Report
    ensures { result ≡ record { number = number; steps = 0; goals = 0; terms = 0; bytes = 0; requested = 0 } }
{
    Report {
        number,
        steps: 0,
        goals: 0,
        terms: 0,
        bytes: 0,
        requested: 0,
    }
}

// The same of a refusal by its name.
impl From<Refusal> for Report {
    ghost from_gives = { λ refusal report. report
        ≡ record { number = number refusal; steps = 0; goals = 0; terms = 0; bytes = 0; requested = 0 } };

    fn from(refusal: Refusal) -> Report {
        unreleased(refusal.number())
    }
}

// What is reported of what the walks over three texts answer, a refusal by its number, whichever number that is.
pub fn accepted_by_number(checked: Result<Counts, u32>, bytes: u32) -> Report
    ensures { result ≡ released bytes (numbered checked) }
{
    match checked {
        Err(number) => unreleased(number),
        Ok(c) => Report {
            number: 0,
            steps: c.steps,
            goals: c.goals,
            terms: c.terms,
            bytes,
            requested: c.requested,
        },
    }
}

// The same of a refusal by its name.
pub fn accepted(checked: Result<Counts, Refusal>, bytes: u32) -> Report
    ensures { result ≡ released bytes (told checked) }
{
    match checked {
        Err(refusal) => accepted_by_number(Err(refusal.number()), bytes),
        Ok(counts) => accepted_by_number(Ok(counts), bytes),
    }
}

// "Order: area lengths, text lengths": 1 where one of four areas is too short, 2 where one of three texts is too long.
#[tactic(auto, unfolding(crate::specs::Lengths::lengths_tested))]
pub fn check_lengths(
    texts: Texts<'_>,
    a: usize,
    b: usize,
    c: usize,
    d: usize,
) -> Result<(), Refusal>
    ensures { told result
        ≡ lengths_tested a b c d (length texts.entry.rulebook.now) (length texts.entry.goals.now)
        (length texts.entry.certificate.now) }
{
    if !clearing::long_enough(a, b, c, d) {
        return Err(Refusal::AreaShort);
    }
    if clearing::TEXT_BYTES < texts.rulebook.len() {
        return Err(Refusal::TextLong);
    }
    if clearing::TEXT_BYTES < texts.goals.len() {
        return Err(Refusal::TextLong);
    }
    if clearing::CERTIFICATE_BYTES < texts.certificate.len() {
        return Err(Refusal::TextLong);
    }
    Ok(())
}
