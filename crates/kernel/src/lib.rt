// The public calls. The texts and the areas are parameters one by one, since the C interface (crate `kernel_c`) lends them so.
#![tactic(auto)]

ghost use Rattle.std.specs.Prelude.{◌≡◌, length};
ghost use Rattle.horn.specs.Setting.{document01};
ghost use Rattle.horn.specs.Calls.{called, rulebook_left, release_left};
ghost use Rattle.horn.specs.Demand3.{Sound, Complete};
ghost use Rattle.horn.specs.Longer.{Kept};
ghost use Rattle.horn.specs.Page.{page_left};
ghost use Rattle.rulebook_call.specs.Reports.{answered};
ghost use Rattle.reports.specs.Release.{told};
ghost use Rattle.writing.specs.Answers.{told as written};

use reports::Report;
use rulebook_call::RulebookReport;
use writing::Written;

// "One call takes the rulebook alone and answers a number and the counts of sorts, constructors, predicates and rules."
pub fn rulebook(
    rulebook: &[u8],
    a: &mut [u32],
    b: &mut [u32],
    c: &mut [u32],
    d: &mut [u32],
) -> RulebookReport
    ensures { called (answered result) a.new b.new c.new d.new
        ≡ rulebook_left document01 a.old b.old c.old d.old rulebook.now }
{
    rulebook_call::rulebook(rulebook, a, b, c, d)
}

// "The other takes three texts and answers a number, steps, goals, terms, bytes." L1: "a fifth count, nodes requested".
pub fn release(
    rulebook: &[u8],
    goals: &[u8],
    certificate: &[u8],
    a: &mut [u32],
    b: &mut [u32],
    c: &mut [u32],
    d: &mut [u32],
) -> Report
    ensures whole { called (told result) a.new b.new c.new d.new
        ≡ release_left document01 a.old b.old c.old d.old rulebook.now goals.now
        certificate.now }
    ensures sound { Sound document01 rulebook.now goals.now (told result) }
    ensures complete { Complete document01 (length a.old) (length b.old) (length c.old) (length d.old)
        rulebook.now goals.now certificate.now (told result) }
    ensures kept { Kept document01 (length a.old) (length b.old) (length c.old) (length d.old)
        rulebook.now goals.now certificate.now (told result) }
{
    release_call::release(rulebook, goals, certificate, a, b, c, d)
}

// L2: the page of an accepted release, to a lent buffer of bytes.
pub fn page(
    rulebook: &[u8],
    goals: &[u8],
    certificate: &[u8],
    a: &mut [u32],
    b: &mut [u32],
    c: &mut [u32],
    d: &mut [u32],
    out: &mut [u8],
) -> Written
    ensures { called (written result out.new) a.new b.new c.new d.new
        ≡ page_left document01 a.old b.old c.old d.old rulebook.now goals.now
        certificate.now out.old }
{
    page_call::page(rulebook, goals, certificate, a, b, c, d, out)
}
