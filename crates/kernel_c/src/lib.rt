// The public calls, for C and Rust: bindings/c/horn.h declares them. A static library, which no crate can name; crate `kernel` is the same for Rattle.
// The texts and the areas are parameters one by one, as C lends them: an address and a length for each.
#![tactic(auto)]

ghost use Rattle.std.specs.Prelude.{◌≡◌, length};
ghost use Rattle.horn.specs.Setting.{document01};
ghost use Rattle.horn.specs.Calls.{called, rulebook_left, release_left};
ghost use Rattle.horn.specs.Demand3.{Sound, Complete};
ghost use Rattle.horn.specs.Longer.{Kept};
ghost use Rattle.horn.specs.Page.{page_left};
ghost use Rattle.rulebook_call.specs.Reports.{answered};
ghost use Rattle.reports.specs.Release.{told};
ghost use Rattle.writing.specs.Answers.{told as written};

use reports::Report;
use rulebook_call::RulebookReport;
use writing::Written;

// The call with the rulebook alone, for C and Rust.
#[unsafe(no_mangle)]
pub extern "C" fn horn_rulebook(
    text: &[u8],
    a: &mut [u32],
    b: &mut [u32],
    c: &mut [u32],
    d: &mut [u32],
) -> RulebookReport
    ensures { called (answered result) a.new b.new c.new d.new
        ≡ rulebook_left document01 a.old b.old c.old d.old text.now }
{
    kernel::rulebook(text, a, b, c, d)
}

// The call with three texts, for C and Rust.
#[unsafe(no_mangle)]
pub extern "C" fn horn_release(
    rulebook: &[u8],
    goals: &[u8],
    certificate: &[u8],
    a: &mut [u32],
    b: &mut [u32],
    c: &mut [u32],
    d: &mut [u32],
) -> Report
    ensures whole { called (told result) a.new b.new c.new d.new
        ≡ release_left document01 a.old b.old c.old d.old rulebook.now goals.now
        certificate.now }
    ensures sound { Sound document01 rulebook.now goals.now (told result) }
    ensures complete { Complete document01 (length a.old) (length b.old) (length c.old) (length d.old)
        rulebook.now goals.now certificate.now (told result) }
    ensures kept { Kept document01 (length a.old) (length b.old) (length c.old) (length d.old)
        rulebook.now goals.now certificate.now (told result) }
{
    kernel::release(rulebook, goals, certificate, a, b, c, d)
}

// The call that writes the release page, for C and Rust.
#[unsafe(no_mangle)]
pub extern "C" fn horn_page(
    rulebook: &[u8],
    goals: &[u8],
    certificate: &[u8],
    a: &mut [u32],
    b: &mut [u32],
    c: &mut [u32],
    d: &mut [u32],
    out: &mut [u8],
) -> Written
    ensures { called (written result out.new) a.new b.new c.new d.new
        ≡ page_left document01 a.old b.old c.old d.old rulebook.now goals.now
        certificate.now out.old }
{
    kernel::page(rulebook, goals, certificate, a, b, c, d, out)
}
