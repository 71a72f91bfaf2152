// Three named files to the release page, and the page to standard output: what the program `page` does. Files are read, and a refusal is
// shown, as crate `release_files` does it; and as there, `answer_read` says all that follows from what was read.
#![tactic(auto)]

ghost use Rattle.std.specs.Prelude.{◌≡◌};
ghost use Rattle.horn.specs.Setting.{document01};
ghost use Rattle.horn.specs.Page.{page_call};
ghost use Rattle.writing.specs.Answers.{told};
ghost use Rattle.release_files.specs.Answers.{text, up_to};
ghost use Rattle.page_files.specs.Answers.{answered, Answered};

use outcomes::Refusal;
use release_files::{Buffers, Three};
use std::rt::Files;
use writing::Written;

// The call over areas just long enough. One for both programs would take a closure over four areas, which is no plainer than these lines.
#[tactic(auto, unfolding(horn::specs::Page::page_left, horn::specs::Calls::leaving))]
fn call(texts: Three<&[u8]>, out: &mut [u8]) -> Written
    ensures { told result out.new
        ≡ page_call document01 16384 16384 16384 16384 texts.entry.rulebook.now texts.entry.goals.now texts.entry.certificate.now out.old }
{
    let mut a = [0u32; 16384];
    let mut b = [0u32; 16384];
    let mut c = [0u32; 16384];
    let mut d = [0u32; 16384];
    kernel::page(
        texts.rulebook,
        texts.goals,
        texts.certificate,
        &mut a,
        &mut b,
        &mut c,
        &mut d,
        out,
    )
}

// The page of three texts, of which a file that was not opened gives none: "30 comes only from the program, before all else". `Written` has the
// number beside the length, since it is what `kernel::page` hands to C.
#[tactic(auto, unfolding(crate::specs::Answers::answered, horn::specs::Output::output_of, horn::specs::Refusals::number))]
pub fn answer(texts: Three<Option<&[u8]>>, out: &mut [u8]) -> Written
    ensures { told result out.new
        ≡ answered (text texts.entry.rulebook) (text texts.entry.goals) (text texts.entry.certificate) out.old }
{
    let Some(all) = texts.all() else {
        return writing::refused(Refusal::NotOpened.number());
    };
    call(all, out)
}

// The page of three files, from their buffers and how far each was filled.
pub fn answer_read(buffers: Three<&[u8]>, ends: Three<Option<usize>>, out: &mut [u8]) -> Written
    ensures { told result out.new
        ≡ answered (up_to ends.rulebook buffers.entry.rulebook.now) (up_to ends.goals buffers.entry.goals.now)
        (up_to ends.certificate buffers.entry.certificate.now) out.old }
{
    answer(release_files::texts(buffers, ends), out)
}

// The page of three files, by their names.
pub fn page(rt: &(impl Files + Eprint), names: Three<&[u8]>, out: &mut [u8]) -> Written
    ensures { Answered (told result out.new) out.old }
{
    let mut buffers = Buffers::new();
    let ends = buffers.fill(rt, names);
    answer_read(buffers.all(), ends, out)
}

// Writes the page to standard output, or the line that the program `release` writes for a refusal.
fn print(rt: &(impl Print + Eprint), w: Written, out: &[u8]) {
    if w.number == 0 {
        release_files::write(rt, &out[..out.len().min(w.length as usize)]);
        return;
    }
    release_files::print(rt, reports::unreleased(w.number));
}

// The page of three files to standard output. A goal takes 11 bytes of the goals' 8,192, so that there are 744 of them at most, and 745 lines
// of 65 bytes. The buffer is an array, so that no memory can be missing.
pub fn show(rt: &(impl Files + Print + Eprint), names: Three<&[u8]>) {
    let mut out = [0u8; 48425];
    let w = page(rt, names, &mut out);
    print(rt, w, &out);
}
