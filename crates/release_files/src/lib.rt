// Three named files to a report, and a report to its line: what the program `release` does.
//
// No contract can say which bytes a file holds. So what is read goes into buffers, and `answer_read` says all that follows from them and from how far each
// was filled.
#![tactic(auto)]

ghost use Rattle.std.specs.Prelude.{◌≡◌, ◌≤◌, length, replicate, IfSome};
ghost use Rattle.std.specs.Io.{ReadsAtMost};
ghost use Rattle.horn.specs.Setting.{document01};
ghost use Rattle.horn.specs.Calls.{release_call};
ghost use Rattle.reports.specs.Release.{told};
ghost use Rattle.release_files.specs.Answers.{text, up_to, all_of, answered, Answered};

use outcomes::Refusal;
use reports::Report;
use std::rt::Files;
use std::{fs, io};

// One thing for each of the three texts: the names of their files, or what was read of them, or how far.
#[derive(Clone, Copy)]
pub struct Three<T> {
    pub rulebook: T,
    pub goals: T,
    pub certificate: T,
}

impl<T: Copy> Three<Option<T>> {
    // All three, or nothing if one is missing.
    pub fn all(self) -> Option<Three<T>>
        ensures { result ≡ all_of self.rulebook self.goals self.certificate }
    {
        Some(Three {
            rulebook: self.rulebook?,
            goals: self.goals?,
            certificate: self.certificate?,
        })
    }
}

// What the three texts are read into. Each has one byte more than its text may have: so it is full where the file is too long, and no more of
// that is read. Arrays, so that no memory can be missing; 49 KB of them, so it is not copied.
#[derive(Drop)]
pub struct Buffers {
    rulebook: [u8; 8193],
    goals: [u8; 8193],
    certificate: [u8; 32769],
}

impl Buffers {
    // Nothing read yet.
    pub fn new() -> Buffers
        ensures rulebook { result.rulebook ≡ replicate 8193 0 }
        ensures goals { result.goals ≡ replicate 8193 0 }
        ensures certificate { result.certificate ≡ replicate 32769 0 }
    {
        Buffers {
            rulebook: [0; 8193],
            goals: [0; 8193],
            certificate: [0; 32769],
        }
    }

    // How many bytes of each file are now at its buffer's start, from the names of the files; none for one that is not read, which is said on standard
    // error.
    pub fn fill(&mut self, rt: &(impl Files + Eprint), names: Three<&[u8]>) -> Three<Option<usize>>
        ensures rulebook { IfSome result.rulebook (λ n. n ≤ 8193) }
        ensures goals { IfSome result.goals (λ n. n ≤ 8193) }
        ensures certificate { IfSome result.certificate (λ n. n ≤ 32769) }
    {
        Three {
            rulebook: fill(rt, names.rulebook, &mut self.rulebook),
            goals: fill(rt, names.goals, &mut self.goals),
            certificate: fill(rt, names.certificate, &mut self.certificate),
        }
    }

    // All three buffers, whole.
    pub fn all(&self) -> Three<&[u8]>
        ensures rulebook { result.rulebook.now ≡ self.now.rulebook }
        ensures goals { result.goals.now ≡ self.now.goals }
        ensures certificate { result.certificate.now ≡ self.now.certificate }
    {
        Three {
            rulebook: &self.rulebook,
            goals: &self.goals,
            certificate: &self.certificate,
        }
    }

    // The three texts, from the names of their files; none for a file that is not read, which is said on standard error.
    pub fn read(&mut self, rt: &(impl Files + Eprint), names: Three<&[u8]>) -> Three<Option<&[u8]>>
        ensures rulebook { IfSome result.rulebook (λ text. length text.now ≤ 8193) }
        ensures goals { IfSome result.goals (λ text. length text.now ≤ 8193) }
        ensures certificate { IfSome result.certificate (λ text. length text.now ≤ 32769) }
    {
        let Buffers {
            rulebook,
            goals,
            certificate,
        } = self;
        Three {
            rulebook: read(rt, names.rulebook, rulebook),
            goals: read(rt, names.goals, goals),
            certificate: read(rt, names.certificate, certificate),
        }
    }
}

// The text that a buffer begins with, up to where its file was read.
#[tactic(auto, unfolding(words::specs::Parts::part))]
fn text_up_to(buffer: &[u8], end: Option<usize>) -> Option<&[u8]>
    ensures text { text result ≡ up_to end buffer.now }
    ensures within { IfSome result (λ text. length text.now ≤ length buffer.now) }
{
    let end = end?;
    if end <= buffer.len() {
        return Some(&buffer[..end]);
    }
    Some(buffer)
}

// The three texts that were read, from the buffers and how far each was filled.
pub fn texts<'a>(buffers: Three<&'a [u8]>, ends: Three<Option<usize>>) -> Three<Option<&'a [u8]>>
    ensures rulebook { text result.rulebook ≡ up_to ends.rulebook buffers.entry.rulebook.now }
    ensures goals { text result.goals ≡ up_to ends.goals buffers.entry.goals.now }
    ensures certificate { text result.certificate ≡ up_to ends.certificate buffers.entry.certificate.now }
{
    Three {
        rulebook: text_up_to(buffers.rulebook, ends.rulebook),
        goals: text_up_to(buffers.goals, ends.goals),
        certificate: text_up_to(buffers.certificate, ends.certificate),
    }
}

// Says on standard error what failed, and why.
fn tell(rt: &impl Eprint, what: &str, why: io::Error) {
    let _ = eprintln!(rt; "{what}: {why}");
}

// Fills the buffer from a file, as far as it goes. One that cannot be read, such as a folder, is an error.
fn fill_from(rt: &impl Files, name: &str, buffer: &mut [u8]) -> io::Result<usize>
    ensures { ReadsAtMost result buffer.new }
{
    let mut file = fs::open(rt, name)?;
    reading::fill(&mut file, buffer)
}

// The same, by a name of any bytes; says on standard error why a file is not read. The library opens no file whose name is not UTF-8.
pub fn fill(rt: &(impl Files + Eprint), name: &[u8], buffer: &mut [u8]) -> Option<usize>
    ensures { IfSome result (λ n. n ≤ length buffer.new) }
{
    let Ok(name) = str::from_utf8(name) else {
        tell(
            rt,
            "a file's name",
            io::Error::from(io::ErrorKind::InvalidInput),
        );
        return None;
    };
    match fill_from(rt, name, buffer) {
        Ok(n) => Some(n),
        Err(why) => {
            tell(rt, name, why);
            None
        }
    }
}

// What a file holds, as far as the buffer goes.
pub fn read<'a>(rt: &(impl Files + Eprint), name: &[u8], buffer: &'a mut [u8]) -> Option<&'a [u8]>
    ensures { IfSome result (λ text. length text.now ≤ length buffer.old) }
{
    let end = fill(rt, name, buffer);
    text_up_to(buffer, end)
}

// The call over areas just long enough. One for both programs would take a closure over four areas, which is no plainer than these lines.
#[tactic(auto, unfolding(horn::specs::Calls::release_left, horn::specs::Calls::leaving))]
fn call(texts: Three<&[u8]>) -> Report
    ensures { told result
        ≡ release_call document01 16384 16384 16384 16384 texts.entry.rulebook.now texts.entry.goals.now texts.entry.certificate.now }
{
    let mut a = [0u32; 16384];
    let mut b = [0u32; 16384];
    let mut c = [0u32; 16384];
    let mut d = [0u32; 16384];
    kernel::release(
        texts.rulebook,
        texts.goals,
        texts.certificate,
        &mut a,
        &mut b,
        &mut c,
        &mut d,
    )
}

// The report on three texts, of which a file that was not opened gives none: "30 comes only from the program, before all else". `Report` has the
// number beside the counts, since it is what `kernel::release` hands to C.
#[tactic(auto, unfolding(crate::specs::Answers::answered, horn::specs::Refusals::number))]
pub fn answer(texts: Three<Option<&[u8]>>) -> Report
    ensures { told result ≡ answered (text texts.entry.rulebook) (text texts.entry.goals) (text texts.entry.certificate) }
{
    let Some(all) = texts.all() else {
        return Report::from(Refusal::NotOpened);
    };
    call(all)
}

// The report on three files, from their buffers and how far each was filled.
pub fn answer_read(buffers: Three<&[u8]>, ends: Three<Option<usize>>) -> Report
    ensures { told result ≡ answered (up_to ends.rulebook buffers.entry.rulebook.now)
        (up_to ends.goals buffers.entry.goals.now) (up_to ends.certificate buffers.entry.certificate.now) }
{
    answer(texts(buffers, ends))
}

// The report on three files, by their names.
pub fn release(rt: &(impl Files + Eprint), names: Three<&[u8]>) -> Report
    ensures { Answered (told result) }
{
    let mut buffers = Buffers::new();
    let ends = buffers.fill(rt, names);
    answer_read(buffers.all(), ends)
}

// Writes bytes to standard output, as they are: the contracts of the page and of crate `report_line` say which, so that nothing is formatted here.
pub fn write(rt: &(impl Print + Eprint), bytes: &[u8]) {
    if let Err(why) = rt.write_all(bytes) {
        tell(rt, "standard output", why);
    }
}

// Writes the line of a report to standard output. No line is longer than 66 bytes; an array, so that no memory can be missing.
pub fn print(rt: &(impl Print + Eprint), r: Report) {
    let mut line = [0u8; 66];
    let n = report_line::line(&r, &mut line);
    write(rt, &line[..n]);
}
