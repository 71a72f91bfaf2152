// The line of the program: "number, steps, goals, terms, bytes, parted by tabs, ended by 0A". L1: it "gains" requested "as a last field".
#![tactic(auto)]

ghost use Rattle.std.specs.Prelude.{◌≤◌, ◌≡◌, length, take};
ghost use Rattle.io.specs.Counts.{IsPrefixLen};
ghost use Rattle.reports.specs.Release.{told};
ghost use Rattle.writing.specs.Buffer.{placed};
ghost use Rattle.report_line.specs.Lines as lines;

use reports::Report;

// Puts a number from a place on, and one byte behind it. Answers how many bytes these are.
fn field(out: &mut [u8], at: u32, n: u32, end: u8) -> u32
    ensures text { out.new ≡ placed at (lines.field n end) out.old }
    ensures long { result ≡ length (lines.field n end) }
    ensures few { result ≤ 11 }
{
    let mut text = [0u8; 20];
    let k = io::decimal(n as u64, &mut text);
    writing::put_bytes(out, at as usize, &text[..k]);
    words::put(out, at as usize + k, end);
    k as u32 + 1
}

// The six numbers of a report, one behind the other.
#[tactic(auto, using(crate::proofs::Rows::row))]
fn fields(out: &mut [u8], r: &Report) -> u32
    ensures text { out.new ≡ placed 0 (lines.line (told r.now)) out.old }
    ensures long { result ≡ length (lines.line (told r.now)) }
    ensures few { result ≤ 66 }
{
    let a = field(out, 0, r.number, 9);
    let b = a + field(out, a, r.steps, 9);
    let c = b + field(out, b, r.goals, 9);
    let d = c + field(out, c, r.terms, 9);
    let e = d + field(out, d, r.bytes, 9);
    e + field(out, e, r.requested, 10)
}

// Puts the line of a report at the start of `out`, and answers how many bytes it has.
#[tactic(auto, using(crate::proofs::Rows::read))]
pub fn line(r: &Report, out: &mut [u8; 66]) -> usize
    ensures within { IsPrefixLen result out.new }
    ensures text { take result out.new ≡ lines.line (told r.now) }
{
    fields(out, r) as usize
}
