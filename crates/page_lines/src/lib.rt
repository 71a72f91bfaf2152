// The lines of the release page, each 65 bytes, at their places in a lent buffer.
#![tactic(auto)]

ghost use Rattle.std.specs.Prelude.{◌*◌, ◌%◌, ◌≡◌};
ghost use Rattle.horn.specs.Page.{goal_line};
ghost use Rattle.writing.specs.Buffer.{placed};
ghost use Rattle.page_lines.specs.Lines.{percent, used_line};

// The bytes of a line.
pub const LINE: usize = 65;

// The line of goal k. A number of more than eight digits is shown modulo 100,000,000: no release has one.
#[tactic(auto, using(crate::proofs::Joins::goal_written))]
pub fn goal_line(out: &mut [u8], k: u32, name: &[u8], n: u32, rule: &[u8])
    ensures { out.new
        ≡ placed (65 * k) (goal_line name.now (n % 100000000) rule.now) out.old }
{
    let at = LINE * k as usize;
    writing::put_name(out, at, 32, name);
    writing::fill(out, at + 32, 1);
    writing::put_number(out, at + 33, 8, n % 100000000);
    writing::fill(out, at + 41, 1);
    writing::put_name(out, at + 42, 22, rule);
    words::put(out, at + 64, 0x0A);
}

// "The percentage is 100 times used divided by steps, halves up"; 0 where there are no steps, which no accepted release has.
#[tactic(auto, unfolding(crate::specs::Lines::percent, horn::specs::Page::percentage))]
pub fn percentage(used: u32, steps: u32) -> u32
    ensures { result ≡ percent used steps }
{
    if steps == 0 {
        return 0;
    }
    let twice = 2 * u64::from(steps);
    let p = (200 * u64::from(used) + u64::from(steps)) / twice;
    (p % 1000) as u32
}

// The last line, behind those of k goals.
#[tactic(auto, using(crate::proofs::Joins::last_written), unfolding(horn::specs::Names::codes))]
pub fn last_line(out: &mut [u8], k: u32, used: u32, steps: u32)
    ensures { out.new ≡ placed (65 * k) (used_line (percent used steps)) out.old }
{
    let at = LINE * k as usize;
    let p = percentage(used, steps);
    writing::put_bytes(out, at, b"used ");
    writing::put_number(out, at + 5, 3, p);
    writing::put_bytes(out, at + 8, b"%");
    writing::fill(out, at + 9, 55);
    words::put(out, at + 64, 0x0A);
}
