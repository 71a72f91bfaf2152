// How many steps are used: one backward pass over the steps, which marks what results and used steps lean on, a word for each step.
// The table, the references and the marks are parameters one by one: the four areas as one value would ask more of a caller, a table that can
// be written and a heap.
#![tactic(auto)]

ghost use Rattle.std.specs.Prelude.{◌≡◌};
ghost use Rattle.used_steps.specs.Marks.{marked, results_marked, leaned, counted, used_count};

use lex::Reader;
use nodes::limits;
use tables::StepPart;

// Marks the first n steps that an area names.
#[tactic(auto, using(crate::proofs::Turns::turns))]
pub fn mark(marks: &mut [u32], named: &[u32], n: u32)
    ensures { marks.new ≡ marked n named.now marks.old }
{
    for k in (0..n).rev() {
        let step = words::at(named, k as usize);
        words::put(marks, step as usize, 1);
    }
}

// Marks the results' steps of the first n goals.
#[tactic(auto, using(crate::proofs::Turns::turns))]
pub fn mark_results(marks: &mut [u32], table: &[u32], n: u32)
    ensures { marks.new ≡ results_marked n table.now marks.old }
{
    for k in (0..n).rev() {
        let e = tables::goal_at(limits::DEF_BUCKETS, k);
        let step = tables::goal_result(table, e);
        words::put(marks, step as usize, 1);
    }
}

// Marks the steps that step n refers to: its list is read again from the certificate.
#[tactic(auto, unfolding(crate::specs::Marks::leaned))]
pub fn lean(certificate: &[u8], table: &[u32], refs: &mut [u32], marks: &mut [u32], n: u32)
    ensures { (refs.new, marks.new) ≡ leaned certificate.now table.now n (refs.old, marks.old) }
{
    let place = tables::step_part(table, n, StepPart::Place);
    let tested = tables::step_part(table, n, StepPart::Tested);
    let listed = Reader::bare(place as usize, tested as usize);
    let Ok((count, _)) = references::references(certificate, refs, listed) else {
        return;
    };
    mark(marks, refs, count);
}

// Goes back over the first n steps: how many are marked when they are come to, each of which then marks those that it refers to.
#[tactic(auto, using(crate::proofs::Turns::turns))]
pub fn count(certificate: &[u8], table: &[u32], refs: &mut [u32], marks: &mut [u32], n: u32) -> u32
    ensures { (result, refs.new, marks.new)
        ≡ counted n certificate.now table.now 0 (refs.old, marks.old) }
{
    let mut used: u32 = 0;
    for k in (0..n).rev() {
        if words::at(marks, k as usize) != 0 {
            used = words::plus(used, 1);
            lean(certificate, table, refs, marks, k);
        }
    }
    used
}

// How many of so many steps are used, where so many goals have their results.
#[tactic(auto, unfolding(crate::specs::Marks::used_count))]
pub fn used_steps(
    certificate: &[u8],
    table: &[u32],
    refs: &mut [u32],
    marks: &mut [u32],
    goals: u32,
    steps: u32,
) -> u32
    ensures { (result, refs.new, marks.new)
        ≡ used_count certificate.now table.now goals steps (refs.old, marks.old) }
{
    words::clear(marks, steps as usize);
    mark_results(marks, table, goals);
    count(certificate, table, refs, marks, steps)
}
