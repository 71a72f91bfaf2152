// The release page, written from what the walks over three texts leave in the areas. The names shown are parts of the rulebook and of the
// goals text.
#![tactic(auto)]

ghost use Rattle.std.specs.Prelude.{◌*◌, ◌≡◌};
ghost use Rattle.pages.specs.Pages.{line_at, lines_to, page_from};

use lent::Texts;
use nodes::limits;
use tables::StepPart;

// The line of goal k: its name, its result's step, and the name of the rule of that step.
#[tactic(auto, unfolding(crate::specs::Pages::line_at))]
pub fn goal_line(texts: Texts<'_>, table: &[u32], heap: &[u32], k: u32, out: &mut [u8])
    ensures { out.new
        ≡ line_at texts.entry.rulebook.now texts.entry.goals.now table.now heap.now k out.old }
{
    let e = tables::goal_at(limits::DEF_BUCKETS, k);
    let n = tables::goal_result(table, e);
    let rule = tables::step_part(table, n, StepPart::Rule);
    let name = shown_names::shown(false, texts.rulebook, texts.goals, table, e);
    let by = shown_names::shown(true, texts.rulebook, texts.goals, heap, rule);
    page_lines::goal_line(out, k, name, n, by);
}

// The lines of the first n goals, in goals order.
#[tactic(auto, using(crate::proofs::Turns::turns))]
pub fn goal_lines(texts: Texts<'_>, table: &[u32], heap: &[u32], n: u32, out: &mut [u8])
    ensures { out.new
        ≡ lines_to n texts.entry.rulebook.now texts.entry.goals.now table.now heap.now out.old }
{
    for k in 0..n {
        goal_line(texts, table, heap, k, out);
    }
}

// The page of a release that has so many goals and steps. The store's area and the stack are free by now: the one takes the marks of the
// steps, the other the references that are read again. The areas are parameters one by one: as one value they would ask more of a caller, a
// table and a heap that can be written.
#[tactic(auto, unfolding(crate::specs::Pages::page_from))]
pub fn page(
    texts: Texts<'_>,
    store: &mut [u32],
    table: &[u32],
    stack: &mut [u32],
    heap: &[u32],
    goals: u32,
    steps: u32,
    out: &mut [u8],
)
    ensures { (out.new, store.new, stack.new)
        ≡ page_from texts.entry.rulebook.now texts.entry.goals.now texts.entry.certificate.now
        table.now heap.now goals steps store.old stack.old out.old }
{
    let used = used_steps::used_steps(texts.certificate, table, stack, store, goals, steps);
    goal_lines(texts, table, heap, goals, out);
    page_lines::last_line(out, goals, used, steps);
}
