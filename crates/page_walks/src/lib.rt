// The walks over three texts, the page written from what they leave, and the areas cleared behind them.
#![tactic(auto)]

ghost use Rattle.std.specs.Prelude.{◌≡◌, length, replicate};
ghost use Rattle.checker.specs.Below.outcomes.specs.Told.{told};
ghost use Rattle.lent.specs.Lent.{Same};
ghost use Rattle.checker.specs.Checker as checking;
ghost use Rattle.checker.specs.Numbers.{numbered};
ghost use Rattle.writing.specs.Answers.{told as written};
ghost use Rattle.page_walks.specs.Walks.{answered, page_by};

use checker::Counts;
use lent::{Areas, Texts};
use outcomes::Refusal;
use writing::Written;

// What is answered of what the walks answer, a refusal by its number, whichever number that is: L2: "31, output longer than the lent buffer, after all of
// 1 to 29, nothing written". The areas are parameters one by one: as one value they would ask more of a caller, a table and a heap that can be written.
#[tactic(auto, using(crate::proofs::Room::room), unfolding(crate::specs::Walks::answered))]
pub fn answer_by_number(
    checked: Result<Counts, u32>,
    texts: Texts<'_>,
    store: &mut [u32],
    table: &[u32],
    stack: &mut [u32],
    heap: &[u32],
    out: &mut [u8],
) -> Written
    ensures { (written result out.new, store.new, stack.new)
        ≡ answered (numbered checked) texts.entry.rulebook.now texts.entry.goals.now
        texts.entry.certificate.now table.now heap.now store.old stack.old out.old }
{
    match checked {
        Err(number) => writing::refused(number),
        Ok(c) => {
            let bytes = page_lines::LINE * (c.goals as usize + 1);
            if out.len() < bytes {
                return writing::refused(Refusal::OutputLong.number());
            }
            pages::page(texts, store, table, stack, heap, c.goals, c.steps, out);
            Written {
                number: 0,
                length: words::low(bytes),
            }
        }
    }
}

// The same of a refusal by its name.
pub fn answer(
    checked: Result<Counts, Refusal>,
    texts: Texts<'_>,
    store: &mut [u32],
    table: &[u32],
    stack: &mut [u32],
    heap: &[u32],
    out: &mut [u8],
) -> Written
    ensures { (written result out.new, store.new, stack.new)
        ≡ answered (told checked) texts.entry.rulebook.now texts.entry.goals.now
        texts.entry.certificate.now table.now heap.now store.old stack.old out.old }
{
    let numbered = match checked {
        Err(refusal) => Err(refusal.number()),
        Ok(counts) => Ok(counts),
    };
    answer_by_number(numbered, texts, store, table, stack, heap, out)
}

// All three texts, the page, then the areas cleared.
#[tactic(auto, unfolding(crate::specs::Walks::page_by))]
pub fn page(texts: Texts<'_>, areas: &mut Areas<'_>, out: &mut [u8]) -> Written
    ensures output { written result out.new
        ≡ page_by texts.entry.rulebook.now texts.entry.goals.now texts.entry.certificate.now
        (checking.check texts.entry.rulebook.now texts.entry.goals.now texts.entry.certificate.now
        areas.old.store.now areas.old.table.now areas.old.stack.now areas.old.heap.now) out.old }
    ensures same { Same areas.old areas.new }
    ensures store { areas.new.store.now ≡ replicate (length areas.old.store.now) 0 }
    ensures table { areas.new.table.now ≡ replicate (length areas.old.table.now) 0 }
    ensures stack { areas.new.stack.now ≡ replicate (length areas.old.stack.now) 0 }
    ensures heap { areas.new.heap.now ≡ replicate (length areas.old.heap.now) 0 }
{
    let checked = checker::check(texts, areas);
    let written = answer(
        checked,
        texts,
        areas.store,
        &mut *areas.table,
        areas.stack,
        &mut *areas.heap,
        out,
    );
    clearing::clear_all(areas);
    written
}
