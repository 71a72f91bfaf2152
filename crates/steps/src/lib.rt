// A step of a certificate, which is read whole before it is kept.
#![tactic(auto)]

ghost use Rattle.std.specs.Prelude.{◌≡◌};
ghost use Rattle.lent.specs.Lent.{SameStep};
ghost use Rattle.outcomes.specs.Leaving.{◌leaving◌};
ghost use Rattle.outcomes.specs.Told.{told};
ghost use Rattle.steps.specs.Steps as models;

use lent::{StepAreas, Texts};
use lex::Reader;
use nodes::limits;
use outcomes::Refusal;

// "Items; matching": the judgment of a step by a rule, whose n references stand on the stack. No variable is bound before.
#[tactic(auto, unfolding(crate::specs::Steps::items_judged))]
pub fn items_judged(
    texts: Texts<'_>,
    areas: &mut StepAreas<'_>,
    steps: u32,
    rule: u32,
    n: u32,
    reader: Reader,
) -> Result<(u32, Reader), Refusal>
    ensures same { SameStep areas.old areas.new }
    ensures after { (told result leaving ((areas.new.store.now, areas.new.stack.now), areas.new.heap.now))
        ≡ models.items_judged texts.entry.certificate.now texts.entry.rulebook.now areas.old.table.now steps rule n reader
        areas.old.store.now areas.old.stack.now areas.old.heap.now }
{
    let heap = &mut *areas.heap;
    let variables = theory_reading::variable_count(heap, rule);
    concluding::unbind(heap, variables);
    let (word, next) = step_items::items(texts, areas, rule, n, reader)?;
    let judgment = concluding::conclude(areas, limits::STORE, steps, rule, word)?;
    Ok((judgment, next))
}

// "`(step I R (I...) item...)`", behind its head. `steps` is the number of steps so far. A step is its judgment's number, its rule's address,
// the place of its references in the certificate, up to where the certificate had been tested there, and the reader after its items. The table takes them
// at once, so that no struct holds them.
#[tactic(auto, unfolding(crate::specs::Steps::step))]
pub fn step(
    texts: Texts<'_>,
    areas: &mut StepAreas<'_>,
    steps: u32,
    reader: Reader,
) -> Result<(u32, u32, usize, usize, Reader), Refusal>
    ensures same { SameStep areas.old areas.new }
    ensures after { (told result leaving ((areas.new.store.now, areas.new.stack.now), areas.new.heap.now))
        ≡ models.step texts.entry.certificate.now texts.entry.rulebook.now areas.old.table.now steps reader
        areas.old.store.now areas.old.stack.now areas.old.heap.now }
{
    let text = texts.certificate;
    let heap = &mut *areas.heap;
    let (rule, opened) = references::rule_due(text, texts.rulebook, heap, steps, reader)?;
    let (n, listed) = references::counted_references(text, heap, areas.stack, rule, opened)?;
    let (judgment, next) = items_judged(texts, areas, steps, rule, n, listed)?;
    Ok((judgment, rule, opened.at, opened.end, next))
}
