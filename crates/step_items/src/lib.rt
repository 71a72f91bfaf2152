// The items of a step: bindings, and the judgment that it states. What is under construction stands on the stack above the references.
// The stated one is `word`: 0, or its number plus 1, in 32 bits, as the model says it: an Option could not tell none from the number 2 to
// the 32 less 1. `rule`, `top` and `word` stay three numbers: each is changed by another function.
#![tactic(auto)]

ghost use Rattle.std.specs.Prelude.{◌≡◌};
ghost use Rattle.lent.specs.Lent.{SameStep};
ghost use Rattle.outcomes.specs.Leaving.{◌leaving◌};
ghost use Rattle.outcomes.specs.Told.{told};
ghost use Rattle.step_items.specs.StepItems as models;

use asking::Look;
use lent::{StepAreas, Texts};
use lex::Reader;
use nodes::Scope;
use outcomes::Refusal;

// "Otherwise a judgment; a second, once read, is 22." `word` tells the one stated before.
#[tactic(auto, unfolding(crate::specs::StepItems::stated))]
pub fn stated(
    scope: &Scope<'_, '_>,
    store: &mut [u32],
    stack: &mut [u32],
    top: u32,
    word: u32,
    s: usize,
    t: usize,
    reader: Reader,
) -> Result<(u32, Reader), Refusal>
    ensures { (told result leaving ((store.new, stack.new), scope.now.heap.now))
        ≡ models.stated scope.now.text.now scope.now.rules.now scope.now.table.now top word s t reader
        store.old stack.old scope.now.heap.now }
{
    let (k, next) = judgments::headed_judgment(
        scope,
        store,
        stack,
        top,
        asking::IN_LIST,
        s,
        t,
        reader,
    )?;
    if word != 0 {
        return Err(Refusal::SecondConclusion);
    }
    Ok((words::plus(k, 1), next))
}

// An item whose head, an atom with these bounds, was asked for.
#[tactic(auto, unfolding(crate::specs::StepItems::headed_item))]
pub fn headed_item(
    texts: Texts<'_>,
    areas: &mut StepAreas<'_>,
    rule: u32,
    top: u32,
    word: u32,
    s: usize,
    t: usize,
    reader: Reader,
) -> Result<(u32, Reader), Refusal>
    ensures same { SameStep areas.old areas.new }
    ensures after { (told result leaving ((areas.new.store.now, areas.new.stack.now), areas.new.heap.now))
        ≡ models.headed_item texts.entry.certificate.now texts.entry.rulebook.now areas.old.table.now rule top word s t reader
        areas.old.store.now areas.old.stack.now areas.old.heap.now }
{
    if items::is_question(texts.certificate, s) {
        let next = step_bindings::binding(texts, areas, rule, top, s, t, reader)?;
        return Ok((word, next));
    }
    let scope = Scope {
        text: texts.certificate,
        rules: texts.rulebook,
        heap: &mut *areas.heap,
        table: areas.table,
    };
    stated(&scope, areas.store, areas.stack, top, word, s, t, reader)
}

// "An item is a list with an atom head".
#[tactic(auto, unfolding(crate::specs::StepItems::item))]
pub fn item(
    texts: Texts<'_>,
    areas: &mut StepAreas<'_>,
    rule: u32,
    top: u32,
    word: u32,
    reader: Reader,
) -> Result<(u32, Reader), Refusal>
    ensures same { SameStep areas.old areas.new }
    ensures after { (told result leaving ((areas.new.store.now, areas.new.stack.now), areas.new.heap.now))
        ≡ models.item texts.entry.certificate.now texts.entry.rulebook.now areas.old.table.now rule top word reader
        areas.old.store.now areas.old.stack.now areas.old.heap.now }
{
    let opened = asking::list_due(texts.certificate, asking::IN_FORM, reader)?;
    let (s, t, next) = asking::atom_due(texts.certificate, asking::IN_LIST, opened)?;
    headed_item(texts, areas, rule, top, word, s, t, next)
}

// All items of a step: the word that tells the stated conclusion, and the reader after the closing.
#[tactic(auto, using(crate::proofs::Turns::turns), unfolding(crate::specs::StepItems::items))]
pub fn items(
    texts: Texts<'_>,
    areas: &mut StepAreas<'_>,
    rule: u32,
    top: u32,
    reader: Reader,
) -> Result<(u32, Reader), Refusal>
    ensures same { SameStep areas.old areas.new }
    ensures after { (told result leaving ((areas.new.store.now, areas.new.stack.now), areas.new.heap.now))
        ≡ models.items texts.entry.certificate.now texts.entry.rulebook.now areas.old.table.now rule top reader
        areas.old.store.now areas.old.stack.now areas.old.heap.now }
{
    let mut r = reader;
    let mut word: u32 = 0;
    for _turn in 0..=texts.certificate.len() {
        match asking::closing_next(texts.certificate, r)? {
            Look::Closing(next) => return Ok((word, next)),
            Look::Member(held) => {
                (word, r) = item(texts, areas, rule, top, word, held)?;
            }
        }
    }
    // Out of turns: the laws show that this is never met.
    Err(Refusal::TextLong)
}
