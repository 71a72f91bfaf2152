// A binding among the items of a step. Its term is under construction on the stack above the references; bindings stand in the theory's
// area (crate matching).
#![tactic(auto)]

ghost use Rattle.std.specs.Prelude.{◌≡◌};
ghost use Rattle.lent.specs.Lent.{SameStep};
ghost use Rattle.outcomes.specs.Leaving.{◌leaving◌};
ghost use Rattle.outcomes.specs.Told.{told};
ghost use Rattle.step_bindings.specs.StepBindings as models;

use items::places;
use lent::{StepAreas, Texts};
use lex::Reader;
use nodes::Scope;
use outcomes::Refusal;

// "`(?v T)`: unknown v 12, T, closing 10, bound already or wrong sort 21." The name v was asked for: an atom with these bounds.
#[tactic(auto, unfolding(crate::specs::StepBindings::binding, matching::specs::Matching::binding_of))]
pub fn binding(
    texts: Texts<'_>,
    areas: &mut StepAreas<'_>,
    rule: u32,
    top: u32,
    s: usize,
    t: usize,
    reader: Reader,
) -> Result<Reader, Refusal>
    ensures same { SameStep areas.old areas.new }
    ensures after { (told result leaving ((areas.new.store.now, areas.new.stack.now), areas.new.heap.now))
        ≡ models.binding texts.entry.certificate.now texts.entry.rulebook.now areas.old.table.now rule top s t reader
        areas.old.store.now areas.old.stack.now areas.old.heap.now }
{
    let (text, rules) = (texts.certificate, texts.rulebook);
    let (store, heap) = (&mut *areas.store, &mut *areas.heap);
    let name = words::part(text, s, t);
    let v = theory_reading::find_variable(heap, rule, rules, name).ok_or(Refusal::Unknown)?;
    let scope = Scope {
        text,
        rules,
        heap,
        table: areas.table,
    };
    let (k, behind) = terms::term(&scope, store, areas.stack, top, asking::IN_LIST, reader)?;
    let next = asking::closing_due(text, behind)?;
    if words::at(heap, places::BINDINGS + v as usize) != 0 {
        return Err(Refusal::BadBinding);
    }
    if nodes::sort_of(heap, store, k) != theory_reading::variable_sort(heap, rule, v) {
        return Err(Refusal::BadBinding);
    }
    matching::set_binding(heap, v, words::plus(k, 1));
    Ok(next)
}
