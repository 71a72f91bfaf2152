// The goals text. Its goals stand in the table (crate tables), their judgments in the store; the stack is empty between two goals.
#![tactic(auto)]

ghost use Rattle.std.specs.Prelude.{◌≡◌, ◌+◌, length};
ghost use Rattle.outcomes.specs.Told.{told};
ghost use Rattle.outcomes.specs.Leaving.{◌leaving◌};
ghost use Rattle.lent.specs.Lent.{SameGoal};
ghost use Rattle.goals.specs.Goals.{goal_name, goal, goals_from, goals};

use lent::{GoalAreas, Texts};
use lex::Reader;
use nodes::Scope;
use outcomes::Refusal;
use tables::Tally;

// "`(goal N J)`: another head is 9, N with `?` 11": the bounds of N, and the reader after it. The form's opening was taken.
#[tactic(auto, using(words::proofs::Laws::same_pointwise), unfolding(crate::specs::Goals::goal_name))]
pub fn goal_name(text: &[u8], reader: Reader) -> Result<(usize, usize, Reader), Refusal>
    ensures { told result ≡ goal_name text.now reader }
{
    let (s, t, r) = asking::atom_due(text, asking::IN_FORM, reader)?;
    if words::part(text, s, t) != b"goal".as_slice() {
        return Err(Refusal::Form);
    }
    let (s, t, r) = asking::atom_due(text, asking::IN_FORM, r)?;
    if items::is_question(text, s) {
        return Err(Refusal::VariableName);
    }
    Ok((s, t, r))
}

// "J; closing (else 10); duplicate 13." The whole form is read before the table is written: how many goals there are now, and the reader
// after the form.
#[tactic(auto, unfolding(crate::specs::Goals::goal))]
pub fn goal(
    texts: Texts<'_>,
    areas: &mut GoalAreas<'_>,
    tally: Tally,
    reader: Reader,
) -> Result<(Tally, Reader), Refusal>
    ensures same { SameGoal areas.old areas.new }
    ensures after { (told result leaving ((areas.new.store.now, areas.new.stack.now), areas.new.table.now))
        ≡ goal texts.entry.goals.now texts.entry.rulebook.now areas.old.heap.now tally reader
        areas.old.store.now areas.old.stack.now areas.old.table.now }
{
    let text = texts.goals;
    let (s, t, r) = goal_name(text, reader)?;
    let table = &mut *areas.table;
    let scope = Scope {
        text,
        rules: texts.rulebook,
        heap: areas.heap,
        table,
    };
    let (k, r) = judgments::judgment(&scope, areas.store, areas.stack, 0, asking::IN_FORM, r)?;
    let r = asking::closing_due(text, r)?;
    if tables::find_goal(table, text, words::part(text, s, t)).is_some() {
        return Err(Refusal::Duplicate);
    }
    Ok((tables::add_goal(table, text, s, t, k, tally), r))
}

// All goals, in order: how many there are at the end of the text.
#[tactic(auto, using(crate::proofs::Turns::turns))]
pub fn goals_from(
    texts: Texts<'_>,
    areas: &mut GoalAreas<'_>,
    tally: Tally,
    reader: Reader,
) -> Result<Tally, Refusal>
    ensures same { SameGoal areas.old areas.new }
    ensures after { (told result leaving ((areas.new.store.now, areas.new.stack.now), areas.new.table.now))
        ≡ goals_from (length texts.entry.goals.now + 1) texts.entry.goals.now texts.entry.rulebook.now
        areas.old.heap.now tally reader areas.old.store.now areas.old.stack.now areas.old.table.now }
{
    let mut sofar = tally;
    let mut r = reader;
    for _turn in 0..texts.goals.len() + 1 {
        let Some(q) = asking::form_due(texts.goals, r)? else {
            return Ok(sofar);
        };
        (sofar, r) = goal(texts, areas, sofar, q)?;
    }
    // Out of turns: the laws show that this is never met.
    Err(Refusal::TextLong)
}

// "After all goals, none is 17."
#[tactic(auto, unfolding(crate::specs::Goals::goals))]
pub fn goals(texts: Texts<'_>, areas: &mut GoalAreas<'_>, tally: Tally) -> Result<Tally, Refusal>
    ensures same { SameGoal areas.old areas.new }
    ensures after { (told result leaving ((areas.new.store.now, areas.new.stack.now), areas.new.table.now))
        ≡ goals texts.entry.goals.now texts.entry.rulebook.now areas.old.heap.now tally
        areas.old.store.now areas.old.stack.now areas.old.table.now }
{
    let all = goals_from(texts, areas, tally, Reader::new())?;
    if all.goals == 0 {
        return Err(Refusal::NoGoal);
    }
    Ok(all)
}
