// The certificate: its forms by their heads, `def` and `result` as the crate forms reads them, a step read (crate steps) and recorded. The
// table holds goals, abbreviations and steps (crate tables); a form reads whole before it writes there.
#![tactic(auto)]

ghost use Rattle.std.specs.Prelude.{◌≡◌, ◌+◌, length};
ghost use Rattle.lent.specs.Lent.{Same};
ghost use Rattle.lex.specs.Answers.{start};
ghost use Rattle.outcomes.specs.Leaving.{◌leaving◌};
ghost use Rattle.outcomes.specs.Told.{told};
ghost use Rattle.certificates.specs.Certificates.{step_form, form_read, forms_from, certificate};

use forms::Keyword;
use lent::{Areas, GoalAreas, StepAreas, Texts};
use lex::Reader;
use outcomes::Refusal;
use tables::Tally;

// "`(step I R (I...) item...)`": the step that was read and judged, recorded.
#[tactic(auto, unfolding(crate::specs::Certificates::step_form))]
pub fn step_form(
    texts: Texts<'_>,
    areas: &mut Areas<'_>,
    tally: Tally,
    reader: Reader,
) -> Result<(Tally, Reader), Refusal>
    ensures same { Same areas.old areas.new }
    ensures after { (told result leaving (((areas.new.store.now, areas.new.stack.now), areas.new.heap.now), areas.new.table.now))
        ≡ step_form texts.entry.certificate.now texts.entry.rulebook.now tally reader
        areas.old.store.now areas.old.stack.now areas.old.heap.now areas.old.table.now }
{
    let mut step = StepAreas {
        store: areas.store,
        table: &mut *areas.table,
        stack: areas.stack,
        heap: areas.heap,
    };
    let (j, e, place, tested, next) = steps::step(texts, &mut step, tally.steps, reader)?;
    let counted = tables::add_step(areas.table, j, e, place, tested, tally);
    Ok((counted, next))
}

// One form, its opening taken. "Another head is 9."
#[tactic(auto, unfolding(crate::specs::Certificates::form_read))]
pub fn read_form(
    texts: Texts<'_>,
    areas: &mut Areas<'_>,
    tally: Tally,
    reader: Reader,
) -> Result<(Tally, Reader), Refusal>
    ensures same { Same areas.old areas.new }
    ensures after { (told result leaving (((areas.new.store.now, areas.new.stack.now), areas.new.heap.now), areas.new.table.now))
        ≡ form_read texts.entry.certificate.now texts.entry.goals.now texts.entry.rulebook.now tally reader
        areas.old.store.now areas.old.stack.now areas.old.heap.now areas.old.table.now }
{
    let (s, t, named) = asking::atom_due(texts.certificate, asking::IN_FORM, reader)?;
    match forms::keyword_of(texts.certificate, s, t) {
        Keyword::Step => step_form(texts, areas, tally, named),
        Keyword::Result => forms::result_form(texts, areas.table, tally, named),
        Keyword::Def => {
            let mut goal = GoalAreas {
                store: areas.store,
                table: areas.table,
                stack: areas.stack,
                heap: &mut *areas.heap,
            };
            forms::def_form(texts, &mut goal, tally, named)
        }
        Keyword::Other => Err(Refusal::Form),
    }
}

// All forms, in order.
#[tactic(auto, using(crate::proofs::Turns::turns))]
pub fn all_forms(texts: Texts<'_>, areas: &mut Areas<'_>, tally: Tally) -> Result<Tally, Refusal>
    ensures same { Same areas.old areas.new }
    ensures after { (told result leaving (((areas.new.store.now, areas.new.stack.now), areas.new.heap.now), areas.new.table.now))
        ≡ forms_from (length texts.entry.certificate.now + 1) texts.entry.certificate.now texts.entry.goals.now texts.entry.rulebook.now tally start
        areas.old.store.now areas.old.stack.now areas.old.heap.now areas.old.table.now }
{
    let mut r = Reader::new();
    let mut now = tally;
    for _turn in 0..=texts.certificate.len() {
        let Some(opened) = asking::form_due(texts.certificate, r)? else {
            return Ok(now);
        };
        (now, r) = read_form(texts, areas, now, opened)?;
    }
    // Out of turns: the laws show that this is never met.
    Err(Refusal::TextLong)
}

// The certificate. "At the end an open goal is 29."
#[tactic(auto, unfolding(crate::specs::Certificates::certificate))]
pub fn certificate(texts: Texts<'_>, areas: &mut Areas<'_>, tally: Tally) -> Result<Tally, Refusal>
    ensures same { Same areas.old areas.new }
    ensures after { (told result leaving (((areas.new.store.now, areas.new.stack.now), areas.new.heap.now), areas.new.table.now))
        ≡ certificate texts.entry.certificate.now texts.entry.goals.now texts.entry.rulebook.now tally
        areas.old.store.now areas.old.stack.now areas.old.heap.now areas.old.table.now }
{
    let last = all_forms(texts, areas, tally)?;
    if last.left != 0 {
        return Err(Refusal::GoalOpen);
    }
    Ok(last)
}
