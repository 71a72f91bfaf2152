// Two forms of the certificate, `def` and `result`, and which form a head names. Names of goals stand in the goals text, those of symbols in
// the rulebook, those of abbreviations in the certificate itself. A form reads whole before it writes to the table (crate tables).
#![tactic(auto)]

ghost use Rattle.std.specs.Prelude.{◌≡◌};
ghost use Rattle.words.specs.Parts.{part};
ghost use Rattle.outcomes.specs.Leaving.{◌leaving◌};
ghost use Rattle.outcomes.specs.Told.{told};
ghost use Rattle.lent.specs.Lent.{SameGoal};
ghost use Rattle.forms.specs.Forms.{keyword_of, def_named, def_form, result_form};

use lent::{GoalAreas, Texts};
use lex::Reader;
use nodes::{Scope, limits};
use outcomes::Refusal;
use tables::{StepPart, Tally};

// The three forms of a certificate by their heads, or another head, which is a case of its own, as in crate theory: it is refused where a form would be read.
#[derive(Clone, Copy)]
pub enum Keyword {
    Step,
    Result,
    Def,
    Other,
}

// The form that a head names.
#[tactic(auto, using(words::proofs::Laws::same_pointwise), unfolding(crate::specs::Forms::keyword_of))]
pub fn keyword_of(text: &[u8], s: usize, t: usize) -> Keyword
    ensures { result ≡ keyword_of (part s t text.now) }
{
    let head = words::part(text, s, t);
    if head == b"step".as_slice() {
        return Keyword::Step;
    }
    if head == b"result".as_slice() {
        return Keyword::Result;
    }
    if head == b"def".as_slice() {
        return Keyword::Def;
    }
    Keyword::Other
}

// "Name without `?`, or `?` alone, 11": the bounds of the name, and the reader after it.
#[tactic(auto, unfolding(crate::specs::Forms::def_named))]
pub fn def_name(text: &[u8], reader: Reader) -> Result<(usize, usize, Reader), Refusal>
    ensures { told result ≡ def_named text.now reader }
{
    let (s, t, next) = asking::atom_due(text, asking::IN_FORM, reader)?;
    if !items::is_question(text, s) {
        return Err(Refusal::VariableName);
    }
    if items::is_bare(s, t) {
        return Err(Refusal::VariableName);
    }
    Ok((s, t, next))
}

// "`(def ?a T)`: name without `?`, or `?` alone, 11; T; duplicate 13; closing."
#[tactic(auto, unfolding(crate::specs::Forms::def_form))]
pub fn def_form(
    texts: Texts<'_>,
    areas: &mut GoalAreas<'_>,
    tally: Tally,
    reader: Reader,
) -> Result<(Tally, Reader), Refusal>
    ensures same { SameGoal areas.old areas.new }
    ensures after { (told result leaving ((areas.new.store.now, areas.new.stack.now), areas.new.table.now))
        ≡ def_form texts.entry.certificate.now texts.entry.rulebook.now areas.old.heap.now tally reader
        areas.old.store.now areas.old.stack.now areas.old.table.now }
{
    let text = texts.certificate;
    let (s, t, named) = def_name(text, reader)?;
    let table = &mut *areas.table;
    let scope = Scope {
        text,
        rules: texts.rulebook,
        heap: areas.heap,
        table,
    };
    let (k, behind) = terms::term(&scope, areas.store, areas.stack, 0, asking::IN_FORM, named)?;
    if tables::find_def(table, limits::DEF_BUCKETS, text, s, t).is_some() {
        return Err(Refusal::Duplicate);
    }
    let next = asking::closing_due(text, behind)?;
    let counted = tables::add_def(table, limits::DEF_BUCKETS, text, s, t, k, tally);
    Ok((counted, next))
}

// "`(result N I)`: N not a goal still open, 12; I as a number, 18; no such step yet, 24; other judgment, 27; closing."
#[tactic(auto, unfolding(crate::specs::Forms::result_form))]
pub fn result_form(
    texts: Texts<'_>,
    table: &mut [u32],
    tally: Tally,
    reader: Reader,
) -> Result<(Tally, Reader), Refusal>
    ensures { (told result leaving table.new)
        ≡ result_form texts.entry.certificate.now texts.entry.goals.now tally reader table.old }
{
    let text = texts.certificate;
    let (s, t, named) = asking::atom_due(text, asking::IN_FORM, reader)?;
    let name = words::part(text, s, t);
    let (e, j) = tables::open_goal(table, texts.goals, name).ok_or(Refusal::Unknown)?;
    let (n, behind) = references::number_due(text, asking::IN_FORM, named)?;
    let part = StepPart::Judgment.offset();
    let k = tables::step_word(table, n, part, tally).ok_or(Refusal::NoSuchStep)?;
    if k != j {
        return Err(Refusal::OtherJudgment);
    }
    let next = asking::closing_due(text, behind)?;
    let done = tables::close_goal(table, e, numerals::saturate(n), tally);
    Ok((done, next))
}
