// The head of a step, "`(step I R (I...)`", and its references, also references to steps that do not
// exist, which stand on the stack from its first word on.
#![tactic(auto)]

ghost use Rattle.std.specs.Prelude.{◌≡◌};
ghost use Rattle.outcomes.specs.Told.{told};
ghost use Rattle.outcomes.specs.Leaving.{◌leaving◌};
ghost use Rattle.references.specs.References as models;

use asking::Look;
use lex::Reader;
use outcomes::Refusal;
use theory_reading::Section;

// "I as a number, 18": an atom, asked for with that much depth left, as the text has it, and the reader after it.
#[tactic(auto, unfolding(crate::specs::References::number_due))]
pub fn number_due(text: &[u8], left: u32, reader: Reader) -> Result<(u64, Reader), Refusal>
    ensures { told result ≡ models.number_due text.now left reader }
{
    let (s, t, r) = asking::atom_due(text, left, reader)?;
    let i = numerals::numeral(text, s, t).ok_or(Refusal::NotNumber)?;
    Ok((i, r))
}

// "List of references", behind its opening: their number. Each is kept as a word of the stack.
#[tactic(auto, using(crate::proofs::Turns::turns), unfolding(crate::specs::References::references))]
pub fn references(text: &[u8], stack: &mut [u32], reader: Reader) -> Result<(u32, Reader), Refusal>
    ensures { (told result leaving stack.new) ≡ models.references text.now reader stack.old }
{
    let mut r = reader;
    let mut n: u32 = 0;
    for _turn in 0..text.len() + 1 {
        match asking::closing_next(text, r)? {
            Look::Closing(q) => return Ok((n, q)),
            Look::Member(q) => {
                let (i, next) = number_due(text, asking::IN_LIST, q)?;
                r = next;
                n = matching::push(stack, n, numerals::saturate(i));
            }
        }
    }
    // Out of turns: the laws show that this is never met.
    Err(Refusal::TextLong)
}

// "I (18), not the number of steps so far 19; R 12; list": the rule's address, and the reader after the list's opening.
#[tactic(auto, unfolding(crate::specs::References::rule_due))]
pub fn rule_due(
    text: &[u8],
    rules: &[u8],
    heap: &[u32],
    steps: u32,
    reader: Reader,
) -> Result<(u32, Reader), Refusal>
    ensures { told result ≡ models.rule_due text.now rules.now heap.now steps reader }
{
    let (i, r) = number_due(text, asking::IN_FORM, reader)?;
    if i != u64::from(steps) {
        return Err(Refusal::StepOrder);
    }
    let (s, t, r) = asking::atom_due(text, asking::IN_FORM, r)?;
    let found = theory_reading::find(heap, rules, Section::Rules, words::part(text, s, t));
    let e = found.ok_or(Refusal::Unknown)?;
    let r = asking::list_due(text, asking::IN_FORM, r)?;
    Ok((e, r))
}

// "List of references, each 18; their count 20".
#[tactic(auto, unfolding(crate::specs::References::counted_references))]
pub fn counted_references(
    text: &[u8],
    heap: &[u32],
    stack: &mut [u32],
    rule: u32,
    reader: Reader,
) -> Result<(u32, Reader), Refusal>
    ensures { (told result leaving stack.new)
        ≡ models.counted_references text.now heap.now rule reader stack.old }
{
    let (n, r) = references(text, stack, reader)?;
    if n != theory_reading::premise_count(heap, rule) {
        return Err(Refusal::ReferenceCount);
    }
    Ok((n, r))
}
