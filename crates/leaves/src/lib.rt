// Constants and heads of lists in a rule's patterns: symbols with their output and their number of inputs.
#![tactic(auto)]

ghost use Rattle.std.specs.Prelude.{◌≡◌};
ghost use Rattle.outcomes.specs.Leaving.{◌leaving◌};
ghost use Rattle.outcomes.specs.Told.{told};
ghost use Rattle.leaves.specs.Leaves.{applied, constant, compound_head};

use items::{Counted, Walk, places};
use outcomes::Refusal;

// A constructor or predicate by its name, with its output and its number of inputs tested, stored as a node. Its kind is said by the place
// of its buckets: callers may give any, and an enum of the kinds would ask more of them.
#[tactic(auto, unfolding(crate::specs::Leaves::applied))]
pub fn apply(
    text: &[u8],
    heap: &mut [u32],
    buckets: u32,
    sort: u32,
    members: u32,
    s: usize,
    t: usize,
    w: Walk,
) -> Result<(u32, Walk), Refusal>
    ensures { (told result leaving heap.new) ≡ applied text.now buckets sort members s t w heap.old }
{
    let name = words::part(text, s, t);
    let c = names::find(heap, buckets, places::BUCKETS, text, name).ok_or(Refusal::Unknown)?;
    if words::at(heap, c as usize + places::OUTPUT) != sort {
        return Err(Refusal::SortArity);
    }
    let inputs = words::at(heap, c as usize + places::ARITY);
    if u64::from(inputs) + 1 != u64::from(members) {
        return Err(Refusal::SortArity);
    }
    Ok((c, items::push(heap, c, w)))
}

// An atom that is a constructor without inputs.
#[tactic(auto, unfolding(crate::specs::Leaves::constant))]
pub fn constant(
    text: &[u8],
    heap: &mut [u32],
    s: usize,
    t: usize,
    sort: u32,
    w: Walk,
) -> Result<Walk, Refusal>
    ensures { (told result leaving heap.new) ≡ constant text.now s t sort w heap.old }
{
    let (_, q) = apply(text, heap, places::CONSTRUCTORS, sort, 1, s, t, w)?;
    Ok(q)
}

// The head of a list at a place of a sort.
#[tactic(auto, unfolding(crate::specs::Leaves::compound_head))]
pub fn compound_head(
    rulebook: Counted<'_>,
    heap: &mut [u32],
    sort: u32,
    members: u32,
    w: Walk,
) -> Result<(u32, Walk), Refusal>
    ensures { (told result leaving heap.new) ≡ compound_head rulebook.entry.text.now rulebook.entry.counts.now sort members w heap.old }
{
    let (s, t, q) = rulebook.head(members, w)?;
    if members == 1 {
        return Err(Refusal::BracketedConstant);
    }
    let text = rulebook.text;
    apply(text, heap, places::CONSTRUCTORS, sort, members, s, t, q)
}
