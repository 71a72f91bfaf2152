// The second walk over a rulebook: terms and judgments become flat words. It sees only texts that the first walk read whole, so that its
// refusals 3 to 6 and 10 never come; they are answered all the same.
//
// A level of a term takes little stack: where the walk stands is lent to all levels, and what reads the text is in `take`, which returns
// before the next level begins.
//
// `vars` and `heap` go side by side: crate `variables` says why.
#![tactic(auto)]

ghost use Rattle.std.specs.Prelude.{◌≡◌};
ghost use Rattle.outcomes.specs.Leaving.{◌leaving◌};
ghost use Rattle.outcomes.specs.Told.{told};
ghost use Rattle.patterns.specs.Lent.{taken_part, done, part_due};
ghost use Rattle.patterns.specs.Patterns.{leaf, pattern, arguments, judgment, judgments};

use items::{Counted, Item, Walk, places};
use outcomes::Refusal;

// An atom at a place of a sort.
#[tactic(auto, unfolding(crate::specs::Patterns::leaf))]
fn leaf(
    text: &[u8],
    vars: &mut [u32],
    heap: &mut [u32],
    s: usize,
    t: usize,
    sort: u32,
    w: Walk,
) -> Result<Walk, Refusal>
    ensures { (told result leaving (vars.new, heap.new)) ≡ leaf text.now s t sort w vars.old heap.old }
{
    if items::is_question(text, s) {
        return variables::variable_pattern(text, vars, heap, s, t, sort, w);
    }
    leaves::constant(text, heap, s, t, sort, w)
}

// All that a level reads by itself: what is due is a term of a sort, or the closing of a list (None). Answered is the address of a list's
// head, whose arguments are still to be read, or None where all was read. One function for terms and closings, not
// inlined, so that what it needs is on the stack once and not in each level.
#[tactic(auto, unfolding(crate::specs::Lent::part_due))]
#[inline(never)]
fn take(
    rulebook: Counted<'_>,
    vars: &mut [u32],
    heap: &mut [u32],
    walk: &mut Walk,
    due: Option<u32>,
) -> Result<Option<u32>, Refusal>
    ensures { (taken_part result walk.new leaving (vars.new, heap.new))
        ≡ part_due due rulebook.entry.text.now rulebook.entry.counts.now walk.old vars.old heap.old }
{
    let Some(sort) = due else {
        *walk = items::close(rulebook.text, *walk)?;
        return Ok(None);
    };
    match rulebook.next_item(*walk)? {
        Item::Atom(s, t, w) => {
            *walk = leaf(rulebook.text, vars, heap, s, t, sort, w)?;
            Ok(None)
        }
        Item::List(members, w) => {
            let (c, w) = leaves::compound_head(rulebook, heap, sort, members, w)?;
            *walk = w;
            Ok(Some(c))
        }
    }
}

// A term at a place of a sort, with that much depth left.
#[cycle(lent_arguments_lent_pattern)]
#[tactic(auto, using(crate::proofs::Turns::level_turns), unfolding(crate::specs::Patterns::pattern))]
fn lent_pattern(
    rulebook: Counted<'_>,
    vars: &mut [u32],
    heap: &mut [u32],
    walk: &mut Walk,
    sort: u32,
    left: u32,
) -> Result<(), Refusal>
    ensures { (done result walk.new leaving (vars.new, heap.new))
        ≡ pattern left rulebook.entry.text.now rulebook.entry.counts.now sort walk.old vars.old heap.old }
{
    if left == 0 {
        return Err(Refusal::Nesting);
    }
    match take(rulebook, vars, heap, walk, Some(sort))? {
        None => Ok(()),
        Some(c) => lent_arguments(rulebook, vars, heap, walk, c, left - 1),
    }
}

// All arguments of the symbol at c, then the closing. A term reads its arguments, and each argument is a term.
#[cycle(lent_arguments_lent_pattern)]
#[tactic(auto, using(crate::proofs::Turns::turns), unfolding(crate::specs::Patterns::arguments))]
fn lent_arguments(
    rulebook: Counted<'_>,
    vars: &mut [u32],
    heap: &mut [u32],
    walk: &mut Walk,
    c: u32,
    left: u32,
) -> Result<(), Refusal>
    ensures { (done result walk.new leaving (vars.new, heap.new))
        ≡ arguments left rulebook.entry.text.now rulebook.entry.counts.now c walk.old vars.old heap.old }
{
    let inputs = words::at(heap, c as usize + places::ARITY);
    for k in 0..inputs {
        let sort = words::at(heap, c as usize + places::INPUTS + k as usize);
        lent_pattern(rulebook, vars, heap, walk, sort, left)?;
    }
    take(rulebook, vars, heap, walk, None)?;
    Ok(())
}

// The arguments of the symbol at c, on a walk of its own.
pub fn arguments(
    rulebook: Counted<'_>,
    vars: &mut [u32],
    heap: &mut [u32],
    c: u32,
    left: u32,
    w: Walk,
) -> Result<Walk, Refusal>
    ensures { (told result leaving (vars.new, heap.new))
        ≡ arguments left rulebook.entry.text.now rulebook.entry.counts.now c w vars.old heap.old }
{
    let mut walk = w;
    lent_arguments(rulebook, vars, heap, &mut walk, c, left)?;
    Ok(walk)
}

// How many levels a term may have: more than any has in a text that was read whole, where a term has a depth of 2 at least and nothing a
// depth above 256.
const LEVELS: u32 = 257;

// A judgment: "a list (else 7), not empty (8), its head an atom (7) and a predicate (12), its length right (15), then its terms".
#[tactic(auto, unfolding(crate::specs::Patterns::judgment))]
pub fn judgment(
    rulebook: Counted<'_>,
    vars: &mut [u32],
    heap: &mut [u32],
    w: Walk,
) -> Result<Walk, Refusal>
    ensures { (told result leaving (vars.new, heap.new))
        ≡ judgment rulebook.entry.text.now rulebook.entry.counts.now w vars.old heap.old }
{
    let (members, q) = rulebook.next_list(w)?;
    let (s, t, p) = rulebook.head(members, q)?;
    let (c, o) = leaves::apply(rulebook.text, heap, places::PREDICATES, 0, members, s, t, p)?;
    arguments(rulebook, vars, heap, c, LEVELS, o)
}

// A rule's premises, then the closing.
#[tactic(auto, using(crate::proofs::Turns::premises))]
pub fn judgments(
    rulebook: Counted<'_>,
    vars: &mut [u32],
    heap: &mut [u32],
    n: u32,
    w: Walk,
) -> Result<Walk, Refusal>
    ensures { (told result leaving (vars.new, heap.new))
        ≡ judgments n rulebook.entry.text.now rulebook.entry.counts.now w vars.old heap.old }
{
    let mut v = w;
    for _ in 0..n {
        v = judgment(rulebook, vars, heap, v)?;
    }
    items::close(rulebook.text, v)
}
