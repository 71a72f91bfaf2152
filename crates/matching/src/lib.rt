// Matching a rule's stored patterns against stored terms, and building its conclusion. A pattern has one word a node, in preorder, in the
// theory's area: a symbol's address, or `VARIABLE` and a variable's number. A variable's binding in the step being read is word `BINDINGS`
// plus its number of the same area: 0, or a term's number plus 1. `left` falls by one a level; the number of the area's words always suffices.
#![tactic(auto)]

ghost use Rattle.std.specs.Prelude.{◌≡◌, set};
ghost use Rattle.words.specs.Sums.{sum32};
ghost use Rattle.outcomes.specs.Told.{told};
ghost use Rattle.outcomes.specs.Leaving.{◌leaving◌};
ghost use Rattle.matching.specs.Matching as models;

use arena::{Interned, Setting};
use items::places;
use outcomes::Refusal;

// Writes the word of a variable's binding.
pub fn set_binding(heap: &mut [u32], v: u32, word: u32)
    ensures { heap.new ≡ set heap.old (models.binding_at v) word }
{
    words::put(heap, places::BINDINGS + v as usize, word);
}

// One word more on the stack.
pub fn push(stack: &mut [u32], p: u32, word: u32) -> u32
    ensures value { result ≡ sum32 p 1 }
    ensures stack_after { stack.new ≡ set stack.old p word }
{
    words::put(stack, p as usize, word);
    words::plus(p, 1)
}

// A variable binds first and must be equal later.
#[tactic(auto, unfolding(crate::specs::Matching::agrees, crate::specs::Matching::with_binding, crate::specs::Matching::binding_of))]
pub fn match_variable(heap: &mut [u32], v: u32, t: u32) -> bool
    ensures value { result ≡ models.agrees heap.old v t }
    ensures heap_after { heap.new ≡ models.with_binding heap.old v t }
{
    let bound = words::at(heap, places::BINDINGS + v as usize);
    let wanted = words::plus(t, 1);
    if bound == 0 {
        set_binding(heap, v, wanted);
        return true;
    }
    bound == wanted
}

// The pattern at o against term t, one level of the pattern at a time. Answers where a pattern that matches ends.
#[tactic(auto, using(crate::proofs::Turns::matching), unfolding(crate::specs::Matching::variable_matched))]
pub fn matches(
    store: &[u32],
    heap: &mut [u32],
    limits: Setting,
    o: u32,
    t: u32,
    left: u32,
) -> Option<u32>
    ensures { models.tried result heap.new ≡ models.matched limits.nodes limits.places store.now left o t heap.old }
{
    if left == 0 {
        return None;
    }
    let word = words::at(heap, o as usize);
    if places::VARIABLE <= word {
        if match_variable(heap, word - places::VARIABLE, t) {
            return Some(words::plus(o, 1));
        }
        return None;
    }
    let head = arena::node_head(store, limits, t);
    if word != head {
        return None;
    }
    let inputs = theory_reading::arity(heap, word);
    let mut place = words::plus(o, 1);
    for j in 0..inputs {
        let argument = arena::node_argument(store, limits, t, j);
        place = matches(store, heap, limits, place, argument, left - 1)?;
    }
    Some(place)
}

// The term that a variable is bound to, and where its pattern ends.
#[tactic(auto, unfolding(crate::specs::Matching::bound_term, crate::specs::Matching::binding_of))]
pub fn bound_term(heap: &[u32], v: u32, o: u32) -> Result<(u32, u32), Refusal>
    ensures { told result ≡ models.bound_term heap.now v o }
{
    let bound = words::at(heap, places::BINDINGS + v as usize);
    if bound == 0 {
        return Err(Refusal::Unbound);
    }
    Ok((bound - 1, words::plus(o, 1)))
}

// The node whose words stand on the stack, stored. `nodes::node` asks the store as well, but under one setting, and after it has looked at arity and sorts.
#[tactic(auto, unfolding(crate::specs::Matching::node_made))]
pub fn make_node(
    store: &mut [u32],
    stack: &[u32],
    limits: Setting,
    from: u32,
    to: u32,
    o: u32,
) -> Result<(u32, u32), Refusal>
    ensures { (told result leaving store.new)
        ≡ models.node_made limits.nodes limits.words limits.places from to o stack.now store.old }
{
    let key = words::part(stack, from as usize, to as usize);
    match requests::intern(store, limits, key) {
        Ok(Interned::Found(k)) => Ok((k, o)),
        Ok(Interned::Made(k)) => Ok((k, o)),
        Err(_) => Err(Refusal::StoreFull),
    }
}

// The term of the pattern at o under the bindings, left to right, each node stored after its arguments. They stand on the stack from p on.
// Answers its number and where its pattern ends.
#[tactic(auto, using(crate::proofs::Turns::building))]
pub fn build(
    store: &mut [u32],
    stack: &mut [u32],
    heap: &[u32],
    limits: Setting,
    o: u32,
    p: u32,
    left: u32,
) -> Result<(u32, u32), Refusal>
    ensures { (told result leaving (store.new, stack.new))
        ≡ models.term_built limits.nodes limits.words limits.places heap.now left o p stack.old store.old }
{
    if left == 0 {
        return Err(Refusal::Unbound);
    }
    let word = words::at(heap, o as usize);
    if places::VARIABLE <= word {
        return bound_term(heap, word - places::VARIABLE, o);
    }
    let inputs = theory_reading::arity(heap, word);
    let mut end = push(stack, p, word);
    let mut place = words::plus(o, 1);
    for _ in 0..inputs {
        let (k, next) = build(store, stack, heap, limits, place, end, left - 1)?;
        end = push(stack, end, k);
        place = next;
    }
    make_node(store, stack, limits, p, end, place)
}
