// Requests to the store: a node's number as `arena` answers it, and in the word behind the store's regions how many requests found their
// node. Those that made it are as many as the store has nodes, so they need no word of their own.
#![tactic(auto)]

ghost use Rattle.std.specs.Prelude.{◌≡◌};
ghost use Rattle.arena.specs.Store.{area_words, answer, intern_answer};
ghost use Rattle.requests.specs.Requests.{found_by, requested_area, emptied, requested_of};

use arena::{Full, Interned, Setting};

// The word that counts them, behind the store's regions.
#[inline(always)]
fn counter(limits: Setting) -> usize
    ensures { result ≡ area_words limits.nodes limits.words limits.places }
{
    2 + limits.nodes as usize + limits.places as usize + limits.words as usize
}

// What an answer of the store adds to the count.
#[tactic(auto, unfolding(crate::specs::Requests::found_by))]
fn found_by(interned: Result<Interned, Full>) -> u32
    ensures { result ≡ found_by (answer interned) }
{
    match interned {
        Ok(Interned::Found(_)) => 1,
        Ok(Interned::Made(_)) => 0,
        Err(_) => 0,
    }
}

// L1: "Storing a node must now say whether it was found or made." A node that the store says it found is counted.
#[tactic(auto, unfolding(crate::specs::Requests::requested_area, crate::specs::Requests::with_found))]
#[inline(always)]
pub fn intern(a: &mut [u32], limits: Setting, key: &[u32]) -> Result<Interned, Full>
    ensures value { answer result ≡ intern_answer a.old limits.nodes limits.words limits.places key.now }
    ensures a_after { a.new ≡ requested_area a.old limits.nodes limits.words limits.places key.now }
{
    let interned = arena::intern(a, limits, key);
    let behind = counter(limits);
    let before = words::at(a, behind);
    words::put(a, behind, words::plus(before, found_by(interned)));
    interned
}

// Empties the store, before the first request.
#[tactic(auto, unfolding(crate::specs::Requests::emptied))]
pub fn empty(a: &mut [u32], limits: Setting)
    ensures { a.new ≡ emptied a.old limits.nodes limits.words limits.places }
{
    arena::empty(a, limits);
    words::put(a, counter(limits), 0);
}

// L1: "every request to the store that was met, found or made".
#[tactic(auto, unfolding(crate::specs::Requests::requested_of))]
pub fn requested(a: &[u32], limits: Setting) -> u32
    ensures { result ≡ requested_of a.now limits.nodes limits.words limits.places }
{
    let found = words::at(a, counter(limits));
    words::plus(found, arena::node_count(a))
}
