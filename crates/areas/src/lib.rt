// Areas before and after a call: words that no call writes by itself, and the test that they are as document 01 says.
#![tactic(auto)]

ghost use Rattle.std.specs.Prelude.{◌≡◌, length};
ghost use Rattle.lent.specs.Lent.{Same};
ghost use Rattle.areas.specs.Filling.{filled, due, area_held, all_held};

use lent::Areas;

// What the areas hold before a call: word i is first + i * step, in 32 bits.
#[derive(Clone, Copy)]
pub struct Before {
    pub first: u32,
    pub step: u32,
}

// Words of no sense.
pub fn garbage() -> Before {
    Before {
        first: 3735928559,
        step: 2654435761,
    }
}

// Ones.
pub fn ones() -> Before {
    Before { first: 1, step: 0 }
}

// How many words of each area are lent.
#[derive(Clone, Copy)]
pub struct Lengths {
    pub first: u32,
    pub second: u32,
    pub third: u32,
    pub fourth: u32,
}

// Just long enough.
impl Default for Lengths {
    fn default() -> Lengths
        ensures { result ≡ record { first = 16384; second = 16384; third = 16384; fourth = 16384 } }
    {
        Lengths {
            first: 16384,
            second: 16384,
            third: 16384,
            fourth: 16384,
        }
    }
}

// Word i becomes first + i * step, modulo 2 to the 32. By its index: over the words lent one by one the proof did not close. A generic function for this and
// `buffers::fill` would share the line of the `for` alone: what each puts at a place, and the law that this is what Filling says, would still be its own.
#[tactic(auto, using(crate::proofs::Turns::fills))]
pub fn fill(s: &mut [u32], first: u32, step: u32)
    ensures { s.new ≡ filled (length s.old) 0 first step s.old }
{
    let mut w = first;
    for i in 0..s.len() {
        s[i] = w;
        w = w.wrapping_add(step);
    }
}

// The word due at place i, where the first n are cleared and w was there.
#[tactic(auto, unfolding(crate::specs::Filling::due))]
fn word_due(i: usize, n: usize, w: u32) -> u32
    ensures { result ≡ due i n w }
{
    if i < n { 0 } else { w }
}

// Whether the first n words are 0 and every later one is as `fill` left it. Not one with `buffers::holds`, for the same reason as `fill`.
#[tactic(auto, using(crate::proofs::Turns::holds), unfolding(crate::specs::Filling::area_held))]
pub fn holds(s: &[u32], n: usize, first: u32, step: u32) -> bool
    ensures { result ≡ area_held n first step s.now }
{
    let mut w = first;
    for (i, &word) in s.iter().enumerate() {
        if word != word_due(i, n, w) {
            return false;
        }
        w = w.wrapping_add(step);
    }
    true
}

// Fills all four areas of a call.
pub fn fill_all(areas: &mut Areas<'_>, before: Before)
    ensures same { Same areas.old areas.new }
    ensures store { areas.new.store.now ≡ filled (length areas.old.store.now) 0 before.first before.step areas.old.store.now }
    ensures table { areas.new.table.now ≡ filled (length areas.old.table.now) 0 before.first before.step areas.old.table.now }
    ensures stack { areas.new.stack.now ≡ filled (length areas.old.stack.now) 0 before.first before.step areas.old.stack.now }
    ensures heap { areas.new.heap.now ≡ filled (length areas.old.heap.now) 0 before.first before.step areas.old.heap.now }
{
    fill(areas.store, before.first, before.step);
    fill(areas.table, before.first, before.step);
    fill(areas.stack, before.first, before.step);
    fill(areas.heap, before.first, before.step);
}

// Whether all four hold zeros in their first n words and behind them what `fill_all` left there. They are only read, so `Areas` would ask more of callers.
#[tactic(auto, unfolding(crate::specs::Filling::all_held))]
pub fn all_hold(n: usize, before: Before, a: &[u32], b: &[u32], c: &[u32], d: &[u32]) -> bool
    ensures { result ≡ all_held n before.first before.step a.now b.now c.now d.now }
{
    holds(a, n, before.first, before.step)
        && holds(b, n, before.first, before.step)
        && holds(c, n, before.first, before.step)
        && holds(d, n, before.first, before.step)
}
