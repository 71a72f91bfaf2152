// The lengths that all calls ask for, and the areas cleared.
#![tactic(auto)]

ghost use Rattle.std.specs.Prelude.{◌≡◌, length, replicate};
ghost use Rattle.clearing.specs.Lengths.{long_enough};
ghost use Rattle.lent.specs.Lent.{Same};

use lent::Areas;

// The words of each area that a call reads and writes.
pub const AREA_WORDS: usize = 16384;

// "Rulebook and goals have at most 8,192 bytes each, the certificate 32,768."
pub const TEXT_BYTES: usize = 8192;

pub const CERTIFICATE_BYTES: usize = 32768;

// Sets all words to 0.
pub fn clear(s: &mut [u32])
    ensures { s.new ≡ replicate (length s.old) 0 }
{
    s.fill(0);
}

// Sets all words of the four areas to 0.
pub fn clear_all(areas: &mut Areas<'_>)
    ensures same { Same areas.old areas.new }
    ensures store { areas.new.store.now ≡ replicate (length areas.old.store.now) 0 }
    ensures table { areas.new.table.now ≡ replicate (length areas.old.table.now) 0 }
    ensures stack { areas.new.stack.now ≡ replicate (length areas.old.stack.now) 0 }
    ensures heap { areas.new.heap.now ≡ replicate (length areas.old.heap.now) 0 }
{
    clear(areas.store);
    clear(areas.table);
    clear(areas.stack);
    clear(areas.heap);
}

// "Four work areas of 32-bit words are lent, each of at least 16,384 words."
#[tactic(auto, unfolding(crate::specs::Lengths::long_enough))]
pub fn long_enough(a: usize, b: usize, c: usize, d: usize) -> bool
    ensures { result ≡ long_enough a b c d }
{
    if a < AREA_WORDS {
        return false;
    }
    if b < AREA_WORDS {
        return false;
    }
    if c < AREA_WORDS {
        return false;
    }
    AREA_WORDS <= d
}
