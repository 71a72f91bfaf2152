// Declarations of sorts, constructors and predicates.
#![tactic(auto)]

ghost use Rattle.std.specs.Prelude.{◌≡◌};
ghost use Rattle.outcomes.specs.Leaving.{◌leaving◌};
ghost use Rattle.outcomes.specs.Told.{told};
ghost use Rattle.symbols.specs.Symbols.{reserved, sort_named, entered, described, sort_declared, inputs, signature};
ghost use Rattle.symbols.specs.Symbols.{symbol_entered, constructor_declared, predicate_declared};

use items::{Counted, Walk, places};
use outcomes::Refusal;

// Keeps words of the theory free.
#[tactic(auto, unfolding(crate::specs::Symbols::reserved))]
pub fn reserve(w: Walk, n: u32) -> Walk
    ensures { result ≡ reserved w n }
{
    Walk {
        top: words::plus(w.top, n),
        ..w
    }
}

// The address of the sort that is named next.
#[tactic(auto, unfolding(crate::specs::Symbols::sort_named, crate::specs::Symbols::sort_from))]
pub fn sort_named(rulebook: Counted<'_>, heap: &[u32], w: Walk) -> Result<(u32, Walk), Refusal>
    ensures { told result ≡ sort_named rulebook.entry.text.now rulebook.entry.counts.now heap.now w }
{
    let (s, t, q) = rulebook.declared_name(w)?;
    let text = rulebook.text;
    let name = words::part(text, s, t);
    let e = names::find(heap, places::SORTS, places::BUCKETS, text, name).ok_or(Refusal::Unknown)?;
    Ok((e, q))
}

// A new entry at e, among those of these buckets, which stay a number: an enum of the kinds would ask more of callers. The name goes by its
// bounds, since these are what an entry keeps.
#[tactic(auto, unfolding(crate::specs::Symbols::entered))]
pub fn enter(
    text: &[u8],
    heap: &mut [u32],
    buckets: u32,
    e: u32,
    s: usize,
    t: usize,
    w: Walk,
) -> Result<Walk, Refusal>
    ensures { (told result leaving heap.new) ≡ entered text.now buckets e s t w heap.old }
{
    let name = words::part(text, s, t);
    if names::find(heap, buckets, places::BUCKETS, text, name).is_some() {
        return Err(Refusal::Duplicate);
    }
    names::add(heap, buckets, places::BUCKETS, e, text, s, t);
    Ok(w)
}

// Writes the two words behind an entry's name.
#[tactic(auto, unfolding(crate::specs::Symbols::described))]
pub fn describe(heap: &mut [u32], e: u32, a: u32, b: u32)
    ensures { heap.new ≡ described e a b heap.old }
{
    words::put(heap, e as usize + places::OUTPUT, a);
    words::put(heap, e as usize + places::ARITY, b);
}

// "`(sort N)`: N, then duplicate."
#[tactic(auto, unfolding(crate::specs::Symbols::sort_declared))]
pub fn declare_sort(rulebook: Counted<'_>, heap: &mut [u32], w: Walk) -> Result<Walk, Refusal>
    ensures { (told result leaving heap.new) ≡ sort_declared rulebook.entry.text.now rulebook.entry.counts.now w heap.old }
{
    let (s, t, q) = rulebook.declared_name(w)?;
    let p = enter(rulebook.text, heap, places::SORTS, w.top, s, t, q)?;
    items::close(rulebook.text, reserve(p, places::SORT_WORDS))
}

// A symbol's inputs, then the closing.
#[tactic(auto, using(crate::proofs::Turns::turns))]
pub fn read_inputs(
    rulebook: Counted<'_>,
    heap: &mut [u32],
    n: u32,
    w: Walk,
) -> Result<Walk, Refusal>
    ensures { (told result leaving heap.new) ≡ inputs n rulebook.entry.text.now rulebook.entry.counts.now w heap.old }
{
    let mut v = w;
    for _ in 0..n {
        let (a, q) = sort_named(rulebook, heap, v)?;
        v = items::push(heap, a, q);
    }
    items::close(rulebook.text, v)
}

// A symbol's name, the number of its inputs and the walk after them.
#[tactic(auto, unfolding(crate::specs::Symbols::signature))]
pub fn read_signature(
    rulebook: Counted<'_>,
    heap: &mut [u32],
    w: Walk,
) -> Result<(usize, usize, u32, Walk), Refusal>
    ensures { (told result leaving heap.new) ≡ signature rulebook.entry.text.now rulebook.entry.counts.now w heap.old }
{
    let (s, t, q) = rulebook.declared_name(w)?;
    let (n, p) = rulebook.next_list(q)?;
    let o = read_inputs(rulebook, heap, n, reserve(p, places::SYMBOL))?;
    Ok((s, t, n, o))
}

// A symbol's entry, then the closing of its declaration. Where the entry is, its name and what it says are nine words: a struct of them would be made for
// this one call, and so for a rule's entry.
#[tactic(auto, unfolding(crate::specs::Symbols::symbol_entered))]
pub fn enter_symbol(
    text: &[u8],
    heap: &mut [u32],
    buckets: u32,
    e: u32,
    s: usize,
    t: usize,
    output: u32,
    n: u32,
    w: Walk,
) -> Result<Walk, Refusal>
    ensures { (told result leaving heap.new) ≡ symbol_entered text.now buckets e s t output n w heap.old }
{
    let q = enter(text, heap, buckets, e, s, t, w)?;
    describe(heap, e, output, n);
    items::close(text, q)
}

// `(ctor N (S...) S)`: "N, inputs left to right, output, duplicate."
#[tactic(auto, unfolding(crate::specs::Symbols::constructor_declared))]
pub fn declare_constructor(
    rulebook: Counted<'_>,
    heap: &mut [u32],
    w: Walk,
) -> Result<Walk, Refusal>
    ensures { (told result leaving heap.new) ≡ constructor_declared rulebook.entry.text.now rulebook.entry.counts.now w heap.old }
{
    let (s, t, n, q) = read_signature(rulebook, heap, w)?;
    let (output, p) = sort_named(rulebook, heap, q)?;
    let text = rulebook.text;
    enter_symbol(text, heap, places::CONSTRUCTORS, w.top, s, t, output, n, p)
}

// `(pred N (S...))`: the same without an output, for which 0 stands, which is no sort's address.
#[tactic(auto, unfolding(crate::specs::Symbols::predicate_declared))]
pub fn declare_predicate(rulebook: Counted<'_>, heap: &mut [u32], w: Walk) -> Result<Walk, Refusal>
    ensures { (told result leaving heap.new) ≡ predicate_declared rulebook.entry.text.now rulebook.entry.counts.now w heap.old }
{
    let (s, t, n, q) = read_signature(rulebook, heap, w)?;
    let text = rulebook.text;
    enter_symbol(text, heap, places::PREDICATES, w.top, s, t, 0, n, q)
}
