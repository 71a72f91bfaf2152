// Nodes of terms and judgments in goals and certificate. A term is the number of its node in the store, a symbol the address of its entry in
// the theory's area (crate items says how that is laid out); names of symbols stand in the rulebook, those of abbreviations in the text
// that is read. Abbreviations stand in the table (crate tables). On the stack a node is under construction from word `top`
// on: its head, then its arguments. Store, stack, table and theory stay words of lent areas: a rule of the project, fixed memory and no heap.
#![tactic(auto)]

ghost use Rattle.std.specs.Prelude.{◌≡◌};
ghost use Rattle.outcomes.specs.Told.{told, told_as};
ghost use Rattle.outcomes.specs.Leaving.{◌leaving◌};
ghost use Rattle.theory_reading.specs.Reading.{accepted};
ghost use Rattle.lex.specs.declared.Reader.{Reader};
ghost use Rattle.arena.specs.Store.{intern_answer};
ghost use Rattle.requests.specs.Requests.{requested_area};
ghost use Rattle.nodes.specs.Limits.{node_limit, word_limit, index_places};
ghost use Rattle.nodes.specs.Nodes.{numbered, head_on, sort_of, make, atom_term, head_due};

use arena::{Full, Interned};
use lex::Reader;
use outcomes::Refusal;
use theory_reading::Section;

pub mod limits;

// In what names are looked up: the text that they stand in, the rulebook with its theory, and the abbreviations. Store and stack, which nodes are
// made in, stay two parameters, here and where terms are read: a struct of the two would save one, and cost each function a clause that both are the same
// areas still. The heap has a lifetime of its own: a step lends it for one call alone, and the texts and the table for longer; the step then knows that
// its heap is as it was. No function can make the value for all, since it would lend two fields of the caller's areas.
#[derive(Clone, Copy)]
pub struct Scope<'t, 'a> {
    pub text: &'t [u8],
    pub rules: &'t [u8],
    pub heap: &'a [u32],
    pub table: &'t [u32],
}

// The sort of a term is what its head gives.
#[tactic(auto, unfolding(crate::specs::Nodes::sort_of))]
pub fn sort_of(heap: &[u32], store: &[u32], k: u32) -> u32
    ensures { result ≡ sort_of heap.now store.now k }
{
    let head = arena::node_head(store, limits::STORE, k);
    theory_reading::output(heap, head)
}

// "Arity and sorts": whether the n terms that stand on the stack from a place on are what the symbol at c takes.
#[tactic(auto, using(crate::proofs::Turns::fits), unfolding(theory_reading::specs::Reading::accepted))]
pub fn accepts(heap: &[u32], store: &[u32], stack: &[u32], c: u32, from: u32, n: u32) -> bool
    ensures { result ≡ accepted (head_on store.now stack.now from) heap.now c n }
{
    if theory_reading::arity(heap, c) != n {
        return false;
    }
    for k in 0..n {
        let argument = words::at(stack, from as usize + k as usize);
        let head = arena::node_head(store, limits::STORE, argument);
        if !theory_reading::fits_input(heap, head, c, k) {
            return false;
        }
    }
    true
}

// A node by its words, stored under the limits of a release: its number, or None where there is no room. Not inlined, as the limits are constants in it,
// which a struct handed on by its address is not; and so `node` is small enough to be compiled into `atom_term`.
#[inline(never)]
fn stored(store: &mut [u32], key: &[u32]) -> Option<u32>
    ensures value { result ≡ numbered (intern_answer store.old node_limit word_limit index_places key.now) }
    ensures store_after { store.new ≡ requested_area store.old node_limit word_limit index_places key.now }
{
    match requests::intern(store, limits::STORE, key) {
        Ok(Interned::Found(k) | Interned::Made(k)) => Some(k),
        Err(Full) => None,
    }
}

// "Then 15 for arity and sorts, then the store." The node's arguments stand behind the place of its head. Inlined, so that of an atom, which has none,
// none are looked for.
#[inline(always)]
#[tactic(auto, unfolding(crate::specs::Nodes::make, crate::specs::Nodes::interned))]
pub fn node(
    heap: &[u32],
    store: &mut [u32],
    stack: &mut [u32],
    c: u32,
    top: u32,
    n: u32,
) -> Result<u32, Refusal>
    ensures { (r : Reader) → (told_as (λ k. (k, r)) result leaving (store.new, stack.new))
        ≡ make heap.now c top n r store.old stack.old }
{
    if !accepts(heap, store, stack, c, words::plus(top, 1), n) {
        return Err(Refusal::SortArity);
    }
    words::put(stack, top as usize, c);
    let key = words::part(stack, top as usize, top as usize + 1 + n as usize);
    stored(store, key).ok_or(Refusal::StoreFull)
}

// The same with the reader after it.
pub fn make(
    heap: &[u32],
    store: &mut [u32],
    stack: &mut [u32],
    c: u32,
    top: u32,
    n: u32,
    reader: Reader,
) -> Result<(u32, Reader), Refusal>
    ensures { (told result leaving (store.new, stack.new))
        ≡ make heap.now c top n reader store.old stack.old }
{
    let k = node(heap, store, stack, c, top, n)?;
    Ok((k, reader))
}

// "An atom with a leading `?`, `?` alone too, is an earlier abbreviation (12). An atom or head is a constructor (12)." The reader after it is the
// caller's still. Inlined, as the heads of lists are, since what it answers goes through memory else, once for each atom.
#[inline(always)]
#[tactic(auto, unfolding(crate::specs::Nodes::atom_term, crate::specs::Nodes::constructor_due))]
pub fn atom_term(
    scope: &Scope<'_, '_>,
    store: &mut [u32],
    stack: &mut [u32],
    top: u32,
    s: usize,
    t: usize,
) -> Result<u32, Refusal>
    ensures { (r : Reader) → (told_as (λ k. (k, r)) result leaving (store.new, stack.new))
        ≡ atom_term scope.now.text.now scope.now.rules.now scope.now.heap.now scope.now.table.now
        top s t r store.old stack.old }
{
    if items::is_question(scope.text, s) {
        let meaning = tables::meaning(scope.table, limits::DEF_BUCKETS, scope.text, s, t);
        return meaning.ok_or(Refusal::Unknown);
    }
    let name = words::part(scope.text, s, t);
    let found = theory_reading::find(scope.heap, scope.rules, Section::Constructors, name);
    let c = found.ok_or(Refusal::Unknown)?;
    node(scope.heap, store, stack, c, top, 0)
}

// The head of a term in brackets, asked for without a look ahead.
#[inline(always)]
#[tactic(auto, unfolding(crate::specs::Nodes::head_due, crate::specs::Nodes::constructor_due))]
pub fn head(scope: &Scope<'_, '_>, left: u32, reader: Reader) -> Result<(u32, Reader), Refusal>
    ensures { told result
        ≡ head_due scope.now.text.now scope.now.rules.now scope.now.heap.now left reader }
{
    let (s, t, next) = asking::atom_due(scope.text, left, reader)?;
    let name = words::part(scope.text, s, t);
    let found = theory_reading::find(scope.heap, scope.rules, Section::Constructors, name);
    Ok((found.ok_or(Refusal::Unknown)?, next))
}
