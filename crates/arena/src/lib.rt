// Nodes, each stored once and named by its number, in one lent area. The limits are a parameter, and any area is survived. Memory is fixed, so all that
// the index and the nodes have are words of the area, with 0 for a free place.
#![tactic(auto)]

ghost use Rattle.std.specs.Prelude.{◌≡◌, ◌+◌, ◌%◌, ◌^◌, ◌<◌};
ghost use Rattle.arena.specs.Probing.{start_place};
ghost use Rattle.arena.specs.Store.{word_at, count, is_key, searched, answer, added_answer, added_area};
ghost use Rattle.arena.specs.Store.{intern_answer, intern_area, intern_report, answered, emptied, size_of, head_of, argument_of};

// The setting of a store, its limits: how many nodes it may have, how many words these may have together, and how many places its index has. A value, so that
// a caller may know it at run time alone. It goes by its address, so what a request takes is inlined here: where the caller's setting is a constant, it is
// one in all of that.
#[derive(Clone, Copy)]
pub struct Setting {
    pub nodes: u32,
    pub words: u32,
    pub places: u32,
}

impl Setting {
    // Where the nodes' words begin: behind the counts, the nodes' starts and the index.
    #[inline(always)]
    fn base(self) -> usize
        ensures start { result ≡ word_at self.nodes self.places 0 }
        ensures few { result < 2 ^ 34 }
    {
        2 + self.nodes as usize + self.places as usize
    }
}

// Where probing the index ends: at the node that is asked for, at a free place, or nowhere, which a store within its limits rules out.
#[derive(Clone, Copy)]
enum Probe {
    Held(u32),
    Free(u32),
    Nowhere,
}

// L1: "Storing a node must now say whether it was found or made." Its number, of a node held before or of a new one.
#[derive(Clone, Copy)]
pub enum Interned {
    Found(u32),
    Made(u32),
}

// The store has no room for a node.
#[derive(Clone, Copy)]
pub struct Full;

// The place where the walk for a hash starts, from the top bits, as many as the index's length has trailing zeros.
#[tactic(auto, using(crate::proofs::Turns::starting))]
pub fn start_place(h: u64, places: u32) -> u32
    ensures { result ≡ start_place h places }
{
    let t = u32::trailing_zeros(places);
    if t == 0 {
        return 0;
    }
    (h >> (64 - t)) as u32
}

// Whether node k is the key.
#[tactic(auto, unfolding(crate::specs::Store::is_key, crate::specs::Store::start))]
#[inline(always)]
fn is_key(a: &[u32], limits: Setting, key: &[u32], k: u32) -> bool
    ensures { result ≡ is_key a.now limits.nodes limits.places key.now k }
{
    let start = words::at(a, k as usize + 1);
    let next = words::at(a, k as usize + 1 + 1);
    let base = limits.base();
    let node = words::part(a, base + start as usize, base + next as usize);
    words::same_words(node, key)
}

// The place behind i, from last to first. Only the last place pays for a division.
fn next_place(i: u32, places: u32) -> u32
    requires { 0 < places }
    ensures { result ≡ (i + 1) % places }
{
    let next = u64::from(i) + 1;
    if next < u64::from(places) {
        return next as u32;
    }
    (next % u64::from(places)) as u32
}

// Walks the index from the place where a node's hash starts, at most once around.
#[tactic(auto, using(crate::proofs::Turns::walking), unfolding(crate::specs::Store::searched))]
#[inline(always)]
fn walk(a: &[u32], limits: Setting, key: &[u32]) -> Probe
    ensures { result ≡ searched a.now limits.nodes limits.places key.now }
{
    let h = words::hash_all(key);
    let mut i = start_place(h, limits.places);
    for _ in 0..limits.places {
        let v = words::at(a, 2 + limits.nodes as usize + i as usize);
        if v == 0 {
            return Probe::Free(i);
        }
        if is_key(a, limits, key, v - 1) {
            return Probe::Held(v - 1);
        }
        i = next_place(i, limits.places);
    }
    Probe::Nowhere
}

// Adds a node that is not held, where both limits allow it.
#[tactic(auto, using(crate::proofs::Open::node), unfolding(crate::specs::Store::added_answer, crate::specs::Store::added_area, crate::specs::Store::with_node))]
#[inline(always)]
fn add(a: &mut [u32], limits: Setting, key: &[u32], p: u32) -> Result<Interned, Full>
    ensures value { answer result ≡ added_answer a.old limits.nodes limits.words key.now }
    ensures a_after { a.new ≡ added_area a.old limits.nodes limits.words limits.places key.now p }
{
    let n = words::at(a, 0);
    if limits.nodes <= n {
        return Err(Full);
    }
    let w = words::at(a, n as usize + 1);
    if limits.words < w {
        return Err(Full);
    }
    if ((limits.words - w) as usize) < key.len() {
        return Err(Full);
    }
    let len = key.len() as u32;
    words::copy(a, limits.base() + w as usize, key, key.len());
    words::put(a, n as usize + 1 + 1, w + len);
    words::put(a, 0, n + 1);
    words::put(a, 2 + limits.nodes as usize + p as usize, n + 1);
    Ok(Interned::Made(n))
}

// The number of a node: of the one held, else of a new one.
#[tactic(auto, using(crate::proofs::Open::intern), unfolding(crate::specs::Store::answer_at, crate::specs::Store::area_at))]
#[inline(always)]
pub fn intern(a: &mut [u32], limits: Setting, key: &[u32]) -> Result<Interned, Full>
    ensures value { answer result ≡ intern_answer a.old limits.nodes limits.words limits.places key.now }
    ensures a_after { a.new ≡ intern_area a.old limits.nodes limits.words limits.places key.now }
    ensures result_value { answered (answer result) ≡ intern_report a.old limits.nodes limits.words limits.places key.now }
{
    match walk(a, limits, key) {
        Probe::Held(k) => Ok(Interned::Found(k)),
        Probe::Free(i) => add(a, limits, key, i),
        Probe::Nowhere => Err(Full),
    }
}

// Empties the store: zero counts and a zero index. The nodes' words stay as they are.
#[tactic(auto, unfolding(crate::specs::Store::emptied))]
pub fn empty(a: &mut [u32], limits: Setting)
    ensures { a.new ≡ emptied a.old limits.nodes limits.places }
{
    words::clear(a, limits.base());
}

// How many nodes there are.
#[tactic(auto, unfolding(crate::specs::Store::count))]
pub fn node_count(a: &[u32]) -> u32
    ensures { result ≡ count a.now }
{
    words::at(a, 0)
}

// How many words a node has.
#[tactic(auto, unfolding(crate::specs::Store::size_of, crate::specs::Store::start))]
pub fn node_size(a: &[u32], k: u32) -> u32
    ensures { result ≡ size_of a.now k }
{
    let start = words::at(a, k as usize + 1);
    let next = words::at(a, k as usize + 1 + 1);
    if next <= start {
        return 0;
    }
    next - start
}

// The head of a node.
#[tactic(auto, unfolding(crate::specs::Store::head_of, crate::specs::Store::start))]
pub fn node_head(a: &[u32], limits: Setting, k: u32) -> u32
    ensures { result ≡ head_of a.now limits.nodes limits.places k }
{
    let start = words::at(a, k as usize + 1);
    words::at(a, limits.base() + start as usize)
}

// Argument j, counted from 0.
#[tactic(auto, unfolding(crate::specs::Store::argument_of, crate::specs::Store::start))]
pub fn node_argument(a: &[u32], limits: Setting, k: u32, j: u32) -> u32
    ensures { result ≡ argument_of a.now limits.nodes limits.places k j }
{
    let start = words::at(a, k as usize + 1);
    words::at(a, limits.base() + start as usize + 1 + j as usize)
}
