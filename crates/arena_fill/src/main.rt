// Fills a store to exactly 2,048 nodes, and another to exactly 8,192 words, over areas that held garbage, with keys that start
// at the index's last places and walk on at its first. What it writes is that of a list searched from its start.
#![tactic(auto)]

use arena::{Full, Interned, Setting};
use printing::GoingOn;
use std::{fmt, io};

// The limits of document 01.
const STORE: Setting = Setting {
    nodes: 2048,
    words: 8192,
    places: 4096,
};

// A store at document 01's limits, in an area of 16,384 words. It owns the area, so it is not copied.
#[derive(Drop)]
struct Store {
    area: [u32; 16384],
}

impl Store {
    // No node, over a word that stands everywhere but in the counts and the index.
    fn clear_over(&mut self, garbage: u32) {
        self.area.fill(garbage);
        self.area[..2].fill(0);
        self.area[2050..6146].fill(0);
    }

    // No node: the store empties itself, over a word that stands everywhere.
    fn empty_over(&mut self, garbage: u32) {
        self.area.fill(garbage);
        arena::empty(&mut self.area, STORE);
    }

    // A request.
    fn ask(&mut self, key: &[u32]) -> Result<Interned, Full> {
        arena::intern(&mut self.area, STORE, key)
    }

    // A word of the area.
    fn word(&self, i: usize) -> u32 {
        self.area.get(i).copied().unwrap_or(0)
    }
}

// How many answers of each kind there were, and the sum of the numbers given.
#[derive(Clone, Copy, Default)]
struct Tally {
    found: u32,
    made: u32,
    full: u32,
    sum: u32,
}

impl Tally {
    // One answer more.
    fn and(mut self, answer: Result<Interned, Full>) -> Tally {
        match answer {
            Ok(Interned::Found(k)) => {
                self.found = self.found.wrapping_add(1);
                self.sum = self.sum.wrapping_add(k);
            }
            Ok(Interned::Made(k)) => {
                self.made = self.made.wrapping_add(1);
                self.sum = self.sum.wrapping_add(k);
            }
            Err(_) => self.full = self.full.wrapping_add(1),
        }
        self
    }
}

// Four lines.
impl fmt::Display for Tally {
    fn fmt<W: fmt::Write>(&self, f: &mut fmt::Formatter<W>) -> fmt::Result {
        let Tally {
            found,
            made,
            full,
            sum,
        } = *self;
        write!(
            f,
            "all found {found}\nall made {made}\nall refused {full}\nsum of numbers {sum}"
        )
    }
}

// A node of one word.
fn narrow(w: u32) -> [u32; 1] {
    [w]
}

// A node of eight words, told apart by its second.
fn wide(w: u32) -> [u32; 8] {
    [7, w, 7, 7, 7, 7, 7, 7]
}

// A request, its answer shown as a line.
fn show(rt: &impl Print, store: &mut Store, key: &[u32]) -> io::Result<()> {
    match store.ask(key) {
        Ok(Interned::Found(k)) => println!(rt; "found {k}"),
        Ok(Interned::Made(k)) => println!(rt; "made {k}"),
        Err(_) => println!(rt; "refused 28"),
    }
}

// Each of n one-word nodes, 355 apart, its answer shown.
fn each(rt: &impl Print, store: &mut Store, first: u32, n: u8) -> io::Result<()> {
    for i in 0..n {
        show(rt, store, &narrow(first.wrapping_add(355 * u32::from(i))))?;
    }
    Ok(())
}

// A request for the node of one word.
fn ask_narrow(store: &mut Store, w: u32) -> Result<Interned, Full> {
    store.ask(&narrow(w))
}

// A request for the node of eight words.
fn ask_wide(store: &mut Store, w: u32) -> Result<Interned, Full> {
    store.ask(&wide(w))
}

// n requests, each by the next word, the answers counted.
fn many<A: Fn(&mut Store, u32) -> Result<Interned, Full>>(
    rt: &impl Print,
    store: &mut Store,
    ask: A,
    first: u32,
    n: u32,
) -> io::Result<()>
    requires { A.IsAlwaysCallable ask }
{
    let mut tally = Tally::default();
    for i in 0..n {
        tally = tally.and(ask(store, first.wrapping_add(i)));
    }
    println!(rt; "{tally}")
}

// The counts, and a word behind the regions.
fn totals(rt: &impl Print, store: &Store) -> io::Result<()> {
    let n = arena::node_count(&store.area);
    println!(rt; "nodes {n}")?;
    println!(rt; "words {}", store.word(n as usize + 1))?;
    println!(rt; "behind {}", store.word(14338))
}

// What the store holds of a node.
fn node(rt: &impl Print, store: &Store, k: u32) -> io::Result<()> {
    let area = &store.area;
    println!(rt; "size {}", arena::node_size(area, k))?;
    println!(rt; "head {}", arena::node_head(area, STORE, k))?;
    println!(rt; "argument {}", arena::node_argument(area, STORE, k, 0))
}

// 95473, 95828, .. start at the index's last place, 86243, 86598, .. at the one before it.
fn collide(rt: &impl Print, store: &mut Store) -> io::Result<()> {
    each(rt, store, 95473, 12)?;
    each(rt, store, 86243, 6)?;
    each(rt, store, 95473, 12)
}

// Nodes that share their first words.
fn share(rt: &impl Print, store: &mut Store) -> io::Result<()> {
    show(rt, store, &[95473, 5])?;
    show(rt, store, &[95473, 5, 6])?;
    show(rt, store, &[95473])?;
    show(rt, store, &[95473, 5])?;
    node(rt, store, 19)
}

// Nodes of one word, up to the last node that the store may hold.
fn to_nodes(rt: &impl Print, store: &mut Store) -> io::Result<()> {
    many(rt, store, ask_narrow, 1000000, 2027)?;
    totals(rt, store)?;
    many(rt, store, ask_narrow, 1002020, 20)?;
    totals(rt, store)
}

// A full store still finds what it holds.
fn when_full(rt: &impl Print, store: &mut Store) -> io::Result<()> {
    each(rt, store, 95473, 13)?;
    show(rt, store, &[95473, 5, 6])?;
    show(rt, store, &[95473, 5, 7])?;
    many(rt, store, ask_narrow, 1000000, 3000)?;
    totals(rt, store)
}

// Nodes of eight words, up to the last word that the store may hold.
fn to_words(rt: &impl Print, store: &mut Store) -> io::Result<()> {
    each(rt, store, 95473, 8)?;
    many(rt, store, ask_wide, 0, 1022)?;
    totals(rt, store)?;
    show(rt, store, &[7, 5000, 7, 7, 7, 7, 7, 7, 7])?;
    show(rt, store, &wide(1021))?;
    show(rt, store, &wide(1022))?;
    totals(rt, store)
}

// A store full by its words still finds what it holds.
fn past_words(rt: &impl Print, store: &mut Store) -> io::Result<()> {
    show(rt, store, &narrow(1))?;
    show(rt, store, &wide(1023))?;
    show(rt, store, &wide(1022))?;
    many(rt, store, ask_wide, 0, 1030)?;
    node(rt, store, 1030)?;
    totals(rt, store)
}

// A store filled to its nodes, over garbage.
fn by_nodes(rt: &impl Print, store: &mut Store) -> io::Result<()> {
    totals(rt, store)?;
    collide(rt, store)?;
    share(rt, store)?;
    to_nodes(rt, store)?;
    when_full(rt, store)
}

fn main(rt: HostRuntime) -> io::Result<()> {
    let out = GoingOn(&rt);
    let mut store = Store { area: [0; 16384] };
    store.clear_over(3735928559);
    by_nodes(&out, &mut store)?;
    // The same area again, filled to its words, over ones.
    store.empty_over(1);
    to_words(&out, &mut store)?;
    past_words(&out, &mut store)
}
