// The three texts of a release, one after the other: the Rust's `check_reader` behind its `Theory::parse`.
#![tactic(auto)]

ghost use Rattle.std.specs.Prelude.{◌≡◌};
ghost use Rattle.outcomes.specs.Leaving.{◌leaving◌};
ghost use Rattle.outcomes.specs.Told.{told};
ghost use Rattle.lent.specs.Lent.{Same};
ghost use Rattle.checker.specs.Checker as models;

use lent::{Areas, GoalAreas, Texts};
use nodes::limits;
use outcomes::Refusal;
use tables::Tally;

// How many steps and goals an accepted release has, how many terms the store holds at its end, and how many requests to it were met.
#[derive(Clone, Copy)]
pub struct Counts {
    pub steps: u32,
    pub goals: u32,
    pub terms: u32,
    pub requested: u32,
}

// The counts once all forms are read.
fn counts_of(last: Tally, store: &[u32]) -> Counts
    ensures { result ≡ models.counts_of last store.now }
{
    Counts {
        steps: last.steps,
        goals: last.goals,
        terms: arena::node_count(store),
        requested: requests::requested(store, limits::STORE),
    }
}

// The rulebook, the goals, the certificate. The first refusal met is given.
#[tactic(auto, unfolding(crate::specs::Checker::check))]
pub fn check(texts: Texts<'_>, areas: &mut Areas<'_>) -> Result<Counts, Refusal>
    ensures same { Same areas.old areas.new }
    ensures after { (told result leaving (((areas.new.store.now, areas.new.stack.now), areas.new.heap.now), areas.new.table.now))
        ≡ models.check texts.entry.rulebook.now texts.entry.goals.now texts.entry.certificate.now
        areas.old.store.now areas.old.table.now areas.old.stack.now areas.old.heap.now }
{
    theory::theory(texts.rulebook, areas.table, areas.stack, areas.heap)?;
    requests::empty(areas.store, limits::STORE);
    let none = tables::begin(areas.table, limits::DEF_BUCKETS);
    let mut reading = GoalAreas {
        store: areas.store,
        table: areas.table,
        stack: areas.stack,
        heap: &mut *areas.heap,
    };
    let gathered = goals::goals(texts, &mut reading, none)?;
    let last = certificates::certificate(texts, areas, gathered)?;
    Ok(counts_of(last, &mut *areas.store))
}
