// The judgment of a step by its rule: a stated conclusion is matched before the premises, one that is not stated is built after them (crate
// matching). The references stand first on the stack, the judgments of earlier steps in the table.
#![tactic(auto)]

ghost use Rattle.std.specs.Prelude.{◌≡◌};
ghost use Rattle.outcomes.specs.Told.{told};
ghost use Rattle.outcomes.specs.Leaving.{◌leaving◌};
ghost use Rattle.lent.specs.Lent.{SameStep};
ghost use Rattle.concluding.specs.Concluding as models;

use arena::Setting;
use lent::StepAreas;
use outcomes::Refusal;

// The levels that a pattern may have: the words of the theory's area.
const LEVELS: u32 = 16384;

// Where the premises of a step are looked up: the terms, the judgments of the steps before it, whose number is `steps`, and its references. The table
// is lent for longer than the two areas that are written afterwards: with one lifetime for all three the check does not see their loans end.
#[derive(Clone, Copy)]
pub struct Earlier<'t, 'a> {
    pub store: &'a [u32],
    pub table: &'t [u32],
    pub stack: &'a [u32],
    pub limits: Setting,
    pub steps: u32,
}

// No variable of the first n is bound.
#[tactic(auto, using(crate::proofs::Turns::unbinding))]
pub fn unbind(heap: &mut [u32], n: u32)
    ensures { heap.new ≡ models.unbound n heap.old }
{
    for v in (0..n).rev() {
        matching::set_binding(heap, v, 0);
    }
}

// The judgment of step i.
#[tactic(auto, unfolding(crate::specs::Concluding::step_judgment))]
pub fn step_judgment(table: &[u32], i: u32) -> u32
    ensures { result ≡ models.step_judgment table.now i }
{
    words::at(table, tables::step_at(table.len(), i))
}

// For each premise in order, no earlier step 24, mismatch 25. The references stand first on the stack. Answers where the premises end. Inlined, as the
// stated conclusion is, so that what premises are looked up in is no value in memory.
#[inline(always)]
#[tactic(auto, using(crate::proofs::Turns::premising))]
pub fn match_premises(
    earlier: &Earlier<'_, '_>,
    heap: &mut [u32],
    premises: u32,
    o: u32,
) -> Result<u32, Refusal>
    ensures { (told result leaving heap.new)
        ≡ models.premises_matched earlier.now.limits.nodes earlier.now.limits.places earlier.now.store.now
        earlier.now.table.now earlier.now.stack.now earlier.now.steps premises 0 o heap.old }
{
    let mut place = o;
    for k in 0..premises {
        let reference = words::at(earlier.stack, k as usize);
        if earlier.steps <= reference {
            return Err(Refusal::NoSuchStep);
        }
        let t = step_judgment(earlier.table, reference);
        let next = matching::matches(earlier.store, heap, earlier.limits, place, t, LEVELS);
        place = next.ok_or(Refusal::BadPremise)?;
    }
    Ok(place)
}

// The stated conclusion (23), then the premises.
#[inline(always)]
#[tactic(auto, unfolding(crate::specs::Concluding::stated_concluded))]
pub fn conclude_stated(
    earlier: &Earlier<'_, '_>,
    heap: &mut [u32],
    rule: u32,
    t: u32,
) -> Result<u32, Refusal>
    ensures { (told result leaving heap.new)
        ≡ models.stated_concluded earlier.now.limits.nodes earlier.now.limits.places earlier.now.store.now
        earlier.now.table.now earlier.now.stack.now earlier.now.steps rule t heap.old }
{
    let premises = theory_reading::premise_count(heap, rule);
    let first = theory_reading::premises(rule);
    let c = theory_reading::conclusion(heap, rule);
    let Some(_) = matching::matches(earlier.store, heap, earlier.limits, c, t, LEVELS) else {
        return Err(Refusal::BadConclusion);
    };
    match_premises(earlier, heap, premises, first)?;
    Ok(t)
}

// The premises; then the conclusion, which stands behind them, is built. The references stay below it on the stack.
#[tactic(auto, unfolding(crate::specs::Concluding::built_concluded))]
pub fn conclude_built(
    areas: &mut StepAreas<'_>,
    limits: Setting,
    steps: u32,
    rule: u32,
) -> Result<u32, Refusal>
    ensures same { SameStep areas.old areas.new }
    ensures after { (told result leaving ((areas.new.store.now, areas.new.stack.now), areas.new.heap.now))
        ≡ models.built_concluded limits.nodes limits.words limits.places areas.old.table.now steps rule
        areas.old.stack.now areas.old.store.now areas.old.heap.now }
{
    let heap = &mut *areas.heap;
    let premises = theory_reading::premise_count(heap, rule);
    let first = theory_reading::premises(rule);
    let earlier = Earlier {
        store: &mut *areas.store,
        table: areas.table,
        stack: &mut *areas.stack,
        limits,
        steps,
    };
    let o = match_premises(&earlier, heap, premises, first)?;
    let (k, _) = matching::build(areas.store, areas.stack, heap, limits, o, premises, LEVELS)?;
    Ok(k)
}

// The judgment of a step by a rule: `stated` is 0, or the number of the stated conclusion plus 1, in 32 bits, as the model says it: an Option could
// not tell none from the number 2 to the 32 less 1.
#[tactic(auto, unfolding(crate::specs::Concluding::step_concluded))]
pub fn conclude(
    areas: &mut StepAreas<'_>,
    limits: Setting,
    steps: u32,
    rule: u32,
    stated: u32,
) -> Result<u32, Refusal>
    ensures same { SameStep areas.old areas.new }
    ensures after { (told result leaving ((areas.new.store.now, areas.new.stack.now), areas.new.heap.now))
        ≡ models.step_concluded limits.nodes limits.words limits.places areas.old.table.now steps rule stated
        areas.old.stack.now areas.old.store.now areas.old.heap.now }
{
    if stated == 0 {
        return conclude_built(areas, limits, steps, rule);
    }
    let earlier = Earlier {
        store: &mut *areas.store,
        table: areas.table,
        stack: &mut *areas.stack,
        limits,
        steps,
    };
    conclude_stated(&earlier, areas.heap, rule, stated - 1)
}
