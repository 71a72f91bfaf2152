// The variables of a rule: found by their names, met for the first time or again.
//
// `vars` and `heap` go side by side, here and in the crates above: a struct of the two would save one parameter, and cost each function a clause that both
// are the same areas still.
#![tactic(auto)]

ghost use Rattle.std.specs.Prelude.{◌≡◌};
ghost use Rattle.names.specs.Chains.{answered};
ghost use Rattle.outcomes.specs.Outcomes.{ok};
ghost use Rattle.outcomes.specs.Leaving.{◌leaving◌};
ghost use Rattle.outcomes.specs.Told.{told};
ghost use Rattle.variables.specs.Variables.{variable_from, introduced, met_again, variable_pattern};

use items::{Walk, places};
use outcomes::Refusal;

// The number of the variable that has a name, of `count` whose words stand from `place` on and whose names are parts of `text`; in order of
// their first places, as the Rust looks for it.
#[tactic(auto, using(crate::proofs::Turns::turns), unfolding(crate::specs::Variables::name_of_variable))]
pub fn find_variable(area: &[u32], place: u32, count: u32, text: &[u8], name: &[u8]) -> Option<u32>
    ensures { answered result ≡ variable_from count area.now text.now place name.now 0 }
{
    for i in 0..count {
        let v = place as usize + places::VARIABLE_WORDS * i as usize;
        let s = words::at(area, v);
        let t = words::at(area, v + 1);
        if words::is_part(text, s as usize, t as usize, name) {
            return Some(i);
        }
    }
    None
}

// A variable met for the first time takes its place's sort.
#[tactic(auto, unfolding(crate::specs::Variables::introduced, crate::specs::Variables::with_variable, crate::specs::Variables::variable_word))]
pub fn introduce(vars: &mut [u32], heap: &mut [u32], s: usize, t: usize, sort: u32, w: Walk) -> Walk
    ensures { (ok result leaving (vars.new, heap.new)) ≡ introduced s t sort w vars.old heap.old }
{
    let v = w.variables;
    let place = places::VARIABLE_WORDS * v as usize;
    words::put(vars, place, words::low(s));
    words::put(vars, place + 1, words::low(t));
    words::put(vars, place + 2, sort);
    let variables = words::plus(v, 1);
    items::push(
        heap,
        words::plus(places::VARIABLE, v),
        Walk { variables, ..w },
    )
}

// A variable met again, at another sort 14.
#[tactic(auto, unfolding(crate::specs::Variables::met_again, crate::specs::Variables::variable_word))]
pub fn meet_again(
    vars: &[u32],
    heap: &mut [u32],
    v: u32,
    sort: u32,
    w: Walk,
) -> Result<Walk, Refusal>
    ensures { (told result leaving (vars.now, heap.new)) ≡ met_again v sort w vars.now heap.old }
{
    if words::at(vars, places::VARIABLE_WORDS * v as usize + 2) != sort {
        return Err(Refusal::TwoSorts);
    }
    Ok(items::push(heap, words::plus(places::VARIABLE, v), w))
}

// `?v` at a place of a sort.
#[tactic(auto, unfolding(crate::specs::Variables::variable_pattern))]
pub fn variable_pattern(
    text: &[u8],
    vars: &mut [u32],
    heap: &mut [u32],
    s: usize,
    t: usize,
    sort: u32,
    w: Walk,
) -> Result<Walk, Refusal>
    ensures { (told result leaving (vars.new, heap.new))
        ≡ variable_pattern text.now s t sort w vars.old heap.old }
{
    if items::is_bare(s, t) {
        return Err(Refusal::VariableName);
    }
    match find_variable(vars, 0, w.variables, text, words::part(text, s, t)) {
        Some(v) => meet_again(vars, heap, v, sort, w),
        None => Ok(introduce(vars, heap, s, t, sort, w)),
    }
}
