// Reading a theory that stands in its area (crate `items` says how): symbols and rules by names that stand in any text, and the words of
// their entries. A symbol and a rule are named by the addresses of their entries, a variable of a rule by its number.
#![tactic(auto)]

ghost use Rattle.std.specs.Prelude.{◌≡◌};
ghost use Rattle.names.specs.Chains.{answered};
ghost use Rattle.theory_reading.specs.Reading.{buckets_of, section_found, output_of, arity_of, input_of, fits_input};
ghost use Rattle.theory_reading.specs.Reading.{premise_count, variable_count, premises_place, conclusion_place, variables_place};
ghost use Rattle.theory_reading.specs.Reading.{sort_of_variable, variable_found};

use items::places;

// What is looked for by its name, each kind among its own names.
#[derive(Clone, Copy)]
pub enum Section {
    Constructors,
    Predicates,
    Rules,
}

impl Section {
    // Where its buckets begin.
    pub fn buckets(self) -> u32
        ensures { result ≡ buckets_of self }
    {
        match self {
            Section::Constructors => places::CONSTRUCTORS,
            Section::Predicates => places::PREDICATES,
            Section::Rules => places::RULES,
        }
    }
}

// The constructor, predicate or rule of the rulebook `text` that has a name. The theory and its text go side by side in two functions here; where names are
// looked up beyond them, `nodes::Scope` has both.
#[tactic(auto, unfolding(crate::specs::Reading::constructor_found, crate::specs::Reading::predicate_found, crate::specs::Reading::rule_found))]
pub fn find(heap: &[u32], text: &[u8], section: Section, name: &[u8]) -> Option<u32>
    ensures { answered result ≡ section_found section heap.now text.now name.now }
{
    names::find(heap, section.buckets(), places::BUCKETS, text, name)
}

// The words of entries have a function each, of the theory's area and an entry's address. One function with the word's place, or a struct of the area and an
// address made for one read, would be no plainer: their callers would name a place, or make a value, and not say what they read.

// What the symbol at c gives: the address of a sort, or 0 for a judgment.
#[tactic(auto, unfolding(crate::specs::Reading::output_of))]
pub fn output(heap: &[u32], c: u32) -> u32
    ensures { result ≡ output_of heap.now c }
{
    words::at(heap, c as usize + places::OUTPUT)
}

// How many inputs it has.
#[tactic(auto, unfolding(crate::specs::Reading::arity_of))]
pub fn arity(heap: &[u32], c: u32) -> u32
    ensures { result ≡ arity_of heap.now c }
{
    words::at(heap, c as usize + places::ARITY)
}

// The address of its k-th input's sort.
#[tactic(auto, unfolding(crate::specs::Reading::input_of))]
pub fn input(heap: &[u32], c: u32, k: u32) -> u32
    ensures { result ≡ input_of heap.now c k }
{
    words::at(heap, c as usize + places::INPUTS + k as usize)
}

// Whether a term whose head is the symbol at `head` has the sort of the k-th input of the symbol at c.
#[tactic(auto, unfolding(crate::specs::Reading::fits_input))]
pub fn fits_input(heap: &[u32], head: u32, c: u32, k: u32) -> bool
    ensures { result ≡ fits_input heap.now head c k }
{
    output(heap, head) == input(heap, c, k)
}

// How many premises the rule at r has.
#[tactic(auto, unfolding(crate::specs::Reading::premise_count))]
pub fn premise_count(heap: &[u32], r: u32) -> u32
    ensures { result ≡ premise_count heap.now r }
{
    words::at(heap, r as usize + places::PREMISE_COUNT)
}

// How many variables it has.
#[tactic(auto, unfolding(crate::specs::Reading::variable_count))]
pub fn variable_count(heap: &[u32], r: u32) -> u32
    ensures { result ≡ variable_count heap.now r }
{
    words::at(heap, r as usize + places::VARIABLE_COUNT)
}

// Where the words of its premises begin; they stand one behind the other.
#[tactic(auto, unfolding(crate::specs::Reading::premises_place))]
pub fn premises(r: u32) -> u32
    ensures { result ≡ premises_place r }
{
    words::plus(r, places::PATTERNS)
}

// Where the words of its conclusion begin.
#[tactic(auto, unfolding(crate::specs::Reading::conclusion_place))]
pub fn conclusion(heap: &[u32], r: u32) -> u32
    ensures { result ≡ conclusion_place heap.now r }
{
    words::at(heap, r as usize + places::CONCLUSION)
}

// Where its variables stand.
#[tactic(auto, unfolding(crate::specs::Reading::variables_place))]
pub fn variables(heap: &[u32], r: u32) -> u32
    ensures { result ≡ variables_place heap.now r }
{
    words::at(heap, r as usize + places::VARIABLES)
}

// The address of the sort of its variable v.
#[tactic(auto, unfolding(crate::specs::Reading::sort_of_variable))]
pub fn variable_sort(heap: &[u32], r: u32, v: u32) -> u32
    ensures { result ≡ sort_of_variable heap.now r v }
{
    let place = variables(heap, r);
    words::at(
        heap,
        place as usize + places::VARIABLE_WORDS * v as usize + 2,
    )
}

// The number of its variable that has a name, as the Rust looks for it.
#[tactic(auto, unfolding(crate::specs::Reading::variable_found))]
pub fn find_variable(heap: &[u32], r: u32, text: &[u8], name: &[u8]) -> Option<u32>
    ensures { answered result ≡ variable_found heap.now text.now r name.now }
{
    let count = variable_count(heap, r);
    let place = variables(heap, r);
    variables::find_variable(heap, place, count, text, name)
}
