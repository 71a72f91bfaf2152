// The goals, abbreviations and steps of a release in one lent area, and how many there are. Words 0 to 63 are buckets of goals, from 64
// on stand `buckets` buckets of abbreviations, then entries of 4 words, first all goals, then abbreviations: three as crate `names` has
// them, and a value. Of an abbreviation that is its term's number, of a goal its judgment's number, or from `CLOSED` on the number of its
// result's step. Steps stand downward from the end of the area, 4 words each: judgment, rule, the place of its references in the
// certificate, and up to where the certificate was tested there.
#![tactic(auto)]

ghost use Rattle.std.specs.Prelude.{◌≡◌, ◌+◌, ◌-◌, length};
ghost use Rattle.words.specs.Parts.{part, cleared};
ghost use Rattle.names.specs.Chains.{answered};
ghost use Rattle.tables.specs.Words.{goal_buckets, none_yet, entered, goal_found, goal_open, goal_added, goal_counted, goal_closed};
ghost use Rattle.tables.specs.Words.{goal_done, goal_at, goal_result};
ghost use Rattle.tables.specs.Words.{def_found, def_meaning, def_added, def_counted, step_at, step_added, step_counted, offset, step_kept, step_word};

// The first word that is free, and how many goals, goals still open and steps there are.
#[derive(Clone, Copy)]
pub struct Tally {
    pub top: u32,
    pub goals: u32,
    pub left: u32,
    pub steps: u32,
}

// What is kept of a step, a word of each.
#[derive(Clone, Copy)]
pub enum StepPart {
    Judgment = 0,
    Rule = 1,
    Place = 2,
    Tested = 3,
}

impl StepPart {
    // Which of a step's words it is.
    pub fn offset(self) -> u32
        ensures { result ≡ offset self }
    {
        self as u32
    }
}

// Buckets of goals; those of abbreviations stand behind them.
pub const GOAL_BUCKETS: u32 = 64;

// Words of an entry, and which of them is its value.
const ENTRY_WORDS: u32 = 4;

const VALUE: usize = 3;

// The value of a goal that has its result: so much, and the number of the result's step. No enum: what is kept is one lent word.
const CLOSED: u32 = 2147483648;

// Words of a step.
const STEP_WORDS: usize = 4;

// No goal, no abbreviation, no step: zero buckets.
#[tactic(auto, unfolding(crate::specs::Words::none_yet))]
pub fn begin(table: &mut [u32], buckets: u32) -> Tally
    ensures value { result ≡ none_yet buckets }
    ensures table_after { table.new ≡ cleared (goal_buckets + buckets) table.old }
{
    let words = GOAL_BUCKETS as usize + buckets as usize;
    words::clear(table, words);
    Tally {
        top: words::plus(GOAL_BUCKETS, buckets),
        goals: 0,
        left: 0,
        steps: 0,
    }
}

// A new entry at e with its value.
#[tactic(auto, unfolding(crate::specs::Words::entered))]
fn enter(
    table: &mut [u32],
    buckets: u32,
    count: u32,
    e: u32,
    text: &[u8],
    s: usize,
    t: usize,
    value: u32,
)
    ensures { table.new ≡ entered buckets count e text.now s t value table.old }
{
    names::add(table, buckets, count, e, text, s, t);
    words::put(table, e as usize + VALUE, value);
}

// The address of the goal, open or closed, that has a name.
#[tactic(auto, unfolding(crate::specs::Words::goal_found))]
pub fn find_goal(table: &[u32], goals: &[u8], name: &[u8]) -> Option<u32>
    ensures { answered result ≡ goal_found goals.now name.now table.now }
{
    names::find(table, 0, GOAL_BUCKETS, goals, name)
}

// The goal still open that has a name: the address of its entry and its judgment's number.
#[tactic(auto, unfolding(crate::specs::Words::goal_open, crate::specs::Words::open_at))]
pub fn open_goal(table: &[u32], goals: &[u8], name: &[u8]) -> Option<(u32, u32)>
    ensures { answered result ≡ goal_open goals.now name.now table.now }
{
    let e = find_goal(table, goals, name)?;
    let value = words::at(table, e as usize + VALUE);
    if CLOSED <= value {
        return None;
    }
    Some((e, value))
}

// One goal more, open.
#[tactic(auto, unfolding(crate::specs::Words::goal_counted, crate::specs::Words::goal_added))]
pub fn add_goal(
    table: &mut [u32],
    goals: &[u8],
    s: usize,
    t: usize,
    judgment: u32,
    tally: Tally,
) -> Tally
    ensures value { result ≡ goal_counted tally }
    ensures table_after { table.new ≡ goal_added goals.now s t judgment tally table.old }
{
    let e = tally.top;
    enter(table, 0, GOAL_BUCKETS, e, goals, s, t, judgment);
    Tally {
        top: words::plus(e, ENTRY_WORDS),
        goals: words::plus(tally.goals, 1),
        left: words::plus(tally.left, 1),
        ..tally
    }
}

// Closes the goal at e, which is open: step n is its result's.
#[tactic(auto, unfolding(crate::specs::Words::goal_done, crate::specs::Words::goal_closed))]
pub fn close_goal(table: &mut [u32], e: u32, n: u32, tally: Tally) -> Tally
    ensures value { result ≡ goal_done tally }
    ensures table_after { table.new ≡ goal_closed e n table.old }
{
    words::put(table, e as usize + VALUE, words::plus(CLOSED, n));
    Tally {
        left: tally.left.saturating_sub(1),
        ..tally
    }
}

// Where the entry of goal k stands: the goals' entries come first, in their order.
#[tactic(auto, unfolding(crate::specs::Words::goal_at))]
pub fn goal_at(buckets: u32, k: u32) -> u32
    ensures { result ≡ goal_at buckets k }
{
    words::low(GOAL_BUCKETS as usize + buckets as usize + ENTRY_WORDS as usize * k as usize)
}

// The number of the result's step of the goal at e, which is closed.
#[tactic(auto, unfolding(crate::specs::Words::goal_result))]
pub fn goal_result(table: &[u32], e: u32) -> u32
    ensures { result ≡ goal_result e table.now }
{
    words::at(table, e as usize + VALUE).saturating_sub(CLOSED)
}

// The address of the abbreviation that has a name, a part of the certificate. Its bounds are given, not its bytes as for a goal: both callers have these,
// and would each take the part. How many buckets there are stays a number that callers give: the laws hold of any count.
#[tactic(auto, unfolding(crate::specs::Words::def_found))]
pub fn find_def(table: &[u32], buckets: u32, certificate: &[u8], s: usize, t: usize) -> Option<u32>
    ensures { answered result ≡ def_found buckets certificate.now (part s t certificate.now) table.now }
{
    let name = words::part(certificate, s, t);
    names::find(table, GOAL_BUCKETS, buckets, certificate, name)
}

// The term that an abbreviation stands for.
#[tactic(auto, unfolding(crate::specs::Words::def_meaning))]
pub fn meaning(table: &[u32], buckets: u32, certificate: &[u8], s: usize, t: usize) -> Option<u32>
    ensures { answered result ≡ def_meaning buckets certificate.now (part s t certificate.now) table.now }
{
    let e = find_def(table, buckets, certificate, s, t)?;
    Some(words::at(table, e as usize + VALUE))
}

// One abbreviation more.
#[tactic(auto, unfolding(crate::specs::Words::def_counted, crate::specs::Words::def_added))]
pub fn add_def(
    table: &mut [u32],
    buckets: u32,
    certificate: &[u8],
    s: usize,
    t: usize,
    term: u32,
    tally: Tally,
) -> Tally
    ensures value { result ≡ def_counted tally }
    ensures table_after { table.new ≡ def_added buckets certificate.now s t term tally table.old }
{
    let e = tally.top;
    enter(table, GOAL_BUCKETS, buckets, e, certificate, s, t, term);
    Tally {
        top: words::plus(e, ENTRY_WORDS),
        ..tally
    }
}

// Where the words of step n begin in an area of so many words.
#[tactic(auto, unfolding(crate::specs::Words::step_at))]
pub fn step_at(words: usize, n: u32) -> usize
    ensures { result ≡ step_at words n }
{
    words.saturating_sub(STEP_WORDS * (n as usize + 1))
}

// One step more.
#[tactic(auto, unfolding(crate::specs::Words::step_counted, crate::specs::Words::step_added, crate::specs::Words::step_at))]
pub fn add_step(
    table: &mut [u32],
    judgment: u32,
    rule: u32,
    place: usize,
    tested: usize,
    tally: Tally,
) -> Tally
    ensures value { result ≡ step_counted tally }
    ensures table_after { table.new ≡ step_added judgment rule place tested tally table.old }
{
    let a = step_at(table.len(), tally.steps);
    words::put(table, a, judgment);
    words::put(table, a + 1, rule);
    words::put(table, a + 2, words::low(place));
    words::put(table, a + 3, words::low(tested));
    Tally {
        steps: words::plus(tally.steps, 1),
        ..tally
    }
}

// A part of step n, which is there: of its rule the address, of its references their place in the certificate, and up to where the
// certificate was tested at that place.
#[tactic(auto, unfolding(crate::specs::Words::step_kept, crate::specs::Words::step_at))]
pub fn step_part(table: &[u32], n: u32, part: StepPart) -> u32
    ensures { result ≡ step_kept table.now n (offset part) }
{
    words::at(table, step_at(table.len(), n) + part.offset() as usize)
}

// A word of step n, by its number as `StepPart::offset` has it. None where there is no such step yet.
// The number stays a number: callers may give any, and a `StepPart` would ask more of them.
#[tactic(auto, unfolding(crate::specs::Words::step_word, crate::specs::Words::step_at))]
pub fn step_word(table: &[u32], n: u64, which: u32, tally: Tally) -> Option<u32>
    ensures { answered result ≡ step_word n which tally table.now }
{
    if u64::from(tally.steps) <= n {
        return None;
    }
    let a = step_at(table.len(), n as u32);
    Some(words::at(table, a + which as usize))
}
