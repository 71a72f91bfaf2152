// The lines of the paper's lists of cases (docs/paper/cases.md has their form), all but the calls themselves: the case at hand as its lines
// make it, and what was counted. Every line has a meaning, by its first byte: a list that has none of that form is read as its bytes say.
#![tactic(auto)]

ghost use Rattle.std.specs.Prelude.{◌≡◌, ◌+◌, ◌%◌, ◌^◌, get_or, IfOk};
ghost use Rattle.case_lines.specs.declared.Kind.TheVariants as kinds;

use answers::{Answer, Call, Difference, Fault};
use areas::Lengths;
use case_text::{Line, Text, write_signs};
use std::{fmt, io};

// The case at hand: its three texts, its page and the lengths of its four areas. It has 98 KB of bytes, so it is not copied.
#[derive(Drop)]
pub struct Case {
    pub rulebook: Text<8193>,
    pub goals: Text<8193>,
    pub certificate: Text<32769>,
    pub page: Text<48425>,
    pub lengths: Lengths,
}

impl Case {
    // Before the first case there are no texts, and areas of no words.
    pub fn none() -> Case
        ensures { result.lengths ≡ record { first = 0; second = 0; third = 0; fourth = 0 } }
    {
        Case {
            rulebook: Text::new(),
            goals: Text::new(),
            certificate: Text::new(),
            page: Text::new(),
            lengths: Lengths {
                first: 0,
                second: 0,
                third: 0,
                fourth: 0,
            },
        }
    }
}

// The text for which some bytes stand, in place of the one that is there.
fn set<const N: usize>(text: &mut Text<N>, signs: &[u8]) {
    text.clear();
    let line = Line {
        list: signs,
        left: signs.len(),
    };
    write_signs(line, text);
}

impl Case {
    // A case begins with the example set and areas just long enough. In place, since a new one has 98 KB to be written.
    pub fn begin(&mut self)
        ensures { self.new.lengths ≡ record { first = 16384; second = 16384; third = 16384; fourth = 16384 } }
    {
        set(
            &mut self.rulebook,
            b"(sort t)(ctor z () t)(ctor s (t) t)(pred hold (t))(rule base () (hold z))(rule more ((hold ?x)) (hold (s ?x)))",
        );
        set(&mut self.goals, b"(goal g (hold (s z)))");
        set(
            &mut self.certificate,
            b"(step 0 base ())\n(step 1 more (0))\n(result g 1)\n",
        );
        self.page.clear();
        self.lengths = Lengths::default();
    }
}

// The case at its beginning.
impl Default for Case {
    fn default() -> Case
        ensures { result.lengths ≡ record { first = 16384; second = 16384; third = 16384; fourth = 16384 } }
    {
        let mut case = Case::none();
        case.begin();
        case
    }
}

// How many cases and runs there were, and how much was not as stated.
#[derive(Clone, Copy, Default)]
pub struct Tally {
    pub cases: u32,
    pub runs: u32,
    pub differences: u32,
}

impl fmt::Display for Tally {
    fn fmt<W: fmt::Write>(&self, f: &mut fmt::Formatter<W>) -> fmt::Result {
        let cases = self.cases;
        let runs = self.runs;
        let differences = self.differences;
        write!(f, "cases {cases}\nruns {runs}\ndifferences {differences}\n")
    }
}

// One run more, and a difference more where it was not as stated.
pub fn counted(tally: Tally, as_stated: bool) -> Tally
    ensures cases { result.cases ≡ tally.cases }
    ensures runs { result.runs ≡ (tally.runs + 1) % 2 ^ 32 }
{
    Tally {
        cases: tally.cases,
        runs: tally.runs.wrapping_add(1),
        differences: tally.differences.wrapping_add(u32::from(!as_stated)),
    }
}

// What a call answered, counted against the answer that is stated. A fault is shown, and after the words of the call what is not as stated: of a fault too
// the number that is written for it may be stated.
pub fn compared<R: Print>(
    rt: &R,
    tally: Tally,
    call: impl fmt::Display + Drop,
    due: Answer,
    seen: Result<Answer, Fault>,
) -> io::Result<Tally>
    ensures { IfOk result (λ after. after.runs ≡ (tally.runs + 1) % 2 ^ 32) }
{
    let as_stated = answers::written(seen) == due;
    if let Err(fault) = seen {
        print!(rt; "{fault}")?;
    }
    if !as_stated {
        let number = tally.cases;
        let difference = Difference {
            word: "stated",
            due,
            seen,
        };
        println!(rt; "case {number} {call}{difference}")?;
    }
    Ok(counted(tally, as_stated))
}

// The counts behind a number: five for three texts, four for a rulebook alone, one for a page. Where they are left out they are 0.
fn counts(line: Line<'_>) -> [u32; 5] {
    let mut counts = [0; 5];
    if line.left == 0 {
        return counts;
    }
    let mut line = line;
    for count in &mut counts[..4] {
        (*count, line) = line.behind(1).number();
    }
    if line.left != 0 {
        (counts[4], _) = line.behind(1).number();
    }
    counts
}

// A number, and the counts behind it.
pub fn read_stated(call: Call, line: Line<'_>) -> Answer
    ensures { result.call ≡ call }
{
    let (number, line) = line.number();
    Answer {
        call,
        number,
        counts: counts(line),
    }
}

// The lengths of the four areas: the counts behind a number that is not there.
fn lengths(line: Line<'_>) -> Lengths {
    let (_, line) = line.number();
    let [first, second, third, fourth, _] = counts(line);
    Lengths {
        first,
        second,
        third,
        fourth,
    }
}

// `X TEXT` replaces a text, `X+ TEXT` goes on behind it.
fn read_text<const N: usize>(line: Line<'_>, text: &mut Text<N>) {
    if line.byte(1) == b'+' {
        write_signs(line.behind(3), text);
        return;
    }
    text.clear();
    write_signs(line.behind(2), text);
}

// A new case is counted. Where its number is not the next one it says so, and counts a difference.
fn next<R: Print>(rt: &R, tally: &mut Tally, line: Line<'_>) -> io::Result<()>
    ensures { tally.new.runs ≡ tally.old.runs }
{
    tally.cases = tally.cases.wrapping_add(1);
    let (number, _) = line.number();
    if number != tally.cases {
        tally.differences = tally.differences.wrapping_add(1);
        println!(rt; "a case out of order")?;
    }
    Ok(())
}

// What a line of the list is.
#[derive(Clone, Copy, PartialEq, Eq)]
pub enum Kind {
    Nothing,
    Case,
    Areas,
    Rulebook,
    Goals,
    Certificate,
    Page,
    Answer,
}

impl Kind {
    // By its first byte: an empty line or a comment, `case`, `areas`, a text; whatever has no sign of its own states an answer.
    pub fn of(line: Line<'_>) -> Kind
        ensures nothing { line.entry.left ≡ 0 → result ≡ kinds.Nothing }
        ensures answer { (line.entry.left ≡ 0 → ⊥) → get_or line.entry.list.now 0 0 ≡ 0x70 → result ≡ kinds.Answer }
    {
        if line.left == 0 {
            return Kind::Nothing;
        }
        match line.byte(0) {
            b'#' => Kind::Nothing,
            b'c' => Kind::Case,
            b'a' => Kind::Areas,
            b'R' => Kind::Rulebook,
            b'G' => Kind::Goals,
            b'C' => Kind::Certificate,
            b'P' => Kind::Page,
            _ => Kind::Answer,
        }
    }
}

// The case at hand after a line that states no answer. What states one changes nothing.
pub fn read_line<R: Print>(
    rt: &R,
    case: &mut Case,
    tally: &mut Tally,
    line: Line<'_>,
) -> io::Result<()>
    ensures { tally.new.runs ≡ tally.old.runs }
{
    match Kind::of(line) {
        Kind::Case => {
            case.begin();
            next(rt, tally, line.behind(5))?;
        }
        Kind::Areas => case.lengths = lengths(line.behind(5)),
        Kind::Rulebook => read_text(line, &mut case.rulebook),
        Kind::Goals => read_text(line, &mut case.goals),
        Kind::Certificate => read_text(line, &mut case.certificate),
        Kind::Page => read_text(line, &mut case.page),
        Kind::Nothing | Kind::Answer => {}
    }
    Ok(())
}
