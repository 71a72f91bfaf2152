// Answers of the calls, what was wrong with one, and how programs write and compare them.
#![tactic(auto)]

ghost use Rattle.std.specs.Prelude.{◌<◌, ◌≡◌, ◌+◌, ◌%◌, ◌^◌, IfErr, IfOk};

use std::fmt;

// Which call an answer is of.
#[derive(Clone, Copy, PartialEq, Eq)]
pub enum Call {
    Rulebook,
    Release,
    Page,
}

impl fmt::Display for Call {
    fn fmt<W: fmt::Write>(&self, f: &mut fmt::Formatter<W>) -> fmt::Result {
        match self {
            Call::Rulebook => write!(f, "rulebook"),
            Call::Release => write!(f, "release"),
            Call::Page => write!(f, "page"),
        }
    }
}

// A report of a call, or one that is stated. The call with the rulebook alone has four counts, and its fifth is 0; the call that writes the
// page has one, the length.
#[derive(Clone, Copy, PartialEq, Eq)]
pub struct Answer {
    pub call: Call,
    pub number: u32,
    pub counts: [u32; 5],
}

// The number and the counts that the call has, a space before each.
impl fmt::Display for Answer {
    fn fmt<W: fmt::Write>(&self, f: &mut fmt::Formatter<W>) -> fmt::Result {
        let number = self.number;
        let [first, second, third, fourth, fifth] = self.counts;
        match self.call {
            Call::Rulebook => write!(f, " {number} {first} {second} {third} {fourth}"),
            Call::Release => write!(f, " {number} {first} {second} {third} {fourth} {fifth}"),
            Call::Page => write!(f, " {number} {first}"),
        }
    }
}

// How many words of each area are 0 after an answer.
pub fn cleared(number: u32) -> usize {
    match number {
        1 | 2 => 0,
        _ => 16384,
    }
}

// What was wrong: a case lends more than there is, so that no call is made; or the areas, the buffer or both are not as they must be after the
// answer.
#[derive(Clone, Copy, PartialEq, Eq)]
pub enum Fault {
    TooLong(Call),
    Areas(Answer),
    Buffer(Answer),
    Both(Answer),
}

// A line for each thing that is wrong, which programs write above the answer. A case that lends too much has none.
impl fmt::Display for Fault {
    fn fmt<W: fmt::Write>(&self, f: &mut fmt::Formatter<W>) -> fmt::Result {
        match self {
            Fault::TooLong(_) => write!(f, ""),
            Fault::Areas(_) => write!(f, "areas wrong\n"),
            Fault::Buffer(_) => write!(f, "buffer wrong\n"),
            Fault::Both(_) => write!(f, "areas wrong\nbuffer wrong\n"),
        }
    }
}

// What programs write for an answer: itself, or for a fault a number that no call gives, with the counts as they came.
pub fn written(seen: Result<Answer, Fault>) -> Answer
    ensures answer { IfOk seen (λ answer. result ≡ answer) }
    ensures fault { IfErr seen (λ fault. 96 < result.number) }
{
    match seen {
        Ok(answer) => answer,
        Err(Fault::TooLong(call)) => Answer {
            call,
            number: 98,
            counts: [0; 5],
        },
        Err(Fault::Areas(answer)) => Answer {
            number: 99,
            ..answer
        },
        Err(Fault::Buffer(answer)) => Answer {
            number: 97,
            ..answer
        },
        Err(Fault::Both(answer)) => Answer {
            number: 97,
            ..answer
        },
    }
}

// The answer that was due, under the word that says where it stands, and what came in its place.
#[derive(Clone, Copy)]
pub struct Difference<'a> {
    pub word: &'a str,
    pub due: Answer,
    pub seen: Result<Answer, Fault>,
}

impl<'a> fmt::Display for Difference<'a> {
    fn fmt<W: fmt::Write>(&self, f: &mut fmt::Formatter<W>) -> fmt::Result {
        let word = self.word;
        let due = self.due;
        let seen = written(self.seen);
        write!(f, ": {word}{due}, answered{seen}")
    }
}

// How many cases there were, and how many of them differed. The programs that count something else have a struct of their own.
#[derive(Clone, Copy, Default)]
pub struct Tally {
    pub cases: u32,
    pub differences: u32,
}

impl Tally {
    // One case more, with so many differences.
    pub fn and(self, different: u32) -> Tally
        ensures cases { result.cases ≡ (self.cases + 1) % 2 ^ 32 }
        ensures differences { result.differences ≡ (self.differences + different) % 2 ^ 32 }
    {
        Tally {
            cases: self.cases.wrapping_add(1),
            differences: self.differences.wrapping_add(different),
        }
    }

    // One case more, which differed or not.
    pub fn with(self, different: bool) -> Tally
        ensures { result.cases ≡ (self.cases + 1) % 2 ^ 32 }
    {
        self.and(u32::from(different))
    }
}

impl fmt::Display for Tally {
    fn fmt<W: fmt::Write>(&self, f: &mut fmt::Formatter<W>) -> fmt::Result {
        let cases = self.cases;
        let differences = self.differences;
        write!(f, "cases {cases}\ndifferences {differences}\n")
    }
}
