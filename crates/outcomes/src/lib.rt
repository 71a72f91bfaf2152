// What a walk answers and leaves, and when that is what the definition says; and the refusals themselves, which the code names by one enum.

#![tactic(auto)]

ghost use Rattle.std.specs.Prelude.{◌≡◌};
ghost use Rattle.outcomes.specs.Told.{number};

// The refusals, in the order of the paper's table, each with its number there.
#[derive(Clone, Copy, PartialEq, Eq, Debug)]
pub enum Refusal {
    AreaShort = 1,
    TextLong = 2,
    NotUtf8 = 3,
    Nesting = 4,
    TextEnds = 5,
    StrayClosing = 6,
    AtomOrList = 7,
    EmptyList = 8,
    Form = 9,
    Excess = 10,
    VariableName = 11,
    Unknown = 12,
    Duplicate = 13,
    TwoSorts = 14,
    SortArity = 15,
    BracketedConstant = 16,
    NoGoal = 17,
    NotNumber = 18,
    StepOrder = 19,
    ReferenceCount = 20,
    BadBinding = 21,
    SecondConclusion = 22,
    BadConclusion = 23,
    NoSuchStep = 24,
    BadPremise = 25,
    Unbound = 26,
    OtherJudgment = 27,
    StoreFull = 28,
    GoalOpen = 29,
    NotOpened = 30,
    OutputLong = 31,
}

impl Refusal {
    // The number that the table gives a refusal, 1 to 31.
    pub fn number(self) -> u32
        ensures { result ≡ number self }
    {
        self as u32
    }
}
