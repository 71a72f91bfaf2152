// The places of the theory's area, which no other code says by a number (specs/Places.antt says the same of the models).

// Buckets: so many of each kind, from these words on; entries stand behind them.
pub const BUCKETS: u32 = 256;

pub const SORTS: u32 = 0;

pub const CONSTRUCTORS: u32 = 256;

pub const PREDICATES: u32 = 512;

pub const RULES: u32 = 768;

pub const ENTRIES: u32 = 1024;

pub const ALL_BUCKETS: usize = 1024;

// A pattern's word for a variable is this and its number; a symbol's address is smaller.
pub const VARIABLE: u32 = 16384;

// A sort's entry is its name alone, of so many words.
pub const SORT_WORDS: u32 = 3;

// In an entry, behind the three words of its name. A symbol: what it gives, how many inputs it has, and behind so many words the inputs.
pub const OUTPUT: usize = 3;

pub const ARITY: usize = 4;

pub const INPUTS: usize = 5;

pub const SYMBOL: u32 = 5;

// A rule: how many premises and variables it has, where its conclusion and its variables stand, and its patterns.
pub const PREMISE_COUNT: usize = 3;

pub const VARIABLE_COUNT: usize = 4;

pub const CONCLUSION: usize = 5;

pub const VARIABLES: usize = 6;

pub const PATTERNS: u32 = 7;

// Words of each variable of a rule: where its name begins and ends, and its sort.
pub const VARIABLE_WORDS: usize = 3;

// Words of bindings, one for each variable of the rule of the step that is being read; the theory stands below.
pub const BINDINGS: usize = 12288;
