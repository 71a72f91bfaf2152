// For bench/: functions that another language calls to time what the crates below them do. A crate of its own, since no crate can name a
// static library: so the C interface needs each function of `timing` again.
#![tactic(auto)]

ghost use Rattle.std.specs.Prelude.{◌≡◌, length};
ghost use Rattle.words.specs.Parts.{cleared};
ghost use Rattle.lex.specs.Answers.{start};
ghost use Rattle.timing.specs.Count.{counted};

// How many tokens a text has before its end, or before its first line that is not UTF-8.
#[unsafe(no_mangle)]
pub extern "C" fn count_tokens(text: &[u8]) -> usize
    ensures { result ≡ counted (length text.now) text.now start 0 }
{
    timing::count_tokens(text)
}

// Sets the first n words to 0.
#[unsafe(no_mangle)]
pub extern "C" fn clear_words(s: &mut [u32], n: usize)
    ensures { s.new ≡ cleared n s.old }
{
    timing::clear_words(s, n);
}
