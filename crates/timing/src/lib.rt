// For bench/: functions to time what the crates below them do. Crate `timing_c` exports them.
#![tactic(auto)]

ghost use Rattle.std.specs.Prelude.{◌≡◌, length};
ghost use Rattle.words.specs.Parts.{cleared};
ghost use Rattle.lex.specs.Answers.{start};
ghost use Rattle.timing.specs.Count.{counted};

// How many tokens a text has before its end, or before its first line that is not UTF-8.
#[tactic(auto, using(crate::proofs::Turns::turns), unfolding(lex::specs::Answers::answer))]
pub fn count_tokens(text: &[u8]) -> usize
    ensures { result ≡ counted (length text.now) text.now start 0 }
{
    let mut r = lex::Reader::new();
    for n in 0..text.len() {
        let lex::Read::Got(_, next) = r.token(text) else {
            return n;
        };
        r = next;
    }
    text.len()
}

// Sets the first n words to 0.
pub fn clear_words(s: &mut [u32], n: usize)
    ensures { s.new ≡ cleared n s.old }
{
    words::clear(s, n);
}
