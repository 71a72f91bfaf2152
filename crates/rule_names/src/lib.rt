// What stands in the place of a rule's name, kept for a judgment after the patterns; a list there is passed over.
#![tactic(auto)]

ghost use Rattle.std.specs.Prelude.{◌≡◌, length};
ghost use Rattle.outcomes.specs.Told.{told};
ghost use Rattle.rule_names.specs.RuleNames.{passed, skipped, name_kept};

use items::{Counted, Item, Walk};
use lex::{Read, Token};
use outcomes::Refusal;

// What stands in the place of a rule's name, which is judged after the patterns. No Option of bounds: that would not say what None is, and a
// list is something here.
#[derive(Clone, Copy)]
pub enum RuleName {
    Atom(usize, usize),
    List,
}

// 1 more than the token's change of depth: opening 2, atom 1, closing 0. A number, since the depth is added to.
#[tactic(auto, using(outcomes::proofs::BadLines::bad_line), unfolding(crate::specs::RuleNames::passed, lex::specs::Answers::answer))]
pub fn pass(text: &[u8], w: Walk) -> Result<(u32, Walk), Refusal>
    ensures { told result ≡ passed text.now w }
{
    match w.reader.token(text) {
        Read::End => Err(Refusal::TextEnds),
        Read::Bad => Err(Refusal::NotUtf8),
        Read::Got(Token::Opening, next) => Ok((
            2,
            Walk {
                reader: next,
                opened: words::plus(w.opened, 1),
                ..w
            },
        )),
        Read::Got(Token::Closing, next) => Ok((0, Walk { reader: next, ..w })),
        Read::Got(Token::Atom(_, _), next) => Ok((1, Walk { reader: next, ..w })),
    }
}

// Past the closing of a list whose opening was taken.
#[tactic(auto, using(crate::proofs::Turns::turns))]
pub fn skip(text: &[u8], w: Walk) -> Result<Walk, Refusal>
    ensures { told result ≡ skipped (length text.now) 1 text.now w }
{
    let mut v = w;
    let mut depth: u32 = 1;
    for _ in 0..text.len() {
        let (k, q) = pass(text, v)?;
        v = q;
        depth = words::plus(depth - 1, k);
        if depth == 0 {
            return Ok(v);
        }
    }
    // Out of turns: the laws show that this is never met.
    Err(Refusal::Nesting)
}

// What stands in the place of a rule's name, unjudged.
#[tactic(auto, unfolding(crate::specs::RuleNames::name_kept))]
pub fn keep_name(rulebook: Counted<'_>, w: Walk) -> Result<(RuleName, Walk), Refusal>
    ensures { told result ≡ name_kept rulebook.entry.text.now rulebook.entry.counts.now w }
{
    match rulebook.next_item(w)? {
        Item::Atom(s, t, q) => Ok((RuleName::Atom(s, t), q)),
        Item::List(_, q) => Ok((RuleName::List, skip(rulebook.text, q)?)),
    }
}
