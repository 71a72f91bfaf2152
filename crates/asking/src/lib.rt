// What is asked of a reader in goals and certificate. They are not read whole before: they may end or go bad anywhere.
// "All members are asked for as above." How deep an item may be is told by `left`: 257 less the depth that it is asked for at. The text stays beside the
// reader, since what is asked answers with the reader alone: with the text in it each answer would hand the text back too.
#![tactic(auto)]

ghost use Rattle.std.specs.Prelude.{◌≡◌};
ghost use Rattle.outcomes.specs.Told.{told, told_as};
ghost use Rattle.asking.specs.Asking.{met, looked, begun, item_due, atom_due, list_due, closing_due, closing_next, form_due};

use lex::{Read, Reader, Token};
use outcomes::Refusal;

// What is left for the members of a form, which are at depth 1.
pub const IN_FORM: u32 = 256;

// What is left for the members of a list within a form, which are at depth 2.
pub const IN_LIST: u32 = 255;

// An atom with its bounds and the reader after it, or a list with the reader after its opening. In crate items, where the text was read whole, a
// list has its number of members beside it: one type for both would have a parameter for that number, and be no plainer.
#[derive(Clone, Copy)]
pub enum Item {
    Atom(usize, usize, Reader),
    List(Reader),
}

// Whether a closing is next: if so it is taken; if not, a member is to be asked for.
#[derive(Clone, Copy)]
pub enum Look {
    Closing(Reader),
    Member(Reader),
}

// "Asking for an item at depth 257 is refusal 4, before its token is taken; then end of text is 5, a closing 6."
#[tactic(auto, using(outcomes::proofs::BadLines::bad_line), unfolding(crate::specs::Asking::item_due, lex::specs::Answers::answer))]
pub fn item_due(text: &[u8], left: u32, reader: Reader) -> Result<Item, Refusal>
    ensures { told_as met result ≡ item_due text.now left reader }
{
    if left == 0 {
        return Err(Refusal::Nesting);
    }
    match reader.token(text) {
        Read::End => Err(Refusal::TextEnds),
        Read::Bad => Err(Refusal::NotUtf8),
        Read::Got(Token::Closing, _) => Err(Refusal::StrayClosing),
        Read::Got(Token::Opening, next) => Ok(Item::List(next)),
        Read::Got(Token::Atom(s, t), next) => Ok(Item::Atom(s, t, next)),
    }
}

// An atom, where one is due: its bounds and the reader after it. "After 4, 5 and 6, an answer that is no atom there is refused 7." `let .. else`
// is the project's rule for this refusal.
#[tactic(auto, using(crate::proofs::Tags::no_atom), unfolding(crate::specs::Asking::atom_due))]
pub fn atom_due(text: &[u8], left: u32, reader: Reader) -> Result<(usize, usize, Reader), Refusal>
    ensures { told result ≡ atom_due text.now left reader }
{
    let Item::Atom(s, t, next) = item_due(text, left, reader)? else {
        return Err(Refusal::AtomOrList);
    };
    Ok((s, t, next))
}

// A list, where one is due: its opening is taken.
#[tactic(auto, unfolding(crate::specs::Asking::list_due))]
pub fn list_due(text: &[u8], left: u32, reader: Reader) -> Result<Reader, Refusal>
    ensures { told result ≡ list_due text.now left reader }
{
    let Item::List(next) = item_due(text, left, reader)? else {
        return Err(Refusal::AtomOrList);
    };
    Ok(next)
}

// "Where a closing is due, end of text is 5 and any other token 10."
#[tactic(auto, using(outcomes::proofs::BadLines::bad_line), unfolding(crate::specs::Asking::closing_due, lex::specs::Answers::answer))]
pub fn closing_due(text: &[u8], reader: Reader) -> Result<Reader, Refusal>
    ensures { told result ≡ closing_due text.now reader }
{
    match reader.token(text) {
        Read::End => Err(Refusal::TextEnds),
        Read::Bad => Err(Refusal::NotUtf8),
        Read::Got(Token::Closing, next) => Ok(next),
        Read::Got(Token::Opening | Token::Atom(_, _), _) => Err(Refusal::Excess),
    }
}

// "After an opening, members are asked for until a closing is next. That look ahead comes first, so a bad line found by it is 3, not 4".
// At the end of the text a member is asked for, which is 4 or 5 then.
#[tactic(auto, using(outcomes::proofs::BadLines::bad_line), unfolding(crate::specs::Asking::closing_next, lex::specs::Answers::answer))]
pub fn closing_next(text: &[u8], reader: Reader) -> Result<Look, Refusal>
    ensures { told_as looked result ≡ closing_next text.now reader }
{
    match reader.peek(text) {
        Read::Bad => Err(Refusal::NotUtf8),
        Read::End => Ok(Look::Member(reader)),
        Read::Got(Token::Closing, held) => {
            let next = closing_due(text, held)?;
            Ok(Look::Closing(next))
        }
        Read::Got(Token::Opening | Token::Atom(_, _), held) => Ok(Look::Member(held)),
    }
}

// The next form of goals or certificate, its opening taken; none at the end of the text. At depth 0 an item may be asked for.
#[tactic(auto, using(outcomes::proofs::BadLines::bad_line), unfolding(crate::specs::Asking::form_due, lex::specs::Answers::answer))]
pub fn form_due(text: &[u8], reader: Reader) -> Result<Option<Reader>, Refusal>
    ensures { told_as begun result ≡ form_due text.now reader }
{
    match reader.token(text) {
        Read::End => Ok(None),
        Read::Bad => Err(Refusal::NotUtf8),
        Read::Got(Token::Closing, _) => Err(Refusal::StrayClosing),
        Read::Got(Token::Atom(_, _), _) => Err(Refusal::AtomOrList),
        Read::Got(Token::Opening, next) => Ok(Some(next)),
    }
}
