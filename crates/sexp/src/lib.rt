// The first walk over a rulebook: whether all its lists are closed, and how many members each has.
#![tactic(auto)]

ghost use Rattle.std.specs.Prelude.{◌≡◌};
ghost use Rattle.sexp.specs.Steps.{step_answer};
ghost use Rattle.sexp.specs.Walk.{member_added, list_opened, stepped, area_stepped, ended_at, walk_answer, walked};

use lex::{Read, Reader, Token};
use outcomes::Refusal;

// The depth of the deepest items.
const DEEPEST: u32 = 256;

// The lists that are open stand from this word on: in lent words and no Vec, since a call takes no heap.
const OPEN_LISTS: usize = 8192;

// The innermost of n open lists stands at word BEFORE_OPEN + n.
const BEFORE_OPEN: usize = 8191;

// A text of more than 8,192 tokens has more than 8,192 bytes; one turn more finds the end.
const TURNS: u32 = 8193;

// How many lists were opened so far, and how many of them are open.
#[derive(Clone, Copy)]
pub struct Place {
    pub openings: u32,
    pub depth: u32,
}

// One member more of the innermost list that is open.
#[tactic(auto, using(crate::proofs::Paths::members), unfolding(crate::specs::Walk::counted))]
pub fn add_member(area: &mut [u32], depth: u32)
    ensures { area.new ≡ member_added depth area.old }
{
    if depth == 0 {
        return;
    }
    let list = words::at(area, BEFORE_OPEN + depth as usize);
    let count = words::at(area, list as usize);
    words::put(area, list as usize, count.wrapping_add(1));
}

// A list is a member of the one around it, has no member yet and is open.
#[tactic(auto, unfolding(crate::specs::Walk::list_opened))]
pub fn open_list(area: &mut [u32], place: Place)
    ensures { area.new ≡ list_opened place.openings place.depth area.old }
{
    let Place { openings, depth } = place;
    add_member(area, depth);
    words::put(area, openings as usize, 0);
    words::put(area, OPEN_LISTS + depth as usize, openings);
}

// "Asking for an item at depth 257 is refusal 4, before its token is taken." In a list a closing is looked for first.
#[tactic(auto, using(crate::proofs::Paths::steps), unfolding(crate::specs::Steps::step_answer))]
pub fn take(token: Token, area: &mut [u32], place: Place) -> Result<Place, Refusal>
    ensures step { step_answer result ≡ stepped token place }
    ensures area { area.new ≡ area_stepped token place area.old }
{
    let Place { openings, depth } = place;
    match token {
        Token::Closing => {
            if depth == 0 {
                return Err(Refusal::StrayClosing);
            }
            Ok(Place {
                openings,
                depth: depth - 1,
            })
        }
        Token::Opening => {
            if DEEPEST < depth {
                return Err(Refusal::Nesting);
            }
            open_list(area, place);
            Ok(Place {
                openings: openings.wrapping_add(1),
                depth: depth + 1,
            })
        }
        Token::Atom(_, _) => {
            if DEEPEST < depth {
                return Err(Refusal::Nesting);
            }
            add_member(area, depth);
            Ok(place)
        }
    }
}

// The end of the text: how many openings it has. In a list an item is asked for there: "then end of text is 5".
#[tactic(auto, using(crate::proofs::Paths::ends), unfolding(crate::specs::Walk::walk_answer))]
pub fn at_end(place: Place) -> Result<u32, Refusal>
    ensures { walk_answer result ≡ ended_at place }
{
    if place.depth == 0 {
        return Ok(place.openings);
    }
    if DEEPEST < place.depth {
        return Err(Refusal::Nesting);
    }
    Err(Refusal::TextEnds)
}

// Reads all of a text and answers how many openings it has. The count of members of each list is left in the order of the openings from
// word 0 on; the lists that are open stand from word 8,192 on.
#[tactic(auto, using(crate::proofs::Turns::turns), unfolding(crate::specs::Walk::walk_answer, crate::specs::Walk::walked, crate::specs::Steps::step_answer))]
pub fn count_members(text: &[u8], area: &mut [u32]) -> Result<u32, Refusal>
    ensures answer { walk_answer result ≡ (walked text.now area.old).answer }
    ensures area { area.new ≡ (walked text.now area.old).area }
{
    let mut reader = Reader::new();
    let mut place = Place {
        openings: 0,
        depth: 0,
    };
    for _ in 0..TURNS {
        match reader.token(text) {
            Read::Bad => return Err(Refusal::NotUtf8),
            Read::End => return at_end(place),
            Read::Got(token, next) => {
                place = take(token, area, place)?;
                reader = next;
            }
        }
    }
    // Out of turns: the laws show that this is never met.
    Err(Refusal::TextLong)
}
