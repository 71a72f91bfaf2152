// How a term begins: as a term without brackets, whole, or as a list, by its head; and where a list may end, the closing. The reader is
// lent, so that no level of a term keeps one.
#![tactic(auto)]

ghost use Rattle.std.specs.Prelude.{◌≡◌};
ghost use Rattle.asking.specs.Asking as asked;
ghost use Rattle.asking.specs.Asking.{looked};
ghost use Rattle.outcomes.specs.Told.{told_as};
ghost use Rattle.outcomes.specs.Leaving.{◌leaving◌};
ghost use Rattle.openings.specs.Openings.{begins, look_for, begun_at, begun};

use asking::{Item, Look};
use lex::Reader;
use nodes::Scope;
use outcomes::Refusal;

// What begins where a term or a closing is due: a closing, taken; a term without brackets; a list, by the symbol that is its head.
#[derive(Clone, Copy)]
pub enum Begun {
    Closing,
    Whole(u32),
    Opened(u32),
}

// Whether a closing is next, asked only for a member of a list.
pub fn look(text: &[u8], member: bool, reader: Reader) -> Result<Look, Refusal>
    ensures { told_as looked result ≡ look_for text.now member reader }
{
    if member {
        return asking::closing_next(text, reader);
    }
    Ok(Look::Member(reader))
}

// A term, up to its arguments if it has any. Inlined, so that what it answers need not go through memory.
#[inline(always)]
#[tactic(auto, unfolding(asking::specs::Asking::item_due))]
pub fn item(
    scope: &Scope<'_, '_>,
    store: &mut [u32],
    stack: &mut [u32],
    r: &mut Reader,
    top: u32,
    left: u32,
    reader: Reader,
) -> Result<Begun, Refusal>
    ensures { (told_as (begins r.new) result leaving (store.new, stack.new))
        ≡ begun_at left scope.now.text.now scope.now.rules.now scope.now.heap.now scope.now.table.now
        top (asked.member reader) store.old stack.old }
{
    if left == 0 {
        return Err(Refusal::Nesting);
    }
    match asking::item_due(scope.text, left, reader)? {
        Item::Atom(s, t, p) => {
            let k = nodes::atom_term(scope, store, stack, top, s, t)?;
            *r = p;
            Ok(Begun::Whole(k))
        }
        Item::List(p) => {
            let (c, next) = nodes::head(scope, left - 1, p)?;
            *r = next;
            Ok(Begun::Opened(c))
        }
    }
}

// The same, or as a member of a list the closing that is next instead. `member` says which. Not inlined, so that no level of a term has it on the stack, which
// the C interface bounds.
#[inline(never)]
#[tactic(auto, unfolding(crate::specs::Openings::begun))]
pub fn begin(
    scope: &Scope<'_, '_>,
    store: &mut [u32],
    stack: &mut [u32],
    r: &mut Reader,
    top: u32,
    left: u32,
    member: bool,
) -> Result<Begun, Refusal>
    ensures { (told_as (begins r.new) result leaving (store.new, stack.new))
        ≡ begun member left scope.now.text.now scope.now.rules.now scope.now.heap.now scope.now.table.now
        top r.old store.old stack.old }
{
    match look(scope.text, member, *r)? {
        Look::Closing(next) => {
            *r = next;
            Ok(Begun::Closing)
        }
        Look::Member(q) => item(scope, store, stack, r, top, left, q),
    }
}
