// Terms in goals and certificate (crate nodes says what a term, a symbol and the stack are): a term reads its arguments, each of which is a
// term.
#![tactic(auto)]

ghost use Rattle.std.specs.Prelude.{◌≡◌};
ghost use Rattle.outcomes.specs.Told.{told};
ghost use Rattle.outcomes.specs.Leaving.{◌leaving◌};
ghost use Rattle.terms.specs.Terms.{term, arguments};

use lex::Reader;
use nodes::Scope;
use openings::Begun;
use outcomes::Refusal;

mod levels;

// A term, asked for with that much depth left. Not one with `levels::term`, which is due a term or a closing and lends its reader, so that a level takes
// little stack: the C header bounds it. What begins is read by `openings::item`, inlined, since `begin` hands its answer back through memory.
#[tactic(auto, using(crate::proofs::Within::within))]
pub fn term(
    scope: &Scope<'_, '_>,
    store: &mut [u32],
    stack: &mut [u32],
    top: u32,
    left: u32,
    reader: Reader,
) -> Result<(u32, Reader), Refusal>
    ensures { (told result leaving (store.new, stack.new))
        ≡ term left scope.now.text.now scope.now.rules.now scope.now.heap.now scope.now.table.now
        top reader store.old stack.old }
{
    let mut r = reader;
    match openings::item(scope, store, stack, &mut r, top, left, reader)? {
        Begun::Closing => Err(Refusal::StrayClosing),
        Begun::Whole(k) => Ok((k, r)),
        Begun::Opened(c) => {
            let above = words::plus(top, 1);
            let (n, next) = args(scope, store, stack, above, left - 1, r)?;
            if n == 0 {
                return Err(Refusal::BracketedConstant);
            }
            nodes::make(scope.heap, store, stack, c, top, n, next)
        }
    }
}

// The arguments of a term or a judgment, left on the stack from `top` on: how many there are.
pub fn args(
    scope: &Scope<'_, '_>,
    store: &mut [u32],
    stack: &mut [u32],
    top: u32,
    left: u32,
    reader: Reader,
) -> Result<(u32, Reader), Refusal>
    ensures { (told result leaving (store.new, stack.new))
        ≡ arguments left scope.now.text.now scope.now.rules.now scope.now.heap.now scope.now.table.now
        top reader store.old stack.old }
{
    let mut r = reader;
    let n = levels::args(scope, store, stack, &mut r, top, left)?;
    Ok((n, r))
}
