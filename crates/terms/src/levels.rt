// Terms within terms, and the stack that they take. A level is one frame of `args`, with `term` in it, which has no other caller. What it
// need not keep is not in it: the reader is lent, and all that reads a token or makes a node is in `openings::begin` and `nodes::node`,
// which stay functions of their own: the one is not inlined, the other is called from outside the cycle too.
ghost use Rattle.std.specs.Prelude.{◌≡◌};
ghost use Rattle.outcomes.specs.Told.{told_as};
ghost use Rattle.outcomes.specs.Leaving.{◌leaving◌};
ghost use Rattle.terms.specs.Terms.{arguments};
ghost use Rattle.terms.specs.Levels.{argues, argument};

use lex::Reader;
use nodes::Scope;
use openings::Begun;
use outcomes::Refusal;

// "A term reads its arguments, and each argument is a term; after the closing come 16 for a bracketed constructor without arguments, then
// 15 for arity and sorts, then the store." None where a closing is next. That the two call each other is the project's rule: the depth falls.
#[cycle(args_term)]
#[tactic(auto, using(crate::proofs::Within::within))]
pub fn term(
    scope: &Scope<'_, '_>,
    store: &mut [u32],
    stack: &mut [u32],
    r: &mut Reader,
    top: u32,
    left: u32,
) -> Result<Option<u32>, Refusal>
    ensures { (told_as (argues r.new) result leaving (store.new, stack.new))
        ≡ argument left scope.now.text.now scope.now.rules.now scope.now.heap.now scope.now.table.now
        top r.old store.old stack.old }
{
    match openings::begin(scope, store, stack, r, top, left, true)? {
        Begun::Closing => Ok(None),
        Begun::Whole(k) => Ok(Some(k)),
        Begun::Opened(c) => {
            let above = words::plus(top, 1);
            let n = args(scope, store, stack, r, above, left - 1)?;
            if n == 0 {
                return Err(Refusal::BracketedConstant);
            }
            let k = nodes::node(scope.heap, store, stack, c, top, n)?;
            Ok(Some(k))
        }
    }
}

// Arguments, asked for until a closing is next, and left on the stack from `top` on.
#[cycle(args_term)]
#[tactic(auto, using(crate::proofs::Within::within), unfolding(crate::specs::Terms::arguments))]
pub fn args(
    scope: &Scope<'_, '_>,
    store: &mut [u32],
    stack: &mut [u32],
    r: &mut Reader,
    top: u32,
    left: u32,
) -> Result<u32, Refusal>
    ensures { (told_as (λ n. (n, r.new)) result leaving (store.new, stack.new))
        ≡ arguments left scope.now.text.now scope.now.rules.now scope.now.heap.now scope.now.table.now
        top r.old store.old stack.old }
{
    let mut n: u32 = 0;
    for _turn in 0..scope.text.len() + 1 {
        let place = words::plus(top, n);
        let Some(k) = term(scope, store, stack, r, place, left)? else {
            return Ok(n);
        };
        words::put(stack, place as usize, k);
        n = words::plus(n, 1);
    }
    // Out of turns: the laws show that this is never met.
    Err(Refusal::TextLong)
}
