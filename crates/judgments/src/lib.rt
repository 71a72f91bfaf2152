// Judgments in goals and certificate: a predicate and its arguments, which are terms.
#![tactic(auto)]

ghost use Rattle.std.specs.Prelude.{◌≡◌};
ghost use Rattle.outcomes.specs.Told.{told};
ghost use Rattle.outcomes.specs.Leaving.{◌leaving◌};
ghost use Rattle.judgments.specs.Judgments.{headed_judgment, judgment};

use lex::Reader;
use nodes::Scope;
use outcomes::Refusal;
use theory_reading::Section;

// "Judgment: list, head a predicate (12), arguments, 15, store." Here its head was asked for: an atom with these bounds.
// Eight parameters: what is written, where, how deep, and what was asked for are four things of their own.
#[tactic(auto, unfolding(crate::specs::Judgments::headed_judgment, nodes::specs::Nodes::predicate_due))]
pub fn headed_judgment(
    scope: &Scope<'_, '_>,
    store: &mut [u32],
    stack: &mut [u32],
    top: u32,
    left: u32,
    s: usize,
    t: usize,
    reader: Reader,
) -> Result<(u32, Reader), Refusal>
    ensures { (told result leaving (store.new, stack.new))
        ≡ headed_judgment left scope.now.text.now scope.now.rules.now scope.now.heap.now scope.now.table.now
        top s t reader store.old stack.old }
{
    let name = words::part(scope.text, s, t);
    let found = theory_reading::find(scope.heap, scope.rules, Section::Predicates, name);
    let c = found.ok_or(Refusal::Unknown)?;
    let above = words::plus(top, 1);
    let (n, r) = terms::args(scope, store, stack, above, left, reader)?;
    nodes::make(scope.heap, store, stack, c, top, n, r)
}

// A judgment, asked for with that much depth left.
#[tactic(auto, unfolding(crate::specs::Judgments::judgment))]
pub fn judgment(
    scope: &Scope<'_, '_>,
    store: &mut [u32],
    stack: &mut [u32],
    top: u32,
    left: u32,
    reader: Reader,
) -> Result<(u32, Reader), Refusal>
    ensures { (told result leaving (store.new, stack.new))
        ≡ judgment left scope.now.text.now scope.now.rules.now scope.now.heap.now scope.now.table.now
        top reader store.old stack.old }
{
    if left == 0 {
        return Err(Refusal::Nesting);
    }
    let r = asking::list_due(scope.text, left, reader)?;
    let (s, t, r) = asking::atom_due(scope.text, left - 1, r)?;
    headed_judgment(scope, store, stack, top, left - 1, s, t, r)
}
