// The walks over three texts, with the areas cleared behind them. Crate `page_walks` does the same with a page: it has two calls of this in
// common, and writes between them from what the areas hold.
#![tactic(auto)]

ghost use Rattle.std.specs.Prelude.{◌≡◌, length, replicate};
ghost use Rattle.lent.specs.Lent.{Same};
ghost use Rattle.checker.specs.Checker as checking;
ghost use Rattle.reports.specs.Release.{released_by};

use lent::{Areas, Texts};
use reports::Report;

// All three texts, then the areas cleared behind them.
pub fn check(texts: Texts<'_>, bytes: u32, areas: &mut Areas<'_>) -> Report
    ensures report { result
        ≡ released_by bytes (checking.check texts.entry.rulebook.now texts.entry.goals.now
        texts.entry.certificate.now areas.old.store.now areas.old.table.now
        areas.old.stack.now areas.old.heap.now) }
    ensures same { Same areas.old areas.new }
    ensures store { areas.new.store.now ≡ replicate (length areas.old.store.now) 0 }
    ensures table { areas.new.table.now ≡ replicate (length areas.old.table.now) 0 }
    ensures stack { areas.new.stack.now ≡ replicate (length areas.old.stack.now) 0 }
    ensures heap { areas.new.heap.now ≡ replicate (length areas.old.heap.now) 0 }
{
    let checked = checker::check(texts, areas);
    clearing::clear_all(areas);
    reports::accepted(checked, bytes)
}
