// A call over lent areas that held other words, and whether the areas are afterwards as the paper says.
#![tactic(auto)]

use answers::{Answer, Call, Fault};
use areas::{Before, Lengths};
use lent::{Areas, Texts};

// The call with the rulebook alone. It has no fifth count.
fn rulebook(texts: Texts<'_>, areas: &mut Areas<'_>) -> Answer {
    let report = kernel::rulebook(
        texts.rulebook,
        areas.store,
        areas.table,
        areas.stack,
        areas.heap,
    );
    Answer {
        call: Call::Rulebook,
        number: report.number,
        counts: [
            report.sorts,
            report.constructors,
            report.predicates,
            report.rules,
            0,
        ],
    }
}

// The call with three texts.
fn release(texts: Texts<'_>, areas: &mut Areas<'_>) -> Answer {
    let report = kernel::release(
        texts.rulebook,
        texts.goals,
        texts.certificate,
        areas.store,
        areas.table,
        areas.stack,
        areas.heap,
    );
    Answer {
        call: Call::Release,
        number: report.number,
        counts: [
            report.steps,
            report.goals,
            report.terms,
            report.bytes,
            report.requested,
        ],
    }
}

// The call that writes the page. Its one count is the page's length.
fn page(texts: Texts<'_>, areas: &mut Areas<'_>, out: &mut [u8]) -> Answer {
    let written = kernel::page(
        texts.rulebook,
        texts.goals,
        texts.certificate,
        areas.store,
        areas.table,
        areas.stack,
        areas.heap,
        out,
    );
    Answer {
        call: Call::Page,
        number: written.number,
        counts: [written.length, 0, 0, 0, 0],
    }
}

// A call over areas that are filled before it; a fault where they are not as they must be afterwards.
fn judged(
    call: Call,
    before: Before,
    texts: Texts<'_>,
    mut areas: Areas<'_>,
    out: &mut [u8],
) -> Result<Answer, Fault> {
    areas::fill_all(&mut areas, before);
    let answer = match call {
        Call::Rulebook => rulebook(texts, &mut areas),
        Call::Release => release(texts, &mut areas),
        Call::Page => page(texts, &mut areas, out),
    };
    let Areas {
        store,
        table,
        stack,
        heap,
    } = areas;
    let cleared = answers::cleared(answer.number);
    if areas::all_hold(cleared, before, store, table, stack, heap) {
        Ok(answer)
    } else {
        Err(Fault::Areas(answer))
    }
}

// What a call answers over areas of a case's lengths that held other words; a fault too where the case lends more than there is. Only the call of the page
// writes to the buffer.
pub fn answered(
    call: Call,
    before: Before,
    lengths: Lengths,
    texts: Texts<'_>,
    out: &mut [u8],
) -> Result<Answer, Fault> {
    // Arrays, so that no memory can be missing.
    let mut store = [0u32; 40000];
    let mut table = [0u32; 40000];
    let mut stack = [0u32; 40000];
    let mut heap = [0u32; 40000];
    let areas = Areas {
        store: store
            .get_mut(..lengths.first as usize)
            .ok_or(Fault::TooLong(call))?,
        table: table
            .get_mut(..lengths.second as usize)
            .ok_or(Fault::TooLong(call))?,
        stack: stack
            .get_mut(..lengths.third as usize)
            .ok_or(Fault::TooLong(call))?,
        heap: heap
            .get_mut(..lengths.fourth as usize)
            .ok_or(Fault::TooLong(call))?,
    };
    judged(call, before, texts, areas, out)
}
