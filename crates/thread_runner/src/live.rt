// How many keys are live by the logs of spans.
ghost use Rattle.std.specs.Prelude.{◌≡◌, ◌+◌, ◌++◌, ◌∷◌, [], IfOk, List, map};
ghost use Rattle.std.specs.FinSet as set;
ghost use Rattle.span.specs.KeptLogs.{kept_changes};
ghost use Rattle.span.specs.Log.{live_slots};
ghost use Rattle.span.specs.Views.{viewed};
ghost use Rattle.span.specs.SpanLogs.{span_of_log};
ghost use Rattle.span.specs.declared.change.Change.{Change};
ghost use Rattle.groups.specs.Spans.{live_count};

use bitmap::Bits256;
use span::spans::{ChangeView, Kept, Log, SpanLog};
use std::alloc::AllocError;

// Enters the change into the live slots.
fn enter(live: &mut Bits256, change: ChangeView<'_>)
    ensures { (before : List Change) → live.old ≡ live_slots before
        → live.new ≡ live_slots (before ++ viewed change.entry ∷ []) }
{
    match change {
        ChangeView::Put { slot, .. } => live.insert(slot),
        // It is live already.
        ChangeView::Set { slot, .. } => live.insert(slot),
        ChangeView::Free { slot, .. } => live.remove(slot),
    }
}

// How many slots are live after these changes.
fn live_after(log: &Kept) -> usize
    ensures { result ≡ set.len (live_slots (kept_changes log.now)) }
{
    let mut live = Bits256::empty();
    for place in 0..log.len() {
        enter(&mut live, log.view(place));
    }
    live.count() as usize
}

// The sum, where a `usize` counts as far.
fn sum(first: usize, second: usize) -> Result<usize, AllocError>
    ensures { IfOk result (λ both. both ≡ first + second) }
{
    first.checked_add(second).ok_or(AllocError)
}

/// How many keys are live by the logs of all spans. The error comes where these are more than a
/// `usize` counts, and so more than there is memory for.
pub(crate) fn live_in(logs: &[SpanLog]) -> Result<usize, AllocError>
    ensures { IfOk result (λ live. live ≡ live_count (map span_of_log logs.now)) }
{
    let mut live = 0usize;
    for log in logs {
        live = sum(live, live_after(&log.log))?;
    }
    Ok(live)
}
