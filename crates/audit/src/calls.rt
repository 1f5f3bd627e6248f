// What a receipt says of its call, as numbers and tests.
ghost use Rattle.std.specs.Prelude.{◌≡◌, ◌↔◌, ◌<◌, IsTrue, option_map};
ghost use Rattle.span.specs.ReceiptViews.{call_viewed, receipt_viewed};
ghost use Rattle.span.specs.Views.{viewed};
ghost use Rattle.audit.specs.Receipts.{changes_after, makes_change};
ghost use Rattle.audit.specs.Agreement.{CallMakes};
ghost use Rattle.audit.specs.Changes.{slot_of, left_by, generation_of, issued_by};

use span::names::Key;
use span::receipts::{CallView, ReceiptView};
use span::spans::ChangeView;

/// Whether the call makes a change: a put does, and a set and a free that were done.
pub fn makes_change(receipt: &ReceiptView<'_>) -> bool
    ensures { result ≡ makes_change (receipt_viewed receipt.now) }
{
    match receipt.call {
        CallView::Put { .. } | CallView::Set { .. } | CallView::Freed => true,
        CallView::Found { .. }
        | CallView::NotFound
        | CallView::NotSet { .. }
        | CallView::NotFreed => false,
    }
}

/// How many changes stood in the log after the call: one more than before it, where it made one.
/// A number that holds one more than any place does.
pub fn changes_after(receipt: &ReceiptView<'_>) -> u128
    ensures { result ≡ changes_after (receipt_viewed receipt.now) }
{
    if makes_change(receipt) {
        receipt.at as u128 + 1
    } else {
        receipt.at as u128
    }
}

/// Whether the call with this key makes this change.
pub fn call_makes(call: CallView<'_>, key: &Key, change: ChangeView<'_>) -> bool
    ensures { IsTrue result ↔ CallMakes (call_viewed call.entry) key.now (viewed change.entry) }
{
    match (call, change) {
        (
            CallView::Put { value },
            ChangeView::Put {
                slot,
                generation,
                words,
            },
        ) => { key.slot == slot && key.generation == generation && value.is(words) }
        (
            CallView::Set { value: set },
            ChangeView::Set {
                slot,
                generation,
                words,
            },
        ) => { key.slot == slot && key.generation == generation && set.is(words) }
        (CallView::Freed, ChangeView::Free { slot, generation }) => {
            key.slot == slot && key.generation == generation
        }
        _ => false,
    }
}

/// The slot of a change.
pub fn slot_of(change: ChangeView<'_>) -> u8
    ensures { result ≡ slot_of (viewed change.entry) }
{
    match change {
        ChangeView::Put { slot, .. }
        | ChangeView::Set { slot, .. }
        | ChangeView::Free { slot, .. } => slot,
    }
}

/// The generation that the change's slot holds after it, if it holds anything.
pub fn generation_left_by(change: ChangeView<'_>) -> Option<u32>
    ensures { result ≡ option_map generation_of (left_by (viewed change.entry)) }
{
    match change {
        ChangeView::Put { generation, .. } | ChangeView::Set { generation, .. } => Some(generation),
        ChangeView::Free { .. } => None,
    }
}

/// The last generation of the change's slot after it, where this was the last before it.
pub fn issued_by(change: ChangeView<'_>, last: u32) -> u32
    ensures { result ≡ issued_by (viewed change.entry) last }
{
    match change {
        ChangeView::Put { generation, .. } => generation,
        ChangeView::Set { .. } | ChangeView::Free { .. } => last,
    }
}
