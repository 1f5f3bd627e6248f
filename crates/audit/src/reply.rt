// Whether each call was answered as its span's log says.
ghost use Rattle.std.specs.Prelude.{◌≡◌, ◌↔◌, ◌≤◌, IsTrue, IfOk, Some, ℕ, length, take, slice_get, map, option_map, vec_items};
ghost use Rattle.span.specs.declared.receipt.Receipt.{Receipt};
ghost use Rattle.span.specs.KeptLogs.{kept_changes};
ghost use Rattle.span.specs.Log.{value_if};
ghost use Rattle.span.specs.ReceiptLists.{kept_receipts};
ghost use Rattle.span.specs.ReceiptViews.{call_viewed, receipt_viewed, words_viewed};
ghost use Rattle.span.specs.Views.{viewed};
ghost use Rattle.audit.specs.Changes.{left_by};
ghost use Rattle.audit.specs.Receipts.{CanBeSet, value_after};
ghost use Rattle.audit.specs.Agreement.{IsAnswered, IsRightReply, RepliesAreRight};
ghost use Rattle.audit.specs.Slots.{AreBySlot, IsBySlot};
ghost use Rattle.audit.specs.Tables.{IsTable};

use crate::first::Firsts;
use crate::log::{LogPlaces, index_of};
use crate::slot::{SlotChange, all_by_slot, last_before};
use span::names::Key;
use span::receipts::{CallView, ObjectView, ReceiptList, ReceiptView};
use span::spans::{ChangeView, Kept, Log, SpanLog};
use std::alloc::{AllocError, Global};

// The words that a key of the generation holds after the change of its slot, if any.
fn words_after(change: ChangeView<'_>, generation: u32) -> Option<&[u128]>
    ensures { option_map (λ words. words.now) result
        ≡ value_if generation (left_by (viewed change.entry)) }
{
    match change {
        ChangeView::Put {
            generation: put,
            words,
            ..
        } if put == generation => Some(words),
        ChangeView::Set {
            generation: set,
            words,
            ..
        } if set == generation => Some(words),
        _ => None,
    }
}

// The words that the key holds after the changes before the place, if any.
fn value_after<'a>(
    log: &'a Kept,
    order: &[SlotChange],
    guess: usize,
    at: usize,
    key: &Key,
) -> Option<&'a [u128]>
    requires order { IsBySlot (kept_changes log.now) order.now }
    requires inside { at ≤ length (kept_changes log.now) }
    ensures { option_map (λ words. words.now) result
        ≡ value_after (take at (kept_changes log.now)) key.now }
{
    let last = last_before(order, key.slot, at, guess)?;
    words_after(log.view(last), key.generation)
}

// Whether a key that holds these words, if any, can be set to the new object.
fn can_be_set(value: Option<&[u128]>, new: ObjectView<'_>) -> bool
    ensures { IsTrue result ↔ CanBeSet (option_map (λ words. words.now) value.entry)
        (words_viewed new.entry) }
{
    match value {
        Some(words) => words.len() == new.len(),
        None => false,
    }
}

// Whether the call was answered as a key that holds these words, if any, answers it.
fn is_answered(call: CallView<'_>, value: Option<&[u128]>) -> bool
    ensures { IsTrue result ↔ IsAnswered (call_viewed call.entry)
        (option_map (λ words. words.now) value.entry) }
{
    match call {
        CallView::Put { .. } => true,
        CallView::Found { value: found } => match value {
            Some(words) => found.is(words),
            None => false,
        },
        CallView::NotFound | CallView::NotFreed => value.is_none(),
        CallView::Set { value: new } => can_be_set(value, new),
        CallView::NotSet { value: new } => !can_be_set(value, new),
        CallView::Freed => value.is_some(),
    }
}

// Whether the call was answered as the changes before the place say. What a put answers is its own
// key, so its value is not looked for.
fn is_answered_after(
    log: &Kept,
    order: &[SlotChange],
    guess: usize,
    at: usize,
    key: &Key,
    call: CallView<'_>,
) -> bool
    requires order { IsBySlot (kept_changes log.now) order.now }
    requires inside { at ≤ length (kept_changes log.now) }
    ensures { IsTrue result ↔ IsAnswered (call_viewed call.entry)
        (value_after (take at (kept_changes log.now)) key.now) }
{
    match call {
        CallView::Put { .. } => true,
        _ => is_answered(call, value_after(log, order, guess, at, key)),
    }
}

// Whether the call stands at a place of its span's log and was answered as the changes before it
// say.
fn is_right_reply(
    logs: &[SpanLog],
    table: &LogPlaces,
    orders: &[Vec<SlotChange>],
    firsts: &Firsts,
    receipt: &ReceiptView<'_>,
) -> bool
    requires table { IsTable logs.now table.now }
    requires len { length orders.now ≡ length logs.now }
    requires orders { AreBySlot logs.now (map vec_items orders.now) }
    ensures { IsTrue result ↔ IsRightReply logs.now (receipt_viewed receipt.now) }
{
    let Some(j) = index_of(logs, table, receipt.key.span) else {
        return receipt.at == 0 && is_answered(receipt.call, None);
    };
    let log = &logs[j].log;
    if log.len() < receipt.at {
        return false;
    }
    is_answered_after(
        log,
        orders[j].as_slice(),
        firsts.guess(j, &receipt.key),
        receipt.at,
        &receipt.key,
        receipt.call,
    )
}

/// Whether each call of a worker was answered as its span's log says.
pub fn list_is_right(
    logs: &[SpanLog],
    table: &LogPlaces,
    orders: &[Vec<SlotChange>],
    firsts: &Firsts,
    list: &ReceiptList,
) -> bool
    requires table { IsTable logs.now table.now }
    requires len { length orders.now ≡ length logs.now }
    requires orders { AreBySlot logs.now (map vec_items orders.now) }
    ensures { IsTrue result ↔ ((i : ℕ) (receipt : Receipt) → slice_get (kept_receipts list.now) i
        ≡ Some receipt → IsRightReply logs.now receipt) }
{
    let mut near = 0;
    for i in 0..list.len() {
        if !is_right_reply(logs, table, orders, firsts, &list.view_near(i, &mut near)) {
            return false;
        }
    }
    true
}

// The same of each worker.
fn lists_are_right(
    logs: &[SpanLog],
    table: &LogPlaces,
    orders: &[Vec<SlotChange>],
    firsts: &Firsts,
    lists: &[ReceiptList],
) -> bool
    requires table { IsTable logs.now table.now }
    requires len { length orders.now ≡ length logs.now }
    requires orders { AreBySlot logs.now (map vec_items orders.now) }
    ensures { IsTrue result ↔ RepliesAreRight logs.now (map kept_receipts lists.now) }
{
    for list in lists {
        if !list_is_right(logs, table, orders, firsts, list) {
            return false;
        }
    }
    true
}

/// Whether each call of each worker was answered as its span's log says.
pub fn replies_are_right(
    alloc: Global,
    logs: &[SpanLog],
    table: &LogPlaces,
    lists: &[ReceiptList],
) -> Result<bool, AllocError>
    requires { IsTable logs.now table.now }
    ensures { IfOk result (λ yes. IsTrue yes
        ↔ RepliesAreRight logs.now (map kept_receipts lists.now)) }
{
    let orders = all_by_slot(alloc, logs)?;
    let orders = orders.as_slice();
    let firsts = Firsts::of(alloc, orders)?;
    Ok(lists_are_right(logs, table, orders, &firsts, lists))
}
