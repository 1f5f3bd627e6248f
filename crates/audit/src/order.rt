// Whether the calls of each worker stand in the order of its list.
ghost use Rattle.std.specs.Prelude.{◌≡◌, ◌↔◌, ◌+◌, ◌<◌, ◌≤◌, IsTrue, IfOk, ℕ, vec_len, map, vec_items, length};
ghost use Rattle.span.specs.ReceiptLists.{kept_receipts};
ghost use Rattle.audit.specs.Agreement.{ChangesHaveReceipts, IsInOrder, RepliesAreRight, WorkersAreInOrder};
ghost use Rattle.audit.specs.Order.{GoesBack, IsClear, IsLeftFrom, LeaveNothing};
ghost use Rattle.audit.specs.Tables.{IsTable, place_in};

use crate::calls::changes_after;
use crate::log::{LogPlaces, index_of};
use span::names::SpanId;
use span::receipts::ReceiptList;
use span::spans::SpanLog;
use std::alloc::{AllocError, Global};

// For each log, and for all spans without one, that no change has stood in it.
fn no_changes(alloc: Global, places: usize) -> Result<Vec<u128>, AllocError>
    ensures len { IfOk result (λ left. vec_len left ≡ places) }
    ensures none { IfOk result (λ left. IsClear left.items) }
{
    vec![in alloc; 0u128; places]
}

// The index of the span's log, or how many logs there are, if it has none.
fn place_of(logs: &[SpanLog], table: &LogPlaces, span: SpanId) -> usize
    requires { IsTable logs.now table.now }
    ensures place { result ≡ place_in logs.now span }
    ensures in_range { result ≤ length logs.now }
{
    match index_of(logs, table, span) {
        Some(j) => j,
        None => logs.len(),
    }
}

// Whether the call has a lower section than the one before it. `near` is as in
// [`ReceiptList::view_near`].
fn goes_back(list: &ReceiptList, i: usize, near: &mut usize) -> bool
    requires { i < length (kept_receipts list.now) }
    ensures { IsTrue result ↔ GoesBack (kept_receipts list.now) i }
{
    if i == 0 {
        return false;
    }
    let before = list.view_near(i - 1, near).section;
    list.view_near(i, near).section < before
}

// Whether the calls of one worker stand in the order of its list. The table then has what its calls
// left.
fn is_in_order(
    left: &mut Vec<u128>,
    logs: &[SpanLog],
    table: &LogPlaces,
    list: &ReceiptList,
) -> bool
    requires table { IsTable logs.now table.now }
    requires nothing { LeaveNothing logs.now (kept_receipts list.now) }
    requires len { vec_len left.old ≡ length logs.now + 1 }
    requires clear { IsClear left.old.items }
    ensures exact { IsTrue result ↔ IsInOrder (kept_receipts list.now) }
    ensures left { IsTrue result → IsLeftFrom logs.now (kept_receipts list.now) 0 left.new.items }
    ensures len { vec_len left.new ≡ length logs.now + 1 }
{
    let mut near = 0;
    for i in 0..list.len() {
        if goes_back(list, i, &mut near) {
            return false;
        }
        let receipt = list.view_near(i, &mut near);
        let place = place_of(logs, table, receipt.key.span);
        if (receipt.at as u128) < left[place] {
            return false;
        }
        left[place] = changes_after(&receipt);
    }
    true
}

// Takes what the calls left out of the table.
fn clear(left: &mut Vec<u128>, logs: &[SpanLog], table: &LogPlaces, list: &ReceiptList)
    requires table { IsTable logs.now table.now }
    requires len { vec_len left.old ≡ length logs.now + 1 }
    requires left { IsLeftFrom logs.now (kept_receipts list.now) 0 left.old.items }
    ensures clear { IsClear left.new.items }
    ensures len { vec_len left.new ≡ length logs.now + 1 }
{
    let mut near = 0;
    for i in 0..list.len() {
        let place = place_of(logs, table, list.view_near(i, &mut near).key.span);
        left[place] = 0;
    }
}

/// Whether the calls of one worker stand in the order of its list. A call on a span that has no log
/// leaves no change.
pub fn list_is_in_order(
    alloc: Global,
    logs: &[SpanLog],
    table: &LogPlaces,
    list: &ReceiptList,
) -> Result<bool, AllocError>
    requires table { IsTable logs.now table.now }
    requires nothing { LeaveNothing logs.now (kept_receipts list.now) }
    ensures { IfOk result (λ yes. IsTrue yes ↔ IsInOrder (kept_receipts list.now)) }
{
    let mut left = no_changes(alloc, logs.len() + 1)?;
    Ok(is_in_order(&mut left, logs, table, list))
}

/// Whether the calls of each worker stand in the order of its list.
pub fn workers_are_in_order(
    alloc: Global,
    logs: &[SpanLog],
    table: &LogPlaces,
    lists: &[ReceiptList],
) -> Result<bool, AllocError>
    requires table { IsTable logs.now table.now }
    requires changes { ChangesHaveReceipts logs.now (map kept_receipts lists.now) }
    requires replies { RepliesAreRight logs.now (map kept_receipts lists.now) }
    ensures { IfOk result (λ yes. IsTrue yes ↔ WorkersAreInOrder (map kept_receipts lists.now)) }
{
    let mut left = no_changes(alloc, logs.len() + 1)?;
    for list in lists {
        if !is_in_order(&mut left, logs, table, list) {
            return Ok(false);
        }
        clear(&mut left, logs, table, list);
    }
    Ok(true)
}
