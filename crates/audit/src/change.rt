// Whether each change has exactly one receipt, and each receipt of a change its change.
ghost use Rattle.std.specs.Prelude.{◌≡◌, ◌↔◌, ◌<◌, ◌∷◌, [], IfOk, IfSome, IsTrue, MatchOption, ℕ, true, length, map, flat_map, vec_len};
ghost use Rattle.span.specs.KeptLogs.{kept_changes};
ghost use Rattle.span.specs.ReceiptLists.{kept_receipts};
ghost use Rattle.span.specs.ReceiptViews.{receipt_viewed};
ghost use Rattle.audit.specs.Receipts.{makes_change};
ghost use Rattle.audit.specs.Tables.{AreEntered, GiveSections, HasChangeOf, HasMade, IsKnown, IsTable, WereEntered, WereEnteredToo, filled_row};

use crate::calls::{call_makes, makes_change};
use crate::log::{LogPlaces, index_of};
use crate::row::{Row, Sections};
use crate::section::{are_full, empty_rows, full_rows, mark};
use span::receipts::{ReceiptList, ReceiptView};
use span::spans::{Kept, Log, SpanLog};
use std::alloc::{AllocError, Global};

// Whether the log has a change at the call's place, and the call makes it.
fn makes_at(log: &Kept, receipt: &ReceiptView<'_>) -> bool
    ensures { IsTrue result ↔ HasMade (kept_changes log.now) (receipt_viewed receipt.now) }
{
    if log.len() <= receipt.at {
        return false;
    }
    call_makes(receipt.call, &receipt.key, log.view(receipt.at))
}

// The index of the log that has the call's change, if one has.
fn log_with_change(logs: &[SpanLog], table: &LogPlaces, receipt: &ReceiptView<'_>) -> Option<usize>
    requires table { IsTable logs.now table.now }
    requires makes { makes_change (receipt_viewed receipt.now) ≡ true }
    ensures within { IfSome result (λ j. j < length logs.now) }
    ensures known { MatchOption result (IsKnown logs.now (receipt_viewed receipt.now) → ⊥)
        (HasChangeOf logs.now (receipt_viewed receipt.now)) }
{
    let j = index_of(logs, table, receipt.key.span)?;
    if makes_at(&logs[j].log, receipt) {
        Some(j)
    } else {
        None
    }
}

// Enters a receipt, where it makes a change. Whether it is the only one so far that makes the
// change of its place.
fn enter(
    logs: &[SpanLog],
    table: &LogPlaces,
    rows: &mut Vec<Row>,
    receipt: &ReceiptView<'_>,
) -> bool
    requires table { IsTable logs.now table.now }
    requires len { vec_len rows.old ≡ length logs.now }
    ensures len { vec_len rows.new ≡ length logs.now }
    ensures entered { WereEnteredToo logs.now (receipt_viewed receipt.now ∷ []) rows.old.items
        rows.new.items result }
{
    if !makes_change(receipt) {
        return true;
    }
    match log_with_change(logs, table, receipt) {
        Some(j) => mark(&mut rows[j], receipt.at, receipt.section),
        None => false,
    }
}

// The same of the receipts of a worker.
fn enter_list(logs: &[SpanLog], table: &LogPlaces, rows: &mut Vec<Row>, list: &ReceiptList) -> bool
    requires table { IsTable logs.now table.now }
    requires len { vec_len rows.old ≡ length logs.now }
    ensures len { vec_len rows.new ≡ length logs.now }
    ensures entered { WereEnteredToo logs.now (kept_receipts list.now) rows.old.items
        rows.new.items result }
{
    let mut near = 0;
    for i in 0..list.len() {
        if !enter(logs, table, rows, &list.view_near(i, &mut near)) {
            return false;
        }
    }
    true
}

// The same of the receipts of all workers.
fn enter_lists(
    logs: &[SpanLog],
    table: &LogPlaces,
    rows: &mut Vec<Row>,
    lists: &[ReceiptList],
) -> bool
    requires table { IsTable logs.now table.now }
    requires len { vec_len rows.old ≡ length logs.now }
    requires rows { AreEntered logs.now [] (map filled_row rows.old.items) }
    ensures len { vec_len rows.new ≡ length logs.now }
    ensures entered { WereEntered logs.now (flat_map kept_receipts lists.now)
        (map filled_row rows.new.items) result }
{
    for list in lists {
        if !enter_list(logs, table, rows, list) {
            return false;
        }
    }
    true
}

/// The section of each change of each log, where each change has exactly one receipt and each
/// receipt of a change its change.
pub fn sections_of_changes(
    alloc: Global,
    logs: &[SpanLog],
    table: &LogPlaces,
    lists: &[ReceiptList],
) -> Result<Option<Vec<Sections>>, AllocError>
    requires { IsTable logs.now table.now }
    ensures len { IfOk result (λ rows. IfSome rows (λ rows. vec_len rows ≡ length logs.now)) }
    ensures entered { IfOk result (GiveSections logs.now lists.now) }
{
    let mut rows = empty_rows(alloc, logs)?;
    if enter_lists(logs, table, &mut rows, lists) && are_full(rows.as_slice()) {
        Ok(Some(full_rows(alloc, rows)?))
    } else {
        Ok(None)
    }
}
