// Whether the calls of each section stand after those of the sections of lower number.
ghost use Rattle.std.specs.Prelude.{◌≡◌, ◌↔◌, IsTrue, Some, ℕ, length, slice_get, map, flat_map};
ghost use Rattle.span.specs.ReceiptLists.{kept_receipts};
ghost use Rattle.span.specs.ReceiptViews.{receipt_viewed};
ghost use Rattle.span.specs.declared.receipt.Receipt.{Receipt};
ghost use Rattle.audit.specs.Agreement.{RepliesAreRight, SectionsAreInOrder};
ghost use Rattle.audit.specs.Tables.{AreEntered, AreFull, IsTable, StandsBetween, full_row};

use crate::log::{LogPlaces, index_of};
use crate::row::Sections;
use crate::section::is_between;
use span::receipts::{ReceiptList, ReceiptView};
use span::spans::SpanLog;

// Whether the call's section stands between those of the changes at its place.
fn stands_between(
    logs: &[SpanLog],
    table: &LogPlaces,
    rows: &[Sections],
    receipt: &ReceiptView<'_>,
) -> bool
    requires table { IsTable logs.now table.now }
    requires len { length rows.now ≡ length logs.now }
    ensures { IsTrue result ↔ StandsBetween logs.now (map full_row rows.now)
        (receipt_viewed receipt.now) }
{
    match index_of(logs, table, receipt.key.span) {
        Some(j) => is_between(&rows[j], receipt.at, receipt.section),
        None => true,
    }
}

/// The same of each call of a worker.
pub fn stand_between(
    logs: &[SpanLog],
    table: &LogPlaces,
    rows: &[Sections],
    list: &ReceiptList,
) -> bool
    requires table { IsTable logs.now table.now }
    requires len { length rows.now ≡ length logs.now }
    ensures { IsTrue result ↔ ((i : ℕ) (receipt : Receipt) → slice_get (kept_receipts list.now) i
        ≡ Some receipt → StandsBetween logs.now (map full_row rows.now) receipt) }
{
    let mut near = 0;
    for i in 0..list.len() {
        if !stands_between(logs, table, rows, &list.view_near(i, &mut near)) {
            return false;
        }
    }
    true
}

/// Whether each call stands after those on its span in the sections of lower number. The sections
/// of the changes tell: a call may be in none before that of the change before it, and in none
/// after that of the change at its place.
pub fn sections_are_in_order(
    logs: &[SpanLog],
    table: &LogPlaces,
    rows: &[Sections],
    lists: &[ReceiptList],
) -> bool
    requires table { IsTable logs.now table.now }
    requires entered { AreEntered logs.now (flat_map kept_receipts lists.now)
        (map full_row rows.now) }
    requires full { AreFull (map full_row rows.now) }
    requires replies { RepliesAreRight logs.now (map kept_receipts lists.now) }
    ensures { IsTrue result ↔ SectionsAreInOrder (map kept_receipts lists.now) }
{
    for list in lists {
        if !stand_between(logs, table, rows, list) {
            return false;
        }
    }
    true
}
