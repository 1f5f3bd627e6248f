// The audit by threads.
ghost use Rattle.std.specs.Prelude.{◌<◌, IfErr, IfOk, OnOk, [], length, map, slice_index_or};
ghost use Rattle.span.specs.ReceiptLists.{kept_receipts};
ghost use Rattle.audit.specs.Agreement.{Agreement, ChangesHaveReceipts};
ghost use Rattle.audit.specs.Faults.{IsAuditError, IsFirstFault};
ghost use Rattle.audit.specs.History.{HaveHistories};
ghost use Rattle.audit.specs.Judged.{AreVerdicts, CarryTables, IsVerdictBy};
ghost use Rattle.audit.specs.Tables.{full_row};

use crate::change::sections_of_changes;
use crate::fault::{AuditCause, AuditError};
use crate::first::Firsts;
use crate::legal::table_of_legal;
use crate::records::Records;
use crate::slot::all_by_slot_by_threads;
use crate::verdict::{Verdict, first_cause, verdict_of};
use span::receipts::ReceiptList;
use span::spans::SpanLog;
use std::alloc::{AllocError, Global};
use std::thread;
use std::thread::Threads;

// What comes of the calls of the worker with this number.
fn verdict_at(alloc: Global, records: &Records, lists: &[ReceiptList], w: usize) -> Verdict
    requires records { CarryTables records.now }
    requires inside { w < length lists.now }
    requires changes { ChangesHaveReceipts records.now.logs.now (map kept_receipts lists.now) }
    ensures { IsVerdictBy records.now (slice_index_or (map kept_receipts lists.now) w []) result }
{
    verdict_of(alloc, records, &lists[w])
}

// What comes of the calls of each worker, each on a thread of its own.
fn verdicts_of<R: Threads + Sync>(
    rt: &R,
    alloc: Global,
    records: &Records,
    lists: &[ReceiptList],
) -> Result<Vec<Verdict>, AllocError>
    requires records { CarryTables records.now }
    requires changes { ChangesHaveReceipts records.now.logs.now (map kept_receipts lists.now) }
    ensures { IfOk result (λ verdicts. AreVerdicts records.now.logs.now
        (map full_row records.now.sections.now) (map kept_receipts lists.now) verdicts.items) }
{
    let verdicts = thread::map_indices(
        rt,
        alloc,
        lists.len(),
        &|w: usize| -> Verdict
            requires { (w < length lists.now) × CarryTables records.now
                × ChangesHaveReceipts records.now.logs.now (map kept_receipts lists.now) }
            ensures { IsVerdictBy records.entry.now
                (slice_index_or (map kept_receipts lists.entry.now) w []) result }
        { verdict_at(alloc, records, lists, w) },
    )?;
    Ok(verdicts)
}

// The first part of the agreement that fails, if any.
fn first_fault<R: Threads + Sync>(
    rt: &R,
    alloc: Global,
    logs: &[SpanLog],
    receipts: &[ReceiptList],
) -> Result<Option<AuditCause>, AllocError>
    ensures { IfOk result (IsFirstFault logs.now (map kept_receipts receipts.now)) }
{
    let Some(table) = table_of_legal(alloc, logs)? else {
        return Ok(Some(AuditCause::Log));
    };
    let Some(sections) = sections_of_changes(alloc, logs, &table, receipts)? else {
        return Ok(Some(AuditCause::Change));
    };
    let sections = sections.as_slice();
    let orders = all_by_slot_by_threads(rt, alloc, logs)?;
    let orders = orders.as_slice();
    let firsts = Firsts::of(alloc, orders)?;
    let records = Records {
        logs,
        table: &table,
        sections,
        orders,
        firsts: &firsts,
    };
    let verdicts = verdicts_of(rt, alloc, &records, receipts)?;
    let cause = first_cause(verdicts.as_slice())?;
    Ok(cause)
}

/// As [`audit`](crate::audit), with a thread for each list of receipts, which answers the same.
///
/// # Errors
///
/// As those of [`audit`](crate::audit).
pub fn audit_by_threads<R: Threads + Sync>(
    rt: &R,
    alloc: Global,
    logs: &[SpanLog],
    receipts: &[ReceiptList],
) -> Result<(), AuditError>
    ensures agreed { OnOk result (Agreement logs.now (map kept_receipts receipts.now)) }
    ensures histories { OnOk result (HaveHistories (map kept_receipts receipts.now)) }
    ensures err { IfErr result (IsAuditError logs.now (map kept_receipts receipts.now)) }
{
    match first_fault(rt, alloc, logs, receipts) {
        Ok(None) => Ok(()),
        Ok(Some(cause)) => Err(AuditError::Fault(cause)),
        Err(_) => Err(AuditError::OutOfMemory),
    }
}
