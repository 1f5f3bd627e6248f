// Whether the receipts of all workers agree with the logs of all spans.
ghost use Rattle.std.specs.Prelude.{◌≡◌, IfOk, IfErr, OnOk, map, vec_items};
ghost use Rattle.span.specs.ReceiptLists.{kept_receipts};
ghost use Rattle.audit.specs.Agreement.{Agreement};
ghost use Rattle.audit.specs.Faults.{IsAuditError, IsFirstFault};
ghost use Rattle.audit.specs.History.{HaveHistories};

use crate::barrier::sections_are_in_order;
use crate::change::sections_of_changes;
use crate::legal::table_of_legal;
use crate::order::workers_are_in_order;
use crate::reply::replies_are_right;
use span::receipts::ReceiptList;
use span::spans::SpanLog;
use std::alloc::{AllocError, Global};
use std::fmt;

/// The part of the agreement that fails. The parts are looked at in this order.
#[derive(Clone, Copy, PartialEq, Eq, Debug)]
pub enum AuditCause {
    /// A span has two logs, or a log is not legal.
    Log,
    /// A change has no receipt, or two, or a receipt that makes a change has none.
    Change,
    /// A call stands past the end of its log, or was not answered as the changes before it say.
    Reply,
    /// A worker's list goes back, to an earlier section or to an earlier place of a log.
    Order,
    /// A call stands before one of a section of lower number on its span.
    Barrier,
}

/// `log`, `change`, `reply`, `order` or `barrier`.
impl fmt::Display for AuditCause {
    ghost use Rattle.std.specs.Prelude.{Some};
    ghost use Rattle.audit.specs.Faults.{word_of};

    ghost output = { λ cause. Some (word_of cause) };

    fn fmt<W: fmt::Write>(&self, f: &mut fmt::Formatter<W>) -> fmt::Result {
        f.write_str(match self {
            AuditCause::Log => "log",
            AuditCause::Change => "change",
            AuditCause::Reply => "reply",
            AuditCause::Order => "order",
            AuditCause::Barrier => "barrier",
        })
    }
}

/// Why an audit was not passed.
#[derive(Clone, Copy, PartialEq, Eq, Debug, thiserror::Error)]
pub enum AuditError {
    /// The receipts do not agree with the logs: the first part that fails.
    #[error("audit: {0}")]
    Fault(AuditCause),
    /// A table of the audit could not be allocated; for a log of more than 2^48 changes none can.
    #[error("out of memory")]
    OutOfMemory,
}

// The first part of the agreement that fails, if any.
fn first_fault(
    alloc: Global,
    logs: &[SpanLog],
    receipts: &[ReceiptList],
) -> Result<Option<AuditCause>, AllocError>
    ensures { IfOk result (IsFirstFault logs.now (map kept_receipts receipts.now)) }
{
    let Some(table) = table_of_legal(alloc, logs)? else {
        return Ok(Some(AuditCause::Log));
    };
    let Some(sections) = sections_of_changes(alloc, logs, &table, receipts)? else {
        return Ok(Some(AuditCause::Change));
    };
    if !replies_are_right(alloc, logs, &table, receipts)? {
        return Ok(Some(AuditCause::Reply));
    }
    if !workers_are_in_order(alloc, logs, &table, receipts)? {
        return Ok(Some(AuditCause::Order));
    }
    if !sections_are_in_order(logs, &table, sections.as_slice(), receipts) {
        return Ok(Some(AuditCause::Barrier));
    }
    Ok(None)
}

/// Whether the receipts, one list a worker in the order of its calls, agree with the logs of all
/// spans, in any order. Where they do, the calls on each span have one order in which they are
/// answered as by a plain map that one thread uses.
///
/// # Errors
///
/// `Fault` where the receipts do not agree with the logs, with the first part that fails, and
/// `OutOfMemory` where a table of the audit could not be allocated, or a log has more than 2^48
/// changes.
pub fn audit(alloc: Global, logs: &[SpanLog], receipts: &[ReceiptList]) -> Result<(), AuditError>
    ensures agreed { OnOk result (Agreement logs.now (map kept_receipts receipts.now)) }
    ensures histories { OnOk result (HaveHistories (map kept_receipts receipts.now)) }
    ensures err { IfErr result (IsAuditError logs.now (map kept_receipts receipts.now)) }
{
    match first_fault(alloc, logs, receipts) {
        Ok(None) => Ok(()),
        Ok(Some(cause)) => Err(AuditError::Fault(cause)),
        Err(_) => Err(AuditError::OutOfMemory),
    }
}
