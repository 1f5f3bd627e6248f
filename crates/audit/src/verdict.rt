// What comes of the calls of one worker, where logs and changes are right.
ghost use Rattle.std.specs.Prelude.{◌≡◌, ◌<◌, IfOk, IsTrue, ℕ, false, length};
ghost use Rattle.span.specs.ReceiptLists.{kept_receipts};
ghost use Rattle.audit.specs.Judged.{AreKnown, CarryTables, HasVerdict, IsFirstCause, IsVerdictBy};
ghost use Rattle.audit.specs.declared.fault.AuditCause.{AuditCause};

use crate::barrier::stand_between;
use crate::fault::AuditCause;
use crate::order::list_is_in_order;
use crate::records::Records;
use crate::reply::list_is_right;
use span::receipts::ReceiptList;
use std::alloc::{AllocError, Global};

/// The part of the agreement that the calls of one worker fail first, if any.
#[derive(Clone, Copy, PartialEq, Eq, Debug)]
pub enum Verdict {
    Passed,
    Reply,
    Order,
    Barrier,
    OutOfMemory,
}

/// What comes of the calls of one worker. It needs no other list.
pub fn verdict_of(alloc: Global, records: &Records, list: &ReceiptList) -> Verdict
    requires records { CarryTables records.now }
    requires known { AreKnown records.now.logs.now (kept_receipts list.now) }
    ensures { IsVerdictBy records.now (kept_receipts list.now) result }
{
    let (logs, table) = (records.logs, records.table);
    if !list_is_right(logs, table, records.orders, records.firsts, list) {
        return Verdict::Reply;
    }
    let Ok(in_order) = list_is_in_order(alloc, logs, table, list) else {
        return Verdict::OutOfMemory;
    };
    if !in_order {
        return Verdict::Order;
    }
    if !stand_between(logs, table, records.sections, list) {
        return Verdict::Barrier;
    }
    Verdict::Passed
}

// Whether some worker's calls came to this.
fn has(verdicts: &[Verdict], verdict: Verdict) -> bool
    ensures yes { IsTrue result → HasVerdict verdicts.now verdict }
    ensures no { result ≡ false → HasVerdict verdicts.now verdict → ⊥ }
{
    for other in verdicts {
        if *other == verdict {
            return true;
        }
    }
    false
}

/// The first part that fails in the calls of any worker.
pub fn first_cause(verdicts: &[Verdict]) -> Result<Option<AuditCause>, AllocError>
    ensures { IfOk result (IsFirstCause verdicts.now) }
{
    if has(verdicts, Verdict::OutOfMemory) {
        return Err(AllocError);
    }
    if has(verdicts, Verdict::Reply) {
        return Ok(Some(AuditCause::Reply));
    }
    if has(verdicts, Verdict::Order) {
        return Ok(Some(AuditCause::Order));
    }
    if has(verdicts, Verdict::Barrier) {
        return Ok(Some(AuditCause::Barrier));
    }
    Ok(None)
}
