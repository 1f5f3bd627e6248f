// What a call answers, as a number, since no enum crosses to C.
ghost use Rattle.std.specs.Prelude.{◌≡◌};
ghost use Rattle.teurlaks_c.specs.Status.{refusal_status};

use arena_core::Refusal;

/// Done, or found.
pub(crate) const OK: u32 = 0;

/// The key is not live; or no mark was made yet, and so there is no certificate.
pub(crate) const NONE: u32 = 1;

/// Refused: memory ran out.
pub(crate) const OUT_OF_MEMORY: u32 = 2;

/// Refused: the shard may have no further page.
pub(crate) const PAGES_SPENT: u32 = 3;

/// Refused: the shard has ended.
pub(crate) const ENDED: u32 = 4;

/// Refused: a plan is open.
pub(crate) const PLAN_OPEN: u32 = 5;

/// Refused: a side has more than 4,096 groups.
pub(crate) const TOO_MANY: u32 = 6;

/// Refused: no group of the pool has a page.
pub(crate) const NOTHING_TO_ADOPT: u32 = 7;

/// Refused: a number is out of its range.
pub(crate) const CONFIG: u32 = 8;

/// The pair's abandoned group had no live key left, and stays without a page.
pub(crate) const EMPTIED: u32 = 9;

/// The open plan has no pair left.
pub(crate) const NO_PAIR_LEFT: u32 = 10;

/// No plan is open.
pub(crate) const NO_PLAN: u32 = 11;

/// The text or the object takes more than there is room for, and nothing was written.
pub(crate) const TOO_SMALL: u32 = 12;

/// Refused: the ring is full.
pub(crate) const RING_FULL: u32 = 13;

/// The handle has no core: none was made, or it was dropped.
pub(crate) const NO_CORE: u32 = 14;

/// Refused: a new core is to be left to a handle that has one.
pub(crate) const HAS_CORE: u32 = 15;

/// Another thread has a lock that the call needs. Nothing has changed: try again later.
pub(crate) const BUSY: u32 = 16;

/// Refused: the shard has not ended, so it can't begin again.
pub(crate) const RUNNING: u32 = 17;

/// Refused: the run is recorded, so that no log is forgotten.
pub(crate) const RECORDED: u32 = 18;

/// Refused: a seat is not back yet, so that the run is not over.
pub(crate) const UNFINISHED: u32 = 19;

/// The receipts do not agree with the logs: a log is not legal, or a span has two.
pub(crate) const LOG_FAULT: u32 = 20;

/// The receipts do not agree with the logs: a change has no receipt or two, or a receipt that makes
/// a change has none.
pub(crate) const CHANGE_FAULT: u32 = 21;

/// The receipts do not agree with the logs: a call was not answered as the changes before it say.
pub(crate) const REPLY_FAULT: u32 = 22;

/// The receipts do not agree with the logs: the calls of a seat are not in the order of their
/// changes.
pub(crate) const ORDER_FAULT: u32 = 23;

/// The receipts do not agree with the logs: a call stands before one of an earlier section.
pub(crate) const BARRIER_FAULT: u32 = 24;

/// The status that stands for the refusal.
#[inline(always)]
pub(crate) fn status_of(refusal: Refusal) -> u32
    ensures { result ≡ refusal_status refusal }
{
    match refusal {
        Refusal::OutOfMemory => OUT_OF_MEMORY,
        Refusal::PagesSpent => PAGES_SPENT,
        Refusal::Ended => ENDED,
        Refusal::Running => RUNNING,
        Refusal::PlanOpen => PLAN_OPEN,
        Refusal::TooMany => TOO_MANY,
        Refusal::NothingToAdopt => NOTHING_TO_ADOPT,
        Refusal::RingFull => RING_FULL,
        Refusal::Config => CONFIG,
    }
}
