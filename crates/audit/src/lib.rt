//! The audit of a run: whether what its calls answered agrees with the logs of its spans.
//!
//! A worker keeps a [`Receipt`](span::receipts::Receipt) of each of its calls, in a
//! [`ReceiptList`](span::receipts::ReceiptList). When the run is over, [`audit`] compares all lists
//! with the logs.
//!
//! ```text
//!   log of 0.0       Put 0 gen 1 = 5        Free 0 gen 1
//!   place          0                  1                    2
//!
//!   worker 0         put ─► key             free ─► yes      get ─► none
//!   worker 1                    get ─► 5
//! ```
//!
//! A receipt says in `at` how many changes stood in the log before its call. So each change must
//! have the receipt of the call that made it, each answer must be that of the changes before it,
//! and the places must not fall where a worker, or a section of the run, came after another.
//!
//! The public fact of the crate is what then follows: the calls on each span have one order, in
//! which each is answered as by a plain map of keys that one thread uses, and which respects the
//! lists of the workers and the sections (`specs/History.antt`). Nothing is taken on trust but the
//! lists themselves: that they have every receipt, in order.
//!
//! A receipt is looked at once for each part of the agreement, and finds its span's log by a table.
//! A look-up finds the last change of its slot by halving, among the log's changes sorted by slot.
//!
//! # Examples
//!
//! ```
//! // What the workers were told, a list for each, and the logs of all spans that they worked on.
//! match audit(alloc, logs, receipts) {
//!     Ok(()) => {} // each span has one history that all of them saw
//!     Err(AuditError::Fault(cause)) => {} // the first part in which receipts and logs disagree
//!     Err(AuditError::OutOfMemory) => {}
//! }
//! ```
#![tactic(auto)]

mod barrier;
mod by_threads;
mod calls;
mod change;
mod fault;
mod first;
mod legal;
mod log;
mod order;
mod records;
mod reply;
mod row;
mod section;
mod slot;
mod verdict;

pub use by_threads::audit_by_threads;
pub use fault::{AuditCause, AuditError, audit};
