//! Replays traces by threads.
//!
//! [`replay_threads`] reads a trace whole and runs it on an [`Arena`](arena::Arena): each thread
//! that has lines in a section runs them on a thread of its own, and the steward takes the steps of
//! the open plan beside them. At a mark all meet.
//!
//! ```text
//!   thread 0   put a   get b.1 ──────┐             ┌── free a ──────────┐
//!   thread 1   fill b  sweep b  end ─┤  barrier:   ├────────────────────┤  end of the text:
//!   thread 2   put c ────────────────┤  steps left ├── get a   get c ───┤  steps left, ends
//!   steward    step  step ───────────┘  ends       └── step  step ──────┘  audit
//!                                       adoptions
//!                                       mark
//! ```
//!
//! The report is that of the run that happened. Each look-up, put and free has its receipt, and
//! when the run is over the crate `audit` holds the receipts against the logs of all spans. Only
//! where they agree a report is written, and it ends with `audit ok`.
//!
//! What a contract can say of a run by threads is what its receipts say (`specs/Threaded.antt`).
//! That the lines run side by side is shown by a test, with [`replay_gated`].
//!
//! # Examples
//!
//! ```text
//! let mut report = Memory::new(alloc);
//! let mut certificate = Vec::new(alloc);
//! let trace = b"mesh 1\nshards 2\npages 4\nring 4\ngens 9\n0 put a 7\n1 put b 8\n";
//! replay_threads(&rt, alloc, trace, false, &mut report, &mut certificate)?;
//! // report.bytes: "end pages 2 live 2 calls 2\naudit ok\n", whoever put first
//! ```
#![tactic(auto)]

mod body;
mod caller;
mod diary;
mod error;
mod keys;
mod layout;
mod live;
mod minutes;
mod plans;
mod replay;
mod run;
mod worker;

pub use error::ThreadsError;
pub use replay::{replay_gated, replay_threads};
