//! What the words of the program's command line mean, and what it says where something stopped it.
//!
//! A [`Job`] is read from the words after the program's own name. What keeps a job from being done
//! is a [`Fault`], which each error of a replay, a check, the words, a file or an allocation
//! becomes; [`tell`] says it, and answers the status with which the program ends. [`save`] writes a
//! certificate to the file that the words name, in a [`Store`].
//!
//! ```text
//!   words ──► Job::from_words ──► Job ──► the replay or the check that it names ──► report,
//!                   │                                      │                 certificate ──► save
//!                   └───────────► Fault ◄──────────────────┘
//!                                   └──► tell ──► message, status
//! ```
//!
//! It reads no file and no stream by itself, so that whoever calls it says where words come from
//! and where messages go.
//!
//! # Examples
//!
//! ```text
//! match Job::from_words(alloc, &["check", "last.cert"]) {
//!     Ok(job) => ..,                                         // Job::Check { file: "last.cert" }
//!     Err(error) => {
//!         let fault = Fault::from(error);
//!         let status = tell(alloc, &fault, &mut out, &mut err)?; // 2 for words that name no job
//!     }
//! }
//! ```
#![tactic(auto)]

mod fault;
mod job;
mod naming;
mod sentences;
mod store;
mod telling;

pub use fault::Fault;
pub use job::{Job, JobError};
pub use store::{Disk, Store, StoreFailed, save};
pub use telling::{TellError, tell};
