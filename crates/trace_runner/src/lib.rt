//! Reads traces of puts, gets, sets and frees by threads that end, runs them, and reports what each
//! call answered and what the run left. Beside that it checks certificates of plans.
//!
//! A trace is a text with one call on a line, in sections that marks part. [`replay_serial`] reads
//! it and runs its calls on a `Core`, which keeps an object of 1 to 16 words of 128 bits under each
//! key and answers as a plain map of keys does. At a mark the shards of threads that have ended are
//! abandoned, what was to be freed later is freed, other shards adopt what is left, and as many
//! folds as can be are planned; they are carried out after the lines that follow. Its report goes
//! to any [`Sink`].
//!
//! [`check_text`] reads a certificate, tests it by the checker of the crate `certificate`, and says
//! in one line whether it is accepted.
//!
//! The crate `thread_runner` runs the lines of a trace by threads, and the program `meshrun` does
//! both for files, as the words of its command line say (`command_line`).
//!
//! # Examples
//!
//! ```text
//! let mut report = Memory::new(alloc);
//! let mut certificate = Vec::new(alloc);
//! let trace = b"mesh 1\nshards 1\npages 4\nring 4\ngens 9\n0 put a 7\n0 get a\n";
//! replay_serial(&AtHand, alloc, trace, true, &mut report, &mut certificate)?;
//! // report.bytes: "6 key 0.0/0/1\n7 value 7\nend pages 1 live 1 calls 2\n"
//! ```
#![tactic(auto)]

mod checking;
mod fault;
mod key_list;
mod plans;
mod replay;
mod replies;
mod report;
mod rings;
mod run;
mod sink;
mod writing;

pub use checking::check_text;
pub use fault::{CheckError, ReplayError};
pub use plans::mark_news;
pub use replay::{TRACE_SPANS, limits_of, replay_serial};
pub use report::{
    Answer, CloseNews, Ending, Heads, LineAnswer, MarkNews, Other, PlanNews, Steps, TakenStep,
};
pub use sink::{Memory, Out, Sink, SinkFailed, give};
pub use trace_text::{
    Binding, Call, Cause, Header, Keys, Line, LineList, Name, ParseError, Reference, Trace,
    Version, counting_from, parse,
};
pub use writing::{push_answers, push_ending, push_news};
