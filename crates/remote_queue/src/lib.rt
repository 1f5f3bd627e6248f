//! Deferred frees: a wait-free ring from each worker to each shard.
//!
//! A worker sends keys to a shard by its [`Outbox`], and the shard's thread takes them by its
//! [`Inbox`]. Neither end waits, and neither takes memory: [`link`] makes each ring (of `rtrb`)
//! with room for all the keys that it holds. Keys go on a ring in blocks, and a taker may draw them
//! from it so ([`Inbox::draw`]): their places are free then, and each is taken once it is done
//! with.
//!
//! ```text
//!                    to shard 0    to shard 1
//!      worker 0       ring           ring        ──► a row: the outboxes of worker 0
//!      worker 1       ring           ring
//!                      │
//!                      ▼ a column: the inboxes of shard 0
//! ```
//!
//! While the ends are in different hands, each knows its own side: what was sent, or what was
//! taken. Once both are in one hand, [`count_left`] says how many keys are left: that many takes
//! then answer, and the keys taken are the keys sent, in order. (That frees by other threads are
//! kept apart from the owner's and collected later is an idea of mimalloc.)
//!
//! # Examples
//!
//! ```
//! // One worker, one shard, and a ring of four keys between them.
//! let Links { mut outboxes, mut inboxes } = link(alloc, 1, 1, 4)?;
//! let (mut outbox, mut inbox) = (outboxes.pop()?.pop()?, inboxes.pop()?.pop()?);
//! if let Err(back) = outbox.send(key) {
//!     // The ring was full, and the key is ours again.
//! }
//! if inbox.look() > 0 {
//!     let taken = inbox.take_known(); // in the order in which they were sent
//! }
//! let left = count_left(&mut outbox, &mut inbox); // so many more may be taken
//! ```
#![tactic(auto)]

mod ends;
mod error;
mod rings;

pub use ends::{Inbox, KeysInRange, MOST_KNOWN_KEYS, Outbox, count_left};
pub use error::LinkError;
pub use rings::{Links, link};
