//! Shards behind locks, worked on by threads.
//!
//! An [`Arena`] keeps each shard in a lock of its own, and the pool in another. Each worker has a
//! [`Seat`], which puts into the shard of its number and looks keys up, sets their objects in
//! place, and frees them, wherever their spans are. A [`Steward`] keeps the open plan of folds,
//! which a mark makes, and takes its steps beside the workers.
//!
//! ```text
//!   where a span may be  nowhere       the pool       shard s
//!                           │             │             │
//!   locks, in the order   (none)         pool    <   shard 0  <  shard 1  <  ..
//!   they are taken in
//!          put, get, set, free of a span  one lock, if the hint of the span is right
//!          end, retire, adopt             the pool's and one shard's
//!          step                           these, if the hint of the owned group is right
//!          mark, close, totals            all of them
//! ```
//!
//! Where a span may be is a hint, in a table of fixed size: if it is wrong, or gone since its
//! word speaks of another span, the span is looked for in the pool and then in one shard after the
//! other. That a span was never opened is no hint: each shard's count of the spans that it has
//! opened says so, and then no lock is taken. So an arena opens as many spans as its numbers say,
//! in memory that is bounded by what its shards and its pool keep.
//!
//! A worker may leave a key to the thread of the shard that opened its span (`Seat::free_later`):
//! it goes on a ring from that worker to that shard, without a lock or memory, and is freed when
//! the shard's thread tends its rings (`Seat::tend`), or when all rings are settled, with all seats
//! in one hand ([`Arena::settle`]). Keys go in blocks, so that not each of them crosses to another
//! processor by itself: a block that is not full is handed over by `Seat::hand_over`, by the
//! worker's own `tend`, and with its 64th further call ([`MOST_DELAY`]).
//!
//! A lock is a latch (the crate `latch`): whoever has it wakes nobody. So each call comes in two
//! forms. One waits for its locks, and lets other threads run meanwhile; the other, whose name
//! begins with `try_`, looks at a lock 50 times at most, and then answers [`Busy`], with nothing
//! changed. It therefore returns, whatever others do, and may be linked into a static library.
//!
//! A seat may also keep its shard out of its lock over many calls ([`Session`]): what these do to
//! that shard is said exactly, and they take no lock. Whoever else wants the shard waits meanwhile,
//! or is told that another thread has it.
//!
//! What is done under a lock is done by one call of a shard, of the pool, `fold_one` or `mark_in`
//! on what the lock lends ([`lent_calls`]), so the contracts of those calls hold of it, and each
//! look-up, put, set and free makes its receipt there. An answer stands on what was found under the
//! lock.
//!
//! No contract speaks of what a lock guards at a moment that no caller can name. So a seat's
//! contract says that its answer is its receipt's, and when the run is over the receipts are held
//! against the logs that [`finish`] hands out (the crate `audit`): each call then has its place in
//! one history of its span.
//!
//! The logs are kept, or only counted, as the arena's type says. With `Counted` it is the arena of
//! a service that runs for months; its receipts are the caller's to keep or to drop, and it can't
//! be audited.
//!
//! # Examples
//!
//! ```text
//! // Two shards of four pages, rings of four keys, nine generations, and no gate.
//! let (arena, mut seats, mut steward) = Arena::open(alloc, 2, 4, 4, 9, NoGate)?;
//! let (key, receipt) = seats[0].put(rt, &arena, Object::c16(7))?;   // in shard 0, under its lock
//! // Some(Object::c16(7)), wherever the key's span is
//! let (found, receipt) = seats[1].get(rt, &arena, &key);
//! // true: the same class, in the same place
//! let (done, receipt) = seats[1].set(rt, &arena, &key, Object::c16(8))?;
//! seats[1].free_later(key);  // for the ring to shard 0, without a lock
//! seats[1].hand_over();  // on that ring, with all others that wait
//! seats[0].tend(rt, &arena, &mut receipts)?;               // 1: the key is freed
//! // None; or Busy, while another thread is in that shard
//! let (found, receipt) = seats[1].try_get(&arena, &key)?;
//! let certificate = arena.mark(rt, &mut steward)?;         // beside the workers
//! let finished = finish(arena, seats, &mut lists)?;        // the logs of all spans, for an audit
//! ```
#![tactic(auto)]

mod adopting;
mod arena;
mod calling;
mod counting;
mod ending;
mod error;
mod finding;
mod folding;
mod forgetting;
mod forgotten;
mod freeing;
mod gate;
mod gathering;
mod hints;
mod key_calls;
pub mod lent_calls;
mod locks;
mod nowhere;
mod opening;
mod outboxes;
mod patience;
mod putting;
mod receipts;
mod ring_table;
mod seat;
mod session;
mod settling;
mod steward;
mod tending;
mod totals;
mod unlocked;
mod walk;
mod word;

pub use arena::{Arena, Stepped};
pub use ending::{Finished, Unfinished, finish, take_logs};
pub use error::{OpenError, PlanOpen};
pub use gate::{Gate, NoGate};
pub use latch::Busy;
pub use lent_calls::{Issued, Looked, Outcome};
pub use marks::{Limits, MarkError, Totals};
pub use outboxes::MOST_DELAY;
pub use receipts::{Dropped, Receipts};
pub use ring_table::RingTable;
pub use seat::{Seat, Tended};
pub use session::Session;
pub use steward::Steward;
pub use walk::Walk;
pub use word::Word;
