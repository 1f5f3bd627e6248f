//! A lock whose holder wakes nobody, for libraries that may not wait.
//!
//! A [`Latch`] lends what it keeps to one thread at a time. [`Latch::try_lock`] answers after a
//! bounded number of looks, with the guard or with [`Busy`], so that whoever calls it returns;
//! [`Latch::lock`] looks again, and lets other threads run meanwhile, until it has the guard.
//! Nobody sleeps on a latch and nobody is woken, so a static library may have one, where the kit
//! refuses `Mutex`, whose unlock wakes a sleeper.
//!
//! A call that is done with the value when it returns is asked of the latch ([`Latch::try_ask`]),
//! and made where the value is: its type says what it does ([`Ask`]). What is to be kept over many
//! calls is held: [`Latch::try_hold`] hands out a [`Hold`], which borrows nothing, and
//! [`Latch::give_back`] takes it back. A hold can't be let go otherwise.
//!
//! ```text
//!   word 0: at home  ── try_lock: swap in 1, take the value out ──▶   word 1: a guard has it
//!                    ◀── the guard is dropped: put it back, store 0 ──
//!                    ── try_ask: swap in 1, make the call, store 0 ──▶  word 0
//! ```
//!
//! # Examples
//!
//! ```text
//! let latch = Latch::new(alloc, shard)?;
//! let mut guard = latch.try_lock()?;   // Busy, if another thread has it
//! guard.put(object)?;                  // the shard's own call
//! drop(guard);                         // from now on another thread may have it
//! ```
#![tactic(auto)]

mod ask;
mod guard;
mod hold;
mod latch;

pub use ask::Ask;
pub use guard::LatchGuard;
pub use hold::Hold;
pub use latch::{Busy, Latch, Turn};
