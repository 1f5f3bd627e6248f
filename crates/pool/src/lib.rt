//! The pool: groups that shards have let go, with the pages of those that still have a live slot.
//!
//! A [`Pool`] keeps objects under keys as a shard does, save that nothing is put there. A shard's
//! end brings its groups here whole, a retirement brings those with the fewest live keys while the
//! shard goes on, and an adoption moves one of them, whole, to a shard.
//!
//! ```text
//!   groups    0.3     1.0     1.2     4.0        by ascending head
//!              │       │       │       │
//!   guests    0.7     none    none    1.1, 2.5   spans on the page of the head
//!              │       │       │       │
//!   page      own     none    own     own        none where no slot is live
//! ```
//!
//! A group has a page exactly where one of its slots is live: those with none give their pages up
//! on the way in, and the free that empties a group gives up its page. (What Mesh calls a span with
//! no live object goes back to the system in the same way.) The group itself stays, with the logs
//! of its spans, so that a stale key is still answered.
//!
//! That shards are left by their threads, and taken up by others, is mimalloc's abandonment of
//! segments; that a group moves whole, with its guests and its page, is this library's own.
//!
//! While a plan of folds is open, nothing is adopted, and no shard with a closed group ends or
//! retires any: the pool is told of the plan, and keeps that (`PlanOpen`).
//!
//! No call on a key or a group walks the pool: a table says where the group of each head stands,
//! and a heap has the heads whose groups have a page, the lowest first.
//! A byte beside each group says how many of its slots are live at the least, so that a mark of
//! some reads few groups. All of this stands in a box, which comes with the first room for a group
//! and goes with the last one: until then a pool takes three words of its owner.
//!
//! The public fact of the crate is that a pool is a plain map of keys: [`Pool::get`], [`Pool::set`]
//! and [`Pool::free`] answer and do what a map would (`shown` in `specs/Shown.antt`), and
//! [`Pool::receive`], [`Pool::retire`] and [`Pool::adopt`] change nothing of what pool and shard
//! show together.
//!
//! # Examples
//!
//! ```text
//! let mut pool = Pool::new(alloc);
//! let mut first = Shard::new(alloc, 0, 4, 9)?;
//! let mut second = Shard::new(alloc, 1, 4, 9)?;
//! let (key, _) = first.put(Object::c16(7))?;     // 0.0/0/1
//! pool.receive(&mut first)?;                     // shard 0 has ended, and its group is here
//! pool.get(&key);                                // Found::Value(&[7], 1)
//! pool.set(&key, &[11])?;                        // Replaced::Yes(1)
//! pool.adopt(&mut second)?;  // 0.0, the head of the group that has gone to shard 1
//! second.get(&key);                              // Found::Value(&[11], 2), as ever
//! pool.get(&key);                                // Found::NotHere
//! ```
#![tactic(auto)]

mod error;
mod group_table;
mod in_both;
mod least_live;
mod pool;
mod pooled;
mod ranks;
mod sparse;
mod stock;
mod walks;

pub use error::{AdoptError, ReceiveError};
pub use pool::Pool;
pub use sparse::push_below;
