//! The core: shards, the pool and the open plan as one value that takes events and answers replies.
//!
//! A [`Core`] takes [`Event`]s one after another, and answers each with one [`Reply`]. A put goes
//! to the shard of the number that it names, and keeps there an object of 1 to 16 words of 16
//! bytes, on a page of objects of that width; a look-up, a set and a free go to whoever has the
//! span of the key. The end of a shard brings its groups to the pool, after which the shard may
//! begin again, a retirement brings those with the fewest live keys there while the shard goes on,
//! and an adoption moves one of them, whole, to a shard. A mark plans folds of the pool's groups
//! onto those of the shards, as many as can be; a step carries the next of them out, and a close
//! ends the plan. Nothing is lost where an event is refused: the core is as it was before.
//!
//! ```text
//!   event     Put 0 5     End 0         Put 1 6 twice,   Mark         Step           Get 0.0/0/1
//!                │          │           Free 1.0/0/1       │            │                │
//!   shard 0:    0.0      (ended)        (ended)         (ended)      (ended)         (ended)
//!   shard 1:                            1.0             1.0 closed   1.0 with 0.0    1.0 with 0.0
//!   pool:                  0.0          0.0             0.0
//!                │          │             │                │            │                │
//!   reply     Issued     ShardEnded     ..              Marked       Stepped         Found
//!             0.0/0/1                                                Folded          Some 5
//! ```
//!
//! A key is written here as shard, serial, slot and generation. It stays good wherever its span is.
//!
//! A key can also be freed later: it goes on a ring from its worker to the shard that opened its
//! span, and is freed once it is settled, wherever its span then is.
//!
//! The public facts: without ends, begins, retirements, trims, adoptions, marks, steps and closes,
//! the replies are those of a plain map of keys, which knows what is pending, and no pages, groups
//! or plans (`specs/Plain.antt`), and those events change nothing of the map that the core shows. A
//! mark that is not refused plans as many folds as any plan, shown by the short set, and the whole
//! can be written as a certificate (`specs/Seen.antt` of the crate `marks`); what it plans is
//! carried out (`specs/Plan.antt`). Each step is besides an exact step of shards and pool
//! (`specs/Step.antt`), and leads from a sound core to a sound core (`specs/Sound.antt`).
//!
//! A core whose logs are counted forgets spans that can never be live again, once it is asked to:
//! [`Core::forget`].
//!
//! The core's mark is that of the crate `marks` on its own pool and shards.
//!
//! # Examples
//!
//! ```text
//! // Two shards of four pages, rings of four keys, nine generations
//! let mut core = Core::new(alloc, 2, 4, 4, 9)?;
//! let key = core.put(0, Object::c16(7))?;        // 0.0/0/1
//! core.step(Event::End { shard: 0 });            // its group goes to the pool
//! core.put(1, Object::c16(8))?;  // slot 0 of shard 1's page, so no fold is planned
//! core.step(Event::Adopt { shard: 1 });          // and so shard 1 adopts the group, with its page
//! core.get(&key);                                // Some([7]), as ever
//! core.set(&key, &[9])?;  // true: one word for one word, where the old one stands
//! core.set(&key, &[9; 4])?;                      // false: its class is another
//! core.free(&key);                               // true
//! core.get(&key);                                // None, now and for ever
//! ```
#![tactic(auto)]

mod error;
mod event;
mod late_plan;
mod late_rings;
mod machine;
mod reply;
mod rings;
mod whereabouts;

pub use error::CoreError;
pub use event::Event;
pub use machine::Core;
pub use marks::Totals;
pub use reply::{Refusal, Reply};
