//! Compaction of a core within a budget: which groups retire, and when they are marked, folded and
//! adopted again.
//!
//! A [`Compaction`] says where the compaction of a core stands between two calls. Each call of
//! [`Compaction::go_on`] takes steps up to a budget, and puts, look-ups and frees may come between.
//! A step is one event of the core, or one forgetting:
//!
//! ```text
//!                                             ┌─► retire .. ─► adopt those that are kept ─┐
//!                                             │                                           ▼
//!   forget ─► trim each shard ─► mark some ─► │ ◄─ adopt .. ◄─ close ◄─ fold .. ◄─ mark some
//!                                             ▼
//!                                           forget: it is done
//! ```
//!
//! A *round* retires the sparsest groups of the shards. The shards adopt some of these again, so
//! that groups that fit each other are on different sides. As many as can be of the others are
//! folded, by several marks if these plan enough, and the shards adopt the rest. How many pages and
//! keys there are says which part of the pages a round retires (`rounds.rt`). First comes the share
//! that can be expected to fold. Then come the 8 sparsest pages, twice as many and so on, as long
//! as these are worth it, and at most as many as can be half empty. If much can go, half of all
//! pages comes between, from every second shard. A mark is worth another one if it plans at least
//! one fold for 16 groups of its smaller side.
//!
//! The public facts (`specs/Compacts.antt`): all that a call does to the core are such steps, in
//! such an order, and they use up the budget, unless one is refused or all is done. Folds and
//! closes come only after a mark of the compaction has opened a plan: while somebody else's is
//! open, a step is refused. The map of keys that the core shows is as it was, also where a step is
//! refused memory. The pages that a call counts are those that went. A compaction is done only
//! after all shards were trimmed and the last mark was not worth another one, and no plan is open
//! then. A caller that keeps something beside each page takes the steps one by one
//! ([`Compaction::step`]), and is told each fold.
//!
//! # Examples
//!
//! ```text
//! let mut compaction = Compaction::new();
//! loop {
//!     let done = compaction.go_on(&mut core, 64); // 64 steps at most
//!     // puts, look-ups and frees may come here
//!     match done.standing {
//!         Standing::GoesOn => {}
//!         Standing::Done => break, // a further call begins anew
//!         Standing::Refused(_) => break, // each key finds its object, and a call tries again
//!     }
//! }
//! ```
#![tactic(auto)]

mod advanced;
mod compacted;
mod compaction;
mod division;
mod late_work;
mod occupancy;
mod past;
mod progress;
mod round;
mod rounds;
mod turn;
mod work;

pub use advanced::Advanced;
pub use compacted::{Compacted, Standing};
pub use compaction::{Compaction, Taken};
pub use progress::Progress;
