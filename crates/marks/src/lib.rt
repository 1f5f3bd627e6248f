//! Marks of a pool and of shards that are lent: what a mark sees, the largest plan of it, and the
//! groups that it closes.
//!
//! A core has its shards and its pool in one value, an arena has each behind a lock of its own.
//! What both are asked in the same words stands here, once: the numbers that they are opened with
//! ([`Limits`]), how much they keep ([`Totals`]), the mark ([`mark_in`]) of all groups or of the
//! sparsest ([`Sight`]), and the plan that they open ([`CurrentPlan`]).
//!
//! ```text
//!   pool    ──► groups that have a page ──┐
//!                                         ├─► Snapshot ──► Graph ──► plan, short set
//!   shards  ──► groups that have a page ──┘                           │  └──► Certificate
//!     ▲                                                               ├─► CurrentPlan
//!     └──────────── the groups that are folded onto are closed ◄──────┘
//! ```
//!
//! [`mark_in`] takes a list of anything that lends a shard ([`LendsShard`]): shards, or the guards
//! of locks that hold them. What is said of it is said of the shards that are lent, so that one
//! piece of code and one contract serve with locks and without.
//!
//! # Examples
//!
//! ```text
//! let mut plan = CurrentPlan::new(alloc)?; // in room for 4,096 pairs
//! // A Certificate.
//! let found = mark_in(&AtHand, alloc, Sight::All, &mut pool, &mut shards)?;
//! plan.begin(found.plan.pairs());
//! while let Some((abandoned, owned)) = plan.next() {
//!     fold_one(&mut pool, shard_that_has(owned), abandoned, owned)?;
//!     plan.advance();
//! }
//! reopen_all(&mut shards);
//! pool.plan_closed();
//! plan.end();
//! ```
#![tactic(auto)]

mod closing;
mod current_plan;
mod error;
mod lends_shard;
mod limits;
mod marking;
mod own_heads;
mod sight;
mod sparse;
mod totals;

pub use closing::reopen_all;
pub use current_plan::CurrentPlan;
pub use error::MarkError;
pub use lends_shard::LendsShard;
pub use limits::Limits;
pub use marking::{has_too_many, mark_in};
pub use sight::Sight;
pub use totals::Totals;
