//! A largest plan of folds, with the short set that shows it.
//!
//! [`plan`] pairs as many abandoned groups with owned ones as any plan can. It starts with no pair
//! and works in phases (Hopcroft and Karp): a phase searches along alternating walks, from all
//! abandoned groups left out at once, until a walk comes to an owned group that is free. Then it
//! turns that walk round, and others along the same layers that share no group with it: each pair
//! of a walk gives way to the pair before it, and one more group is planned.
//!
//! ```text
//!   before    7.0 ─ ─ 8.0 ═══ 0.0 ─ ─ 9.0 ═══ 1.0 ─ ─ 10.0     7.0 is left out, 10.0 is free
//!   after     7.0 ═══ 8.0 ─ ─ 0.0 ═══ 9.0 ─ ─ 1.0 ═══ 10.0     one pair more
//! ```
//!
//! The last phase comes to no free group. The abandoned groups that it reached are the short set:
//! they were left out, or were planned onto a partner of one that was reached. Their partners are
//! all taken by groups among them, so no plan can do better (Hall's theorem, deficiency form).
//!
//! The public fact of the crate is that the plan is best, that the short set is the least set that
//! holds the groups left out and is closed under "planned onto a partner of", and that both are a
//! certificate, which [`check`](certificate::check) accepts.
//!
//! # Examples
//!
//! ```
//! let graph = Graph::build(&AtHand, alloc, &snapshot, 1)?;
//! let (plan, short) = augment::plan(alloc, &graph)?;
//! assert!(rt; check(&snapshot, &plan, &short)); // no plan has more pairs
//! ```
#![tactic(auto)]

mod mates;
mod phases;
mod places;
mod planning;
mod walks;

pub use planning::{plan, plan_counted};
