//! A fold: the group of a shard that has ended moves onto the page of a group that another shard
//! owns, and its own page goes.
//!
//! Two groups are compatible where they are of one class and no slot is live in both. Then the
//! objects of one fit onto the page of the other, each at the slot where it stands, and no key has
//! to change (Mesh's meshing). [`fold_one`] takes a group of the pool by its head, and a group of a
//! shard by its head, and tells by a [`Step`] what came of it.
//!
//! ```text
//!              pool                     shard 4                            shard 4
//!
//!   head       0.3                      4.0                                4.0
//!   guests     0.7                      2.5                                2.5, 0.3, 0.7
//!               │                        │                                  │
//!   page       ┌───┬───┬───┬───┬───┐    ┌───┬───┬───┬───┬───┐    fold      ┌───┬───┬───┬───┬───┐
//!              │   │ v │   │ w │   │    │ x │   │ y │   │   │   ──────►    │ x │ v │ y │ w │   │
//!              └───┴───┴───┴───┴───┘    └───┴───┴───┴───┴───┘              └───┴───┴───┴───┴───┘
//!   slot         0   1   2   3   4        0   1   2   3   4                  0   1   2   3   4
//! ```
//!
//! The spans of the pool's group become the last guests of the shard's, in their order, with their
//! logs. The pool has neither the group nor its page any more. All memory is taken before the first
//! change, so a fold that is refused leaves everything as it was.
//!
//! The public fact of the crate: the answer is exactly the one that the two groups call for
//! (`specs/Folds.antt`), only [`Step::Folded`] changes anything, pool and shard then show the same
//! map of keys together as before, and the pool has one page less while the shard has as many
//! groups as before. A group of the shard that has no page keeps the one that comes.
//!
//! # Examples
//!
//! ```
//! // The pool's group of head `a` onto the shard's group of head `b`, of one class and with no
//! // slot that is live in both.
//! match fold_one(&mut pool, &mut shard, a, b)? {
//!     Step::Folded => {} // one page less in the pool, and each key finds its object as before
//!     Step::Emptied => {} // the group has no live slot any more, and so no page
//!     Step::Clash | Step::Absent => {} // nothing has changed
//! }
//! ```
#![tactic(auto)]

mod folding;
mod step;

pub use folding::fold_one;
pub use step::Step;
