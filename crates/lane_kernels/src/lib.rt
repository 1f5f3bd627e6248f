//! Many sets side by side, and what is told of all of them at once.
//!
//! [`Planes`] keeps a list of sets as four rows of words with a column for each set, so that a
//! kernel takes many sets at once with no gather: 64 columns make one word of a row of bits.
//!
//! ```text
//!            set 0   set 1   set 2   ..
//!  first    ┌──────┬───────┬───────┬──     slots 0 to 63
//!  second   ├──────┼───────┼───────┼──     slots 64 to 127
//!  third    ├──────┼───────┼───────┼──     slots 128 to 191
//!  fourth   └──────┴───────┴───────┴──     slots 192 to 255
//! ```
//!
//! [`SlotRows`] keeps such a list by slots, a row of bits for each of the 256: bit j of the row of
//! slot s says whether set j has s. Which sets are disjoint from a given one is then told by its
//! slots alone: by all bits but those in the rows of its slots.
//!
//! ```text
//!              set 0 {1}   set 1 {0}   set 2 {}
//!  slot 0          .           1          .
//!  slot 1          1           .          .
//!  disjoint from {0}:
//!                  1           .          1
//! ```
//!
//! Contracts see both as the list of the sets. The public fact is that each kernel gives what its
//! plain definition gives, for any number of sets.
//!
//! # Examples
//!
//! ```
//! let mut planes = Planes::new(alloc);
//! planes.push(&owned)?;
//! let rows = SlotRows::of(alloc, planes, 1)?;
//! let mut row = vec![in alloc; 0; rows.row_words()]?;
//! rows.disjoint_row(&abandoned, &mut row); // bit 0 of row[0]: no slot is in both
//! ```
#![tactic(auto)]

mod by_slots;
mod kernel;
mod planes;
mod slot_rows;

pub use planes::Planes;
pub use slot_rows::{LEAST_BY_SLOTS, MOST_BY_SLOTS, SlotRows};
