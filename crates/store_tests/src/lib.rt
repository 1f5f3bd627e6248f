//! Spans, pages, shards, pools, folds and cores at work: what no clause of theirs says.
//!
//! What is tested is that calls succeed with ample memory, that one which was refused memory has
//! changed nothing and succeeds the second time, and answers that were worked out by hand. All of
//! it is compiled for tests alone, over the proved libraries, so that none of them is proved once
//! more for its tests.
//!
//! # Examples
//!
//! ```text
//! rt test store_tests
//! ```
//!
//! It proves the tests of `span`, `key_bits`, `page`, `shard`, `pool`, `fold` and `arena_core`, and
//! runs them.
#![tactic(auto)]

#[cfg(test)]
mod compacting;
#[cfg(test)]
mod cores;
#[cfg(test)]
mod folds;
#[cfg(test)]
mod key_numbers;
#[cfg(test)]
mod large;
#[cfg(test)]
mod objects;
#[cfg(test)]
mod pages;
#[cfg(test)]
mod pools;
#[cfg(test)]
mod shards;
#[cfg(test)]
mod spans;
#[cfg(test)]
mod zeros;
