//! Sets of slots, rows of bits, graphs, certificates and plans at work: what no clause of theirs
//! says.
//!
//! What is tested is that calls succeed with ample memory, that one which was refused memory
//! succeeds the second time, and answers that were worked out by hand. All of it is compiled for
//! tests alone, over the proved libraries, so that none of them is proved once more for its tests.
//!
//! # Examples
//!
//! ```text
//! rt test plan_tests
//! ```
//!
//! It proves the tests of `bitmap`, `lane_kernels`, `mesh_graph`, `certificate` and `augment`, and
//! runs them.
#![tactic(auto)]

#[cfg(test)]
mod certificates;
#[cfg(test)]
mod graphs;
#[cfg(test)]
mod kernels;
#[cfg(test)]
mod partners;
#[cfg(test)]
mod plans;
#[cfg(test)]
mod sets;
