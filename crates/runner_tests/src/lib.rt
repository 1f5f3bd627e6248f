//! Replays, checks and reports at work: what no clause of theirs says.
//!
//! What is tested is what neither an example of `examples/` nor `tools/hostile.sh` shows: sinks,
//! stores and allocations that fail, what is told of it, threads that meet, and the lines of
//! `docs/CALLING.md` to begin with. All of it is compiled for tests alone, over the proved
//! libraries, so that the program is not proved once more for its tests.
//!
//! # Examples
//!
//! ```text
//! rt test runner_tests    proves the tests, and runs them
//! ```
#![tactic(auto)]

#[cfg(test)]
mod out;
#[cfg(test)]
mod refused;
#[cfg(test)]
mod sinks;
#[cfg(test)]
mod store;
#[cfg(test)]
mod telling;
#[cfg(test)]
mod threads;
#[cfg(test)]
mod tour;
