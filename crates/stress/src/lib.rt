//! Arenas under threads, and the audit of what their workers were told.
//!
//! A proof sees one call at a time, and no contract speaks of what a lock guards while nobody holds
//! it. So what calls of many threads come to, one beside the other, is shown by runs of eight
//! workers and a steward: each call leaves its receipt, and when all is done the receipts are held
//! against the logs of all spans. The tests run ten sections of 1,000 calls of each worker, with a
//! mark after each, or with marks all the while. An audit that passed whatever it is shown would
//! pass these runs too, so lists that differ from a log in one thing stand beside them, and so do
//! calls in series, whose answers are known.
//!
//! All of it is compiled for tests alone, over the proved libraries, so that none of them is proved
//! once more for its tests.
//!
//! # Examples
//!
//! ```text
//! rt test stress
//! ```
//!
//! It proves the tests of `remote_queue`, `arena` and `audit`, and runs them, eight workers beside
//! a steward among them.
#![tactic(auto)]

#[cfg(test)]
mod arenas;
#[cfg(test)]
mod audits;
#[cfg(test)]
mod begins;
#[cfg(test)]
mod gates;
#[cfg(test)]
mod held;
#[cfg(test)]
mod kept;
#[cfg(test)]
mod large;
#[cfg(test)]
mod lent_calls;
#[cfg(test)]
mod places;
#[cfg(test)]
mod retirements;
#[cfg(test)]
mod rings;
#[cfg(test)]
mod rooms;
#[cfg(test)]
mod runs;
#[cfg(test)]
mod sessions;
#[cfg(test)]
mod sets;
#[cfg(test)]
mod shared;
#[cfg(test)]
mod spans;
#[cfg(test)]
mod steward;
#[cfg(test)]
mod tends;
#[cfg(test)]
mod tests;
#[cfg(test)]
mod tries;
#[cfg(test)]
mod trims;
#[cfg(test)]
mod words;
#[cfg(test)]
mod worker;
