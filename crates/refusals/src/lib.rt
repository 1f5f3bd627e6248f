//! Each growth of a call refused, one after another, until none is.
//!
//! A list of calls is answered with memory first. Then, at each call that takes memory, its first
//! growth is refused, then its second, and so on until none is, each time in a state that is made
//! anew. At each refusal the answer is want of memory; pages, live keys and the value under every
//! key are those of a twin that was never asked; and the call that is made again answers as if
//! nothing had been refused, and so does every call after it. So a refused step names the same pair
//! next, a refused mark has opened no plan, and a live key is freed.
//!
//! What refuses is a library in C that is loaded before the tests (`tools/refuse.c`), which `check`
//! does once they are built. Without it nothing is refused, and the tests pass, having seen one
//! round of each call.
//!
//! The library also counts the bytes of all blocks that stand, by which a forgetting is seen to
//! keep nothing of what it forgets.
//!
//! # Examples
//!
//! ```text
//! rt test refusals
//! LD_PRELOAD=refuse.so crates/refusals/out/refusals_tests cores::refuses_each
//! ```
//!
//! The first proves the tests, and runs them with nothing refused. The second refuses each growth
//! of each event.
#![tactic(auto)]

#[cfg(test)]
mod arenas;
#[cfg(test)]
mod compacting;
#[cfg(test)]
mod cores;
#[cfg(test)]
mod ends;
#[cfg(test)]
mod forgetting;
#[cfg(test)]
mod gathering;
#[cfg(test)]
mod openings;
#[cfg(test)]
mod refusing;
#[cfg(test)]
mod runs;
#[cfg(test)]
mod stores;
