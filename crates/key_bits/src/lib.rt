//! Keys as numbers of 64 bits.
//!
//! A token of an event loop, the user data of a kernel ring and a `uint64_t` of C have room for one
//! number. A [`Key`](span::names::Key) has four: a shard, a serial, a slot and a generation. A
//! [`KeyBits`] says how many bits each takes, and turns keys into numbers and numbers into keys.
//!
//! ```text
//!   bit   63                40 39   36 35                    8 7        0
//!         ┌──────────────────┬───────┬────────────────────────┬──────────┐
//!         │    generation    │ shard │         serial         │   slot   │   KeyBits::balanced()
//!         └──────────────────┴───────┴────────────────────────┴──────────┘
//! ```
//!
//! | Layout | Shards | Spans a shard opens | Generations | Bits |
//! |---|---|---|---|---|
//! | [`balanced`](KeyBits::balanced) | 16 | 268,435,456 | 16,777,215 | 64 |
//! | `new(6, 26, 24)` | 64, which are all there can be | 67,108,864 | 16,777,215 | 64 |
//! | `new(4, 20, 32)` | 16 | 1,048,576 | 4,294,967,295, which are all there can be | 64 |
//! | `new(3, 18, 24)` | 8 | 262,144 | 16,777,215 | 53, exact in a `double` of C |
//!
//! [`new`](KeyBits::new) makes any layout, and [`for_limits`](KeyBits::for_limits) the one with the
//! fewest bits for some limits.
//!
//! The public facts of the crate: a number is that of one key, a number is read exactly if it is
//! that of a key, and no key has the number 0, since generations count from 1. A key that is beyond
//! its layout, as one of the 17th shard, has no number, and is refused by `None`.
//!
//! # Examples
//!
//! ```
//! let bits = KeyBits::balanced();
//! let token = bits.to_number(key)?;           // of key 3.17/255/1
//! assert_eq!(rt; bits.from_number(token), Some(key));
//! assert_eq!(rt; bits.from_number(0), None);  // no key has it
//! ```
#![tactic(auto)]

mod layout;
mod parts;
mod width;

pub use layout::{KeyBits, LayoutError};
