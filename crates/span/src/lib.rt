//! Spans, the keys of their slots, and their logs. The crate has three doors: [`names`], of which
//! every crate speaks, [`spans`], one span with its log, and [`receipts`], what workers note of
//! their calls. Beside them is [`ghost_list`], a list that only proofs read.
//!
//! A [`Span`](spans::Span) is the slots of a page that one shard opened together: 256 of one word
//! each, or fewer that are wider. Their values lie on the page, which is not kept here. A span
//! keeps which of its slots are live, the last generation that each was given, and a log of all
//! that was done to it.
//!
//! ```text
//!   log   Put 3 gen 1 ── Put 7 gen 1 ── Free 3 gen 1 ── Put 3 gen 2
//!
//!   slot          0    1    2    3    4    5    6    7    8  ..  255
//!   live          .    .    .    x    .    .    .    x    .       .
//!   generation    0    0    0    2    0    0    0    1    0       0
//! ```
//!
//! After these changes the [`Key`](names::Key) of slot 3 at generation 2 is live, and the key at
//! generation 1 finds nothing, now and for ever: a put gives its slot the generation after its last
//! one (the idea is that of the crate `sharded_slab`). A slot that was given its greatest
//! generation is worn, and takes no put again.
//!
//! The public fact of the crate is that a span is its log. Which slots are live and worn, which
//! generation comes next and what a key finds are functions of the log (`specs/Log.antt`); the log
//! is legal, and each change stands at its end. So whoever has the log can tell what each key held
//! at each time, and check what a [`Receipt`](receipts::Receipt) says of a call.
//!
//! A log that is [`Kept`](spans::Kept) takes 8.5 bytes a change, and the words of each object that
//! was put or set, for as long as its span lives. A span that works for ever and whose log nobody
//! reads is a `Span<Counted>`: it keeps the number of changes alone, so a put and its free leave
//! memory as it was, but once in a span's life: a slot takes a byte until one is put 128 times, and
//! 4 bytes from then on. Its contracts are the same, since they speak of the log as a list that
//! proofs alone carry along; only `log` is missing.
//!
//! # Examples
//!
//! ```
//! use span::names::{Class, SpanId};
//! use span::spans::Span;
//!
//! // The first span of shard 0. Each slot is put at most nine times.
//! let id = SpanId::new(0, 0)?;
//! let mut span = Span::new(alloc, id, Class::C16, 9);
//! let key = span.put_at(3, &[7])?; // 0.0/3/1
//! assert!(rt; span.holds(3, 1));
//! assert!(rt; span.free_held(3, 1));
//! assert!(rt; !span.holds(3, 1)); // now and for ever
//! let next = span.put_at(3, &[8])?; // 0.0/3/2: the same slot, the next generation
//! assert_eq!(rt; span.log().len(), 3);
//! ```
#![tactic(auto)]

mod blocks;
mod change;
mod class;
mod entry;
pub mod ghost_list;
mod id;
mod key;
mod limits;
mod log;
mod marks;
pub mod names;
mod object;
mod object_view;
mod receipt;
mod receipt_list;
mod receipt_run;
mod receipt_view;
pub mod receipts;
mod span;
mod span_log;
pub mod spans;
mod stored;
mod stored_receipt;
mod view;
mod words;
