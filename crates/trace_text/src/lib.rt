//! The grammar of traces, and its parser.
//!
//! A trace is lines of bytes, each ended by one line feed, which the last line may lack. Lines are
//! counted from 1. Words are parted by one space, and no space stands before the first word or
//! after the last. A number is decimal digits with no sign and no leading zero. Lines 1 to 5 are
//! the header, and every further line is empty, a remark, a call of a thread, an adoption or a
//! mark:
//!
//! ```text
//! mesh 1                  0 put a 7            puts 7, and binds `a` to its key
//! shards 2                0 fill b 3 5         puts 5, 6, 7, and binds `b.0`, `b.1`, `b.2`
//! pages 4                 0 get b.1            reads the object of a key
//! ring 4                  0 free a             frees a key
//! gens 9                  0 sweep b 0 2        frees `b.0` and `b.1`
//! # bytes of any kind     0 end                ends the thread
//!                         adopt 1              at the mark below, shard 1 adopts
//!                         mark                 the barrier between two sections
//! ```
//!
//! A name is 1 to 16 of `a` to `z` and `0` to `9`, and begins with a letter. It is bound once, by a
//! put or a fill, and stands for its keys from the next line on: alone where a put binds it, and
//! with a full stop and an index below the count where a fill does. A sweep lies within its fill.
//! Other threads may use the name only after the next mark, since threads meet at marks alone.
//!
//! There are 1 to 64 shards, each with one thread of its number, from 0 on. A thread that has ended
//! calls no more until it begins again, and its shard doesn't adopt. After an adoption stand
//! adoptions and then a mark, with nothing between them but empty lines and remarks.
//!
//! A trace whose first line is `mesh 2` may also have `put64`, `put256`, `fill64` and `fill256`
//! where others have `put` and `fill`. They put objects of 4 and of 16 words. The first word of an
//! object is the value, and each further word is one more than the word before it; the objects of a
//! fill begin with the value, with one more than that, and so on.
//!
//! A trace whose first line is `mesh 3` may have all of these, and also `0 set a 8`, which replaces
//! the object of a key by the one that begins with the value and has the class that the key was
//! bound with.
//!
//! A trace whose first line is `mesh 4` may have all of these, and also `0 trim`, which gives back
//! the pages of the open groups of the thread's shard that have no live slot.
//!
//! A trace whose first line is `mesh 5` may have all of these, and also `0 retire 3`, which lets up
//! to 3 groups of the thread's shard with a live slot go to the pool, and `0 begin`, by which a
//! thread begins again that has ended above an earlier mark.
//!
//! A trace whose first line is `mesh 6` may have all of these, and also objects of any number of
//! words from 2 to 16, by `put32`, `put48`, .. `put256` and `fill32`, `fill48`, .. `fill256`. The
//! number is that of an object's bytes, 16 a word.
//!
//! A shard has 1 to 1,024 pages, a ring 1 to 1,024 places, and a slot 1 to 4,294,967,295
//! generations. A fill has 1 to 262,144 keys, and a retirement is of up to 1 to 1,048,576 groups.
//! Each word of an object, the last one of a fill or of a set too, is below 2^128.
//!
//! `parse` gives the trace that a text spells, or the first line at fault and, of the causes that
//! hold of it, the first in the order of `Cause`.
//!
//! # Examples
//!
//! ```
//! match parse(alloc, text) {
//!     Ok(trace) => {} // its header and its lines
//!     Err(ParseError::BadTrace { line, cause }) => {} // the first line at fault, from 1 on
//!     Err(ParseError::OutOfMemory) => {}
//! }
//! ```
#![tactic(auto)]

mod cause;
mod counting;
mod earlier;
mod header;
mod line;
mod line_list;
mod name;
mod numeral;
mod parsing;
mod reading;
mod text_seed;
mod trace;
mod verb;
mod words;

pub use cause::{Cause, ParseError};
pub use counting::{count_up, counted_in, counting_from};
pub use header::{Header, TRACE_PAGES, Version};
pub use line::{Binding, Call, Keys, Line};
pub use line_list::LineList;
pub use name::{Name, Reference};
pub use parsing::parse;
pub use trace::Trace;
