//! The core for C, and for any language that calls C: a static library of proved functions.
//!
//! A [`Handle`] is what a caller keeps of a core: one word, which it never looks into. It begins as
//! zero; `teurlaks_new` leaves a core to it, each other call works on that core, and
//! `teurlaks_drop` gives its memory back. What the handle owns stands in its type, so the contracts
//! of the calls are plain facts on the core before and after. Its logs are only counted.
//!
//! ```text
//!   C, Rust, ..      struct teurlaks_handle { uint8_t *at; }
//!                                                      │
//!   Handle                                             at ────► Held { core, last, .. }    owned
//!                                                                      │     │         as by a box
//!   events and replies                                   Core<Counted> ┘     └ the certificate of
//!                                                                              the last mark
//! ```
//!
//! A [`ShareHandle`](share_handle::ShareHandle) is the same for threads: it has a seat of an arena,
//! or its steward, each with a share of the arena, which goes with the last of them. Its calls
//! (`seats.rt`, `stewards.rt`) wait for nobody: where another thread has a lock that a call needs,
//! it answers `BUSY`, with nothing changed. Both kinds of handle may go to another thread, which is
//! proved (`Send`); a call has its handle to itself. A seat that its thread is done with goes back
//! to the steward (`leaving.rt`), of whose arena it is if both stand at one place (`places.rt`).
//!
//! An arena may be *recorded* (`recorded.rt`): it keeps its logs, and each seat the receipts of its
//! calls, which are the calls of any arena (`recorded_calls.rt`). Once all seats are back the
//! steward ends it, and has the receipts held against the logs (`recorded_stewards.rt`): `OK` says
//! that each span has one history.
//!
//! Nothing is asked of a handle: one that has no core, since none was made or it was dropped, is
//! null, and each call tests it. It answers the status `NO_CORE` then, whatever else it is given;
//! `teurlaks_totals` and `teurlaks_estimate` count nothing, and `teurlaks_drop` does nothing.
//!
//! Numbers cross and small structs of numbers, no enums and no numbers of 128 bits: a reply has a
//! status (`status.rt`), and a word is two halves. A call passes `alloc`, which takes no bytes, so
//! callers in C pass nothing for it.
//!
//! The public facts (`specs/Calls.antt`): each call is the event of the core that it is named for,
//! and what it answers is what the core replies. So what [`Core::step`](arena_core::Core::step)
//! promises, of the plain map of keys, of refusals and of largest plans, is promised to every
//! caller that keeps a handle as `c/teurlaks.h` says.
//!
//! # Examples
//!
//! ```text
//! struct teurlaks_handle core = {0};
//! if (teurlaks_new(&core, 2, 4, 1, 9) != TEURLAKS_OK) return 1;  // two shards of up to four pages
//! struct teurlaks_put_reply put = teurlaks_put(&core, 0, (struct teurlaks_word){7, 0});
//! teurlaks_end(&core, 0);                                          // its group goes to the pool
//! teurlaks_get(&core, put.key).value.low;                          // 7, as ever
//! teurlaks_drop(&core);
//! ```
#![tactic(auto)]

mod calls;
mod compacting;
mod handle;
mod held;
mod key_numbers;
mod keys;
mod leaving;
mod limits;
mod live_keys;
mod many;
mod meshing;
mod places;
mod recorded;
mod recorded_calls;
mod recorded_stewards;
mod replies;
mod seat_calls;
mod seats;
mod session_calls;
mod sessions;
mod share;
mod share_handle;
mod status;
mod steward_calls;
mod stewards;
mod walks;
mod words;

pub use calls::{
    teurlaks_drop, teurlaks_estimate, teurlaks_free, teurlaks_get, teurlaks_get_words,
    teurlaks_new, teurlaks_new_with_slots, teurlaks_new_with_spans, teurlaks_next,
    teurlaks_next_in_span, teurlaks_put, teurlaks_put_words, teurlaks_set, teurlaks_set_words,
    teurlaks_totals,
};
pub use compacting::{
    teurlaks_compact_if_pays, teurlaks_compact_within, teurlaks_compaction_give_up,
    teurlaks_compaction_step,
};
pub use key_numbers::{teurlaks_key_bits, teurlaks_key_from_u64, teurlaks_key_to_u64};
pub use leaving::teurlaks_seat_leave;
pub use live_keys::teurlaks_contains;
pub use many::{teurlaks_free_many, teurlaks_get_many, teurlaks_put_many};
pub use meshing::{
    teurlaks_adopt, teurlaks_begin, teurlaks_certificate, teurlaks_close, teurlaks_end,
    teurlaks_forget, teurlaks_gather, teurlaks_mark, teurlaks_retire, teurlaks_step, teurlaks_trim,
    teurlaks_trim_some,
};
pub use places::{teurlaks_seat_arena, teurlaks_steward_arena};
pub use recorded_stewards::{
    teurlaks_arena_audit, teurlaks_arena_open_recorded, teurlaks_arena_open_recorded_with_slots,
    teurlaks_arena_open_recorded_with_spans,
};
pub use seats::{
    teurlaks_seat_adopt, teurlaks_seat_begin, teurlaks_seat_end, teurlaks_seat_free,
    teurlaks_seat_free_later, teurlaks_seat_gather, teurlaks_seat_get_words,
    teurlaks_seat_hand_over, teurlaks_seat_put_words, teurlaks_seat_retire,
    teurlaks_seat_set_words, teurlaks_seat_tend, teurlaks_seat_trim,
};
pub use sessions::{teurlaks_seat_pause, teurlaks_seat_session};
pub use stewards::{
    teurlaks_arena_open, teurlaks_arena_open_with_slots, teurlaks_arena_open_with_spans,
    teurlaks_share_drop, teurlaks_steward_certificate, teurlaks_steward_close,
    teurlaks_steward_forget, teurlaks_steward_gather, teurlaks_steward_mark,
    teurlaks_steward_mark_some, teurlaks_steward_seat, teurlaks_steward_step,
    teurlaks_steward_totals,
};
pub use walks::{teurlaks_seat_next, teurlaks_steward_next};
