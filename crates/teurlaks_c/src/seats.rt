// The calls of a seat, for the thread that has its handle.
ghost use Rattle.std.specs.Prelude.{◌≡◌, ◌∷◌, ◌≤◌, [], length};
ghost use Rattle.span.specs.Classes.{IsObject, width_of};
ghost use Rattle.teurlaks_c.specs.SeatCalls.{AsksEither, AsksNothing, AsksPaused, AsksTend, Ends, FreesBy, FreesKey, Gathers, GetsWords, HandsOver, IsOneCall, LeavesKey, PutsBy, PutsWords, Retires, SaysAdopted, SaysBegun, SaysEnded, SaysGathered, SaysHandedOver, SaysRetired, SaysTended, SaysTrimmed, SetsBy, SetsWords};
ghost use Rattle.teurlaks_c.specs.Recorded.{Answers};
ghost use Rattle.teurlaks_c.specs.SessionCalls.{AtHeldSeat};
ghost use Rattle.teurlaks_c.specs.Status.{adopt_status, receive_status};
ghost use Rattle.teurlaks_c.specs.Words.{words_of};

use crate::keys::{key_of, raw_span};
use crate::meshing::no_span;
use crate::recorded_calls::{tell_at_seat, tend_at_seat};
use crate::replies::{
    AdoptReply, GatherReply, PutReply, RawKey, RawWord, RetireReply, TendReply, TrimReply,
    WordsReply,
};
use crate::seat_calls::{
    Adopt, Begin, End, Free, FreeLater, Gather, HandOver, Put, Retire, Set, Stay, Trim, at_seat,
    not_looked,
};
use crate::session_calls::{at_seat_or_session, look_up_at_seat, not_put};
use crate::share_handle::ShareHandle;
use crate::status::{
    BUSY, CONFIG, ENDED, NO_CORE, NONE, NOTHING_TO_ADOPT, OK, OUT_OF_MEMORY, PAGES_SPENT,
    PLAN_OPEN, RUNNING,
};
use crate::words::{class_for, join_all, value_of};
use arena::{Busy, Tended};
use pool::{AdoptError, ReceiveError};
use span::names::{Class, Key, SpanId};
use std::alloc::{AllocError, Global};

/// Keeps an object of 1 to 16 words in the seat's shard, and answers its key. Refused with `BUSY`,
/// `PAGES_SPENT`, `ENDED` or `OUT_OF_MEMORY`; where the words are none or more than 16, with
/// `CONFIG`. Nothing has changed then.
///
/// A recorded seat keeps a receipt of each put, look-up, set and free, and of each free that it
/// tends: where there is no room for it the call answers `OUT_OF_MEMORY`, and is not made.
#[unsafe(no_mangle)]
pub extern "C" fn teurlaks_seat_put_words(
    alloc: Global,
    handle: &mut ShareHandle,
    words: &[RawWord],
) -> PutReply
    ensures { PutsWords handle.old.share (words_of words.now) result handle.new.share }
{
    let Some(class) = class_for(words) else {
        return not_put(or_no_seat(CONFIG, alloc, handle));
    };
    put(alloc, handle, class, words)
}

/// Writes the words of the key's object, where it is live, into `words`, from its first on, and
/// answers how many they are. `BUSY` where another thread has the lock of the span, `NONE` where
/// the key is not live, and `TOO_SMALL` where there is no room for that many: nothing was written
/// then.
#[unsafe(no_mangle)]
pub extern "C" fn teurlaks_seat_get_words(
    alloc: Global,
    handle: &mut ShareHandle,
    key: RawKey,
    words: &mut [RawWord],
) -> WordsReply
    ensures { GetsWords handle.old.share key words.old result words.new handle.new.share }
{
    let Some(key) = key_of(key) else {
        return not_looked(or_no_seat(NONE, alloc, handle));
    };
    look_up_at_seat(alloc, handle, &key, words)
}

/// Sets the key to the object of 1 to 16 words, where it is live and its object has as many, which
/// `OK` says; else it answers `NONE`. Refused with `BUSY`, or with `CONFIG` where the words are
/// none or more than 16; nothing has changed then.
#[unsafe(no_mangle)]
pub extern "C" fn teurlaks_seat_set_words(
    alloc: Global,
    handle: &mut ShareHandle,
    key: RawKey,
    words: &[RawWord],
) -> u32
    ensures { SetsWords handle.old.share key (words_of words.now) result handle.new.share }
{
    let Some(_) = class_for(words) else {
        return or_no_seat(CONFIG, alloc, handle);
    };
    let Some(key) = key_of(key) else {
        return or_no_seat(NONE, alloc, handle);
    };
    set(alloc, handle, key, words)
}

/// Frees the key, where it is live, which `OK` says; else it answers `NONE`, or `BUSY`, and nothing
/// changes. It takes no memory, but for the receipt of a recorded seat.
#[unsafe(no_mangle)]
pub extern "C" fn teurlaks_seat_free(alloc: Global, handle: &mut ShareHandle, key: RawKey) -> u32
    ensures { FreesKey handle.old.share key result handle.new.share }
{
    let Some(key) = key_of(key) else {
        return or_no_seat(NONE, alloc, handle);
    };
    free(alloc, handle, key)
}

/// Ends the seat's shard: its groups go to the pool, with their pages, and it takes no put until it
/// begins again. Refused with `BUSY`, `ENDED`, `PLAN_OPEN` or `OUT_OF_MEMORY`; nothing has changed
/// then.
#[unsafe(no_mangle)]
pub extern "C" fn teurlaks_seat_end(alloc: Global, handle: &mut ShareHandle) -> u32
    ensures { (answer : _) × AsksPaused Ends handle.old.share answer handle.new.share
        × SaysEnded result answer }
{
    ended_reply(at_seat(alloc, handle, &End))
}

/// Lets the seat's shard, which has ended, run again, for a new thread. No key that it then gives
/// out was given out before, and all keys stay what they were. Refused with `BUSY`, or with
/// `RUNNING` where the shard has not ended; nothing has changed then. It takes no memory.
#[unsafe(no_mangle)]
pub extern "C" fn teurlaks_seat_begin(alloc: Global, handle: &mut ShareHandle) -> u32
    ensures { (answer : _) × AsksPaused IsOneCall handle.old.share answer handle.new.share
        × SaysBegun result answer }
{
    begun_reply(at_seat(alloc, handle, &Begin))
}

/// Moves up to `most` groups of the seat's shard to the pool, and lets the shard go on: those with
/// the fewest live keys, of those that have one. Refused with `BUSY`, `ENDED`, `PLAN_OPEN` or
/// `OUT_OF_MEMORY`; nothing has changed then.
#[unsafe(no_mangle)]
pub extern "C" fn teurlaks_seat_retire(
    alloc: Global,
    handle: &mut ShareHandle,
    most: usize,
) -> RetireReply
    ensures { (answer : _) × AsksPaused (Retires most) handle.old.share answer handle.new.share
        × SaysRetired result answer }
{
    retired_reply(at_seat(alloc, handle, &Retire { most }))
}

/// Gives back the page of each open group of the seat's shard in which no slot is live; the count
/// is how many went. Refused with `BUSY`. It takes no memory.
#[unsafe(no_mangle)]
pub extern "C" fn teurlaks_seat_trim(alloc: Global, handle: &mut ShareHandle) -> TrimReply
    ensures { (answer : _) × AsksPaused IsOneCall handle.old.share answer handle.new.share
        × SaysTrimmed result answer }
{
    trimmed_reply(at_seat(alloc, handle, &Trim))
}

/// Moves the pages of up to `most` groups of the seat's shard, from its group `from` on, to blocks
/// that it asks for now, and changes nothing else. The count is how many groups these are: fewer
/// than `most` if the shard has no more. Refused with `BUSY`, and nothing has changed then; or with
/// `OUT_OF_MEMORY` if a block is refused: some pages have moved then.
#[unsafe(no_mangle)]
pub extern "C" fn teurlaks_seat_gather(
    alloc: Global,
    handle: &mut ShareHandle,
    from: usize,
    most: usize,
) -> GatherReply
    ensures { (answer : _) × AsksPaused (Gathers most) handle.old.share answer handle.new.share
        × SaysGathered result answer }
{
    gathered_reply(at_seat(alloc, handle, &Gather { from, most }))
}

/// Moves the pool's group of lowest head that has a page to the seat's shard, and answers its head.
/// Refused with `BUSY`, `PAGES_SPENT`, `ENDED`, `PLAN_OPEN`, `NOTHING_TO_ADOPT` or `OUT_OF_MEMORY`;
/// nothing has changed then.
#[unsafe(no_mangle)]
pub extern "C" fn teurlaks_seat_adopt(alloc: Global, handle: &mut ShareHandle) -> AdoptReply
    ensures { (answer : _) × AsksPaused IsOneCall handle.old.share answer handle.new.share
        × SaysAdopted result answer }
{
    adopted_reply(at_seat(alloc, handle, &Adopt))
}

/// Leaves the key to the thread of the shard that opened its span, which frees it when it tends its
/// rings. Keys go in blocks: until its block is full the key waits at the seat, for fewer than 64
/// further calls. `NONE` where the arena has no such shard, and `RING_FULL` where the ring took
/// none, with all that wait handed over. It takes no lock and no memory.
#[unsafe(no_mangle)]
pub extern "C" fn teurlaks_seat_free_later(
    alloc: Global,
    handle: &mut ShareHandle,
    key: RawKey,
) -> u32
    ensures { LeavesKey handle.old.share key result handle.new.share }
{
    let Some(key) = key_of(key) else {
        return or_no_seat(NONE, alloc, handle);
    };
    at_seat_or_session(alloc, handle, &FreeLater { key })
}

/// Hands over the keys that were left to other threads and wait for their block to be full. It
/// takes no lock and no memory.
#[unsafe(no_mangle)]
pub extern "C" fn teurlaks_seat_hand_over(alloc: Global, handle: &mut ShareHandle) -> u32
    ensures { Answers (AsksEither HandsOver (AtHeldSeat HandsOver)) (SaysHandedOver result)
        handle.old.share handle.new.share }
{
    at_seat_or_session(alloc, handle, &HandOver)
}

/// Takes the keys that other threads have left to the seat's shard, as many as are seen, and frees
/// each; the count is how many. `BUSY` where it left off, since another thread had the lock that
/// the next key needs: that key is the next in turn.
#[unsafe(no_mangle)]
pub extern "C" fn teurlaks_seat_tend(alloc: Global, handle: &mut ShareHandle) -> TendReply
    ensures { (answer : _) × AsksTend handle.old.share answer handle.new.share
        × SaysTended result answer }
{
    tended_reply(tend_at_seat(alloc, handle))
}

// The seat keeps the object of these words, which are as many as the class has. One word is by far
// the most frequent.
#[inline(always)]
fn put(alloc: Global, handle: &mut ShareHandle, class: Class, words: &[RawWord]) -> PutReply
    requires { length (words_of words.now) ≡ width_of class }
    ensures { PutsBy handle.old.share (words_of words.now) result handle.new.share }
{
    if let [word] = words {
        return put_one(alloc, handle, *word);
    }
    put_wider(alloc, handle, class, words)
}

// The seat keeps the object of this word.
#[inline(always)]
fn put_one(alloc: Global, handle: &mut ShareHandle, word: RawWord) -> PutReply
    ensures { PutsBy handle.old.share (words_of (word ∷ [])) result handle.new.share }
{
    let words = [value_of(word)];
    put_values(alloc, handle, Class::C16, &words)
}

// The same of an object of any class. What it answers has a place in memory of its own, so that
// what one word's put answers needs none.
#[inline(always)]
fn put_wider(alloc: Global, handle: &mut ShareHandle, class: Class, words: &[RawWord]) -> PutReply
    requires { length (words_of words.now) ≡ width_of class }
    ensures { PutsBy handle.old.share (words_of words.now) result handle.new.share }
{
    let PutReply { status, key } = put_wide(alloc, handle, class, words);
    PutReply { status, key }
}

// The same. It has room for the widest, which is kept out of the way of one word.
#[inline(never)]
fn put_wide(alloc: Global, handle: &mut ShareHandle, class: Class, words: &[RawWord]) -> PutReply
    requires { length (words_of words.now) ≡ width_of class }
    ensures { PutsBy handle.old.share (words_of words.now) result handle.new.share }
{
    let mut room = [0; 16];
    let words_len = words.len();
    let values = &mut room[..words_len];
    join_all(values, words);
    put_values(alloc, handle, class, values)
}

// The same of these words as they are kept.
#[inline(always)]
fn put_values(alloc: Global, handle: &mut ShareHandle, class: Class, words: &[u128]) -> PutReply
    requires { length words.now ≡ width_of class }
    ensures { PutsBy handle.old.share words.now result handle.new.share }
{
    tell_at_seat(alloc, handle, &Put { class, words })
}

// The seat sets the key to the object of these words. One word is by far the most frequent.
#[inline(always)]
fn set(alloc: Global, handle: &mut ShareHandle, key: Key, words: &[RawWord]) -> u32
    requires most { length words.now ≤ 16 }
    requires object { IsObject (words_of words.now) }
    ensures { SetsBy handle.old.share key (words_of words.now) result handle.new.share }
{
    if let [word] = words {
        return set_one(alloc, handle, key, *word);
    }
    set_wide(alloc, handle, key, words)
}

// The seat sets the key to the object of this word.
#[inline(always)]
fn set_one(alloc: Global, handle: &mut ShareHandle, key: Key, word: RawWord) -> u32
    requires { IsObject (words_of (word ∷ [])) }
    ensures { SetsBy handle.old.share key (words_of (word ∷ [])) result handle.new.share }
{
    let words = [value_of(word)];
    set_values(alloc, handle, key, &words)
}

// The same of an object of any class. It has room for the widest, which is kept out of the way of
// one word.
#[inline(never)]
fn set_wide(alloc: Global, handle: &mut ShareHandle, key: Key, words: &[RawWord]) -> u32
    requires most { length words.now ≤ 16 }
    requires object { IsObject (words_of words.now) }
    ensures { SetsBy handle.old.share key (words_of words.now) result handle.new.share }
{
    let mut room = [0; 16];
    let values = &mut room[..words.len()];
    join_all(values, words);
    set_values(alloc, handle, key, values)
}

// The same of these words as they are kept.
#[inline(always)]
fn set_values(alloc: Global, handle: &mut ShareHandle, key: Key, words: &[u128]) -> u32
    requires { IsObject words.now }
    ensures { SetsBy handle.old.share key words.now result handle.new.share }
{
    tell_at_seat(alloc, handle, &Set { key, words })
}

// The seat frees the key.
#[inline(always)]
fn free(alloc: Global, handle: &mut ShareHandle, key: Key) -> u32
    ensures { FreesBy handle.old.share key result handle.new.share }
{
    tell_at_seat(alloc, handle, &Free { key })
}

// That status, where the handle has a seat.
#[inline(never)]
fn or_no_seat(status: u32, alloc: Global, handle: &mut ShareHandle) -> u32
    ensures { AsksNothing status handle.old.share result handle.new.share }
{
    at_seat_or_session(alloc, handle, &Stay { status })
}

// What C reads of a tending.
fn tended_reply(answer: Option<Result<Tended, AllocError>>) -> TendReply
    ensures { SaysTended result answer }
{
    match answer {
        Some(Ok(Tended { count, is_busy })) => TendReply {
            status: if is_busy { BUSY } else { OK },
            count,
        },
        Some(Err(AllocError)) => TendReply {
            status: OUT_OF_MEMORY,
            count: 0,
        },
        None => TendReply {
            status: NO_CORE,
            count: 0,
        },
    }
}

// What C reads of an end.
fn ended_reply(answer: Option<Result<Result<(), ReceiveError>, Busy>>) -> u32
    ensures { SaysEnded result answer }
{
    match answer {
        Some(Ok(Ok(()))) => OK,
        Some(Ok(Err(error))) => receive_status_of(error),
        Some(Err(Busy)) => BUSY,
        None => NO_CORE,
    }
}

// What C reads of a begin.
fn begun_reply(answer: Option<Result<bool, Busy>>) -> u32
    ensures { SaysBegun result answer }
{
    match answer {
        Some(Ok(true)) => OK,
        Some(Ok(false)) => RUNNING,
        Some(Err(Busy)) => BUSY,
        None => NO_CORE,
    }
}

// What C reads of a retirement.
fn retired_reply(answer: Option<Result<Result<usize, ReceiveError>, Busy>>) -> RetireReply
    ensures { SaysRetired result answer }
{
    match answer {
        Some(Ok(Ok(count))) => RetireReply { status: OK, count },
        Some(Ok(Err(error))) => RetireReply {
            status: receive_status_of(error),
            count: 0,
        },
        Some(Err(Busy)) => RetireReply {
            status: BUSY,
            count: 0,
        },
        None => RetireReply {
            status: NO_CORE,
            count: 0,
        },
    }
}

// What C reads of a trim.
fn trimmed_reply(answer: Option<Result<usize, Busy>>) -> TrimReply
    ensures { SaysTrimmed result answer }
{
    match answer {
        Some(Ok(count)) => TrimReply { status: OK, count },
        Some(Err(Busy)) => TrimReply {
            status: BUSY,
            count: 0,
        },
        None => TrimReply {
            status: NO_CORE,
            count: 0,
        },
    }
}

/// What C reads of a gathering.
pub(crate) fn gathered_reply(answer: Option<Result<Result<usize, AllocError>, Busy>>) -> GatherReply
    ensures { SaysGathered result answer }
{
    match answer {
        Some(Ok(Ok(count))) => GatherReply { status: OK, count },
        Some(Ok(Err(AllocError))) => GatherReply {
            status: OUT_OF_MEMORY,
            count: 0,
        },
        Some(Err(Busy)) => GatherReply {
            status: BUSY,
            count: 0,
        },
        None => GatherReply {
            status: NO_CORE,
            count: 0,
        },
    }
}

// What C reads of an adoption.
fn adopted_reply(answer: Option<Result<Result<SpanId, AdoptError>, Busy>>) -> AdoptReply
    ensures { SaysAdopted result answer }
{
    let status = match answer {
        Some(Ok(Ok(head))) => {
            return AdoptReply {
                status: OK,
                head: raw_span(head),
            };
        }
        Some(Ok(Err(error))) => adopt_status_of(error),
        Some(Err(Busy)) => BUSY,
        None => NO_CORE,
    };
    AdoptReply {
        status,
        head: no_span(),
    }
}

// The status that stands for a refused end or retirement.
fn receive_status_of(error: ReceiveError) -> u32
    ensures { result ≡ receive_status error }
{
    match error {
        ReceiveError::OutOfMemory => OUT_OF_MEMORY,
        ReceiveError::Ended => ENDED,
        ReceiveError::PlanOpen => PLAN_OPEN,
        ReceiveError::Doubled => NONE,
    }
}

// The status that stands for a refused adoption.
fn adopt_status_of(error: AdoptError) -> u32
    ensures { result ≡ adopt_status error }
{
    match error {
        AdoptError::OutOfMemory => OUT_OF_MEMORY,
        AdoptError::PagesSpent => PAGES_SPENT,
        AdoptError::Ended => ENDED,
        AdoptError::PlanOpen => PLAN_OPEN,
        AdoptError::NothingToAdopt => NOTHING_TO_ADOPT,
        AdoptError::Doubled => NONE,
    }
}
