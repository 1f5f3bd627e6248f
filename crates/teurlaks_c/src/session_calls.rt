// What is asked of the seat of a handle that may keep its shard, and what it answers.
ghost use Rattle.std.specs.Prelude.{◌≡◌, None, Option, Some, if◌then◌else◌};
ghost use Rattle.teurlaks_c.specs.Recorded.{Answers};
ghost use Rattle.teurlaks_c.specs.SeatCalls.{AsksEither, FreesLater, GetsKey, HandsOver, SaysFreed, SaysGot, SaysHandedOver, SaysInstead, SaysLeft, SaysPut, SaysSet, Stays};
ghost use Rattle.teurlaks_c.specs.SessionCalls.{AtHeldSeat, FreesHeld, GetsHeld, Held, PutsHeld, SetsHeld, held};
ghost use Rattle.teurlaks_c.specs.Status.{done, none, put_status};

use crate::calls::no_key;
use crate::keys::raw_of;
use crate::recorded_calls::look_up_recorded;
use crate::replies::{PutReply, RawWord, WordsReply};
use crate::seat_calls::{
    Free, FreeLater, HandOver, Put, SeatCall, Set, Stay, ask_recorded_seat, ask_seat, look_up,
    looked_reply, not_looked,
};
use crate::share::{Share, SharedSession};
use crate::share_handle::ShareHandle;
use crate::status::{BUSY, ENDED, NO_CORE, NONE, OK, OUT_OF_MEMORY, PAGES_SPENT, RING_FULL};
use arena::{Busy, Issued, Outcome};
use shard::PutError;
use span::names::Key;
use std::alloc::{AllocError, Global};
use std::mem::replace;

/// A call of a seat that goes by its session, where it has one. What C reads of it is made where it
/// is answered: no answer of either kind of seat is handed on as one of any.
pub(crate) trait SessionCall: SeatCall {
    /// What C reads of it.
    type Reply;

    /// What it does in a session.
    ghost does_held: { Self → Held → Self.Answer → Held → Type 0 };

    /// What C reads of an answer, or where the handle has no seat.
    ghost says: { Self → Self.Reply → Option Self.Answer → Type 0 };

    /// Makes the call in a session.
    fn ask_in_session(&self, shared: &mut SharedSession) -> Self::Answer
        ensures arena { shared.new.session.arena ≡ shared.old.session.arena }
        ensures does { does_held self.now (held shared.old) result (held shared.new) };

    /// What C reads of the answer.
    fn reply(&self, answer: Self::Answer) -> Self::Reply
        ensures { says self.now result (Some answer) };

    /// What C reads where the handle has no seat.
    fn no_seat(&self) -> Self::Reply
        ensures { says self.now result None };
}

/// Asks the seat of the handle, where it has one, in its session, where it keeps its shard. No
/// receipt is made.
#[inline(always)]
pub(crate) fn at_seat_or_session<C: SessionCall>(
    alloc: Global,
    handle: &mut ShareHandle,
    call: &C,
) -> C::Reply
    ensures { Answers (AsksEither (C.does call.now) (C.does_held call.now))
        (C.says call.now result) handle.old.share handle.new.share }
{
    let Some(mut share) = replace(handle, ShareHandle::none()).into_box(alloc) else {
        return call.no_seat();
    };
    let reply = ask_either(&mut *share, call);
    *handle = ShareHandle::of(share);
    reply
}

// Asks the seat, where that is what is shared.
#[inline(always)]
fn ask_either<C: SessionCall>(share: &mut Share, call: &C) -> C::Reply
    ensures { Answers (AsksEither (C.does call.now) (C.does_held call.now))
        (C.says call.now result) (Some share.old) (Some share.new) }
{
    match share {
        Share::Seat(seat) => call.reply(ask_seat(seat, call)),
        Share::Session(session) => call.reply(call.ask_in_session(session)),
        Share::RecordedSeat(seat) => call.reply(ask_recorded_seat(seat, call)),
        _ => call.no_seat(),
    }
}

/// Looks the key up at the seat of the handle, where it has one, or in its session, and writes the
/// words of its object into the room, where there is enough.
#[inline(always)]
pub(crate) fn look_up_at_seat(
    alloc: Global,
    handle: &mut ShareHandle,
    key: &Key,
    room: &mut [RawWord],
) -> WordsReply
    ensures { GetsKey handle.old.share key.now room.old result room.new handle.new.share }
{
    let Some(mut share) = replace(handle, ShareHandle::none()).into_box(alloc) else {
        return WordsReply {
            status: NO_CORE,
            len: 0,
        };
    };
    let says = look_up_at_share(&mut *share, key, room);
    *handle = ShareHandle::of(share);
    says
}

// The same of what is shared.
#[inline(always)]
fn look_up_at_share(share: &mut Share, key: &Key, room: &mut [RawWord]) -> WordsReply
    ensures { GetsKey (Some share.old) key.now room.old result room.new (Some share.new) }
{
    match share {
        Share::Seat(seat) => look_up(seat, key, room),
        Share::Session(session) => look_up_in_session(session, key, room),
        Share::RecordedSeat(seat) => look_up_recorded(seat, key, room),
        _ => not_looked(NO_CORE),
    }
}

// The same of a session.
#[inline(always)]
fn look_up_in_session(shared: &mut SharedSession, key: &Key, room: &mut [RawWord]) -> WordsReply
    ensures arena { shared.new.session.arena ≡ shared.old.session.arena }
    ensures does { (answer : _) × GetsHeld key.now (held shared.old) answer (held shared.new)
        × SaysGot room.old result room.new (Some answer) }
{
    let most = room.len();
    let answer = shared.session.try_get(key, room);
    looked_reply(most, answer)
}

impl SessionCall for Stay {
    type Reply = u32;

    ghost does_held = { λ call. AtHeldSeat Stays };

    ghost says = { λ call. SaysInstead call.status };

    fn ask_in_session(&self, _shared: &mut SharedSession) {}

    fn reply(&self, _answer: ()) -> u32 {
        self.status
    }

    fn no_seat(&self) -> u32 {
        NO_CORE
    }
}

impl SessionCall for Put<'_> {
    type Reply = PutReply;

    ghost does_held = { λ call. PutsHeld call.words.now };

    ghost says = { λ call. SaysPut };

    #[inline(always)]
    fn ask_in_session(&self, shared: &mut SharedSession) -> Result<Result<Issued, PutError>, Busy> {
        Ok(shared.session.put(self.class, self.words))
    }

    #[inline(always)]
    fn reply(&self, answer: Result<Result<Issued, PutError>, Busy>) -> PutReply {
        match answer {
            Ok(Ok(put)) => PutReply {
                status: OK,
                key: raw_of(put.key()),
            },
            Ok(Err(error)) => not_put(put_status_of(error)),
            Err(Busy) => not_put(BUSY),
        }
    }

    fn no_seat(&self) -> PutReply {
        not_put(NO_CORE)
    }
}

impl SessionCall for Set<'_> {
    type Reply = u32;

    ghost does_held = { λ call. SetsHeld call.key call.words.now };

    ghost says = { λ call. SaysSet };

    fn ask_in_session(
        &self,
        shared: &mut SharedSession,
    ) -> Result<Result<Outcome, AllocError>, Busy> {
        shared.session.try_set(&self.key, self.words)
    }

    #[inline(always)]
    fn reply(&self, answer: Result<Result<Outcome, AllocError>, Busy>) -> u32 {
        match answer {
            Ok(Ok(set)) => done_status(&set),
            Ok(Err(AllocError)) => OUT_OF_MEMORY,
            Err(Busy) => BUSY,
        }
    }

    fn no_seat(&self) -> u32 {
        NO_CORE
    }
}

impl SessionCall for Free {
    type Reply = u32;

    ghost does_held = { λ call. FreesHeld call.key };

    ghost says = { λ call. SaysFreed };

    #[inline(always)]
    fn ask_in_session(&self, shared: &mut SharedSession) -> Result<Outcome, Busy> {
        shared.session.try_free(&self.key)
    }

    #[inline(always)]
    fn reply(&self, answer: Result<Outcome, Busy>) -> u32 {
        match answer {
            Ok(freed) => done_status(&freed),
            Err(Busy) => BUSY,
        }
    }

    fn no_seat(&self) -> u32 {
        NO_CORE
    }
}

impl SessionCall for FreeLater {
    type Reply = u32;

    ghost does_held = { λ call. AtHeldSeat (FreesLater call.key) };

    ghost says = { λ call. SaysLeft };

    #[inline(always)]
    fn ask_in_session(&self, shared: &mut SharedSession) -> Option<Result<(), Key>> {
        if !shared.session.seat.has_shard_of(&self.key) {
            return None;
        }
        Some(shared.session.free_later(self.key))
    }

    #[inline(always)]
    fn reply(&self, answer: Option<Result<(), Key>>) -> u32 {
        match answer {
            Some(Ok(())) => OK,
            Some(Err(_)) => RING_FULL,
            None => NONE,
        }
    }

    fn no_seat(&self) -> u32 {
        NO_CORE
    }
}

impl SessionCall for HandOver {
    type Reply = u32;

    ghost does_held = { λ call. AtHeldSeat HandsOver };

    ghost says = { λ call. SaysHandedOver };

    fn ask_in_session(&self, shared: &mut SharedSession) {
        shared.session.hand_over();
    }

    fn reply(&self, _answer: ()) -> u32 {
        OK
    }

    fn no_seat(&self) -> u32 {
        NO_CORE
    }
}

/// What C reads of a put that is refused.
#[inline(always)]
pub(crate) fn not_put(status: u32) -> PutReply
    ensures { result.status ≡ status }
{
    PutReply {
        status,
        key: no_key(),
    }
}

// The status that stands for a set or a free, which was done or was not.
#[inline(always)]
fn done_status(outcome: &Outcome) -> u32
    ensures { result ≡ (if outcome.now.1 then done else none) }
{
    if outcome.done() { OK } else { NONE }
}

// The status that stands for a refused put.
fn put_status_of(error: PutError) -> u32
    ensures { result ≡ put_status error }
{
    match error {
        PutError::OutOfMemory => OUT_OF_MEMORY,
        PutError::PagesSpent => PAGES_SPENT,
        PutError::Ended => ENDED,
    }
}
