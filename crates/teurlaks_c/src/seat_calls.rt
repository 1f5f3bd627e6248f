// What is asked of the seat of a handle, and what it answers.
ghost use Rattle.std.specs.Prelude.{◌≡◌, Some, length};
ghost use Rattle.arena.specs.Seats.{SeatState};
ghost use Rattle.span.specs.Classes.{IsObject, width_of};
ghost use Rattle.teurlaks_c.specs.SessionCalls.{AtPaused, HasSession};
ghost use Rattle.teurlaks_c.specs.SeatCalls.{AsksPaused, Ends, Frees, FreesLater, Gathers, Gets, HandsOver, IsOneCall, PutsWithoutReceipt, Retires, SaysGot, SaysLooked, Sets, Stays, Tends, free_told, set_told};

use crate::recorded::RecordedSeat;
use crate::replies::{RawWord, WordsReply};
use crate::share::{Share, SharedSeat};
use crate::share_handle::ShareHandle;
use crate::status::{BUSY, NONE, OK, TOO_SMALL};
use arena::{Arena, Busy, Dropped, Issued, Looked, NoGate, Outcome, Seat, Tended};
use pool::{AdoptError, ReceiveError};
use shard::PutError;
use span::names::{Class, Key, SpanId};
use span::spans::Log;
use std::alloc::{AllocError, Global};
use std::mem::replace;

/// A call of a seat.
pub(crate) trait SeatCall {
    /// What the seat answers.
    type Answer;

    /// What it does.
    ghost does: { Self → SeatState → Self.Answer → SeatState → Type 0 };

    /// Makes the call.
    fn ask<L: Log>(&self, seat: &mut Seat, arena: &Arena<NoGate, L>) -> Self::Answer
        requires { seat.old.limits ≡ arena.now.limits }
        ensures limits { seat.new.limits ≡ seat.old.limits }
        ensures does { does self.now seat.old result seat.new };
}

/// Asks the seat of the handle, where it has one, what no receipt is made of. Where it keeps its
/// shard it gives that back before, and keeps it no more.
#[inline(always)]
pub(crate) fn at_seat<C: SeatCall>(
    alloc: Global,
    handle: &mut ShareHandle,
    call: &C,
) -> Option<C::Answer>
    ensures { AsksPaused (C.does call.now) handle.old.share result handle.new.share }
{
    let Some(mut share) = replace(handle, ShareHandle::none()).into_box(alloc) else {
        return None;
    };
    let answer = ask_share(&mut *share, call);
    *handle = ShareHandle::of(share);
    answer
}

// Asks the seat, where that is what is shared.
#[inline(always)]
fn ask_share<C: SeatCall>(share: &mut Share, call: &C) -> Option<C::Answer>
    ensures { AsksPaused (C.does call.now) (Some share.old) result (Some share.new) }
{
    match share {
        Share::Seat(seat) => Some(ask_seat(seat, call)),
        Share::Session(_) => Some(ask_paused(share, call)),
        Share::RecordedSeat(seat) => Some(ask_recorded_seat(seat, call)),
        _ => None,
    }
}

/// Asks the seat of a session, which is over then.
pub(crate) fn ask_paused<C: SeatCall>(share: &mut Share, call: &C) -> C::Answer
    requires { HasSession (Some share.old) }
    ensures { AtPaused (C.does call.now) (Some share.old) result (Some share.new) }
{
    let Share::Session(session) = replace(share, Share::Nothing) else {
        unreachable!()
    };
    let mut seat = session.pause();
    let answer = ask_seat(&mut seat, call);
    *share = Share::Seat(seat);
    answer
}

/// Asks the seat.
#[inline(always)]
pub(crate) fn ask_seat<C: SeatCall>(shared: &mut SharedSeat, call: &C) -> C::Answer
    ensures arena { shared.new.arena ≡ shared.old.arena }
    ensures does { C.does call.now shared.old.seat result shared.new.seat }
{
    call.ask(&mut shared.seat, &*shared.arena)
}

/// Asks the seat of a recorded arena, which makes no receipt.
pub(crate) fn ask_recorded_seat<C: SeatCall>(shared: &mut RecordedSeat, call: &C) -> C::Answer
    ensures arena { shared.new.arena ≡ shared.old.arena }
    ensures receipts { shared.new.kept.receipts ≡ shared.old.kept.receipts }
    ensures does { C.does call.now shared.old.kept.seat result shared.new.kept.seat }
{
    call.ask(&mut shared.kept.seat, &*shared.arena)
}

/// What C reads where nothing was looked up.
pub(crate) fn not_looked(status: u32) -> WordsReply
    ensures { (result.status ≡ status) × (result.len ≡ 0) }
{
    WordsReply { status, len: 0 }
}

/// Looks the key up at the seat, and writes the words of its object into the room, where there is
/// enough.
#[inline(always)]
pub(crate) fn look_up(shared: &mut SharedSeat, key: &Key, room: &mut [RawWord]) -> WordsReply
    ensures arena { shared.new.arena ≡ shared.old.arena }
    ensures does { (answer : _) × Gets key.now shared.old.seat answer shared.new.seat
        × SaysGot room.old result room.new (Some answer) }
{
    let most = room.len();
    let answer = shared.seat.try_get(&*shared.arena, key, room);
    looked_reply(most, answer)
}

/// What C reads of a look-up, where there is room for so many words.
#[inline(always)]
pub(crate) fn looked_reply(most: usize, answer: Result<Looked, Busy>) -> WordsReply
    ensures { SaysLooked most result answer }
{
    let Ok(looked) = answer else {
        return not_looked(BUSY);
    };
    match looked.word_count() {
        Some(len) => WordsReply {
            status: if len <= most { OK } else { TOO_SMALL },
            len,
        },
        None => not_looked(NONE),
    }
}

/// Nothing, where what is asked for names no key or no object, which the status says.
#[derive(Drop)]
pub(crate) struct Stay {
    pub(crate) status: u32,
}

impl SeatCall for Stay {
    type Answer = ();

    ghost does = { λ call. Stays };

    fn ask<L: Log>(&self, _seat: &mut Seat, _arena: &Arena<NoGate, L>) {}
}

/// A put of the object of these words.
#[derive(Clone, Copy)]
pub(crate) struct Put<'a> {
    pub(crate) class: Class,
    pub(crate) words: &'a [u128],
    pub(crate) ghost width: { length words.now ≡ width_of class },
}

impl SeatCall for Put<'_> {
    type Answer = Result<Result<Issued, PutError>, Busy>;

    ghost does = { λ call. PutsWithoutReceipt call.words.now };

    #[inline(always)]
    fn ask<L: Log>(
        &self,
        seat: &mut Seat,
        arena: &Arena<NoGate, L>,
    ) -> Result<Result<Issued, PutError>, Busy> {
        seat.try_put(arena, self.class, self.words)
    }
}

/// A set of the key to the object of these words, in place.
#[derive(Clone, Copy)]
pub(crate) struct Set<'a> {
    pub(crate) key: Key,
    pub(crate) words: &'a [u128],
    pub(crate) ghost object: { IsObject words.now },
}

impl SeatCall for Set<'_> {
    type Answer = Result<Result<Outcome, AllocError>, Busy>;

    ghost does = { λ call before answer after. Sets call.key call.words.now before
        (set_told call.words.now before answer) after };

    fn ask<L: Log>(
        &self,
        seat: &mut Seat,
        arena: &Arena<NoGate, L>,
    ) -> Result<Result<Outcome, AllocError>, Busy> {
        seat.try_set(arena, &self.key, self.words)
    }
}

/// A free of the key.
#[derive(Clone, Copy)]
pub(crate) struct Free {
    pub(crate) key: Key,
}

impl SeatCall for Free {
    type Answer = Result<Outcome, Busy>;

    ghost does = { λ call before answer after. Frees call.key before
        (free_told before answer) after };

    #[inline(always)]
    fn ask<L: Log>(&self, seat: &mut Seat, arena: &Arena<NoGate, L>) -> Result<Outcome, Busy> {
        seat.try_free(arena, &self.key)
    }
}

/// The end of the seat's shard.
#[derive(Drop)]
pub(crate) struct End;

impl SeatCall for End {
    type Answer = Result<Result<(), ReceiveError>, Busy>;

    ghost does = { λ call. Ends };

    fn ask<L: Log>(
        &self,
        seat: &mut Seat,
        arena: &Arena<NoGate, L>,
    ) -> Result<Result<(), ReceiveError>, Busy> {
        seat.try_end(arena)
    }
}

/// A begin of the seat's shard after its end.
#[derive(Drop)]
pub(crate) struct Begin;

impl SeatCall for Begin {
    /// Whether it had ended.
    type Answer = Result<bool, Busy>;

    ghost does = { λ call. IsOneCall };

    fn ask<L: Log>(&self, seat: &mut Seat, arena: &Arena<NoGate, L>) -> Result<bool, Busy> {
        seat.try_begin(arena)
    }
}

/// A retirement of up to that many groups.
#[derive(Drop)]
pub(crate) struct Retire {
    pub(crate) most: usize,
}

impl SeatCall for Retire {
    type Answer = Result<Result<usize, ReceiveError>, Busy>;

    ghost does = { λ call. Retires call.most };

    fn ask<L: Log>(
        &self,
        seat: &mut Seat,
        arena: &Arena<NoGate, L>,
    ) -> Result<Result<usize, ReceiveError>, Busy> {
        seat.try_retire(arena, self.most)
    }
}

/// A trim of the seat's shard.
#[derive(Drop)]
pub(crate) struct Trim;

impl SeatCall for Trim {
    type Answer = Result<usize, Busy>;

    ghost does = { λ call. IsOneCall };

    fn ask<L: Log>(&self, seat: &mut Seat, arena: &Arena<NoGate, L>) -> Result<usize, Busy> {
        seat.try_trim(arena)
    }
}

/// A gathering of up to that many groups of the seat's shard.
#[derive(Drop)]
pub(crate) struct Gather {
    pub(crate) from: usize,
    pub(crate) most: usize,
}

impl SeatCall for Gather {
    type Answer = Result<Result<usize, AllocError>, Busy>;

    ghost does = { λ call. Gathers call.most };

    fn ask<L: Log>(
        &self,
        seat: &mut Seat,
        arena: &Arena<NoGate, L>,
    ) -> Result<Result<usize, AllocError>, Busy> {
        seat.try_gather(arena, self.from, self.most)
    }
}

/// An adoption of a group of the pool.
#[derive(Drop)]
pub(crate) struct Adopt;

impl SeatCall for Adopt {
    type Answer = Result<Result<SpanId, AdoptError>, Busy>;

    ghost does = { λ call. IsOneCall };

    fn ask<L: Log>(
        &self,
        seat: &mut Seat,
        arena: &Arena<NoGate, L>,
    ) -> Result<Result<SpanId, AdoptError>, Busy> {
        seat.try_adopt(arena)
    }
}

/// A deferred free of the key.
#[derive(Drop)]
pub(crate) struct FreeLater {
    pub(crate) key: Key,
}

impl SeatCall for FreeLater {
    /// None where the arena has no such shard.
    type Answer = Option<Result<(), Key>>;

    ghost does = { λ call. FreesLater call.key };

    #[inline(always)]
    fn ask<L: Log>(&self, seat: &mut Seat, _arena: &Arena<NoGate, L>) -> Option<Result<(), Key>> {
        if !seat.has_shard_of(&self.key) {
            return None;
        }
        Some(seat.free_later(self.key))
    }
}

/// A hand-over of the keys that wait.
#[derive(Drop)]
pub(crate) struct HandOver;

impl SeatCall for HandOver {
    type Answer = ();

    ghost does = { λ call. HandsOver };

    fn ask<L: Log>(&self, seat: &mut Seat, _arena: &Arena<NoGate, L>) {
        seat.hand_over();
    }
}

/// A tending of the seat's rings, whose receipts are dropped.
#[derive(Drop)]
pub(crate) struct Tend;

impl SeatCall for Tend {
    type Answer = Result<Tended, AllocError>;

    ghost does = { λ call. Tends };

    fn ask<L: Log>(&self, seat: &mut Seat, arena: &Arena<NoGate, L>) -> Result<Tended, AllocError> {
        let mut receipts = Dropped::new();
        seat.try_tend(arena, &mut receipts)
    }
}
