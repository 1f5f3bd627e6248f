// The calls of a seat that a recorded arena keeps receipts of.
ghost use Rattle.std.specs.Prelude.{◌≡◌, ◌<◌, ◌≤◌, ℕ, IfSome, List, Some, length};
ghost use Rattle.arena.specs.Seats.{SeatState};
ghost use Rattle.span.specs.ReceiptLists.{kept_receipts, receipt_room, receipt_word_room};
ghost use Rattle.span.specs.declared.receipt.Receipt.{Receipt};
ghost use Rattle.teurlaks_c.specs.Calls.{SaysWords};
ghost use Rattle.teurlaks_c.specs.SeatCalls.{AsksTend, AsksTold, Gets, OrNoRoom, SaysGotOrNoRoom, TendsInto, frees_kept, got_kept, puts_kept, sets_kept};
ghost use Rattle.teurlaks_c.specs.Recorded.{AddsTold, Answers, DoesKept, asked_of};
ghost use Rattle.teurlaks_c.specs.Status.{out_of_memory};

use crate::calls::tell;
use crate::recorded::RecordedSeat;
use crate::replies::{PutReply, RawWord, WordsReply};
use crate::seat_calls::{Free, Put, Set, Tend, ask_paused, ask_seat, not_looked};
use crate::session_calls::{SessionCall, not_put};
use crate::share::Share;
use crate::share_handle::ShareHandle;
use crate::status::{BUSY, OUT_OF_MEMORY};
use arena::{Busy, Tended};
use span::names::{Key, Object};
use span::receipts::{Receipt, ReceiptList};
use std::alloc::{AllocError, Global};
use std::mem::replace;

/// How many words the object of a receipt has at most.
const MOST_WORDS: usize = 16;

/// A call of which a recorded seat keeps a receipt.
pub(crate) trait ToldCall: SessionCall + Copy {
    /// The receipts of what was answered at a seat.
    ghost told: { Self → SeatState → Self.Answer → List Receipt };

    /// The status of what C reads.
    ghost status: { Self.Reply → ℕ };

    /// Keeps the receipt of what the worker was answered in the section, if there is one, in room
    /// that was made for it.
    // A receipt has room for an object, and is not handed on by value.
    fn keep(&self, worker: u32, section: u64, answer: &Self::Answer, receipts: &mut ReceiptList)
        requires answered { (before : SeatState) × (after : SeatState)
            × Self.does self.now before answer.now after }
        requires room { 0 < receipt_room receipts.old }
        requires words { MOST_WORDS ≤ receipt_word_room receipts.old }
        ensures { AddsTold (told self.now) worker section answer.now
            (kept_receipts receipts.old) (kept_receipts receipts.new) };

    /// What C reads where there is no room for the receipt.
    fn no_room(&self) -> Self::Reply
        ensures { status result ≡ out_of_memory };
}

/// Asks the seat of the handle, where it has one, in its session, where it keeps its shard, and
/// makes what C reads of it. A recorded seat makes room for the receipt first, and keeps it; where
/// it was refused that room, nothing is asked.
#[inline(always)]
pub(crate) fn tell_at_seat<C: ToldCall>(
    alloc: Global,
    handle: &mut ShareHandle,
    call: &C,
) -> C::Reply
    ensures { Answers (AsksTold (C.does call.now) (C.does_held call.now) (C.told call.now))
        (OrNoRoom (C.status result) (C.says call.now result)) handle.old.share handle.new.share }
{
    let Some(mut share) = replace(handle, ShareHandle::none()).into_box(alloc) else {
        return call.no_seat();
    };
    let reply = tell_at_share(&mut *share, call);
    *handle = ShareHandle::of(share);
    reply
}

// The same of what is shared.
#[inline(always)]
fn tell_at_share<C: ToldCall>(share: &mut Share, call: &C) -> C::Reply
    ensures { Answers (AsksTold (C.does call.now) (C.does_held call.now) (C.told call.now))
        (OrNoRoom (C.status result) (C.says call.now result)) (Some share.old) (Some share.new) }
{
    match share {
        Share::Seat(seat) => call.reply(ask_seat(seat, call)),
        Share::Session(session) => call.reply(call.ask_in_session(session)),
        Share::RecordedSeat(seat) => tell_at_recorded(seat, call),
        _ => call.no_seat(),
    }
}

// The same of a recorded seat. What the call and its answer take in memory is there for such a seat
// alone, and stays out of the way of others.
#[inline(always)]
fn tell_at_recorded<C: ToldCall>(shared: &mut RecordedSeat, call: &C) -> C::Reply
    ensures arena { shared.new.arena ≡ shared.old.arena }
    ensures does { Answers (DoesKept (C.does call.now) (C.told call.now)) (λ got. OrNoRoom
        (C.status result) (C.says call.now result) (asked_of got)) shared.old.kept shared.new.kept }
{
    let answer = tell_recorded(shared, *call);
    told_reply(call, answer)
}

// Asks a recorded seat, which keeps the receipt, in room that is made first.
#[inline(never)]
fn tell_recorded<C: ToldCall>(shared: &mut RecordedSeat, call: C) -> Result<C::Answer, AllocError>
    ensures arena { shared.new.arena ≡ shared.old.arena }
    ensures does { DoesKept (C.does call) (C.told call) shared.old.kept result shared.new.kept }
{
    shared.kept.receipts.reserve(1, MOST_WORDS)?;
    let (worker, section) = (shared.kept.seat.worker(), shared.kept.seat.section());
    let answer = call.ask(&mut shared.kept.seat, &*shared.arena);
    call.keep(worker, section, &answer, &mut shared.kept.receipts);
    Ok(answer)
}

// What C reads of what a recorded seat answers.
#[inline(always)]
fn told_reply<C: ToldCall>(call: &C, answer: Result<C::Answer, AllocError>) -> C::Reply
    ensures { OrNoRoom (C.status result) (C.says call.now result) (asked_of answer) }
{
    match answer {
        Ok(answer) => call.reply(answer),
        Err(AllocError) => call.no_room(),
    }
}

impl ToldCall for Put<'_> {
    ghost told = { λ call. puts_kept call.words.now };

    ghost status = { λ reply. reply.status };

    fn keep(&self, worker: u32, section: u64, answer: &Self::Answer, receipts: &mut ReceiptList) {
        if let Ok(Ok(put)) = answer {
            let value = Object::of(self.class, self.words);
            receipts.push_reserved(&put.receipt(worker, section, value));
        }
    }

    fn no_room(&self) -> PutReply {
        not_put(OUT_OF_MEMORY)
    }
}

impl ToldCall for Set<'_> {
    ghost told = { λ call. sets_kept call.words.now };

    ghost status = { λ reply. reply };

    fn keep(&self, worker: u32, section: u64, answer: &Self::Answer, receipts: &mut ReceiptList) {
        if let Ok(Ok(set)) = answer {
            let value = Object::from_words(self.words);
            receipts.push_reserved(&set.set_receipt(worker, section, &self.key, value));
        }
    }

    fn no_room(&self) -> u32 {
        OUT_OF_MEMORY
    }
}

impl ToldCall for Free {
    ghost told = { λ call. frees_kept };

    ghost status = { λ reply. reply };

    fn keep(&self, worker: u32, section: u64, answer: &Self::Answer, receipts: &mut ReceiptList) {
        if let Ok(freed) = answer {
            receipts.push_reserved(&freed.free_receipt(worker, section, &self.key));
        }
    }

    fn no_room(&self) -> u32 {
        OUT_OF_MEMORY
    }
}

/// Looks the key up at a recorded seat, which keeps the receipt, and writes the words of its object
/// into the room, where there is enough.
#[inline(never)]
pub(crate) fn look_up_recorded(
    shared: &mut RecordedSeat,
    key: &Key,
    room: &mut [RawWord],
) -> WordsReply
    ensures arena { shared.new.arena ≡ shared.old.arena }
    ensures does { Answers (DoesKept (Gets key.now) got_kept) (λ got. SaysGotOrNoRoom
        room.old result room.new (asked_of got)) shared.old.kept shared.new.kept }
{
    let answer = got_recorded(shared, key);
    got_reply(answer, room)
}

// What C reads of a look-up at a recorded seat, with the words of what was found in the room where
// there is enough.
fn got_reply(
    answer: Result<Result<(Option<Object>, Receipt), Busy>, AllocError>,
    room: &mut [RawWord],
) -> WordsReply
    ensures { SaysGotOrNoRoom room.old result room.new (asked_of answer) }
{
    match answer {
        Ok(Ok((found, _))) => tell_found(&found, room),
        Ok(Err(Busy)) => not_looked(BUSY),
        Err(AllocError) => not_looked(OUT_OF_MEMORY),
    }
}

// Looks the key up, and keeps the receipt, in room that is made first.
fn got_recorded(
    shared: &mut RecordedSeat,
    key: &Key,
) -> Result<Result<(Option<Object>, Receipt), Busy>, AllocError>
    ensures arena { shared.new.arena ≡ shared.old.arena }
    ensures does { DoesKept (Gets key.now) got_kept shared.old.kept result shared.new.kept }
{
    shared.kept.receipts.reserve(1, MOST_WORDS)?;
    let (worker, section) = (shared.kept.seat.worker(), shared.kept.seat.section());
    let mut room = [0; MOST_WORDS];
    let Ok(looked) = shared.kept.seat.try_get(&*shared.arena, key, &mut room) else {
        return Ok(Err(Busy));
    };
    let found = looked.object(&room);
    let receipt = looked.receipt(worker, section, key, &found);
    have_few_words(&found);
    shared.kept.receipts.push_reserved(&receipt);
    Ok(Ok((found, receipt)))
}

// For the prover: an object has 16 words at most. Does nothing when it runs.
fn have_few_words(found: &Option<Object>)
    ensures { IfSome found.now (λ words. length words ≤ MOST_WORDS) }
{
    if let Some(object) = found {
        let _class = object.class();
    }
}

// What was found, as C has it, with its words in the room where there is enough.
fn tell_found(found: &Option<Object>, room: &mut [RawWord]) -> WordsReply
    ensures { SaysWords room.old result room.new found.now }
{
    match found {
        Some(object) => tell(Some(object.words()), room),
        None => tell(None, room),
    }
}

/// Has the seat of the handle tend its rings, where it has one. Where it keeps its shard it gives
/// that back before, and keeps it no more. Of the frees a recorded seat keeps receipts.
pub(crate) fn tend_at_seat(
    alloc: Global,
    handle: &mut ShareHandle,
) -> Option<Result<Tended, AllocError>>
    ensures { AsksTend handle.old.share result handle.new.share }
{
    let Some(mut share) = replace(handle, ShareHandle::none()).into_box(alloc) else {
        return None;
    };
    let answer = tend_at_share(&mut *share);
    *handle = ShareHandle::of(share);
    answer
}

// The same of what is shared.
fn tend_at_share(share: &mut Share) -> Option<Result<Tended, AllocError>>
    ensures { AsksTend (Some share.old) result (Some share.new) }
{
    match share {
        Share::Seat(seat) => Some(ask_seat(seat, &Tend)),
        Share::Session(_) => Some(ask_paused(share, &Tend)),
        Share::RecordedSeat(seat) => Some(tend_recorded(seat)),
        _ => None,
    }
}

// Tends the rings of a recorded seat, and keeps the receipts.
fn tend_recorded(shared: &mut RecordedSeat) -> Result<Tended, AllocError>
    ensures arena { shared.new.arena ≡ shared.old.arena }
    ensures does { TendsInto (kept_receipts shared.old.kept.receipts) shared.old.kept.seat result
        shared.new.kept.seat (kept_receipts shared.new.kept.receipts) }
{
    shared
        .kept
        .seat
        .try_tend(&*shared.arena, &mut shared.kept.receipts)
}
