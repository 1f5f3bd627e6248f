//! The end of an arena, and the audit of what it leaves.
ghost use Rattle.std.specs.Prelude.{◌≡◌, length};
ghost use Rattle.arena.specs.Seats.{AreSeatsOf};

use crate::refusing::{Fault, MOST, Round, Rounds, refuse, was_refused};
use arena::{Arena, Finished, NoGate, Seat, Unfinished, finish};
use audit::{AuditError, audit};
use span::names::Object;
use span::receipts::ReceiptList;
use span::spans::Log;
use std::alloc::Global;
use std::sync::Wait;

// The first of two seats puts an object, and the second leaves its key to the first one's thread.
// Says whether it came to that.
fn leaves_one<R: Wait>(
    rt: &R,
    arena: &Arena<NoGate>,
    seats: &mut [Seat],
    receipts: &mut ReceiptList,
) -> bool
    requires two { length seats.old ≡ 2 }
    requires seats { AreSeatsOf arena.now.limits arena.now.table seats.old }
    ensures len { length seats.new ≡ 2 }
    ensures seats { AreSeatsOf arena.now.limits arena.now.table seats.new }
{
    if !seats[0].fits(arena) {
        return false;
    }
    let Ok((key, receipt)) = seats[0].put(rt, arena, Object::c16(5)) else {
        return false;
    };
    let is_told = receipts.push(&receipt).is_ok();
    if !seats[1].has_shard_of(&key) {
        return false;
    }
    let is_left = seats[1].free_later(key).is_ok();
    is_told & is_left
}

// Whether the key that was left came in, and the put and its free are in the log.
fn is_whole(finished: &Finished, receipts: &[ReceiptList]) -> bool {
    let (Some(log), Some(list)) = (finished.logs.first(), receipts.first()) else {
        return false;
    };
    (log.log.len(), list.len()) == (2, 2)
}

// Whether what was handed back is as it was.
fn is_as_before<R: Wait>(rt: &R, arena: &Arena<NoGate>, seats: &[Seat]) -> bool {
    let totals = arena.totals(rt);
    (totals.pages, totals.live, seats.len()) == (1, 1, 2)
}

// What an arena leaves that was handed back, and is ended once more.
fn finish_again(
    arena: Arena<NoGate>,
    seats: Vec<Seat>,
    receipts: &mut [ReceiptList],
) -> Option<Finished>
    requires { AreSeatsOf arena.limits arena.table seats.items }
{
    if seats.len() != receipts.len() {
        return None;
    }
    finish(arena, seats, receipts).ok()
}

// Audits what the arena left, whose growth of that number is refused, and then again.
fn round_of_audit(
    alloc: Global,
    finished: &Finished,
    receipts: &[ReceiptList],
    growth: u32,
) -> Round {
    refuse(alloc, growth);
    let verdict = audit(alloc, finished.logs.as_slice(), receipts);
    let refused = was_refused(alloc);
    let again = audit(alloc, finished.logs.as_slice(), receipts);
    match (refused, verdict, again) {
        (false, Ok(()), Ok(())) => Round::Done,
        (true, Err(AuditError::OutOfMemory), Ok(())) => Round::Refused,
        _ => Round::Wrong(Fault::Answer),
    }
}

// An arena ends, and its growth of that number is refused. Once none is, the audit of what it
// leaves is refused each of its own.
fn round<R: Wait>(rt: &R, alloc: Global, growth: u32, audits: &mut Rounds) -> Option<Round> {
    let Ok((arena, mut seats, _)) = Arena::open(alloc, 2, 4, 4, 9, NoGate) else {
        return None;
    };
    if seats.len() != 2 {
        return None;
    }
    let mut list = ReceiptList::new(alloc);
    if !leaves_one(rt, &arena, seats.as_mut_slice(), &mut list) {
        return None;
    }
    let mut receipts = vec![in alloc; list, ReceiptList::new(alloc)].ok()?;
    refuse(alloc, growth);
    let ended = finish(arena, seats, receipts.as_mut_slice());
    let refused = was_refused(alloc);
    match ended {
        Ok(_) if refused => Some(Round::Wrong(Fault::Answer)),
        Ok(finished) => {
            add_audits(alloc, &finished, receipts.as_slice(), audits);
            Some(Round::Done)
        }
        Err(_) if !refused => Some(Round::Wrong(Fault::Answer)),
        Err(Unfinished { arena, seats }) => {
            if !is_as_before(rt, &arena, seats.as_slice()) {
                return Some(Round::Wrong(Fault::State));
            }
            match finish_again(arena, seats, receipts.as_mut_slice()) {
                Some(finished) if is_whole(&finished, receipts.as_slice()) => Some(Round::Refused),
                _ => Some(Round::Wrong(Fault::Later)),
            }
        }
    }
}

fn add_audits(alloc: Global, finished: &Finished, receipts: &[ReceiptList], audits: &mut Rounds) {
    for growth in 1..MOST {
        if !audits.count(0, growth, round_of_audit(alloc, finished, receipts, growth)) {
            return;
        }
    }
}

fn rounds_of<R: Wait>(rt: &R, alloc: Global) -> Option<(Rounds, Rounds)> {
    let (mut ends, mut audits) = (Rounds::none(), Rounds::none());
    for growth in 1..MOST {
        let round = round(rt, alloc, growth, &mut audits)?;
        if !ends.count(0, growth, round) {
            break;
        }
    }
    Some((ends, audits))
}

#[test]
fn refuses_each(rt: HostRuntime) {
    let rounds = rounds_of(&rt, rt.alloc());
    assert!(rt;
        matches!(rounds, Some((ends, audits)) if ends.are_well() && audits.are_well()),
        "{rounds:?}"
    );
}
