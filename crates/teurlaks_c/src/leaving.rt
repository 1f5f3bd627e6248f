// A thread gives its seat back to the steward of its arena.
ghost use Rattle.std.specs.Prelude.{◌≡◌, ◌<◌, Some, vec_capacity, vec_len};
ghost use Rattle.std.specs.Arc.{arc_value};
ghost use Rattle.teurlaks_c.specs.declared.share.Share.TheVariants as shares;
ghost use Rattle.teurlaks_c.specs.Leaving.{LeavesFor, MayTake, Takes, TakesKept, TakesSeat, Weighs, WeighsSeat};

use crate::recorded::{KeptSeat, RecordedSeat, RecordedSteward};
use crate::share::{Shards, Share, SharedSeat, SharedSteward};
use crate::share_handle::ShareHandle;
use crate::status::{CONFIG, NO_CORE, OK, OUT_OF_MEMORY};
use arena::Seat;
use std::alloc::Global;
use std::mem::replace;
use std::sync::Arc;

// How often shares are counted: once more than there are other shares of seats, each of which may
// go meanwhile, once.
const COUNTS: u32 = 65;

/// Gives the seat back to the steward of its arena, which hands it out again to whoever asks next:
/// what waits at the seat is handed over, a recorded seat goes with its receipts, and its handle
/// has nothing then. The shard stays as it is, running or ended; where the seat keeps it, it goes
/// back to its lock.
///
/// `NO_CORE` where the first handle has no steward or the second no seat, `CONFIG` where the seat
/// is of another arena, and `OUT_OF_MEMORY`; nothing has changed then.
#[unsafe(no_mangle)]
pub extern "C" fn teurlaks_seat_leave(
    alloc: Global,
    handle: &mut ShareHandle,
    seat: &mut ShareHandle,
) -> u32
    ensures { LeavesFor handle.old.share seat.old.share result handle.new.share seat.new.share }
{
    let Some(mut steward) = replace(handle, ShareHandle::none()).into_box(alloc) else {
        return NO_CORE;
    };
    let says = leave_for(alloc, &mut *steward, seat);
    *handle = ShareHandle::of(steward);
    says
}

// The same, where there is a steward or another share in its place.
fn leave_for(alloc: Global, steward: &mut Share, seat: &mut ShareHandle) -> u32
    ensures { LeavesFor (Some steward.old) seat.old.share result (Some steward.new) seat.new.share }
{
    let Some(left) = replace(seat, ShareHandle::none()).into_box(alloc) else {
        return NO_CORE;
    };
    match weigh(steward, &*left) {
        Ok(()) => {
            take(steward, Box::into_inner(left));
            OK
        }
        Err(status) => {
            *seat = ShareHandle::of(left);
            status
        }
    }
}

// Makes room for the seat, if it is one of the steward's arena; or why it is not taken.
fn weigh(steward: &mut Share, left: &Share) -> Result<(), u32>
    ensures { Weighs steward.old left.now result steward.new }
{
    match steward {
        Share::Steward(steward) => weigh_seat(steward, left),
        Share::RecordedSteward(steward) => weigh_kept(steward, left),
        _ => Err(NO_CORE),
    }
}

// The same of a steward.
fn weigh_seat(steward: &mut SharedSteward, left: &Share) -> Result<(), u32>
    ensures { Weighs (shares.Steward steward.old) left.now result (shares.Steward steward.new) }
{
    match left {
        Share::Seat(seat) => make_room(steward, &seat.arena, &seat.seat),
        Share::Session(held) => make_room(steward, &held.session.arena, &held.session.seat),
        Share::RecordedSeat(_) => Err(CONFIG),
        _ => Err(NO_CORE),
    }
}

// Makes room for the seat, if it is one of the steward's arena.
fn make_room(
    steward: &mut SharedSteward,
    arena: &Arc<Shards, Global>,
    seat: &Seat,
) -> Result<(), u32>
    ensures { WeighsSeat steward.old seat.now result steward.new }
{
    if !is_one(&steward.arena, arena) || !seat.fits(&*steward.arena) {
        return Err(CONFIG);
    }
    match steward.seats.reserve(1) {
        Ok(()) => Ok(()),
        Err(_) => Err(OUT_OF_MEMORY),
    }
}

// The same as of a steward, of one of a recorded arena.
fn weigh_kept(steward: &mut RecordedSteward, left: &Share) -> Result<(), u32>
    ensures { Weighs (shares.RecordedSteward steward.old) left.now result
        (shares.RecordedSteward steward.new) }
{
    match left {
        Share::RecordedSeat(seat) => make_room_for_kept(steward, seat),
        Share::Seat(_) => Err(CONFIG),
        Share::Session(_) => Err(CONFIG),
        _ => Err(NO_CORE),
    }
}

// Makes room for the seat, if it is one of the steward's arena.
fn make_room_for_kept(steward: &mut RecordedSteward, seat: &RecordedSeat) -> Result<(), u32>
    ensures { Weighs (shares.RecordedSteward steward.old) (shares.RecordedSeat seat.now) result
        (shares.RecordedSteward steward.new) }
{
    if !is_one(&steward.arena, &seat.arena) || !seat.kept.seat.fits(&*steward.arena) {
        return Err(CONFIG);
    }
    match steward.seats.reserve(1) {
        Ok(()) => Ok(()),
        Err(_) => Err(OUT_OF_MEMORY),
    }
}

// Whether both are shares of one value, of which nobody else makes shares now: a share more of
// theirs is then one of ours. Shares that go meanwhile can hide it, each of them once. Another
// steward that is given a seat of ours makes a share of it, and deceives this. So callers compare
// places before (`places.rt`): the library has no comparison of them.
fn is_one<T: Drop>(ours: &Arc<T, Global>, theirs: &Arc<T, Global>) -> bool {
    for _ in 0..COUNTS {
        let before = Arc::strong_count(ours);
        let one_more = Arc::try_clone(theirs);
        let after = Arc::strong_count(ours);
        drop(one_more);
        if after > before {
            return true;
        }
    }
    false
}

// Takes the seat, for which there is room.
fn take(steward: &mut Share, left: Share)
    requires { MayTake steward.old left }
    ensures { Takes steward.old left steward.new }
{
    match steward {
        Share::Steward(steward) => take_seat(steward, left),
        Share::RecordedSteward(steward) => take_kept(steward, left),
        _ => unreachable!(),
    }
}

// Takes the seat, where there is a steward.
fn take_seat(steward: &mut SharedSteward, left: Share)
    requires { MayTake (shares.Steward steward.old) left }
    ensures { Takes (shares.Steward steward.old) left (shares.Steward steward.new) }
{
    match left {
        Share::Seat(SharedSeat { seat, .. }) => push_seat(steward, seat),
        Share::Session(held) => {
            let SharedSeat { seat, .. } = held.pause();
            push_seat(steward, seat);
        }
        _ => unreachable!(),
    }
}

// Takes the seat, with what waits there handed over.
fn push_seat(steward: &mut SharedSteward, left: Seat)
    requires fits { left.limits ≡ (arc_value steward.old.arena).limits }
    requires room { vec_len steward.old.seats < vec_capacity steward.old.seats }
    ensures { TakesSeat steward.old left steward.new }
{
    let mut seat = left;
    seat.hand_over();
    steward.seats.push_reserved(seat);
}

// The same as of a steward, of one of a recorded arena.
fn take_kept(steward: &mut RecordedSteward, left: Share)
    requires { MayTake (shares.RecordedSteward steward.old) left }
    ensures { Takes (shares.RecordedSteward steward.old) left
        (shares.RecordedSteward steward.new) }
{
    match left {
        Share::RecordedSeat(seat) => push_kept(steward, seat),
        _ => unreachable!(),
    }
}

// Takes the seat, with what waits there handed over.
fn push_kept(steward: &mut RecordedSteward, left: RecordedSeat)
    requires fits { left.kept.seat.limits ≡ (arc_value steward.old.arena).limits }
    requires room { vec_len steward.old.seats < vec_capacity steward.old.seats }
    ensures { TakesKept steward.old left steward.new }
{
    let RecordedSeat { kept, .. } = left;
    let KeptSeat { mut seat, receipts } = kept;
    seat.hand_over();
    steward.seats.push_reserved(KeptSeat { seat, receipts });
}
