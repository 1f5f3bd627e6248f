// A seat that keeps its shard over many calls.
ghost use Rattle.std.specs.Prelude.{◌≡◌, Some};
ghost use Rattle.teurlaks_c.specs.SeatCalls.{GivesShard, HoldsShard};

use crate::share::{Share, SharedSeat, SharedSession};
use crate::share_handle::ShareHandle;
use crate::status::{BUSY, CONFIG, NO_CORE, OK};
use arena::Session;
use std::alloc::Global;
use std::mem::replace;

/// Keeps the seat's shard for its thread from now on, until `teurlaks_seat_pause`: a put, and a
/// look-up, a set and a free of what is in that shard, take no lock then. Whoever else needs the
/// shard's lock is answered `BUSY` meanwhile, the steward's mark among them. Where a look-up, a set
/// or a free in the session answers `BUSY`, pause, make it again, and begin another session.
/// Refused with `BUSY` where another thread has the shard, or with `CONFIG` at a recorded seat,
/// whose calls all make receipts; nothing has changed then. Where the seat keeps its shard already
/// it is `OK`. It takes no memory.
#[unsafe(no_mangle)]
pub extern "C" fn teurlaks_seat_session(alloc: Global, handle: &mut ShareHandle) -> u32
    ensures { HoldsShard handle.old.share result handle.new.share }
{
    let Some(mut share) = replace(handle, ShareHandle::none()).into_box(alloc) else {
        return NO_CORE;
    };
    let status = hold(&mut *share);
    *handle = ShareHandle::of(share);
    status
}

/// Lets other threads at the seat's shard again, where the seat keeps it, which a recorded seat
/// never does. It takes no memory.
#[unsafe(no_mangle)]
pub extern "C" fn teurlaks_seat_pause(alloc: Global, handle: &mut ShareHandle) -> u32
    ensures { GivesShard handle.old.share result handle.new.share }
{
    let Some(mut share) = replace(handle, ShareHandle::none()).into_box(alloc) else {
        return NO_CORE;
    };
    let status = give(&mut *share);
    *handle = ShareHandle::of(share);
    status
}

// Makes what is shared a session, where that can be had.
fn hold(share: &mut Share) -> u32
    ensures { HoldsShard (Some share.old) result (Some share.new) }
{
    let (after, status) = holding(replace(share, Share::Nothing));
    *share = after;
    status
}

// What is shared, with a session where that can be had, and the status that says so.
fn holding(share: Share) -> (Share, u32)
    ensures { HoldsShard (Some share) result.1 (Some result.0) }
{
    match share {
        Share::Seat(SharedSeat { arena, seat }) => match Session::try_begin(arena, seat) {
            Ok(session) => (Share::Session(SharedSession { session }), OK),
            Err((arena, seat)) => (Share::Seat(SharedSeat { arena, seat }), BUSY),
        },
        Share::Session(session) => (Share::Session(session), OK),
        Share::RecordedSeat(seat) => (Share::RecordedSeat(seat), CONFIG),
        other => (other, NO_CORE),
    }
}

// The same of the end of a session.
fn give(share: &mut Share) -> u32
    ensures { GivesShard (Some share.old) result (Some share.new) }
{
    let (after, status) = giving(replace(share, Share::Nothing));
    *share = after;
    status
}

// What is shared, without a session, and the status that says so.
fn giving(share: Share) -> (Share, u32)
    ensures { GivesShard (Some share) result.1 (Some result.0) }
{
    match share {
        Share::Session(session) => (Share::Seat(session.pause()), OK),
        Share::Seat(seat) => (Share::Seat(seat), OK),
        Share::RecordedSeat(seat) => (Share::RecordedSeat(seat), OK),
        other => (other, NO_CORE),
    }
}
