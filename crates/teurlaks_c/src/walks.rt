// Walks over the live keys of an arena, beside the threads that change them.
ghost use Rattle.std.specs.Prelude.{◌≡◌, MatchOption, None, Some};
ghost use Rattle.teurlaks_c.specs.SeatCalls.{AsksPaused};
ghost use Rattle.teurlaks_c.specs.StewardCalls.{Asks as AsksSteward};
ghost use Rattle.teurlaks_c.specs.Walks.{GoesOn, SaysWalked, WalksAtSeat, WalksAtSteward, walk_of};

use crate::calls::no_key;
use crate::keys::raw_of;
use crate::replies::{NextReply, RawWalk};
use crate::seat_calls::{SeatCall, at_seat};
use crate::share::StewardAndMark;
use crate::share_handle::ShareHandle;
use crate::status::{BUSY, NO_CORE, NONE, OK};
use crate::steward_calls::{StewardCall, at_steward};
use arena::{Arena, Busy, NoGate, Seat, Walk};
use span::names::Key;
use span::spans::Log;
use std::alloc::Global;

/// The live key of the arena that comes next in the walk, behind which the walk stands from now on;
/// all zeros are the beginning of a walk. `NONE` where it has come to its end, and `BUSY` where
/// another thread has the lock of the span that comes next: the next call goes on from there.
///
/// A walk meets no key twice, and each that is live from its beginning to its end; a key that is
/// put or freed meanwhile it may meet or not. It takes no memory, and no receipt is made of it.
#[unsafe(no_mangle)]
pub extern "C" fn teurlaks_seat_next(
    alloc: Global,
    handle: &mut ShareHandle,
    walk: &mut RawWalk,
) -> NextReply
    ensures { (answer : _) × AsksPaused (WalksAtSeat (walk_of walk.old)) handle.old.share answer
        handle.new.share × SaysWalked walk.old result walk.new answer }
{
    let call = Next {
        from: walk_from(*walk),
    };
    walked_reply(walk, at_seat(alloc, handle, &call))
}

/// What `teurlaks_seat_next` does, for the thread that has the steward.
#[unsafe(no_mangle)]
pub extern "C" fn teurlaks_steward_next(
    alloc: Global,
    handle: &mut ShareHandle,
    walk: &mut RawWalk,
) -> NextReply
    ensures { (answer : _) × AsksSteward (WalksAtSteward (walk_of walk.old)) handle.old.share
        answer handle.new.share × SaysWalked walk.old result walk.new answer }
{
    let call = Next {
        from: walk_from(*walk),
    };
    walked_reply(walk, at_steward(alloc, handle, &call))
}

// A step of the walk that stands there. It answers where the walk stands then, too.
#[derive(Drop)]
struct Next {
    from: Walk,
}

impl SeatCall for Next {
    type Answer = (Result<Option<Key>, Busy>, Walk);

    ghost does = { λ call. WalksAtSeat call.from };

    fn ask<L: Log>(
        &self,
        _seat: &mut Seat,
        arena: &Arena<NoGate, L>,
    ) -> (Result<Option<Key>, Busy>, Walk) {
        go_on(self.from, arena)
    }
}

impl StewardCall for Next {
    type Answer = (Result<Option<Key>, Busy>, Walk);

    ghost does = { λ call. WalksAtSteward call.from };

    fn ask<L: Log>(
        &self,
        arena: &Arena<NoGate, L>,
        _inner: &mut StewardAndMark,
    ) -> (Result<Option<Key>, Busy>, Walk) {
        go_on(self.from, arena)
    }
}

// A step of the walk from there, and where it stands then.
fn go_on<L: Log>(from: Walk, arena: &Arena<NoGate, L>) -> (Result<Option<Key>, Busy>, Walk)
    ensures { GoesOn from result }
{
    let mut walk = from;
    let next = walk.try_next(arena);
    (next, walk)
}

// The walk with these numbers.
fn walk_from(raw: RawWalk) -> Walk
    ensures { result ≡ walk_of raw }
{
    let RawWalk {
        shard,
        serial,
        slot,
    } = raw;
    Walk {
        shard,
        serial,
        slot,
    }
}

// What a step of a walk answers, as C has it.
fn walked_reply(walk: &mut RawWalk, answer: Option<(Result<Option<Key>, Busy>, Walk)>) -> NextReply
    ensures { SaysWalked walk.old result walk.new answer }
{
    let Some((next, to)) = answer else {
        return NextReply {
            status: NO_CORE,
            key: no_key(),
        };
    };
    let Walk {
        shard,
        serial,
        slot,
    } = to;
    *walk = RawWalk {
        shard,
        serial,
        slot,
    };
    match next {
        Ok(Some(key)) => NextReply {
            status: OK,
            key: raw_of(key),
        },
        Ok(None) => NextReply {
            status: NONE,
            key: no_key(),
        },
        Err(Busy) => NextReply {
            status: BUSY,
            key: no_key(),
        },
    }
}
