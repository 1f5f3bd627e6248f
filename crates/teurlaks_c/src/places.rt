// Where the arena of a seat or a steward stands, by which a caller tells arenas apart.
ghost use Rattle.std.specs.Prelude.{◌≡◌, Some};
ghost use Rattle.teurlaks_c.specs.Leaving.{seat_status, steward_status};

use crate::replies::RawPlace;
use crate::share::Share;
use crate::share_handle::ShareHandle;
use crate::status::{NO_CORE, OK};
use std::alloc::Global;
use std::mem::replace;
use std::sync::Arc;

/// Writes where the arena of the seat stands to `out`, to be compared and for nothing else. A
/// handle with a share of an arena keeps it there, so two handles are of one arena exactly if these
/// places are the same.
///
/// `NO_CORE` if the handle has no seat, and nothing was written then.
#[unsafe(no_mangle)]
pub extern "C" fn teurlaks_seat_arena(
    alloc: Global,
    handle: &mut ShareHandle,
    out: &mut RawPlace,
) -> u32
    ensures same { handle.new.share ≡ handle.old.share }
    ensures status { result ≡ seat_status handle.old.share }
    ensures kept { (result ≡ 0 → ⊥) → out.new ≡ out.old }
{
    let Some(share) = replace(handle, ShareHandle::none()).into_box(alloc) else {
        return NO_CORE;
    };
    let says = seat_arena_of(&*share, out);
    *handle = ShareHandle::of(share);
    says
}

/// What `teurlaks_seat_arena` does, of a steward.
#[unsafe(no_mangle)]
pub extern "C" fn teurlaks_steward_arena(
    alloc: Global,
    handle: &mut ShareHandle,
    out: &mut RawPlace,
) -> u32
    ensures same { handle.new.share ≡ handle.old.share }
    ensures status { result ≡ steward_status handle.old.share }
    ensures kept { (result ≡ 0 → ⊥) → out.new ≡ out.old }
{
    let Some(share) = replace(handle, ShareHandle::none()).into_box(alloc) else {
        return NO_CORE;
    };
    let says = steward_arena_of(&*share, out);
    *handle = ShareHandle::of(share);
    says
}

// The same of what is shared, if it is a seat.
fn seat_arena_of(share: &Share, out: &mut RawPlace) -> u32
    ensures status { result ≡ seat_status (Some share.now) }
    ensures kept { (result ≡ 0 → ⊥) → out.new ≡ out.old }
{
    match share {
        Share::Seat(seat) => tell(&seat.arena, out),
        Share::Session(held) => tell(&held.session.arena, out),
        Share::RecordedSeat(seat) => tell(&seat.arena, out),
        _ => NO_CORE,
    }
}

// The same, if it is a steward.
fn steward_arena_of(share: &Share, out: &mut RawPlace) -> u32
    ensures status { result ≡ steward_status (Some share.now) }
    ensures kept { (result ≡ 0 → ⊥) → out.new ≡ out.old }
{
    match share {
        Share::Steward(steward) => tell(&steward.arena, out),
        Share::RecordedSteward(steward) => tell(&steward.arena, out),
        _ => NO_CORE,
    }
}

// Writes where the arena stands. No clause can name a place, and so none says that the right one is
// written: that is tested.
fn tell<T: Drop>(arena: &Arc<T, Global>, out: &mut RawPlace) -> u32
    ensures { result ≡ 0 }
{
    *out = RawPlace {
        at: Arc::as_ptr(arena) as *const u8,
    };
    OK
}
