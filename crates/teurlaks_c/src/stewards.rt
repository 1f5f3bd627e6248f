// An arena from its beginning to its end, and the calls of its steward.
ghost use Rattle.std.specs.Prelude.{◌≡◌, ◌↔◌, ◌⊎◌, IfErr, IfOk, IsSome, MatchBool, None, Some};
ghost use Rattle.std.specs.Arc.{arc_value};
ghost use Rattle.teurlaks_c.specs.declared.share.SharedSeat.{SharedSeat};
ghost use Rattle.teurlaks_c.specs.declared.share.Share.TheVariants as shares;
ghost use Rattle.marks.specs.Numbers.{AreWithin, limits_of};
ghost use Rattle.teurlaks_c.specs.Numbers.{limits_given, limits_with};
ghost use Rattle.teurlaks_c.specs.Status.{config, has_core, mark_status, no_core, out_of_memory, status_of_outcome};
ghost use Rattle.teurlaks_c.specs.SeatCalls.{SaysGathered};
ghost use Rattle.teurlaks_c.specs.StewardCalls.{Asks, Closes, ForgetsAll, GathersPooled, HandsBoxed, HandsOutBoxed, HandsOutOf, HasNewArena, Keeps, LeavesSeat, Marks, SaysClosed, SaysForgotten, SaysMarked, SaysStepped, SaysTotals, TakesStep, WritesLast};

use crate::keys::raw_span;
use crate::limits::limits_for;
use crate::meshing::{unmarked, unstepped, write_last};
use crate::recorded_stewards::kept_seat_of;
use crate::replies::{
    ArenaTotalsReply, CertificateReply, ForgetReply, GatherReply, MarkReply, StepReply,
};
use crate::seats::gathered_reply;
use crate::share::{Shards, Share, SharedSeat, SharedSteward, StewardAndMark};
use crate::share_handle::ShareHandle;
use crate::status::{
    BUSY, CONFIG, EMPTIED, HAS_CORE, NO_CORE, NO_PAIR_LEFT, NO_PLAN, NONE, OK, OUT_OF_MEMORY,
    PLAN_OPEN, RECORDED, TOO_MANY,
};
use crate::steward_calls::{Close, CountAll, GatherPool, Mark, MarkSome, Step, at_steward};
use arena::{Arena, Busy, NoGate, PlanOpen, Seat, Stepped, Totals};
use bitmap::SLOTS;
use fold::Step as Outcome;
use marks::{Limits, MarkError};
use span::names::MOST_SPANS;
use std::alloc::{AllocError, AllocFailed, Global};
use std::mem::replace;
use std::sync::Arc;

/// Leaves the steward of a new arena to the handle, which has nothing yet: of `shards` shards, 1 to
/// 64, each of up to `page_limit` pages of 4,096 bytes, 1 to 1,048,576, with rings of
/// `ring_capacity` keys, 1 to 1,024, each slot of which is given the generations from 1 to `gens`,
/// at least 1. A shard may open as many spans as there are serials. The steward has a seat for each
/// shard, to be given to threads.
///
/// `HAS_CORE` comes exactly where the handle has a seat or a steward already. Where it has none,
/// `CONFIG` comes exactly where a number is out of its range, and `OUT_OF_MEMORY` only where each
/// is within it. Where the status is not `OK` the handle is as it was.
#[unsafe(no_mangle)]
pub extern "C" fn teurlaks_arena_open(
    alloc: Global,
    out: &mut ShareHandle,
    shards: u32,
    page_limit: u32,
    ring_capacity: u32,
    gens: u32,
) -> u32
    ensures ok { result ≡ 0
        → HasNewArena (limits_of shards page_limit ring_capacity gens) out.new.share }
    ensures refused { (result ≡ 0 → ⊥) → out.new.share ≡ out.old.share }
    ensures config { out.old.share ≡ None → (result ≡ config)
        ↔ (AreWithin (limits_of shards page_limit ring_capacity gens) → ⊥) }
    ensures taken { (result ≡ has_core) ↔ IsSome out.old.share }
{
    teurlaks_arena_open_with_spans(
        alloc,
        out,
        shards,
        page_limit,
        MOST_SPANS,
        ring_capacity,
        gens,
    )
}

/// As `teurlaks_arena_open`, of an arena each shard of which opens up to `span_limit` spans in its
/// life, 1 to 4,294,967,295: so no key has another serial than one below that.
#[unsafe(no_mangle)]
pub extern "C" fn teurlaks_arena_open_with_spans(
    alloc: Global,
    out: &mut ShareHandle,
    shards: u32,
    page_limit: u32,
    span_limit: u32,
    ring_capacity: u32,
    gens: u32,
) -> u32
    ensures ok { result ≡ 0 → HasNewArena
        (limits_given shards page_limit span_limit ring_capacity gens) out.new.share }
    ensures refused { (result ≡ 0 → ⊥) → out.new.share ≡ out.old.share }
    ensures config { out.old.share ≡ None → (result ≡ config)
        ↔ (AreWithin (limits_given shards page_limit span_limit ring_capacity gens) → ⊥) }
    ensures taken { (result ≡ has_core) ↔ IsSome out.old.share }
{
    teurlaks_arena_open_with_slots(
        alloc,
        out,
        shards,
        page_limit,
        span_limit,
        SLOTS as u32,
        ring_capacity,
        gens,
    )
}

/// As `teurlaks_arena_open_with_spans`, of an arena whose puts take only the lowest `slot_limit`
/// slots of a page, 1 to 256.
#[unsafe(no_mangle)]
pub extern "C" fn teurlaks_arena_open_with_slots(
    alloc: Global,
    out: &mut ShareHandle,
    shards: u32,
    page_limit: u32,
    span_limit: u32,
    slot_limit: u32,
    ring_capacity: u32,
    gens: u32,
) -> u32
    ensures ok { result ≡ 0 → HasNewArena
        (limits_with shards page_limit span_limit slot_limit ring_capacity gens) out.new.share }
    ensures refused { (result ≡ 0 → ⊥) → out.new.share ≡ out.old.share }
    ensures config { out.old.share ≡ None → (result ≡ config)
        ↔ (AreWithin (limits_with shards page_limit span_limit slot_limit ring_capacity gens) → ⊥) }
    ensures taken { (result ≡ has_core) ↔ IsSome out.old.share }
{
    if has_share(alloc, out) {
        return HAS_CORE;
    }
    let found = limits_for(
        shards,
        page_limit,
        span_limit,
        slot_limit,
        ring_capacity,
        gens,
    );
    let Some(limits) = found else {
        return CONFIG;
    };
    leave_steward(alloc, out, limits)
}

// Leaves the steward of a new arena of these numbers to the handle, which has nothing yet.
fn leave_steward(alloc: Global, out: &mut ShareHandle, limits: Limits) -> u32
    requires { out.old.share ≡ None }
    ensures ok { result ≡ 0 → HasNewArena limits out.new.share }
    ensures refused { (result ≡ 0 → ⊥) → out.new.share ≡ None }
    ensures only { (result ≡ 0) ⊎ (result ≡ out_of_memory) }
{
    let Ok(steward) = opened(alloc, limits) else {
        return OUT_OF_MEMORY;
    };
    match Box::new(alloc, Share::Steward(steward)) {
        Ok(share) => {
            *out = ShareHandle::of(share);
            OK
        }
        Err(_) => OUT_OF_MEMORY,
    }
}

// The steward of a new arena, with all its seats.
fn opened(alloc: Global, limits: Limits) -> Result<SharedSteward, AllocError>
    ensures { IfOk result (λ shared. HasNewArena limits (Some (shares.Steward shared))) }
{
    let (arena, seats, steward) = Arena::with_limits(alloc, limits, NoGate)?;
    let Ok(arena) = Arc::new(alloc, arena) else {
        return Err(AllocError);
    };
    let inner = StewardAndMark {
        steward,
        last: None,
    };
    Ok(SharedSteward {
        arena,
        inner,
        seats,
    })
}

/// Gives the share back: the memory of the arena goes with the last of its shares. A seat does not
/// come back, but by `teurlaks_seat_leave`: its shard takes no further put, and its objects stay.
#[unsafe(no_mangle)]
pub extern "C" fn teurlaks_share_drop(alloc: Global, handle: &mut ShareHandle)
    ensures { handle.new.share ≡ None }
{
    drop(replace(handle, ShareHandle::none()).into_box(alloc));
}

/// Leaves a seat that no thread has to `out`, which has nothing yet. `NONE` where every seat is
/// with a thread, `HAS_CORE` where `out` has a seat or a steward already, `NO_CORE` where the
/// handle has no steward, and `OUT_OF_MEMORY`; nothing has changed then.
#[unsafe(no_mangle)]
pub extern "C" fn teurlaks_steward_seat(
    alloc: Global,
    handle: &mut ShareHandle,
    out: &mut ShareHandle,
) -> u32
    ensures { LeavesSeat handle.old.share out.old.share result handle.new.share out.new.share }
{
    if has_share(alloc, out) {
        return HAS_CORE;
    }
    match hand_out(alloc, handle) {
        Ok(seat) => {
            *out = ShareHandle::of(seat);
            OK
        }
        Err(status) => status,
    }
}

// A seat of the handle's steward, in a box of its own, or the status that says why there is none.
fn hand_out(alloc: Global, handle: &mut ShareHandle) -> Result<Box<Share>, u32>
    ensures { HandsOutBoxed handle.old.share result handle.new.share }
{
    let Some(mut share) = replace(handle, ShareHandle::none()).into_box(alloc) else {
        return Err(NO_CORE);
    };
    let seat = take_seat(alloc, &mut *share);
    *handle = ShareHandle::of(share);
    seat
}

// The same of what is shared.
fn take_seat(alloc: Global, share: &mut Share) -> Result<Box<Share>, u32>
    ensures { HandsOutBoxed (Some share.old) result (Some share.new) }
{
    match share {
        Share::Steward(steward) => seat_of(alloc, steward),
        Share::RecordedSteward(steward) => kept_seat_of(alloc, steward),
        _ => Err(NO_CORE),
    }
}

// The same of a steward.
fn seat_of(alloc: Global, steward: &mut SharedSteward) -> Result<Box<Share>, u32>
    ensures handed { HandsBoxed (λ says out. HandsOutOf steward.old says steward.new out) result }
    ensures same { (steward.new.arena ≡ steward.old.arena)
        × (steward.new.inner ≡ steward.old.inner) }
{
    let Some(seat) = steward.seats.pop() else {
        return Err(NONE);
    };
    match boxed_seat(alloc, &steward.arena, seat) {
        Ok(share) => Ok(share),
        Err(seat) => {
            steward.seats.push_reserved(seat);
            Err(OUT_OF_MEMORY)
        }
    }
}

// The seat with a share of the arena, in a box; or the seat, where memory was refused.
fn boxed_seat(alloc: Global, arena: &Arc<Shards, Global>, seat: Seat) -> Result<Box<Share>, Seat>
    requires { seat.limits ≡ (arc_value arena.now).limits }
    ensures ok { IfOk result (λ boxed. (shared : SharedSeat) × (boxed.value ≡ shares.Seat shared)
        × (arc_value shared.arena ≡ arc_value arena.now) × (shared.seat ≡ seat)) }
    ensures err { IfErr result (λ back. back ≡ seat) }
{
    let Ok(arena) = Arc::try_clone(arena) else {
        return Err(seat);
    };
    match Box::new(alloc, Share::Seat(SharedSeat { arena, seat })) {
        Ok(share) => Ok(share),
        Err(failed) => {
            let AllocFailed { value } = failed;
            match value {
                Share::Seat(shared) => {
                    let SharedSeat { seat, .. } = shared;
                    Err(seat)
                }
                _ => unreachable!(),
            }
        }
    }
}

/// Plans as many folds of the pool's groups onto those of the shards as can be, of all groups,
/// opens the plan, and keeps its certificate. Refused with `BUSY`, `PLAN_OPEN`, `TOO_MANY` where a
/// side has more than 4,096 groups that have a page, or `OUT_OF_MEMORY`; nothing has changed then,
/// and the certificate of the mark before is kept.
#[unsafe(no_mangle)]
pub extern "C" fn teurlaks_steward_mark(alloc: Global, handle: &mut ShareHandle) -> MarkReply
    ensures { (answer : _) × Asks Marks handle.old.share answer handle.new.share
        × SaysMarked result answer }
{
    marked_reply(at_steward(alloc, handle, &Mark))
}

/// Plans as many folds of the pool's groups onto those of the shards as can be, of the 4,096 of
/// each side with the fewest live keys, opens the plan, and keeps its certificate. Refused with
/// `BUSY`, `PLAN_OPEN` or `OUT_OF_MEMORY`; nothing has changed then, and the certificate of the
/// mark before is kept.
#[unsafe(no_mangle)]
pub extern "C" fn teurlaks_steward_mark_some(alloc: Global, handle: &mut ShareHandle) -> MarkReply
    ensures { (answer : _) × Asks Marks handle.old.share answer handle.new.share
        × SaysMarked result answer }
{
    marked_reply(at_steward(alloc, handle, &MarkSome))
}

/// Carries out the next pair of the open plan: `OK`, or `EMPTIED` where the pair's abandoned group
/// had no live key left. `NO_PAIR_LEFT` and `NO_PLAN` change nothing. Refused with `BUSY` or
/// `OUT_OF_MEMORY`; the pair is then still the next.
#[unsafe(no_mangle)]
pub extern "C" fn teurlaks_steward_step(alloc: Global, handle: &mut ShareHandle) -> StepReply
    ensures { (answer : _) × Asks TakesStep handle.old.share answer handle.new.share
        × SaysStepped result answer }
{
    stepped_reply(at_steward(alloc, handle, &Step))
}

/// Closes the open plan, whose pairs that are left are dropped: all groups take puts again.
/// `NO_PLAN` and `BUSY` change nothing. It takes no memory.
#[unsafe(no_mangle)]
pub extern "C" fn teurlaks_steward_close(alloc: Global, handle: &mut ShareHandle) -> u32
    ensures { (answer : _) × Asks Closes handle.old.share answer handle.new.share
        × SaysClosed result answer }
{
    closed_reply(at_steward(alloc, handle, &Close))
}

/// Forgets the spans that can never be live again, with their generations, as `Arena::forget` does;
/// the count is how many went. Nothing else changes that a caller sees. Refused with `BUSY`, with
/// `PLAN_OPEN` while a plan is open, or with `RECORDED` where the run is recorded, since its audit
/// needs each log; nothing has changed then. It asks for memory only for smaller tables in the
/// place of larger ones, which stay if there is none.
#[unsafe(no_mangle)]
pub extern "C" fn teurlaks_steward_forget(alloc: Global, handle: &mut ShareHandle) -> ForgetReply
    ensures same { handle.new.share ≡ handle.old.share }
    ensures forgets { ForgetsAll handle.old.share result }
{
    let Some(share) = replace(handle, ShareHandle::none()).into_box(alloc) else {
        return unforgotten(NO_CORE);
    };
    let says = forget_of(&*share);
    *handle = ShareHandle::of(share);
    says
}

// The same of what is shared.
fn forget_of(share: &Share) -> ForgetReply
    ensures { ForgetsAll (Some share.now) result }
{
    match share {
        Share::Steward(steward) => {
            forgotten_reply(steward.arena.try_forget(&steward.inner.steward))
        }
        Share::RecordedSteward(_) => unforgotten(RECORDED),
        _ => unforgotten(NO_CORE),
    }
}

/// Moves the pages of up to `most` groups of the pool, from the one numbered `from` on, to blocks
/// that it asks for now, and changes nothing else. The count is how many groups these are: fewer
/// than `most` if the pool has no more. Refused with `BUSY`, and nothing has changed then; or with
/// `OUT_OF_MEMORY` if a block is refused: some pages have moved then.
#[unsafe(no_mangle)]
pub extern "C" fn teurlaks_steward_gather(
    alloc: Global,
    handle: &mut ShareHandle,
    from: usize,
    most: usize,
) -> GatherReply
    ensures { (answer : _) × Asks (GathersPooled most) handle.old.share answer handle.new.share
        × SaysGathered result answer }
{
    gathered_reply(at_steward(alloc, handle, &GatherPool { from, most }))
}

/// Writes the text of the last mark's certificate into `text`, from its first byte on, and answers
/// how long it is. `NONE` where no mark was made, `TOO_SMALL` where there is no room for all of it,
/// and `OUT_OF_MEMORY`: nothing was written then. The arena stays as it is, and no lock is taken.
#[unsafe(no_mangle)]
pub extern "C" fn teurlaks_steward_certificate(
    alloc: Global,
    handle: &mut ShareHandle,
    text: &mut [u8],
) -> CertificateReply
    ensures same { handle.new.share ≡ handle.old.share }
    ensures writes { WritesLast handle.old.share text.old result text.new }
{
    let Some(share) = replace(handle, ShareHandle::none()).into_box(alloc) else {
        return CertificateReply {
            status: NO_CORE,
            len: 0,
        };
    };
    let says = write_last_of(alloc, &*share, text);
    *handle = ShareHandle::of(share);
    says
}

// The same of what is shared.
fn write_last_of(alloc: Global, share: &Share, room: &mut [u8]) -> CertificateReply
    ensures { WritesLast (Some share.now) room.old result room.new }
{
    match share {
        Share::Steward(steward) => write_last(alloc, &steward.inner.last, room),
        Share::RecordedSteward(steward) => write_last(alloc, &steward.inner.last, room),
        _ => unwritten(),
    }
}

// What C reads where there is no steward, and so no certificate.
fn unwritten() -> CertificateReply
    ensures { (result.status ≡ no_core) × (result.len ≡ 0) }
{
    CertificateReply {
        status: NO_CORE,
        len: 0,
    }
}

/// How many pages the arena has, and how many keys are live in it, at one time. Refused with
/// `BUSY`. Nothing changes.
#[unsafe(no_mangle)]
pub extern "C" fn teurlaks_steward_totals(
    alloc: Global,
    handle: &mut ShareHandle,
) -> ArenaTotalsReply
    ensures { (answer : _) × Asks Keeps handle.old.share answer handle.new.share
        × SaysTotals result answer }
{
    totals_reply(at_steward(alloc, handle, &CountAll))
}

// What C reads of a mark.
fn marked_reply(answer: Option<Result<Result<MarkReply, MarkError>, Busy>>) -> MarkReply
    ensures { SaysMarked result answer }
{
    match answer {
        Some(Ok(Ok(made))) => made,
        Some(Ok(Err(error))) => unmarked(mark_status_of(error)),
        Some(Err(Busy)) => unmarked(BUSY),
        None => unmarked(NO_CORE),
    }
}

// The status that stands for a refused mark.
fn mark_status_of(error: MarkError) -> u32
    ensures { result ≡ mark_status error }
{
    match error {
        MarkError::OutOfMemory => OUT_OF_MEMORY,
        MarkError::PlanOpen => PLAN_OPEN,
        MarkError::TooMany => TOO_MANY,
        MarkError::Doubled => NONE,
    }
}

// What C reads of a step.
fn stepped_reply(answer: Option<Result<Result<Stepped, AllocError>, Busy>>) -> StepReply
    ensures { SaysStepped result answer }
{
    match answer {
        Some(Ok(Ok(Stepped::Taken(abandoned, owned, outcome)))) => StepReply {
            status: outcome_status(outcome),
            abandoned: raw_span(abandoned),
            owned: raw_span(owned),
        },
        Some(Ok(Ok(Stepped::NoPairLeft))) => unstepped(NO_PAIR_LEFT),
        Some(Ok(Ok(Stepped::NoPlan))) => unstepped(NO_PLAN),
        Some(Ok(Err(AllocError))) => unstepped(OUT_OF_MEMORY),
        Some(Err(Busy)) => unstepped(BUSY),
        None => unstepped(NO_CORE),
    }
}

// The status that stands for what came of a pair.
fn outcome_status(outcome: Outcome) -> u32
    ensures { result ≡ status_of_outcome outcome }
{
    match outcome {
        Outcome::Folded => OK,
        Outcome::Emptied => EMPTIED,
        Outcome::Absent | Outcome::Clash => NONE,
    }
}

// What C reads of a close.
fn closed_reply(answer: Option<Result<bool, Busy>>) -> u32
    ensures { SaysClosed result answer }
{
    match answer {
        Some(Ok(true)) => OK,
        Some(Ok(false)) => NO_PLAN,
        Some(Err(Busy)) => BUSY,
        None => NO_CORE,
    }
}

// What C reads of a forgetting.
fn forgotten_reply(answer: Result<Result<usize, PlanOpen>, Busy>) -> ForgetReply
    ensures { SaysForgotten result answer }
{
    match answer {
        Ok(Ok(count)) => ForgetReply { status: OK, count },
        Ok(Err(PlanOpen)) => unforgotten(PLAN_OPEN),
        Err(Busy) => unforgotten(BUSY),
    }
}

// What C reads where nothing is forgotten.
fn unforgotten(status: u32) -> ForgetReply
    ensures { (result.status ≡ status) × (result.count ≡ 0) }
{
    ForgetReply { status, count: 0 }
}

// What C reads of totals.
fn totals_reply(answer: Option<Result<Totals, Busy>>) -> ArenaTotalsReply
    ensures { SaysTotals result answer }
{
    let status = match answer {
        Some(Ok(Totals { pages, live })) => {
            return ArenaTotalsReply {
                status: OK,
                pages,
                live,
            };
        }
        Some(Err(Busy)) => BUSY,
        None => NO_CORE,
    };
    ArenaTotalsReply {
        status,
        pages: 0,
        live: 0,
    }
}

// Whether the handle has a seat or a steward.
pub(crate) fn has_share(alloc: Global, handle: &mut ShareHandle) -> bool
    ensures same { handle.new.share ≡ handle.old.share }
    ensures told { MatchBool result (IsSome handle.old.share) (handle.old.share ≡ None) }
{
    let Some(share) = replace(handle, ShareHandle::none()).into_box(alloc) else {
        return false;
    };
    *handle = ShareHandle::of(share);
    true
}
