// A recorded arena from its beginning to its audit, and the seats that its steward hands out.
ghost use Rattle.std.specs.Prelude.{◌≡◌, ◌↔◌, IfErr, IfOk, IsSome, None, Some, map, vec_capacity, vec_len, ◌≤◌, ◌⊎◌};
ghost use Rattle.std.specs.Arc.{arc_value};
ghost use Rattle.marks.specs.Numbers.{AreWithin, limits_of};
ghost use Rattle.teurlaks_c.specs.Numbers.{limits_given, limits_with};
ghost use Rattle.span.specs.ReceiptLists.{kept_receipts};
ghost use Rattle.span.specs.SpanLogs.{AreLegal};
ghost use Rattle.teurlaks_c.specs.declared.share.Share.TheVariants as shares;
ghost use Rattle.teurlaks_c.specs.declared.recorded.RecordedSeat.{RecordedSeat};
ghost use Rattle.teurlaks_c.specs.Audits.{AuditsRun, Ends, EndsRun, Holds, SaysAudited, SaysAuditedShare};
ghost use Rattle.teurlaks_c.specs.StewardCalls.{HandsBoxed, HandsOutKept, HasNewRecord, HaveNoReceipt};
ghost use Rattle.teurlaks_c.specs.Status.{busy, cause_status, config, has_core, out_of_memory};

use crate::limits::limits_for;
use crate::recorded::{KeptSeat, RecordedRun, RecordedSeat, RecordedShards, RecordedSteward};
use crate::share::{Share, StewardAndMark};
use crate::share_handle::ShareHandle;
use crate::status::{
    BARRIER_FAULT, BUSY, CHANGE_FAULT, CONFIG, HAS_CORE, LOG_FAULT, NO_CORE, NONE, OK, ORDER_FAULT,
    OUT_OF_MEMORY, REPLY_FAULT, UNFINISHED,
};
use crate::stewards::has_share;
use arena::{Arena, NoGate, Seat, take_logs};
use audit::{AuditCause, AuditError, audit};
use bitmap::SLOTS;
use marks::Limits;
use span::names::MOST_SPANS;
use span::receipts::ReceiptList;
use span::spans::SpanLog;
use std::alloc::{AllocError, AllocFailed, Global};
use std::mem::replace;
use std::sync::Arc;

/// Leaves the steward of a new arena to the handle, as `teurlaks_arena_open` does, whose run is
/// recorded: each span keeps its log, and each seat a receipt of each put, look-up, set and free
/// that is made at it, until `teurlaks_arena_audit` holds these against the logs.
///
/// The statuses are those of `teurlaks_arena_open`.
#[unsafe(no_mangle)]
pub extern "C" fn teurlaks_arena_open_recorded(
    alloc: Global,
    out: &mut ShareHandle,
    shards: u32,
    page_limit: u32,
    ring_capacity: u32,
    gens: u32,
) -> u32
    ensures ok { result ≡ 0
        → HasNewRecord (limits_of shards page_limit ring_capacity gens) out.new.share }
    ensures refused { (result ≡ 0 → ⊥) → out.new.share ≡ out.old.share }
    ensures config { out.old.share ≡ None → (result ≡ config)
        ↔ (AreWithin (limits_of shards page_limit ring_capacity gens) → ⊥) }
    ensures taken { (result ≡ has_core) ↔ IsSome out.old.share }
{
    teurlaks_arena_open_recorded_with_spans(
        alloc,
        out,
        shards,
        page_limit,
        MOST_SPANS,
        ring_capacity,
        gens,
    )
}

/// As `teurlaks_arena_open_recorded`, of an arena each shard of which opens up to `span_limit`
/// spans in its life, 1 to 4,294,967,295: so no key has another serial than one below that.
#[unsafe(no_mangle)]
pub extern "C" fn teurlaks_arena_open_recorded_with_spans(
    alloc: Global,
    out: &mut ShareHandle,
    shards: u32,
    page_limit: u32,
    span_limit: u32,
    ring_capacity: u32,
    gens: u32,
) -> u32
    ensures ok { result ≡ 0 → HasNewRecord
        (limits_given shards page_limit span_limit ring_capacity gens) out.new.share }
    ensures refused { (result ≡ 0 → ⊥) → out.new.share ≡ out.old.share }
    ensures config { out.old.share ≡ None → (result ≡ config)
        ↔ (AreWithin (limits_given shards page_limit span_limit ring_capacity gens) → ⊥) }
    ensures taken { (result ≡ has_core) ↔ IsSome out.old.share }
{
    teurlaks_arena_open_recorded_with_slots(
        alloc,
        out,
        shards,
        page_limit,
        span_limit,
        SLOTS as u32,
        ring_capacity,
        gens,
    )
}

/// As `teurlaks_arena_open_recorded_with_spans`, of an arena whose puts take only the lowest
/// `slot_limit` slots of a page, 1 to 256.
#[unsafe(no_mangle)]
pub extern "C" fn teurlaks_arena_open_recorded_with_slots(
    alloc: Global,
    out: &mut ShareHandle,
    shards: u32,
    page_limit: u32,
    span_limit: u32,
    slot_limit: u32,
    ring_capacity: u32,
    gens: u32,
) -> u32
    ensures ok { result ≡ 0 → HasNewRecord
        (limits_with shards page_limit span_limit slot_limit ring_capacity gens) out.new.share }
    ensures refused { (result ≡ 0 → ⊥) → out.new.share ≡ out.old.share }
    ensures config { out.old.share ≡ None → (result ≡ config)
        ↔ (AreWithin (limits_with shards page_limit span_limit slot_limit ring_capacity gens) → ⊥) }
    ensures taken { (result ≡ has_core) ↔ IsSome out.old.share }
{
    if has_share(alloc, out) {
        return HAS_CORE;
    }
    let found = limits_for(
        shards,
        page_limit,
        span_limit,
        slot_limit,
        ring_capacity,
        gens,
    );
    let Some(limits) = found else {
        return CONFIG;
    };
    leave_recorder(alloc, out, limits)
}

// Leaves the steward of a new recorded arena of these numbers to the handle, which has nothing yet.
fn leave_recorder(alloc: Global, out: &mut ShareHandle, limits: Limits) -> u32
    requires { out.old.share ≡ None }
    ensures ok { result ≡ 0 → HasNewRecord limits out.new.share }
    ensures refused { (result ≡ 0 → ⊥) → out.new.share ≡ None }
    ensures only { (result ≡ 0) ⊎ (result ≡ out_of_memory) }
{
    let Ok(steward) = opened(alloc, limits) else {
        return OUT_OF_MEMORY;
    };
    match Box::new(alloc, Share::RecordedSteward(steward)) {
        Ok(share) => {
            *out = ShareHandle::of(share);
            OK
        }
        Err(_) => OUT_OF_MEMORY,
    }
}

// The steward of a new arena, with all its seats, of which none has a receipt.
fn opened(alloc: Global, limits: Limits) -> Result<RecordedSteward, AllocError>
    ensures { IfOk result (λ shared. HasNewRecord limits (Some (shares.RecordedSteward shared))) }
{
    let (arena, seats, steward) = Arena::with_limits(alloc, limits, NoGate)?;
    let seats = kept_seats(alloc, seats)?;
    let Ok(arena) = Arc::new(alloc, arena) else {
        return Err(AllocError);
    };
    let inner = StewardAndMark {
        steward,
        last: None,
    };
    Ok(RecordedSteward {
        arena,
        inner,
        seats,
    })
}

// The seats, each with no receipt.
fn kept_seats(alloc: Global, seats: Vec<Seat>) -> Result<Vec<KeptSeat>, AllocError>
    ensures seats { IfOk result (λ kept. map (λ seat. seat.seat) kept.items ≡ seats.items) }
    ensures none { IfOk result (λ kept. HaveNoReceipt kept.items) }
{
    let mut kept = Vec::with_capacity(alloc, seats.len())?;
    for seat in seats {
        let receipts = ReceiptList::new(alloc);
        kept.push(KeptSeat { seat, receipts })?;
    }
    Ok(kept)
}

/// A seat of the steward, in a box of its own, or the status that says why there is none.
pub(crate) fn kept_seat_of(alloc: Global, steward: &mut RecordedSteward) -> Result<Box<Share>, u32>
    ensures handed { HandsBoxed (λ says out. HandsOutKept steward.old says steward.new out) result }
    ensures same { (steward.new.arena ≡ steward.old.arena)
        × (steward.new.inner ≡ steward.old.inner) }
{
    let Some(kept) = steward.seats.pop() else {
        return Err(NONE);
    };
    match boxed_seat(alloc, &steward.arena, kept) {
        Ok(share) => Ok(share),
        Err(kept) => {
            steward.seats.push_reserved(kept);
            Err(OUT_OF_MEMORY)
        }
    }
}

// The seat with a share of the arena, in a box; or the seat, where memory was refused.
fn boxed_seat(
    alloc: Global,
    arena: &Arc<RecordedShards, Global>,
    kept: KeptSeat,
) -> Result<Box<Share>, KeptSeat>
    requires { kept.seat.limits ≡ (arc_value arena.now).limits }
    ensures ok { IfOk result (λ got. (seat : RecordedSeat) × (got.value ≡ shares.RecordedSeat seat)
        × (arc_value seat.arena ≡ arc_value arena.now) × (seat.kept ≡ kept)) }
    ensures err { IfErr result (λ back. back ≡ kept) }
{
    let Ok(arena) = Arc::try_clone(arena) else {
        return Err(kept);
    };
    match Box::new(alloc, Share::RecordedSeat(RecordedSeat { arena, kept })) {
        Ok(share) => Ok(share),
        Err(failed) => {
            let AllocFailed { value } = failed;
            match value {
                Share::RecordedSeat(shared) => {
                    let RecordedSeat { kept, .. } = shared;
                    Err(kept)
                }
                _ => unreachable!(),
            }
        }
    }
}

/// Ends the arena of the steward, whose seats are all back, and holds the receipts of all seats
/// against the logs of all spans: `OK` where they agree, and so each span has one history in which
/// every call was answered as by a plain map; else the first part that fails, as `LOG_FAULT`,
/// `CHANGE_FAULT`, `REPLY_FAULT`, `ORDER_FAULT` or `BARRIER_FAULT`.
///
/// `NO_CORE` where the handle has no steward of a recorded arena, `UNFINISHED` exactly where a seat
/// of it is not back, `BUSY` where another handle has a share of the arena all the same, and
/// `OUT_OF_MEMORY`. While the arena has not ended, all is as it was then. Once it has, the handle
/// has its logs and receipts, and no steward; the audit is made anew whenever it is asked for, also
/// after `OUT_OF_MEMORY`.
#[unsafe(no_mangle)]
pub extern "C" fn teurlaks_arena_audit(alloc: Global, handle: &mut ShareHandle) -> u32
    ensures { AuditsRun handle.old.share result handle.new.share }
{
    let Some(mut share) = replace(handle, ShareHandle::none()).into_box(alloc) else {
        return NO_CORE;
    };
    let says = audit_share(alloc, &mut *share);
    *handle = ShareHandle::of(share);
    says
}

// The same of what is shared.
fn audit_share(alloc: Global, share: &mut Share) -> u32
    ensures { AuditsRun (Some share.old) result (Some share.new) }
{
    match end_share(alloc, share) {
        Ok(()) => audit_ended(alloc, share),
        Err(status) => status,
    }
}

// The audit of a run that is over.
fn audit_ended(alloc: Global, share: &Share) -> u32
    ensures { SaysAuditedShare share.now result }
{
    match share {
        Share::Run(run) => audit_run(alloc, run),
        _ => NO_CORE,
    }
}

// The same of a run.
fn audit_run(alloc: Global, run: &RecordedRun) -> u32
    ensures { SaysAudited run.now result }
{
    match audit(alloc, run.logs.as_slice(), run.lists.as_slice()) {
        Ok(()) => OK,
        Err(AuditError::Fault(cause)) => cause_status_of(cause),
        Err(AuditError::OutOfMemory) => OUT_OF_MEMORY,
    }
}

// The status that stands for the part that fails.
fn cause_status_of(cause: AuditCause) -> u32
    ensures { result ≡ cause_status cause }
{
    match cause {
        AuditCause::Log => LOG_FAULT,
        AuditCause::Change => CHANGE_FAULT,
        AuditCause::Reply => REPLY_FAULT,
        AuditCause::Order => ORDER_FAULT,
        AuditCause::Barrier => BARRIER_FAULT,
    }
}

// Ends the arena, where there is a steward of one that is recorded; a run that is over stays.
fn end_share(alloc: Global, share: &mut Share) -> Result<(), u32>
    ensures { EndsRun share.old result share.new }
{
    match share {
        Share::RecordedSteward(steward) => {
            let ended = end(alloc, steward);
            hold(share, ended)
        }
        Share::Run(_) => Ok(()),
        _ => Err(NO_CORE),
    }
}

// Has the run in place of what there was, where there is one.
fn hold(share: &mut Share, ended: Result<RecordedRun, u32>) -> Result<(), u32>
    ensures { Holds share.old ended result share.new }
{
    match ended {
        Ok(run) => {
            *share = Share::Run(run);
            Ok(())
        }
        Err(status) => Err(status),
    }
}

// What the arena leaves, whose steward is not to be asked any more; or why it goes on.
fn end(alloc: Global, steward: &mut RecordedSteward) -> Result<RecordedRun, u32>
    ensures { Ends steward.old result steward.new }
{
    if steward.seats.len() != steward.arena.limits.shards() as usize {
        return Err(UNFINISHED);
    }
    let Ok(lists) = Vec::with_capacity(alloc, steward.seats.len()) else {
        return Err(OUT_OF_MEMORY);
    };
    let logs = logs_of(&mut steward.arena)?;
    let seats = replace(&mut steward.seats, Vec::new(alloc));
    let lists = taken_apart(seats, lists);
    Ok(RecordedRun { logs, lists })
}

// The logs of the arena, where nobody else has a share of it.
fn logs_of(arena: &mut Arc<RecordedShards, Global>) -> Result<Vec<SpanLog>, u32>
    ensures legal { IfOk result (λ logs. AreLegal logs.items) }
    ensures same { arena.new ≡ arena.old }
    ensures refused { IfErr result (λ says. (says ≡ busy) ⊎ (says ≡ out_of_memory)) }
{
    let Some(arena) = Arc::get_mut(arena) else {
        return Err(BUSY);
    };
    match take_logs(arena) {
        Ok(logs) => Ok(logs),
        Err(_) => Err(OUT_OF_MEMORY),
    }
}

// The receipts of the seats, in a list with room for them.
fn taken_apart(seats: Vec<KeptSeat>, lists: Vec<ReceiptList>) -> Vec<ReceiptList>
    requires room { vec_len seats ≤ vec_capacity lists }
    requires none { vec_len lists ≡ 0 }
    ensures { map kept_receipts result.items ≡ map (λ kept. kept_receipts kept.receipts)
        seats.items }
{
    let mut lists = lists;
    for kept in seats {
        let KeptSeat { receipts, .. } = kept;
        lists.push_reserved(receipts);
    }
    lists
}
