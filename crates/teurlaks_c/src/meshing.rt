// Shards that end, begin again, retire groups or give pages back, groups that are adopted, and
// plans of folds.
ghost use Rattle.std.specs.Prelude.{◌≡◌, IsSome, MatchOption, None};
ghost use Rattle.arena_core.specs.Sound.{IsSound};
ghost use Rattle.arena_core.specs.Step.{CoreStep};
ghost use Rattle.arena_core.specs.declared.reply.Reply.TheVariants as reply;
ghost use Rattle.arena_core.specs.declared.event.Event.TheVariants as event;
ghost use Rattle.teurlaks_c.specs.Calls.{Adopts, Begins, Closes, CountsOf, Ends, Forgets, Gathers, IsOfMark, Keeps, Marks, Retires, SaysForgotten, SaysGathered, SaysMarked, SaysPart, Steps, TakesStep, Tells, Trims, TrimsPart, Writes};
ghost use Rattle.teurlaks_c.specs.Keys.{IsIdOf};
ghost use Rattle.teurlaks_c.specs.Status.{no_core};

use crate::handle::Handle;
use crate::held::{Held, Witness};
use crate::keys::raw_span;
use crate::replies::{
    AdoptReply, CertificateReply, ForgetReply, GatherReply, MarkReply, RawSpan, RetireReply,
    StepReply, TrimPartReply, TrimReply,
};
use crate::status::{
    EMPTIED, NO_CORE, NO_PAIR_LEFT, NO_PLAN, NONE, OK, OUT_OF_MEMORY, TOO_SMALL, status_of,
};
use arena_core::{Core, Event, Refusal, Reply};
use certificate::{Certificate, write};
use fold::Step;
use shard::TrimPart;
use span::names::SpanId;
use span::spans::Counted;
use std::alloc::Global;
use std::mem::replace;

/// Ends the shard: its groups go to the pool, with their pages, and it takes no put until it begins
/// again. Refused with `ENDED`, `PLAN_OPEN`, `CONFIG` or `OUT_OF_MEMORY` as an end of
/// [`Core::step`](arena_core::Core::step) is; nothing has changed then.
#[unsafe(no_mangle)]
pub extern "C" fn teurlaks_end(handle: &mut Handle, shard: u32) -> u32
    ensures live { IsSome handle.old.held → Ends handle.old.held shard result handle.new.held }
    ensures none { handle.old.held ≡ None → (result ≡ no_core) × (handle.new.held ≡ None) }
{
    match step(handle, Event::End { shard }) {
        Some(Reply::ShardEnded) => OK,
        Some(Reply::Refused(refusal)) => status_of(refusal),
        Some(_) => NONE,
        None => NO_CORE,
    }
}

/// Lets the shard, which has ended, run again, for a new thread. No key that it then gives out was
/// given out before, and all keys stay what they were. Refused with `RUNNING` where the shard has
/// not ended, and with `CONFIG` where there is no such shard; nothing has changed then. It takes no
/// memory.
#[unsafe(no_mangle)]
pub extern "C" fn teurlaks_begin(handle: &mut Handle, shard: u32) -> u32
    ensures live { IsSome handle.old.held → Begins handle.old.held shard result handle.new.held }
    ensures none { handle.old.held ≡ None → (result ≡ no_core) × (handle.new.held ≡ None) }
{
    match step(handle, Event::Begin { shard }) {
        Some(Reply::ShardBegun) => OK,
        Some(Reply::Refused(refusal)) => status_of(refusal),
        Some(_) => NONE,
        None => NO_CORE,
    }
}

/// Moves up to `most` groups of the shard to the pool, with their pages, and lets the shard go on:
/// those with the fewest live keys, of those that have one. The count is `most`, or less where that
/// is all that have a live key. Refused with `ENDED`, `PLAN_OPEN`, `CONFIG` or `OUT_OF_MEMORY` as
/// [`Core::retire`](arena_core::Core::retire) is; nothing has changed then.
#[unsafe(no_mangle)]
pub extern "C" fn teurlaks_retire(handle: &mut Handle, shard: u32, most: usize) -> RetireReply
    ensures live { IsSome handle.old.held → Retires handle.old.held shard most result
        handle.new.held }
    ensures none { handle.old.held ≡ None → (result.status ≡ no_core) × (result.count ≡ 0)
        × (handle.new.held ≡ None) }
{
    match step(handle, Event::Retire { shard, most }) {
        Some(Reply::Retired(count)) => RetireReply { status: OK, count },
        Some(Reply::Refused(refusal)) => RetireReply {
            status: status_of(refusal),
            count: 0,
        },
        // No other reply comes.
        Some(_) => RetireReply {
            status: NONE,
            count: 0,
        },
        None => RetireReply {
            status: NO_CORE,
            count: 0,
        },
    }
}

/// Gives back the page of each open group of the shard in which no slot is live; the count is how
/// many went. The groups stay, and a later put into one of them opens a page for it. Refused with
/// `CONFIG` alone, where there is no such shard. It takes no memory.
#[unsafe(no_mangle)]
pub extern "C" fn teurlaks_trim(handle: &mut Handle, shard: u32) -> TrimReply
    ensures live { IsSome handle.old.held → Trims handle.old.held shard result handle.new.held }
    ensures none { handle.old.held ≡ None → (result.status ≡ no_core) × (result.count ≡ 0)
        × (handle.new.held ≡ None) }
{
    match step(handle, Event::Trim { shard }) {
        Some(Reply::Trimmed(count)) => TrimReply { status: OK, count },
        Some(Reply::Refused(refusal)) => TrimReply {
            status: status_of(refusal),
            count: 0,
        },
        Some(_) => TrimReply {
            status: NONE,
            count: 0,
        },
        None => TrimReply {
            status: NO_CORE,
            count: 0,
        },
    }
}

/// What `teurlaks_trim` does, but of up to `most` groups of the shard alone, from its group `from`
/// on. `groups` is how many these are, and `pages` how many pages went. There are fewer than `most`
/// only if no more follow. Refused with `CONFIG` alone, if there is no such shard. It takes no
/// memory.
#[unsafe(no_mangle)]
pub extern "C" fn teurlaks_trim_some(
    handle: &mut Handle,
    shard: u32,
    from: usize,
    most: usize,
) -> TrimPartReply
    ensures live { IsSome handle.old.held
        → TrimsPart handle.old.held shard from most result handle.new.held }
    ensures none { handle.old.held ≡ None → (result.status ≡ no_core) × (result.groups ≡ 0)
        × (result.pages ≡ 0) × (handle.new.held ≡ None) }
{
    let Some(held) = handle.held() else {
        return no_part(NO_CORE);
    };
    part_reply(held.core.trim_some(shard, from, most))
}

/// Forgets the spans of the core that can never be live again, with their generations; the count is
/// how many went. Nothing else changes that a caller sees. Refused with `PLAN_OPEN` alone, while a
/// plan is open. It asks for memory only for smaller tables in the place of larger ones, which stay
/// if there is none.
#[unsafe(no_mangle)]
pub extern "C" fn teurlaks_forget(handle: &mut Handle) -> ForgetReply
    ensures live { IsSome handle.old.held → Forgets handle.old.held result handle.new.held }
    ensures none { handle.old.held ≡ None → (result.status ≡ no_core) × (result.count ≡ 0)
        × (handle.new.held ≡ None) }
{
    let Some(held) = handle.held() else {
        return ForgetReply {
            status: NO_CORE,
            count: 0,
        };
    };
    forgotten_reply(held.core.forget())
}

/// Moves the pages of up to `most` groups of the shard, from its group `from` on, to blocks that it
/// asks for now, and changes nothing else. The count is how many groups these are: fewer than
/// `most` if the shard has no more. Pages of fewer than 256 words share a page of the system; if
/// the source of memory hands out its lowest free block first, this brings them together, so that
/// other pages of the system go back. Refused with `CONFIG` exactly if there is no such shard, and
/// with `OUT_OF_MEMORY` if a block is refused: some pages have moved then.
#[unsafe(no_mangle)]
pub extern "C" fn teurlaks_gather(
    handle: &mut Handle,
    shard: u32,
    from: usize,
    most: usize,
) -> GatherReply
    ensures live { IsSome handle.old.held
        → Gathers handle.old.held shard from most result handle.new.held }
    ensures none { handle.old.held ≡ None → (result.status ≡ no_core) × (result.count ≡ 0)
        × (handle.new.held ≡ None) }
{
    let Some(held) = handle.held() else {
        return GatherReply {
            status: NO_CORE,
            count: 0,
        };
    };
    gathered_reply(held.core.gather(shard, from, most))
}

/// Moves the pool's group of lowest head that has a page to the shard, and answers its head.
/// Refused with `PAGES_SPENT`, `ENDED`, `PLAN_OPEN`, `NOTHING_TO_ADOPT`, `CONFIG` or
/// `OUT_OF_MEMORY`; nothing has changed then.
#[unsafe(no_mangle)]
pub extern "C" fn teurlaks_adopt(handle: &mut Handle, shard: u32) -> AdoptReply
    ensures live { IsSome handle.old.held → Adopts handle.old.held shard result handle.new.held }
    ensures none { handle.old.held ≡ None → (result.status ≡ no_core) × (handle.new.held ≡ None) }
{
    match step(handle, Event::Adopt { shard }) {
        Some(Reply::Adopted(head)) => AdoptReply {
            status: OK,
            head: raw_span(head),
        },
        Some(Reply::Refused(refusal)) => AdoptReply {
            status: status_of(refusal),
            head: no_span(),
        },
        Some(_) => AdoptReply {
            status: NONE,
            head: no_span(),
        },
        None => AdoptReply {
            status: NO_CORE,
            head: no_span(),
        },
    }
}

/// Plans as many folds of the pool's groups onto those of the shards as can be, opens the plan, and
/// keeps its certificate. Refused with `PLAN_OPEN`, `TOO_MANY` or `OUT_OF_MEMORY`; nothing has
/// changed then, and the certificate of the mark before is kept.
#[unsafe(no_mangle)]
pub extern "C" fn teurlaks_mark(handle: &mut Handle) -> MarkReply
    ensures live { IsSome handle.old.held → Marks event.Mark handle.old.held result
        handle.new.held }
    ensures none { handle.old.held ≡ None → (result.status ≡ no_core) × (handle.new.held ≡ None) }
{
    let Some(held) = handle.held() else {
        return unmarked(NO_CORE);
    };
    let room = match held.last.take_room(held.core.alloc()) {
        Ok(room) => room,
        Err(_) => return unmarked(status_of(refused_mark(&held.core))),
    };
    let reply = held.core.step(Event::Mark);
    keep(held, room, reply)
}

/// Does as [`teurlaks_mark`] does with the 4,096 groups of each side that have the fewest live
/// keys, or with all where there are no more. Refused with `PLAN_OPEN` or `OUT_OF_MEMORY`; nothing
/// has changed then, and the certificate of the mark before is kept.
#[unsafe(no_mangle)]
pub extern "C" fn teurlaks_mark_some(handle: &mut Handle) -> MarkReply
    ensures live { IsSome handle.old.held → Marks event.MarkSome handle.old.held result
        handle.new.held }
    ensures none { handle.old.held ≡ None → (result.status ≡ no_core) × (handle.new.held ≡ None) }
{
    let Some(held) = handle.held() else {
        return unmarked(NO_CORE);
    };
    let room = match held.last.take_room(held.core.alloc()) {
        Ok(room) => room,
        Err(_) => return unmarked(status_of(refused_mark_some(&held.core))),
    };
    let reply = held.core.step(Event::MarkSome);
    keep(held, room, reply)
}

/// Carries out the next pair of the open plan: `OK`, or `EMPTIED` where the pair's abandoned group
/// had no live key left. `NO_PAIR_LEFT` and `NO_PLAN` change nothing. Refused with `OUT_OF_MEMORY`
/// alone; the pair is then still the next.
#[unsafe(no_mangle)]
pub extern "C" fn teurlaks_step(handle: &mut Handle) -> StepReply
    ensures live { IsSome handle.old.held → TakesStep handle.old.held result handle.new.held }
    ensures none { handle.old.held ≡ None → (result.status ≡ no_core) × (handle.new.held ≡ None) }
{
    match step(handle, Event::Step) {
        Some(Reply::Stepped(abandoned, owned, Step::Folded)) => stepped(OK, abandoned, owned),
        Some(Reply::Stepped(abandoned, owned, Step::Emptied)) => stepped(EMPTIED, abandoned, owned),
        Some(Reply::NoPairLeft) => unstepped(NO_PAIR_LEFT),
        Some(Reply::NoPlan) => unstepped(NO_PLAN),
        Some(Reply::Refused(refusal)) => unstepped(status_of(refusal)),
        Some(_) => unstepped(NONE),
        None => unstepped(NO_CORE),
    }
}

/// Closes the open plan, whose pairs that are left are dropped: all groups take puts again.
/// `NO_PLAN` changes nothing. It takes no memory.
#[unsafe(no_mangle)]
pub extern "C" fn teurlaks_close(handle: &mut Handle) -> u32
    ensures live { IsSome handle.old.held → Closes handle.old.held result handle.new.held }
    ensures none { handle.old.held ≡ None → (result ≡ no_core) × (handle.new.held ≡ None) }
{
    match step(handle, Event::Close) {
        Some(Reply::Closed) => OK,
        Some(Reply::NoPlan) => NO_PLAN,
        Some(_) => NONE,
        None => NO_CORE,
    }
}

/// Writes the text of the last mark's certificate into `text`, from its first byte on, and answers
/// how many bytes it takes; `meshrun check` checks such a text. `TOO_SMALL` where there is no room
/// for that many, `NONE` where no mark was made, `OUT_OF_MEMORY` where memory ran out for a copy of
/// the text: nothing was written then. The core stays as it is.
#[unsafe(no_mangle)]
pub extern "C" fn teurlaks_certificate(
    alloc: Global,
    handle: &mut Handle,
    text: &mut [u8],
) -> CertificateReply
    ensures same { handle.new.held ≡ handle.old.held }
    ensures writes { IsSome handle.old.held → Writes handle.old.held text.old result text.new }
    ensures none { handle.old.held ≡ None → (result.status ≡ no_core) × (text.new ≡ text.old) }
{
    let Some(held) = handle.held() else {
        return CertificateReply {
            status: NO_CORE,
            len: 0,
        };
    };
    let Some(last) = held.last.room() else {
        return CertificateReply {
            status: NONE,
            len: 0,
        };
    };
    write_last(alloc, last, text)
}

// What C reads of a gathering.
fn gathered_reply(answer: Result<usize, Refusal>) -> GatherReply
    ensures { SaysGathered result answer }
{
    match answer {
        Ok(count) => GatherReply { status: OK, count },
        Err(refusal) => GatherReply {
            status: status_of(refusal),
            count: 0,
        },
    }
}

// What C reads of a trim of some groups.
fn part_reply(answer: Result<TrimPart, Refusal>) -> TrimPartReply
    ensures { SaysPart result answer }
{
    match answer {
        Ok(part) => TrimPartReply {
            status: OK,
            groups: part.groups,
            pages: part.pages,
        },
        Err(refusal) => no_part(status_of(refusal)),
    }
}

// What C reads of a trim that is refused.
fn no_part(status: u32) -> TrimPartReply
    ensures { result ≡ record { status = status; groups = 0; pages = 0 } }
{
    TrimPartReply {
        status,
        groups: 0,
        pages: 0,
    }
}

// What C reads of what was forgotten.
fn forgotten_reply(answer: Result<usize, Refusal>) -> ForgetReply
    ensures { SaysForgotten result answer }
{
    match answer {
        Ok(count) => ForgetReply { status: OK, count },
        Err(refusal) => ForgetReply {
            status: status_of(refusal),
            count: 0,
        },
    }
}

// The core, if there is one, takes the event, which is no mark.
#[inline(always)]
fn step(handle: &mut Handle, event: Event) -> Option<Reply>
    ensures { MatchOption result ((handle.old.held ≡ None)
        × (handle.new.held ≡ None)) (λ reply. Steps handle.old.held event reply handle.new.held) }
{
    let Some(held) = handle.held() else {
        return None;
    };
    Some(held.core.step(event))
}

/// The text of the certificate, if there is one, written into the room.
pub(crate) fn write_last(alloc: Global, last: &Option<Witness>, room: &mut [u8]) -> CertificateReply
    ensures { Tells last.now room.old result room.new }
{
    let Some(witness) = last else {
        return CertificateReply {
            status: NONE,
            len: 0,
        };
    };
    let Ok(text) = write(alloc, &witness.certificate) else {
        return CertificateReply {
            status: OUT_OF_MEMORY,
            len: 0,
        };
    };
    let len = text.len();
    if len > room.len() {
        return CertificateReply {
            status: TOO_SMALL,
            len,
        };
    }
    room[..len].copy_from_slice(&text);
    CertificateReply { status: OK, len }
}

// Why a mark of all groups is refused for whose certificate no memory is left.
fn refused_mark(core: &Core<Counted>) -> Refusal
    ensures exact { CoreStep core.now event.Mark (reply.Refused result) core.now }
    ensures sound { IsSound core.now }
{
    match core.mark_refusal() {
        Some(refusal) => refusal,
        None => Refusal::OutOfMemory,
    }
}

// The same of a mark of the sparsest.
fn refused_mark_some(core: &Core<Counted>) -> Refusal
    ensures exact { CoreStep core.now event.MarkSome (reply.Refused result) core.now }
    ensures sound { IsSound core.now }
{
    if core.has_plan() {
        Refusal::PlanOpen
    } else {
        Refusal::OutOfMemory
    }
}

// Keeps the certificate of the mark in the room for `teurlaks_certificate`, or the one that is in
// it, and makes the reply for C.
fn keep(held: &mut Held, room: Box<Option<Witness>>, reply: Reply) -> MarkReply
    requires { IsOfMark reply }
    ensures core { held.new.core ≡ held.old.core }
    ensures told { SaysMarked result reply }
    ensures keeps { Keeps room.value reply held.new.last }
    ensures compaction { held.new.compaction ≡ held.old.compaction }
{
    let mut room = room;
    let says = keep_in(&mut *room, reply);
    held.last.put_back(room);
    says
}

// The same, of what is in the room.
fn keep_in(last: &mut Option<Witness>, reply: Reply) -> MarkReply
    requires { IsOfMark reply }
    ensures told { SaysMarked result reply }
    ensures keeps { Keeps last.old reply last.new }
{
    match reply {
        Reply::Marked(certificate) => {
            let says = marked(&certificate);
            drop(replace(last, Some(Witness { certificate })));
            says
        }
        Reply::Refused(refusal) => unmarked(status_of(refusal)),
        // A mark has no other reply.
        _ => unmarked(NONE),
    }
}

// The reply for C to a mark of this certificate.
pub(crate) fn marked(certificate: &Certificate) -> MarkReply
    ensures { CountsOf result certificate.now }
{
    MarkReply {
        status: OK,
        abandoned: certificate.snapshot.abandoned().len(),
        owned: certificate.snapshot.owned().len(),
        folds: certificate.plan.pairs().len(),
        short_set: certificate.short.ids().len(),
    }
}

pub(crate) fn unmarked(status: u32) -> MarkReply
    ensures { result.status ≡ status }
{
    MarkReply {
        status,
        abandoned: 0,
        owned: 0,
        folds: 0,
        short_set: 0,
    }
}

fn stepped(status: u32, abandoned: SpanId, owned: SpanId) -> StepReply
    ensures status { result.status ≡ status }
    ensures abandoned { IsIdOf result.abandoned abandoned }
    ensures owned { IsIdOf result.owned owned }
{
    StepReply {
        status,
        abandoned: raw_span(abandoned),
        owned: raw_span(owned),
    }
}

pub(crate) fn unstepped(status: u32) -> StepReply
    ensures { result.status ≡ status }
{
    StepReply {
        status,
        abandoned: no_span(),
        owned: no_span(),
    }
}

// What stands for a span where there is none, as the status says.
pub(crate) fn no_span() -> RawSpan {
    RawSpan {
        shard: 0,
        serial: 0,
    }
}
