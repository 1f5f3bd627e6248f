//! Cores that answer tables of events. Where an allocation is refused, what was refused is asked
//! again.
use arena_core::{Core, Event, Refusal, Reply};
use fold::Step;
use marks::Totals;
use span::names::{Key, Object, SpanId};
use span::spans::{Counted, Log};
use std::alloc::Global;

mod beginning;
mod classes;
mod forgetting;
mod large;
mod plans;
mod retiring;
mod setting;
mod slots;
mod spans;
mod trimming;
mod widths;

fn key(shard: u32, serial: u32, slot: u8, generation: u32) -> Option<Key> {
    Key::new(SpanId::new(shard, serial)?, slot, generation)
}

// A put of an object of one word.
fn put(shard: u32, word: u128) -> Event {
    Event::Put {
        shard,
        value: Object::c16(word),
    }
}

// A core of that many shards and pages.
fn new_core(alloc: Global, shards: u32, pages: usize) -> Option<Core> {
    Core::new(alloc, shards, pages, 8, 9).ok()
}

// What a reply says; of a plan, how many pairs it has.
#[derive(Clone, Copy, PartialEq, Eq)]
enum Told {
    Issued(Key),
    Found(Option<Object>),
    Replaced(bool),
    Freed(bool),
    Sent,
    Settled(Option<Key>),
    ShardEnded,
    ShardBegun,
    Retired(usize),
    Trimmed(usize),
    Adopted(SpanId),
    Marked(usize),
    Stepped(SpanId, SpanId, Step),
    NoPairLeft,
    Closed,
    NoPlan,
    Refused(Refusal),
}

// What a look-up of an object of one word is told.
fn found(word: u128) -> Told {
    Told::Found(Some(Object::c16(word)))
}

fn tell(reply: &Reply) -> Told {
    match reply {
        Reply::Issued(key) => Told::Issued(*key),
        Reply::Found(value) => Told::Found(*value),
        Reply::Replaced(done) => Told::Replaced(*done),
        Reply::Freed(done) => Told::Freed(*done),
        Reply::Sent => Told::Sent,
        Reply::Settled(key) => Told::Settled(*key),
        Reply::ShardEnded => Told::ShardEnded,
        Reply::ShardBegun => Told::ShardBegun,
        Reply::Retired(count) => Told::Retired(*count),
        Reply::Trimmed(count) => Told::Trimmed(*count),
        Reply::Adopted(head) => Told::Adopted(*head),
        Reply::Marked(certificate) => Told::Marked(certificate.plan.pairs().len()),
        Reply::Stepped(abandoned, owned, step) => Told::Stepped(*abandoned, *owned, *step),
        Reply::NoPairLeft => Told::NoPairLeft,
        Reply::Closed => Told::Closed,
        Reply::NoPlan => Told::NoPlan,
        Reply::Refused(refusal) => Told::Refused(*refusal),
    }
}

// What the core answers. Where an allocation was refused, the totals are as they were, and the
// event is asked again.
fn answer<L: Log>(core: &mut Core<L>, event: &Event) -> Option<Told> {
    let before = core.totals();
    let first = tell(&core.step(*event));
    if first != Told::Refused(Refusal::OutOfMemory) {
        return Some(first);
    }
    if core.totals() != before {
        return None;
    }
    Some(tell(&core.step(*event)))
}

// Whether both cores answer each event, and alike, and have the same totals in the end.
fn answer_alike(kept: &mut Core, counted: &mut Core<Counted>, events: &[Event]) -> bool {
    for event in events {
        let wanted = answer(kept, event);
        if wanted.is_none() || answer(counted, event) != wanted {
            return false;
        }
    }
    kept.totals() == counted.totals()
}

// Whether each event is answered as wanted, one after another.
fn are_answered(core: &mut Core, table: &[(Event, Told)]) -> bool {
    for (event, wanted) in table {
        if answer(core, event) != Some(*wanted) {
            return false;
        }
    }
    true
}

// The totals of a core of that many shards and pages, where it has answered as wanted.
fn totals_after(
    alloc: Global,
    shards: u32,
    pages: usize,
    table: &[(Event, Told)],
) -> Option<Totals> {
    let mut core = new_core(alloc, shards, pages)?;
    if are_answered(&mut core, table) {
        Some(core.totals())
    } else {
        None
    }
}

// Whether these are the replies.
fn are_told(replies: &[Reply], wanted: &[Told]) -> bool {
    for (reply, wanted) in replies.iter().zip(wanted.iter()) {
        if tell(reply) != *wanted {
            return false;
        }
    }
    replies.len() == wanted.len()
}

// Whether the core takes the events. Where the room for their replies was refused, the core and the
// replies are as they were, and it is asked again.
fn is_run(core: &mut Core, events: &[Event], replies: &mut Vec<Reply>) -> bool {
    let before = core.totals();
    let count = replies.len();
    if core.run(events, replies).is_ok() {
        return true;
    }
    core.totals() == before && replies.len() == count && core.run(events, replies).is_ok()
}

// Whether the core runs these events in two parts, after a first put.
fn are_run(core: &mut Core, replies: &mut Vec<Reply>) -> Option<bool> {
    let (first, second) = (key(0, 0, 0, 1)?, key(0, 0, 0, 2)?);
    let opening = [(put(0, 5), Told::Issued(first))];
    let events = [Event::Get { key: first }, Event::Free { key: first }];
    let later = [
        Event::Get { key: first },
        put(0, 6),
        Event::Get { key: first },
    ];
    let wanted = [
        found(5),
        Told::Freed(true),
        Told::Found(None),
        Told::Issued(second),
        Told::Found(None),
    ];
    let is_run = are_answered(core, opening.as_slice())
        && is_run(core, &events, replies)
        && is_run(core, &later, replies);
    Some(is_run && are_told(replies.as_slice(), wanted.as_slice()))
}

fn totals_after_run(alloc: Global) -> Option<Totals> {
    let mut core = new_core(alloc, 1, 4)?;
    let mut replies = Vec::new(alloc);
    if are_run(&mut core, &mut replies) == Some(true) {
        Some(core.totals())
    } else {
        None
    }
}

#[test]
fn a_freed_key_finds_nothing(rt: HostRuntime) {
    assert_eq!(rt;
        totals_after_run(rt.alloc()),
        Some(Totals { pages: 1, live: 1 })
    );
}

fn totals_after_moves(alloc: Global) -> Option<Totals> {
    let (first, second) = (key(0, 0, 0, 1)?, key(0, 0, 1, 1)?);
    let head = first.span;
    let table = [
        (put(0, 5), Told::Issued(first)),
        (Event::End { shard: 0 }, Told::ShardEnded),
        (Event::Get { key: first }, found(5)),
        (Event::Adopt { shard: 1 }, Told::Adopted(head)),
        (Event::Get { key: first }, found(5)),
        (put(1, 6), Told::Issued(second)),
        (Event::Free { key: first }, Told::Freed(true)),
        (Event::End { shard: 1 }, Told::ShardEnded),
        (Event::Adopt { shard: 2 }, Told::Adopted(head)),
        (Event::Get { key: second }, found(6)),
        (Event::Get { key: first }, Told::Found(None)),
        (Event::Free { key: first }, Told::Freed(false)),
    ];
    totals_after(alloc, 3, 4, table.as_slice())
}

#[test]
fn a_group_moves_whole(rt: HostRuntime) {
    assert_eq!(rt;
        totals_after_moves(rt.alloc()),
        Some(Totals { pages: 1, live: 1 })
    );
}

fn free_later(worker: u32, key: Key) -> Event {
    Event::Later { worker, key }
}

fn settle(worker: u32, shard: u32) -> Event {
    Event::Settle { worker, shard }
}

// A core of two shards whose rings hold one key.
fn new_core_of_short_rings(alloc: Global) -> Option<Core> {
    Core::new(alloc, 2, 4, 1, 9).ok()
}

// A key that is sent is live until it is settled, and is freed in the pool where its shard has
// ended; a key that is sent again frees nothing.
fn totals_after_settling(alloc: Global) -> Option<Totals> {
    let (first, second) = (key(0, 0, 0, 1)?, key(0, 0, 1, 1)?);
    let table = [
        (put(0, 5), Told::Issued(first)),
        (put(0, 6), Told::Issued(second)),
        (free_later(1, first), Told::Sent),
        (free_later(1, second), Told::Refused(Refusal::RingFull)),
        (free_later(0, second), Told::Sent),
        (free_later(2, first), Told::Refused(Refusal::Config)),
        (Event::Get { key: first }, found(5)),
        (Event::End { shard: 0 }, Told::ShardEnded),
        (settle(1, 0), Told::Settled(Some(first))),
        (Event::Get { key: first }, Told::Found(None)),
        (settle(1, 0), Told::Settled(None)),
        (free_later(1, first), Told::Sent),
        (settle(1, 0), Told::Settled(Some(first))),
        (settle(0, 1), Told::Settled(None)),
        (settle(0, 2), Told::Refused(Refusal::Config)),
        (Event::Get { key: second }, found(6)),
        (settle(0, 0), Told::Settled(Some(second))),
    ];
    let mut core = new_core_of_short_rings(alloc)?;
    if are_answered(&mut core, table.as_slice()) {
        Some(core.totals())
    } else {
        None
    }
}

#[test]
fn keys_are_freed_later_wherever_they_are(rt: HostRuntime) {
    assert_eq!(rt;
        totals_after_settling(rt.alloc()),
        Some(Totals { pages: 0, live: 0 })
    );
}

fn totals_after_refusals(alloc: Global) -> Option<Totals> {
    let (here, there, nowhere) = (key(0, 0, 0, 1)?, key(1, 0, 0, 1)?, key(3, 0, 0, 1)?);
    let table = [
        (
            Event::Adopt { shard: 1 },
            Told::Refused(Refusal::NothingToAdopt),
        ),
        (
            Event::Adopt { shard: 3 },
            Told::Refused(Refusal::NothingToAdopt),
        ),
        (Event::End { shard: 3 }, Told::Refused(Refusal::Config)),
        (put(3, 5), Told::Refused(Refusal::Config)),
        (put(0, 5), Told::Issued(here)),
        (put(1, 6), Told::Issued(there)),
        (
            Event::Adopt { shard: 1 },
            Told::Refused(Refusal::PagesSpent),
        ),
        (Event::End { shard: 0 }, Told::ShardEnded),
        (Event::Adopt { shard: 3 }, Told::Refused(Refusal::Config)),
        (
            Event::Adopt { shard: 1 },
            Told::Refused(Refusal::PagesSpent),
        ),
        (put(0, 6), Told::Refused(Refusal::Ended)),
        (Event::End { shard: 0 }, Told::Refused(Refusal::Ended)),
        (Event::Adopt { shard: 0 }, Told::Refused(Refusal::Ended)),
        (Event::Get { key: nowhere }, Told::Found(None)),
        (Event::Free { key: nowhere }, Told::Freed(false)),
        (Event::Get { key: here }, found(5)),
        (Event::Free { key: here }, Told::Freed(true)),
    ];
    totals_after(alloc, 3, 1, table.as_slice())
}

#[test]
fn each_cause_is_told(rt: HostRuntime) {
    assert_eq!(rt;
        totals_after_refusals(rt.alloc()),
        Some(Totals { pages: 1, live: 1 })
    );
}

// A core of three shards whose logs are only counted.
fn new_counted_core(alloc: Global) -> Option<Core<Counted>> {
    Core::with_log(alloc, 3, 4, 8, 9).ok()
}

// Whether a core with logs and one that only counts answer alike: calls on live and stale keys, an
// end, a fold, an adoption, and what is refused.
fn is_alike_with_no_log(alloc: Global) -> Option<bool> {
    let (freed, folded, later) = (key(0, 0, 0, 1)?, key(0, 0, 1, 1)?, key(0, 0, 0, 2)?);
    let events = [
        put(0, 10),
        put(0, 11),
        put(1, 12),
        put(2, 13),
        Event::Set {
            key: folded,
            value: Object::c16(16),
        },
        Event::Free { key: freed },
        Event::Free { key: freed },
        Event::Get { key: freed },
        Event::End { shard: 0 },
        put(0, 14),
        Event::Mark,
        Event::Adopt { shard: 1 },
        Event::Step,
        Event::Step,
        Event::Close,
        Event::Get { key: folded },
        Event::End { shard: 2 },
        Event::Adopt { shard: 1 },
        Event::Free { key: folded },
        Event::Get { key: later },
        put(1, 15),
    ];
    let mut kept = new_core(alloc, 3, 4)?;
    let mut counted = new_counted_core(alloc)?;
    Some(answer_alike(&mut kept, &mut counted, events.as_slice()))
}

#[test]
fn a_core_that_only_counts_answers_alike(rt: HostRuntime) {
    assert_eq!(rt; is_alike_with_no_log(rt.alloc()), Some(true));
}
