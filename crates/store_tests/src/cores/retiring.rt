// Groups of a running shard that go to the pool, are folded onto those that it keeps, and come
// back.
use super::{Told, found, key, put, totals_after};
use arena_core::{Event, Refusal};
use fold::Step;
use marks::Totals;
use std::alloc::Global;

fn retire(shard: u32, most: usize) -> Event {
    Event::Retire { shard, most }
}

// One shard with two groups, of two live keys and of one, no two at the same slot: the sparser one
// goes, is folded onto the other, and the other goes and comes back.
fn totals_after_retiring(alloc: Global) -> Option<Totals> {
    let (freed, first, second) = (key(0, 0, 0, 1)?, key(0, 0, 1, 1)?, key(0, 0, 2, 1)?);
    let other = key(1, 0, 0, 1)?;
    let (home, guest) = (first.span, other.span);
    let table = [
        (put(0, 5), Told::Issued(freed)),
        (put(0, 6), Told::Issued(first)),
        (put(0, 7), Told::Issued(second)),
        (Event::Free { key: freed }, Told::Freed(true)),
        (put(1, 8), Told::Issued(other)),
        (Event::End { shard: 1 }, Told::ShardEnded),
        (Event::Adopt { shard: 0 }, Told::Adopted(guest)),
        (retire(0, 1), Told::Retired(1)),
        (Event::MarkSome, Told::Marked(1)),
        (retire(0, 1), Told::Refused(Refusal::PlanOpen)),
        (Event::Step, Told::Stepped(guest, home, Step::Folded)),
        (Event::Step, Told::NoPairLeft),
        (Event::Close, Told::Closed),
        (retire(0, 5), Told::Retired(1)),
        (Event::Get { key: other }, found(8)),
        (Event::Adopt { shard: 0 }, Told::Adopted(home)),
        (Event::Get { key: first }, found(6)),
        (Event::Get { key: other }, found(8)),
        (Event::Get { key: freed }, Told::Found(None)),
    ];
    totals_after(alloc, 2, 4, table.as_slice())
}

#[test]
fn a_running_shard_folds(rt: HostRuntime) {
    assert_eq!(rt;
        totals_after_retiring(rt.alloc()),
        Some(Totals { pages: 1, live: 3 })
    );
}

// A shard with no group, with one that has no live key, and with one that has; one that has ended,
// and none.
fn totals_after_refusals(alloc: Global) -> Option<Totals> {
    let (first, second) = (key(0, 0, 0, 1)?, key(0, 0, 0, 2)?);
    let table = [
        (retire(0, 5), Told::Retired(0)),
        (put(0, 5), Told::Issued(first)),
        (retire(0, 0), Told::Retired(0)),
        (Event::Free { key: first }, Told::Freed(true)),
        (retire(0, 5), Told::Retired(0)),
        (put(0, 6), Told::Issued(second)),
        (retire(0, 5), Told::Retired(1)),
        (Event::End { shard: 1 }, Told::ShardEnded),
        (retire(1, 5), Told::Refused(Refusal::Ended)),
        (retire(2, 5), Told::Refused(Refusal::Config)),
        (Event::Get { key: second }, found(6)),
    ];
    totals_after(alloc, 2, 4, table.as_slice())
}

#[test]
fn retires_what_has_a_live_key(rt: HostRuntime) {
    assert_eq!(rt;
        totals_after_refusals(rt.alloc()),
        Some(Totals { pages: 1, live: 1 })
    );
}
