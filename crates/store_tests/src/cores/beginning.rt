// Shards that end and begin again, beside groups of theirs in the pool and a plan that folds these.
use super::{Told, found, key, put, totals_after};
use arena_core::{Event, Refusal};
use fold::Step;
use marks::Totals;
use std::alloc::Global;

fn begin(shard: u32) -> Event {
    Event::Begin { shard }
}

// Serials go on from where they stood, also once the shard has adopted what it had before. A begin
// of a shard that runs is refused, and so is one of none.
fn totals_after_begins(alloc: Global) -> Option<Totals> {
    let (first, second) = (key(0, 0, 0, 1)?, key(0, 1, 0, 1)?);
    let (beside, third) = (key(0, 0, 1, 1)?, key(0, 2, 0, 1)?);
    let table = [
        (begin(0), Told::Refused(Refusal::Running)),
        (put(0, 5), Told::Issued(first)),
        (begin(0), Told::Refused(Refusal::Running)),
        (Event::End { shard: 0 }, Told::ShardEnded),
        (put(0, 6), Told::Refused(Refusal::Ended)),
        (begin(2), Told::Refused(Refusal::Config)),
        (begin(0), Told::ShardBegun),
        (begin(0), Told::Refused(Refusal::Running)),
        (put(0, 6), Told::Issued(second)),
        (Event::Get { key: first }, found(5)),
        (Event::Adopt { shard: 0 }, Told::Adopted(first.span)),
        (put(0, 7), Told::Issued(beside)),
        (Event::End { shard: 0 }, Told::ShardEnded),
        (begin(0), Told::ShardBegun),
        (put(0, 8), Told::Issued(third)),
        (Event::Get { key: first }, found(5)),
        (Event::Get { key: second }, found(6)),
        (Event::Get { key: beside }, found(7)),
    ];
    totals_after(alloc, 2, 4, table.as_slice())
}

#[test]
fn a_shard_that_begins_again_issues_no_key_twice(rt: HostRuntime) {
    assert_eq!(rt;
        totals_after_begins(rt.alloc()),
        Some(Totals { pages: 3, live: 4 })
    );
}

// The shard begins while a plan is open that folds its group of before, and ends and begins once
// more. Keys of before find their objects, and those that were sent to the shard are settled.
fn totals_beside_a_plan(alloc: Global) -> Option<Totals> {
    let (first, second, third) = (key(0, 0, 0, 1)?, key(0, 1, 0, 1)?, key(0, 2, 0, 1)?);
    let (freed, other) = (key(1, 0, 0, 1)?, key(1, 0, 1, 1)?);
    let (guest, home) = (first.span, other.span);
    let table = [
        (put(0, 5), Told::Issued(first)),
        (put(1, 6), Told::Issued(freed)),
        (put(1, 7), Told::Issued(other)),
        (Event::Free { key: freed }, Told::Freed(true)),
        (Event::End { shard: 0 }, Told::ShardEnded),
        (
            Event::Later {
                worker: 1,
                key: first,
            },
            Told::Sent,
        ),
        (Event::Mark, Told::Marked(1)),
        (begin(0), Told::ShardBegun),
        (begin(1), Told::Refused(Refusal::Running)),
        (put(0, 8), Told::Issued(second)),
        (Event::Adopt { shard: 0 }, Told::Refused(Refusal::PlanOpen)),
        (Event::Step, Told::Stepped(guest, home, Step::Folded)),
        (Event::End { shard: 0 }, Told::ShardEnded),
        (begin(0), Told::ShardBegun),
        (Event::Close, Told::Closed),
        (put(0, 9), Told::Issued(third)),
        (Event::Get { key: first }, found(5)),
        (Event::Get { key: second }, found(8)),
        (
            Event::Settle {
                worker: 1,
                shard: 0,
            },
            Told::Settled(Some(first)),
        ),
        (Event::Get { key: first }, Told::Found(None)),
        (Event::Get { key: third }, found(9)),
    ];
    totals_after(alloc, 2, 4, table.as_slice())
}

#[test]
fn a_shard_begins_again_beside_a_plan(rt: HostRuntime) {
    assert_eq!(rt;
        totals_beside_a_plan(rt.alloc()),
        Some(Totals { pages: 3, live: 3 })
    );
}
