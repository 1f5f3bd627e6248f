// Cores whose shards may open few spans.
use super::{Told, are_answered, found, key, put};
use crate::objects::{wide, widest};
use arena_core::{Core, Event, Refusal};
use marks::{Limits, Totals};
use span::names::MOST_SPANS;
use std::alloc::Global;

// The numbers of a core of two shards, each of four pages, which may open that many spans.
fn limits_of(span_limit: u32) -> Option<Limits> {
    Limits::new(2, 4, 8, 9)?.with_span_limit(span_limit)
}

// A core whose shards may open that many spans.
fn core_of_spans(alloc: Global, span_limit: u32) -> Option<Core> {
    Some(Core::with_limits(alloc, limits_of(span_limit)?))
}

#[test]
fn each_shard_may_open_a_span_at_least(rt: HostRuntime) {
    let said = [
        limits_of(0).is_some(),
        limits_of(1).is_some(),
        limits_of(MOST_SPANS).is_some(),
    ];
    assert_eq!(rt; said, [false, true, true]);
}

// A third span is refused in one shard, which goes on with the groups that it has, and opened in
// the other. Whoever adopts opens none.
fn totals_of_two_spans(alloc: Global) -> Option<Totals> {
    let (first, second) = (key(0, 0, 0, 1)?, key(0, 1, 0, 1)?);
    let (other, next) = (key(1, 0, 0, 1)?, key(0, 0, 1, 1)?);
    let table = [
        (put(0, 5), Told::Issued(first)),
        (
            Event::Put {
                shard: 0,
                value: wide(6),
            },
            Told::Issued(second),
        ),
        (
            Event::Put {
                shard: 0,
                value: widest(7),
            },
            Told::Refused(Refusal::PagesSpent),
        ),
        (
            Event::Put {
                shard: 1,
                value: widest(7),
            },
            Told::Issued(other),
        ),
        (put(0, 8), Told::Issued(next)),
        (Event::Get { key: next }, found(8)),
        (Event::End { shard: 1 }, Told::ShardEnded),
        (Event::Adopt { shard: 0 }, Told::Adopted(other.span)),
        (Event::Get { key: other }, Told::Found(Some(widest(7)))),
        (Event::Free { key: first }, Told::Freed(true)),
        (Event::Get { key: first }, Told::Found(None)),
    ];
    let mut core = core_of_spans(alloc, 2)?;
    if are_answered(&mut core, table.as_slice()) {
        Some(core.totals())
    } else {
        None
    }
}

#[test]
fn a_shard_opens_as_many_spans_as_it_may(rt: HostRuntime) {
    assert_eq!(rt;
        totals_of_two_spans(rt.alloc()),
        Some(Totals { pages: 3, live: 3 })
    );
}
