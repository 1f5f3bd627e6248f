// Objects of several classes in one core.
use super::{Told, found, key, put, totals_after};
use crate::objects::{wide, widest};
use arena_core::{Event, Refusal};
use fold::Step;
use marks::Totals;
use span::names::Object;
use std::alloc::Global;

fn put_object(shard: u32, value: Object) -> Event {
    Event::Put { shard, value }
}

// A group of each class goes to the pool. The one of 64 bytes is folded onto one of its class, and
// each key finds its object.
fn totals_after_a_fold(alloc: Global) -> Option<Totals> {
    let (small, middle, large) = (key(0, 0, 0, 1)?, key(0, 1, 0, 1)?, key(0, 2, 0, 1)?);
    let (freed, onto, other) = (key(1, 0, 0, 1)?, key(1, 0, 1, 1)?, key(1, 1, 0, 1)?);
    let table = [
        (put(0, 5), Told::Issued(small)),
        (put_object(0, wide(8)), Told::Issued(middle)),
        (put_object(0, widest(9)), Told::Issued(large)),
        (Event::End { shard: 0 }, Told::ShardEnded),
        (put_object(1, wide(12)), Told::Issued(freed)),
        (put_object(1, wide(16)), Told::Issued(onto)),
        (put_object(1, widest(7)), Told::Issued(other)),
        (Event::Free { key: freed }, Told::Freed(true)),
        (Event::Mark, Told::Marked(1)),
        (
            Event::Step,
            Told::Stepped(middle.span, onto.span, Step::Folded),
        ),
        (Event::Close, Told::Closed),
        (Event::Get { key: small }, found(5)),
        (Event::Get { key: middle }, Told::Found(Some(wide(8)))),
        (Event::Get { key: onto }, Told::Found(Some(wide(16)))),
        (Event::Get { key: large }, Told::Found(Some(widest(9)))),
        (Event::Get { key: other }, Told::Found(Some(widest(7)))),
        (Event::Get { key: freed }, Told::Found(None)),
    ];
    totals_after(alloc, 2, 4, table.as_slice())
}

#[test]
fn groups_of_one_class_share_a_page(rt: HostRuntime) {
    assert_eq!(rt;
        totals_after_a_fold(rt.alloc()),
        Some(Totals { pages: 4, live: 5 })
    );
}

// A page of one class takes no object of another: the second class of a shard of one page is
// refused, and the first is not.
fn totals_on_one_page(alloc: Global) -> Option<Totals> {
    let (first, second) = (key(0, 0, 0, 1)?, key(0, 0, 1, 1)?);
    let table = [
        (put_object(0, wide(4)), Told::Issued(first)),
        (put(0, 5), Told::Refused(Refusal::PagesSpent)),
        (put_object(0, widest(6)), Told::Refused(Refusal::PagesSpent)),
        (put_object(0, wide(8)), Told::Issued(second)),
        (Event::Get { key: first }, Told::Found(Some(wide(4)))),
        (Event::Get { key: second }, Told::Found(Some(wide(8)))),
    ];
    totals_after(alloc, 1, 1, table.as_slice())
}

#[test]
fn each_class_needs_its_own_page(rt: HostRuntime) {
    assert_eq!(rt;
        totals_on_one_page(rt.alloc()),
        Some(Totals { pages: 1, live: 2 })
    );
}
