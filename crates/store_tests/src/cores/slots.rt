// Cores whose puts take few slots of a page.
use super::{Told, answer, are_answered, found, key, put};
use arena_core::{Core, Event, Refusal};
use marks::{Limits, Totals};
use std::alloc::Global;

// The numbers of a core of two shards of two pages each, whose puts take that many slots of a page.
fn limits_of(slot_limit: u16) -> Option<Limits> {
    Limits::new(2, 2, 8, 9)?.with_slot_limit(slot_limit)
}

#[test]
fn puts_may_take_a_slot_at_least(rt: HostRuntime) {
    let said = [
        limits_of(0).is_some(),
        limits_of(1).is_some(),
        limits_of(256).is_some(),
        limits_of(257).is_some(),
    ];
    assert_eq!(rt; said, [false, true, true, false]);
}

// Puts until one is refused, at most 600 times. It gives how often it put, and whether the refusal
// is for want of pages.
fn fill(core: &mut Core) -> (usize, bool) {
    let mut count = 0usize;
    for _ in 0..600 {
        match answer(core, &put(0, 7)) {
            Some(Told::Issued(_)) => count = count.saturating_add(1),
            other => return (count, other == Some(Told::Refused(Refusal::PagesSpent))),
        }
    }
    (count, false)
}

fn filled(alloc: Global, slot_limit: u16) -> Option<(usize, bool, Totals)> {
    let mut core = Core::with_limits(alloc, limits_of(slot_limit)?);
    let (count, spent) = fill(&mut core);
    Some((count, spent, core.totals()))
}

#[test]
fn a_shard_fills_as_many_slots_as_it_may(rt: HostRuntime) {
    for slot_limit in [1u16, 16, 100, 128, 255, 256] {
        let live = usize::from(slot_limit).saturating_mul(2);
        assert_eq!(rt;
            filled(rt.alloc(), slot_limit),
            Some((live, true, Totals { pages: 2, live }))
        );
    }
}

// Of two slots a page: the third put opens a page, and a freed slot is taken before.
fn totals_of_two_slots(alloc: Global) -> Option<Totals> {
    let (first, second) = (key(0, 0, 0, 1)?, key(0, 0, 1, 1)?);
    let (third, again) = (key(0, 1, 0, 1)?, key(0, 0, 0, 2)?);
    let table = [
        (put(0, 5), Told::Issued(first)),
        (put(0, 6), Told::Issued(second)),
        (put(0, 7), Told::Issued(third)),
        (Event::Free { key: first }, Told::Freed(true)),
        (put(0, 8), Told::Issued(again)),
        (Event::Get { key: second }, found(6)),
        (Event::Get { key: again }, found(8)),
    ];
    let mut core = Core::with_limits(alloc, limits_of(2)?);
    if are_answered(&mut core, table.as_slice()) {
        Some(core.totals())
    } else {
        None
    }
}

#[test]
fn opens_a_page_once_its_slots_are_taken(rt: HostRuntime) {
    assert_eq!(rt;
        totals_of_two_slots(rt.alloc()),
        Some(Totals { pages: 2, live: 3 })
    );
}
