// Marks, steps and closes of the core.
use super::{Told, answer, are_answered, found, key, new_core, put, tell};
use arena_core::{Core, Event, Refusal};
use fold::Step;
use marks::Totals;
use span::names::{Key, SpanId};
use std::alloc::Global;

// Keys of shard 0, of which the first is freed, and of shard 1.
fn keys() -> Option<[Key; 3]> {
    Some([key(0, 0, 0, 1)?, key(0, 0, 1, 1)?, key(1, 0, 0, 1)?])
}

// Whether the shard of this number ends with one group, and shard 1 adopts it.
fn is_given(core: &mut Core, number: u32) -> bool {
    let Some(made) = key(number, 0, 0, 1) else {
        return false;
    };
    let table = [
        (put(number, 3), Told::Issued(made)),
        (Event::End { shard: number }, Told::ShardEnded),
        (Event::Adopt { shard: 1 }, Told::Adopted(made.span)),
    ];
    are_answered(core, table.as_slice())
}

// Whether the pool gets a group that may be folded onto the first group of shard 1, to which each
// shard past that one gives a group.
fn is_made(core: &mut Core, keys: [Key; 3], shards: u32) -> bool {
    let [freed, folded, kept] = keys;
    if answer(core, &put(1, 7)) != Some(Told::Issued(kept)) {
        return false;
    }
    for number in 2..shards {
        if !is_given(core, number) {
            return false;
        }
    }
    let table = [
        (put(0, 10), Told::Issued(freed)),
        (put(0, 11), Told::Issued(folded)),
        (Event::Free { key: freed }, Told::Freed(true)),
        (Event::End { shard: 0 }, Told::ShardEnded),
    ];
    are_answered(core, table.as_slice())
}

// What the keys find, before the fold and after it.
fn looks(keys: [Key; 3]) -> [(Event, Told); 3] {
    let [freed, folded, kept] = keys;
    [
        (Event::Get { key: freed }, Told::Found(None)),
        (Event::Get { key: folded }, found(11)),
        (Event::Get { key: kept }, found(7)),
    ]
}

// Whether a mark plans that many folds. Where an allocation was refused, no plan is open and
// nothing is lost, and the mark is asked again.
fn is_marked(core: &mut Core, looks: &[(Event, Told)], pairs: usize) -> bool {
    let before = core.totals();
    let first = tell(&core.step(Event::Mark));
    if first != Told::Refused(Refusal::OutOfMemory) {
        return first == Told::Marked(pairs);
    }
    let opens = [
        (Event::Step, Told::NoPlan),
        (Event::Mark, Told::Marked(pairs)),
    ];
    core.totals() == before && are_answered(core, looks) && are_answered(core, opens.as_slice())
}

fn is_made_and_marked(core: &mut Core, keys: [Key; 3], shards: u32) -> bool {
    is_made(core, keys, shards) && is_marked(core, looks(keys).as_slice(), 1)
}

// Whether a step folds the one pair. Where an allocation was refused, the plan stays open, the pair
// stays next and nothing is lost, and the step is asked again.
fn is_stepped(core: &mut Core, keys: [Key; 3]) -> bool {
    let [freed, _, kept] = keys;
    let before = core.totals();
    let wanted = Told::Stepped(freed.span, kept.span, Step::Folded);
    let first = tell(&core.step(Event::Step));
    if first != Told::Refused(Refusal::OutOfMemory) {
        return first == wanted;
    }
    let goes_on = [
        (Event::Mark, Told::Refused(Refusal::PlanOpen)),
        (Event::End { shard: 1 }, Told::Refused(Refusal::PlanOpen)),
        (Event::Step, wanted),
    ];
    core.totals() == before
        && are_answered(core, looks(keys).as_slice())
        && are_answered(core, goes_on.as_slice())
}

fn refused(event: Event) -> (Event, Told) {
    (event, Told::Refused(Refusal::PlanOpen))
}

// Whether an open plan refuses what it must.
fn is_refused(core: &mut Core) -> bool {
    let table = [
        refused(Event::Mark),
        refused(Event::MarkSome),
        refused(Event::Adopt { shard: 1 }),
        refused(Event::Adopt { shard: 70 }),
        refused(Event::End { shard: 1 }),
    ];
    are_answered(core, table.as_slice())
}

// Whether a put still passes the closed group by, and the plan ends with its close.
fn is_closed(core: &mut Core, later: Key) -> bool {
    let table = [
        (Event::End { shard: 1 }, Told::Refused(Refusal::PlanOpen)),
        (put(1, 8), Told::Issued(later)),
        (Event::Get { key: later }, found(8)),
        (Event::Step, Told::NoPairLeft),
        (Event::Close, Told::Closed),
        (Event::Step, Told::NoPlan),
        (Event::Close, Told::NoPlan),
        (Event::End { shard: 1 }, Told::ShardEnded),
    ];
    are_answered(core, table.as_slice())
}

// The totals before a fold and after it.
fn totals_of_fold(core: &mut Core, shards: u32, later: Key) -> Option<[Totals; 2]> {
    let keys = keys()?;
    let is_open = is_made_and_marked(core, keys, shards) && is_refused(core);
    let before = core.totals();
    let is_folded = is_open && is_stepped(core, keys) && are_answered(core, looks(keys).as_slice());
    let after = core.totals();
    if is_folded && is_closed(core, later) {
        Some([before, after])
    } else {
        None
    }
}

fn one_fold(alloc: Global, shards: u32, later: (u32, u32, u8)) -> Option<[Totals; 2]> {
    let later = key(later.0, later.1, later.2, 1)?;
    let mut core = new_core(alloc, shards, 8)?;
    totals_of_fold(&mut core, shards, later)
}

// The maps of shard 1 are full at three groups, and its lists at four.
#[test]
fn a_fold_saves_a_page(rt: HostRuntime) {
    for (shards, pages, later) in [(2, 2, (1, 1, 0)), (4, 4, (2, 0, 1)), (5, 5, (2, 0, 1))] {
        let saved = [
            Totals { pages, live: pages },
            Totals {
                pages: pages - 1,
                live: pages,
            },
        ];
        assert_eq!(rt; one_fold(rt.alloc(), shards, later), Some(saved));
    }
}

fn is_passed(core: &mut Core) -> Option<bool> {
    let keys = keys()?;
    let [freed, folded, kept] = keys;
    let emptied = Told::Stepped(freed.span, kept.span, Step::Emptied);
    let table = [
        (Event::Free { key: folded }, Told::Freed(true)),
        (Event::Step, emptied),
        (Event::Step, Told::NoPairLeft),
        (Event::Get { key: kept }, found(7)),
    ];
    Some(is_made_and_marked(core, keys, 2) && are_answered(core, table.as_slice()))
}

fn emptied_group(alloc: Global) -> Option<bool> {
    let mut core = new_core(alloc, 2, 8)?;
    is_passed(&mut core)
}

#[test]
fn an_emptied_group_is_passed(rt: HostRuntime) {
    assert_eq!(rt; emptied_group(rt.alloc()), Some(true));
}

// Whether the shard puts a key at each of the first slots.
fn are_put(core: &mut Core, shard: u32, slots: u8) -> bool {
    for slot in 0..slots {
        let Some(made) = key(shard, 0, slot, 1) else {
            return false;
        };
        if answer(core, &put(shard, 5)) != Some(Told::Issued(made)) {
            return false;
        }
    }
    true
}

// Whether the first of the pool's groups may be folded onto either of the others, and the second
// onto the first of them alone.
fn are_left(core: &mut Core) -> Option<bool> {
    let table = [
        (
            Event::Free {
                key: key(0, 0, 0, 1)?,
            },
            Told::Freed(true),
        ),
        (
            Event::Free {
                key: key(0, 0, 1, 1)?,
            },
            Told::Freed(true),
        ),
        (
            Event::Free {
                key: key(1, 0, 0, 1)?,
            },
            Told::Freed(true),
        ),
        (Event::End { shard: 0 }, Told::ShardEnded),
        (Event::End { shard: 1 }, Told::ShardEnded),
    ];
    let are_put = are_put(core, 0, 3)
        && are_put(core, 1, 2)
        && are_put(core, 2, 1)
        && are_put(core, 3, 2);
    Some(are_put && are_answered(core, table.as_slice()))
}

fn look(key: Key) -> (Event, Told) {
    (Event::Get { key }, found(5))
}

fn stepped(abandoned: Key, owned: Key) -> (Event, Told) {
    let folded = Told::Stepped(abandoned.span, owned.span, Step::Folded);
    (Event::Step, folded)
}

fn are_folded(core: &mut Core) -> Option<bool> {
    let (first, second) = (key(0, 0, 2, 1)?, key(1, 0, 1, 1)?);
    let (onto, other) = (key(2, 0, 0, 1)?, key(3, 0, 1, 1)?);
    let looks = [look(first), look(second), look(onto), look(other)];
    let steps = [stepped(first, other), stepped(second, onto)];
    let are_folded = is_marked(core, looks.as_slice(), 2) && are_answered(core, steps.as_slice());
    Some(are_folded && are_answered(core, looks.as_slice()))
}

fn two_folds(alloc: Global) -> Option<bool> {
    let mut core = new_core(alloc, 4, 4)?;
    Some(are_left(&mut core)? && are_folded(&mut core)?)
}

#[test]
fn a_mark_plans_two_folds(rt: HostRuntime) {
    assert_eq!(rt; two_folds(rt.alloc()), Some(true));
}
