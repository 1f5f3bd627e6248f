//! The partners of a short set by threads are those at hand, and those that pairwise tests give.
//! Where an allocation is refused, what was refused is asked again.
ghost use Rattle.std.specs.Prelude.{◌≤◌};

use bitmap::Bits256;
use certificate::{Short, partners};
use mesh_graph::{AtHand, ByThreads, Entry, Runner, Snapshot};
use span::names::{CLASSES, Class, SpanId};
use std::alloc::Global;
use std::thread::Threads;

// How many groups a side has, how many neighbouring slots each abandoned one has, and of how many
// classes the groups are in turn.
#[derive(Clone, Copy)]
struct Sides {
    abandoned: u32,
    owned: u32,
    slots: u32,
    classes: usize,
}

// So many slots from the first on.
fn neighbours(first: u32, count: u32) -> Bits256 {
    let mut slots = Bits256::empty();
    for k in 0..count {
        slots.insert((first.wrapping_add(k) % 256) as u8);
    }
    slots
}

fn entry(shard: u32, serial: u32, classes: usize, occupied: Bits256) -> Option<Entry> {
    let id = SpanId::new(shard, serial)?;
    let class = Class::of_words(serial as usize % classes.max(1) + 1)?;
    Some(Entry {
        id,
        class,
        occupied,
    })
}

fn abandoned(alloc: Global, sides: Sides) -> Option<Vec<Entry>> {
    let mut groups = Vec::new(alloc);
    for k in 0..sides.abandoned {
        let occupied = neighbours(k.wrapping_mul(5), sides.slots);
        groups.push(entry(0, k, sides.classes, occupied)?).ok()?;
    }
    Some(groups)
}

// Group k has at most three slots.
fn owned(alloc: Global, sides: Sides) -> Option<Vec<Entry>> {
    let mut groups = Vec::new(alloc);
    for k in 0..sides.owned {
        let mut occupied = Bits256::empty();
        occupied.insert((k % 256) as u8);
        occupied.insert((k.wrapping_mul(k) % 256) as u8);
        occupied.insert((k / 3 % 256) as u8);
        groups.push(entry(1, k, sides.classes, occupied)?).ok()?;
    }
    Some(groups)
}

fn snapshot(alloc: Global, sides: Sides) -> Option<Snapshot> {
    Snapshot::new(abandoned(alloc, sides)?, owned(alloc, sides)?).ok()
}

// Every third abandoned group, and an id that no group has.
fn short(alloc: Global, sides: Sides) -> Option<Short> {
    let mut ids = Vec::new(alloc);
    for k in 0..sides.abandoned {
        if k % 3 == 0 {
            ids.push(SpanId::new(0, k)?).ok()?;
        }
    }
    ids.push(SpanId::new(2, 0)?).ok()?;
    Some(Short::new(ids))
}

fn both(alloc: Global, sides: Sides) -> Option<(Snapshot, Short)> {
    Some((snapshot(alloc, sides)?, short(alloc, sides)?))
}

fn both_again(alloc: Global, sides: Sides) -> Option<(Snapshot, Short)> {
    match both(alloc, sides) {
        None => both(alloc, sides),
        made => made,
    }
}

// The partners. Where memory was refused, the same call lists them the second time.
fn partners_again<R: Runner>(
    runner: &R,
    alloc: Global,
    snapshot: &Snapshot,
    short: &Short,
    pieces: usize,
) -> Option<Vec<SpanId>>
    requires pieces { 1 ≤ pieces }
    requires ready { R.ready runner.now }
{
    match partners(runner, alloc, snapshot, short, pieces) {
        Err(_) => partners(runner, alloc, snapshot, short, pieces).ok(),
        found => found.ok(),
    }
}

fn has_partner(snapshot: &Snapshot, short: &Short, owned: SpanId) -> bool {
    for id in short.ids() {
        if snapshot.is_compatible(*id, owned) {
            return true;
        }
    }
    false
}

// Whether these are the partners that pairwise tests give, some of the owned groups and not all.
fn are_pairwise(snapshot: &Snapshot, short: &Short, found: &[SpanId]) -> bool {
    let mut next = 0usize;
    for entry in snapshot.owned() {
        if has_partner(snapshot, short, entry.id) {
            if found.get(next) != Some(&entry.id) {
                return false;
            }
            next = next.saturating_add(1);
        }
    }
    next == found.len() && next > 0 && next < snapshot.owned().len()
}

// Whether the partners that threads list in so many pieces are those at hand, and those of pairwise
// tests.
fn are_same<R: Threads + Sync>(rt: &R, alloc: Global, sides: Sides, pieces: usize) -> Option<bool>
    requires { 1 ≤ pieces }
{
    let (snapshot, short) = both_again(alloc, sides)?;
    let runner = ByThreads::from_steps(rt, 0);
    let at_hand = partners_again(&AtHand, alloc, &snapshot, &short, 1)?;
    let by_threads = partners_again(&runner, alloc, &snapshot, &short, pieces)?;
    let are_pairwise = are_pairwise(&snapshot, &short, &at_hand);
    Some(are_pairwise && at_hand.as_slice() == by_threads.as_slice())
}

// Sets of up to 190 slots go by the rows of slots, and sets of more by words; so do all if few
// groups are owned.
fn some_sides(owned: u32, slots: u32, classes: usize) -> Sides {
    Sides {
        abandoned: 150,
        owned,
        slots,
        classes,
    }
}

#[test]
fn partners_by_threads_are_those_at_hand(rt: HostRuntime) {
    for pieces in [1, 3] {
        for slots in [170, 240] {
            for classes in [1, 3, CLASSES] {
                assert_eq!(rt;
                    are_same(&rt, rt.alloc(), some_sides(65, slots, classes), pieces),
                    Some(true)
                );
            }
        }
    }
}

#[test]
fn partners_by_threads_are_those_at_hand_in_full(rt: HostRuntime) {
    for pieces in [1, 2, 3, 7, 64] {
        for owned in [65, 300] {
            for slots in [170, 240] {
                for classes in [1, 3, CLASSES] {
                    assert_eq!(rt;
                        are_same(&rt, rt.alloc(), some_sides(owned, slots, classes), pieces),
                        Some(true)
                    );
                }
            }
        }
    }
}

#[test]
fn partners_of_more_groups_than_a_graph_has(rt: HostRuntime) {
    let sides = Sides {
        abandoned: 30,
        owned: 4200,
        slots: 240,
        classes: 1,
    };
    assert_eq!(rt; are_same(&rt, rt.alloc(), sides, 3), Some(true));
}

#[test]
fn partners_of_more_groups_than_a_graph_has_in_full(rt: HostRuntime) {
    for classes in [1, 3, CLASSES] {
        assert_eq!(rt;
            are_same(&rt, rt.alloc(), some_sides(4200, 240, classes), 3),
            Some(true)
        );
    }
}
