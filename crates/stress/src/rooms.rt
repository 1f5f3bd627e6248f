// How much a shard of an arena takes.
ghost use Rattle.std.specs.Prelude.{◌≡◌};

use arena::{Arena, NoGate, Seat};
use marks::{Limits, Totals};
use shard::PutError;
use span::names::{Key, Object};
use std::alloc::Global;
use std::sync::Wait;
use std::test::Fail;

// Puts until it is refused for another reason than memory, at most 2,000 times. It gives how often
// it put, the first key, and the refusal.
fn fill<R: Wait>(
    rt: &R,
    arena: &Arena<NoGate>,
    seat: &mut Seat,
) -> (usize, Option<Key>, Option<PutError>)
    requires { seat.old.limits ≡ arena.now.limits }
    ensures { seat.new.limits ≡ seat.old.limits }
{
    let mut count = 0usize;
    let mut first = None;
    for _ in 0..2000 {
        match seat.put(rt, arena, Object::c16(7)) {
            Ok((key, _)) => {
                count = count.saturating_add(1);
                first = first.or(Some(key));
            }
            Err(PutError::OutOfMemory) => {}
            Err(refused) => return (count, first, Some(refused)),
        }
    }
    (count, first, None)
}

// Fills the shard, frees the first key, and fills it again. It gives how often it put each time,
// each refusal, and what the arena then has.
type Filled = ([(usize, Option<PutError>); 2], Totals);

fn fill_twice<R: Wait>(rt: &R, arena: &Arena<NoGate>, seat: &mut Seat) -> Option<Filled>
    requires { seat.old.limits ≡ arena.now.limits }
{
    let (count, first, refused) = fill(rt, arena, seat);
    seat.free(rt, arena, &first?);
    let (again, _, refused_again) = fill(rt, arena, seat);
    let fills = [(count, refused), (again, refused_again)];
    Some((fills, arena.totals(rt)))
}

// The same of the last of three shards, of two pages each and two generations.
fn filled<R: Wait>(rt: &R, alloc: Global) -> Option<Filled> {
    let Ok((arena, mut seats, _)) = Arena::open(alloc, 3, 2, 4, 2, NoGate) else {
        return None;
    };
    let mut seat = seats.pop()?;
    if !seat.fits(&arena) {
        return None;
    }
    fill_twice(rt, &arena, &mut seat)
}

#[test]
fn takes_all_its_pages(rt: HostRuntime) -> Result<(), Fail> {
    // Once more where memory was refused.
    let filled = match filled(&rt, rt.alloc()) {
        Some(filled) => Some(filled),
        None => filled(&rt, rt.alloc()),
    };
    let spent = Some(PutError::PagesSpent);
    let totals = Totals {
        pages: 2,
        live: 512,
    };
    assert_eq!(rt; filled, Some(([(512, spent), (1, spent)], totals)));
    Ok(())
}

// A put of the last of three shards, of two pages each, of which it takes that many slots.
fn filled_by_slots<R: Wait>(rt: &R, alloc: Global, slot_limit: u16) -> Option<Filled> {
    let limits = Limits::new(3, 2, 4, 2)?.with_slot_limit(slot_limit)?;
    let (arena, mut seats, _) = Arena::with_limits(alloc, limits, NoGate).ok()?;
    let mut seat = seats.pop()?;
    if !seat.fits(&arena) {
        return None;
    }
    fill_twice(rt, &arena, &mut seat)
}

#[test]
fn takes_as_many_slots_as_it_may(rt: HostRuntime) -> Result<(), Fail> {
    for slot_limit in [1u16, 16, 100, 128, 255, 256] {
        // Once more if memory was refused.
        let filled = match filled_by_slots(&rt, rt.alloc(), slot_limit) {
            Some(filled) => Some(filled),
            None => filled_by_slots(&rt, rt.alloc(), slot_limit),
        };
        let live = usize::from(slot_limit).saturating_mul(2);
        let spent = Some(PutError::PagesSpent);
        let totals = Totals { pages: 2, live };
        assert_eq!(rt; filled, Some(([(live, spent), (1, spent)], totals)));
    }
    Ok(())
}
