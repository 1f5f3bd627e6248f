//! That a gathering asks for a block for each page that it moves, and says how many these are.
use crate::refusing::{refuse, standing, was_refused};
use arena::{Arena, NoGate, Seat};
use span::names::Object;
use std::alloc::{AllocError, Global};
use std::sync::Wait;

// One more than share a page.
const OBJECTS: usize = 257;

fn put<R: Wait>(rt: &R, arena: &Arena<NoGate>, seat: &mut Seat) -> Option<()> {
    for _ in 0..OBJECTS {
        if !seat.fits(arena) || seat.put(rt, arena, Object::c16(5)).is_err() {
            return None;
        }
    }
    Some(())
}

type Gathered = Result<usize, AllocError>;

// What a gathering of the seat's shard comes to.
fn gather<R: Wait>(
    rt: &R,
    arena: &Arena<NoGate>,
    seat: &mut Seat,
    from: usize,
) -> Option<Gathered> {
    if !seat.fits(arena) {
        return None;
    }
    Some(seat.gather(rt, arena, from, 9))
}

// What gatherings of two pages come to: from the first, the second and behind both, and whether one
// whose second block is refused says so, or nothing is refused.
type Told = ([Gathered; 3], bool);

// Whether it is as it ought to be, if the second block was to be refused.
fn is_told(alloc: Global, gathered: Gathered) -> bool {
    let is_refused = was_refused(alloc);
    gathered.is_err() == is_refused && is_refused == standing(alloc).is_some()
}

fn of_a_seat<R: Wait>(
    rt: &R,
    alloc: Global,
    arena: &Arena<NoGate>,
    seat: &mut Seat,
) -> Option<Told> {
    refuse(alloc, 2);
    let refused = gather(rt, arena, seat, 0);
    let is_told = is_told(alloc, refused?);
    let all = gather(rt, arena, seat, 0)?;
    let second = gather(rt, arena, seat, 1)?;
    let none = gather(rt, arena, seat, 2)?;
    Some(([all, second, none], is_told))
}

fn of_the_pool<R: Wait>(rt: &R, alloc: Global, arena: &Arena<NoGate>) -> Told {
    refuse(alloc, 2);
    let is_told = is_told(alloc, arena.gather_pool(rt, 0, 9));
    let all = arena.gather_pool(rt, 0, 9);
    let second = arena.gather_pool(rt, 1, 9);
    let none = arena.gather_pool(rt, 2, 9);
    ([all, second, none], is_told)
}

fn told<R: Wait>(rt: &R, alloc: Global) -> Option<[Told; 2]> {
    let (arena, mut seats, _) = Arena::open(alloc, 1, 4, 4, 9, NoGate).ok()?;
    let mut seat = seats.pop()?;
    put(rt, &arena, &mut seat)?;
    let seated = of_a_seat(rt, alloc, &arena, &mut seat)?;
    if !seat.fits(&arena) || seat.end(rt, &arena).is_err() {
        return None;
    }
    Some([seated, of_the_pool(rt, alloc, &arena)])
}

#[test]
fn asks_for_each_block(rt: HostRuntime) {
    let wanted = ([Ok(2), Ok(1), Ok(0)], true);
    assert_eq!(rt; told(&rt, rt.alloc()), Some([wanted; 2]));
}
