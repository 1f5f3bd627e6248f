//! Trims through a seat: each gives back the idle pages of the worker's own shard, and of no other.
ghost use Rattle.std.specs.Prelude.{◌≡◌};

use arena::{Arena, NoGate, Seat};
use marks::Totals;
use span::names::{Key, Object};
use std::alloc::Global;
use std::sync::Wait;
use std::test::Fail;

// Puts an object, and does so again where memory was refused.
fn put<R: Wait>(rt: &R, arena: &Arena<NoGate>, seat: &mut Seat) -> Option<Key>
    requires { seat.old.limits ≡ arena.now.limits }
    ensures { seat.new.limits ≡ seat.old.limits }
{
    match seat.put(rt, arena, Object::c16(5)) {
        Ok((key, _)) => Some(key),
        Err(_) => match seat.put(rt, arena, Object::c16(5)) {
            Ok((key, _)) => Some(key),
            Err(_) => None,
        },
    }
}

fn free<R: Wait>(rt: &R, arena: &Arena<NoGate>, seat: &mut Seat, key: &Key) -> bool
    requires { seat.old.limits ≡ arena.now.limits }
    ensures { seat.new.limits ≡ seat.old.limits }
{
    seat.free(rt, arena, key).0
}

// How many pages the worker's shard gave back.
fn trim<R: Wait>(rt: &R, arena: &Arena<NoGate>, seat: &mut Seat) -> usize
    requires { seat.old.limits ≡ arena.now.limits }
    ensures { seat.new.limits ≡ seat.old.limits }
{
    seat.trim(rt, arena)
}

fn is_found<R: Wait>(rt: &R, arena: &Arena<NoGate>, seat: &mut Seat, key: &Key) -> bool
    requires { seat.old.limits ≡ arena.now.limits }
    ensures { seat.new.limits ≡ seat.old.limits }
{
    seat.get(rt, arena, key).0 == Some(Object::c16(5))
}

// How many pages went, with a live object in each shard, with none in the first, and once more; and
// how many there were then, and after another put of the first worker.
type Answers = ([usize; 4], [Totals; 2]);

fn answers<R: Wait>(
    rt: &R,
    arena: &Arena<NoGate>,
    first: &mut Seat,
    second: &mut Seat,
) -> Option<Answers>
    requires first { first.old.limits ≡ arena.now.limits }
    requires second { second.old.limits ≡ arena.now.limits }
{
    let key = put(rt, arena, first)?;
    let other = put(rt, arena, second)?;
    let live = trim(rt, arena, first);
    let freed = free(rt, arena, second, &key);
    let elsewhere = trim(rt, arena, second);
    let idle = trim(rt, arena, first);
    let again = trim(rt, arena, first);
    let fewer = arena.totals(rt);
    let next = put(rt, arena, first)?;
    let found = is_found(rt, arena, second, &next) && is_found(rt, arena, first, &other);
    if !freed || !found || is_found(rt, arena, first, &key) {
        return None;
    }
    Some(([live, elsewhere, idle, again], [fewer, arena.totals(rt)]))
}

// The same of a new arena.
fn answered<R: Wait>(rt: &R, alloc: Global) -> Option<Answers> {
    let Ok((arena, mut seats, _)) = Arena::open(alloc, 2, 4, 4, 9, NoGate) else {
        return None;
    };
    let mut second = seats.pop()?;
    let mut first = seats.pop()?;
    if !first.fits(&arena) || !second.fits(&arena) {
        return None;
    }
    answers(rt, &arena, &mut first, &mut second)
}

#[test]
fn trims_the_shard_of_the_seat(rt: HostRuntime) -> Result<(), Fail> {
    let wanted = (
        [0, 0, 1, 0],
        [Totals { pages: 1, live: 1 }, Totals { pages: 2, live: 2 }],
    );
    // Once more where memory was refused before.
    let answered = match answered(&rt, rt.alloc()) {
        Some(answered) => Some(answered),
        None => answered(&rt, rt.alloc()),
    };
    assert_eq!(rt; answered, Some(wanted));
    Ok(())
}
