//! A seat whose shard ended and begins again: it issues new keys, and tends what was left to it
//! meanwhile.
ghost use Rattle.std.specs.Prelude.{◌≡◌};

use arena::{Arena, Dropped, NoGate, Seat};
use latch::Busy;
use marks::Totals;
use span::names::{Key, Object};
use std::alloc::Global;
use std::sync::Wait;
use std::test::Fail;

// Puts an object, and does so again where memory was refused.
fn put<R: Wait>(rt: &R, arena: &Arena<NoGate>, seat: &mut Seat) -> Option<Key>
    requires { seat.old.limits ≡ arena.now.limits }
    ensures { seat.new.limits ≡ seat.old.limits }
{
    match seat.put(rt, arena, Object::c16(5)) {
        Ok((key, _)) => Some(key),
        Err(_) => match seat.put(rt, arena, Object::c16(5)) {
            Ok((key, _)) => Some(key),
            Err(_) => None,
        },
    }
}

// Ends the shard of the seat, and does so again where memory was refused. Says whether it has
// ended.
fn end<R: Wait>(rt: &R, arena: &Arena<NoGate>, seat: &mut Seat) -> bool
    requires { seat.old.limits ≡ arena.now.limits }
    ensures { seat.new.limits ≡ seat.old.limits }
{
    match seat.end(rt, arena) {
        Ok(()) => true,
        Err(_) => seat.end(rt, arena).is_ok(),
    }
}

// Whether the shard of the seat had ended.
fn begin<R: Wait>(rt: &R, arena: &Arena<NoGate>, seat: &mut Seat) -> bool
    requires { seat.old.limits ≡ arena.now.limits }
    ensures { seat.new.limits ≡ seat.old.limits }
{
    seat.begin(rt, arena)
}

// The same, by the call that does not wait.
fn try_begin(arena: &Arena<NoGate>, seat: &mut Seat) -> Result<bool, Busy>
    requires { seat.old.limits ≡ arena.now.limits }
    ensures { seat.new.limits ≡ seat.old.limits }
{
    seat.try_begin(arena)
}

// Leaves the key to the thread of the shard that opened its span. Says whether it took it.
fn leave(seat: &mut Seat, key: Key) -> bool
    ensures { seat.new.limits ≡ seat.old.limits }
{
    if !seat.has_shard_of(&key) {
        return false;
    }
    let is_left = seat.free_later(key).is_ok();
    seat.hand_over();
    is_left
}

// How many keys were left to the seat, which takes no memory for them.
fn tend<R: Wait>(rt: &R, arena: &Arena<NoGate>, seat: &mut Seat) -> Option<usize>
    requires { seat.old.limits ≡ arena.now.limits }
    ensures { seat.new.limits ≡ seat.old.limits }
{
    seat.tend(rt, arena, &mut Dropped::new()).ok()
}

fn is_found<R: Wait>(rt: &R, arena: &Arena<NoGate>, seat: &mut Seat, key: &Key) -> bool
    requires { seat.old.limits ≡ arena.now.limits }
    ensures { seat.new.limits ≡ seat.old.limits }
{
    seat.get(rt, arena, key).0 == Some(Object::c16(5))
}

// What the begins said: of a running shard, after its end, and once more; the serials of the keys
// before the end and after the begin; how many keys were tended then; and how many pages and keys
// there are at last.
type Answers = ([bool; 3], [u32; 2], usize, Totals);

fn answers<R: Wait>(
    rt: &R,
    arena: &Arena<NoGate>,
    first: &mut Seat,
    second: &mut Seat,
) -> Option<Answers>
    requires first { first.old.limits ≡ arena.now.limits }
    requires second { second.old.limits ≡ arena.now.limits }
{
    let stays = put(rt, arena, first)?;
    let goes = put(rt, arena, first)?;
    let early = begin(rt, arena, first);
    if !end(rt, arena, first) || !leave(second, goes) {
        return None;
    }
    let begun = try_begin(arena, first).ok()?;
    let again = begin(rt, arena, first);
    let next = put(rt, arena, first)?;
    let tended = tend(rt, arena, first)?;
    let found = is_found(rt, arena, second, &next) && is_found(rt, arena, first, &stays);
    if !found || is_found(rt, arena, first, &goes) {
        return None;
    }
    let serials = [stays.span.serial, next.span.serial];
    Some(([early, begun, again], serials, tended, arena.totals(rt)))
}

// The same of a new arena.
fn answered<R: Wait>(rt: &R, alloc: Global) -> Option<Answers> {
    let Ok((arena, mut seats, _)) = Arena::open(alloc, 2, 4, 4, 9, NoGate) else {
        return None;
    };
    let mut second = seats.pop()?;
    let mut first = seats.pop()?;
    if !first.fits(&arena) || !second.fits(&arena) {
        return None;
    }
    answers(rt, &arena, &mut first, &mut second)
}

#[test]
fn begins_the_shard_of_the_seat(rt: HostRuntime) -> Result<(), Fail> {
    let wanted = (
        [false, true, false],
        [0, 1],
        1,
        Totals { pages: 2, live: 2 },
    );
    // Once more where memory was refused before.
    let answered = match answered(&rt, rt.alloc()) {
        Some(answered) => Some(answered),
        None => answered(&rt, rt.alloc()),
    };
    assert_eq!(rt; answered, Some(wanted));
    Ok(())
}
