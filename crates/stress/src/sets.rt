//! Sets in place through a seat, one after the other: where the span is, and whether the key is
//! live and its object of the same class. A set that was refused memory may be made again.
ghost use Rattle.std.specs.Prelude.{◌≡◌};

use arena::{Arena, NoGate, Seat};
use span::names::{Class, Key, Object, SpanId};
use std::alloc::{AllocError, Global};
use std::sync::Wait;
use std::test::Fail;

// Puts an object, and does so again where memory was refused.
fn put<R: Wait>(rt: &R, arena: &Arena<NoGate>, seat: &mut Seat) -> Option<Key>
    requires { seat.old.limits ≡ arena.now.limits }
    ensures { seat.new.limits ≡ seat.old.limits }
{
    match seat.put(rt, arena, Object::c16(5)) {
        Ok((key, _)) => Some(key),
        Err(_) => match seat.put(rt, arena, Object::c16(5)) {
            Ok((key, _)) => Some(key),
            Err(_) => None,
        },
    }
}

// Whether the set was done, and how many changes stood in its span's log. It is made again where
// memory was refused.
fn set<R: Wait>(
    rt: &R,
    arena: &Arena<NoGate>,
    seat: &mut Seat,
    key: &Key,
    value: Object,
) -> Option<(bool, usize)>
    requires { seat.old.limits ≡ arena.now.limits }
    ensures { seat.new.limits ≡ seat.old.limits }
{
    let set = match seat.set(rt, arena, key, value) {
        Err(AllocError) => seat.set(rt, arena, key, value),
        set => set,
    };
    match set {
        Ok((done, receipt)) => Some((done, receipt.at)),
        Err(_) => None,
    }
}

// What the key holds.
fn get<R: Wait>(rt: &R, arena: &Arena<NoGate>, seat: &mut Seat, key: &Key) -> Option<Object>
    requires { seat.old.limits ≡ arena.now.limits }
    ensures { seat.new.limits ≡ seat.old.limits }
{
    seat.get(rt, arena, key).0
}

fn free<R: Wait>(rt: &R, arena: &Arena<NoGate>, seat: &mut Seat, key: &Key) -> bool
    requires { seat.old.limits ≡ arena.now.limits }
    ensures { seat.new.limits ≡ seat.old.limits }
{
    seat.free(rt, arena, key).0
}

fn end<R: Wait>(rt: &R, arena: &Arena<NoGate>, seat: &mut Seat) -> bool
    requires { seat.old.limits ≡ arena.now.limits }
    ensures { seat.new.limits ≡ seat.old.limits }
{
    seat.end(rt, arena).is_ok() || seat.end(rt, arena).is_ok()
}

// A key that no put has given out: of a span that the second shard has not opened.
fn stranger() -> Option<Key> {
    let id = SpanId::new(1, 1023)?;
    Key::new(id, 0, 1)
}

// What sets answered: of a key of the first shard, to another class, of a key of the second, of a
// freed one, of one in the pool, and of one of a span that was never opened. And what the keys of
// each shard hold at the end of their sets.
type Answers = ([(bool, usize); 6], [Option<Object>; 2]);

fn answers<R: Wait>(
    rt: &R,
    arena: &Arena<NoGate>,
    first: &mut Seat,
    second: &mut Seat,
) -> Option<Answers>
    requires first { first.old.limits ≡ arena.now.limits }
    requires second { second.old.limits ≡ arena.now.limits }
{
    let key = put(rt, arena, first)?;
    let other = put(rt, arena, second)?;
    let live = set(rt, arena, second, &key, Object::c16(7))?;
    let wide = set(rt, arena, second, &key, Object::of(Class::C64, &[8; 4]))?;
    let found = get(rt, arena, first, &key);
    let shared = set(rt, arena, first, &other, Object::c16(9))?;
    let freed = free(rt, arena, first, &key);
    let stale = set(rt, arena, first, &key, Object::c16(10))?;
    let ended = end(rt, arena, second);
    let pooled = set(rt, arena, first, &other, Object::c16(11))?;
    let in_pool = get(rt, arena, second, &other);
    let unopened = set(rt, arena, first, &stranger()?, Object::c16(12))?;
    if !(freed && ended) {
        return None;
    }
    Some((
        [live, wide, shared, stale, pooled, unopened],
        [found, in_pool],
    ))
}

// The same of a new arena.
fn answered<R: Wait>(rt: &R, alloc: Global) -> Option<Answers> {
    let Ok((arena, mut seats, _)) = Arena::open(alloc, 2, 4, 4, 9, NoGate) else {
        return None;
    };
    let mut second = seats.pop()?;
    let mut first = seats.pop()?;
    if !first.fits(&arena) || !second.fits(&arena) {
        return None;
    }
    answers(rt, &arena, &mut first, &mut second)
}

#[test]
fn sets_wherever_a_span_is(rt: HostRuntime) -> Result<(), Fail> {
    let wanted = (
        [
            (true, 1),
            (false, 2),
            (true, 1),
            (false, 3),
            (true, 2),
            (false, 0),
        ],
        [Some(Object::c16(7)), Some(Object::c16(11))],
    );
    // Once more where memory was refused before.
    let answered = match answered(&rt, rt.alloc()) {
        Some(answered) => Some(answered),
        None => answered(&rt, rt.alloc()),
    };
    assert_eq!(rt; answered, Some(wanted));
    Ok(())
}
