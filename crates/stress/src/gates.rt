// That each call under one shard's lock passes the gate of that shard, once.
ghost use Rattle.std.specs.Prelude.{◌≡◌};

use arena::{Arena, Dropped, Gate, Seat};
use span::names::{Key, Object};
use span::spans::Counted;
use std::alloc::Global;
use std::sync::Wait;
use std::sync::atomic::AtomicU64;
use std::sync::atomic::Ordering::SeqCst;
use std::test::Fail;

// How often each of two shards was entered.
#[derive(Drop)]
struct Passes {
    first: AtomicU64,
    second: AtomicU64,
}

// A gate that counts.
#[derive(Drop)]
struct Counting<'a> {
    passes: &'a Passes,
}

impl<'a> Gate for Counting<'a> {
    fn inside(&self, shard: u32) {
        if shard == 0 {
            self.passes.first.fetch_add(1, SeqCst);
        } else {
            self.passes.second.fetch_add(1, SeqCst);
        }
    }
}

impl Passes {
    // How often each was entered.
    fn so_far(&self) -> (u64, u64) {
        (self.first.load(SeqCst), self.second.load(SeqCst))
    }
}

// Two seats at an arena of shards behind this gate.
#[derive(Drop)]
struct Two<G: Gate> {
    arena: Arena<G, Counted>,
    first: Seat,
    second: Seat,
    ghost first_fits: { first.limits ≡ arena.limits },
    ghost second_fits: { second.limits ≡ arena.limits },
}

fn make_two<G: Gate>(alloc: Global, gate: G) -> Option<Two<G>> {
    let Ok((arena, mut seats, _)) = Arena::open_with_log(alloc, 2, 4, 4, 9, gate) else {
        return None;
    };
    let second = seats.pop()?;
    let first = seats.pop()?;
    Some(Two {
        arena,
        first,
        second,
    })
}

fn put<G: Gate, R: Wait>(rt: &R, arena: &Arena<G, Counted>, seat: &mut Seat) -> Option<Key>
    requires { seat.old.limits ≡ arena.now.limits }
    ensures { seat.new.limits ≡ seat.old.limits }
{
    match seat.put(rt, arena, Object::c16(7)) {
        Ok((key, _)) => Some(key),
        Err(_) => None,
    }
}

fn get<G: Gate, R: Wait>(rt: &R, arena: &Arena<G, Counted>, seat: &mut Seat, key: &Key) -> bool
    requires { seat.old.limits ≡ arena.now.limits }
    ensures { seat.new.limits ≡ seat.old.limits }
{
    seat.get(rt, arena, key).0 == Some(Object::c16(7))
}

fn set<G: Gate, R: Wait>(rt: &R, arena: &Arena<G, Counted>, seat: &mut Seat, key: &Key) -> bool
    requires { seat.old.limits ≡ arena.now.limits }
    ensures { seat.new.limits ≡ seat.old.limits }
{
    matches!(seat.set(rt, arena, key, Object::c16(8)), Ok((true, _)))
}

fn free<G: Gate, R: Wait>(rt: &R, arena: &Arena<G, Counted>, seat: &mut Seat, key: &Key) -> bool
    requires { seat.old.limits ≡ arena.now.limits }
    ensures { seat.new.limits ≡ seat.old.limits }
{
    seat.free(rt, arena, key).0
}

// Leaves the key to the thread of its shard, in full sight of it.
fn leave(seat: &mut Seat, key: Key) -> bool
    ensures { seat.new.limits ≡ seat.old.limits }
{
    let sent = seat.has_shard_of(&key) && seat.free_later(key).is_ok();
    seat.hand_over();
    sent
}

// How many keys were taken from the rings.
fn tend<G: Gate, R: Wait>(rt: &R, arena: &Arena<G, Counted>, seat: &mut Seat) -> Option<usize>
    requires { seat.old.limits ≡ arena.now.limits }
    ensures { seat.new.limits ≡ seat.old.limits }
{
    seat.tend(rt, arena, &mut Dropped::new()).ok()
}

// How many pages the worker's shard gave back.
fn trim<G: Gate, R: Wait>(rt: &R, arena: &Arena<G, Counted>, seat: &mut Seat) -> usize
    requires { seat.old.limits ≡ arena.now.limits }
    ensures { seat.new.limits ≡ seat.old.limits }
{
    seat.trim(rt, arena)
}

fn end<G: Gate, R: Wait>(rt: &R, arena: &Arena<G, Counted>, seat: &mut Seat) -> bool
    requires { seat.old.limits ≡ arena.now.limits }
    ensures { seat.new.limits ≡ seat.old.limits }
{
    seat.end(rt, arena).is_ok()
}

// How often each shard was entered so far, after a put of each worker, a look-up, a set, a free and
// a tend of keys in the first shard, a trim and an end of that shard, and two look-ups in the pool,
// the first of which has no hint of where the span went.
fn entered<R: Wait>(
    rt: &R,
    arena: &Arena<Counting<'_>, Counted>,
    passes: &Passes,
    first: &mut Seat,
    second: &mut Seat,
) -> Option<[(u64, u64); 9]>
    requires first { first.old.limits ≡ arena.now.limits }
    requires second { second.old.limits ≡ arena.now.limits }
{
    let key = put(rt, arena, first)?;
    let later = put(rt, arena, first)?;
    let kept = put(rt, arena, first)?;
    put(rt, arena, second)?;
    let put = passes.so_far();
    let found = get(rt, arena, second, &key);
    let looked_up = passes.so_far();
    let replaced = set(rt, arena, second, &key);
    let after_set = passes.so_far();
    let freed = free(rt, arena, second, &key);
    let after_free = passes.so_far();
    let left = leave(second, later);
    let tended = tend(rt, arena, first);
    let after_tend = passes.so_far();
    let trimmed = trim(rt, arena, first);
    let after_trim = passes.so_far();
    let ended = end(rt, arena, first);
    let after_end = passes.so_far();
    let pooled = get(rt, arena, second, &kept);
    let after_pooled = passes.so_far();
    let noted = get(rt, arena, second, &kept);
    if !(found
        && replaced
        && freed
        && left
        && tended == Some(1)
        && trimmed == 0
        && ended
        && pooled
        && noted)
    {
        return None;
    }
    Some([
        put,
        looked_up,
        after_set,
        after_free,
        after_tend,
        after_trim,
        after_end,
        after_pooled,
        passes.so_far(),
    ])
}

// The same of a new arena.
fn entered_anew<R: Wait>(rt: &R, alloc: Global) -> Option<[(u64, u64); 9]> {
    let passes = Passes {
        first: AtomicU64::new(0),
        second: AtomicU64::new(0),
    };
    let Two {
        arena,
        mut first,
        mut second,
    } = make_two(alloc, Counting { passes: &passes })?;
    entered(rt, &arena, &passes, &mut first, &mut second)
}

#[test]
fn passes_the_gate(rt: HostRuntime) -> Result<(), Fail> {
    // Once more where memory was refused.
    let entered = match entered_anew(&rt, rt.alloc()) {
        Some(entered) => Some(entered),
        None => entered_anew(&rt, rt.alloc()),
    };
    assert_eq!(rt;
        entered,
        Some([
            (3, 1),
            (4, 1),
            (5, 1),
            (6, 1),
            (7, 1),
            (8, 1),
            (8, 1),
            (9, 1),
            (9, 1)
        ])
    );
    Ok(())
}
