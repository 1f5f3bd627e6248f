// That a call which does not wait does what the one does that waits, and answers that it is busy
// while another thread has a lock that it needs.
ghost use Rattle.std.specs.Prelude.{◌≡◌};

use crate::held::{Holding, Signals, TURNS, Three, get, is_set_in_time, make_three, put};
use arena::{Arena, Busy, Dropped, Gate, Seat, Stepped, Steward, Tended, Totals};
use fold::Step;
use span::names::{Class, Key, Object};
use span::spans::Counted;
use std::alloc::Global;
use std::sync::Wait;
use std::sync::atomic::Ordering::SeqCst;
use std::test::Fail;
use std::thread;
use std::thread::Threads;

fn try_put<G: Gate>(arena: &Arena<G, Counted>, seat: &mut Seat) -> Option<Key>
    requires { seat.old.limits ≡ arena.now.limits }
    ensures { seat.new.limits ≡ seat.old.limits }
{
    match seat.try_put(arena, Class::C16, &[7]) {
        Ok(Ok(put)) => Some(put.key()),
        _ => None,
    }
}

fn try_get<G: Gate>(
    arena: &Arena<G, Counted>,
    seat: &mut Seat,
    key: &Key,
) -> Result<Option<Object>, Busy>
    requires { seat.old.limits ≡ arena.now.limits }
    ensures { seat.new.limits ≡ seat.old.limits }
{
    let mut room = [0u128; 16];
    match seat.try_get(arena, key, &mut room) {
        Ok(looked) => Ok(looked.object(&room)),
        Err(busy) => Err(busy),
    }
}

fn try_tend<G: Gate>(arena: &Arena<G, Counted>, seat: &mut Seat) -> Option<Tended>
    requires { seat.old.limits ≡ arena.now.limits }
    ensures { seat.new.limits ≡ seat.old.limits }
{
    seat.try_tend(arena, &mut Dropped::new()).ok()
}

// Leaves the key to the thread of its shard, in full sight of it.
fn leave(seat: &mut Seat, key: Key) -> bool
    ensures { seat.new.limits ≡ seat.old.limits }
{
    let sent = seat.has_shard_of(&key) && seat.free_later(key).is_ok();
    seat.hand_over();
    sent
}

// What a key's look-ups find before and after it is set, once it was left to its shard's thread,
// and how many were tended; and whether it was set, and another freed.
type Answers = ([Option<Object>; 3], Tended, [bool; 2]);

fn answers(
    arena: &Arena<Holding<'_>, Counted>,
    first: &mut Seat,
    second: &mut Seat,
) -> Option<Answers>
    requires first { first.old.limits ≡ arena.now.limits }
    requires second { second.old.limits ≡ arena.now.limits }
    ensures first { first.new.limits ≡ first.old.limits }
    ensures second { second.new.limits ≡ second.old.limits }
{
    let key = try_put(arena, first)?;
    let other = try_put(arena, first)?;
    let before = try_get(arena, second, &key).ok()?;
    let set = matches!(second.try_set(arena, &key, &[8]), Ok(Ok(set)) if set.done());
    let after = try_get(arena, first, &key).ok()?;
    if !leave(second, key) {
        return None;
    }
    let tended = try_tend(arena, first)?;
    let gone = try_get(arena, second, &key).ok()?;
    let freed = matches!(second.try_free(arena, &other), Ok(freed) if freed.done());
    Some(([before, after, gone], tended, [set, freed]))
}

// How many pages and keys there are once the first shard's group was folded onto the second's, and
// what the calls on the way answered: how many groups went, and whether there was a plan of one
// fold, a fold, and a close, and then a look-up followed the key to where it is.
type Folded = (Totals, usize, [bool; 4]);

fn folds(
    arena: &Arena<Holding<'_>, Counted>,
    first: &mut Seat,
    second: &mut Seat,
    steward: &mut Steward,
) -> Option<Folded>
    requires first { first.old.limits ≡ arena.now.limits }
    requires second { second.old.limits ≡ arena.now.limits }
    requires steward { steward.old.limits ≡ arena.now.limits }
    ensures first { first.new.limits ≡ first.old.limits }
{
    // At another slot than the key that the second shard has.
    let low = try_put(arena, first)?;
    let moved = try_put(arena, first)?;
    if !matches!(first.try_free(arena, &low), Ok(freed) if freed.done()) {
        return None;
    }
    try_put(arena, second)?;
    let Ok(Ok(retired)) = first.try_retire(arena, 4) else {
        return None;
    };
    let Ok(Ok(found)) = arena.try_mark(steward) else {
        return None;
    };
    let is_one = found.plan.pairs().len() == 1;
    let is_folded = matches!(
        arena.try_step(steward),
        Ok(Ok(Stepped::Taken(_, _, Step::Folded)))
    );
    let is_closed = arena.try_close(steward) == Ok(true);
    let is_found = try_get(arena, first, &moved) == Ok(Some(Object::c16(7)));
    let totals = arena.try_totals().ok()?;
    Some((totals, retired, [is_one, is_folded, is_closed, is_found]))
}

// Both, and how many pages the first shard then gave back, and whether it ended, and adopts no
// more.
fn all_answers(alloc: Global) -> Option<(Answers, Folded, usize, bool, bool)> {
    let signals = Signals::new();
    let gate = Holding {
        signals: &signals,
        shard: 0,
        turns: TURNS,
    };
    let Three {
        arena,
        mut first,
        mut second,
        mut steward,
        ..
    } = make_three(alloc, gate)?;
    let answers = answers(&arena, &mut first, &mut second)?;
    let folded = folds(&arena, &mut first, &mut second, &mut steward)?;
    let trimmed = first.try_trim(&arena).ok()?;
    let is_ended = first.try_end(&arena) == Ok(Ok(()));
    let adopts = matches!(first.try_adopt(&arena), Ok(Ok(_)));
    Some((answers, folded, trimmed, is_ended, adopts))
}

#[test]
fn answer_as_calls_that_wait(rt: HostRuntime) -> Result<(), Fail> {
    let seven = Some(Object::c16(7));
    let eight = Some(Object::c16(8));
    let tended = Tended {
        count: 1,
        is_busy: false,
    };
    let answers = ([seven, eight, None], tended, [true; 2]);
    let folded = (Totals { pages: 1, live: 2 }, 1, [true; 4]);
    let all = all_answers(rt.alloc());
    assert_eq!(rt; all, Some((answers, folded, 0, true, false)));
    Ok(())
}

// Whether the calls are busy while another thread is inside of the first shard: a put there, and a
// look-up, a set and a free of a key there.
fn by_words(
    arena: &Arena<Holding<'_>, Counted>,
    first: &mut Seat,
    third: &mut Seat,
    key: &Key,
) -> [bool; 4]
    requires first { first.old.limits ≡ arena.now.limits }
    requires third { third.old.limits ≡ arena.now.limits }
    ensures first { first.new.limits ≡ first.old.limits }
    ensures third { third.new.limits ≡ third.old.limits }
{
    [
        matches!(first.try_put(arena, Class::C16, &[7]), Err(Busy)),
        matches!(third.try_get(arena, key, &mut [0u128]), Err(Busy)),
        matches!(third.try_set(arena, key, &[8]), Err(Busy)),
        matches!(third.try_free(arena, key), Err(Busy)),
    ]
}

// What calls answer while another thread is inside of the first shard: a look-up of a key there, a
// mark and totals are busy, as are tending the key that was left to that shard and the calls by
// words there; a put into another shard is not.
fn try_beside(
    arena: &Arena<Holding<'_>, Counted>,
    signals: &Signals,
    first: &mut Seat,
    third: &mut Seat,
    steward: &mut Steward,
    key: &Key,
) -> [bool; 6] {
    if !first.fits(arena) || !third.fits(arena) || !steward.fits(arena) {
        return [false; 6];
    }
    let came = is_set_in_time(&signals.came, TURNS);
    signals.begun.store(1, SeqCst);
    let busy = [
        came && try_get(arena, third, key) == Err(Busy),
        matches!(arena.try_mark(steward), Err(Busy)),
        matches!(arena.try_totals(), Err(Busy)),
        try_tend(arena, first)
            == Some(Tended {
                count: 0,
                is_busy: true,
            }),
        by_words(arena, first, third, key) == [true; 4],
        try_put(arena, third).is_some(),
    ];
    signals.answered.store(1, SeqCst);
    busy
}

// A look-up that is held in the first shard, and what calls beside it answer.
fn meet<R: Threads + Wait + Sync>(
    rt: &R,
    arena: &Arena<Holding<'_>, Counted>,
    signals: &Signals,
    first: &mut Seat,
    second: &mut Seat,
    third: &mut Seat,
    steward: &mut Steward,
    key: &Key,
) -> (bool, [bool; 6])
    requires { second.old.limits ≡ arena.now.limits }
{
    signals.armed.store(1, SeqCst);
    let met = thread::join(
        rt,
        || get(rt, arena, second, key),
        || try_beside(arena, signals, first, third, steward, key),
    );
    signals.armed.store(0, SeqCst);
    met
}

// That, and what the first seat tends once nobody is inside.
fn busy<R: Threads + Wait + Sync>(rt: &R, alloc: Global) -> Option<([bool; 6], Tended)> {
    let signals = Signals::new();
    let gate = Holding {
        signals: &signals,
        shard: 0,
        turns: TURNS,
    };
    let Three {
        arena,
        mut first,
        mut second,
        mut third,
        mut steward,
    } = make_three(alloc, gate)?;
    let key = put(rt, &arena, &mut first)?;
    let left = put(rt, &arena, &mut first)?;
    if !leave(&mut second, left) {
        return None;
    }
    let (found, answers) = meet(
        rt,
        &arena,
        &signals,
        &mut first,
        &mut second,
        &mut third,
        &mut steward,
        &key,
    );
    if !found || !first.fits(&arena) {
        return None;
    }
    let tended = try_tend(&arena, &mut first)?;
    Some((answers, tended))
}

#[test]
fn are_busy_while_a_thread_is_inside(rt: HostRuntime) -> Result<(), Fail> {
    let tended = Tended {
        count: 1,
        is_busy: false,
    };
    let seen = busy(&rt, rt.alloc());
    assert_eq!(rt; seen, Some(([true; 6], tended)));
    Ok(())
}
