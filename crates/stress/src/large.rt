//! An arena at sizes far beyond those of the other tests, with ample memory: no size alone is a
//! reason for a call to be refused. Calls that wait are asked by turns with those that do not.
use crate::shared::{Shards, Shared, first_of, free, get, keep, make_shared, pause, put, retire};
use arena::{Seat, Stepped, Steward};
use certificate::Certificate;
use fold::Step;
use marks::{MarkError, Totals};
use mesh_graph::AtHand;
use span::names::{Class, Key, Object, SpanId};
use std::alloc::Global;
use std::sync::{Arc, Wait};
use std::test::Fail;

fn key(shard: u32, serial: u32, slot: u8) -> Option<Key> {
    Key::new(SpanId::new(shard, serial)?, slot, 1)
}

// Puts an object of the class, whose words are all this one, by one of three calls.
fn put_by<R: Wait>(
    rt: &R,
    arena: &Shards,
    seat: &mut Seat,
    class: Class,
    number: u32,
) -> Option<Key> {
    if !seat.fits(arena) {
        return None;
    }
    let object = first_of(class, &[u128::from(number); 16]);
    match number % 2 {
        0 => Some(seat.put(rt, arena, object).ok()?.0),
        _ => Some(seat.try_put(arena, class, object.words()).ok()?.ok()?.key()),
    }
}

// Fills that many new pages with objects of the class.
fn fill<R: Wait>(rt: &R, arena: &Shards, seat: &mut Seat, class: Class, pages: u32) -> Option<()> {
    let objects = u32::from(last_slot(class)) + 1;
    for number in 0..pages.saturating_mul(objects) {
        put_by(rt, arena, seat, class, number)?;
    }
    Some(())
}

// The last slot of a page of objects of the class.
fn last_slot(class: Class) -> u8 {
    u8::try_from(class.slots().saturating_sub(1)).unwrap_or(u8::MAX)
}

// Frees a key that is live.
fn strike(arena: &Shards, seat: &mut Seat, key: &Key) -> Option<()> {
    if free(arena, seat, key) == Some(Ok(true)) {
        Some(())
    } else {
        None
    }
}

// Frees the keys of the shard's span at the slots below that.
fn strike_below(arena: &Shards, seat: &mut Seat, shard: u32, serial: u32, slot: u8) -> Option<()> {
    for lower in 0..slot {
        strike(arena, seat, &key(shard, serial, lower)?)?;
    }
    Some(())
}

// Fills that many pages of the class, and leaves in each the last key alone, or the one before it.
fn thin_out<R: Wait>(
    rt: &R,
    arena: &Shards,
    seat: &mut Seat,
    class: Class,
    first: u32,
    is_last: bool,
) -> Option<()> {
    fill(rt, arena, seat, class, 250)?;
    let last = last_slot(class);
    let before = last.saturating_sub(1);
    let shard = seat.worker();
    for serial in first..first.saturating_add(250) {
        strike_below(arena, seat, shard, serial, before)?;
        let other = if is_last { before } else { last };
        strike(arena, seat, &key(shard, serial, other)?)?;
    }
    Some(())
}

// How many pairs a mark plans: one that waits, or one that does not.
fn mark<R: Wait>(rt: &R, arena: &Shards, steward: &mut Steward, waits: bool) -> Option<usize> {
    if !steward.fits(arena) {
        return None;
    }
    let marked = if waits {
        arena.mark(rt, &AtHand, steward)
    } else {
        arena.try_mark(steward).ok()?
    };
    pairs_of(marked)
}

// The same of a mark of some.
fn mark_some<R: Wait>(rt: &R, arena: &Shards, steward: &mut Steward, waits: bool) -> Option<usize> {
    if !steward.fits(arena) {
        return None;
    }
    let marked = if waits {
        arena.mark_some(rt, &AtHand, steward)
    } else {
        arena.try_mark_some(steward).ok()?
    };
    pairs_of(marked)
}

fn pairs_of(marked: Result<Certificate, MarkError>) -> Option<usize> {
    Some(marked.ok()?.plan.pairs().len())
}

fn close(arena: &Shards, steward: &mut Steward) -> Option<()> {
    if steward.fits(arena) && arena.try_close(steward) == Ok(true) {
        Some(())
    } else {
        None
    }
}

// How many steps fold, every other one of which waits, until no pair is left; then the plan is
// closed.
fn fold_all<R: Wait>(rt: &R, arena: &Shards, steward: &mut Steward) -> Option<u32> {
    for count in 0..5_000u32 {
        if !steward.fits(arena) {
            return None;
        }
        let stepped = if count % 2 == 0 {
            arena.step(rt, steward).ok()?
        } else {
            arena.try_step(steward).ok()?.ok()?
        };
        match stepped {
            Stepped::Taken(_, _, Step::Folded) => {}
            Stepped::NoPairLeft => {
                close(arena, steward)?;
                return Some(count);
            }
            _ => return None,
        }
    }
    None
}

// How many pairs two marks plan of 500 pages of two classes on each side, how many steps fold, and
// what is left.
fn folded<R: Wait>(rt: &R, alloc: Global) -> Option<([usize; 2], u32, Totals)> {
    let Shared {
        arena,
        mut first,
        mut second,
        mut steward,
        ..
    } = make_shared(alloc, 500)?;
    for class in [Class::C48, Class::C256] {
        let from = if class == Class::C48 { 0 } else { 250 };
        thin_out(rt, &*arena, &mut first, class, from, false)?;
        thin_out(rt, &*arena, &mut second, class, from, true)?;
    }
    end(rt, &*arena, &mut first, true)?;
    let planned = mark(rt, &*arena, &mut steward, true)?;
    close(&*arena, &mut steward)?;
    let again = mark(rt, &*arena, &mut steward, false)?;
    let count = fold_all(rt, &*arena, &mut steward)?;
    Some(([planned, again], count, arena.totals(rt)))
}

fn end<R: Wait>(rt: &R, arena: &Shards, seat: &mut Seat, waits: bool) -> Option<()> {
    if !seat.fits(arena) {
        return None;
    }
    if waits {
        seat.end(rt, arena).ok()
    } else {
        seat.try_end(arena).ok()?.ok()
    }
}

fn adopt<R: Wait>(rt: &R, arena: &Shards, seat: &mut Seat, waits: bool) -> Option<SpanId> {
    if !seat.fits(arena) {
        return None;
    }
    if waits {
        seat.adopt(rt, arena).ok()
    } else {
        seat.try_adopt(arena).ok()?.ok()
    }
}

#[test]
fn folds_pages_of_two_classes(rt: HostRuntime) -> Result<(), Fail> {
    let totals = Totals {
        pages: 500,
        live: 1_000,
    };
    let folded = folded(&rt, rt.alloc());
    assert_eq!(rt; folded, Some(([500, 500], 500, totals)));
    Ok(())
}

// The slots of the owned groups that fit onto a group: a group fits onto that of its own number and
// onto the next, and the last of a chain onto the first of it alone. Chains have two groups, three,
// and so on up to thirteen.
fn partners(number: u8) -> (u8, u8) {
    let mut first = 0u8;
    for length in 2..14u8 {
        let next = first.saturating_add(length);
        if number.saturating_add(1) < next {
            return (number, number.saturating_add(1));
        }
        if number < next {
            return (first, first);
        }
        first = next;
    }
    (0, 0)
}

// How many groups all chains have.
const IN_CHAINS: u8 = 90;

// Whether the slot is live in an owned group, or in one that is to be folded.
fn is_live(number: u8, slot: u8, is_owned: bool) -> bool {
    let (one, other) = partners(number);
    if is_owned {
        slot == number
    } else {
        slot != one && slot != other
    }
}

// Retires a new group for each number, which is owned or is to be folded.
fn retire_groups(arena: &Shards, seat: &mut Seat, first: u32, is_owned: bool) -> Option<()> {
    for number in 0..IN_CHAINS {
        for _ in 0..IN_CHAINS {
            put(arena, seat, 5)?;
        }
        for slot in 0..IN_CHAINS {
            if !is_live(number, slot, is_owned) {
                let serial = first.saturating_add(u32::from(number));
                strike(arena, seat, &key(0, serial, slot)?)?;
            }
        }
        retire(arena, seat, 1)?;
    }
    Some(())
}

// Each chain but the last group of it is planned in the first pass. A chain of more groups needs a
// longer walk to be planned whole, so that each takes a pass of its own.
fn planned<R: Wait>(rt: &R, alloc: Global) -> Option<([usize; 2], u32, usize)> {
    let Shared {
        arena,
        mut first,
        mut second,
        mut steward,
        ..
    } = make_shared(alloc, 100)?;
    retire_groups(&*arena, &mut first, 0, true)?;
    for number in 0..IN_CHAINS {
        adopt(rt, &*arena, &mut second, number % 2 == 0)?;
    }
    retire_groups(&*arena, &mut first, u32::from(IN_CHAINS), false)?;
    let planned = mark(rt, &*arena, &mut steward, true)?;
    close(&*arena, &mut steward)?;
    let again = mark(rt, &*arena, &mut steward, false)?;
    let count = fold_all(rt, &*arena, &mut steward)?;
    Some(([planned, again], count, arena.totals(rt).pages))
}

#[test]
fn plans_what_takes_many_passes(rt: HostRuntime) -> Result<(), Fail> {
    let planned = planned(&rt, rt.alloc());
    assert_eq!(rt; planned, Some(([90, 90], 90, 90)));
    Ok(())
}

// Two shards of 5,000 pages each: whether a mark sees too many, how many pairs two marks of some
// plan, how many steps fold, how many groups a shard retires twice, and how many pages go with its
// end.
type Marked = ([bool; 2], [usize; 2], u32, [usize; 2], Totals);

fn marked<R: Wait>(rt: &R, alloc: Global) -> Option<Marked> {
    let Shared {
        arena,
        mut first,
        mut second,
        mut third,
        mut steward,
    } = make_shared(alloc, 5_000)?;
    fill(rt, &*arena, &mut second, Class::C256, 5_000)?;
    fill(rt, &*arena, &mut third, Class::C256, 5_000)?;
    strike_below(&*arena, &mut first, 1, 4_999, 15)?;
    put_by(rt, &*arena, &mut first, Class::C256, 7)?;
    end(rt, &*arena, &mut first, true)?;
    let refused = [
        has_too_many(rt, &*arena, &mut steward, true),
        has_too_many(rt, &*arena, &mut steward, false),
    ];
    let planned = mark_some(rt, &*arena, &mut steward, true)?;
    close(&*arena, &mut steward)?;
    let again = mark_some(rt, &*arena, &mut steward, false)?;
    let count = fold_all(rt, &*arena, &mut steward)?;
    let retired = [
        retire(&*arena, &mut third, 1_500)?,
        retire(&*arena, &mut third, 1_500)?,
    ];
    end(rt, &*arena, &mut third, false)?;
    end(rt, &*arena, &mut second, true)?;
    Some((refused, [planned, again], count, retired, arena.totals(rt)))
}

fn has_too_many<R: Wait>(rt: &R, arena: &Shards, steward: &mut Steward, waits: bool) -> bool {
    if !steward.fits(arena) {
        return false;
    }
    let marked = if waits {
        arena.mark(rt, &AtHand, steward)
    } else {
        let Ok(marked) = arena.try_mark(steward) else {
            return false;
        };
        marked
    };
    matches!(marked, Err(MarkError::TooMany))
}

#[test]
fn marks_some_of_ten_thousand_pages(rt: HostRuntime) -> Result<(), Fail> {
    let totals = Totals {
        pages: 10_000,
        live: 160_000 - 15 + 1,
    };
    let wanted = ([true; 2], [1, 1], 1, [1_500, 1_500], totals);
    let marked = marked(&rt, rt.alloc());
    assert_eq!(rt; marked, Some(wanted));
    Ok(())
}

// Whether the key is set to the word, by the call of that number.
fn is_set<R: Wait>(
    rt: &R,
    arena: &Shards,
    seat: &mut Seat,
    key: &Key,
    word: u128,
    call: u32,
) -> bool {
    if !seat.fits(arena) {
        return false;
    }
    match call {
        0 => matches!(seat.try_set(arena, key, &[word]), Ok(Ok(set)) if set.done()),
        _ => matches!(seat.set(rt, arena, key, Object::c16(word)), Ok((true, _))),
    }
}

// Sets a key 1,100,000 times, and then by each call. It gives whether the key is then set in a
// session, and by another seat in the pool, and what is found of it.
fn set_often<R: Wait>(rt: &R, alloc: Global) -> Option<([bool; 2], Option<Object>)> {
    let Shared {
        arena,
        mut first,
        mut second,
        ..
    } = make_shared(alloc, 2)?;
    let key = put(&*arena, &mut first, 5)?;
    for word in 0..1_100_000u32 {
        if !is_set(rt, &*arena, &mut first, &key, u128::from(word), 0) {
            return None;
        }
    }
    for call in 0..2u32 {
        if !is_set(rt, &*arena, &mut first, &key, 8, call) {
            return None;
        }
    }
    let (mut first, in_session) = set_in_session(&arena, first, &key)?;
    retire(&*arena, &mut first, 1)?;
    let in_pool = is_set(rt, &*arena, &mut second, &key, 7, 1);
    let found = get(&*arena, &mut first, &key)?.ok()?;
    Some(([in_session, in_pool], found))
}

fn set_in_session(arena: &Arc<Shards, Global>, seat: Seat, key: &Key) -> Option<(Seat, bool)> {
    let mut session = keep(arena, seat)?;
    let is_set = matches!(session.try_set(key, &[6]), Ok(Ok(set)) if set.done());
    Some((pause(session), is_set))
}

#[test]
fn sets_a_key_a_million_times(rt: HostRuntime) -> Result<(), Fail> {
    let set = set_often(&rt, rt.alloc());
    let found = Some(Object::c16(7));
    assert_eq!(rt; set, Some(([true; 2], found)));
    Ok(())
}

// Folds sixty groups onto one, which goes to the pool and to another shard. It gives whether that
// adopts it, what the arena then has, and whether the last key that was folded is set there.
fn folded_often<R: Wait>(rt: &R, alloc: Global) -> Option<(bool, Totals, bool)> {
    let Shared {
        arena,
        mut first,
        mut second,
        mut third,
        mut steward,
    } = make_shared(alloc, 2)?;
    fill(rt, &*arena, &mut second, Class::C16, 1)?;
    strike_below(&*arena, &mut second, 1, 0, 255)?;
    for slot in 0..60u8 {
        for _ in 0..=slot {
            put(&*arena, &mut first, 5)?;
        }
        strike_below(&*arena, &mut first, 0, u32::from(slot), slot)?;
        retire(&*arena, &mut first, 1)?;
        mark(rt, &*arena, &mut steward, slot % 2 == 0)?;
        fold_all(rt, &*arena, &mut steward)?;
    }
    end(rt, &*arena, &mut second, false)?;
    let head = adopt(rt, &*arena, &mut third, false)?;
    let last = key(0, 59, 59)?;
    let is_set = is_set(rt, &*arena, &mut first, &last, 8, 0);
    Some((head == key(1, 0, 0)?.span, arena.totals(rt), is_set))
}

#[test]
fn folds_onto_a_group_of_sixty_spans(rt: HostRuntime) -> Result<(), Fail> {
    let folded = folded_often(&rt, rt.alloc());
    let totals = Totals { pages: 1, live: 61 };
    assert_eq!(rt; folded, Some((true, totals, true)));
    Ok(())
}
