// That while a seat keeps its shard whoever needs it is told so, whatever it asks, and that nothing
// has changed then.
use crate::shared::{
    Shards, Shared, adopt, close, free, get, get_word, keep, make_shared, mark, pause, put, retire,
    set, step, totals,
};
use arena::{Busy, PlanOpen, Seat, Stepped, Steward, Walk};
use fold::Step;
use marks::{MarkError, Totals};
use span::names::{Key, Object};
use std::alloc::Global;
use std::test::Fail;

// Whether each call of the seat on the key, whose span is in a shard that another seat keeps, is
// told that.
fn are_keys_busy(arena: &Shards, seat: &mut Seat, key: &Key) -> [bool; 4] {
    [
        get(arena, seat, key) == Some(Err(Busy)),
        get_word(arena, seat, key) == Some(Err(Busy)),
        set(arena, seat, key, 8) == Some(Err(Busy)),
        free(arena, seat, key) == Some(Err(Busy)),
    ]
}

// The same of the calls that take the locks of all shards.
fn are_all_busy(arena: &Shards, steward: &mut Steward) -> [bool; 4] {
    if !steward.fits(arena) {
        return [false; 4];
    }
    let is_marked = arena.try_mark_some(steward).is_ok();
    let is_forgotten = steward.fits(arena) && arena.try_forget(steward).is_ok();
    [
        mark(arena, steward) == Some(Err(Busy)),
        !is_marked,
        !is_forgotten,
        totals(arena) == Err(Busy),
    ]
}

// Both, of a key in the second shard, which its seat keeps, and of a key of the first shard that
// the second has adopted, of which no hint is left; and what look-ups of both find afterwards, and
// what the arena has.
type Answers = (
    [[bool; 4]; 2],
    [bool; 4],
    [Option<Result<Option<Object>, Busy>>; 2],
    Totals,
);

// Has the hint of the span of serial 0 give way to that of another, as that of serial 8 does, and
// puts keys in both and between.
fn lose_hint(
    arena: &Shards,
    opener: &mut Seat,
    adopter: &mut Seat,
    third: &mut Seat,
) -> Option<Key> {
    let key = put(arena, opener, 4)?;
    retire(arena, opener, 1)?;
    if !adopt(arena, adopter) {
        return None;
    }
    let mut last = key;
    for number in 11..19u32 {
        last = put(arena, opener, u128::from(number))?;
        retire(arena, opener, 1)?;
    }
    // A look-up notes where the span is.
    let is_noted = get(arena, third, &last) == Some(Ok(Some(Object::c16(18))));
    if is_noted && (key.span.serial, last.span.serial) == (0, 8) {
        Some(key)
    } else {
        None
    }
}

fn answered(alloc: Global) -> Option<Answers> {
    let Shared {
        arena,
        mut first,
        mut second,
        mut third,
        mut steward,
    } = make_shared(alloc, 2)?;
    let key = put(&*arena, &mut second, 7)?;
    let moved = lose_hint(&*arena, &mut first, &mut second, &mut third)?;
    let session = keep(&arena, second)?;
    let busy = [
        are_keys_busy(&*arena, &mut third, &key),
        are_keys_busy(&*arena, &mut first, &moved),
    ];
    let all_busy = are_all_busy(&*arena, &mut steward);
    drop(session);
    let found = [
        get(&*arena, &mut third, &key),
        get(&*arena, &mut third, &moved),
    ];
    Some((busy, all_busy, found, totals(&*arena).ok()?))
}

#[test]
fn tells_who_needs_it_that_it_is_busy(rt: HostRuntime) -> Result<(), Fail> {
    let found = [
        Some(Ok(Some(Object::c16(7)))),
        Some(Ok(Some(Object::c16(4)))),
    ];
    let totals = Totals {
        pages: 10,
        live: 10,
    };
    let wanted = ([[true; 4]; 2], [true; 4], found, totals);
    assert_eq!(rt; answered(rt.alloc()), Some(wanted));
    Ok(())
}

// What a walk meets: a key of the first shard, twice that the second is busy, and once that is
// given back, its key, the one of the third, which is in the pool, and its end.
type Met = [Result<Option<Key>, Busy>; 6];

fn met(alloc: Global) -> Option<(Met, Met)> {
    let Shared {
        arena,
        mut first,
        mut second,
        mut third,
        ..
    } = make_shared(alloc, 2)?;
    let keys = [
        put(&*arena, &mut first, 5)?,
        put(&*arena, &mut second, 6)?,
        put(&*arena, &mut third, 7)?,
    ];
    retire(&*arena, &mut third, 1)?;
    let mut walk = Walk::default();
    let session = keep(&arena, second)?;
    let zeroth = walk.try_next(&*arena);
    let busy = walk.try_next(&*arena);
    let again = walk.try_next(&*arena);
    drop(session);
    let second = walk.try_next(&*arena);
    let third = walk.try_next(&*arena);
    let end = walk.try_next(&*arena);
    let wanted = [
        Ok(Some(keys[0])),
        Err(Busy),
        Err(Busy),
        Ok(Some(keys[1])),
        Ok(Some(keys[2])),
        Ok(None),
    ];
    Some(([zeroth, busy, again, second, third, end], wanted))
}

#[test]
fn has_a_walk_stand_until_it_is_given_back(rt: HostRuntime) -> Result<(), Fail> {
    let met = met(rt.alloc());
    assert!(rt;
        matches!(met, Some((met, wanted)) if met == wanted),
        "{met:?}"
    );
    Ok(())
}

// A pair whose owned group is in the second shard, which is kept at each call of the plan and then
// given back: what the calls answer, first busy and then not; and whether the next put comes to the
// group, which the close has opened.
type Planned = (
    [Option<Result<usize, Busy>>; 2],
    [Option<Result<Stepped, Busy>>; 2],
    [Option<Result<bool, Busy>>; 2],
    [bool; 3],
);

// A group of the first shard with a key at slot 1 goes to the pool, so that it fits onto one with a
// key at slot 0.
fn retire_one(arena: &Shards, seat: &mut Seat) -> Option<Key> {
    let gone = put(arena, seat, 10)?;
    let stays = put(arena, seat, 11)?;
    let is_freed = free(arena, seat, &gone) == Some(Ok(true));
    if is_freed && retire(arena, seat, 1) == Some(1) {
        Some(stays)
    } else {
        None
    }
}

// Whether a mark is refused, since a plan is open, and a forgetting for that reason.
fn has_plan(arena: &Shards, steward: &mut Steward) -> bool {
    if !steward.fits(arena) {
        return false;
    }
    let is_refused = matches!(arena.try_mark(steward), Ok(Err(MarkError::PlanOpen)));
    is_refused && steward.fits(arena) && arena.try_forget(steward) == Ok(Err(PlanOpen))
}

fn planned(alloc: Global) -> Option<(Planned, [Key; 2])> {
    let Shared {
        arena,
        mut first,
        mut second,
        mut steward,
        ..
    } = make_shared(alloc, 2)?;
    let stays = retire_one(&*arena, &mut first)?;
    let own = put(&*arena, &mut second, 7)?;
    let session = keep(&arena, second)?;
    let busy_mark = mark(&*arena, &mut steward);
    let second = pause(session);
    let marked = mark(&*arena, &mut steward);
    let session = keep(&arena, second)?;
    let busy_step = step(&*arena, &mut steward);
    let busy_close = close(&*arena, &mut steward);
    let mut second = pause(session);
    let is_open = has_plan(&*arena, &mut steward);
    let is_closed_to_puts = put(&*arena, &mut second, 8)?.span != own.span;
    let stepped = step(&*arena, &mut steward);
    let closed = close(&*arena, &mut steward);
    // The group that was opened for that put has a page of its own, which goes first.
    let is_opened = opens_again(&*arena, &mut second, &own);
    Some((
        (
            [busy_mark, marked],
            [busy_step, stepped],
            [busy_close, closed],
            [is_open, is_closed_to_puts, is_opened],
        ),
        [stays, own],
    ))
}

// Whether a put comes to the group of the key, before all pages of the shard are full.
fn opens_again(arena: &Shards, seat: &mut Seat, own: &Key) -> bool {
    for _ in 0..512 {
        match put(arena, seat, 9) {
            Some(key) if key.span == own.span => return true,
            Some(_) => {}
            None => return false,
        }
    }
    false
}

#[test]
fn keeps_a_plan_until_it_is_given_back(rt: HostRuntime) -> Result<(), Fail> {
    let Some((told, [stays, own])) = planned(rt.alloc()) else {
        return Err("no plan".into());
    };
    let folded = Stepped::Taken(stays.span, own.span, Step::Folded);
    let wanted = (
        [Some(Err(Busy)), Some(Ok(1))],
        [Some(Err(Busy)), Some(Ok(folded))],
        [Some(Err(Busy)), Some(Ok(true))],
        [true; 3],
    );
    assert_eq!(rt; told, wanted);
    Ok(())
}

// The same of a step onto a group that the second shard has adopted, of which no hint is left. It
// gives both answers, if the second is the fold.
fn stepped(alloc: Global) -> Option<[Option<Result<Stepped, Busy>>; 2]> {
    let Shared {
        arena,
        mut first,
        mut second,
        mut third,
        mut steward,
    } = make_shared(alloc, 2)?;
    let owned = lose_hint(&*arena, &mut first, &mut second, &mut third)?;
    retire_one(&*arena, &mut first)?;
    // Of the groups in the pool that one alone fits.
    if mark(&*arena, &mut steward) != Some(Ok(1)) {
        return None;
    }
    let session = keep(&arena, second)?;
    let busy = step(&*arena, &mut steward);
    drop(session);
    let stepped = step(&*arena, &mut steward);
    match stepped {
        Some(Ok(Stepped::Taken(_, onto, Step::Folded))) if onto == owned.span => {
            Some([busy, stepped])
        }
        _ => None,
    }
}

#[test]
fn steps_only_where_all_were_asked(rt: HostRuntime) -> Result<(), Fail> {
    let told = stepped(rt.alloc());
    assert!(rt; matches!(told, Some([Some(Err(Busy)), _])), "{told:?}");
    Ok(())
}
