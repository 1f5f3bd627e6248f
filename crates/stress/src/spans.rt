// That a shard of an arena opens spans without end, that those which have moved are found, though
// hints of where they are give way to one another, since shards of two pages have eight words for
// them; and that keys of a span which was forgotten find nothing.
ghost use Rattle.std.specs.Prelude.{◌≡◌};

use arena::{Arena, NoGate, PlanOpen, Seat, Stepped, Steward};
use fold::Step;
use mesh_graph::AtHand;
use span::names::{Key, Object, SpanId};
use span::spans::Counted;
use std::alloc::Global;
use std::sync::Wait;
use std::test::Fail;
use std::thread;
use std::thread::Threads;

// Three seats at an arena of shards of two pages each.
#[derive(Drop)]
struct Three {
    arena: Arena<NoGate, Counted>,
    first: Seat,
    second: Seat,
    third: Seat,
    steward: Steward,
    ghost first_fits: { first.limits ≡ arena.limits },
    ghost second_fits: { second.limits ≡ arena.limits },
    ghost third_fits: { third.limits ≡ arena.limits },
    ghost steward_fits: { steward.limits ≡ arena.limits },
}

fn make_three(alloc: Global) -> Option<Three> {
    let Ok((arena, mut seats, steward)) = Arena::open_with_log(alloc, 3, 2, 4, 9, NoGate) else {
        return None;
    };
    let third = seats.pop()?;
    let second = seats.pop()?;
    let first = seats.pop()?;
    Some(Three {
        arena,
        first,
        second,
        third,
        steward,
    })
}

type Shards = Arena<NoGate, Counted>;

fn put<R: Wait>(rt: &R, arena: &Shards, seat: &mut Seat, value: u128) -> Option<Key>
    requires { seat.old.limits ≡ arena.now.limits }
    ensures { seat.new.limits ≡ seat.old.limits }
{
    match seat.put(rt, arena, Object::c16(value)) {
        Ok((key, _)) => Some(key),
        Err(_) => None,
    }
}

fn is_found<R: Wait>(rt: &R, arena: &Shards, seat: &mut Seat, key: &Key, value: u128) -> bool
    requires { seat.old.limits ≡ arena.now.limits }
    ensures { seat.new.limits ≡ seat.old.limits }
{
    seat.get(rt, arena, key).0 == Some(Object::c16(value))
}

fn free<R: Wait>(rt: &R, arena: &Shards, seat: &mut Seat, key: &Key) -> bool
    requires { seat.old.limits ≡ arena.now.limits }
    ensures { seat.new.limits ≡ seat.old.limits }
{
    seat.free(rt, arena, key).0
}

fn retire<R: Wait>(rt: &R, arena: &Shards, seat: &mut Seat) -> bool
    requires { seat.old.limits ≡ arena.now.limits }
    ensures { seat.new.limits ≡ seat.old.limits }
{
    seat.retire(rt, arena, 2).is_ok()
}

fn adopt<R: Wait>(rt: &R, arena: &Shards, seat: &mut Seat) -> bool
    requires { seat.old.limits ≡ arena.now.limits }
    ensures { seat.new.limits ≡ seat.old.limits }
{
    seat.adopt(rt, arena).is_ok()
}

// A key of each of three spans, which went to the pool.
fn keep_three<R: Wait>(rt: &R, arena: &Shards, seat: &mut Seat) -> Option<[Key; 3]>
    requires { seat.old.limits ≡ arena.now.limits }
    ensures { seat.new.limits ≡ seat.old.limits }
{
    let zeroth = put(rt, arena, seat, 0)?;
    retire(rt, arena, seat);
    let first = put(rt, arena, seat, 1)?;
    retire(rt, arena, seat);
    let second = put(rt, arena, seat, 2)?;
    retire(rt, arena, seat);
    Some([zeroth, first, second])
}

// How many of the keys are found.
fn count_found<R: Wait>(rt: &R, arena: &Shards, seat: &mut Seat, keys: &[Key; 3]) -> usize
    requires { seat.old.limits ≡ arena.now.limits }
    ensures { seat.new.limits ≡ seat.old.limits }
{
    let [zeroth, first, second] = *keys;
    let found = [
        is_found(rt, arena, seat, &zeroth, 0),
        is_found(rt, arena, seat, &first, 1),
        is_found(rt, arena, seat, &second, 2),
    ];
    found.iter().filter(|is| **is).count()
}

// Opens a span, has the shard adopt the group of lowest head for a while, sends both to the pool,
// and frees the key there.
fn open_one<R: Wait>(rt: &R, arena: &Shards, seat: &mut Seat) -> Option<SpanId>
    requires { seat.old.limits ≡ arena.now.limits }
    ensures { seat.new.limits ≡ seat.old.limits }
{
    let key = put(rt, arena, seat, 7)?;
    let moved = adopt(rt, arena, seat) && retire(rt, arena, seat);
    if moved && free(rt, arena, seat, &key) {
        Some(key.span)
    } else {
        None
    }
}

// Does so that many times, and gives the last span.
fn open_many<R: Wait>(rt: &R, arena: &Shards, seat: &mut Seat, count: u32) -> Option<SpanId>
    requires { seat.old.limits ≡ arena.now.limits }
    ensures { seat.new.limits ≡ seat.old.limits }
{
    let mut last = None;
    for _ in 0..count {
        last = open_one(rt, arena, seat);
        if last.is_none() {
            return None;
        }
    }
    last
}

// Looks the keys up that many times, and says whether each was found each time.
fn look_up_many<R: Wait>(
    rt: &R,
    arena: &Shards,
    seat: &mut Seat,
    keys: &[Key; 3],
    count: u32,
) -> bool
    requires { seat.old.limits ≡ arena.now.limits }
    ensures { seat.new.limits ≡ seat.old.limits }
{
    for _ in 0..count {
        if count_found(rt, arena, seat, keys) < 3 {
            return false;
        }
    }
    true
}

// Keys of three spans are found while their shard opens 2,000 more, also by a thread that looks
// them up beside that. It gives the serial of the last span, whether they were found meanwhile, and
// how many are found in the end: in the pool, once one was adopted, and once that one was freed.
fn opened<R: Threads + Wait + Sync>(
    rt: &R,
    arena: &Shards,
    first: &mut Seat,
    second: &mut Seat,
    third: &mut Seat,
) -> Option<(u32, bool, [usize; 3])>
    requires first { first.old.limits ≡ arena.now.limits }
    requires second { second.old.limits ≡ arena.now.limits }
    requires third { third.old.limits ≡ arena.now.limits }
{
    let keys = keep_three(rt, arena, first)?;
    let (last, found) = thread::join(
        rt,
        || open_many(rt, arena, first, 2_000),
        || look_up_many(rt, arena, third, &keys, 10_000),
    );
    let pooled = count_found(rt, arena, second, &keys);
    adopt(rt, arena, second);
    let adopted = count_found(rt, arena, second, &keys);
    free(rt, arena, second, &keys[0]);
    let freed = count_found(rt, arena, second, &keys);
    Some((last?.serial, found, [pooled, adopted, freed]))
}

#[test]
fn opens_spans_without_end(rt: HostRuntime) -> Result<(), Fail> {
    let Some(three) = make_three(rt.alloc()) else {
        return Err("no arena".into());
    };
    let Three {
        arena,
        mut first,
        mut second,
        mut third,
        ..
    } = three;
    let opened = opened(&rt, &arena, &mut first, &mut second, &mut third);
    assert_eq!(rt; opened, Some((2_002, true, [3, 3, 2])));
    Ok(())
}

// A mark, and one step of its plan, if it has a pair; the plan is open then.
fn mark_and_step<R: Wait>(rt: &R, arena: &Shards, steward: &mut Steward) -> bool
    requires { steward.old.limits ≡ arena.now.limits }
    ensures { steward.new.limits ≡ steward.old.limits }
{
    let marked = arena.mark(rt, &AtHand, steward).is_ok();
    marked && arena.step(rt, steward).is_ok()
}

fn close<R: Wait>(rt: &R, arena: &Shards, steward: &mut Steward) -> bool
    requires { steward.old.limits ≡ arena.now.limits }
    ensures { steward.new.limits ≡ steward.old.limits }
{
    arena.close(rt, steward)
}

fn forget<R: Wait>(rt: &R, arena: &Shards, steward: &Steward) -> Result<usize, PlanOpen>
    requires { steward.now.limits ≡ arena.now.limits }
{
    arena.forget(rt, steward)
}

// A key of the first shard's span, which was folded onto the page of the second shard with the key
// given.
fn fold_one<R: Wait>(
    rt: &R,
    arena: &Shards,
    first: &mut Seat,
    second: &mut Seat,
    steward: &mut Steward,
) -> Option<[Key; 2]>
    requires first { first.old.limits ≡ arena.now.limits }
    requires second { second.old.limits ≡ arena.now.limits }
    requires steward { steward.old.limits ≡ arena.now.limits }
    ensures first { first.new.limits ≡ first.old.limits }
    ensures second { second.new.limits ≡ second.old.limits }
    ensures steward { steward.new.limits ≡ steward.old.limits }
{
    let owned = put(rt, arena, second, 1)?;
    let goes = put(rt, arena, first, 2)?;
    let stays = put(rt, arena, first, 3)?;
    // They have to be at other slots.
    let retired = free(rt, arena, first, &goes) && retire(rt, arena, first);
    if retired && mark_and_step(rt, arena, steward) && close(rt, arena, steward) {
        Some([stays, owned])
    } else {
        None
    }
}

// Opens so many spans, each of which goes to the pool with a key, and gives the last key.
fn open_live<R: Wait>(rt: &R, arena: &Shards, seat: &mut Seat, count: u32) -> Option<Key>
    requires { seat.old.limits ≡ arena.now.limits }
    ensures { seat.new.limits ≡ seat.old.limits }
{
    let mut last = None;
    for _ in 0..count {
        last = put(rt, arena, seat, 4);
        retire(rt, arena, seat);
    }
    last
}

// Whether a step folds onto a group which its shard has adopted, once the hint of its head has
// given way to that of another span.
fn folds_without_a_hint<R: Wait>(
    rt: &R,
    arena: &Shards,
    first: &mut Seat,
    second: &mut Seat,
    steward: &mut Steward,
) -> Option<bool>
    requires first { first.old.limits ≡ arena.now.limits }
    requires second { second.old.limits ≡ arena.now.limits }
    requires steward { steward.old.limits ≡ arena.now.limits }
{
    put(rt, arena, first, 4)?;
    retire(rt, arena, first);
    adopt(rt, arena, second);
    let shares = open_live(rt, arena, first, 8)?;
    let noted = is_found(rt, arena, second, &shares, 4);
    let goes = put(rt, arena, first, 2)?;
    put(rt, arena, first, 3)?;
    let retired = free(rt, arena, first, &goes) && retire(rt, arena, first);
    let marked = arena.mark(rt, &AtHand, steward).is_ok();
    let folded = matches!(
        arena.step(rt, steward),
        Ok(Stepped::Taken(_, _, Step::Folded))
    );
    Some(noted && retired && marked && folded)
}

#[test]
fn folds_wherever_a_span_is(rt: HostRuntime) -> Result<(), Fail> {
    let Some(three) = make_three(rt.alloc()) else {
        return Err("no arena".into());
    };
    let Three {
        arena,
        mut first,
        mut second,
        mut steward,
        ..
    } = three;
    let folds = folds_without_a_hint(&rt, &arena, &mut first, &mut second, &mut steward);
    assert_eq!(rt; folds, Some(true));
    Ok(())
}

// What a forgetting answered while the guest had a live key, while a plan was open, and then; what
// a look-up of its key told, twice, and a free; and whether three other keys are found: of the
// page, and of a span that shares its word of hints with the one that was forgotten, from both
// seats.
type Forgets = ([Result<usize, PlanOpen>; 3], [(bool, usize); 3], [bool; 3]);

fn forgotten<R: Wait>(
    rt: &R,
    arena: &Shards,
    first: &mut Seat,
    second: &mut Seat,
    steward: &mut Steward,
) -> Option<Forgets>
    requires first { first.old.limits ≡ arena.now.limits }
    requires second { second.old.limits ≡ arena.now.limits }
    requires steward { steward.old.limits ≡ arena.now.limits }
{
    let [gone, kept] = fold_one(rt, arena, first, second, steward)?;
    let early = forget(rt, arena, steward);
    let freed = free(rt, arena, second, &gone);
    let marked = mark_and_step(rt, arena, steward);
    let refused = forget(rt, arena, steward);
    let closed = close(rt, arena, steward);
    let done = forget(rt, arena, steward);
    let told = [
        told_of_get(rt, arena, first, &gone),
        told_of_get(rt, arena, second, &gone),
        told_of_free(rt, arena, second, &gone),
    ];
    let shares = open_live(rt, arena, first, 8)?;
    let found = [
        is_found(rt, arena, first, &kept, 1),
        is_found(rt, arena, first, &shares, 4),
        is_found(rt, arena, second, &shares, 4),
    ];
    if freed && marked && closed && shares.span.serial == 8 && gone.span.serial == 0 {
        Some(([early, refused, done], told, found))
    } else {
        None
    }
}

// Whether something was found, and the changes before that of which the receipt tells.
fn told_of_get<R: Wait>(rt: &R, arena: &Shards, seat: &mut Seat, key: &Key) -> (bool, usize)
    requires { seat.old.limits ≡ arena.now.limits }
    ensures { seat.new.limits ≡ seat.old.limits }
{
    let (found, receipt) = seat.get(rt, arena, key);
    (found.is_some(), receipt.at)
}

// The same of a free.
fn told_of_free<R: Wait>(rt: &R, arena: &Shards, seat: &mut Seat, key: &Key) -> (bool, usize)
    requires { seat.old.limits ≡ arena.now.limits }
    ensures { seat.new.limits ≡ seat.old.limits }
{
    let (freed, receipt) = seat.free(rt, arena, key);
    (freed, receipt.at)
}

#[test]
fn forgets_spans_for_good(rt: HostRuntime) -> Result<(), Fail> {
    let Some(three) = make_three(rt.alloc()) else {
        return Err("no arena".into());
    };
    let Three {
        arena,
        mut first,
        mut second,
        mut steward,
        ..
    } = three;
    let forgotten = forgotten(&rt, &arena, &mut first, &mut second, &mut steward);
    let nothing = (false, 0);
    let wanted = ([Ok(0), Err(PlanOpen), Ok(1)], [nothing; 3], [true; 3]);
    assert_eq!(rt; forgotten, Some(wanted));
    Ok(())
}
