//! Keys at each place where a span may be: in a group that was folded onto another, in a shard that
//! adopted its group, and in the pool. They are left to the threads of shards that ended, and freed
//! when the rings are settled, by the arena or at its end.
ghost use Rattle.std.specs.Prelude.{◌≡◌, length, vec_len};
ghost use Rattle.arena.specs.Seats.{AreSeatsOf};

use arena::{Arena, Finished, NoGate, Seat, Stepped, Steward, Unfinished, finish};
use fold::Step;
use marks::Totals;
use mesh_graph::AtHand;
use span::names::{Key, Object};
use span::receipts::{CallView, ReceiptList};
use span::spans::Log;
use std::alloc::Global;
use std::sync::Wait;
use std::test::Fail;

// A key at each place. Worker 1 left all but `own` to the threads of their shards.
#[derive(Clone, Copy)]
struct Places {
    // Of shard 0, in a group that is folded onto one of shard 1.
    guest: Key,
    // Of shard 1, in the group below it.
    own: Key,
    // Of shard 2, in a group that shard 1 adopted.
    adopted: Key,
    // Of shard 3, in the pool.
    pooled: Key,
}

fn put<R: Wait>(
    rt: &R,
    arena: &Arena<NoGate>,
    seats: &mut [Seat],
    worker: usize,
    word: u128,
) -> Option<Key>
    requires { AreSeatsOf arena.now.limits arena.now.table seats.old }
    ensures len { length seats.new ≡ length seats.old }
    ensures seats { AreSeatsOf arena.now.limits arena.now.table seats.new }
{
    if worker >= seats.len() || !seats[worker].fits(arena) {
        return None;
    }
    match seats[worker].put(rt, arena, Object::c16(word)) {
        Ok((key, _)) => Some(key),
        Err(_) => None,
    }
}

fn free<R: Wait>(
    rt: &R,
    arena: &Arena<NoGate>,
    seats: &mut [Seat],
    worker: usize,
    key: &Key,
) -> bool
    requires { AreSeatsOf arena.now.limits arena.now.table seats.old }
    ensures len { length seats.new ≡ length seats.old }
    ensures seats { AreSeatsOf arena.now.limits arena.now.table seats.new }
{
    if worker >= seats.len() || !seats[worker].fits(arena) {
        return false;
    }
    seats[worker].free(rt, arena, key).0
}

fn end<R: Wait>(rt: &R, arena: &Arena<NoGate>, seats: &mut [Seat], worker: usize) -> bool
    requires { AreSeatsOf arena.now.limits arena.now.table seats.old }
    ensures len { length seats.new ≡ length seats.old }
    ensures seats { AreSeatsOf arena.now.limits arena.now.table seats.new }
{
    if worker >= seats.len() || !seats[worker].fits(arena) {
        return false;
    }
    seats[worker].end(rt, arena).is_ok()
}

fn adopt<R: Wait>(rt: &R, arena: &Arena<NoGate>, seats: &mut [Seat], worker: usize) -> bool
    requires { AreSeatsOf arena.now.limits arena.now.table seats.old }
    ensures len { length seats.new ≡ length seats.old }
    ensures seats { AreSeatsOf arena.now.limits arena.now.table seats.new }
{
    if worker >= seats.len() || !seats[worker].fits(arena) {
        return false;
    }
    seats[worker].adopt(rt, arena).is_ok()
}

// Leaves the key to the thread of its shard, and says whether the ring took it.
fn leave(arena: &Arena<NoGate>, seats: &mut [Seat], worker: usize, key: Key) -> bool
    requires { AreSeatsOf arena.now.limits arena.now.table seats.old }
    ensures len { length seats.new ≡ length seats.old }
    ensures seats { AreSeatsOf arena.now.limits arena.now.table seats.new }
{
    if worker >= seats.len() || !seats[worker].has_shard_of(&key) {
        return false;
    }
    seats[worker].free_later(key).is_ok()
}

fn mark<R: Wait>(rt: &R, arena: &Arena<NoGate>, steward: &mut Steward) -> bool {
    steward.fits(arena) && arena.mark(rt, &AtHand, steward).is_ok()
}

// Whether the step of the pair that is next folded a group.
fn step<R: Wait>(rt: &R, arena: &Arena<NoGate>, steward: &mut Steward) -> bool {
    if !steward.fits(arena) {
        return false;
    }
    let stepped = arena.step(rt, steward);
    matches!(stepped, Ok(Stepped::Taken(_, _, Step::Folded)))
}

fn close<R: Wait>(rt: &R, arena: &Arena<NoGate>, steward: &mut Steward) -> bool {
    steward.fits(arena) && arena.close(rt, steward)
}

// Makes a plan, takes a step of it, and ends it.
fn fold<R: Wait>(rt: &R, arena: &Arena<NoGate>, steward: &mut Steward) -> bool {
    mark(rt, arena, steward) && step(rt, arena, steward) && close(rt, arena, steward)
}

// Leaves the keys that are to be freed, as worker 1, and says whether the rings took them.
fn leave_all(arena: &Arena<NoGate>, seats: &mut [Seat], places: &Places) -> bool
    requires { AreSeatsOf arena.now.limits arena.now.table seats.old }
    ensures len { length seats.new ≡ length seats.old }
    ensures seats { AreSeatsOf arena.now.limits arena.now.table seats.new }
{
    let guest = leave(arena, seats, 1, places.guest);
    let adopted = leave(arena, seats, 1, places.adopted);
    let pooled = leave(arena, seats, 1, places.pooled);
    guest && adopted && pooled
}

// Puts a key at each place, and leaves all but `own`.
fn spread<R: Wait>(
    rt: &R,
    arena: &Arena<NoGate>,
    seats: &mut [Seat],
    steward: &mut Steward,
) -> Option<Places>
    requires { AreSeatsOf arena.now.limits arena.now.table seats.old }
    ensures len { length seats.new ≡ length seats.old }
    ensures seats { AreSeatsOf arena.now.limits arena.now.table seats.new }
{
    let gone = put(rt, arena, seats, 0, 10)?;
    let guest = put(rt, arena, seats, 0, 11)?;
    let own = put(rt, arena, seats, 1, 12)?;
    let freed = free(rt, arena, seats, 0, &gone);
    let ended = end(rt, arena, seats, 0);
    let folded = fold(rt, arena, steward);
    let adopted = put(rt, arena, seats, 2, 13)?;
    let moved = end(rt, arena, seats, 2) && adopt(rt, arena, seats, 1);
    let pooled = put(rt, arena, seats, 3, 14)?;
    let last = end(rt, arena, seats, 3);
    let places = Places {
        guest,
        own,
        adopted,
        pooled,
    };
    let left = leave_all(arena, seats, &places);
    if !(freed && ended && folded && moved && last && left) {
        return None;
    }
    Some(places)
}

// A list of receipts for each of four workers, made anew where memory was refused.
fn four_lists(alloc: Global) -> Option<Vec<ReceiptList>> {
    let lists = vec![in alloc;
        ReceiptList::new(alloc),
        ReceiptList::new(alloc),
        ReceiptList::new(alloc),
        ReceiptList::new(alloc),
    ];
    match lists {
        Ok(lists) => Some(lists),
        Err(_) => {
            vec![in alloc;
                ReceiptList::new(alloc),
                ReceiptList::new(alloc),
                ReceiptList::new(alloc),
                ReceiptList::new(alloc),
            ]
            .ok()
        }
    }
}

// How many receipts of frees that were done each worker has.
fn done_of(lists: &[ReceiptList]) -> [usize; 4] {
    let mut done = [0usize; 4];
    for (worker, list) in lists.iter().enumerate() {
        if worker < 4 {
            done[worker] = done_in(list);
        }
    }
    done
}

// How many of the receipts are of frees that were done.
pub(crate) fn done_in(list: &ReceiptList) -> usize {
    let mut done = 0usize;
    for place in 0..list.len() {
        if matches!(list.view(place).call, CallView::Freed) {
            done = done.saturating_add(1);
        }
    }
    done
}

// What worker 3 finds of each key.
fn found_of<R: Wait>(
    rt: &R,
    arena: &Arena<NoGate>,
    seats: &mut [Seat],
    places: &Places,
) -> Option<[Option<Object>; 4]> {
    let Some(seat) = seats.last_mut() else {
        return None;
    };
    if !seat.fits(arena) {
        return None;
    }
    Some([
        seat.get(rt, arena, &places.guest).0,
        seat.get(rt, arena, &places.own).0,
        seat.get(rt, arena, &places.adopted).0,
        seat.get(rt, arena, &places.pooled).0,
    ])
}

// Settles all rings, and does so again where memory was refused. It gives how many keys there were.
fn settle<R: Wait>(
    rt: &R,
    arena: &Arena<NoGate>,
    seats: &mut [Seat],
    lists: &mut [ReceiptList],
) -> Option<usize>
    requires seats { AreSeatsOf arena.now.limits arena.now.table seats.old }
    requires lists { length lists.old ≡ length seats.old }
{
    if let Ok(counts) = arena.settle(rt, seats, lists) {
        return Some(total(counts.as_slice()));
    }
    if lists.len() != seats.len() {
        return None;
    }
    let counts = arena.settle(rt, seats, lists).ok()?;
    Some(total(counts.as_slice()))
}

// The sum of all counts.
pub(crate) fn total(counts: &[Vec<usize>]) -> usize {
    let mut all = 0usize;
    for row in counts {
        for count in row {
            all = all.saturating_add(*count);
        }
    }
    all
}

// What came of settling: the totals before, how many keys were settled, how many of each shard were
// freed, what is found of each afterwards, and the totals then.
type Settled = (
    Totals,
    usize,
    [usize; 4],
    Option<[Option<Object>; 4]>,
    Totals,
);

fn settled<R: Wait>(rt: &R, alloc: Global) -> Option<Settled> {
    let Ok((arena, mut seats, mut steward)) = Arena::open(alloc, 4, 4, 4, 9, NoGate) else {
        return None;
    };
    let all = seats.as_mut_slice();
    let places = spread(rt, &arena, all, &mut steward)?;
    let mut lists = four_lists(alloc)?;
    if lists.len() != all.len() {
        return None;
    }
    let before = arena.totals(rt);
    let count = settle(rt, &arena, all, lists.as_mut_slice())?;
    let found = found_of(rt, &arena, all, &places);
    let after = arena.totals(rt);
    Some((before, count, done_of(lists.as_slice()), found, after))
}

#[test]
fn settles_wherever_a_span_is(rt: HostRuntime) -> Result<(), Fail> {
    let wanted = (
        Totals { pages: 3, live: 4 },
        3,
        [1, 0, 1, 1],
        Some([None, Some(Object::c16(12)), None, None]),
        Totals { pages: 2, live: 1 },
    );
    // Once more where memory was refused.
    let settled = match settled(&rt, rt.alloc()) {
        Some(settled) => Some(settled),
        None => settled(&rt, rt.alloc()),
    };
    assert_eq!(rt; settled, Some(wanted));
    Ok(())
}

// Ends the arena, and does so again, with what was handed back, where memory was refused.
fn finish_again(
    arena: Arena<NoGate>,
    seats: Vec<Seat>,
    lists: &mut [ReceiptList],
) -> Option<Finished>
    requires seats { AreSeatsOf arena.limits arena.table seats.items }
    requires lists { length lists.old ≡ vec_len seats }
{
    let back = match finish(arena, seats, lists) {
        Ok(finished) => return Some(finished),
        Err(back) => back,
    };
    let Unfinished { arena, seats } = back;
    if seats.len() != lists.len() {
        return None;
    }
    finish(arena, seats, lists).ok()
}

// What an arena leaves: how many keys were settled, how many of each shard were freed, and how many
// logs and changes there are.
fn left<R: Wait>(rt: &R, alloc: Global) -> Option<(usize, [usize; 4], usize, usize)> {
    let Ok((arena, mut seats, mut steward)) = Arena::open(alloc, 4, 4, 4, 9, NoGate) else {
        return None;
    };
    spread(rt, &arena, seats.as_mut_slice(), &mut steward)?;
    let mut lists = four_lists(alloc)?;
    if lists.len() != seats.len() {
        return None;
    }
    let finished = finish_again(arena, seats, lists.as_mut_slice())?;
    let mut changes = 0usize;
    for log in &finished.logs {
        changes = changes.saturating_add(log.log.len());
    }
    let count = total(finished.counts.as_slice());
    Some((
        count,
        done_of(lists.as_slice()),
        finished.logs.len(),
        changes,
    ))
}

#[test]
fn ends_wherever_a_span_is(rt: HostRuntime) -> Result<(), Fail> {
    // Once more where memory was refused before.
    let left = match left(&rt, rt.alloc()) {
        Some(left) => Some(left),
        None => left(&rt, rt.alloc()),
    };
    assert_eq!(rt; left, Some((3, [1, 0, 1, 1], 4, 9)));
    Ok(())
}

// The first of two workers ends its shard, whose group comes to the pool and is emptied there, and
// the second has one that stands in its shard. Says whether it came to that.
fn empties_one<R: Wait>(rt: &R, arena: &Arena<NoGate>, seats: &mut [Seat]) -> Option<bool>
    requires { AreSeatsOf arena.now.limits arena.now.table seats.old }
    ensures len { length seats.new ≡ length seats.old }
    ensures seats { AreSeatsOf arena.now.limits arena.now.table seats.new }
{
    let key = put(rt, arena, seats, 0, 5)?;
    put(rt, arena, seats, 1, 6)?;
    Some(end(rt, arena, seats, 0) && free(rt, arena, seats, 0, &key))
}

// How many logs and how many changes the two leave.
fn logs_left<R: Wait>(rt: &R, alloc: Global) -> Option<(usize, usize)> {
    let Ok((arena, mut seats, _)) = Arena::open(alloc, 2, 4, 4, 9, NoGate) else {
        return None;
    };
    let emptied = empties_one(rt, &arena, seats.as_mut_slice())?;
    let mut lists = vec![in alloc; ReceiptList::new(alloc), ReceiptList::new(alloc)].ok()?;
    if !emptied || lists.len() != seats.len() {
        return None;
    }
    let finished = finish_again(arena, seats, lists.as_mut_slice())?;
    let mut changes = 0usize;
    for log in &finished.logs {
        changes = changes.saturating_add(log.log.len());
    }
    Some((finished.logs.len(), changes))
}

#[test]
fn leaves_all_logs(rt: HostRuntime) -> Result<(), Fail> {
    // Once more where memory was refused.
    let left = match logs_left(&rt, rt.alloc()) {
        Some(left) => Some(left),
        None => logs_left(&rt, rt.alloc()),
    };
    assert_eq!(rt; left, Some((2, 3)));
    Ok(())
}
