// That a thread which is held inside of a shard keeps nobody from the pool, and that a close has
// the locks of all shards at once.
ghost use Rattle.std.specs.Prelude.{◌≡◌};

use arena::{Arena, Dropped, Gate, Seat, Steward, Totals};
use mesh_graph::AtHand;
use span::names::{Key, Object, SpanId};
use span::spans::Counted;
use std::alloc::Global;
use std::hint::spin_loop;
use std::sync::Wait;
use std::sync::atomic::AtomicU64;
use std::sync::atomic::Ordering::SeqCst;
use std::test::Fail;
use std::thread;
use std::thread::Threads;

// What threads tell each other of whom a gate holds.
#[derive(Drop)]
pub(crate) struct Signals {
    // 1 from when on the gate holds who comes.
    pub(crate) armed: AtomicU64,
    // 1 once somebody came.
    pub(crate) came: AtomicU64,
    // 1 once another thread began what it does meanwhile.
    pub(crate) begun: AtomicU64,
    // 1 once the gate may let go.
    pub(crate) answered: AtomicU64,
    // 1 where it let go without that.
    pub(crate) missed: AtomicU64,
}

impl Signals {
    pub(crate) fn new() -> Signals {
        Signals {
            armed: AtomicU64::new(0),
            came: AtomicU64::new(0),
            begun: AtomicU64::new(0),
            answered: AtomicU64::new(0),
            missed: AtomicU64::new(0),
        }
    }
}

// A gate that holds who is inside of the shard of this number, for at most that many turns since
// another thread began.
#[derive(Drop)]
pub(crate) struct Holding<'a> {
    pub(crate) signals: &'a Signals,
    pub(crate) shard: u32,
    pub(crate) turns: usize,
}

impl<'a> Gate for Holding<'a> {
    fn inside(&self, shard: u32) {
        let signals = self.signals;
        if shard != self.shard || signals.armed.load(SeqCst) == 0 {
            return;
        }
        signals.came.store(1, SeqCst);
        if !is_set_in_time(&signals.begun, TURNS)
            || !is_set_in_time(&signals.answered, self.turns)
        {
            signals.missed.store(1, SeqCst);
        }
    }
}

// How many turns a thread waits for one that nothing keeps: some seconds of a processor. A turn
// lets no other thread run, since on a busy machine that takes milliseconds, and on an idle one
// nothing.
pub(crate) const TURNS: usize = 100_000_000;

// Waits for the word to be 1, for at most that many turns, and says whether it is.
pub(crate) fn is_set_in_time(word: &AtomicU64, turns: usize) -> bool {
    for _ in 0..turns {
        if word.load(SeqCst) == 1 {
            return true;
        }
        spin_loop();
    }
    false
}

// The seats of an arena of three shards of at most 4 pages, and its steward.
#[derive(Drop)]
pub(crate) struct Three<'a> {
    pub(crate) arena: Arena<Holding<'a>, Counted>,
    pub(crate) first: Seat,
    pub(crate) second: Seat,
    pub(crate) third: Seat,
    pub(crate) steward: Steward,
    ghost first_fits: { first.limits ≡ arena.limits },
    ghost second_fits: { second.limits ≡ arena.limits },
    ghost third_fits: { third.limits ≡ arena.limits },
    ghost steward_fits: { steward.limits ≡ arena.limits },
}

pub(crate) fn make_three<'a>(alloc: Global, gate: Holding<'a>) -> Option<Three<'a>> {
    let Ok((arena, mut seats, steward)) = Arena::open_with_log(alloc, 3, 4, 4, u32::MAX, gate)
    else {
        return None;
    };
    let third = seats.pop()?;
    let second = seats.pop()?;
    let first = seats.pop()?;
    Some(Three {
        arena,
        first,
        second,
        third,
        steward,
    })
}

pub(crate) fn put<R: Wait>(
    rt: &R,
    arena: &Arena<Holding<'_>, Counted>,
    seat: &mut Seat,
) -> Option<Key>
    requires { seat.old.limits ≡ arena.now.limits }
    ensures { seat.new.limits ≡ seat.old.limits }
{
    match seat.put(rt, arena, Object::c16(7)) {
        Ok((key, _)) => Some(key),
        Err(_) => None,
    }
}

pub(crate) fn get<R: Wait>(
    rt: &R,
    arena: &Arena<Holding<'_>, Counted>,
    seat: &mut Seat,
    key: &Key,
) -> bool
    requires { seat.old.limits ≡ arena.now.limits }
    ensures { seat.new.limits ≡ seat.old.limits }
{
    seat.get(rt, arena, key).0 == Some(Object::c16(7))
}

fn set<R: Wait>(rt: &R, arena: &Arena<Holding<'_>, Counted>, seat: &mut Seat, key: &Key) -> bool
    requires { seat.old.limits ≡ arena.now.limits }
    ensures { seat.new.limits ≡ seat.old.limits }
{
    matches!(seat.set(rt, arena, key, Object::c16(8)), Ok((true, _)))
}

fn free<R: Wait>(rt: &R, arena: &Arena<Holding<'_>, Counted>, seat: &mut Seat, key: &Key) -> bool
    requires { seat.old.limits ≡ arena.now.limits }
    ensures { seat.new.limits ≡ seat.old.limits }
{
    seat.free(rt, arena, key).0
}

fn end<R: Wait>(rt: &R, arena: &Arena<Holding<'_>, Counted>, seat: &mut Seat) -> bool
    requires { seat.old.limits ≡ arena.now.limits }
    ensures { seat.new.limits ≡ seat.old.limits }
{
    seat.end(rt, arena).is_ok()
}

// What a thread asks that is held.
#[derive(Clone, Copy, PartialEq, Eq, Debug)]
enum Asked {
    Put,
    LookUp,
    Set,
    Free,
    Tend,
}

// Leaves the key to the thread of its shard, in full sight of it, where that thread is to tend its
// rings.
fn leave(seat: &mut Seat, key: Key, asked: Asked) -> bool
    ensures { seat.new.limits ≡ seat.old.limits }
{
    if asked != Asked::Tend {
        return true;
    }
    let sent = seat.has_shard_of(&key) && seat.free_later(key).is_ok();
    seat.hand_over();
    sent
}

// Asks it of the key, which is in the shard of the seat's number. It gives whether the answer is as
// it must be, if memory was not refused.
fn ask<R: Wait>(
    rt: &R,
    arena: &Arena<Holding<'_>, Counted>,
    seat: &mut Seat,
    key: Key,
    asked: Asked,
) -> Option<bool>
    requires { seat.old.limits ≡ arena.now.limits }
{
    match asked {
        Asked::Put => match put(rt, arena, seat) {
            Some(_) => Some(true),
            None => None,
        },
        Asked::LookUp => Some(get(rt, arena, seat, &key)),
        Asked::Set => Some(set(rt, arena, seat, &key)),
        Asked::Free => Some(free(rt, arena, seat, &key)),
        Asked::Tend => Some(seat.tend(rt, arena, &mut Dropped::new()) == Ok(1)),
    }
}

// Looks a key up in the pool once another thread is held.
fn look_up_beside<R: Wait>(
    rt: &R,
    arena: &Arena<Holding<'_>, Counted>,
    signals: &Signals,
    seat: &mut Seat,
    key: &Key,
) -> bool
    requires { seat.old.limits ≡ arena.now.limits }
{
    let came = is_set_in_time(&signals.came, TURNS);
    signals.begun.store(1, SeqCst);
    let found = get(rt, arena, seat, key);
    signals.answered.store(1, SeqCst);
    came && found
}

// Both, each in a thread of its own, and whether the first was held until the second had its
// answer.
fn meet<R: Threads + Wait + Sync>(
    rt: &R,
    arena: &Arena<Holding<'_>, Counted>,
    signals: &Signals,
    first: &mut Seat,
    second: &mut Seat,
    key: Key,
    pooled: &Key,
    asked: Asked,
) -> Option<bool>
    requires first { first.old.limits ≡ arena.now.limits }
    requires second { second.old.limits ≡ arena.now.limits }
{
    signals.armed.store(1, SeqCst);
    let (held, beside) = thread::join(
        rt,
        || ask(rt, arena, first, key, asked),
        || look_up_beside(rt, arena, signals, second, pooled),
    );
    Some(held? && beside && signals.missed.load(SeqCst) == 0)
}

// A thread that asks this in its shard is held there, and another looks up in the pool meanwhile.
fn is_alone_with_its_shard<R: Threads + Wait + Sync>(
    rt: &R,
    alloc: Global,
    asked: Asked,
) -> Option<bool> {
    let signals = Signals::new();
    let gate = Holding {
        signals: &signals,
        shard: 0,
        turns: TURNS,
    };
    let Three {
        arena,
        mut first,
        mut second,
        mut third,
        ..
    } = make_three(alloc, gate)?;
    let key = put(rt, &arena, &mut first)?;
    let pooled = put(rt, &arena, &mut third)?;
    if !end(rt, &arena, &mut third) {
        return None;
    }
    if !leave(&mut second, key, asked) {
        return None;
    }
    meet(
        rt,
        &arena,
        &signals,
        &mut first,
        &mut second,
        key,
        &pooled,
        asked,
    )
}

// The same, and once more where memory was refused.
fn is_alone<R: Threads + Wait + Sync>(rt: &R, alloc: Global, asked: Asked) -> Option<bool> {
    match is_alone_with_its_shard(rt, alloc, asked) {
        Some(alone) => Some(alone),
        None => is_alone_with_its_shard(rt, alloc, asked),
    }
}

#[test]
fn leaves_the_pool_to_others(rt: HostRuntime) -> Result<(), Fail> {
    let alone = [
        is_alone(&rt, rt.alloc(), Asked::Put),
        is_alone(&rt, rt.alloc(), Asked::LookUp),
        is_alone(&rt, rt.alloc(), Asked::Set),
        is_alone(&rt, rt.alloc(), Asked::Free),
        is_alone(&rt, rt.alloc(), Asked::Tend),
    ];
    assert_eq!(rt; alone, [Some(true); 5]);
    Ok(())
}

// Puts and frees in the first shard until a key comes from this span again, which is in a group
// that is closed, and says whether the close that opened it had to wait for the thread which is
// held in the second shard.
fn opens_late<R: Wait>(
    rt: &R,
    arena: &Arena<Holding<'_>, Counted>,
    signals: &Signals,
    seat: &mut Seat,
    closed: SpanId,
) -> bool
    requires { seat.old.limits ≡ arena.now.limits }
{
    for _ in 0..10_000_000 {
        // Memory may be refused.
        let Some(key) = put(rt, arena, seat) else {
            continue;
        };
        if key.span == closed {
            let late = signals.missed.load(SeqCst) == 1;
            signals.answered.store(1, SeqCst);
            return late;
        }
        if !free(rt, arena, seat, &key) {
            return false;
        }
        thread::yield_now();
    }
    false
}

// Ends the plan once a thread is held in the second shard.
fn close_beside<R: Wait>(
    rt: &R,
    arena: &Arena<Holding<'_>, Counted>,
    signals: &Signals,
    steward: &mut Steward,
) -> bool
    requires { steward.old.limits ≡ arena.now.limits }
{
    let came = is_set_in_time(&signals.came, TURNS);
    signals.begun.store(1, SeqCst);
    came && arena.close(rt, steward)
}

// Ends the plan, and puts and frees meanwhile.
fn close_and_put<R: Threads + Wait + Sync>(
    rt: &R,
    arena: &Arena<Holding<'_>, Counted>,
    signals: &Signals,
    seat: &mut Seat,
    steward: &mut Steward,
    closed: SpanId,
) -> bool {
    if !seat.fits(arena) {
        return false;
    }
    if !steward.fits(arena) {
        return false;
    }
    let (put, ended) = thread::join(
        rt,
        || opens_late(rt, arena, signals, seat, closed),
        || close_beside(rt, arena, signals, steward),
    );
    put && ended
}

// The same while a thread looks a key up in the second shard, and is held there for as long as no
// group is opened.
fn close_beside_a_look_up<R: Threads + Wait + Sync>(
    rt: &R,
    arena: &Arena<Holding<'_>, Counted>,
    signals: &Signals,
    first: &mut Seat,
    second: &mut Seat,
    steward: &mut Steward,
    closed: SpanId,
    key: &Key,
) -> bool
    requires { second.old.limits ≡ arena.now.limits }
{
    signals.armed.store(1, SeqCst);
    let (found, late) = thread::join(
        rt,
        || get(rt, arena, second, key),
        || close_and_put(rt, arena, signals, first, steward, closed),
    );
    found && late
}

// Marks, and says whether a fold is planned.
fn is_planned<R: Wait>(rt: &R, arena: &Arena<Holding<'_>, Counted>, steward: &mut Steward) -> bool
    requires { steward.old.limits ≡ arena.now.limits }
    ensures { steward.new.limits ≡ steward.old.limits }
{
    match arena.mark(rt, &AtHand, steward) {
        Ok(found) => found.plan.pairs().len() == 1,
        Err(_) => false,
    }
}

// A group of the third shard, which ended, has slot 1, and so has that of the second, so that it is
// to be folded onto that of the first, which is closed until the plan ends.
fn closes_at_once<R: Threads + Wait + Sync>(rt: &R, alloc: Global) -> Option<bool> {
    let signals = Signals::new();
    let gate = Holding {
        signals: &signals,
        shard: 1,
        turns: TURNS / 50,
    };
    let Three {
        arena,
        mut first,
        mut second,
        mut third,
        mut steward,
    } = make_three(alloc, gate)?;
    let own = put(rt, &arena, &mut first)?;
    put(rt, &arena, &mut second)?;
    let key = put(rt, &arena, &mut second)?;
    let gone = put(rt, &arena, &mut third)?;
    put(rt, &arena, &mut third)?;
    let freed = free(rt, &arena, &mut third, &gone);
    let ended = end(rt, &arena, &mut third);
    if !(freed && ended && is_planned(rt, &arena, &mut steward)) {
        return None;
    }
    Some(close_beside_a_look_up(
        rt,
        &arena,
        &signals,
        &mut first,
        &mut second,
        &mut steward,
        own.span,
        &key,
    ))
}

#[test]
fn closes_under_all_locks(rt: HostRuntime) -> Result<(), Fail> {
    // Once more where memory was refused.
    let closes = match closes_at_once(&rt, rt.alloc()) {
        Some(closes) => Some(closes),
        None => closes_at_once(&rt, rt.alloc()),
    };
    assert_eq!(rt; closes, Some(true));
    Ok(())
}

// Whether the key's shard is busy at each of that many look-ups.
fn stays_busy(
    arena: &Arena<Holding<'_>, Counted>,
    seat: &mut Seat,
    key: &Key,
    looks: usize,
) -> bool {
    for _ in 0..looks {
        if !seat.fits(arena) || seat.try_get(arena, key, &mut [0u128]).is_ok() {
            return false;
        }
        spin_loop();
    }
    true
}

// Waits for the key's shard to be busy, once a thread is held in another, and says whether it then
// stays so.
fn watch(
    arena: &Arena<Holding<'_>, Counted>,
    signals: &Signals,
    seat: &mut Seat,
    key: &Key,
) -> bool {
    let came = is_set_in_time(&signals.came, TURNS);
    signals.begun.store(1, SeqCst);
    let mut is_busy = false;
    for _ in 0..TURNS / 10 {
        if stays_busy(arena, seat, key, 1) {
            is_busy = true;
            break;
        }
        spin_loop();
    }
    let stays = is_busy && stays_busy(arena, seat, key, 1000);
    signals.answered.store(1, SeqCst);
    came && stays
}

// Counts once a thread is held, and watches the first shard meanwhile.
fn count_and_watch<R: Threads + Wait + Sync>(
    rt: &R,
    arena: &Arena<Holding<'_>, Counted>,
    signals: &Signals,
    seat: &mut Seat,
    key: &Key,
) -> (Totals, bool) {
    thread::join(
        rt,
        || totals_beside(rt, arena, signals),
        || watch(arena, signals, seat, key),
    )
}

fn totals_beside<R: Wait>(
    rt: &R,
    arena: &Arena<Holding<'_>, Counted>,
    signals: &Signals,
) -> Totals {
    is_set_in_time(&signals.came, TURNS);
    arena.totals(rt)
}

// What is counted while a thread looks a key up in the last shard and is held there, whether it
// found that, and whether the first shard is busy as long as it is held.
fn counts_at_once<R: Threads + Wait + Sync>(rt: &R, alloc: Global) -> Option<(bool, Totals, bool)> {
    let signals = Signals::new();
    let gate = Holding {
        signals: &signals,
        shard: 2,
        turns: TURNS,
    };
    let Three {
        arena,
        mut first,
        mut third,
        ..
    } = make_three(alloc, gate)?;
    let key = put(rt, &arena, &mut first)?;
    let last = put(rt, &arena, &mut third)?;
    signals.armed.store(1, SeqCst);
    let (found, (totals, stays)) = thread::join(
        rt,
        || get(rt, &arena, &mut third, &last),
        || count_and_watch(rt, &arena, &signals, &mut first, &key),
    );
    Some((found, totals, stays && signals.missed.load(SeqCst) == 0))
}

#[test]
fn counts_under_all_locks(rt: HostRuntime) -> Result<(), Fail> {
    // Once more where memory was refused.
    let counted = match counts_at_once(&rt, rt.alloc()) {
        Some(counted) => Some(counted),
        None => counts_at_once(&rt, rt.alloc()),
    };
    let totals = Totals { pages: 2, live: 2 };
    assert_eq!(rt; counted, Some((true, totals, true)));
    Ok(())
}
