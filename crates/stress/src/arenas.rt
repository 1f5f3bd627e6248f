//! What no clause says: that calls succeed, what they leave behind the locks, that two threads are
//! in their shards at the same time, and that a call that was refused memory may be made again.
//!
//! What is called stands in helpers that promise nothing, and the answers are compared at once: a
//! test carries no clauses then, and has one exit.
ghost use Rattle.std.specs.Prelude.{◌≡◌, length};
ghost use Rattle.arena.specs.Seats.{AreSeatsOf};

use crate::held::{TURNS, is_set_in_time};
use arena::{Arena, Gate, NoGate, OpenError, Seat, Stepped, Steward, finish};
use fold::Step;
use marks::{MarkError, Totals};
use mesh_graph::AtHand;
use pool::{AdoptError, ReceiveError};
use shard::PutError;
use span::names::{Key, Object, SpanId};
use span::receipts::{CallView, ReceiptList};
use span::spans::{Counted, Kept, Log};
use std::alloc::Global;
use std::sync::Wait;
use std::sync::atomic::AtomicU64;
use std::sync::atomic::Ordering::SeqCst;
use std::test::Fail;
use std::thread;
use std::thread::Threads;

// An arena of two shards of at most 4 pages each, with its seats and its steward.
#[derive(Drop)]
struct Two<G: Gate, L: Log> {
    arena: Arena<G, L>,
    first: Seat,
    second: Seat,
    steward: Steward,
    ghost first_fits: { first.limits ≡ arena.limits },
    ghost second_fits: { second.limits ≡ arena.limits },
    ghost steward_fits: { steward.limits ≡ arena.limits },
}

fn make_two<G: Gate, L: Log>(alloc: Global, gate: G) -> Option<Two<G, L>> {
    let Ok((arena, mut seats, steward)) = Arena::open_with_log(alloc, 2, 4, 4, 9, gate) else {
        return None;
    };
    let second = seats.pop()?;
    let first = seats.pop()?;
    Some(Two {
        arena,
        first,
        second,
        steward,
    })
}

// Opened again where memory was refused.
fn make_again<L: Log>(alloc: Global) -> Option<Two<NoGate, L>> {
    match make_two(alloc, NoGate) {
        Some(two) => Some(two),
        None => make_two(alloc, NoGate),
    }
}

// The calls that may be refused memory, made again where they were. No contract speaks of them
// here, so that the tests hold no clauses.

fn put<G: Gate, L: Log, R: Wait>(
    rt: &R,
    arena: &Arena<G, L>,
    seat: &mut Seat,
    word: u128,
) -> Option<Key>
    requires { seat.old.limits ≡ arena.now.limits }
    ensures { seat.new.limits ≡ seat.old.limits }
{
    let object = Object::c16(word);
    let put = match seat.put(rt, arena, object) {
        Err(PutError::OutOfMemory) => seat.put(rt, arena, object),
        put => put,
    };
    match put {
        Ok((key, _)) => Some(key),
        Err(_) => None,
    }
}

fn end<G: Gate, L: Log, R: Wait>(rt: &R, arena: &Arena<G, L>, seat: &mut Seat) -> bool
    requires { seat.old.limits ≡ arena.now.limits }
    ensures { seat.new.limits ≡ seat.old.limits }
{
    seat.end(rt, arena).is_ok() || seat.end(rt, arena).is_ok()
}

fn retire<G: Gate, L: Log, R: Wait>(
    rt: &R,
    arena: &Arena<G, L>,
    seat: &mut Seat,
    most: usize,
) -> Result<usize, ReceiveError>
    requires { seat.old.limits ≡ arena.now.limits }
    ensures { seat.new.limits ≡ seat.old.limits }
{
    match seat.retire(rt, arena, most) {
        Err(ReceiveError::OutOfMemory) => seat.retire(rt, arena, most),
        retired => retired,
    }
}

fn adopt<G: Gate, L: Log, R: Wait>(
    rt: &R,
    arena: &Arena<G, L>,
    seat: &mut Seat,
) -> Result<SpanId, AdoptError>
    requires { seat.old.limits ≡ arena.now.limits }
    ensures { seat.new.limits ≡ seat.old.limits }
{
    match seat.adopt(rt, arena) {
        Err(AdoptError::OutOfMemory) => seat.adopt(rt, arena),
        adopted => adopted,
    }
}

// How many folds are planned.
fn mark<G: Gate, L: Log, R: Wait>(
    rt: &R,
    arena: &Arena<G, L>,
    steward: &mut Steward,
) -> Result<usize, MarkError>
    requires { steward.old.limits ≡ arena.now.limits }
    ensures { steward.new.limits ≡ steward.old.limits }
{
    let marked = match arena.mark(rt, &AtHand, steward) {
        Err(MarkError::OutOfMemory) => arena.mark(rt, &AtHand, steward),
        marked => marked,
    };
    match marked {
        Ok(found) => Ok(found.plan.pairs().len()),
        Err(error) => Err(error),
    }
}

fn step<G: Gate, L: Log, R: Wait>(
    rt: &R,
    arena: &Arena<G, L>,
    steward: &mut Steward,
) -> Option<Stepped>
    requires { steward.old.limits ≡ arena.now.limits }
    ensures { steward.new.limits ≡ steward.old.limits }
{
    match arena.step(rt, steward) {
        Ok(stepped) => Some(stepped),
        Err(_) => arena.step(rt, steward).ok(),
    }
}

// What the look-up of a key answers, and how many changes stood in its span's log.
fn get<G: Gate, L: Log, R: Wait>(
    rt: &R,
    arena: &Arena<G, L>,
    seat: &mut Seat,
    key: &Key,
) -> (Option<Object>, usize)
    requires { seat.old.limits ≡ arena.now.limits }
    ensures { seat.new.limits ≡ seat.old.limits }
{
    let (value, receipt) = seat.get(rt, arena, key);
    (value, receipt.at)
}

fn free<G: Gate, L: Log, R: Wait>(
    rt: &R,
    arena: &Arena<G, L>,
    seat: &mut Seat,
    key: &Key,
) -> (bool, usize)
    requires { seat.old.limits ≡ arena.now.limits }
    ensures { seat.new.limits ≡ seat.old.limits }
{
    let (done, receipt) = seat.free(rt, arena, key);
    (done, receipt.at)
}

// The group of the first shard, which has ended, is folded onto that of the second.
fn is_folded<G: Gate, L: Log, R: Wait>(
    rt: &R,
    arena: &Arena<G, L>,
    first: &mut Seat,
    second: &mut Seat,
    steward: &mut Steward,
) -> Option<bool>
    requires first { first.old.limits ≡ arena.now.limits }
    requires second { second.old.limits ≡ arena.now.limits }
    requires steward { steward.old.limits ≡ arena.now.limits }
{
    let gone = put(rt, arena, first, 10)?;
    let kept = put(rt, arena, first, 11)?;
    let freed = free(rt, arena, first, &gone);
    let ended = end(rt, arena, first);
    let own = put(rt, arena, second, 7)?;
    let planned = mark(rt, arena, steward);
    let again = mark(rt, arena, steward);
    let adopted = adopt(rt, arena, second);
    let stepped = step(rt, arena, steward);
    let last = step(rt, arena, steward);
    let closed = arena.close(rt, steward);
    let none = step(rt, arena, steward);
    let more = put(rt, arena, second, 8)?;
    let found = get(rt, arena, second, &kept);
    let totals = arena.totals(rt);
    let anew = mark(rt, arena, steward);
    Some(
        freed == (true, 2)
            && ended
            && planned == Ok(1)
            && again == Err(MarkError::PlanOpen)
            && adopted == Err(AdoptError::PlanOpen)
            && stepped == Some(Stepped::Taken(kept.span, own.span, Step::Folded))
            && last == Some(Stepped::NoPairLeft)
            && closed
            && none == Some(Stepped::NoPlan)
            && more.span == own.span
            && found == (Some(Object::c16(11)), 3)
            && totals == (Totals { pages: 1, live: 3 })
            && anew == Ok(0),
    )
}

#[test]
fn folds_beside_locks(rt: HostRuntime) -> Result<(), Fail> {
    let Some(two) = make_again::<Kept>(rt.alloc()) else {
        return Err("no arena".into());
    };
    let Two {
        arena,
        mut first,
        mut second,
        mut steward,
    } = two;
    let folded = is_folded(&rt, &arena, &mut first, &mut second, &mut steward);
    assert_eq!(rt; folded, Some(true));
    Ok(())
}

// The one group of a running shard is retired, and is folded onto the next that the shard opens: a
// page goes, and each key is found where it then is.
fn is_retired<G: Gate, L: Log, R: Wait>(
    rt: &R,
    arena: &Arena<G, L>,
    first: &mut Seat,
    second: &mut Seat,
    steward: &mut Steward,
) -> Option<bool>
    requires first { first.old.limits ≡ arena.now.limits }
    requires second { second.old.limits ≡ arena.now.limits }
    requires steward { steward.old.limits ≡ arena.now.limits }
{
    let gone = put(rt, arena, first, 10)?;
    let kept = put(rt, arena, first, 11)?;
    let freed = free(rt, arena, first, &gone);
    let retired = retire(rt, arena, first, 4);
    let pooled = get(rt, arena, second, &kept);
    let own = put(rt, arena, first, 7)?;
    let before = arena.totals(rt);
    let planned = mark(rt, arena, steward);
    let refused = retire(rt, arena, first, 4);
    let stepped = step(rt, arena, steward);
    let closed = arena.close(rt, steward);
    let after = arena.totals(rt);
    let home = get(rt, arena, second, &kept);
    let few = retire(rt, arena, first, 0);
    let ended = end(rt, arena, first);
    let late = retire(rt, arena, first, 4);
    Some(
        freed == (true, 2)
            && retired == Ok(1)
            && pooled == (Some(Object::c16(11)), 3)
            && before == (Totals { pages: 2, live: 2 })
            && planned == Ok(1)
            && refused == Err(ReceiveError::PlanOpen)
            && stepped == Some(Stepped::Taken(kept.span, own.span, Step::Folded))
            && closed
            && after == (Totals { pages: 1, live: 2 })
            && home == (Some(Object::c16(11)), 3)
            && few == Ok(0)
            && ended
            && late == Err(ReceiveError::Ended),
    )
}

#[test]
fn retires_and_folds(rt: HostRuntime) -> Result<(), Fail> {
    let Some(two) = make_again::<Kept>(rt.alloc()) else {
        return Err("no arena".into());
    };
    let Two {
        arena,
        mut first,
        mut second,
        mut steward,
    } = two;
    let retired = is_retired(&rt, &arena, &mut first, &mut second, &mut steward);
    assert_eq!(rt; retired, Some(true));
    Ok(())
}

// A key that no put has given out: of a span that the second shard has not opened.
fn stranger() -> Option<Key> {
    let id = SpanId::new(1, 1023)?;
    Key::new(id, 0, 1)
}

// A key is found where its span is: nowhere, in its shard, in the pool, and in the shard that
// adopts it.
fn is_followed<G: Gate, L: Log, R: Wait>(
    rt: &R,
    arena: &Arena<G, L>,
    first: &mut Seat,
    second: &mut Seat,
) -> Option<bool>
    requires first { first.old.limits ≡ arena.now.limits }
    requires second { second.old.limits ≡ arena.now.limits }
{
    let stranger = stranger()?;
    let none = get(rt, arena, first, &stranger);
    let missed = free(rt, arena, first, &stranger);
    let key = put(rt, arena, first, 5)?;
    let other = put(rt, arena, first, 6)?;
    let shared = get(rt, arena, second, &key);
    let ended = end(rt, arena, first);
    let again = first.end(rt, arena).is_err();
    let refused = put(rt, arena, first, 6);
    let pooled = get(rt, arena, second, &key);
    let freed = free(rt, arena, second, &other);
    let head = adopt(rt, arena, second);
    let adopted = get(rt, arena, first, &key);
    let empty = adopt(rt, arena, second);
    let last = free(rt, arena, first, &key);
    let totals = arena.totals(rt);
    Some(
        none == (None, 0)
            && missed == (false, 0)
            && shared == (Some(Object::c16(5)), 2)
            && ended
            && again
            && refused.is_none()
            && pooled == (Some(Object::c16(5)), 2)
            && freed == (true, 2)
            && head == Ok(key.span)
            && adopted == (Some(Object::c16(5)), 3)
            && empty == Err(AdoptError::NothingToAdopt)
            && last == (true, 3)
            && totals == (Totals { pages: 1, live: 0 }),
    )
}

#[test]
fn follows_a_span(rt: HostRuntime) -> Result<(), Fail> {
    let Some(two) = make_again::<Counted>(rt.alloc()) else {
        return Err("no arena".into());
    };
    let Two {
        arena,
        mut first,
        mut second,
        ..
    } = two;
    let followed = is_followed(&rt, &arena, &mut first, &mut second);
    assert_eq!(rt; followed, Some(true));
    Ok(())
}

// Leaves the key to the thread of its shard, and says whether the ring took it.
fn later(seat: &mut Seat, key: Key) -> bool
    ensures { seat.new.limits ≡ seat.old.limits }
{
    seat.has_shard_of(&key) && seat.free_later(key).is_ok()
}

// Leaves the key, as `later`, and hands it over.
fn hand_over(seat: &mut Seat, key: Key) -> bool
    ensures { seat.new.limits ≡ seat.old.limits }
{
    let sent = later(seat, key);
    seat.hand_over();
    sent
}

// How many keys were taken from the rings of the seat's shard.
fn tend<G: Gate, L: Log, R: Wait>(
    rt: &R,
    arena: &Arena<G, L>,
    seat: &mut Seat,
    receipts: &mut ReceiptList,
) -> Option<usize>
    requires { seat.old.limits ≡ arena.now.limits }
    ensures { seat.new.limits ≡ seat.old.limits }
{
    match seat.tend(rt, arena, receipts) {
        Ok(count) => Some(count),
        Err(_) => seat.tend(rt, arena, receipts).ok(),
    }
}

// How many of the receipts are those of frees by the worker that were done.
fn done_by(receipts: &ReceiptList, worker: u32) -> usize {
    let mut done = 0usize;
    for place in 0..receipts.len() {
        let receipt = receipts.view(place);
        if receipt.worker == worker && matches!(receipt.call, CallView::Freed) {
            done = done.saturating_add(1);
        }
    }
    done
}

// A ring for four keys takes four and hands the fifth back. What is sent is live until the shard's
// thread tends its rings; a key that was sent three times is freed once.
fn is_freed_once<G: Gate, L: Log, R: Wait>(
    rt: &R,
    arena: &Arena<G, L>,
    first: &mut Seat,
    second: &mut Seat,
    receipts: &mut ReceiptList,
) -> Option<bool>
    requires first { first.old.limits ≡ arena.now.limits }
    requires second { second.old.limits ≡ arena.now.limits }
    ensures first { first.new.limits ≡ first.old.limits }
    ensures second { second.new.limits ≡ second.old.limits }
{
    let key = put(rt, arena, first, 5)?;
    let other = put(rt, arena, first, 6)?;
    let own = later(first, key);
    let sent = later(second, key) && later(second, other) && later(second, key);
    let last = later(second, other);
    let full = later(second, other);
    let live = get(rt, arena, first, &key);
    let none = tend(rt, arena, second, receipts);
    let taken = tend(rt, arena, first, receipts);
    let gone = get(rt, arena, first, &key);
    let again = tend(rt, arena, first, receipts);
    Some(
        own && sent
            && last
            && !full
            && live == (Some(Object::c16(5)), 2)
            && none == Some(0)
            && taken == Some(5)
            && gone == (None, 4)
            && again == Some(0)
            && done_by(receipts, 0) == 2,
    )
}

// A key goes to the shard that opened its span, and is freed where the span then is: in the pool,
// or in the shard that adopted it.
fn is_freed_where_it_is<G: Gate, L: Log, R: Wait>(
    rt: &R,
    arena: &Arena<G, L>,
    first: &mut Seat,
    second: &mut Seat,
    receipts: &mut ReceiptList,
) -> Option<bool>
    requires first { first.old.limits ≡ arena.now.limits }
    requires second { second.old.limits ≡ arena.now.limits }
{
    let pooled = put(rt, arena, first, 7)?;
    let adopted = put(rt, arena, first, 8)?;
    let ended = end(rt, arena, first);
    let sent = hand_over(second, pooled);
    let in_pool = tend(rt, arena, first, receipts);
    let head = adopt(rt, arena, second);
    let sent_again = hand_over(second, adopted);
    let not_there = tend(rt, arena, second, receipts);
    let in_shard = tend(rt, arena, first, receipts);
    let gone = get(rt, arena, second, &adopted);
    Some(
        ended
            && sent
            && in_pool == Some(1)
            && head == Ok(pooled.span)
            && sent_again
            && not_there == Some(0)
            && in_shard == Some(1)
            && gone.0.is_none()
            && done_by(receipts, 0) == 4,
    )
}

#[test]
fn frees_later(rt: HostRuntime) -> Result<(), Fail> {
    let Some(two) = make_again::<Kept>(rt.alloc()) else {
        return Err("no arena".into());
    };
    let Two {
        arena,
        mut first,
        mut second,
        ..
    } = two;
    let mut receipts = ReceiptList::new(rt.alloc());
    let once = is_freed_once(&rt, &arena, &mut first, &mut second, &mut receipts);
    let there = is_freed_where_it_is(&rt, &arena, &mut first, &mut second, &mut receipts);
    assert_eq!(rt; (once, there), (Some(true), Some(true)));
    Ok(())
}

// So many look-ups of the key.
fn look_up<G: Gate, L: Log, R: Wait>(
    rt: &R,
    arena: &Arena<G, L>,
    seat: &mut Seat,
    key: &Key,
    times: u32,
)
    requires { seat.old.limits ≡ arena.now.limits }
    ensures { seat.new.limits ≡ seat.old.limits }
{
    for _ in 0..times {
        seat.get(rt, arena, key);
    }
}

// A key that waits for its block to be full is seen after 64 further calls of its seat, and no
// earlier; or once the seat goes on to the next section, ends its shard, or is let go.
fn is_seen_in_time<G: Gate, L: Log, R: Wait>(
    rt: &R,
    arena: &Arena<G, L>,
    first: &mut Seat,
    second: Seat,
    receipts: &mut ReceiptList,
) -> Option<[usize; 5]>
    requires first { first.old.limits ≡ arena.now.limits }
    requires second { second.limits ≡ arena.now.limits }
{
    let mut second = second;
    let key = put(rt, arena, first, 5)?;
    later(&mut second, key);
    look_up(rt, arena, &mut second, &key, 63);
    let early = tend(rt, arena, first, receipts)?;
    look_up(rt, arena, &mut second, &key, 1);
    let in_time = tend(rt, arena, first, receipts)?;
    later(&mut second, key);
    if second.section() == 0 {
        second.next_section();
    }
    let next = tend(rt, arena, first, receipts)?;
    later(&mut second, key);
    end(rt, arena, &mut second);
    let ended = tend(rt, arena, first, receipts)?;
    later(&mut second, key);
    drop(second);
    let dropped = tend(rt, arena, first, receipts)?;
    Some([early, in_time, next, ended, dropped])
}

#[test]
fn sees_a_key_in_time(rt: HostRuntime) -> Result<(), Fail> {
    let Some(two) = make_again::<Counted>(rt.alloc()) else {
        return Err("no arena".into());
    };
    let Two {
        arena,
        mut first,
        second,
        ..
    } = two;
    let mut receipts = ReceiptList::new(rt.alloc());
    let seen = is_seen_in_time(&rt, &arena, &mut first, second, &mut receipts);
    assert_eq!(rt; seen, Some([0, 1, 1, 1, 1]));
    Ok(())
}

// Whether an arena is opened of shards of this number, with as many seats.
fn opens(alloc: Global, shards: u32) -> Result<bool, OpenError> {
    let (arena, seats, steward) = Arena::open(alloc, shards, 4, 4, 9, NoGate)?;
    Ok(arena.limits.shards() == shards && seats.len() == shards as usize && steward.fits(&arena))
}

#[test]
fn opens_within_limits(rt: HostRuntime) -> Result<(), Fail> {
    let opened = (opens(rt.alloc(), 3), opens(rt.alloc(), 65));
    assert_eq!(rt; opened, (Ok(true), Err(OpenError::Config)));
    Ok(())
}

// What two threads tell each other: one that is held inside of shard 0, and one that puts in
// another shard meanwhile.
#[derive(Drop)]
struct Signals {
    // 1 once the thread came to the gate.
    came: AtomicU64,
    // 1 once the other put has answered.
    answered: AtomicU64,
    // 1 where the thread went on without that.
    missed: AtomicU64,
}

// A gate that holds a thread inside of shard 0 until a put in another shard has answered, for at
// most TURNS turns.
#[derive(Drop)]
struct Held<'a> {
    signals: &'a Signals,
}

impl<'a> Gate for Held<'a> {
    fn inside(&self, shard: u32) {
        if shard != 0 {
            return;
        }
        self.signals.came.store(1, SeqCst);
        if !is_set_in_time(&self.signals.answered, TURNS) {
            self.signals.missed.store(1, SeqCst);
        }
    }
}

fn put_once<G: Gate, R: Wait>(rt: &R, arena: &Arena<G>, seat: &mut Seat) -> bool
    requires { seat.old.limits ≡ arena.now.limits }
{
    seat.put(rt, arena, Object::c16(1)).is_ok()
}

// A put that begins once another thread is held in its shard, and whether it answered.
fn put_beside<R: Wait>(rt: &R, arena: &Arena<Held<'_>>, signals: &Signals, seat: &mut Seat) -> bool
    requires { seat.old.limits ≡ arena.now.limits }
{
    let came = is_set_in_time(&signals.came, TURNS);
    let put = put_once(rt, arena, seat);
    signals.answered.store(1, SeqCst);
    came && put
}

// Both put, each in a thread of its own, and whether the first was held until the second's put had
// answered.
fn meet<R: Threads + Wait + Sync>(
    rt: &R,
    arena: &Arena<Held<'_>>,
    signals: &Signals,
    first: &mut Seat,
    second: &mut Seat,
) -> bool
    requires first { first.old.limits ≡ arena.now.limits }
    requires second { second.old.limits ≡ arena.now.limits }
{
    let (held, beside) = thread::join(
        rt,
        || put_once(rt, arena, first),
        || put_beside(rt, arena, signals, second),
    );
    held && beside && signals.missed.load(SeqCst) == 0
}

#[test]
fn puts_beside_a_thread_that_is_held(rt: HostRuntime) -> Result<(), Fail> {
    let signals = Signals {
        came: AtomicU64::new(0),
        answered: AtomicU64::new(0),
        missed: AtomicU64::new(0),
    };
    let gate = Held { signals: &signals };
    let Some(two) = make_two::<Held<'_>, Kept>(rt.alloc(), gate) else {
        return Err("no arena".into());
    };
    let Two {
        arena,
        mut first,
        mut second,
        ..
    } = two;
    let met = meet(&rt, &arena, &signals, &mut first, &mut second);
    assert!(rt; met);
    Ok(())
}

// The first of two seats puts an object, and the second leaves its key to the first one's thread.
// Says whether it came to that.
fn leaves_one<R: Wait>(rt: &R, arena: &Arena<NoGate>, seats: &mut [Seat]) -> bool
    requires two { length seats.old ≡ 2 }
    requires seats { AreSeatsOf arena.now.limits arena.now.table seats.old }
    ensures len { length seats.new ≡ 2 }
    ensures seats { AreSeatsOf arena.now.limits arena.now.table seats.new }
{
    if !seats[0].fits(arena) {
        return false;
    }
    let Ok((key, _)) = seats[0].put(rt, arena, Object::c16(5)) else {
        return false;
    };
    if !seats[1].has_shard_of(&key) {
        return false;
    }
    seats[1].free_later(key).is_ok()
}

// How many keys an arena of two settles from the ring from the second worker to the first shard
// when it ends, how many receipts it adds for that shard's worker, and how many changes its logs
// have.
fn settled_at_the_end<R: Wait>(rt: &R, alloc: Global) -> Option<(usize, usize, usize)> {
    let Ok((arena, mut seats, _)) = Arena::open(alloc, 2, 4, 4, 9, NoGate) else {
        return None;
    };
    if seats.len() != 2 {
        return None;
    }
    if !leaves_one(rt, &arena, seats.as_mut_slice()) {
        return None;
    }
    let mut receipts = vec![in alloc; ReceiptList::new(alloc), ReceiptList::new(alloc)].ok()?;
    let finished = finish(arena, seats, receipts.as_mut_slice()).ok()?;
    let count = *finished.counts.first()?.get(1)?;
    let changes = finished.logs.first()?.log.len();
    Some((count, receipts.first()?.len(), changes))
}

#[test]
fn settles_at_the_end(rt: HostRuntime) -> Result<(), Fail> {
    let settled = settled_at_the_end(&rt, rt.alloc());
    assert_eq!(rt; settled, Some((1, 1, 2)));
    Ok(())
}
