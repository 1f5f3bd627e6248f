//! Calls at sizes far beyond those of the other tests, with ample memory: no size alone is a reason
//! for a call to be refused.
use arena_core::{Core, Event, Reply};
use fold::{Step, fold_one};
use pool::Pool;
use shard::{Freed, Replaced, Shard};
use span::names::{Class, Key, MOST_RING_KEYS, MOST_SPANS, Object, SpanId};
use span::spans::{Counted, Kept, Log};
use std::alloc::Global;

// How many pages a shard gets.
const PAGES: u32 = 2_000;

// How often a key is set.
const SETS: u32 = 2_100_000;

// How many groups are folded onto one, one after another.
const FOLDS: u8 = 60;

fn shard<L: Log>(alloc: Global, number: u32) -> Option<Shard<L>> {
    Shard::with_log(alloc, number, PAGES as usize, MOST_SPANS, 9).ok()
}

// Fills that many pages with objects of sixteen words, of which a page has as many.
fn fill<L: Log>(shard: &mut Shard<L>, pages: u32) -> Option<()> {
    for number in 0..pages.saturating_mul(16) {
        let object = Object::of(Class::C256, &[u128::from(number); 16]);
        shard.put(object).ok()?;
    }
    Some(())
}

// How many of the pool's groups the shard adopts, one after another.
fn adopt_all<L: Log>(pool: &mut Pool<L>, shard: &mut Shard<L>) -> u32 {
    let mut count = 0u32;
    for _ in 0..2 * PAGES {
        if pool.adopt(shard).is_err() {
            return count;
        }
        count = count.saturating_add(1);
    }
    count
}

// How many pages and live keys a shard has whose pages are full; how many groups it retires, and
// how many the pool then lists; how many another shard adopts, and how many that lists.
type Moved = ([usize; 2], Option<usize>, usize, u32, usize);

fn moved(alloc: Global) -> Option<Moved> {
    let mut first = shard::<Counted>(alloc, 0)?;
    let mut second = shard::<Counted>(alloc, 1)?;
    let mut pool = Pool::with_log(alloc);
    fill(&mut first, PAGES)?;
    let filled = [first.pages(), first.live()];
    let retired = pool.retire(&mut first, 1_500).ok();
    pool.receive(&mut first).ok()?;
    let listed = pool.groups().ok()?.len();
    let adopted = adopt_all(&mut pool, &mut second);
    let owned = second.groups().ok()?.len();
    Some((filled, retired, listed, adopted, owned))
}

#[test]
fn moves_two_thousand_pages(rt: HostRuntime) {
    assert_eq!(rt;
        moved(rt.alloc()),
        Some(([2_000, 32_000], Some(1_500), 2_000, 2_000, 2_000))
    );
}

// Sets the key that often, and says whether each set was done after as many changes as were made
// before.
fn set_often<L: Log>(shard: &mut Shard<L>, key: &Key) -> bool {
    for number in 0..SETS {
        let before = number as usize + 1;
        if shard.set(key, &[u128::from(number)]) != Ok(Replaced::Yes(before)) {
            return false;
        }
    }
    true
}

// Whether a key is set often in a shard, once more in the pool, and once more where it is adopted,
// where its span takes another put, and is freed.
fn is_set_wherever_it_is<L: Log>(alloc: Global) -> Option<bool> {
    let mut first = shard::<L>(alloc, 0)?;
    let mut second = shard::<L>(alloc, 1)?;
    let mut pool = Pool::with_log(alloc);
    let (key, _) = first.put(Object::c16(7)).ok()?;
    let often = set_often(&mut first, &key);
    pool.receive(&mut first).ok()?;
    let pooled = pool.set(&key, &[8]).ok();
    pool.adopt(&mut second).ok()?;
    let adopted = second.set(&key, &[9]).ok();
    let (next, at) = second.put(Object::c16(5)).ok()?;
    let freed = second.free(&key);
    let changes = SETS as usize + 1;
    Some(
        often
            && pooled == Some(Replaced::Yes(changes))
            && adopted == Some(Replaced::Yes(changes + 1))
            && (next.span, at) == (key.span, changes + 2)
            && freed == Freed::Yes(changes + 3),
    )
}

#[test]
fn sets_a_key_two_million_times(rt: HostRuntime) {
    assert_eq!(rt; is_set_wherever_it_is::<Kept>(rt.alloc()), Some(true));
}

// A new group of the shard, in which the slot alone is live.
fn open_at<L: Log>(shard: &mut Shard<L>, slot: u8) -> Option<Key> {
    for _ in 0..slot {
        shard.put(Object::c16(0)).ok()?;
    }
    let (kept, _) = shard.put(Object::c16(u128::from(slot))).ok()?;
    for lower in 0..slot {
        shard.free(&Key::new(kept.span, lower, 1)?);
    }
    if kept.slot == slot { Some(kept) } else { None }
}

// Folds as many groups onto that of the head, each with a slot of its own. They come from a shard
// that retires each.
fn fold_all<L: Log>(
    pool: &mut Pool<L>,
    from: &mut Shard<L>,
    onto: &mut Shard<L>,
    head: SpanId,
) -> Option<()> {
    for slot in 0..FOLDS {
        let kept = open_at(from, slot)?;
        pool.retire(from, 1).ok()?;
        if fold_one(pool, onto, kept.span, head) != Ok(Step::Folded) {
            return None;
        }
    }
    Some(())
}

// How many of the keys that were folded the shard sets.
fn set_guests<L: Log>(shard: &mut Shard<L>) -> Option<u8> {
    let mut count = 0u8;
    for slot in 0..FOLDS {
        let key = Key::new(SpanId::new(0, u32::from(slot))?, slot, 1)?;
        if matches!(shard.set(&key, &[9]), Ok(Replaced::Yes(_))) {
            count = count.saturating_add(1);
        }
    }
    Some(count)
}

// A group onto which many were folded gets another page, goes to the pool and to another shard and
// back, and is folded onto a third shard's. It gives how many guests were set in both, and the last
// step.
fn folded<L: Log>(alloc: Global) -> Option<([u8; 2], Step, usize)> {
    let mut from = shard::<L>(alloc, 0)?;
    let mut onto = shard::<L>(alloc, 1)?;
    let mut third = shard::<L>(alloc, 2)?;
    let mut pool = Pool::with_log(alloc);
    let own = open_at(&mut onto, FOLDS)?;
    fold_all(&mut pool, &mut from, &mut onto, own.span)?;
    onto.renew(0).ok()?;
    let first = set_guests(&mut onto)?;
    pool.receive(&mut onto).ok()?;
    pool.adopt(&mut from).ok()?;
    pool.retire(&mut from, 1).ok()?;
    let last = open_at(&mut third, FOLDS + 1)?;
    let step = fold_one(&mut pool, &mut third, own.span, last.span).ok()?;
    let second = set_guests(&mut third)?;
    Some(([first, second], step, third.live()))
}

#[test]
fn folds_onto_a_group_of_sixty_spans(rt: HostRuntime) {
    let wanted = Some(([FOLDS; 2], Step::Folded, 62));
    assert_eq!(rt;
        [folded::<Kept>(rt.alloc()), folded::<Counted>(rt.alloc())],
        [wanted, wanted]
    );
}

// How many keys the rings take from these workers to these shards, and how many are settled.
fn left_and_settled(alloc: Global, rings: &[(u32, u32)]) -> Option<(usize, usize)> {
    let mut core = Core::<Counted>::with_log(alloc, 64, 4, MOST_RING_KEYS, 9).ok()?;
    let mut left = 0usize;
    let mut settled = 0usize;
    for (worker, shard) in rings {
        let key = Key::new(SpanId::new(*shard, 0)?, 0, 1)?;
        for _ in 0..MOST_RING_KEYS {
            let reply = core.step(Event::Later {
                worker: *worker,
                key,
            });
            left = left.saturating_add(usize::from(matches!(reply, Reply::Sent)));
        }
    }
    for (worker, shard) in rings {
        for _ in 0..MOST_RING_KEYS {
            let reply = core.step(Event::Settle {
                worker: *worker,
                shard: *shard,
            });
            settled = settled.saturating_add(usize::from(matches!(reply, Reply::Settled(Some(_)))));
        }
    }
    Some((left, settled))
}

#[test]
fn fills_rings_of_the_first_and_last_of_64_shards(rt: HostRuntime) {
    let rings = [(63, 63), (0, 0), (63, 0), (0, 63), (31, 17)];
    assert_eq!(rt; left_and_settled(rt.alloc(), &rings), Some((5_120, 5_120)));
}
