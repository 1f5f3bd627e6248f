// Shards whose puts take few slots of a page.
use super::{Put, free, get, id, key, put, put_object, sizes};
use crate::objects::{Sought, object};
use fold::{Step, fold_one};
use pool::Pool;
use shard::{PutError, Shard};
use span::names::{CLASSES, Class, Key, MOST_SPANS, SpanId};
use std::alloc::Global;

// A shard of this number and of up to two pages, whose puts take that many slots of each.
fn shard_of_slots(alloc: Global, number: u32, slot_limit: u16) -> Option<Shard> {
    Shard::with_slots(alloc, number, 2, MOST_SPANS, slot_limit, 9).ok()
}

#[test]
fn takes_a_slot_at_least_and_a_page_at_most(rt: HostRuntime) {
    let made = [
        shard_of_slots(rt.alloc(), 3, 0).is_some(),
        shard_of_slots(rt.alloc(), 3, 1).is_some(),
        shard_of_slots(rt.alloc(), 3, 256).is_some(),
        shard_of_slots(rt.alloc(), 3, 257).is_some(),
        shard_of_slots(rt.alloc(), 3, u16::MAX).is_some(),
    ];
    assert_eq!(rt; made, [false, true, true, false, false]);
}

// Puts objects of the class until one is refused, at most 600. It gives how many it put, the
// highest slot, and the refusal.
fn fill(shard: &mut Shard, class: Class) -> (usize, u8, Option<PutError>) {
    let mut count = 0usize;
    let mut highest = 0u8;
    for _ in 0..600 {
        match put_object(shard, object(class, 7)) {
            Ok((key, _)) => {
                count = count.saturating_add(1);
                highest = highest.max(key.slot);
            }
            Err(refused) => return (count, highest, Some(refused)),
        }
    }
    (count, highest, None)
}

// The same of a shard whose puts take that many slots, and of it once more when one key of its
// first span was freed, and its pages and live keys then.
type Filled = ([(usize, u8, Option<PutError>); 2], (usize, usize));

fn filled(alloc: Global, class: Class, slot_limit: u16) -> Option<Filled> {
    let mut shard = shard_of_slots(alloc, 3, slot_limit)?;
    let first = fill(&mut shard, class);
    free(&mut shard, &Key::new(SpanId::new(3, 0)?, 0, 1)?);
    let again = fill(&mut shard, class);
    Some(([first, again], sizes(&shard)))
}

// What two pages of a class take, if puts take that many slots of each.
fn wanted(class: Class, slot_limit: u16) -> Filled {
    let slots = class.slots().min(slot_limit);
    let both = usize::from(slots).saturating_mul(2);
    let spent = Some(PutError::PagesSpent);
    let fills = [(both, slots.saturating_sub(1) as u8, spent), (1, 0, spent)];
    (fills, (2, both))
}

#[test]
fn fills_as_many_slots_as_it_may(rt: HostRuntime) {
    for slot_limit in [1u16, 16, 64, 100, 128, 255, 256] {
        for words in 1..=CLASSES {
            let class = Class::of_words(words);
            assert_eq!(rt;
                class.and_then(|class| filled(rt.alloc(), class, slot_limit)),
                class.map(|class| wanted(class, slot_limit))
            );
        }
    }
}

// Gives the pool the groups of the shard, and asks again if memory was refused.
fn abandon(pool: &mut Pool, shard: &mut Shard) -> Option<()> {
    if pool.receive(shard).is_err() {
        pool.receive(shard).ok()?;
    }
    Some(())
}

// Has the shard adopt a group, and asks again if memory was refused.
fn adopt(pool: &mut Pool, shard: &mut Shard) -> Option<SpanId> {
    match pool.adopt(shard) {
        Ok(head) => Some(head),
        Err(_) => pool.adopt(shard).ok(),
    }
}

// A shard that puts into one slot of a page adopts a group with live slots above that, of which
// the lowest slot is free. What three puts are told, and what a key above finds then.
fn puts_below_live_slots(alloc: Global) -> Option<([Put; 3], Sought)> {
    let mut pool = Pool::new(alloc);
    let mut ended = shard_of_slots(alloc, 0, 256)?;
    let lowest = put(&mut ended, 5).ok()?.0;
    put(&mut ended, 6).ok()?;
    let above = put(&mut ended, 7).ok()?.0;
    free(&mut ended, &lowest);
    abandon(&mut pool, &mut ended)?;
    let mut shard = shard_of_slots(alloc, 1, 1)?;
    adopt(&mut pool, &mut shard)?;
    let puts = [put(&mut shard, 8), put(&mut shard, 9), put(&mut shard, 10)];
    Some((puts, get(&shard, &above)))
}

#[test]
fn puts_below_live_slots_of_an_adopted_group(rt: HostRuntime) {
    let puts: [Put; 3] = [
        Ok((key(id(0, 0), 0, 2), 4)),
        Ok((key(id(1, 0), 0, 1), 0)),
        Err(PutError::PagesSpent),
    ];
    let above = Sought::Value(object(Class::C16, 7), 5);
    assert_eq!(rt; puts_below_live_slots(rt.alloc()), Some((puts, above)));
}

// Folds a page of a shard of the first limit onto one of a shard of the second, which has one live
// slot as well, and puts into it then. It gives the step, the key of that put, and what three keys
// find.
type Folded = (Step, Put, [Sought; 3]);

fn folded(alloc: Global, limits: [u16; 2]) -> Option<Folded> {
    let [from, onto] = limits;
    let mut pool = Pool::new(alloc);
    let mut ended = shard_of_slots(alloc, 0, from)?;
    let goes = put(&mut ended, 5).ok()?.0;
    abandon(&mut pool, &mut ended)?;
    let mut shard = shard_of_slots(alloc, 1, onto)?;
    let first = put(&mut shard, 6).ok()?.0;
    let stays = put(&mut shard, 7).ok()?.0;
    free(&mut shard, &first);
    let step = match fold_one(&mut pool, &mut shard, goes.span, stays.span) {
        Ok(step) => step,
        Err(_) => fold_one(&mut pool, &mut shard, goes.span, stays.span).ok()?,
    };
    let next = put(&mut shard, 8);
    let found = [
        get(&shard, &goes),
        get(&shard, &stays),
        get(&shard, &next.ok()?.0),
    ];
    Some((step, next, found))
}

#[test]
fn folds_pages_of_shards_of_other_limits(rt: HostRuntime) {
    for limits in [[1u16, 256u16], [256, 100], [16, 16]] {
        assert_eq!(rt;
            folded(rt.alloc(), limits),
            Some((
                Step::Folded,
                Ok((key(id(1, 0), 2, 1), 3)),
                [
                    Sought::Value(object(Class::C16, 5), 1),
                    Sought::Value(object(Class::C16, 7), 4),
                    Sought::Value(object(Class::C16, 8), 4),
                ],
            ))
        );
    }
}
