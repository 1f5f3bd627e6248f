//! Pages of zeros, which have no words in memory until an object comes that is not zeros.
use crate::objects::{Sought, object, zeros};
use fold::{Step, fold_one};
use pool::Pool;
use shard::{PutError, Replaced, Shard};
use span::names::{Class, Key, Object};
use std::alloc::Global;

// Puts the object, and asks again where memory was refused.
fn put(shard: &mut Shard, value: Object) -> Option<Key> {
    let made = match shard.put(value) {
        Err(PutError::OutOfMemory) => shard.put(value),
        made => made,
    };
    Some(made.ok()?.0)
}

// Puts both, and frees the first or the second, whose words stay on the page.
fn keep_one(shard: &mut Shard, objects: [Object; 2], kept: usize) -> Option<Key> {
    let [first, second] = objects;
    let keys = [put(shard, first)?, put(shard, second)?];
    let (kept, freed) = if kept == 0 {
        (keys[0], keys[1])
    } else {
        (keys[1], keys[0])
    };
    shard.free(&freed);
    Some(kept)
}

// What is found after a fold of a group with an object at slot 0 onto one with an object at slot 1.
// Each had an object at the other slot before.
fn folded(alloc: Global, from: [Object; 2], onto: [Object; 2]) -> Option<[Sought; 2]> {
    let mut ended = Shard::new(alloc, 0, 4, 2).ok()?;
    let mut shard = Shard::new(alloc, 1, 4, 2).ok()?;
    let mut pool = Pool::new(alloc);
    let came = keep_one(&mut ended, from, 0)?;
    let stood = keep_one(&mut shard, onto, 1)?;
    pool.receive(&mut ended).ok()?;
    if fold_one(&mut pool, &mut shard, came.span, stood.span) != Ok(Step::Folded) {
        return None;
    }
    Some([Sought::of(shard.get(&came)), Sought::of(shard.get(&stood))])
}

fn either(class: Class, is_zeros: bool, word: u128) -> Object {
    if is_zeros {
        zeros(class)
    } else {
        object(class, word)
    }
}

// Each of the four objects is zeros or not: so both pages have words or none, and words that are
// left from freed objects must not come to light.
fn folds_all(alloc: Global, class: Class) -> bool {
    for case in 0..16u8 {
        let from = [
            either(class, case & 1 != 0, 16),
            either(class, case & 2 != 0, 32),
        ];
        let onto = [
            either(class, case & 4 != 0, 48),
            either(class, case & 8 != 0, 64),
        ];
        let [came, _] = from;
        let [_, stood] = onto;
        let expected = [Sought::Value(came, 3), Sought::Value(stood, 3)];
        if folded(alloc, from, onto) != Some(expected) {
            return false;
        }
    }
    true
}

#[test]
fn folds_pages_of_zeros(rt: HostRuntime) {
    for class in [Class::C16, Class::C48, Class::C256] {
        assert!(rt; folds_all(rt.alloc(), class), "{class:?}");
    }
}

// Zeros at two slots, of which the first is set to an object, in the shard or in the pool, and then
// back to zeros.
fn set_on_zeros(alloc: Global, class: Class, is_pooled: bool) -> Option<[Sought; 4]> {
    let mut shard = Shard::new(alloc, 0, 4, 2).ok()?;
    let mut pool = Pool::new(alloc);
    let first = put(&mut shard, zeros(class))?;
    let second = put(&mut shard, zeros(class))?;
    if is_pooled {
        pool.receive(&mut shard).ok()?;
    }
    let mut seen = [Sought::NotHere; 4];
    for (round, value) in [object(class, 16), zeros(class)].iter().enumerate() {
        let done = if is_pooled {
            pool.set(&first, value.words()).ok()?
        } else {
            shard.set(&first, value.words()).ok()?
        };
        if !matches!(done, Replaced::Yes(_)) {
            return None;
        }
        for (place, key) in [first, second].iter().enumerate() {
            let found = if is_pooled {
                Sought::of(pool.get(key))
            } else {
                Sought::of(shard.get(key))
            };
            seen[(round * 2 + place) % 4] = found;
        }
    }
    Some(seen)
}

#[test]
fn sets_zeros_to_an_object_and_back(rt: HostRuntime) {
    for class in [Class::C16, Class::C48, Class::C256] {
        for is_pooled in [false, true] {
            assert_eq!(rt;
                set_on_zeros(rt.alloc(), class, is_pooled),
                Some([
                    Sought::Value(object(class, 16), 3),
                    Sought::Value(zeros(class), 3),
                    Sought::Value(zeros(class), 4),
                    Sought::Value(zeros(class), 4),
                ])
            );
        }
    }
}
