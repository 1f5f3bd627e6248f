// Sets in place, wherever the key is.
use super::{Told, answer, are_answered, found, key, new_core, put, totals_after};
use crate::objects::{object, wide, widest};
use arena_core::{Core, Event};
use fold::Step;
use marks::Totals;
use span::names::{Class, Key, Object};
use std::alloc::Global;

// A set to an object of one word, and whether it is done.
fn set(key: Key, word: u128, done: bool) -> (Event, Told) {
    let value = Object::c16(word);
    (Event::Set { key, value }, Told::Replaced(done))
}

fn look(key: Key, word: u128) -> (Event, Told) {
    (Event::Get { key }, found(word))
}

fn look_gone(key: Key) -> (Event, Told) {
    (Event::Get { key }, Told::Found(None))
}

// A key of a shard that goes on, of the pool, and of a shard that adopted its group; and stale keys
// of each.
fn totals_after_moves(alloc: Global) -> Option<Totals> {
    let (stale, first) = (key(0, 0, 0, 1)?, key(0, 0, 0, 2)?);
    let (never, nowhere) = (key(0, 3, 0, 1)?, key(7, 0, 0, 1)?);
    let head = first.span;
    let table = [
        (put(0, 5), Told::Issued(stale)),
        (Event::Free { key: stale }, Told::Freed(true)),
        (put(0, 6), Told::Issued(first)),
        set(first, 7, true),
        set(stale, 8, false),
        set(never, 8, false),
        set(nowhere, 8, false),
        look(first, 7),
        look_gone(stale),
        (Event::End { shard: 0 }, Told::ShardEnded),
        look(first, 7),
        set(first, 9, true),
        set(stale, 8, false),
        set(never, 8, false),
        look(first, 9),
        (Event::Adopt { shard: 1 }, Told::Adopted(head)),
        look(first, 9),
        set(first, 10, true),
        set(stale, 8, false),
        look(first, 10),
        look_gone(stale),
        (Event::Free { key: first }, Told::Freed(true)),
        set(first, 11, false),
        look_gone(first),
    ];
    totals_after(alloc, 2, 4, table.as_slice())
}

#[test]
fn a_key_is_set_wherever_it_is(rt: HostRuntime) {
    assert_eq!(rt;
        totals_after_moves(rt.alloc()),
        Some(Totals { pages: 1, live: 0 })
    );
}

// A key of each side of a pair, set between the mark and the step; after it, where one of them is a
// guest, in the shard and in the pool.
fn totals_after_a_fold(alloc: Global) -> Option<Totals> {
    let (freed, folded) = (key(0, 0, 0, 1)?, key(0, 0, 1, 1)?);
    let (kept, hole) = (key(1, 0, 0, 1)?, key(1, 0, 1, 1)?);
    let folds = Told::Stepped(folded.span, kept.span, Step::Folded);
    let table = [
        (put(1, 7), Told::Issued(kept)),
        (put(1, 8), Told::Issued(hole)),
        (Event::Free { key: hole }, Told::Freed(true)),
        (put(0, 10), Told::Issued(freed)),
        (put(0, 11), Told::Issued(folded)),
        (Event::Free { key: freed }, Told::Freed(true)),
        (Event::End { shard: 0 }, Told::ShardEnded),
        look(folded, 11),
        look(kept, 7),
        (Event::Mark, Told::Marked(1)),
        set(folded, 12, true),
        set(kept, 13, true),
        set(freed, 14, false),
        set(hole, 14, false),
        look(folded, 12),
        look(kept, 13),
        (Event::Step, folds),
        look(folded, 12),
        look(kept, 13),
        set(folded, 15, true),
        set(kept, 16, true),
        set(freed, 14, false),
        look(folded, 15),
        look(kept, 16),
        (Event::Step, Told::NoPairLeft),
        (Event::Close, Told::Closed),
        (Event::Retire { shard: 1, most: 1 }, Told::Retired(1)),
        look(folded, 15),
        set(folded, 17, true),
        set(hole, 14, false),
        look(folded, 17),
        look(kept, 16),
        (Event::Adopt { shard: 1 }, Told::Adopted(kept.span)),
        look(folded, 17),
        (Event::Free { key: kept }, Told::Freed(true)),
        set(kept, 14, false),
        look(folded, 17),
        look_gone(kept),
    ];
    totals_after(alloc, 2, 4, table.as_slice())
}

#[test]
fn both_sides_of_a_pair_are_set(rt: HostRuntime) {
    assert_eq!(rt;
        totals_after_a_fold(rt.alloc()),
        Some(Totals { pages: 1, live: 1 })
    );
}

// Whether a set to the object is answered so, and the key then finds the other.
fn is_set(core: &mut Core, key: Key, value: Object, done: bool, then: Object) -> bool {
    let table = [
        (Event::Set { key, value }, Told::Replaced(done)),
        (Event::Get { key }, Told::Found(Some(then))),
    ];
    are_answered(core, table.as_slice())
}

// Whether a key takes objects of its own class alone.
fn takes_its_class(core: &mut Core, objects: [Object; 3]) -> Option<bool> {
    let made = key(0, 0, 0, 1)?;
    let [first, second, other] = objects;
    let first_put = Event::Put {
        shard: 0,
        value: first,
    };
    Some(
        answer(core, &first_put) == Some(Told::Issued(made))
            && is_set(core, made, other, false, first)
            && is_set(core, made, second, true, second)
            && is_set(core, made, other, false, second),
    )
}

fn is_set_in_class(alloc: Global, objects: [Object; 3]) -> Option<bool> {
    let mut core = new_core(alloc, 1, 1)?;
    takes_its_class(&mut core, objects)
}

#[test]
fn a_key_of_one_word_takes_one_word(rt: HostRuntime) {
    let objects = [Object::c16(5), Object::c16(6), wide(8)];
    assert_eq!(rt; is_set_in_class(rt.alloc(), objects), Some(true));
}

#[test]
fn a_key_of_four_words_takes_four(rt: HostRuntime) {
    let objects = [wide(4), wide(8), widest(9)];
    assert_eq!(rt; is_set_in_class(rt.alloc(), objects), Some(true));
}

#[test]
fn a_key_of_fifteen_words_takes_fifteen(rt: HostRuntime) {
    let class = Class::C240;
    let objects = [object(class, 4), object(class, 8), widest(9)];
    assert_eq!(rt; is_set_in_class(rt.alloc(), objects), Some(true));
}

#[test]
fn a_key_of_sixteen_words_takes_sixteen(rt: HostRuntime) {
    let objects = [widest(4), widest(8), Object::c16(9)];
    assert_eq!(rt; is_set_in_class(rt.alloc(), objects), Some(true));
}
