//! Folds from a pool onto a shard.
use crate::objects::{Sought, object};
use fold::{Step, fold_one};
use pool::Pool;
use shard::{PutError, Shard};
use span::names::{CLASSES, Class, Key, Object, SpanId};
use std::alloc::Global;

// What is seen of pool and shard: their pages, their live keys, and what both find of a key of the
// pool's group, and then of one of the shard's.
#[derive(Clone, Copy, PartialEq, Eq, Debug)]
struct Seen {
    pages: [usize; 2],
    live: [usize; 2],
    found: [Sought; 4],
}

fn key(shard: u32, slot: u8) -> Option<Key> {
    Key::new(SpanId::new(shard, 0)?, slot, 1)
}

fn look(pool: &Pool, shard: &Shard) -> Option<Seen> {
    let (pooled, owned) = (key(0, 0)?, key(1, 1)?);
    Some(Seen {
        pages: [pool.pages(), shard.pages()],
        live: [pool.live(), shard.live()],
        found: [
            Sought::of(pool.get(&pooled)),
            Sought::of(shard.get(&pooled)),
            Sought::of(pool.get(&owned)),
            Sought::of(shard.get(&owned)),
        ],
    })
}

// Puts the object, and asks again where memory was refused.
fn put(shard: &mut Shard, value: Object) -> Option<Key> {
    let made = match shard.put(value) {
        Err(PutError::OutOfMemory) => shard.put(value),
        made => made,
    };
    Some(made.ok()?.0)
}

// Gives the pool the group of this shard, in which an object of the class is live at slot 0.
fn abandon(pool: &mut Pool, shard: &mut Shard, class: Class) -> Option<()> {
    put(shard, object(class, 7))?;
    if pool.receive(shard).is_err() {
        pool.receive(shard).ok()?;
    }
    Some(())
}

// Opens that many groups of the class, each closed so that the next put opens another. In each, an
// object is live at slot 1.
fn open_groups(shard: &mut Shard, class: Class, groups: u32) -> Option<()> {
    for _ in 0..groups {
        let first = put(shard, object(class, 5))?;
        put(shard, object(class, 8))?;
        shard.close(first.span);
        shard.free(&first);
    }
    Some(())
}

// Folds the group of shard 0 onto that of the shard. Where memory was refused, nothing has changed,
// and the fold is asked for again.
fn fold(pool: &mut Pool, shard: &mut Shard, onto: u32) -> Option<Step> {
    let (a, b) = (SpanId::new(0, 0)?, SpanId::new(onto, 0)?);
    let before = look(pool, shard);
    match fold_one(pool, shard, a, b) {
        Ok(step) => Some(step),
        Err(_) if look(pool, shard) == before => fold_one(pool, shard, a, b).ok(),
        Err(_) => None,
    }
}

// What is seen after a fold of a group of one class onto the first of that many groups of another,
// or of the same.
fn seen_after(
    pool: &mut Pool,
    ended: &mut Shard,
    shard: &mut Shard,
    classes: [Class; 2],
    groups: u32,
) -> Option<(Step, Seen)> {
    let [from, onto] = classes;
    abandon(pool, ended, from)?;
    open_groups(shard, onto, groups)?;
    let step = fold(pool, shard, 1)?;
    Some((step, look(pool, shard)?))
}

fn folded(alloc: Global, classes: [Class; 2], groups: u32) -> Option<(Step, Seen)> {
    let mut ended = Shard::new(alloc, 0, 4, 2).ok()?;
    let mut shard = Shard::new(alloc, 1, 4, 2).ok()?;
    let mut pool = Pool::new(alloc);
    seen_after(&mut pool, &mut ended, &mut shard, classes, groups)
}

// What is seen after a fold of two groups of the class, where the shard has so many groups.
fn both_found(class: Class, pages: usize) -> Seen {
    Seen {
        pages: [0, pages],
        live: [0, pages.saturating_add(1)],
        found: [
            Sought::NotHere,
            Sought::Value(object(class, 7), 1),
            Sought::NotHere,
            Sought::Value(object(class, 8), 3),
        ],
    }
}

// The shard's maps are full at three groups, and its lists at four: a fold needs no place on these.
#[test]
fn folds_two_groups(rt: HostRuntime) {
    for groups in [1u32, 3, 4] {
        assert_eq!(rt;
            folded(rt.alloc(), [Class::C16, Class::C16], groups),
            Some((Step::Folded, both_found(Class::C16, groups as usize)))
        );
    }
}

#[test]
fn folds_two_groups_of_each_class(rt: HostRuntime) {
    for words in 1..=CLASSES {
        let class = Class::of_words(words);
        assert_eq!(rt;
            class.and_then(|class| folded(rt.alloc(), [class, class], 1)),
            class.map(|class| (Step::Folded, both_found(class, 1)))
        );
    }
}

// The same where nothing is live in the one group of the shard, which has given its page back.
fn seen_with_no_page(
    pool: &mut Pool,
    ended: &mut Shard,
    shard: &mut Shard,
    class: Class,
) -> Option<(usize, Step, Seen)> {
    abandon(pool, ended, class)?;
    open_groups(shard, class, 1)?;
    shard.reopen();
    shard.free(&key(1, 1)?);
    let trimmed = shard.trim();
    let step = fold(pool, shard, 1)?;
    Some((trimmed, step, look(pool, shard)?))
}

fn folded_with_no_page(alloc: Global, class: Class) -> Option<(usize, Step, Seen)> {
    let mut ended = Shard::new(alloc, 0, 4, 2).ok()?;
    let mut shard = Shard::new(alloc, 1, 4, 2).ok()?;
    let mut pool = Pool::new(alloc);
    seen_with_no_page(&mut pool, &mut ended, &mut shard, class)
}

// The page of the pool's group is then that of the shard's.
#[test]
fn folds_onto_a_group_with_no_page(rt: HostRuntime) {
    for class in [Class::C16, Class::C48, Class::C256] {
        let wanted = Seen {
            pages: [0, 1],
            live: [0, 1],
            found: [
                Sought::NotHere,
                Sought::Value(object(class, 7), 1),
                Sought::NotHere,
                Sought::Gone(4),
            ],
        };
        assert_eq!(rt;
            folded_with_no_page(rt.alloc(), class),
            Some((1, Step::Folded, wanted))
        );
    }
}

// What is seen after no fold of a group of one class onto one of another.
fn both_apart(classes: [Class; 2]) -> Seen {
    let [from, onto] = classes;
    Seen {
        pages: [1, 1],
        live: [1, 1],
        found: [
            Sought::Value(object(from, 7), 1),
            Sought::NotHere,
            Sought::NotHere,
            Sought::Value(object(onto, 8), 3),
        ],
    }
}

// No slot is live in both, and each key finds its object where it was.
#[test]
fn leaves_two_classes_apart(rt: HostRuntime) {
    for classes in [
        [Class::C256, Class::C64],
        [Class::C16, Class::C32],
        [Class::C240, Class::C224],
    ] {
        assert_eq!(rt;
            folded(rt.alloc(), classes, 1),
            Some((Step::Clash, both_apart(classes)))
        );
    }
}

// The steps onto a group that clashes, onto one that is not there, and then of a group without a
// page.
fn steps_without_a_fold(
    pool: &mut Pool,
    ended: &mut Shard,
    shard: &mut Shard,
) -> Option<[Step; 3]> {
    abandon(pool, ended, Class::C16)?;
    put(shard, Object::c16(5))?;
    let onto = shard.number();
    let clash = fold(pool, shard, onto)?;
    let absent = fold(pool, shard, 2)?;
    pool.free(&key(0, 0)?);
    Some([clash, absent, fold(pool, shard, onto)?])
}

fn left(alloc: Global, number: u32) -> Option<[Step; 3]> {
    let mut ended = Shard::new(alloc, 0, 4, 2).ok()?;
    let mut shard = Shard::new(alloc, number, 4, 2).ok()?;
    let mut pool = Pool::new(alloc);
    steps_without_a_fold(&mut pool, &mut ended, &mut shard)
}

#[test]
fn leaves_what_may_not_be_folded(rt: HostRuntime) {
    assert_eq!(rt;
        (left(rt.alloc(), 1), left(rt.alloc(), 0)),
        (
            Some([Step::Clash, Step::Absent, Step::Emptied]),
            Some([Step::Absent; 3])
        )
    );
}
