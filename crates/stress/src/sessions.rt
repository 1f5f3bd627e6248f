// That a seat which keeps its shard finds what is elsewhere, and that what it puts is found once it
// has given the shard back.
use crate::shared::{
    Kept, Shards, Shared, adopt, get, get_word, keep, make_shared, pause, put, put_kept, retire,
};
use arena::{Busy, Seat, Walk};
use span::names::{Key, Object};
use std::alloc::Global;
use std::test::Fail;

// The word that a look-up of the session finds.
fn word(session: &mut Kept, key: &Key) -> Option<Result<Option<u128>, Busy>> {
    let mut room = [0u128];
    Some(match session.try_get(key, &mut room) {
        Ok(looked) if looked.word_count() == Some(1) => Ok(Some(room[0])),
        Ok(_) => Ok(None),
        Err(busy) => Err(busy),
    })
}

fn set(session: &mut Kept, key: &Key, word: u128) -> Option<bool> {
    match session.try_set(key, &[word]) {
        Ok(Ok(set)) => Some(set.done()),
        _ => None,
    }
}

fn free(session: &mut Kept, key: &Key) -> Option<bool> {
    match session.try_free(key) {
        Ok(freed) => Some(freed.done()),
        Err(_) => None,
    }
}

// What a session's look-up of a key finds that has this word, and then, once it has set it to 9;
// and whether it set it, and freed it.
type Answers = ([Option<Result<Option<u128>, Busy>>; 3], [Option<bool>; 3]);

fn answers(session: &mut Kept, key: &Key) -> Answers {
    let before = word(session, key);
    let is_set = set(session, key, 9);
    let after = word(session, key);
    let is_freed = free(session, key);
    let again = free(session, key);
    let gone = word(session, key);
    ([before, after, gone], [is_set, is_freed, again])
}

// What a session of the first seat answers of a key in the second shard, of one in the pool, and of
// one whose span its own shard opened and the third has adopted.
fn answered(alloc: Global) -> Option<[Answers; 3]> {
    let Shared {
        arena,
        mut first,
        mut second,
        mut third,
        ..
    } = make_shared(alloc, 2)?;
    let moved = put(&*arena, &mut first, 5)?;
    retire(&*arena, &mut first, 1)?;
    if !adopt(&*arena, &mut third) {
        return None;
    }
    let pooled = put(&*arena, &mut second, 6)?;
    retire(&*arena, &mut second, 1)?;
    let beside = put(&*arena, &mut second, 7)?;
    let _ = get(&*arena, &mut third, &pooled);
    let mut session = keep(&arena, first)?;
    Some([
        answers(&mut session, &beside),
        answers(&mut session, &pooled),
        answers(&mut session, &moved),
    ])
}

fn wanted(word: u128) -> Answers {
    (
        [Some(Ok(Some(word))), Some(Ok(Some(9))), Some(Ok(None))],
        [Some(true), Some(true), Some(false)],
    )
}

#[test]
fn finds_keys_that_are_elsewhere(rt: HostRuntime) -> Result<(), Fail> {
    let wanted = [wanted(7), wanted(6), wanted(5)];
    assert_eq!(rt; answered(rt.alloc()), Some(wanted));
    Ok(())
}

// The live keys that a walk over the arena meets, the first two of them, and how many there are.
fn walked(arena: &Shards) -> ([Option<Key>; 2], usize) {
    let mut walk = Walk::default();
    let mut met = [None; 2];
    let mut count = 0usize;
    for _ in 0..9 {
        match walk.try_next(arena) {
            Ok(Some(key)) => {
                if count < 2 {
                    met[count] = Some(key);
                }
                count = count.saturating_add(1);
            }
            _ => return (met, count),
        }
    }
    (met, count)
}

// What look-ups of another seat find of a key that a session put, while that keeps the shard, and
// afterwards; and whether a walk meets this key alone, and the next one of the session.
type Seen = ([Option<Result<Option<u128>, Busy>>; 2], [bool; 2]);

fn look_ups(arena: &Shards, other: &mut Seat, key: &Key) -> Option<Result<Option<u128>, Busy>> {
    let found = get_word(arena, other, key)?;
    let object = get(arena, other, key)?;
    let wanted = match found {
        Ok(Some(word)) => Ok(Some(Object::c16(word))),
        Ok(None) => Ok(None),
        Err(busy) => Err(busy),
    };
    if object == wanted { Some(found) } else { None }
}

fn seen(alloc: Global) -> Option<Seen> {
    let Shared {
        arena,
        first,
        mut second,
        ..
    } = make_shared(alloc, 2)?;
    let mut session = keep(&arena, first)?;
    let key = put_kept(&mut session, 5)?;
    let meanwhile = look_ups(&*arena, &mut second, &key);
    let mut first = pause(session);
    let afterwards = look_ups(&*arena, &mut second, &key);
    let is_met = walked(&*arena) == ([Some(key), None], 1);
    // The span of the next one is new, too.
    retire(&*arena, &mut first, 1)?;
    let mut session = keep(&arena, first)?;
    let next = put_kept(&mut session, 6)?;
    drop(session);
    let is_next_met = walked(&*arena) == ([Some(key), Some(next)], 2);
    Some(([meanwhile, afterwards], [is_met, is_next_met]))
}

#[test]
fn leaves_what_it_put_where_others_find_it(rt: HostRuntime) -> Result<(), Fail> {
    let wanted = ([Some(Err(Busy)), Some(Ok(Some(5)))], [true; 2]);
    assert_eq!(rt; seen(rt.alloc()), Some(wanted));
    Ok(())
}
