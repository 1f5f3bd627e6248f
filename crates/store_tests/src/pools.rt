//! Ends and adoptions at work, and what a refused allocation leaves of pool and shard.
//!
//! Each call stands in a helper that promises nothing and owns neither pool nor shard, and the
//! answers are compared at once: a test carries no clauses then, and has one exit. A call that was
//! refused memory is made again where pool and shard are as before.
ghost use Rattle.std.specs.Prelude.{◌<◌};

use crate::objects::{Sought, wide, widest};
use pool::{AdoptError, Pool, ReceiveError};
use shard::{Freed, PutError, Shard};
use span::names::{Key, Object, SpanId};
use std::alloc::Global;

// The first span that a shard of this number opens.
fn id(shard: u32) -> SpanId
    requires { shard < 64 }
{
    let Some(id) = SpanId::new(shard, 0) else {
        unreachable!();
    };
    id
}

// The first key that it gives out.
fn key(shard: u32) -> Key
    requires { shard < 64 }
{
    let Some(key) = Key::new(id(shard), 0, 1) else {
        unreachable!();
    };
    key
}

fn put_once(shard: &mut Shard, value: Object) -> bool {
    shard.put(value) != Err(PutError::OutOfMemory)
}

// A shard of at most two pages.
fn shard(alloc: Global, number: u32) -> Shard
    requires { number < 64 }
{
    match Shard::new(alloc, number, 2, 9) {
        Ok(shard) => shard,
        Err(_) => unreachable!(),
    }
}

// The same, with the object under its first key.
fn shard_with(alloc: Global, number: u32, value: Object) -> Shard
    requires { number < 64 }
{
    let mut shard = shard(alloc, number);
    if !put_once(&mut shard, value) {
        put_once(&mut shard, value);
    }
    shard
}

// The pages and live keys of pool and shard.
fn counts(pool: &Pool, shard: &Shard) -> (usize, usize, usize, usize) {
    (pool.pages(), pool.live(), shard.pages(), shard.live())
}

// What pool and shard have under the key.
fn found(pool: &Pool, shard: &Shard, key: &Key) -> (Sought, Sought) {
    (Sought::of(pool.get(key)), Sought::of(shard.get(key)))
}

type Sight = ((usize, usize, usize, usize), bool, (Sought, Sought));

fn look_at(pool: &Pool, shard: &Shard, key: &Key) -> Sight {
    (counts(pool, shard), shard.ended(), found(pool, shard, key))
}

fn receive(pool: &mut Pool, shard: &mut Shard) -> Result<(), ReceiveError> {
    pool.receive(shard)
}

fn end(pool: &mut Pool, shard: &mut Shard, key: &Key) -> Result<(), ReceiveError> {
    let before = look_at(pool, shard, key);
    let answer = receive(pool, shard);
    if answer == Err(ReceiveError::OutOfMemory) && look_at(pool, shard, key) == before {
        receive(pool, shard)
    } else {
        answer
    }
}

fn adopt(pool: &mut Pool, shard: &mut Shard) -> Result<SpanId, AdoptError> {
    pool.adopt(shard)
}

fn take_over(pool: &mut Pool, shard: &mut Shard, key: &Key) -> Result<SpanId, AdoptError> {
    let before = look_at(pool, shard, key);
    let answer = adopt(pool, shard);
    if answer == Err(AdoptError::OutOfMemory) && look_at(pool, shard, key) == before {
        adopt(pool, shard)
    } else {
        answer
    }
}

fn reserve(pool: &mut Pool) -> bool {
    pool.reserve_for(None, 40).is_ok()
}

fn reserves(pool: &mut Pool, shard: &Shard, key: &Key) -> bool {
    let before = look_at(pool, shard, key);
    reserve(pool) || look_at(pool, shard, key) == before && reserve(pool)
}

fn free(pool: &mut Pool, key: &Key) -> Freed {
    pool.free(key)
}

// The head of the pool's group at the index, and how many slots are live there. The list is asked
// for again where memory was refused.
fn listed(pool: &Pool, index: usize) -> Option<(SpanId, u32)> {
    let groups = match pool.groups() {
        Ok(groups) => groups,
        Err(_) => pool.groups().ok()?,
    };
    let group = groups.get(index)?;
    Some((group.id, group.occupied.count()))
}

#[test]
fn refuses_a_span_that_is_here(rt: HostRuntime) {
    let key = key(0);
    let mut pool = Pool::new(rt.alloc());
    let mut first = shard_with(rt.alloc(), 0, Object::c16(7));
    let mut second = shard_with(rt.alloc(), 0, wide(8));
    let answers = (
        end(&mut pool, &mut first, &key),
        reserves(&mut pool, &first, &key),
        end(&mut pool, &mut second, &key),
        end(&mut pool, &mut first, &key),
        take_over(&mut pool, &mut second, &key),
    );
    assert_eq!(rt;
        answers,
        (
            Ok(()),
            true,
            Err(ReceiveError::Doubled),
            Err(ReceiveError::Ended),
            Err(AdoptError::Doubled),
        )
    );
}

#[test]
fn keeps_a_key_until_it_is_freed(rt: HostRuntime) {
    let (key, other) = (key(1), key(2));
    let mut pool = Pool::new(rt.alloc());
    let mut ending = shard_with(rt.alloc(), 1, wide(4));
    let mut next = shard_with(rt.alloc(), 2, Object::c16(6));
    let ended = (end(&mut pool, &mut ending, &key), found(&pool, &next, &key));
    let adopted = (
        take_over(&mut pool, &mut next, &key),
        found(&pool, &next, &key),
    );
    let both = (
        end(&mut pool, &mut next, &key),
        counts(&pool, &next),
        listed(&pool, 0),
        listed(&pool, 1),
    );
    assert_eq!(rt;
        (ended, adopted, both),
        (
            (Ok(()), (Sought::Value(wide(4), 1), Sought::NotHere)),
            (Ok(key.span), (Sought::NotHere, Sought::Value(wide(4), 1))),
            (
                Ok(()),
                (2, 2, 0, 0),
                Some((key.span, 1)),
                Some((other.span, 1))
            ),
        )
    );
}

#[test]
fn gives_up_the_page_of_an_emptied_group(rt: HostRuntime) {
    let key = key(1);
    let mut pool = Pool::new(rt.alloc());
    let mut ending = shard_with(rt.alloc(), 1, widest(5));
    let mut next = shard(rt.alloc(), 2);
    let answers = (
        end(&mut pool, &mut ending, &key),
        free(&mut pool, &key),
        look_at(&pool, &next, &key),
        take_over(&mut pool, &mut next, &key),
    );
    assert_eq!(rt;
        answers,
        (
            Ok(()),
            Freed::Yes(1),
            ((0, 0, 0, 0), false, (Sought::Gone(2), Sought::NotHere)),
            Err(AdoptError::NothingToAdopt),
        )
    );
}
