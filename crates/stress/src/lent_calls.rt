//! What is done under a lock, without one: that the calls succeed, and that the numbers of a run of
//! them are those of its log.
ghost use Rattle.std.specs.Prelude.{◌≡◌, IfSome};

use arena::Outcome;
use arena::lent_calls::{free_in, free_pool, get_in, get_pool, set_in, set_pool};
use pool::Pool;
use shard::Shard;
use span::names::{Class, Key, Object};
use span::receipts::{Call, Receipt};
use std::test::Fail;

// The receipt of such a call of worker 3 in section 2.
fn receipt(key: &Key, at: usize, call: Call) -> Receipt {
    Receipt {
        worker: 3,
        section: 2,
        key: *key,
        at,
        call,
    }
}

// The receipt of a look-up in the shard, if it has the span.
fn got(shard: &Shard, key: &Key) -> Option<Receipt> {
    let mut room = [0u128; 16];
    let looked = get_in(shard, key, &mut room)?;
    let found = looked.object(&room);
    Some(looked.receipt(3, 2, key, &found))
}

// The same in the pool.
fn got_pooled(pool: &Pool, key: &Key) -> Option<Receipt> {
    let mut room = [0u128; 16];
    let looked = get_pool(pool, key, &mut room)?;
    let found = looked.object(&room);
    Some(looked.receipt(3, 2, key, &found))
}

// The receipt of a free that was answered so.
fn freed(outcome: Option<Outcome>, key: &Key) -> Option<Receipt>
    requires { IfSome outcome (λ outcome. outcome.0 ≡ key.now) }
{
    Some(outcome?.free_receipt(3, 2, key))
}

// Puts, looks up and frees in the shard, which the pool then receives, and looks up and frees
// there.
fn are_told(shard: &mut Shard, pool: &mut Pool) -> Result<bool, Fail> {
    let (key, _) = shard.put(Object::c16(5))?;
    let elsewhere = got_pooled(pool, &key);
    let here = got(shard, &key);
    shard.put(Object::c16(6))?;
    let done = freed(free_in(shard, &key), &key);
    pool.receive(shard)?;
    let gone = got(shard, &key);
    let again = freed(free_pool(pool, &key), &key);
    let stale = got_pooled(pool, &key);
    Ok(
        elsewhere.is_none()
            && here == Some(receipt(&key, 1, Call::look_up(Some(Object::c16(5)))))
            && done == Some(receipt(&key, 2, Call::free(true)))
            && gone.is_none()
            && again == Some(receipt(&key, 3, Call::free(false)))
            && stale == Some(receipt(&key, 3, Call::look_up(None))),
    )
}

#[test]
fn tells_each_call(rt: HostRuntime) -> Result<(), Fail> {
    let mut shard = Shard::new(rt.alloc(), 0, 4, 9)?;
    let mut pool = Pool::new(rt.alloc());
    let told = are_told(&mut shard, &mut pool)?;
    assert!(rt; told);
    Ok(())
}

// The receipt of a set to the object that was answered so.
fn told_set(outcome: Option<Outcome>, key: &Key, value: Object) -> Option<Receipt>
    requires { IfSome outcome (λ outcome. outcome.0 ≡ key.now) }
{
    Some(outcome?.set_receipt(3, 2, key, value))
}

// Sets in the shard, which the pool then receives, and sets to another class there.
fn are_set(shard: &mut Shard, pool: &mut Pool) -> Result<bool, Fail> {
    let (key, _) = shard.put(Object::c16(5))?;
    let wide = Object::of(Class::C64, &[6; 4]);
    let elsewhere = set_pool(pool, &key, &[6; 4])?;
    let here = told_set(set_in(shard, &key, &[7])?, &key, Object::c16(7));
    pool.receive(shard)?;
    let gone = set_in(shard, &key, &[8])?;
    let there = told_set(set_pool(pool, &key, &[6; 4])?, &key, wide);
    Ok(
        elsewhere.is_none()
            && here == Some(receipt(&key, 1, Call::set(Object::c16(7), true)))
            && gone.is_none()
            && there == Some(receipt(&key, 2, Call::set(wide, false))),
    )
}

#[test]
fn tells_each_set(rt: HostRuntime) -> Result<(), Fail> {
    let mut shard = Shard::new(rt.alloc(), 0, 4, 9)?;
    let mut pool = Pool::new(rt.alloc());
    let told = are_set(&mut shard, &mut pool)?;
    assert!(rt; told);
    Ok(())
}
