//! Shards, a pool and single folds.
use crate::refusing::{Rounds, Script, Subject};
use fold::{Step, fold_one};
use pool::{AdoptError, Pool, ReceiveError};
use shard::{Found, Freed, PutError, Replaced, Shard};
use span::names::{Class, Entry, Key, Object, SpanId};
use std::alloc::{AllocError, Global};
use std::sync::Wait;

/// How many shards there are.
const SHARDS: u32 = 4;

/// One call.
#[derive(Clone, Copy)]
pub(crate) enum Call {
    Put { shard: u32, value: Object },
    Set { key: Key, value: Object },
    Free { key: Key },
    Receive { shard: u32 },
    Retire { shard: u32, most: usize },
    Adopt { shard: u32 },
    Fold { a: SpanId, b: SpanId, shard: u32 },
    Renew { shard: u32 },
    GatherPooled,
    PooledGroups,
}

/// What a call answers.
#[derive(Clone, Copy, PartialEq)]
pub(crate) enum Told {
    Issued(Key, usize),
    NotPut(PutError),
    Replaced(bool),
    Freed(bool),
    Received,
    Retired(usize),
    NotReceived(ReceiveError),
    Adopted(SpanId),
    NotAdopted(AdoptError),
    Stepped(Step),
    Renewed(usize),
    Listed(usize, u32),
    OutOfMemory,
    NoShard,
}

/// The shards and the pool.
#[derive(Drop)]
pub(crate) struct Store {
    pool: Pool,
    shards: Vec<Shard>,
}

fn put(shard: &mut Shard, value: Object) -> Told {
    match shard.put(value) {
        Ok((key, at)) => Told::Issued(key, at),
        Err(PutError::OutOfMemory) => Told::OutOfMemory,
        Err(error) => Told::NotPut(error),
    }
}

fn receive(pool: &mut Pool, shard: &mut Shard) -> Told {
    match pool.receive(shard) {
        Ok(()) => Told::Received,
        Err(ReceiveError::OutOfMemory) => Told::OutOfMemory,
        Err(error) => Told::NotReceived(error),
    }
}

fn retire(pool: &mut Pool, shard: &mut Shard, most: usize) -> Told {
    match pool.retire(shard, most) {
        Ok(count) => Told::Retired(count),
        Err(ReceiveError::OutOfMemory) => Told::OutOfMemory,
        Err(error) => Told::NotReceived(error),
    }
}

fn adopt(pool: &mut Pool, shard: &mut Shard) -> Told {
    match pool.adopt(shard) {
        Ok(head) => Told::Adopted(head),
        Err(AdoptError::OutOfMemory) => Told::OutOfMemory,
        Err(error) => Told::NotAdopted(error),
    }
}

fn fold(pool: &mut Pool, shard: &mut Shard, a: SpanId, b: SpanId) -> Told {
    match fold_one(pool, shard, a, b) {
        Ok(step) => Told::Stepped(step),
        Err(_) => Told::OutOfMemory,
    }
}

// Has each page of the shard in another block.
fn renew(shard: &mut Shard) -> Told {
    for index in 0..shard.len() {
        if index < shard.len() && shard.renew(index).is_err() {
            return Told::OutOfMemory;
        }
    }
    Told::Renewed(shard.pages())
}

// Has each page of the pool in another block.
fn gather(pool: &mut Pool) -> Told {
    match pool.gather(0, usize::MAX) {
        Ok(count) => Told::Renewed(count),
        Err(_) => Told::OutOfMemory,
    }
}

// How many groups there are, and how many slots are live in the last.
fn listed(groups: Result<Vec<Entry>, AllocError>) -> Told {
    match groups {
        Ok(groups) => Told::Listed(
            groups.len(),
            match groups.last() {
                Some(group) => group.occupied.count(),
                None => 0,
            },
        ),
        Err(_) => Told::OutOfMemory,
    }
}

fn free(store: &mut Store, key: &Key) -> Told {
    for shard in store.shards.iter_mut() {
        if let Freed::Yes(_) = shard.free(key) {
            return Told::Freed(true);
        }
    }
    Told::Freed(matches!(store.pool.free(key), Freed::Yes(_)))
}

fn replaced(replaced: Result<Replaced, AllocError>) -> Option<Told> {
    match replaced {
        Ok(Replaced::Yes(_)) => Some(Told::Replaced(true)),
        Ok(_) => None,
        Err(_) => Some(Told::OutOfMemory),
    }
}

fn set(store: &mut Store, key: &Key, value: &Object) -> Told {
    for shard in store.shards.iter_mut() {
        if let Some(told) = replaced(shard.set(key, value.words())) {
            return told;
        }
    }
    match replaced(store.pool.set(key, value.words())) {
        Some(told) => told,
        None => Told::Replaced(false),
    }
}

fn object_of(found: Found<'_>) -> Option<Object> {
    match found {
        Found::Value(words, _) => Object::new(words),
        _ => None,
    }
}

fn object_at(store: &Store, key: &Key) -> Option<Object> {
    for shard in &store.shards {
        if let Some(object) = object_of(shard.get(key)) {
            return Some(object);
        }
    }
    object_of(store.pool.get(key))
}

fn answer(store: &mut Store, call: Call) -> Option<Told> {
    let Store { pool, shards } = store;
    Some(match call {
        Call::Put { shard, value } => put(shards.get_mut(shard as usize)?, value),
        Call::Set { key, value } => set(store, &key, &value),
        Call::Free { key } => free(store, &key),
        Call::Receive { shard } => receive(pool, shards.get_mut(shard as usize)?),
        Call::Retire { shard, most } => retire(pool, shards.get_mut(shard as usize)?, most),
        Call::Adopt { shard } => adopt(pool, shards.get_mut(shard as usize)?),
        Call::Fold { a, b, shard } => fold(pool, shards.get_mut(shard as usize)?, a, b),
        Call::Renew { shard } => renew(shards.get_mut(shard as usize)?),
        Call::GatherPooled => gather(pool),
        Call::PooledGroups => listed(pool.groups()),
    })
}

fn sizes(shard: &Shard) -> (usize, usize, bool, u32) {
    (shard.pages(), shard.live(), shard.ended(), shard.opened())
}

// Whether shards and pool have the same pages, groups and live keys.
fn are_as_large(store: &Store, twin: &Store) -> bool {
    for (shard, other) in store.shards.iter().zip(twin.shards.iter()) {
        if sizes(shard) != sizes(other) || listed(shard.groups()) != listed(other.groups()) {
            return false;
        }
    }
    let (pool, other) = (&store.pool, &twin.pool);
    (pool.pages(), pool.live()) == (other.pages(), other.live())
        && listed(pool.groups()) == listed(other.groups())
}

fn find_alike(store: &Store, twin: &Store, told: &[Told]) -> bool {
    for told in told {
        if let Told::Issued(key, _) = told
            && object_at(store, key) != object_at(twin, key)
        {
            return false;
        }
    }
    true
}

impl Subject for Store {
    type Call = Call;

    type Told = Told;

    fn fresh<R: Wait>(_rt: &R, alloc: Global) -> Option<Store> {
        let mut shards = Vec::new(alloc);
        for number in 0..SHARDS {
            shards.push(Shard::new(alloc, number, 8, 9).ok()?).ok()?;
        }
        Some(Store {
            pool: Pool::new(alloc),
            shards,
        })
    }

    fn answer<R: Wait>(&mut self, _rt: &R, call: Call) -> Told {
        match answer(self, call) {
            Some(told) => told,
            None => Told::NoShard,
        }
    }

    fn out_of_memory() -> Told {
        Told::OutOfMemory
    }

    fn may_do_without(call: Call) -> bool {
        matches!(call, Call::Retire { .. })
    }

    fn is_like<R: Wait>(&mut self, _rt: &R, twin: &mut Store, told: &[Told]) -> bool {
        are_as_large(self, twin) && find_alike(self, twin, told)
    }
}

fn key(shard: u32, serial: u32, slot: u8) -> Option<Key> {
    Key::new(SpanId::new(shard, serial)?, slot, 1)
}

fn add(calls: &mut Vec<Call>, call: Call) -> Option<()> {
    calls.push(call).ok()
}

// Puts of objects of sixteen words, of which a page has as many.
fn add_puts(calls: &mut Vec<Call>, shard: u32, count: u32) -> Option<()> {
    for word in 0..count {
        let value = Object::of(Class::C256, &[u128::from(word); 16]);
        add(calls, Call::Put { shard, value })?;
    }
    Some(())
}

// Frees of the keys of the shard's first span from that slot up to that one.
fn add_frees(calls: &mut Vec<Call>, shard: u32, from: u8, to: u8) -> Option<()> {
    for slot in from..=to {
        let key = key(shard, 0, slot)?;
        add(calls, Call::Free { key })?;
    }
    Some(())
}

// A set of a key of that shard's first span, to an object of its class and to one of another.
fn add_sets(calls: &mut Vec<Call>, shard: u32, slot: u8) -> Option<()> {
    let key = key(shard, 0, slot)?;
    let (value, other) = (Object::of(Class::C256, &[77; 16]), Object::c16(77));
    add(calls, Call::Set { key, value })?;
    add(calls, Call::Set { key, value: other })
}

// Puts over more than a page, of which few stay live: in shard 0 the slots 3 to 5, in shard 1 the
// slots 10 to 15 and two of a second span, and in shard 2 the slot 2.
fn add_first_puts(calls: &mut Vec<Call>) -> Option<()> {
    add_puts(calls, 0, 6)?;
    add_frees(calls, 0, 0, 2)?;
    add_puts(calls, 1, 18)?;
    add_frees(calls, 1, 0, 9)?;
    add_puts(calls, 2, 3)?;
    add_frees(calls, 2, 0, 1)
}

// Sets in a shard, in the pool and of a guest, ends, a retirement, an adoption, folds of groups
// alone and with guests, pages in other blocks, and lists of the pool's groups. (A shard's list is
// collected, which asks for its room at once and, where that is refused, goes on growth by growth.)
fn calls_of(alloc: Global) -> Option<Vec<Call>> {
    let mut calls = Vec::new(alloc);
    let (first, second, third) = (SpanId::new(0, 0)?, SpanId::new(1, 0)?, SpanId::new(2, 0)?);
    let (last, fourth) = (SpanId::new(1, 1)?, SpanId::new(3, 0)?);
    add_first_puts(&mut calls)?;
    add_sets(&mut calls, 0, 3)?;
    add(&mut calls, Call::Receive { shard: 0 })?;
    add_sets(&mut calls, 0, 4)?;
    add(&mut calls, Call::Adopt { shard: 2 })?;
    add(&mut calls, Call::Retire { shard: 1, most: 1 })?;
    add(&mut calls, Call::Receive { shard: 1 })?;
    add(&mut calls, Call::PooledGroups)?;
    add(&mut calls, Call::GatherPooled)?;
    add(&mut calls, fold_call(second, first, 2))?;
    add(&mut calls, fold_call(last, third, 2))?;
    add(&mut calls, Call::Renew { shard: 2 })?;
    add_sets(&mut calls, 1, 12)?;
    add(&mut calls, Call::Receive { shard: 2 })?;
    add(&mut calls, Call::PooledGroups)?;
    add_puts(&mut calls, 3, 8)?;
    add_frees(&mut calls, 3, 0, 5)?;
    add(&mut calls, fold_call(first, fourth, 3))?;
    add(&mut calls, fold_call(third, fourth, 3))?;
    add_puts(&mut calls, 3, 20)?;
    add(&mut calls, Call::Renew { shard: 3 })?;
    for shard in 0..SHARDS {
        add_frees(&mut calls, shard, 0, 15)?;
    }
    Some(calls)
}

fn fold_call(a: SpanId, b: SpanId, shard: u32) -> Call {
    Call::Fold { a, b, shard }
}

fn rounds_of<R: Wait>(rt: &R, alloc: Global) -> Option<Rounds> {
    let script = Script::<Store>::new(rt, alloc, calls_of(alloc)?)?;
    script.rounds(rt, alloc)
}

#[test]
fn refuses_each(rt: HostRuntime) {
    let rounds = rounds_of(&rt, rt.alloc());
    assert!(rt;
        matches!(rounds, Some(rounds) if rounds.are_well()),
        "{rounds:?}"
    );
}
