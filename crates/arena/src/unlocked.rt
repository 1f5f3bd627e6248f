// What is behind the locks of an arena, in one hand.
ghost use Rattle.std.specs.Prelude.{◌≡◌, ◌+◌, ◌*◌, ◌≤◌, ◌++◌, IfOk, IfSome, flat_map, length, map, vec_capacity, vec_len};
ghost use Rattle.groups.specs.Group.{spans_in};
ghost use Rattle.span.specs.SpanLogs.{AreLegal, room_for_logs, span_of_log};
ghost use Rattle.arena.specs.Receipts.{IsFreeBy};
ghost use Rattle.arena.specs.SpanCounts.{pooled_spans, spans_of_all};
ghost use Rattle.span.specs.declared.limits.TheConstants.{ALL_IDS, MOST_SHARDS};

use crate::arena::Arena;
use crate::gate::Gate;
use crate::lent_calls::{free_in, free_pool};
use crate::settling::Frees;
use latch::Latch;
use pool::Pool;
use shard::{Config, Found, Shard};
use span::names::Key;
use span::receipts::{Call, Receipt};
use span::spans::{Kept, SpanLog};
use std::alloc::{AllocError, Global};
use std::mem::replace;

// The pool and the shards of an arena, and a list with room for the logs of all their spans. A free
// opens no span, so the room stays enough.
#[derive(Drop)]
pub(crate) struct Unlocked {
    pool: Pool<Kept>,
    shards: Vec<Shard<Kept>>,
    logs: Vec<SpanLog>,
    ghost no_log: { vec_len logs ≡ 0 },
    ghost room: { pooled_spans pool + spans_of_all shards.items ≤ room_for_logs logs },
}

impl Frees for Unlocked {
    fn free_key(&mut self, worker: u32, section: u64, key: &Key) -> Receipt {
        if let Some(receipt) = free_pooled(&mut self.pool, worker, section, key) {
            return receipt;
        }
        match free_among(self.shards.as_mut_slice(), worker, section, key) {
            Some(receipt) => receipt,
            // Nobody has its span, which was never opened.
            None => Receipt {
                worker,
                section,
                key: *key,
                at: 0,
                call: Call::free(false),
            },
        }
    }
}

impl Unlocked {
    // The logs of all spans: of those in the pool, and then of those of each shard.
    pub(crate) fn into_logs(self) -> Vec<SpanLog>
        ensures legal { AreLegal result.items }
        ensures all { map span_of_log result.items ≡ spans_in self.pool.groups
            ++ flat_map (λ shard. spans_in shard.groups) self.shards.items }
    {
        let Unlocked {
            pool,
            shards,
            mut logs,
        } = self;
        pool.into_logs(&mut logs);
        for shard in shards {
            shard.into_logs(&mut logs);
        }
        logs
    }
}

// Takes what is behind the locks of the arena, which its caller has to itself, and which has no
// span afterwards. Memory is taken before the first of them leaves.
pub(crate) fn unlock<G: Gate>(arena: &Arena<G>) -> Result<Unlocked, AllocError> {
    // For the prover: there are 64 shards at most.
    let _ = arena.limits.shards();
    let alloc = arena.alloc;
    // A guard borrows the arena, so that no thread has one, unless it was forgotten.
    let Ok(mut pool) = arena.pool.try_lock() else {
        return Err(AllocError);
    };
    let more = pool.span_count();
    let (shards, logs) = unlocked_shards(alloc, arena.shards.as_slice(), 0, more)?;
    let pool = replace(&mut *pool, Pool::new(alloc));
    Ok(Unlocked { pool, shards, logs })
}

// Takes the shards, in whose place stand others with no span, and makes a list with room for the
// logs of their spans; with room for that many more of either. Each shard is held while those after
// it are asked, and leaves when there is room for all: the last one first.
fn unlocked_shards(
    alloc: Global,
    shards: &[Latch<Shard<Kept>>],
    more_shards: usize,
    more: usize,
) -> Result<(Vec<Shard<Kept>>, Vec<SpanLog>), AllocError>
    requires few { more + ALL_IDS * length shards.now ≤ ALL_IDS * 65 }
    requires few_shards { more_shards + length shards.now ≤ MOST_SHARDS }
    ensures shards { IfOk result (λ taken. vec_len taken.0 + more_shards ≤ vec_capacity taken.0) }
    ensures no_log { IfOk result (λ taken. vec_len taken.1 ≡ 0) }
    ensures room { IfOk result (λ taken. more + spans_of_all taken.0.items
        ≤ room_for_logs taken.1) }
{
    let Some((first, rest)) = shards.split_first() else {
        let taken = Vec::with_capacity(alloc, more_shards)?;
        return Ok((taken, Vec::with_capacity(alloc, more)?));
    };
    let Ok(mut shard) = first.try_lock() else {
        return Err(AllocError);
    };
    let with_it = more + shard.span_count();
    let (mut taken, logs) = unlocked_shards(alloc, rest, more_shards + 1, with_it)?;
    taken.push_reserved(replace(&mut *shard, empty_shard(alloc)));
    Ok((taken, logs))
}

// Frees the key in the pool, if that has its span.
fn free_pooled(pool: &mut Pool<Kept>, worker: u32, section: u64, key: &Key) -> Option<Receipt>
    ensures receipt { IfSome result (IsFreeBy worker section key.now) }
    ensures spans { pooled_spans pool.new ≡ pooled_spans pool.old }
{
    if pool.get(key) == Found::NotHere {
        return None;
    }
    Some(free_pool(pool, key)?.free_receipt(worker, section, key))
}

// Frees the key in the first of the shards that has its span, if one has it.
fn free_among(shards: &mut [Shard<Kept>], worker: u32, section: u64, key: &Key) -> Option<Receipt>
    ensures receipt { IfSome result (IsFreeBy worker section key.now) }
    ensures len { length shards.new ≡ length shards.old }
    ensures spans { spans_of_all shards.new ≡ spans_of_all shards.old }
{
    for number in 0..shards.len() {
        if let Some(freed) = free_in(&mut shards[number], key) {
            return Some(freed.free_receipt(worker, section, key));
        }
    }
    None
}

// A shard with no span, to stand where another has left.
fn empty_shard(alloc: Global) -> Shard<Kept> {
    match Shard::new(alloc, 0, 1, 1) {
        Ok(shard) => shard,
        Err(Config) => unreachable!(),
    }
}
