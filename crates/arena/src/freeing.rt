// Frees of keys in a row.
ghost use Rattle.std.specs.Prelude.{◌≡◌, ◌+◌, ◌<◌, ◌≤◌, [], IfOk, OnErr, length, take};
ghost use Rattle.arena.specs.Receipts.{AddsFrees};

use crate::arena::Arena;
use crate::calling::CallsKeys;
use crate::gate::Gate;
use crate::hints::Place;
use crate::key_calls::Free;
use crate::lent_calls::free_in;
use crate::patience::Patience;
use crate::receipts::Receipts;
use shard::Shard;
use span::names::Key;
use span::spans::Log;

impl<G: Gate, L: Log> Arena<G, L> {
    // Frees the first of the keys for the worker, and gives how many: under one lock those in a row
    // that its own shard has, or the one whose span is elsewhere.
    pub(crate) fn free_first<P: CallsKeys, K: Receipts>(
        &self,
        patience: &P,
        worker: u32,
        section: u64,
        keys: &[Key],
        receipts: &mut K,
    ) -> Result<usize, P::Busy>
        requires some { 0 < length keys.now }
        requires room { length keys.now ≤ K.room receipts.old }
        ensures few { IfOk result (λ count. count ≤ length keys.now) }
        ensures room { IfOk result (λ count. K.room receipts.old ≤ K.room receipts.new + count) }
        ensures freed { IfOk result (λ count. AddsFrees worker section (take count keys.now)
            (K.told receipts.old) (K.told receipts.new)) }
        ensures busy { OnErr result ((K.room receipts.old ≤ K.room receipts.new)
            × AddsFrees worker section [] (K.told receipts.old) (K.told receipts.new)) }
    {
        let at_home = self.free_at_home(patience, worker, section, keys, receipts)?;
        if at_home > 0 {
            return Ok(at_home);
        }
        let key = &keys[0];
        let freed = patience.call(self, &Free { key }, &mut [])?;
        receipts.tell(freed.free_receipt(worker, section, key));
        Ok(1)
    }

    // Frees the first of the keys, as far as the worker's own shard has their spans, under its
    // lock, and gives how many these are. If the first key's span is elsewhere it takes no lock.
    fn free_at_home<P: Patience, K: Receipts>(
        &self,
        patience: &P,
        worker: u32,
        section: u64,
        keys: &[Key],
        receipts: &mut K,
    ) -> Result<usize, P::Busy>
        requires { length keys.now ≤ K.room receipts.old }
        ensures few { IfOk result (λ count. count ≤ length keys.now) }
        ensures room { IfOk result (λ count. K.room receipts.old ≤ K.room receipts.new + count) }
        ensures freed { IfOk result (λ count. AddsFrees worker section (take count keys.now)
            (K.told receipts.old) (K.told receipts.new)) }
        ensures busy { OnErr result (receipts.new ≡ receipts.old) }
    {
        if !self.is_first_at_home(worker, keys) {
            return Ok(0);
        }
        let Some(lock) = self.shards.get(worker as usize) else {
            return Ok(0);
        };
        let mut shard = patience.lock(lock)?;
        self.gate.inside(worker);
        Ok(free_front(&mut *shard, worker, section, keys, receipts))
    }

    // Whether the span of the first key may be in the worker's own shard, by its hint.
    fn is_first_at_home(&self, worker: u32, keys: &[Key]) -> bool {
        match keys.first() {
            Some(key) => self.hints.place_of(key.span) == Place::Shard(worker),
            None => false,
        }
    }
}

// Frees the first of the keys, as far as the shard has their spans, and gives how many these are.
fn free_front<L: Log, K: Receipts>(
    shard: &mut Shard<L>,
    worker: u32,
    section: u64,
    keys: &[Key],
    receipts: &mut K,
) -> usize
    requires { length keys.now ≤ K.room receipts.old }
    ensures few { result ≤ length keys.now }
    ensures room { K.room receipts.old ≤ K.room receipts.new + result }
    ensures freed { AddsFrees worker section (take result keys.now) (K.told receipts.old)
        (K.told receipts.new) }
{
    for done in 0..keys.len() {
        let key = &keys[done];
        let Some(outcome) = free_in(shard, key) else {
            return done;
        };
        receipts.tell(outcome.free_receipt(worker, section, key));
    }
    keys.len()
}
