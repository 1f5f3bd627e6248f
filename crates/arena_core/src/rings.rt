// The keys that wait to be freed, in rings that come with their first key.
//
// Most cores never leave a key for later, and one of 64 shards has 4,096 rings. So a list of
// inboxes or of rings goes only as far as a key was left for one of them, and what is behind its
// end shows as rings in which no key waits. A ring takes its whole room with its first key, and no
// memory after that.
ghost use Rattle.std.specs.Prelude.{◌≡◌, ◌⊎◌, ◌+◌, ◌<◌, ◌≤◌, ◌∷◌, [], None, IfErr, OnErr, OnOk, MatchOption, MatchResult, length, replicate, slice_get, vec_len};
ghost use Rattle.arena_core.specs.Filled.{CannotReach, CannotSendIn, SendsIn, TakesIn, filled};
ghost use Rattle.arena_core.specs.Rings.{CannotEnter, CannotSend, Enters, IsConfigFor, Sends, Takes, new_ring, new_rings, ring_at};

use crate::reply::Refusal;
use span::names::Key;
use std::alloc::{AllocError, Global};
use std::collections::VecDeque;
use std::marker::Model;

// The keys that one worker has sent to one shard, the oldest first.
#[derive(Drop)]
struct Ring {
    keys: VecDeque<Key>,
    capacity: usize,
}

impl Model for Ring {
    ghost use Rattle.std.specs.Prelude.{◌≤◌, length};
    ghost use Rattle.arena_core.specs.Rings.{RingState};

    ghost Value = { RingState };

    ghost view = { λ r. record { capacity = r.capacity; keys = r.keys.items } };

    ghost invariant = { λ r. length r.keys.items ≤ r.capacity };
}

impl Ring {
    // A ring in which no key waits. It takes no memory.
    fn new(alloc: Global, capacity: usize) -> Ring
        ensures { result ≡ new_ring capacity }
    {
        Ring {
            keys: VecDeque::new(alloc),
            capacity,
        }
    }

    // Puts the key last, where there is room. The first key takes the memory for all that the ring
    // holds.
    fn send(&mut self, key: Key) -> Result<(), Refusal>
        ensures { MatchResult result (λ _. Enters self.old key self.new)
            (λ refusal. CannotEnter refusal self.old × (self.new ≡ self.old)) }
    {
        let waiting = self.keys.len();
        if waiting >= self.capacity {
            return Err(Refusal::RingFull);
        }
        self.keys.reserve_exact(self.capacity - waiting)?;
        self.keys.push_back_reserved(key);
        Ok(())
    }

    // Takes the oldest key, if one waits.
    #[inline(always)]
    fn take(&mut self) -> Option<Key>
        ensures { MatchOption result ((self.old.keys ≡ []) × (self.new ≡ self.old))
            (λ key. self.old ≡ record self.new { keys = key ∷ self.new.keys }) }
    {
        self.keys.pop_front()
    }
}

// The rings to one shard, by their workers.
#[derive(Drop)]
struct Inbox {
    alloc: Global,
    workers: u32,
    capacity: usize,
    // As far as a worker has left a key.
    rings: Vec<Ring>,
}

impl Model for Inbox {
    ghost use Rattle.std.specs.Prelude.{◌≤◌, List, vec_len};
    ghost use Rattle.arena_core.specs.Filled.{filled};
    ghost use Rattle.arena_core.specs.Rings.{RingState, new_ring};

    ghost Value = { List RingState };

    ghost view = { λ i. filled i.workers (new_ring i.capacity) i.rings.items };

    ghost invariant = { λ i. (vec_len i.rings ≤ i.workers) × (1 ≤ i.capacity) };
}

impl Inbox {
    // A ring for each of that many workers. It takes no memory.
    fn new(alloc: Global, workers: u32, capacity: usize) -> Inbox
        requires { 1 ≤ capacity }
        ensures { result ≡ replicate workers (new_ring capacity) }
    {
        Inbox {
            alloc,
            workers,
            capacity,
            rings: Vec::new(alloc),
        }
    }

    // Puts the key last on the worker's ring.
    fn send(&mut self, worker: u32, key: Key) -> Result<(), Refusal>
        ensures { MatchResult result (λ _. SendsIn self.old worker key self.new)
            (λ refusal. CannotSendIn refusal self.old worker × (self.new ≡ self.old)) }
    {
        let rings = &mut self.rings;
        reach_ring(self.alloc, self.workers, self.capacity, worker, rings)?;
        self.rings[worker as usize].send(key)
    }

    // Takes the oldest key from the worker's ring, if one waits there.
    #[inline(always)]
    fn take(&mut self, worker: u32) -> Result<Option<Key>, Refusal>
        ensures { MatchResult result (λ found. TakesIn self.old worker found self.new)
            (λ cause. IsConfigFor cause (slice_get self.old worker ≡ None) self.old self.new) }
    {
        if let Some(ring) = self.rings.get_mut(worker as usize) {
            return Ok(ring.take());
        }
        if worker >= self.workers {
            return Err(Refusal::Config);
        }
        Ok(None)
    }
}

// Makes the rings up to the worker's, if they do not go as far yet.
fn reach_ring(
    alloc: Global,
    workers: u32,
    capacity: usize,
    worker: u32,
    rings: &mut Vec<Ring>,
) -> Result<(), Refusal>
    requires few { vec_len rings.old ≤ workers }
    ensures same { filled workers (new_ring capacity) rings.new.items
        ≡ filled workers (new_ring capacity) rings.old.items }
    ensures few { vec_len rings.new ≤ workers }
    ensures here { OnOk result (worker < vec_len rings.new) }
    ensures refused { IfErr result (λ refusal. (vec_len rings.old ≤ worker)
        × CannotReach refusal workers worker worker) }
{
    let made = rings.len();
    if (worker as usize) < made {
        return Ok(());
    }
    if worker >= workers {
        return Err(Refusal::Config);
    }
    add_rings(alloc, workers, capacity, worker as usize + 1 - made, rings)?;
    Ok(())
}

// Adds so many rings in which no key waits.
fn add_rings(
    alloc: Global,
    workers: u32,
    capacity: usize,
    count: usize,
    rings: &mut Vec<Ring>,
) -> Result<(), AllocError>
    ensures same { filled workers (new_ring capacity) rings.new.items
        ≡ filled workers (new_ring capacity) rings.old.items }
    ensures ok { OnOk result (vec_len rings.new ≡ vec_len rings.old + count) }
    ensures err { OnErr result (vec_len rings.new ≡ vec_len rings.old) }
{
    rings.reserve(count)?;
    for _ in 0..count {
        rings.push_reserved(Ring::new(alloc, capacity));
    }
    Ok(())
}

/// The keys that wait to be freed: a ring for each worker and shard.
#[derive(Drop)]
pub struct Rings {
    alloc: Global,
    shards: u32,
    capacity: usize,
    // As far as a key was left for a shard.
    inboxes: Vec<Inbox>,
}

impl Model for Rings {
    ghost use Rattle.std.specs.Prelude.{◌≤◌, List, replicate, vec_len};
    ghost use Rattle.arena_core.specs.Filled.{filled};
    ghost use Rattle.arena_core.specs.Rings.{RingState, new_ring};

    ghost Value = { List (List RingState) };

    ghost view = { λ r. filled r.shards (replicate r.shards (new_ring r.capacity))
        r.inboxes.items };

    ghost invariant = { λ r. (vec_len r.inboxes ≤ r.shards) × (1 ≤ r.capacity) };
}

impl Rings {
    /// Empty rings, one from each of that many workers to each of as many shards. It takes no
    /// memory: a ring is made when the first key is put on it.
    pub fn new(alloc: Global, shards: u32, capacity: usize) -> Rings
        requires { 1 ≤ capacity }
        ensures { result ≡ new_rings shards capacity }
    {
        Rings {
            alloc,
            shards,
            capacity,
            inboxes: Vec::new(alloc),
        }
    }

    /// Puts the key last on the ring from this worker to the shard that opened the key's span.
    ///
    /// [`Refusal::RingFull`] comes exactly where the ring holds as many keys as it may, and
    /// [`Refusal::Config`] exactly where there is no such ring. [`Refusal::OutOfMemory`] comes only
    /// where the ring has room. A ring that has taken a key takes no memory any more.
    pub fn send(&mut self, worker: u32, key: Key) -> Result<(), Refusal>
        ensures { MatchResult result (λ _. Sends self.old worker key self.new)
            (λ refusal. CannotSend refusal self.old worker key.span.shard × (self.new ≡ self.old)) }
    {
        let shard = key.span.shard;
        let inboxes = &mut self.inboxes;
        reach_inbox(
            self.alloc,
            self.shards,
            self.capacity,
            worker,
            shard,
            inboxes,
        )?;
        self.inboxes[shard as usize].send(worker, key)
    }

    /// Takes the oldest key from the ring from this worker to this shard, if one waits there. It
    /// takes no memory.
    ///
    /// [`Refusal::Config`] comes exactly where there is no such ring.
    #[inline(always)]
    pub fn take(&mut self, worker: u32, shard: u32) -> Result<Option<Key>, Refusal>
        ensures { MatchResult result (λ found. Takes self.old worker shard found self.new)
            (λ cause. IsConfigFor cause (ring_at self.old worker shard ≡ None) self.old self.new) }
    {
        let Some(inbox) = self.inboxes.get_mut(shard as usize) else {
            return none_waits(self.shards, worker, shard);
        };
        inbox.take(worker)
    }
}

/// What is taken from a ring on which no key was put.
pub fn none_waits(shards: u32, worker: u32, shard: u32) -> Result<Option<Key>, Refusal>
    ensures { MatchResult result (λ found. (found ≡ None) × (worker < shards) × (shard < shards))
        (λ refusal. (refusal ≡ Refusal.Config) × ((shards ≤ worker) ⊎ (shards ≤ shard))) }
{
    if worker >= shards || shard >= shards {
        return Err(Refusal::Config);
    }
    Ok(None)
}

// Makes the inboxes up to the shard's, if they do not go as far yet.
fn reach_inbox(
    alloc: Global,
    shards: u32,
    capacity: usize,
    worker: u32,
    shard: u32,
    inboxes: &mut Vec<Inbox>,
) -> Result<(), Refusal>
    requires few { vec_len inboxes.old ≤ shards }
    requires capacity { 1 ≤ capacity }
    ensures same { filled shards (replicate shards (new_ring capacity)) inboxes.new.items
        ≡ filled shards (replicate shards (new_ring capacity)) inboxes.old.items }
    ensures few { vec_len inboxes.new ≤ shards }
    ensures here { OnOk result (shard < vec_len inboxes.new) }
    ensures refused { IfErr result (λ refusal. (vec_len inboxes.old ≤ shard)
        × CannotReach refusal shards worker shard) }
{
    let made = inboxes.len();
    if (shard as usize) < made {
        return Ok(());
    }
    if worker >= shards || shard >= shards {
        return Err(Refusal::Config);
    }
    add_inboxes(alloc, shards, capacity, shard as usize + 1 - made, inboxes)?;
    Ok(())
}

// Adds so many inboxes with rings in which no key waits.
fn add_inboxes(
    alloc: Global,
    shards: u32,
    capacity: usize,
    count: usize,
    inboxes: &mut Vec<Inbox>,
) -> Result<(), AllocError>
    requires { 1 ≤ capacity }
    ensures same { filled shards (replicate shards (new_ring capacity)) inboxes.new.items
        ≡ filled shards (replicate shards (new_ring capacity)) inboxes.old.items }
    ensures ok { OnOk result (vec_len inboxes.new ≡ vec_len inboxes.old + count) }
    ensures err { OnErr result (vec_len inboxes.new ≡ vec_len inboxes.old) }
{
    inboxes.reserve(count)?;
    for _ in 0..count {
        inboxes.push_reserved(Inbox::new(alloc, shards, capacity));
    }
    Ok(())
}
