// The rings of a core, which have memory only once a key was left for later.
ghost use Rattle.std.specs.Prelude.{◌≡◌, ◌≤◌, None, MatchResult};
ghost use Rattle.arena_core.specs.Rings.{CannotSend, IsConfigFor, Sends, Takes, new_rings, ring_at};
ghost use Rattle.span.specs.declared.limits.TheConstants.{MOST_RING_KEYS};

use crate::reply::Refusal;
use crate::rings::{Rings, none_waits};
use span::names::Key;
use std::alloc::Global;
use std::marker::Model;

/// The rings, or what they will be.
#[derive(Drop)]
pub(crate) enum Room {
    /// One from each of that many workers to each of as many shards, for that many keys.
    Unmade { shards: u32, capacity: u32 },
    Made(Box<Rings>),
}

/// The keys that wait to be freed: a ring for each worker and shard. All of it comes with the first
/// key. Until then it takes two words of the core.
#[derive(Drop)]
pub struct LateRings {
    room: Room,
}

const _: () = prove!(size_of::<LateRings>() == 16);

impl Model for LateRings {
    ghost use Rattle.std.specs.Prelude.{List};
    ghost use Rattle.arena_core.specs.Rings.{RingState};

    ghost Value = { List (List RingState) };

    ghost use Rattle.arena_core.specs.RingsKept.{HasCapacity, rings_in};

    ghost view = { λ late. rings_in late.room };

    ghost invariant = { λ late. HasCapacity late.room };
}

impl LateRings {
    /// Empty rings, one from each of that many workers to each of as many shards. It takes no
    /// memory.
    pub fn new(shards: u32, capacity: usize) -> LateRings
        requires some { 1 ≤ capacity }
        requires few { capacity ≤ MOST_RING_KEYS }
        ensures { result ≡ new_rings shards capacity }
    {
        LateRings {
            room: Room::Unmade {
                shards,
                capacity: capacity as u32,
            },
        }
    }

    /// Puts the key last on the ring from this worker to the shard that opened the key's span. The
    /// refusals are those of [`Rings::send`].
    pub fn send(&mut self, alloc: Global, worker: u32, key: Key) -> Result<(), Refusal>
        ensures { MatchResult result (λ _. Sends self.old worker key self.new)
            (λ refusal. CannotSend refusal self.old worker key.span.shard × (self.new ≡ self.old)) }
    {
        match &mut self.room {
            Room::Made(rings) => rings.send(worker, key),
            Room::Unmade { shards, capacity } => {
                let rings = first_sent(alloc, *shards, *capacity as usize, worker, key)?;
                self.room = Room::Made(rings);
                Ok(())
            }
        }
    }

    /// Takes the oldest key from the ring from this worker to this shard, if one waits there. It
    /// takes no memory.
    ///
    /// [`Refusal::Config`] comes exactly if there is no such ring.
    #[inline(always)]
    pub fn take(&mut self, worker: u32, shard: u32) -> Result<Option<Key>, Refusal>
        ensures { MatchResult result (λ found. Takes self.old worker shard found self.new)
            (λ cause. IsConfigFor cause (ring_at self.old worker shard ≡ None) self.old self.new) }
    {
        let rings = match &mut self.room {
            Room::Made(rings) => rings,
            Room::Unmade { shards, .. } => return none_waits(*shards, worker, shard),
        };
        rings.take(worker, shard)
    }
}

// Rings with the one key, which goes on that from this worker to the shard that opened its span.
fn first_sent(
    alloc: Global,
    shards: u32,
    capacity: usize,
    worker: u32,
    key: Key,
) -> Result<Box<Rings>, Refusal>
    requires { 1 ≤ capacity }
    ensures { MatchResult result (λ rings. Sends (new_rings shards capacity) worker key rings.value)
        (λ refusal. CannotSend refusal (new_rings shards capacity) worker key.span.shard) }
{
    let mut rings = Rings::new(alloc, shards, capacity);
    rings.send(worker, key)?;
    match Box::new(alloc, rings) {
        Ok(rings) => Ok(rings),
        Err(_) => Err(Refusal::OutOfMemory),
    }
}
