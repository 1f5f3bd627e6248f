// Frees that are left for later, on the rings.
ghost use Rattle.std.specs.Prelude.{◌≡◌};
ghost use Rattle.arena_core.specs.Calls.{CoreCall, ShownCall, TakeCall};
ghost use Rattle.arena_core.specs.Sound.{IsSound};
ghost use Rattle.arena_core.specs.State.{with_rings};
ghost use Rattle.arena_core.specs.declared.event.Event.TheVariants as event;
ghost use Rattle.arena_core.specs.declared.reply.Reply.TheVariants as reply;

use super::Core;
use crate::reply::Refusal;
use span::names::Key;
use span::spans::Log;

impl<L: Log> Core<L> {
    // Puts the key last on the ring from this worker to the shard that opened the key's span.
    pub(super) fn later(&mut self, worker: u32, key: Key) -> Result<(), Refusal>
        ensures exact { CoreCall self.old (event.Later worker key)
            (λ _. reply.Sent) result self.new }
        ensures plain { ShownCall self.old (event.Later worker key)
            (λ _. reply.Sent) result self.new }
        ensures sound { IsSound self.new }
    {
        self.rings.send(self.alloc, worker, key)
    }

    // Takes the oldest key from the ring from this worker to this shard, if one waits there.
    #[inline(always)]
    fn take_sent(&mut self, worker: u32, shard: u32) -> Result<Option<Key>, Refusal>
        ensures taken { TakeCall self.old worker shard result self.new }
        ensures rest { self.new ≡ with_rings self.old self.new.rings }
        ensures sound { IsSound self.new }
    {
        self.rings.take(worker, shard)
    }

    // Frees the key that has waited longest on the ring from this worker to this shard, if one
    // waits there. Inlined, since most rings are empty where all of them are asked.
    #[inline(always)]
    pub(super) fn settle(&mut self, worker: u32, shard: u32) -> Result<Option<Key>, Refusal>
        ensures exact { CoreCall self.old (event.Settle worker shard)
            reply.Settled result self.new }
        ensures plain { ShownCall self.old (event.Settle worker shard)
            reply.Settled result self.new }
        ensures sound { IsSound self.new }
    {
        let Some(key) = self.take_sent(worker, shard)? else {
            return Ok(None);
        };
        self.free(&key);
        Ok(Some(key))
    }
}
