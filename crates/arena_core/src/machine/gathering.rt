// Pages that move to lower blocks, so that memory below them goes back.
ghost use Rattle.std.specs.Prelude.{◌≡◌, ◌-◌, IfOk, MatchResult, length, min};
ghost use Rattle.arena_core.specs.Gathers.{CannotGather, Gathers};
ghost use Rattle.arena_core.specs.Made.{IsUnused};
ghost use Rattle.arena_core.specs.Sound.{IsSound};

use super::Core;
use crate::reply::Refusal;
use shard::Shard;
use span::spans::Log;
use std::alloc::AllocError;

impl<L: Log> Core<L> {
    /// Moves the pages of up to `most` groups of the shard of this number, from its group `from`
    /// on, to blocks that it asks for now, and changes nothing else. It says how many groups these
    /// are: fewer than `most` if the shard has no more.
    ///
    /// Small pages share a page of the system, which goes back only once all of them are gone:
    /// after a compaction, a source of pages that hands out its lowest free block first can so
    /// empty its upper end. To gather is no event.
    ///
    /// It is refused with [`Refusal::Config`] exactly if there is no such shard, and with
    /// [`Refusal::OutOfMemory`] only if a block is refused: then some pages have moved.
    pub fn gather(&mut self, number: u32, from: usize, most: usize) -> Result<usize, Refusal>
        ensures exact { MatchResult result (Gathers self.old.shards number from most)
            (CannotGather self.old.limits.shards number) }
        ensures same { self.new ≡ self.old }
        ensures sound { IsSound self.new }
    {
        let Some(shard) = self.shards.get_mut(number as usize) else {
            return self.gather_none(number, from, most);
        };
        let Ok(count) = gather_some(shard, from, most) else {
            return Err(Refusal::OutOfMemory);
        };
        Ok(count)
    }

    // The same of a shard that is not made, and so has no page.
    fn gather_none(&self, number: u32, from: usize, most: usize) -> Result<usize, Refusal>
        requires { IsUnused self.now number }
        ensures { MatchResult result (Gathers self.now.shards number from most)
            (CannotGather self.now.limits.shards number) }
    {
        // For the prover: from where on, and how many.
        let _ = (from, most);
        let count = self.limits.shards();
        if number >= count {
            return Err(Refusal::Config);
        }
        Ok(0)
    }
}

// Moves the pages of up to `most` groups of the shard, from its group `from` on, the first first.
fn gather_some<L: Log>(shard: &mut Shard<L>, from: usize, most: usize) -> Result<usize, AllocError>
    ensures same { shard.new ≡ shard.old }
    ensures count { IfOk result (λ count. count ≡ min most (length shard.old.groups - from)) }
{
    let left = shard.len().saturating_sub(from);
    let count = left.min(most);
    for index in from..from + count {
        shard.renew(index)?;
    }
    Ok(count)
}
