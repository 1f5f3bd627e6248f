// Where a span is, if it is not where its hint says.
ghost use Rattle.std.specs.Prelude.{◌≡◌, ◌<◌, ◌≤◌, IfOk, IfSome, Some, length, map};
ghost use Rattle.groups.specs.Group.{IsElsewhere};
ghost use Rattle.arena.specs.Locked.{latches_of};
ghost use Rattle.span.specs.declared.limits.TheConstants.{MOST_SHARDS};

use crate::arena::Arena;
use crate::folding::number_with;
use crate::gate::Gate;
use crate::hints::Place;
use crate::locks::LockedShard;
use crate::nowhere::Nowhere;
use crate::patience::Tries;
use latch::{Busy, LatchGuard};
use pool::Pool;
use span::names::SpanId;
use span::spans::Log;

impl<G: Gate, L: Log> Arena<G, L> {
    /// Looks for the span in the pool, and then in one shard after the other, and notes where it
    /// is; or says that it is nowhere. Every call that moves a span holds the pool's lock, and so
    /// does this one: a span that nobody has under the locks of all never comes back.
    ///
    /// # Errors
    ///
    /// Busy, if another thread has the pool's lock, or that of a shard and nobody else has the
    /// span.
    pub(crate) fn locate(&self, id: SpanId) -> Result<Option<Nowhere>, Busy>
        ensures { IfOk result (λ found. IfSome found (λ nowhere. nowhere.id ≡ id)) }
    {
        let pool = self.pool.try_lock()?;
        if pool.has(id) {
            self.hints.note(id, Place::Pool);
            return Ok(None);
        }
        if self.is_in_a_shard(id) {
            return Ok(None);
        }
        let shards = self.lock_all(&Tries)?;
        Ok(self.locate_lent(id, &pool, shards.as_slice()))
    }

    // Looks for the span in one shard after the other whose lock is to be had, and notes where it
    // is.
    fn is_in_a_shard(&self, id: SpanId) -> bool {
        for number in 0..self.limits.shards() {
            if self.is_in_shard(id, number) {
                return true;
            }
        }
        false
    }

    // Whether the shard of this number has the span, and its lock is to be had. Then that is noted.
    fn is_in_shard(&self, id: SpanId, number: u32) -> bool
        requires { number < self.now.limits.shards }
    {
        // For the prover: there are 64 shards at most.
        let _ = self.limits.shards();
        let Ok(shard) = self.shards[number as usize].try_lock() else {
            return false;
        };
        if !shard.has(id) {
            return false;
        }
        self.hints.note(id, Place::Shard(number));
        true
    }

    // Notes which of the shards has the span, if one has it, of the pool, which does not have it,
    // and of all shards, which their locks lend.
    fn locate_lent(
        &self,
        id: SpanId,
        pool: &LatchGuard<'_, Pool<L>>,
        shards: &[Option<LockedShard<'_, L>>],
    ) -> Option<Nowhere>
        requires pool { pool.now.latch.now ≡ self.now.pool }
        requires unpooled { IsElsewhere pool.now.value.value.groups id }
        requires few { length shards.now ≤ MOST_SHARDS }
        requires lent { latches_of shards.now ≡ map Some self.now.shards.items }
        ensures { IfSome result (λ nowhere. nowhere.id ≡ id) }
    {
        match number_with(shards, id) {
            Some(number) => {
                self.hints.note(id, Place::Shard(number as u32));
                None
            }
            None => Some(Nowhere::in_all(id, self, pool, shards)),
        }
    }
}
