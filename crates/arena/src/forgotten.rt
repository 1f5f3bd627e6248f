// What an arena forgets under the locks of all.
ghost use Rattle.std.specs.Prelude.{◌≡◌, Some, map};
ghost use Rattle.arena.specs.Amounts.{at_most_word};
ghost use Rattle.arena.specs.LentForgets.{all_without_dead, gone_of_all, pool_left};
ghost use Rattle.arena.specs.Locked.{latches_of, lent_by};

use crate::arena::Arena;
use crate::gate::Gate;
use crate::locks::{LockedShard, forget_all};
use latch::LatchGuard;
use pool::Pool;
use span::spans::Counted;

/// How many spans the pool and all shards have forgotten under their locks. Only this module makes
/// one.
#[derive(Drop)]
pub(crate) struct Forgotten {
    count: usize,
}

impl Forgotten {
    /// Has the pool and all shards forget, which their locks lend.
    pub(crate) fn by<G: Gate>(
        arena: &Arena<G, Counted>,
        pool: &mut LatchGuard<'_, Pool<Counted>>,
        shards: &mut [Option<LockedShard<'_, Counted>>],
    ) -> Forgotten
        requires pool { pool.old.latch.now ≡ arena.now.pool }
        requires lent { latches_of shards.old ≡ map Some arena.now.shards.items }
        ensures shards { lent_by shards.new ≡ all_without_dead (lent_by shards.old) }
        ensures pooled { pool.new.value.value ≡ pool_left pool.old.value.value }
        ensures count { result.count
            ≡ at_most_word (gone_of_all pool.old.value.value (lent_by shards.old)) }
    {
        // For the prover: whose latches these are.
        let _ = arena;
        let owned = forget_all(shards);
        Forgotten {
            count: owned.saturating_add(pool.value.forget()),
        }
    }

    /// How many spans these are.
    pub(crate) fn count(&self) -> usize
        ensures { result ≡ self.now.count }
    {
        self.count
    }
}
