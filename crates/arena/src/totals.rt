// How many pages and live keys an arena has, counted at one time.
ghost use Rattle.std.specs.Prelude.{◌≡◌, Some, map};
ghost use Rattle.arena.specs.Amounts.{at_most_word, key_count, owned_keys, owned_pages, page_count, shard_keys, shard_pages};
ghost use Rattle.arena.specs.Locked.{latches_of, lent_by, shard_lent};

use crate::arena::Arena;
use crate::gate::Gate;
use crate::locks::LockedShard;
use latch::LatchGuard;
use marks::{LendsShard, Totals};
use pool::Pool;
use span::spans::Log;

/// What was counted under the locks of the pool and of all shards, so that no group is counted
/// twice or left out. Only this module makes one.
#[derive(Drop)]
pub(crate) struct LockedTotals {
    totals: Totals,
}

impl LockedTotals {
    /// Counts what the pool and all shards have, which their locks lend.
    pub(crate) fn of<G: Gate, L: Log>(
        arena: &Arena<G, L>,
        pool: &LatchGuard<'_, Pool<L>>,
        shards: &[Option<LockedShard<'_, L>>],
    ) -> LockedTotals
        requires pool { pool.now.latch.now ≡ arena.now.pool }
        requires lent { latches_of shards.now ≡ map Some arena.now.shards.items }
        ensures pages { result.totals.pages
            ≡ at_most_word (page_count pool.now.value.value (lent_by shards.now)) }
        ensures live { result.totals.live
            ≡ at_most_word (key_count pool.now.value.value (lent_by shards.now)) }
    {
        // For the prover: whose latches these are.
        let _ = arena;
        let owned = owned_totals(shards);
        LockedTotals {
            totals: Totals {
                pages: owned.pages.saturating_add(pool.value.pages()),
                live: owned.live.saturating_add(pool.value.live()),
            },
        }
    }

    /// The counts.
    pub(crate) fn totals(&self) -> Totals
        ensures { result ≡ self.now.totals }
    {
        self.totals
    }
}

/// How many pages the shards have together, and how many keys are live in them.
pub(crate) fn owned_totals<L: Log>(shards: &[Option<LockedShard<'_, L>>]) -> Totals
    ensures pages { result.pages ≡ at_most_word (owned_pages (lent_by shards.now)) }
    ensures live { result.live ≡ at_most_word (owned_keys (lent_by shards.now)) }
{
    let mut pages = 0usize;
    let mut live = 0usize;
    for shard in shards {
        let here = totals_of(shard);
        pages = pages.saturating_add(here.pages);
        live = live.saturating_add(here.live);
    }
    Totals { pages, live }
}

// What the shard has, if it is lent.
fn totals_of<L: Log>(shard: &Option<LockedShard<'_, L>>) -> Totals
    ensures pages { result.pages ≡ shard_pages (shard_lent shard.now) }
    ensures live { result.live ≡ shard_keys (shard_lent shard.now) }
{
    match shard {
        Some(locked) => Totals {
            pages: locked.shard().pages(),
            live: locked.shard().live(),
        },
        None => Totals { pages: 0, live: 0 },
    }
}
