// How many pages and live keys there are, as some groups tell.
ghost use Rattle.std.specs.Prelude.{◌≡◌, ◌<◌, ◌≤◌};
ghost use Rattle.arena_core.specs.Estimate.{IsEstimate, IsSampled, group_count};
ghost use Rattle.arena_core.specs.Sound.{IsSound};
ghost use Rattle.arena_core.specs.State.{live_keys, pages};
ghost use Rattle.shard.specs.Spaced as spaces;

use super::Core;
use marks::Totals;
use shard::gap_of;
use span::spans::Log;

impl<L: Log> Core<L> {
    /// About how many pages the shards and the pool have, and how many keys are live: exactly as
    /// many as [`Core::totals`] says if there are at most 4,096 groups. Of more it looks at one of
    /// each so many, of each shard by ascending head, so that it takes no longer.
    pub fn estimate(&self) -> Totals
        ensures few_pages { group_count self.now ≤ 4096 → result.pages ≡ pages self.now }
        ensures few_live { group_count self.now ≤ 4096 → result.live ≡ live_keys self.now }
        ensures many { 4096 < group_count self.now
            → IsEstimate (spaces.gap_of (group_count self.now)) self.now result }
        ensures sound { IsSound self.now }
    {
        let count = self.group_count();
        let gap = gap_of(count);
        if gap == 0 {
            return self.totals();
        }
        self.estimate_by(gap)
    }

    // What is to be expected by one group after each `gap` others.
    fn estimate_by(&self, gap: u32) -> Totals
        ensures { IsEstimate gap self.now result }
    {
        let looked_at = self.sample(gap);
        let each = gap as usize + 1;
        Totals {
            pages: looked_at.pages.saturating_mul(each),
            live: looked_at.live.saturating_mul(each),
        }
    }

    // What the first group of each shard and of the pool has, and one after each `gap` others.
    fn sample(&self, gap: u32) -> Totals
        ensures { IsSampled gap self.now result }
    {
        let pooled = self.pool.sample(gap);
        let mut totals = Totals {
            pages: pooled.pages,
            live: pooled.live,
        };
        for shard in self.shards.iter() {
            let owned = shard.sample(gap);
            totals.pages += owned.pages;
            totals.live += owned.live;
        }
        totals
    }

    // How many groups there are, of shards and of the pool.
    pub(super) fn group_count(&self) -> usize
        ensures count { result ≡ group_count self.now }
        ensures sound { IsSound self.now }
    {
        let mut count = self.pool.len();
        for shard in self.shards.iter() {
            count += shard.len();
        }
        count
    }
}
