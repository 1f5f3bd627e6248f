// What some groups of the pool have, which stand for all.
ghost use Rattle.std.specs.Prelude.{◌*◌, ◌≤◌, length};
ghost use Rattle.bitmap.specs.declared.bits.TheConstants.{SLOTS};
ghost use Rattle.pool.specs.Samples.{Samples};
ghost use Rattle.span.specs.declared.limits.TheConstants.{ALL_IDS};

use super::Pool;
use shard::Sample;
use span::spans::Log;

impl<L: Log> Pool<L> {
    /// What a group has together with one after each `gap` others, as they stand here, which is in
    /// no order that a caller knows. It reads no other group.
    pub fn sample(&self, gap: u32) -> Sample
        ensures samples { Samples gap self.now.groups result }
        ensures few { result.pages ≤ length self.now.groups }
        ensures few_live { result.live ≤ SLOTS * length self.now.groups }
        ensures groups { length self.now.groups ≤ ALL_IDS }
    {
        match &self.stock {
            Some(stock) => stock.sample(gap),
            None => Sample { pages: 0, live: 0 },
        }
    }
}
