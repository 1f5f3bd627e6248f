// The walk over the live keys, from span to span, and which groups a walk passes by.
ghost use Rattle.std.specs.Prelude.{◌≡◌, ◌<◌, ◌≤◌, MatchOption, Some, length, slice_get};
ghost use Rattle.std.specs.FinSet as set;
ghost use Rattle.span.specs.FirstLive.{HasNoneBetween, IsFirstLive};
ghost use Rattle.span.specs.Ids.{rank};
ghost use Rattle.span.specs.declared.limits.TheConstants.{ALL_IDS};
ghost use Rattle.groups.specs.FirstLive.{IsFirstAmong};
ghost use Rattle.groups.specs.Group.{occupied, spans_in};
ghost use Rattle.shard.specs.Group.{GroupState};
ghost use Rattle.shard.specs.Shown.{shown};
ghost use Rattle.shard.specs.Sound.{IsSound};

use super::Shard;
use crate::group_row::GroupRow;
use groups::{earlier, least_of};
use span::names::{Key, SpanId};
use span::spans::Log;

impl<L: Log> Shard<L> {
    /// The first live key here of the spans from this id on, by ids and then by slots. It looks at
    /// each span once, and takes no memory.
    pub fn first_live(&self, from: SpanId) -> Option<Key>
        ensures first { MatchOption result (HasNoneBetween (shown self.now) (rank from) ALL_IDS)
            (IsFirstLive (shown self.now) (rank from)) }
        ensures sound { IsSound self.now }
    {
        first_live(&self.groups, from)
    }

    /// At least so many slots are live in the group at the index, by ascending head. It reads no
    /// group. 0 says nothing: a closed group has it, and one that came, took spans in or lost a key
    /// since it was noted last. The clause allows any lower number as well.
    #[inline]
    pub fn least_live(&self, index: usize) -> usize
        requires { index < length self.now.groups }
        ensures { (group : GroupState) → slice_get self.now.groups index ≡ Some group
            → result ≤ set.len (occupied group) }
    {
        least_of(self.least[index])
    }
}

// The first live key of these groups.
fn first_live<L: Log>(groups: &GroupRow<L>, from: SpanId) -> Option<Key>
    ensures { IsFirstAmong (spans_in groups.now.items) (rank from) result }
{
    let mut first = None;
    for index in 0..groups.len() {
        first = earlier(first, groups[index].spans().first_live(from));
    }
    first
}
