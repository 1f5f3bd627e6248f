// Values that lend a shard.
ghost use Rattle.std.specs.Prelude.{◌≡◌};
ghost use Rattle.shard.specs.Closes.{Closes};
ghost use Rattle.shard.specs.Sound.{IsSound};
ghost use Rattle.shard.specs.State.{ShardState};

use shard::Shard;
use span::names::SpanId;
use span::spans::Log;

/// A value that lends a shard: the shard itself, or, as in `arena`, the guard of a lock that holds
/// one. A mark of shards behind locks is so the same code as one of shards alone.
pub trait LendsShard {
    /// How the spans of the shard keep their logs.
    type Log: Log;

    /// The shard that is lent.
    ghost lent: { Self → ShardState };

    /// The shard, to look at.
    fn shard(&self) -> &Shard<Self::Log>
        ensures { result.now ≡ lent self.now };

    /// Closes the group of the head where it has a page, and says whether the shard has such a
    /// group, as [`Shard::close`] does. It takes no memory.
    fn close(&mut self, head: SpanId) -> bool
        ensures closes { Closes (lent self.old) head result (lent self.new) }
        ensures sound { IsSound (lent self.new) };
}

impl<L: Log> LendsShard for Shard<L> {
    type Log = L;

    ghost lent = { λ shard. shard };

    #[inline]
    fn shard(&self) -> &Shard<L> {
        self
    }

    #[inline]
    fn close(&mut self, head: SpanId) -> bool {
        Shard::close(self, head)
    }
}
