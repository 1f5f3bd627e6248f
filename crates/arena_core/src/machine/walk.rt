// The walk over the live keys, by their spans and slots.
ghost use Rattle.std.specs.Prelude.{◌*◌, ◌+◌, ◌≡◌, ◌<◌, ◌≤◌, ℕ, MatchOption};
ghost use Rattle.span.specs.Order.{HasNoneBeyond, HasNoneFrom, IsFirstFrom, IsNextLive};
ghost use Rattle.span.specs.Ids.{rank};
ghost use Rattle.arena_core.specs.NextLive.{HasNoneIn, IsFirstFound, IsFirstStanding};
ghost use Rattle.arena_core.specs.State.{shown};
ghost use Rattle.span.specs.declared.limits.TheConstants.{ALL_IDS, MOST_SHARDS, MOST_SPANS};

use super::Core;
use groups::earlier;
use pool::Pool;
use shard::Shard;
use span::names::{Key, SpanId};
use span::spans::Log;

impl<L: Log> Core<L> {
    /// The live key that comes next after the given one, or the first one where none is given.
    /// `None` says that no live key is left.
    ///
    /// Keys come by the ids of their spans, and then by slots, wherever the spans are by now. The
    /// given key need not be live. So whoever begins with `None` and goes on after each key that is
    /// answered meets each live key once, and may free keys on the way.
    ///
    /// It takes no memory. A step looks at the later slots of the key's span, and then at the spans
    /// that were opened after it, up to the first that has a live slot, or to as many as there are
    /// groups; if none of these has one, it looks once at each span that there is. So it takes no
    /// longer for spans that were opened and are gone.
    pub fn next_live(&self, after: Option<Key>) -> Option<Key>
        ensures next { MatchOption result (HasNoneBeyond (shown self.now) after)
            (IsNextLive (shown self.now) after) }
    {
        let Some(Key { span, slot, .. }) = after else {
            return self.first_from(0, 0);
        };
        if let Some(key) = self.first_in_span(span, u32::from(slot) + 1) {
            return Some(key);
        }
        let SpanId { shard, serial } = span;
        self.first_from(shard, serial + 1)
    }

    // The first live key of the spans that the shard opened from this serial on, or that later
    // shards opened.
    fn first_from(&self, shard: u32, serial: u32) -> Option<Key>
        requires shard { shard < MOST_SHARDS }
        requires serial { serial ≤ MOST_SPANS }
        ensures { IsFirstFound (shown self.now) (MOST_SPANS * shard + serial) ALL_IDS result }
    {
        let end = self.end_of_near(shard, serial);
        if let Some(key) = self.first_in_spans(shard, serial, end) {
            return Some(key);
        }
        let Some(id) = id_at(shard, end) else {
            return None;
        };
        self.first_of_all(id)
    }

    // Up to which serial spans of the shard are looked at one by one: as many as there are groups,
    // since so many are looked at for the first of all.
    fn end_of_near(&self, shard: u32, serial: u32) -> u32
        requires { serial ≤ MOST_SPANS }
        ensures low { serial ≤ result }
        ensures high { result ≤ MOST_SPANS }
    {
        let opened = self.opened_by(shard);
        if opened <= serial {
            return serial;
        }
        let groups = self.group_count();
        if groups < (opened - serial) as usize {
            serial + groups as u32
        } else {
            opened
        }
    }

    // The first live key of the spans that the shard of this number opened from this serial on, up
    // to the other one.
    fn first_in_spans(&self, shard: u32, from: u32, end: u32) -> Option<Key>
        requires shard { shard < MOST_SHARDS }
        requires from { from ≤ end }
        requires end { end ≤ MOST_SPANS }
        ensures { IsFirstFound (shown self.now) (MOST_SPANS * shard + from)
            (MOST_SPANS * shard + end) result }
    {
        for serial in from..end {
            let Some(id) = SpanId::new(shard, serial) else {
                unreachable!();
            };
            if let Some(key) = self.first_in_span(id, 0) {
                return Some(key);
            }
        }
        None
    }

    // The first live key of the spans from this id on, of all that stand in a shard or in the pool.
    fn first_of_all(&self, from: SpanId) -> Option<Key>
        ensures { IsFirstFound (shown self.now) (rank from) ALL_IDS result }
    {
        first_standing(self.shards.as_slice(), &self.pool, from)
    }

    // How many spans the shard of this number has opened, which is none where there is no such
    // shard.
    fn opened_by(&self, shard: u32) -> u32
        ensures { result ≤ MOST_SPANS }
    {
        match self.shards.get(shard as usize) {
            Some(shard) => shard.opened(),
            None => 0,
        }
    }

    /// The first live key of the span at a slot from this one on, wherever the span is. It looks at
    /// the later slots of that span alone, and takes no memory.
    pub fn first_in_span(&self, id: SpanId, slot: u32) -> Option<Key>
        ensures { MatchOption result (HasNoneFrom (shown self.now) id slot)
            (IsFirstFrom (shown self.now) id slot) }
    {
        if let Some(key) = self.first_in_shard(id.shard as usize, id, slot) {
            return Some(key);
        }
        self.first_in_moved(id, slot)
    }

    // The same, where the shard that opened the span has no such key.
    fn first_in_moved(&self, id: SpanId, slot: u32) -> Option<Key>
        requires { HasNoneIn self.now.shards id.shard id slot }
        ensures { MatchOption result (HasNoneFrom (shown self.now) id slot)
            (IsFirstFrom (shown self.now) id slot) }
    {
        let Some(number) = self.whereabouts.shard_of(id) else {
            return self.first_in_pool(id, slot);
        };
        if let Some(key) = self.first_in_shard(number, id, slot) {
            return Some(key);
        }
        self.first_in_pool(id, slot)
    }

    // The same, where no shard has such a key.
    fn first_in_pool(&self, id: SpanId, slot: u32) -> Option<Key>
        requires { (number : ℕ) → HasNoneIn self.now.shards number id slot }
        ensures { MatchOption result (HasNoneFrom (shown self.now) id slot)
            (IsFirstFrom (shown self.now) id slot) }
    {
        self.pool.first_from(id, slot)
    }

    // The first such key in what the shard of this number has.
    fn first_in_shard(&self, number: usize, id: SpanId, slot: u32) -> Option<Key>
        ensures { MatchOption result (HasNoneIn self.now.shards number id slot)
            (IsFirstFrom (shown self.now) id slot) }
    {
        let Some(shard) = self.shards.get(number) else {
            return None;
        };
        shard.first_from(id, slot)
    }
}

// The id of this shard and serial, or where a shard opens no such span, the first of the next
// shard. After the last there is none.
fn id_at(shard: u32, serial: u32) -> Option<SpanId>
    requires shard { shard < MOST_SHARDS }
    requires serial { serial ≤ MOST_SPANS }
    ensures { MatchOption result (ALL_IDS ≤ MOST_SPANS * shard + serial)
        (λ id. rank id ≡ MOST_SPANS * shard + serial) }
{
    match SpanId::new(shard, serial) {
        Some(id) => Some(id),
        None => SpanId::new(shard + 1, 0),
    }
}

// The first live key of the spans from this id on, of these shards and the pool.
fn first_standing<L: Log>(shards: &[Shard<L>], pool: &Pool<L>, from: SpanId) -> Option<Key>
    ensures { IsFirstStanding shards.now pool.now (rank from) result }
{
    let mut first = pool.first_live(from);
    for shard in shards {
        first = earlier(first, shard.first_live(from));
    }
    first
}
