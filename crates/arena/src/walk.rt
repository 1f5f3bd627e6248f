// A walk over the live keys of an arena, beside the threads that change them.
ghost use Rattle.std.specs.Prelude.{◌≡◌, ◌≤◌, IfOk, IfSome, None};
ghost use Rattle.arena.specs.KeyCalls.{FindsFirstIn, FindsFirstInPool};
ghost use Rattle.arena.specs.Walks.{HasGoneOn, IsAhead, walk_after};

use crate::arena::Arena;
use crate::calling::{CallsKeys, KeyCall};
use crate::gate::Gate;
use crate::nowhere::Nowhere;
use crate::patience::{Tries, Waits};
use latch::Busy;
use pool::Pool;
use shard::Shard;
use span::names::{Key, SpanId};
use span::spans::Log;
use std::sync::Wait;

/// Where a walk over the live keys of an arena stands: at this slot of the span that this shard
/// opened as its `serial`th. All keys before that are behind it. All zeros are the beginning.
///
/// Keys come by the ids of their spans, and then by slots, wherever the spans are by then. A walk
/// meets no key twice, and each key that is live from its beginning to its end; a key that is put
/// or freed meanwhile it may meet or not.
#[derive(Clone, Copy, PartialEq, Eq, Debug, Default)]
pub struct Walk {
    /// The shard that opened the span.
    pub shard: u32,
    /// How many spans that shard had opened before.
    pub serial: u32,
    /// The slot.
    pub slot: u32,
}

impl Walk {
    /// The next live key, behind which the walk then stands, or `None` if the walk has come to
    /// its end. It takes one lock at a time, of whoever has the span that it looks at, and no
    /// memory. A call looks at one span after another that was opened, up to the first that has a
    /// live slot.
    pub fn next<G: Gate, L: Log, R: Wait>(&mut self, rt: &R, arena: &Arena<G, L>) -> Option<Key>
        ensures ahead { IfSome result (IsAhead self.old) }
        ensures passed { IfSome result (λ key. self.new ≡ walk_after key) }
        ensures on { HasGoneOn self.old self.new }
    {
        let Ok(next) = self.next_within(&Waits { rt }, arena);
        next
    }

    /// What [`Walk::next`] does, if no other thread has a lock that it asks for.
    ///
    /// # Errors
    ///
    /// [`Busy`] if another thread has one. The walk then stands at the span in question, so that
    /// the next call goes on from there.
    pub fn try_next<G: Gate, L: Log>(&mut self, arena: &Arena<G, L>) -> Result<Option<Key>, Busy>
        ensures ahead { IfOk result (λ next. IfSome next (IsAhead self.old)) }
        ensures passed { IfOk result (λ next. IfSome next (λ key. self.new ≡ walk_after key)) }
        ensures on { HasGoneOn self.old self.new }
    {
        self.next_within(&Tries, arena)
    }

    // The same by this way to the locks, shard after shard.
    fn next_within<P: CallsKeys, G: Gate, L: Log>(
        &mut self,
        patience: &P,
        arena: &Arena<G, L>,
    ) -> Result<Option<Key>, P::Busy>
        ensures ahead { IfOk result (λ next. IfSome next (IsAhead self.old)) }
        ensures passed { IfOk result (λ next. IfSome next (λ key. self.new ≡ walk_after key)) }
        ensures on { HasGoneOn self.old self.new }
    {
        for shard in self.shard..arena.limits.shards() {
            if shard != self.shard {
                *self = Walk {
                    shard,
                    serial: 0,
                    slot: 0,
                };
            }
            let next = self.next_of_shard(patience, arena)?;
            if next.is_some() {
                return Ok(next);
            }
        }
        Ok(None)
    }

    // The next live key of the spans that the shard opened which the walk has come to.
    fn next_of_shard<P: CallsKeys, G: Gate, L: Log>(
        &mut self,
        patience: &P,
        arena: &Arena<G, L>,
    ) -> Result<Option<Key>, P::Busy>
        ensures ahead { IfOk result (λ next. IfSome next (IsAhead self.old)) }
        ensures passed { IfOk result (λ next. IfSome next (λ key. self.new ≡ walk_after key)) }
        ensures shard { self.new.shard ≡ self.old.shard }
        ensures on { HasGoneOn self.old self.new }
    {
        for serial in self.serial..arena.hints.opened_by(self.shard) {
            if serial != self.serial {
                *self = Walk {
                    shard: self.shard,
                    serial,
                    slot: 0,
                };
            }
            if let Some(key) = self.first_here(patience, arena)? {
                self.slot = u32::from(key.slot) + 1;
                return Ok(Some(key));
            }
        }
        Ok(None)
    }

    // The first live key of the span that the walk stands at, from its slot on.
    fn first_here<P: CallsKeys, G: Gate, L: Log>(
        &self,
        patience: &P,
        arena: &Arena<G, L>,
    ) -> Result<Option<Key>, P::Busy>
        ensures { IfOk result (λ first. IfSome first (λ key. (key.span.shard ≡ self.now.shard)
            × (key.span.serial ≡ self.now.serial) × (self.now.slot ≤ key.slot))) }
    {
        let Walk {
            shard,
            serial,
            slot,
        } = *self;
        let Some(id) = SpanId::new(shard, serial) else {
            return Ok(None);
        };
        patience.call(arena, &First { id, slot }, &mut [])
    }
}

// A look for the span's first live key at a slot from this one on.
#[derive(Drop)]
struct First {
    id: SpanId,
    slot: u32,
}

impl KeyCall<u128> for First {
    type Answer = Option<Key>;

    ghost id = { λ call. call.id };

    ghost in_shard_does = { λ call old before answer new after.
        FindsFirstIn call.id call.slot old answer new × (after ≡ before) };

    ghost in_pool_does = { λ call old before answer new after.
        FindsFirstInPool call.id call.slot old answer new × (after ≡ before) };

    ghost nowhere_is = { λ call first. first ≡ None };

    ghost does = { λ call _ first _. IfSome first
        (λ key. (key.span ≡ call.id) × (call.slot ≤ key.slot)) };

    fn span(&self) -> SpanId {
        self.id
    }

    fn in_shard<L: Log>(&self, shard: &mut Shard<L>, _room: &mut [u128]) -> Option<Option<Key>> {
        if !shard.has(self.id) {
            return None;
        }
        Some(shard.first_from(self.id, self.slot))
    }

    fn in_pool<L: Log>(&self, pool: &mut Pool<L>, _room: &mut [u128]) -> Option<Option<Key>> {
        if !pool.has(self.id) {
            return None;
        }
        Some(pool.first_from(self.id, self.slot))
    }

    fn nowhere(&self, _nowhere: Nowhere, _room: &mut [u128]) -> Option<Key> {
        None
    }
}
