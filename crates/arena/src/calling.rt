// A call on a key, made under the lock of whoever has the key's span.
ghost use Rattle.std.specs.Prelude.{◌≡◌, IfOk, List, MatchOption, None, OnErr, Option};
ghost use Rattle.arena.specs.KeyCalls.{IsAnswered, IsAnsweredIfThere};
ghost use Rattle.groups.specs.Group.{IsElsewhere};
ghost use Rattle.pool.specs.State.{PoolState};
ghost use Rattle.shard.specs.State.{ShardState};
ghost use Rattle.span.specs.declared.id.SpanId.{SpanId};

use crate::arena::Arena;
use crate::gate::Gate;
use crate::hints::Place;
use crate::nowhere::{Hinted, Nowhere};
use crate::patience::{Patience, Tries, Waits};
use latch::{Ask, Busy};
use pool::Pool;
use shard::Shard;
use span::names::SpanId;
use span::spans::Log;
use std::convert::Infallible;
use std::sync::Wait;
use std::thread::yield_now;

// How often a call follows a span that moves, before it answers that it is busy.
const MOST_MOVES: u32 = 8;

/// A call on a key. `W` is what it may write into a room of the caller's.
///
/// Its caller knows nothing of its answer, so that this is the answer of a shard or of the pool, or
/// that of a span which is known to be nowhere.
pub(crate) trait KeyCall<W> {
    /// What it answers.
    type Answer;

    /// The span of the key.
    ghost id: { Self → SpanId };

    /// What it does in a shard, by the shard and what the room has before, and by both after.
    ghost in_shard_does: { Self → ShardState → List W → Option Self.Answer → ShardState → List W
        → Type 0 };

    /// What it does in the pool, likewise.
    ghost in_pool_does: { Self → PoolState → List W → Option Self.Answer → PoolState → List W
        → Type 0 };

    /// What it answers if its span is nowhere.
    ghost nowhere_is: { Self → Self.Answer → Type 0 };

    /// What it does wherever its span is, by what the room has before and after.
    ghost does: { Self → List W → Self.Answer → List W → Type 0 };

    /// The span of the key.
    fn span(&self) -> SpanId
        ensures { result ≡ id self.now };

    /// Makes the call in the shard; nothing, and `None`, only if the shard does not have the span.
    fn in_shard<L: Log>(&self, shard: &mut Shard<L>, room: &mut [W]) -> Option<Self::Answer>
        ensures shard { in_shard_does self.now shard.old room.old result shard.new room.new }
        ensures does { MatchOption result (room.new ≡ room.old)
            (λ answer. does self.now room.old answer room.new) }
        ensures elsewhere { result ≡ None → IsElsewhere shard.old.groups (id self.now) };

    /// Makes the call in the pool; nothing, and `None`, only if the pool does not have the span.
    fn in_pool<L: Log>(&self, pool: &mut Pool<L>, room: &mut [W]) -> Option<Self::Answer>
        ensures pool { in_pool_does self.now pool.old room.old result pool.new room.new }
        ensures does { MatchOption result (room.new ≡ room.old)
            (λ answer. does self.now room.old answer room.new) }
        ensures elsewhere { result ≡ None → IsElsewhere pool.old.groups (id self.now) };

    /// What it answers if its span is nowhere.
    fn nowhere(&self, nowhere: Nowhere, room: &mut [W]) -> Self::Answer
        requires { nowhere.id ≡ id self.now }
        ensures nowhere { nowhere_is self.now result }
        ensures room { room.new ≡ room.old }
        ensures does { does self.now room.old result room.new };
}

// A call in the shard of this number, past the gate, where its latch keeps it.
#[derive(Drop)]
struct InShard<'a, G: Gate, C> {
    gate: &'a G,
    number: u32,
    call: &'a C,
}

impl<L: Log, G: Gate, W, C: KeyCall<W>> Ask<Shard<L>, W> for InShard<'_, G, C> {
    type Answer = Option<C::Answer>;

    ghost does = { λ asked old before answer new after.
        C.in_shard_does asked.call.now old before answer new after
        × MatchOption answer (after ≡ before)
        (λ answer. C.does asked.call.now before answer after) };

    #[inline(always)]
    fn ask(&self, shard: &mut Shard<L>, room: &mut [W]) -> Option<C::Answer> {
        self.gate.inside(self.number);
        self.call.in_shard(shard, room)
    }
}

impl<G: Gate, L: Log> Arena<G, L> {
    /// Makes the call wherever its span is. The first try is inlined into whoever calls it. The
    /// others, for a span that is not where its hint says, are kept out of its way.
    ///
    /// # Errors
    ///
    /// Busy, if another thread has the lock of the place that the hint names; if the span is not
    /// there, that of the pool, or that of a shard and nobody else has the span; or if the span
    /// moved each time.
    #[inline(always)]
    pub(crate) fn try_call<W, C: KeyCall<W>>(
        &self,
        call: &C,
        room: &mut [W],
    ) -> Result<C::Answer, Busy>
        ensures answered { IfOk result (λ answer. IsAnswered (C.in_shard_does call.now)
            (C.in_pool_does call.now) (C.nowhere_is call.now) room.old answer room.new) }
        ensures does { IfOk result (λ answer. C.does call.now room.old answer room.new) }
        ensures busy { OnErr result (room.new ≡ room.old) }
    {
        match self.call_at_hint(call, room)? {
            Some(answer) => Ok(answer),
            None => self.try_call_again(call, room),
        }
    }

    // The same, if the span was not where its hint said.
    #[inline(never)]
    fn try_call_again<W, C: KeyCall<W>>(&self, call: &C, room: &mut [W]) -> Result<C::Answer, Busy>
        ensures answered { IfOk result (λ answer. IsAnswered (C.in_shard_does call.now)
            (C.in_pool_does call.now) (C.nowhere_is call.now) room.old answer room.new) }
        ensures does { IfOk result (λ answer. C.does call.now room.old answer room.new) }
        ensures busy { OnErr result (room.new ≡ room.old) }
    {
        for _ in 1..MOST_MOVES {
            if let Some(nowhere) = self.locate(call.span())? {
                return Ok(call.nowhere(nowhere, room));
            }
            if let Some(answer) = self.call_at_hint(call, room)? {
                return Ok(answer);
            }
        }
        Err(Busy)
    }

    // Makes the call where the hint of its span says, if the span is there.
    #[inline(always)]
    fn call_at_hint<W, C: KeyCall<W>>(
        &self,
        call: &C,
        room: &mut [W],
    ) -> Result<Option<C::Answer>, Busy>
        ensures answered { IfOk result (λ made. IsAnsweredIfThere (C.in_shard_does call.now)
            (C.in_pool_does call.now) (C.nowhere_is call.now) room.old made room.new) }
        ensures does { IfOk result (λ answered. MatchOption answered (room.new ≡ room.old)
            (λ answer. C.does call.now room.old answer room.new)) }
        ensures busy { OnErr result (room.new ≡ room.old) }
    {
        match Hinted::at(call.span(), &self.hints) {
            Hinted::Nowhere(nowhere) => Ok(Some(call.nowhere(nowhere, room))),
            Hinted::Pool => self.call_pooled(call, room),
            Hinted::Shard(number) => {
                let Some(latch) = self.shards.get(number as usize) else {
                    return Ok(None);
                };
                let gate = &self.gate;
                latch.try_ask(&InShard { gate, number, call }, room)
            }
        }
    }

    // Makes the call in the pool, if the span is there.
    #[inline(never)]
    fn call_pooled<W, C: KeyCall<W>>(
        &self,
        call: &C,
        room: &mut [W],
    ) -> Result<Option<C::Answer>, Busy>
        ensures answered { IfOk result (λ made. IsAnsweredIfThere (C.in_shard_does call.now)
            (C.in_pool_does call.now) (C.nowhere_is call.now) room.old made room.new) }
        ensures does { IfOk result (λ answered. MatchOption answered (room.new ≡ room.old)
            (λ answer. C.does call.now room.old answer room.new)) }
        ensures busy { OnErr result (room.new ≡ room.old) }
    {
        let mut pool = self.pool.try_lock()?;
        Ok(call.in_pool(&mut *pool, room))
    }

    /// The same for the session of this worker, whose shard does not have the span and is out of
    /// its lock: once, since what that shard let go is in the pool first, and to ask all would meet
    /// that lock.
    ///
    /// # Errors
    ///
    /// Busy, if another thread has the lock of the place that may have the span, or the span is not
    /// there.
    #[inline(never)]
    pub(crate) fn try_call_beside<W, C: KeyCall<W>>(
        &self,
        worker: u32,
        call: &C,
        room: &mut [W],
    ) -> Result<C::Answer, Busy>
        ensures answered { IfOk result (λ answer. IsAnswered (C.in_shard_does call.now)
            (C.in_pool_does call.now) (C.nowhere_is call.now) room.old answer room.new) }
        ensures does { IfOk result (λ answer. C.does call.now room.old answer room.new) }
        ensures busy { OnErr result (room.new ≡ room.old) }
    {
        let answered = if self.hints.place_of(call.span()) == Place::Shard(worker) {
            self.call_pooled(call, room)?
        } else {
            self.call_at_hint(call, room)?
        };
        answered.ok_or(Busy)
    }
}

/// How a call on a key comes to its locks.
pub(crate) trait CallsKeys: Patience {
    /// Makes the call wherever its span is, as [`Arena::try_call`] does. Who waits makes it again.
    fn call<G: Gate, L: Log, W, C: KeyCall<W>>(
        &self,
        arena: &Arena<G, L>,
        call: &C,
        room: &mut [W],
    ) -> Result<C::Answer, Self::Busy>
        ensures answered { IfOk result (λ answer. IsAnswered (C.in_shard_does call.now)
            (C.in_pool_does call.now) (C.nowhere_is call.now) room.old answer room.new) }
        ensures does { IfOk result (λ answer. C.does call.now room.old answer room.new) }
        ensures busy { OnErr result (room.new ≡ room.old) };
}

impl<R: Wait> CallsKeys for Waits<'_, R> {
    fn call<G: Gate, L: Log, W, C: KeyCall<W>>(
        &self,
        arena: &Arena<G, L>,
        call: &C,
        room: &mut [W],
    ) -> Result<C::Answer, Infallible> {
        for _ in self.rt.forever() {
            if let Ok(answer) = arena.try_call(call, room) {
                return Ok(answer);
            }
            yield_now();
        }
        unreachable!()
    }
}

impl CallsKeys for Tries {
    #[inline(always)]
    fn call<G: Gate, L: Log, W, C: KeyCall<W>>(
        &self,
        arena: &Arena<G, L>,
        call: &C,
        room: &mut [W],
    ) -> Result<C::Answer, Busy> {
        arena.try_call(call, room)
    }
}
