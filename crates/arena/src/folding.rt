// Folds of pairs of a plan, each under the pool's lock and that of the shard which has the owned
// group.
ghost use Rattle.std.specs.Prelude.{◌≡◌, ◌↔◌, ◌<◌, ◌≤◌, All, IfOk, IfSome, IsTrue, MatchOption, None, OnErr, Some, length, map, slice_index_or};
ghost use Rattle.fold.specs.Folds.{MayFold, Steps};
ghost use Rattle.shard.specs.State.{ShardState};
ghost use Rattle.arena.specs.LentFolds.{MayFoldLent, StepsLent, StepsSomewhere};
ghost use Rattle.arena.specs.Locked.{HasGroup, latches_of, lent_by, shard_lent};
ghost use Rattle.span.specs.declared.limits.TheConstants.{MOST_SHARDS};

use crate::arena::Arena;
use crate::gate::Gate;
use crate::hints::Place;
use crate::locks::LockedShard;
use crate::patience::Patience;
use fold::{Step, fold_one};
use marks::LendsShard;
use pool::Pool;
use shard::Shard;
use span::names::SpanId;
use span::spans::Log;
use std::alloc::AllocError;

/// What came of a pair, or that memory was refused. Only this module makes one: in the shard that
/// has the owned group, or if all shards are lent and none has it.
#[derive(Drop)]
pub(crate) struct Folding {
    step: Result<Step, AllocError>,
}

impl Folding {
    pub(crate) fn into_step(self) -> Result<Step, AllocError>
        ensures { result ≡ self.step }
    {
        self.step
    }
}

impl<G: Gate, L: Log> Arena<G, L> {
    // Folds the pair in the shard of this number, if that has the owned group, and notes that the
    // spans that came are there.
    pub(crate) fn fold_at<P: Patience>(
        &self,
        patience: &P,
        pool: &mut Pool<L>,
        number: u32,
        abandoned: SpanId,
        owned: SpanId,
    ) -> Result<Option<Folding>, P::Busy>
        requires { number < MOST_SHARDS }
        ensures steps { IfOk result (λ made. MatchOption made (pool.new ≡ pool.old) (λ folding.
            IfOk folding.step (λ step. StepsSomewhere pool.old abandoned owned step pool.new))) }
        ensures may { IfOk result (λ made. IfSome made (λ folding. OnErr folding.step
            ((before : ShardState) × MayFold pool.old before abandoned owned))) }
        ensures err { IfOk result (λ made. IfSome made
            (λ folding. OnErr folding.step (pool.new ≡ pool.old))) }
        ensures busy { OnErr result (pool.new ≡ pool.old) }
    {
        let Some(latch) = self.shards.get(number as usize) else {
            return Ok(None);
        };
        let mut shard = patience.lock(latch)?;
        if !shard.has(owned) {
            return Ok(None);
        }
        Ok(Some(self.fold_onto(pool, &mut *shard, number, abandoned, owned)))
    }

    // Folds the pair in the shard that has the owned group, of all shards, which are lent. If none
    // has it, the pair is absent.
    pub(crate) fn fold_lent(
        &self,
        pool: &mut Pool<L>,
        shards: &mut [Option<LockedShard<'_, L>>],
        abandoned: SpanId,
        owned: SpanId,
    ) -> Folding
        requires few { length shards.old ≤ MOST_SHARDS }
        requires lent { latches_of shards.old ≡ map Some self.now.shards.items }
        ensures steps { IfOk result.step (λ step. StepsLent pool.old (lent_by shards.old)
            abandoned owned step pool.new (lent_by shards.new)) }
        ensures may { OnErr result.step
            (MayFoldLent pool.old (lent_by shards.old) abandoned owned) }
        ensures err { OnErr result.step ((pool.new ≡ pool.old)
            × (lent_by shards.new ≡ lent_by shards.old)) }
    {
        if let Some(number) = number_with(shards, owned) {
            if let Some(shard) = &mut shards[number] {
                let guard = &mut shard.guard;
                return self.fold_onto(pool, &mut *guard.value, number as u32, abandoned, owned);
            }
        }
        Folding {
            step: Ok(Step::Absent),
        }
    }

    // Folds the pair in the shard of this number, which has the owned group, and notes that the
    // spans that came are there.
    fn fold_onto(
        &self,
        pool: &mut Pool<L>,
        shard: &mut Shard<L>,
        number: u32,
        abandoned: SpanId,
        owned: SpanId,
    ) -> Folding
        requires number { number < MOST_SHARDS }
        ensures steps { IfOk result.step
            (λ step. Steps pool.old shard.old abandoned owned step pool.new shard.new) }
        ensures may { OnErr result.step (MayFold pool.old shard.old abandoned owned) }
        ensures err { OnErr result.step ((pool.new ≡ pool.old) × (shard.new ≡ shard.old)) }
    {
        let step = fold_one(pool, shard, abandoned, owned);
        if step.is_ok() {
            self.hints.note_group(shard, owned, Place::Shard(number));
        }
        Folding { step }
    }
}

/// The number of the first of these shards that has the span; none of them has it if there is none.
pub(crate) fn number_with<L: Log>(
    shards: &[Option<LockedShard<'_, L>>],
    owned: SpanId,
) -> Option<usize>
    ensures here { IfSome result (λ number. (number < length shards.now)
        × HasGroup owned (slice_index_or (lent_by shards.now) number None)) }
    ensures nowhere { result ≡ None → All (λ shard. HasGroup owned shard → ⊥) (lent_by shards.now) }
{
    for number in 0..shards.len() {
        if has(&shards[number], owned) {
            return Some(number);
        }
    }
    None
}

// Whether there is a shard that has the span.
fn has<L: Log>(shard: &Option<LockedShard<'_, L>>, owned: SpanId) -> bool
    ensures { IsTrue result ↔ HasGroup owned (shard_lent shard.now) }
{
    match shard {
        Some(shard) => shard.shard().has(owned),
        None => false,
    }
}
