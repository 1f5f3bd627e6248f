// Shards behind locks.
ghost use Rattle.std.specs.Prelude.{◌≡◌, ◌≢◌, ◌≤◌, Err, IfOk, IsErr, IsOk, IsSome, None, Ok, OnErr, OnOk, Some, is_some, map, vec_len};
ghost use Rattle.marks.specs.Plans.{next_pair};
ghost use Rattle.arena.specs.Locked.{latches_of};
ghost use Rattle.arena.specs.Seats.{IsTableOf};
ghost use Rattle.arena.specs.Stewards.{KeepsMark, Steps};

use crate::folding::Folding;
use crate::gate::Gate;
use crate::hints::{Hints, Place};
use crate::locks::{LockedShard, LockedShards, lock_all};
use crate::patience::{Patience, Tries, Waits};
use crate::ring_table::RingTable;
use crate::steward::{Marked, Steward};
use crate::totals::LockedTotals;
use certificate::Certificate;
use fold::Step;
use latch::{Busy, Latch};
use marks::{Limits, MarkError, Sight, Totals};
use mesh_graph::{AtHand, Runner};
use pool::Pool;
use shard::Shard;
use span::names::SpanId;
use span::spans::{Kept, Log};
use std::alloc::{AllocError, Global};
use std::sync::Wait;

/// Shards and the pool, each behind a lock of its own, with how many spans each shard has opened,
/// and hints of where these may be. The pool's lock is taken first, and then those of shards,
/// ascending.
#[derive(Drop)]
pub struct Arena<G: Gate, L: Log = Kept> {
    pub(crate) alloc: Global,
    /// The numbers of the arena, which its seats and its steward share.
    pub limits: Limits,
    /// The rings that its seats send and take by, which only contracts see.
    pub table: RingTable,
    pub(crate) pool: Latch<Pool<L>>,
    pub(crate) shards: Vec<Latch<Shard<L>>>,
    pub(crate) hints: Hints,
    pub(crate) gate: G,
    ghost shards_are: { vec_len shards ≡ limits.shards },
    ghost has_a_shard: { 1 ≤ vec_len shards },
    ghost rings_are: { IsTableOf limits.shards table },
}

/// What came of a step.
#[derive(Clone, Copy, PartialEq, Eq, Debug)]
pub enum Stepped {
    /// The pair that was next, its abandoned group first, and what came of it.
    Taken(SpanId, SpanId, Step),
    /// The open plan has no pair left.
    NoPairLeft,
    /// No plan is open.
    NoPlan,
}

impl<G: Gate, L: Log> Arena<G, L> {
    /// Makes a plan of as many folds as can be of what stands now, under all locks, hands it to the
    /// steward, and closes the groups that it folds onto. It gives what it saw, the plan, and the
    /// short set that shows it best. The runner fills the rows of its graph, in as many pieces as
    /// the arena has shards if it goes by pieces; the answer does not depend on it.
    ///
    /// # Errors
    ///
    /// As those of [`mark_in`] on what all locks lend: `PlanOpen`, `TooMany`, `Doubled`, and
    /// `OutOfMemory` where an allocation was refused. The plan of the steward is as it was. But for
    /// a steward that has a plan, when each comes the contract of `mark_in` says; no clause here
    /// can name what the locks guarded.
    pub fn mark<R: Wait, N: Runner>(
        &self,
        rt: &R,
        runner: &N,
        steward: &mut Steward,
    ) -> Result<Certificate, MarkError>
        // The steward is of this arena.
        requires of { steward.old.limits ≡ self.now.limits }

        // The runner may go on.
        requires runner { N.ready runner.now }

        // What shows the plan, and what the steward keeps.
        ensures keeps { KeepsMark steward.old result steward.new }
    {
        let Ok(marked) = self.mark_within(&Waits { rt }, runner, steward, Sight::All);
        marked.into_made()
    }

    /// A mark that sees of each side the 4,096 groups with the fewest live slots, or all where
    /// there are no more: what [`Arena::mark`] does with all groups it does with these.
    ///
    /// # Errors
    ///
    /// As those of [`mark_in`](marks::mark_in) on what all locks lend: `PlanOpen`, `Doubled`, and
    /// `OutOfMemory` where an allocation was refused. The plan of the steward is as it was.
    pub fn mark_some<R: Wait, N: Runner>(
        &self,
        rt: &R,
        runner: &N,
        steward: &mut Steward,
    ) -> Result<Certificate, MarkError>
        // The steward is of this arena.
        requires of { steward.old.limits ≡ self.now.limits }

        // The runner may go on.
        requires runner { N.ready runner.now }

        // What shows the plan, and what the steward keeps.
        ensures keeps { KeepsMark steward.old result steward.new }
        ensures too_many { result ≢ Err MarkError.TooMany }
    {
        let Ok(marked) = self.mark_within(&Waits { rt }, runner, steward, Sight::Sparsest);
        marked.into_made()
    }

    /// What [`Arena::mark`] does, where no other thread has a lock. The thread that asks fills the
    /// rows ([`AtHand`]).
    ///
    /// # Errors
    ///
    /// [`Busy`] where another thread has one. Else the mark, whose errors are those of
    /// [`Arena::mark`]. The plan of the steward is as it was, where the answer is [`Busy`] or an
    /// error.
    pub fn try_mark(&self, steward: &mut Steward) -> Result<Result<Certificate, MarkError>, Busy>
        requires { steward.old.limits ≡ self.now.limits }
        ensures keeps { IfOk result (λ made. KeepsMark steward.old made steward.new) }
        ensures plan_open { IsSome steward.old.plan → result ≡ Ok (Err MarkError.PlanOpen) }
        ensures busy { OnErr result (steward.new ≡ steward.old) }
    {
        let marked = self.mark_within(&Tries, &AtHand, steward, Sight::All)?;
        Ok(marked.into_made())
    }

    /// What [`Arena::mark_some`] does, where no other thread has a lock. The thread that asks fills
    /// the rows ([`AtHand`]).
    ///
    /// # Errors
    ///
    /// [`Busy`] where another thread has one. Else the mark, whose errors are those of
    /// [`Arena::mark_some`]. The plan of the steward is as it was, where the answer is [`Busy`] or
    /// an error.
    pub fn try_mark_some(
        &self,
        steward: &mut Steward,
    ) -> Result<Result<Certificate, MarkError>, Busy>
        requires { steward.old.limits ≡ self.now.limits }
        ensures keeps { IfOk result (λ made. KeepsMark steward.old made steward.new) }
        ensures plan_open { IsSome steward.old.plan → result ≡ Ok (Err MarkError.PlanOpen) }
        ensures too_many { result ≢ Ok (Err MarkError.TooMany) }
        ensures busy { OnErr result (steward.new ≡ steward.old) }
    {
        let marked = self.mark_within(&Tries, &AtHand, steward, Sight::Sparsest)?;
        Ok(marked.into_made())
    }

    // A mark of what is in sight.
    fn mark_within<P: Patience, N: Runner>(
        &self,
        patience: &P,
        runner: &N,
        steward: &mut Steward,
        sight: Sight,
    ) -> Result<Marked, P::Busy>
        requires of { steward.old.limits ≡ self.now.limits }
        requires runner { N.ready runner.now }
        ensures keeps { IfOk result (λ marked. KeepsMark steward.old marked.made steward.new) }
        ensures plan_open { IsSome steward.old.plan
            → (IsOk result × IfOk result (λ marked. marked.made ≡ Err MarkError.PlanOpen)) }
        ensures too_many { sight ≡ Sight.Sparsest
            → IfOk result (λ marked. marked.made ≢ Err MarkError.TooMany) }
        ensures busy { OnErr result (steward.new ≡ steward.old) }
    {
        if let Some(refusal) = steward.refusal() {
            return Ok(refusal);
        }
        let Ok(mut guards) = Vec::with_capacity(self.alloc, self.shards.len()) else {
            return self.why_no_mark(patience, sight);
        };
        let mut pool = patience.lock(&self.pool)?;
        for shard in &self.shards {
            guards.push_reserved(LockedShard::new(patience.lock(shard)?));
        }
        Ok(steward.mark(self, runner, sight, &mut pool, guards.as_mut_slice()))
    }

    /// Carries out the next pair of the steward's plan, under the pool's lock and that of the shard
    /// which has the pair's owned group.
    ///
    /// # Errors
    ///
    /// `AllocError` if an allocation was refused. The pair stays next.
    pub fn step<R: Wait>(&self, rt: &R, steward: &mut Steward) -> Result<Stepped, AllocError>
        requires { steward.old.limits ≡ self.now.limits }
        ensures limits { steward.new.limits ≡ steward.old.limits }
        ensures steps { IfOk result (λ stepped. Steps steward.old.plan stepped steward.new.plan) }
        ensures next { OnErr result (IsSome (next_pair steward.old.plan)) }
        ensures err { OnErr result (steward.new ≡ steward.old) }
    {
        let Ok(step) = self.step_within(&Waits { rt }, steward);
        step
    }

    /// What [`Arena::step`] does, if no other thread has a lock that it takes.
    ///
    /// # Errors
    ///
    /// [`Busy`] if another thread has one: the pair stays next. Else the step, whose error is
    /// that of [`Arena::step`].
    pub fn try_step(&self, steward: &mut Steward) -> Result<Result<Stepped, AllocError>, Busy>
        requires { steward.old.limits ≡ self.now.limits }
        ensures limits { steward.new.limits ≡ steward.old.limits }
        ensures steps { IfOk result (λ step. IfOk step
            (λ stepped. Steps steward.old.plan stepped steward.new.plan)) }
        ensures next { IfOk result (λ step. OnErr step (IsSome (next_pair steward.old.plan))) }
        ensures err { IfOk result (λ step. OnErr step (steward.new ≡ steward.old)) }
        ensures busy { OnErr result (steward.new ≡ steward.old) }
    {
        self.step_within(&Tries, steward)
    }

    // The next step of the steward's plan.
    fn step_within<P: Patience>(
        &self,
        patience: &P,
        steward: &mut Steward,
    ) -> Result<Result<Stepped, AllocError>, P::Busy>
        ensures limits { steward.new.limits ≡ steward.old.limits }
        ensures steps { IfOk result (λ step. IfOk step
            (λ stepped. Steps steward.old.plan stepped steward.new.plan)) }
        ensures next { IfOk result (λ step. OnErr step (IsSome (next_pair steward.old.plan))) }
        ensures err { IfOk result (λ step. OnErr step (steward.new ≡ steward.old)) }
        ensures busy { OnErr result (steward.new ≡ steward.old) }
    {
        if !steward.has_plan() {
            return Ok(Ok(Stepped::NoPlan));
        }
        let Some((abandoned, owned)) = steward.next() else {
            return Ok(Ok(Stepped::NoPairLeft));
        };
        match self.fold(patience, abandoned, owned)?.into_step() {
            Ok(step) => {
                steward.advance();
                Ok(Ok(Stepped::Taken(abandoned, owned, step)))
            }
            Err(refused) => Ok(Err(refused)),
        }
    }

    /// Ends the steward's plan, whatever of it is left, and opens all groups, under all locks. It
    /// answers whether a plan was open, and takes no memory.
    pub fn close<R: Wait>(&self, rt: &R, steward: &mut Steward) -> bool
        requires { steward.old.limits ≡ self.now.limits }
        ensures closed { result ≡ is_some steward.old.plan }
        ensures plan { steward.new ≡ record steward.old { plan = None } }
    {
        let Ok(closed) = self.close_within(&Waits { rt }, steward);
        closed
    }

    /// What [`Arena::close`] does, if no other thread has a lock.
    ///
    /// # Errors
    ///
    /// [`Busy`] if another thread has one. The plan is as it was then.
    pub fn try_close(&self, steward: &mut Steward) -> Result<bool, Busy>
        requires { steward.old.limits ≡ self.now.limits }
        ensures closed { IfOk result (λ closed. closed ≡ is_some steward.old.plan) }
        ensures plan { OnOk result (steward.new ≡ record steward.old { plan = None }) }
        ensures busy { OnErr result (steward.new ≡ steward.old) }
    {
        self.close_within(&Tries, steward)
    }

    // Ends the steward's plan, and opens all groups.
    fn close_within<P: Patience>(
        &self,
        patience: &P,
        steward: &mut Steward,
    ) -> Result<bool, P::Busy>
        ensures closed { IfOk result (λ closed. closed ≡ is_some steward.old.plan) }
        ensures plan { OnOk result (steward.new ≡ record steward.old { plan = None }) }
        ensures busy { OnErr result (steward.new ≡ steward.old) }
    {
        if !steward.has_plan() {
            return Ok(false);
        }
        let mut pool = patience.lock(&self.pool)?;
        let mut shards = self.lock_all(patience)?;
        steward.end(self, &mut pool, shards.as_mut_slice());
        Ok(true)
    }

    /// How many pages there are and how many keys are live, counted under all locks. It takes no
    /// memory. They are the sums of what `pages` and `live` of the pool and of each shard say, as a
    /// private contract says of what the locks lend; no clause here can name what they guarded.
    pub fn totals<R: Wait>(&self, rt: &R) -> Totals {
        let Ok(totals) = self.totals_within(&Waits { rt });
        totals.totals()
    }

    /// What [`Arena::totals`] counts, if no other thread has a lock.
    ///
    /// # Errors
    ///
    /// [`Busy`] if another thread has one.
    pub fn try_totals(&self) -> Result<Totals, Busy> {
        Ok(self.totals_within(&Tries)?.totals())
    }

    // Pages and live keys of the pool and of all shards.
    fn totals_within<P: Patience>(&self, patience: &P) -> Result<LockedTotals, P::Busy> {
        let pool = patience.lock(&self.pool)?;
        let shards = self.lock_all(patience)?;
        Ok(LockedTotals::of(self, &pool, shards.as_slice()))
    }

    // The locks of all shards.
    pub(crate) fn lock_all<P: Patience>(&self, patience: &P) -> Result<LockedShards<'_, L>, P::Busy>
        ensures lent { IfOk result (λ locked. latches_of locked.items
            ≡ map Some self.now.shards.items) }
    {
        // For the prover: there are 64 shards at most.
        let _ = self.limits.shards();
        lock_all(patience, &self.shards)
    }

    // Why no mark is made if there is no room for the guards of all locks: told under all locks,
    // without memory.
    fn why_no_mark<P: Patience>(&self, patience: &P, sight: Sight) -> Result<Marked, P::Busy>
        ensures too_many { sight ≡ Sight.Sparsest
            → IfOk result (λ marked. marked.made ≢ Err MarkError.TooMany) }
        ensures refused { IfOk result (λ marked. IsErr marked.made) }
    {
        let pool = patience.lock(&self.pool)?;
        let shards = self.lock_all(patience)?;
        Ok(Marked::without_memory(self, sight, &pool, shards.as_slice()))
    }

    // Folds the pair in the shard that has its owned group: the one that its hint names, or else
    // the first of all, under the locks of all. The pool's lock is held meanwhile, so no group
    // moves.
    fn fold<P: Patience>(
        &self,
        patience: &P,
        abandoned: SpanId,
        owned: SpanId,
    ) -> Result<Folding, P::Busy> {
        let mut pool = patience.lock(&self.pool)?;
        if let Place::Shard(number) = self.hints.place_of(owned) {
            if let Some(folding) = self.fold_at(patience, &mut *pool, number, abandoned, owned)? {
                return Ok(folding);
            }
        }
        let mut shards = self.lock_all(patience)?;
        Ok(self.fold_lent(&mut *pool, shards.as_mut_slice(), abandoned, owned))
    }
}
