// Who keeps the open plan.
ghost use Rattle.std.specs.Prelude.{◌≡◌, ◌≢◌, ◌↔◌, Err, IfOk, IsErr, IsSome, IsTrue, MatchOption, None, OnErr, Some, false, is_some, map, option_map, true};
ghost use Rattle.arena.specs.Locked.{all_lent_by, latches_of, lent_by, those_lent};
ghost use Rattle.arena.specs.Stewards.{KeepsMark, new_steward, with_pair_done};
ghost use Rattle.marks.specs.Closings.{reopened};
ghost use Rattle.marks.specs.Opening.{IsRefused, Marks};
ghost use Rattle.marks.specs.Plans.{next_pair};
ghost use Rattle.marks.specs.Seen.{AreTooMany};

use crate::arena::Arena;
use crate::gate::Gate;
use crate::locks::{LockedShard, reopen_all};
use crate::totals::owned_totals;
use certificate::Certificate;
use latch::LatchGuard;
use marks::{CurrentPlan, Limits, MarkError, Sight, mark_in};
use mesh_graph::{MOST_GROUPS, Runner};
use pool::Pool;
use span::names::SpanId;
use span::spans::Log;
use std::alloc::{AllocError, Global};
use std::marker::Model;

/// What a mark answers. Only this module makes one: under the locks of the pool and of all shards,
/// or if the steward has a plan.
#[derive(Drop)]
pub(crate) struct Marked {
    made: Result<Certificate, MarkError>,
}

impl Marked {
    pub(crate) fn into_made(self) -> Result<Certificate, MarkError>
        ensures { result ≡ self.made }
    {
        self.made
    }

    // Why no mark is made if there is no memory for a list of the guards of all locks, of the pool
    // and of all shards, which are lent: the first of the causes that need no memory, or that.
    pub(crate) fn without_memory<G: Gate, L: Log>(
        arena: &Arena<G, L>,
        sight: Sight,
        pool: &LatchGuard<'_, Pool<L>>,
        shards: &[Option<LockedShard<'_, L>>],
    ) -> Marked
        requires pool { pool.now.latch.now ≡ arena.now.pool }
        requires lent { latches_of shards.now ≡ map Some arena.now.shards.items }
        ensures plan_open { (result.made ≡ Err MarkError.PlanOpen)
            ↔ (pool.now.value.value.has_plan ≡ true) }
        ensures too_many { (result.made ≡ Err MarkError.TooMany) ↔ IsRefused sight
            pool.now.value.value (those_lent (lent_by shards.now)) MarkError.TooMany }
        ensures doubled { result.made ≢ Err MarkError.Doubled }
        ensures refused { IsErr result.made }
    {
        // For the prover: whose latches these are.
        let _ = arena;
        let has_too_many = has_too_many(&pool.value, shards);
        let error = match sight {
            _ if pool.value.has_plan() => MarkError::PlanOpen,
            Sight::All if has_too_many => MarkError::TooMany,
            Sight::All | Sight::Sparsest => MarkError::OutOfMemory,
        };
        Marked { made: Err(error) }
    }
}

/// The keeper of an arena's open plan of folds, in room for 4,096 pairs that is made with the
/// arena. It is lent to each mark, step and close, so that no two of these meet.
#[derive(Drop)]
pub struct Steward {
    pub(crate) limits: Limits,
    // Only this module begins it, and ends it: under the locks of the pool and of all shards.
    plan: CurrentPlan,
}

impl Model for Steward {
    ghost use Rattle.arena.specs.Stewards.{StewardState};

    ghost Value = { StewardState };

    ghost view = { λ steward. record { limits = steward.limits; plan = steward.plan } };
}

impl Steward {
    // The steward of an arena of these numbers, with no plan.
    pub(crate) fn new(alloc: Global, limits: Limits) -> Result<Steward, AllocError>
        ensures { IfOk result (λ steward. steward ≡ new_steward limits) }
    {
        Ok(Steward {
            limits,
            plan: CurrentPlan::new(alloc)?,
        })
    }

    /// Whether its numbers are those of the arena, as each call asks that is lent both.
    pub fn fits<G: Gate, L: Log>(&self, arena: &Arena<G, L>) -> bool
        ensures { IsTrue result ↔ (self.now.limits ≡ arena.now.limits) }
    {
        self.limits == arena.limits
    }

    // Whether it has a plan.
    pub(crate) fn has_plan(&self) -> bool
        ensures { result ≡ is_some self.now.plan }
    {
        self.plan.is_open()
    }

    // What a mark answers if it has a plan.
    pub(crate) fn refusal(&self) -> Option<Marked>
        ensures { MatchOption result (self.now.plan ≡ None)
            (λ marked. IsSome self.now.plan × (marked.made ≡ Err MarkError.PlanOpen)) }
    {
        if !self.plan.is_open() {
            return None;
        }
        Some(Marked {
            made: Err(MarkError::PlanOpen),
        })
    }

    // The pair that comes next, if there is one.
    pub(crate) fn next(&self) -> Option<(SpanId, SpanId)>
        ensures { result ≡ next_pair self.now.plan }
    {
        self.plan.next()
    }

    // Goes on to the pair after the next one.
    pub(crate) fn advance(&mut self)
        requires { IsSome (next_pair self.old.plan) }
        ensures { self.new ≡ with_pair_done self.old }
    {
        self.plan.advance();
    }

    // A mark of what is in sight of the pool and of all shards, which are lent, if it has no plan.
    // It keeps the plan. No other call begins one.
    pub(crate) fn mark<G: Gate, L: Log, N: Runner>(
        &mut self,
        arena: &Arena<G, L>,
        runner: &N,
        sight: Sight,
        pool: &mut LatchGuard<'_, Pool<L>>,
        shards: &mut [LockedShard<'_, L>],
    ) -> Marked
        requires none { self.old.plan ≡ None }
        requires pool { pool.old.latch.now ≡ arena.now.pool }
        requires lent { map (λ shard. shard.guard.latch.now) shards.old ≡ arena.now.shards.items }
        requires runner { N.ready runner.now }
        // What it does with all that is lent, or why it does not.
        ensures exact { Marks sight pool.old.value.value (all_lent_by shards.old) result.made
            pool.new.value.value (all_lent_by shards.new) }
        ensures err_shards { OnErr result.made (shards.new ≡ shards.old) }
        // What the steward keeps of it.
        ensures keeps { KeepsMark self.old result.made self.new }
    {
        let made = mark_in(runner, arena.alloc, sight, &mut *pool.value, shards);
        if let Ok(found) = &made {
            self.plan.begin(found.plan.pairs());
        }
        Marked { made }
    }

    // Ends the plan, and opens all groups of all shards. These and the pool are lent.
    pub(crate) fn end<G: Gate, L: Log>(
        &mut self,
        arena: &Arena<G, L>,
        pool: &mut LatchGuard<'_, Pool<L>>,
        shards: &mut [Option<LockedShard<'_, L>>],
    )
        requires pool { pool.old.latch.now ≡ arena.now.pool }
        requires lent { latches_of shards.old ≡ map Some arena.now.shards.items }
        ensures plan { self.new ≡ record self.old { plan = None } }
        ensures closed { pool.new.value.value ≡ record pool.old.value.value { has_plan = false } }
        ensures open { lent_by shards.new ≡ map (option_map reopened) (lent_by shards.old) }
    {
        reopen_all(shards);
        pool.value.plan_closed();
        self.plan.end();
    }
}

// Whether a side has more groups with a page than a plan may have. It takes no memory.
fn has_too_many<L: Log>(pool: &Pool<L>, shards: &[Option<LockedShard<'_, L>>]) -> bool
    ensures { IsTrue result ↔ AreTooMany pool.now (those_lent (lent_by shards.now)) }
{
    pool.pages() > MOST_GROUPS || owned_totals(shards).pages > MOST_GROUPS
}
