// Marks, the steps of their plans, and closes.
ghost use Rattle.std.specs.Prelude.{◌≡◌, ◌<◌, ℕ, IsSome, MatchOption, is_some, length};
ghost use Rattle.pool.specs.State.{PooledState};
ghost use Rattle.shard.specs.Group.{GroupState};
ghost use Rattle.groups.specs.Group.{IsHeadOf, spans_of};
ghost use Rattle.shard.specs.Sound.{IsSound as IsSoundShard};
ghost use Rattle.arena_core.specs.Calls.{CoreCall, StepCall};
ghost use Rattle.arena_core.specs.Moved.{StandsIn};
ghost use Rattle.arena_core.specs.Plan.{IsNext};
ghost use Rattle.arena_core.specs.Sound.{IsSound};
ghost use Rattle.marks.specs.Plans.{OpenPlan};
ghost use Rattle.arena_core.specs.State.{shown};
ghost use Rattle.arena_core.specs.Step.{CoreStep, MayMark};
ghost use Rattle.arena_core.specs.declared.event.Event.TheVariants as event;
ghost use Rattle.arena_core.specs.declared.reply.Reply.TheVariants as reply;

use super::Core;
use crate::late_plan::LatePlan;
use crate::reply::{Refusal, Reply, mark_refusal};
use certificate::Certificate;
use fold::{Step, fold_one};
use marks::{Sight, has_too_many, mark_in, reopen_all};
use mesh_graph::Runner;
use pool::Pool;
use shard::Shard;
use span::names::SpanId;
use span::spans::Log;
use std::alloc::{AllocError, Global};

impl<L: Log> Core<L> {
    /// Whether a plan of folds is open.
    pub fn has_plan(&self) -> bool
        ensures open { result ≡ is_some self.now.plan }
        ensures sound { IsSound self.now }
    {
        self.plan.is_open()
    }

    /// Why a mark of all groups would be refused now, whatever memory there is, or `None` if it
    /// would not be. A caller that needs memory of its own for a mark asks that first.
    pub fn mark_refusal(&self) -> Option<Refusal>
        ensures why { MatchOption result (MayMark self.now)
            (λ refusal. CoreStep self.now event.Mark (reply.Refused refusal) self.now) }
        ensures sound { IsSound self.now }
    {
        if self.plan.is_open() {
            return Some(Refusal::PlanOpen);
        }
        if has_too_many(&self.pool, &self.shards) {
            return Some(Refusal::TooMany);
        }
        None
    }

    /// The allocator of its memory. No clause says which: the type has one value alone.
    pub fn alloc(&self) -> Global {
        self.alloc
    }

    // Makes a plan of as many folds as can be of what stands now, opens it, and closes the groups
    // that it folds onto. The runner fills the rows of its graph.
    pub(super) fn mark<R: Runner>(&mut self, runner: &R) -> Result<Certificate, Refusal>
        requires { R.ready runner.now }
        ensures exact { CoreCall self.old event.Mark reply.Marked result self.new }
        ensures same { shown self.new ≡ shown self.old }
        ensures sound { IsSound self.new }
    {
        if self.plan.is_open() {
            return Err(Refusal::PlanOpen);
        }
        if has_too_many(&self.pool, &self.shards) {
            return Err(Refusal::TooMany);
        }
        self.mark_some(runner)
    }

    // The same of the groups of each side with the fewest live slots. The plan is made before
    // anything changes.
    pub(super) fn mark_some<R: Runner>(&mut self, runner: &R) -> Result<Certificate, Refusal>
        requires { R.ready runner.now }
        ensures exact { CoreCall self.old event.MarkSome reply.Marked result self.new }
        ensures same { shown self.new ≡ shown self.old }
        ensures sound { IsSound self.new }
    {
        if self.plan.is_open() {
            return Err(Refusal::PlanOpen);
        }
        let mut plan = LatePlan::room(self.alloc)?;
        let certificate = match mark_in(
            runner,
            self.alloc,
            Sight::Sparsest,
            &mut self.pool,
            &mut self.shards,
        ) {
            Ok(certificate) => certificate,
            Err(error) => return Err(mark_refusal(error)),
        };
        plan.begin(certificate.plan.pairs());
        self.plan.open(plan);
        Ok(certificate)
    }

    // Carries out the next pair of the open plan.
    pub(super) fn take_step(&mut self) -> Reply
        ensures exact { CoreStep self.old event.Step result self.new }
        ensures same { shown self.new ≡ shown self.old }
        ensures sound { IsSound self.new }
    {
        if !self.plan.is_open() {
            return Reply::NoPlan;
        }
        let Some((abandoned, owned)) = self.plan.next() else {
            return Reply::NoPairLeft;
        };
        let number = self.number_of(owned);
        match self.fold_next(number, abandoned, owned) {
            Ok(step) => Reply::Stepped(abandoned, owned, step),
            Err(_) => Reply::Refused(Refusal::OutOfMemory),
        }
    }

    // The number of the shard that has the span.
    fn number_of(&self, id: SpanId) -> usize
        requires { (number : ℕ) × StandsIn self.now.shards id number }
        ensures { StandsIn self.now.shards id result }
    {
        let home = id.shard as usize;
        if self.shards[home].has(id) {
            return home;
        }
        let Some(number) = self.whereabouts.shard_of(id) else {
            unreachable!();
        };
        number
    }

    // Folds the next pair, whose owned group stands in the shard of this number, and notes that the
    // spans that came are there. The room for the notes is made before anything changes.
    fn fold_next(
        &mut self,
        number: usize,
        abandoned: SpanId,
        owned: SpanId,
    ) -> Result<Step, AllocError>
        requires next { (plan : OpenPlan) × IsNext self.old plan (abandoned, owned) }
        requires there { StandsIn self.old.shards owned number }
        ensures exact { StepCall self.old abandoned owned result self.new }
        ensures same { shown self.new ≡ shown self.old }
        ensures sound { IsSound self.new }
    {
        self.whereabouts
            .reserve(spans_to_come(&self.pool, abandoned))?;
        let shard = &mut self.shards[number];
        let before = span_count(shard, owned);
        let step = fold_one(&mut self.pool, shard, abandoned, owned)?;
        self.whereabouts.note(number as u8, shard, owned, before);
        self.plan.advance();
        Ok(step)
    }

    // Ends the open plan, whatever of it is left, and opens all groups.
    pub(super) fn close(&mut self) -> Reply
        ensures exact { CoreStep self.old event.Close result self.new }
        ensures same { shown self.new ≡ shown self.old }
        ensures sound { IsSound self.new }
    {
        if !self.plan.is_open() {
            return Reply::NoPlan;
        }
        reopen_all(&mut self.shards);
        self.pool.plan_closed();
        self.plan.end();
        Reply::Closed
    }
}

// How many spans the group of the head has, if the shard has it.
fn span_count<L: Log>(shard: &Shard<L>, head: SpanId) -> usize
    requires { IsSoundShard shard.now }
    ensures { (index : ℕ) (group : GroupState) → IsHeadOf shard.now.groups head index group
        → result ≡ length (spans_of group) }
{
    match shard.brief(head) {
        Some(brief) => brief.spans,
        None => 0,
    }
}

// How many spans leave the pool with the group of the head, where that has a page: only such a
// group is adopted or folded.
pub(super) fn spans_to_come<L: Log>(pool: &Pool<L>, head: SpanId) -> usize
    ensures { (index : ℕ) (group : PooledState) → IsHeadOf pool.now.groups head index group
        → IsSome group.page → result ≡ length (spans_of group) }
{
    match pool.brief(head) {
        Some(brief) if brief.paged => brief.spans,
        Some(_) | None => 0,
    }
}
