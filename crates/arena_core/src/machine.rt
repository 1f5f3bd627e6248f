// The core: all shards as one value that takes events. What it does with each kind of them stands
// in the files below.
ghost use Rattle.std.specs.Prelude.{◌≡◌, ◌↔◌, ◌<◌, ◌≤◌, ℕ, IfOk, IfSome, IsOk, OnOk, OnErr, IsErrOf, option_map};
ghost use Rattle.span.specs.Classes.{IsObject};
ghost use Rattle.span.specs.PlainMap.{empty_map};
ghost use Rattle.arena_core.specs.Sound.{IsSound};
ghost use Rattle.marks.specs.Numbers.{AreWithin, limits_of};
ghost use Rattle.arena_core.specs.State.{HasKeys, live_keys, new_core, pages, shown};
ghost use Rattle.arena_core.specs.Step.{Answers, CoreStep};
ghost use Rattle.arena_core.specs.Plain.{ErasedStep};

use crate::error::CoreError;
use crate::event::Event;
use crate::late_plan::LatePlan;
use crate::late_rings::LateRings;
use crate::reply::{Refusal, Reply};
use crate::whereabouts::Whereabouts;
use marks::{Limits, Totals};
use mesh_graph::{AtHand, Runner};
use pool::Pool;
use shard::Shard;
use span::ghost_list::GhostList;
use span::names::Object;
use span::spans::{Counted, Kept, Log, Span};
use std::alloc::{AllocError, Global};
use std::marker::Model;

mod deferred;
mod ends;
mod estimating;
mod forgetting;
mod gathering;
mod keys;
mod making;
mod plans;
mod setting;
mod walk;

/// All shards, the pool and the rings of deferred frees as one value, which takes events one after
/// another and answers replies.
///
/// A put costs what the shard's own put costs. A look-up, a set and a free ask the shard that
/// opened the span first, which has it until it ends or retires it: they then cost what that
/// shard's own call costs. A span that it does not have is asked for in the shard that took it in
/// last, and then in the pool: where neither has it, it stands nowhere. So none is asked twice, and
/// a key of a span that was never opened costs three look-ups at most.
#[derive(Drop)]
pub struct Core<L: Log = Kept> {
    alloc: Global,
    limits: Limits,
    // As far as a shard was used; those behind are new.
    shards: Vec<Shard<L>>,
    pool: Pool<L>,
    plan: LatePlan,
    whereabouts: Whereabouts,
    rings: LateRings,
    // Proofs alone read it: the spans that were forgotten, the earliest first.
    forgotten: GhostList<Span<Counted>>,
}

impl<L: Log> Model for Core<L> {
    ghost use Rattle.std.specs.Coded.{codes};
    ghost use Rattle.arena_core.specs.State.{CoreState};

    ghost Value = { CoreState };

    ghost coded = { Prim.hlevel codes };

    ghost use Rattle.arena_core.specs.Kept.{IsKept, state_of};

    ghost view = { state_of };

    ghost invariant = { IsKept };
}

impl Core<Kept> {
    /// A core of `shards` new shards, numbered from 0 on, and an empty pool. A shard may have
    /// `page_limit` pages of 4,096 bytes, and may open as many spans as there are serials;
    /// [`Core::with_limits`] takes another number. A slot is given the generations from 1 to
    /// `gens`. From each of as many workers as shards there is a ring to each shard, which holds
    /// `ring_capacity` keys of deferred frees; its room is made with its first key.
    ///
    /// [`CoreError::Config`] comes exactly if a number is out of its range, which is 1 to 64
    /// shards, 1 to 1,048,576 pages, 1 to 1,024 entries, and from 1 generation on. A new core takes
    /// no memory.
    pub fn new(
        alloc: Global,
        shards: u32,
        page_limit: usize,
        ring_capacity: usize,
        gens: u32,
    ) -> Result<Core, CoreError>
        ensures config { IsErrOf result CoreError.Config
            ↔ (AreWithin (limits_of shards page_limit ring_capacity gens) → ⊥) }
        ensures made { IsOk result ↔ AreWithin (limits_of shards page_limit ring_capacity gens) }
        ensures ok { IfOk result
            (λ core. core ≡ new_core (limits_of shards page_limit ring_capacity gens)) }
        ensures empty { IfOk result (λ core. shown core ≡ empty_map) }
        ensures sound { IfOk result IsSound }
    {
        Core::with_log(alloc, shards, page_limit, ring_capacity, gens)
    }
}

impl<L: Log> Core<L> {
    /// A core of new shards, whose logs are kept or counted as its type says: as [`Core::new`], and
    /// refused as that is.
    pub fn with_log(
        alloc: Global,
        shards: u32,
        page_limit: usize,
        ring_capacity: usize,
        gens: u32,
    ) -> Result<Core<L>, CoreError>
        ensures config { IsErrOf result CoreError.Config
            ↔ (AreWithin (limits_of shards page_limit ring_capacity gens) → ⊥) }
        ensures made { IsOk result ↔ AreWithin (limits_of shards page_limit ring_capacity gens) }
        ensures ok { IfOk result
            (λ core. core ≡ new_core (limits_of shards page_limit ring_capacity gens)) }
        ensures empty { IfOk result (λ core. shown core ≡ empty_map) }
        ensures sound { IfOk result IsSound }
    {
        let Some(limits) = Limits::new(shards, page_limit, ring_capacity, gens) else {
            return Err(CoreError::Config);
        };
        Ok(Core::with_limits(alloc, limits))
    }

    /// A core of new shards by all of its numbers, how many spans a shard may open among them,
    /// whose logs are kept or counted as its type says.
    ///
    /// It takes no memory: a shard takes its own with the first object, group or end of it, and
    /// those of lower numbers with it.
    pub fn with_limits(alloc: Global, limits: Limits) -> Core<L>
        ensures core { result ≡ new_core limits }
        ensures empty { shown result ≡ empty_map }
        ensures sound { IsSound result }
    {
        let rings = LateRings::new(limits.shards(), limits.ring_capacity());
        Core {
            alloc,
            limits,
            shards: Vec::new(alloc),
            pool: Pool::with_log(alloc),
            plan: LatePlan::new(),
            whereabouts: Whereabouts::new(alloc),
            rings,
            forgotten: GhostList::new(),
        }
    }

    /// Takes the event and answers it. The replies to puts, look-ups, sets, frees, deferred frees
    /// and settlings are those of a plain map of keys; ends, begins, retirements, trims, adoptions,
    /// marks, steps and closes leave the map that the core shows as it is.
    ///
    /// A refused event changes nothing. Of several causes that hold, the first of these is
    /// answered:
    ///
    /// - [`Refusal::PagesSpent`]: the shard of a put needs a new span, and has as many groups as it
    ///   may have pages, or has opened as many spans as it may; the shard of an adoption has as
    ///   many groups as it may have pages.
    /// - [`Refusal::Ended`]: the shard of a put, an end, a retirement or an adoption has ended.
    /// - [`Refusal::Running`]: the shard of a begin has not ended.
    /// - [`Refusal::PlanOpen`]: the shard of an end or a retirement has a closed group; at an
    ///   adoption or a mark a plan is open.
    /// - [`Refusal::TooMany`]: a side of a mark has more than 4,096 groups.
    /// - [`Refusal::NothingToAdopt`]: at an adoption no group of the pool has a page.
    /// - [`Refusal::Config`]: there is no such shard (put, end, begin, retirement, trim, adoption).
    /// - [`Refusal::OutOfMemory`]: an allocation was refused (put, set, end, retirement, adoption,
    ///   mark, step); the pair of a step stays next.
    ///
    /// A look-up, a free and a close are never refused, and take no memory. A set is refused only
    /// in place of a yes. A begin and a settling take no memory either. Of a deferred free,
    /// [`Refusal::RingFull`] comes exactly where its ring holds as many keys as it may,
    /// [`Refusal::Config`] exactly where there is no such worker or shard, and
    /// [`Refusal::OutOfMemory`] only where neither holds. The first key of a ring takes the memory
    /// for all that the ring holds, and no later one takes any.
    ///
    /// A mark that is not refused plans as many folds as can be, and shows it: no plan of what
    /// stands has more pairs. A mark of some ([`Event::MarkSome`]) sees at most 4,096 groups of
    /// each side, those with the fewest live slots, and no plan of these has more pairs; it is
    /// refused as a mark is, but never with [`Refusal::TooMany`]. Until the plan is closed, the
    /// groups that it folds onto take no put, and each step carries out its next pair.
    // Inlined, it makes no event and no reply that its caller takes apart at once. Both have the
    // room of the largest object, and a call passes them through memory, which costs several times
    // the shard's own look-up.
    #[inline(always)]
    pub fn step(&mut self, event: Event) -> Reply
        ensures exact { CoreStep self.old event result self.new }
        ensures plain { ErasedStep self.old.limits (shown self.old) event result (shown self.new) }
        ensures sound { IsSound self.new }
    {
        self.step_by(&AtHand, event)
    }

    /// What [`Core::step`] does. The runner fills the rows of a mark's graph, as by threads
    /// ([`ByThreads`](mesh_graph::ByThreads)), in at most as many pieces as the core has shards.
    /// The reply does not depend on it.
    #[inline(always)]
    pub fn step_by<R: Runner>(&mut self, runner: &R, event: Event) -> Reply
        requires { R.ready runner.now }
        ensures exact { CoreStep self.old event result self.new }
        ensures plain { ErasedStep self.old.limits (shown self.old) event result (shown self.new) }
        ensures sound { IsSound self.new }
    {
        match event {
            Event::Put { shard, value } => match self.put(shard, value) {
                Ok(key) => Reply::Issued(key),
                Err(refusal) => Reply::Refused(refusal),
            },
            Event::Get { key } => Reply::Found(object_of(self.get(&key))),
            Event::Set { key, value } => match self.set(&key, value.words()) {
                Ok(done) => Reply::Replaced(done),
                Err(refusal) => Reply::Refused(refusal),
            },
            Event::Free { key } => Reply::Freed(self.free(&key)),
            Event::Later { worker, key } => match self.later(worker, key) {
                Ok(()) => Reply::Sent,
                Err(refusal) => Reply::Refused(refusal),
            },
            Event::Settle { worker, shard } => match self.settle(worker, shard) {
                Ok(settled) => Reply::Settled(settled),
                Err(refusal) => Reply::Refused(refusal),
            },
            Event::End { shard } => match self.end(shard) {
                Ok(()) => Reply::ShardEnded,
                Err(refusal) => Reply::Refused(refusal),
            },
            Event::Begin { shard } => match self.begin(shard) {
                Ok(()) => Reply::ShardBegun,
                Err(refusal) => Reply::Refused(refusal),
            },
            Event::Retire { shard, most } => match self.retire(shard, most) {
                Ok(count) => Reply::Retired(count),
                Err(refusal) => Reply::Refused(refusal),
            },
            Event::Trim { shard } => match self.trim(shard) {
                Ok(count) => Reply::Trimmed(count),
                Err(refusal) => Reply::Refused(refusal),
            },
            Event::Adopt { shard } => match self.adopt(shard) {
                Ok(head) => Reply::Adopted(head),
                Err(refusal) => Reply::Refused(refusal),
            },
            Event::Mark => match self.mark(runner) {
                Ok(certificate) => Reply::Marked(certificate),
                Err(refusal) => Reply::Refused(refusal),
            },
            Event::MarkSome => match self.mark_some(runner) {
                Ok(certificate) => Reply::Marked(certificate),
                Err(refusal) => Reply::Refused(refusal),
            },
            Event::Step => self.take_step(),
            Event::Close => self.close(),
        }
    }

    /// Takes the events in order, and appends a reply for each.
    ///
    /// `AllocError` comes before the first event: the core and the replies are then as they were.
    /// Where memory runs out within an event, that event's own reply says so.
    pub fn run(&mut self, events: &[Event], replies: &mut Vec<Reply>) -> Result<(), AllocError>
        ensures ok { OnOk result
            (Answers self.old events.now replies.old.items replies.new.items self.new) }
        ensures sound { IsSound self.new }
        ensures err { OnErr result (self.new ≡ self.old) }
        ensures err_replies { OnErr result (replies.new.items ≡ replies.old.items) }
    {
        // For the prover: the core is sound, also if no event comes.
        let _ = &self.shards;
        replies.reserve(events.len())?;
        for event in events {
            let reply = self.step(*event);
            replies.push_reserved(reply);
        }
        Ok(())
    }

    /// How many pages the shards and the pool have, and how many keys are live: that many keys have
    /// a value in the map that the core shows.
    pub fn totals(&self) -> Totals
        ensures pages { result.pages ≡ pages self.now }
        ensures live { result.live ≡ live_keys self.now }
        ensures shown { HasKeys (shown self.now) result.live }
    {
        let mut totals = Totals {
            pages: self.pool.pages(),
            live: self.pool.live(),
        };
        for shard in self.shards.iter() {
            totals.pages += shard.pages();
            totals.live += shard.live();
        }
        totals
    }
}

// The object of the words that a look-up lent.
fn object_of(found: Option<&[u128]>) -> Option<Object>
    requires { IfSome found (λ words. IsObject words.now) }
    ensures { result ≡ option_map (λ words. words.now) found.entry }
{
    match found {
        Some(words) => Some(Object::from_words(words)),
        None => None,
    }
}
