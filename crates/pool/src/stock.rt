// The groups that a pool has, or has room for, with what tells where their guests stand. A pool has
// them in a box that comes with their first room.
ghost use Rattle.std.specs.Prelude.{◌≡◌, ◌<◌, ◌≤◌, ◌*◌, ◌↔◌, map, length, IsTrue, IfOk, MatchOption, is_some};
ghost use Rattle.std.specs.List.Sorted.{IsStrictlyIncreasing};
ghost use Rattle.span.specs.FirstLive.{HasNoneBetween, IsFirstLive};
ghost use Rattle.span.specs.Ids.{rank};
ghost use Rattle.shard.specs.Calls.{was_freed};
ghost use Rattle.groups.specs.Shown.{without_if};
ghost use Rattle.pool.specs.Calls.{Frees, HasNothingToAdopt, IsHeadOfLowest, IsInPool};
ghost use Rattle.pool.specs.Groups.{HasAtPlace, HasHeadAt};
ghost use Rattle.pool.specs.Shown.{shown};
ghost use Rattle.pool.specs.Sound.{IsSound};
ghost use Rattle.pool.specs.Samples.{Samples};
ghost use Rattle.pool.specs.Sparse.{HaveSparsest};
ghost use Rattle.pool.specs.State.{no_groups, paged_groups};
ghost use Rattle.groups.specs.Group.{HasNoHead, IsElsewhere, live_in, summary};
ghost use Rattle.span.specs.declared.limits.TheConstants.{ALL_IDS};
ghost use Rattle.bitmap.specs.declared.bits.TheConstants.{SLOTS};

use crate::group_table::GroupTable;
use crate::pooled::Pooled;
use groups::Directory;
use shard::{Freed, Sample, Shard};
use span::names::{Entry, Key, SpanId};
use span::spans::Log;
use std::alloc::{AllocError, Global};
use std::marker::Model;

mod forgetting;
mod gathering;
mod logs;
mod moves;
mod replacing;

/// Groups by ascending head, with a directory of their guests, and whether a plan of folds is open.
#[derive(Drop)]
pub(crate) struct Stock<L: Log> {
    alloc: Global,
    groups: GroupTable<L>,
    directory: Directory,
    // For how many more groups room is reserved, and for how many more spans.
    group_room: usize,
    span_room: usize,
    has_plan: bool,
}

impl<L: Log> Model for Stock<L> {
    ghost use Rattle.pool.specs.State.{PoolState};
    ghost use Rattle.std.specs.Coded.{codes};

    ghost Value = { PoolState };

    ghost coded = { Prim.hlevel codes };

    ghost use Rattle.pool.specs.StockKept.{state_of, IsKept};

    ghost view = { state_of };

    ghost invariant = { IsKept };
}

impl<L: Log> Stock<L> {
    /// No group. It takes no memory.
    pub(crate) fn new(alloc: Global, has_plan: bool) -> Stock<L>
        ensures { result ≡ no_groups has_plan }
    {
        Stock {
            alloc,
            groups: GroupTable::new(alloc),
            directory: Directory::new(alloc),
            group_room: 0,
            span_room: 0,
            has_plan,
        }
    }

    /// Whether it has no group, and room for none is reserved.
    pub(crate) fn is_unused(&self) -> bool
        ensures { IsTrue result ↔ (self.now ≡ no_groups self.now.has_plan) }
    {
        self.groups.len() == 0 && self.group_room == 0 && self.span_room == 0
    }

    /// Says whether a plan of folds is open.
    pub(crate) fn set_plan(&mut self, has_plan: bool)
        ensures plan { self.new ≡ record self.old { has_plan = has_plan } }
        ensures sound { IsSound self.new }
    {
        self.has_plan = has_plan;
    }

    /// Whether a plan of folds is open.
    pub(crate) fn has_plan(&self) -> bool
        ensures { result ≡ self.now.has_plan }
    {
        self.has_plan
    }

    /// How many groups it has.
    pub(crate) fn len(&self) -> usize
        ensures len { result ≡ length self.now.groups }
        ensures sound { IsSound self.now }
    {
        self.groups.len()
    }

    /// How many of its groups have a page.
    pub(crate) fn pages(&self) -> usize
        ensures { result ≡ length (paged_groups self.now) }
    {
        self.groups.pages()
    }

    /// How many keys are live in it.
    pub(crate) fn live(&self) -> usize
        ensures live { result ≡ live_in self.now.groups }
        ensures at_most { result ≤ SLOTS * length self.now.groups }
        ensures groups { length self.now.groups ≤ ALL_IDS }
    {
        self.groups.live()
    }

    /// What a group has together with one after each `gap` others.
    pub(crate) fn sample(&self, gap: u32) -> Sample
        ensures samples { Samples gap self.now.groups result }
        ensures few { result.pages ≤ length self.now.groups }
        ensures few_live { result.live ≤ SLOTS * length self.now.groups }
        ensures groups { length self.now.groups ≤ ALL_IDS }
    {
        self.groups.sample(gap)
    }

    /// The entry of each group that has a page, by ascending head.
    ///
    /// # Errors
    ///
    /// `AllocError` if the list could not grow.
    pub(crate) fn groups(&self) -> Result<Vec<Entry>, AllocError>
        ensures items { IfOk result (λ groups. groups.items ≡ map summary (paged_groups self.now)) }
        ensures ascending { IsStrictlyIncreasing (map (λ group. rank group.head.id)
            (paged_groups self.now)) }
        ensures sound { IsSound self.now }
    {
        self.groups.summaries(self.alloc)
    }

    /// Entries of at least `most` groups that have a page, as [`Pool::sparse_groups`](crate::Pool)
    /// gives them.
    ///
    /// # Errors
    ///
    /// `AllocError` if the list could not grow.
    pub(crate) fn sparse_groups(&self, most: usize) -> Result<Vec<Entry>, AllocError>
        ensures sparsest { IfOk result (λ groups.
            HaveSparsest most (map summary (paged_groups self.now)) groups.items) }
        ensures ascending { IsStrictlyIncreasing (map (λ group. rank group.head.id)
            (paged_groups self.now)) }
        ensures sound { IsSound self.now }
    {
        self.groups.sparse(self.alloc, most)
    }

    /// The group of the head, if it is here.
    pub(crate) fn group(&self, head: SpanId) -> Option<&Pooled<L>>
        ensures group { MatchOption result (HasNoHead self.now.groups head)
            (λ group. HasHeadAt self.now.groups head group.now) }
        ensures sound { IsSound self.now }
    {
        self.groups.get(head)
    }

    /// Whether one of its spans is in the shard, too.
    pub(crate) fn has_one_in(&self, shard: &Shard<L>) -> bool
        ensures has { IsTrue result ↔ IsInPool self.now shard.now }
        ensures sound { IsSound self.now }
    {
        self.groups.have_one_in(shard)
    }

    /// The head of the group of lowest head that has a page.
    pub(crate) fn lowest_paged(&mut self) -> Option<SpanId>
        ensures lowest { MatchOption result (HasNothingToAdopt self.old) (IsHeadOfLowest self.old) }
        ensures same { self.new ≡ self.old }
        ensures sound { IsSound self.old }
    {
        self.groups.lowest_paged()
    }

    /// The first live key of the spans from this id on, by ids and then by slots.
    pub(crate) fn first_live(&self, from: SpanId) -> Option<Key>
        ensures first { MatchOption result (HasNoneBetween (shown self.now) (rank from) ALL_IDS)
            (IsFirstLive (shown self.now) (rank from)) }
        ensures sound { IsSound self.now }
    {
        self.groups.first_live(from)
    }

    /// Frees the key, if it is live here, and gives up the page of a group that it empties.
    pub(crate) fn free(&mut self, key: &Key) -> Freed
        ensures step { Frees self.old key.now result self.new }
        ensures found { was_freed result ≡ is_some ((shown self.old).value_of key.now) }
        ensures plain { shown self.new
            ≡ without_if (was_freed result) (shown self.old) key.now }
        ensures sound { IsSound self.new }
    {
        let Some((group, place)) = self.find(key.span) else {
            return Freed::NotHere;
        };
        let head = group.head_id();
        let at = group.span_at(place).changes();
        let (slot, generation) = (key.slot, key.generation);
        if !self.groups.free(self.alloc, head, place, slot, generation) {
            return Freed::No(at);
        }
        Freed::Yes(at)
    }

    /// The group that the span of the id stands in, and its place there. Most are heads, so these
    /// are asked for first.
    #[inline(always)]
    pub(crate) fn find(&self, id: SpanId) -> Option<(&Pooled<L>, usize)>
        ensures sound { IsSound self.now }
        ensures place { MatchOption result (IsElsewhere self.now.groups id)
            (λ at. HasAtPlace self.now.groups id at.1 at.0.now) }
    {
        let Some(group) = self.groups.get(id) else {
            return self.find_guest(id);
        };
        Some((group, 0))
    }

    // The same of a span that is no head here.
    fn find_guest(&self, id: SpanId) -> Option<(&Pooled<L>, usize)>
        requires { HasNoHead self.now.groups id }
        ensures { MatchOption result (IsElsewhere self.now.groups id)
            (λ at. HasAtPlace self.now.groups id at.1 at.0.now) }
    {
        let Some(at) = self.directory.place_of(id) else {
            return None;
        };
        let group = self.groups.get(at.head)?;
        Some((group, at.place))
    }
}
