// The pool and its calls on keys.
ghost use Rattle.std.specs.Prelude.{◌≡◌, ◌<◌, ◌≤◌, ◌*◌, ◌↔◌, map, length, IsTrue, IfOk, MatchOption, false, true, is_some};
ghost use Rattle.std.specs.List.Sorted.{IsStrictlyIncreasing};
ghost use Rattle.span.specs.FirstLive.{HasNoneBetween, IsFirstLive};
ghost use Rattle.span.specs.Ids.{rank};
ghost use Rattle.span.specs.Order.{HasNoneFrom, IsFirstFrom};
ghost use Rattle.shard.specs.Calls.{FindsObject, value_found, was_freed};
ghost use Rattle.groups.specs.Shown.{without_if};
ghost use Rattle.pool.specs.Calls.{Frees, Gets};
ghost use Rattle.pool.specs.Groups.{HasAtPlace, HasHeadAt};
ghost use Rattle.pool.specs.Shown.{shown};
ghost use Rattle.pool.specs.Sound.{IsSound};
ghost use Rattle.pool.specs.Sparse.{HaveSparsest};
ghost use Rattle.pool.specs.State.{new_pool, paged_groups};
ghost use Rattle.groups.specs.Group.{HasNoHead, IsElsewhere, live_in, summary};
ghost use Rattle.span.specs.declared.limits.TheConstants.{ALL_IDS};
ghost use Rattle.bitmap.specs.declared.bits.TheConstants.{SLOTS};

use crate::pooled::Pooled;
use crate::stock::Stock;
use shard::{Found, Freed};
use span::names::{Entry, Key, SpanId};
use span::spans::{Kept, Log};
use std::alloc::{AllocError, Global};
use std::marker::Model;

mod forgetting;
mod gathering;
mod handover;
mod logs;
mod moves;
mod replacing;
mod retiring;
mod sampling;

/// The groups that shards have let go, at an end or before, by ascending head; those that have a
/// live slot have a page.
#[derive(Drop)]
pub struct Pool<L: Log = Kept> {
    alloc: Global,
    // The groups and all that is kept of them, once room for a group was reserved.
    stock: Option<Box<Stock<L>>>,
    // Whether a plan of folds is open. If there is a box, that says it.
    has_plan: bool,
}

impl<L: Log> Model for Pool<L> {
    ghost use Rattle.pool.specs.State.{PoolState};
    ghost use Rattle.std.specs.Coded.{codes};
    ghost use Rattle.std.specs.Prelude.{option_map, unwrap_or};
    ghost use Rattle.pool.specs.State.{no_groups};

    ghost Value = { PoolState };

    ghost coded = { Prim.hlevel codes };

    ghost view = { λ p. unwrap_or (option_map (λ stock. stock.value) p.stock)
        (no_groups p.has_plan) };
}

impl Pool<Kept> {
    /// A pool with no group. It takes no memory.
    pub fn new(alloc: Global) -> Pool
        ensures empty { result ≡ new_pool }
        ensures sound { IsSound result }
    {
        Pool::with_log(alloc)
    }
}

impl<L: Log> Pool<L> {
    /// A pool with no group, whose logs are kept or counted as its type says: as [`Pool::new`]. It
    /// takes no memory.
    pub fn with_log(alloc: Global) -> Pool<L>
        ensures empty { result ≡ new_pool }
        ensures sound { IsSound result }
    {
        Pool {
            alloc,
            stock: None,
            has_plan: false,
        }
    }

    /// How many groups it has, with a page or without.
    pub fn len(&self) -> usize
        ensures { result ≡ length self.now.groups }
    {
        match &self.stock {
            Some(stock) => stock.len(),
            None => 0,
        }
    }

    /// How many pages it has: one for each group with a live slot.
    pub fn pages(&self) -> usize
        ensures { result ≡ length (paged_groups self.now) }
    {
        match &self.stock {
            Some(stock) => stock.pages(),
            None => 0,
        }
    }

    /// Says that a plan of folds is open, so that no group is adopted until it is closed. It takes
    /// no memory.
    pub fn plan_opened(&mut self)
        ensures opened { self.new ≡ record self.old { has_plan = true } }
        ensures sound { IsSound self.new }
    {
        match &mut self.stock {
            Some(stock) => stock.set_plan(true),
            None => self.has_plan = true,
        }
    }

    /// Says that no plan is open. It takes no memory.
    pub fn plan_closed(&mut self)
        ensures closed { self.new ≡ record self.old { has_plan = false } }
        ensures sound { IsSound self.new }
    {
        match &mut self.stock {
            Some(stock) => stock.set_plan(false),
            None => self.has_plan = false,
        }
    }

    /// Whether a plan of folds is open.
    pub fn has_plan(&self) -> bool
        ensures { result ≡ self.now.has_plan }
    {
        match &self.stock {
            Some(stock) => stock.has_plan(),
            None => self.has_plan,
        }
    }

    /// How many keys are live in it.
    pub fn live(&self) -> usize
        ensures live { result ≡ live_in self.now.groups }
        ensures at_most { result ≤ SLOTS * length self.now.groups }
        ensures groups { length self.now.groups ≤ ALL_IDS }
    {
        match &self.stock {
            Some(stock) => stock.live(),
            None => 0,
        }
    }

    /// Each group that has a page, by ascending head: its head, its class and the slots that are
    /// live in one of its spans.
    ///
    /// # Errors
    ///
    /// `AllocError` where the list could not grow.
    pub fn groups(&self) -> Result<Vec<Entry>, AllocError>
        ensures items { IfOk result (λ groups. groups.items ≡ map summary (paged_groups self.now)) }
        ensures ascending { IsStrictlyIncreasing (map (λ group. rank group.head.id)
            (paged_groups self.now)) }
        ensures sound { IsSound self.now }
    {
        match &self.stock {
            Some(stock) => stock.groups(),
            None => Ok(Vec::new(self.alloc)),
        }
    }

    /// At least `most` of the groups that have a page, or all if there are no more, in no order.
    /// None has more live slots than one that is left out. It makes entries of few others.
    ///
    /// # Errors
    ///
    /// `AllocError` if the list could not grow.
    pub fn sparse_groups(&self, most: usize) -> Result<Vec<Entry>, AllocError>
        ensures sparsest { IfOk result (λ groups.
            HaveSparsest most (map summary (paged_groups self.now)) groups.items) }
        ensures ascending { IsStrictlyIncreasing (map (λ group. rank group.head.id)
            (paged_groups self.now)) }
        ensures sound { IsSound self.now }
    {
        match &self.stock {
            Some(stock) => stock.sparse_groups(most),
            None => Ok(Vec::new(self.alloc)),
        }
    }

    /// Whether it has a span of this id.
    pub fn has(&self, id: SpanId) -> bool
        ensures { IsTrue result ↔ (IsElsewhere self.now.groups id → ⊥) }
    {
        self.find(id).is_some()
    }

    /// The words of the key's object, where it is live here. They are lent from the page, which all
    /// spans of a group share.
    pub fn get(&self, key: &Key) -> Found<'_>
        ensures found { Gets self.now key.now result }
        ensures width { FindsObject result }
        ensures plain { value_found result ≡ (shown self.now).value_of key.now }
        ensures sound { IsSound self.now }
    {
        let Some((group, place)) = self.find(key.span) else {
            return Found::NotHere;
        };
        let span = group.span_at(place);
        let at = span.changes();
        if !span.holds(key.slot, key.generation) {
            return Found::Gone(at);
        }
        let words = group.value_at(span.class(), key.slot);
        Found::Value(words, at)
    }

    /// Frees the key, where it is live here, and gives up the page of a group that it empties. It
    /// takes no memory.
    pub fn free(&mut self, key: &Key) -> Freed
        ensures step { Frees self.old key.now result self.new }
        ensures found { was_freed result ≡ is_some ((shown self.old).value_of key.now) }
        ensures plain { shown self.new
            ≡ without_if (was_freed result) (shown self.old) key.now }
        ensures sound { IsSound self.new }
    {
        let Some(stock) = &mut self.stock else {
            return Freed::NotHere;
        };
        stock.free(key)
    }

    /// The key of the span's lowest live slot from this one on, if one is live here. It takes no
    /// memory.
    pub fn first_from(&self, id: SpanId, slot: u32) -> Option<Key>
        ensures first { MatchOption result (HasNoneFrom (shown self.now) id slot)
            (IsFirstFrom (shown self.now) id slot) }
        ensures sound { IsSound self.now }
    {
        let Some((group, place)) = self.find(id) else {
            return None;
        };
        group.span_at(place).first_from(slot)
    }

    /// The first live key here of the spans from this id on, by ids and then by slots. It looks at
    /// each span once, and takes no memory.
    pub fn first_live(&self, from: SpanId) -> Option<Key>
        ensures first { MatchOption result (HasNoneBetween (shown self.now) (rank from) ALL_IDS)
            (IsFirstLive (shown self.now) (rank from)) }
        ensures sound { IsSound self.now }
    {
        match &self.stock {
            Some(stock) => stock.first_live(from),
            None => None,
        }
    }

    // The group that the span of the id stands in, and its place there.
    #[inline(always)]
    fn find(&self, id: SpanId) -> Option<(&Pooled<L>, usize)>
        ensures sound { IsSound self.now }
        ensures place { MatchOption result (IsElsewhere self.now.groups id)
            (λ at. HasAtPlace self.now.groups id at.1 at.0.now) }
    {
        match &self.stock {
            Some(stock) => stock.find(id),
            None => None,
        }
    }

    // The group of the head, if it is here.
    fn group(&self, head: SpanId) -> Option<&Pooled<L>>
        ensures group { MatchOption result (HasNoHead self.now.groups head)
            (λ group. HasHeadAt self.now.groups head group.now) }
        ensures sound { IsSound self.now }
    {
        match &self.stock {
            Some(stock) => stock.group(head),
            None => None,
        }
    }

    // Gives the box back if it has no group and no reserved room.
    fn give_back(&mut self)
        ensures { self.new ≡ self.old }
    {
        let Some(stock) = &self.stock else {
            return;
        };
        if stock.is_unused() {
            self.has_plan = stock.has_plan();
            self.stock = None;
        }
    }
}
