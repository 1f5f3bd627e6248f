// The numbers of a core or an arena.
ghost use Rattle.std.specs.Prelude.{◌≡◌, ◌↔◌, ◌≤◌, IfSome, IsSome};
ghost use Rattle.bitmap.specs.declared.bits.TheConstants.{SLOTS};
ghost use Rattle.marks.specs.Numbers.{AreWithin, limits_of, with_slot_limit, with_span_limit};
ghost use Rattle.span.specs.declared.limits.TheConstants.{MOST_SPANS};

use bitmap::SLOTS;
use span::names::{MOST_PAGES, MOST_RING_KEYS, MOST_SHARDS, MOST_SPANS};
use std::marker::Model;

/// The numbers of a core or an arena, each within its range. The seats and the steward of an arena
/// bear them too, so that a call that is lent two of these can ask that they fit.
#[derive(Clone, Copy, PartialEq, Eq, Debug)]
pub struct Limits {
    shards: u32,
    page_limit: u32,
    span_limit: u32,
    gens: u32,
    slot_limit: u16,
    ring_capacity: u16,
}

const _: () = prove!(size_of::<Limits>() == 20);

impl Model for Limits {
    ghost use Rattle.marks.specs.Numbers.{AreWithin, Limits as Numbers};

    ghost Value = { Numbers };

    ghost use Rattle.marks.specs.LimitsKept.{numbers_in};

    ghost view = { numbers_in };

    ghost invariant = { λ limits. AreWithin (numbers_in limits) };

    ghost inverse = { λ numbers. record {
      shards = numbers.shards;
      page_limit = numbers.page_limit;
      span_limit = numbers.span_limit;
      slot_limit = numbers.slot_limit;
      ring_capacity = numbers.ring_capacity;
      gens = numbers.gens;
    } };
}

impl Limits {
    /// The numbers, or `None` exactly where one is out of its range. A shard may open as many spans
    /// as there are serials, and a put may take all slots of a page; [`Limits::with_span_limit`]
    /// and [`Limits::with_slot_limit`] give other numbers.
    pub fn new(shards: u32, page_limit: usize, ring_capacity: usize, gens: u32) -> Option<Limits>
        ensures in_range { IsSome result
            ↔ AreWithin (limits_of shards page_limit ring_capacity gens) }
        ensures parts { IfSome result
            (λ limits. limits ≡ limits_of shards page_limit ring_capacity gens) }
    {
        if matches!(shards, 1..=MOST_SHARDS)
            && matches!(page_limit, 1..=MOST_PAGES)
            && matches!(ring_capacity, 1..=MOST_RING_KEYS)
            && gens >= 1
        {
            Some(Limits {
                shards,
                page_limit: page_limit as u32,
                span_limit: MOST_SPANS,
                gens,
                slot_limit: SLOTS as u16,
                ring_capacity: ring_capacity as u16,
            })
        } else {
            None
        }
    }

    /// The same numbers, but that a shard may open `span_limit` spans in its life, or `None`
    /// exactly where that is not 1 to [`MOST_SPANS`].
    pub fn with_span_limit(self, span_limit: u32) -> Option<Limits>
        ensures in_range { IsSome result ↔ ((1 ≤ span_limit) × (span_limit ≤ MOST_SPANS)) }
        ensures parts { IfSome result (λ limits. limits ≡ with_span_limit self span_limit) }
    {
        if matches!(span_limit, 1..=MOST_SPANS) {
            Some(Limits { span_limit, ..self })
        } else {
            None
        }
    }

    /// The same numbers, but that a put may take only the lowest `slot_limit` slots of a page, or
    /// `None` exactly where that is not 1 to [`SLOTS`].
    pub fn with_slot_limit(self, slot_limit: u16) -> Option<Limits>
        ensures in_range { IsSome result ↔ ((1 ≤ slot_limit) × (slot_limit ≤ SLOTS)) }
        ensures parts { IfSome result (λ limits. limits ≡ with_slot_limit self slot_limit) }
    {
        if slot_limit == 0 || usize::from(slot_limit) > SLOTS {
            return None;
        }
        Some(Limits { slot_limit, ..self })
    }

    /// How many shards there are, each with one worker: 1 to 64.
    #[inline]
    pub fn shards(&self) -> u32
        ensures shards { result ≡ self.now.shards }
        ensures within { AreWithin self.now }
    {
        self.shards
    }

    /// How many pages of 4,096 bytes a shard may have, over all classes: 1 to 1,048,576.
    #[inline]
    pub fn page_limit(&self) -> usize
        ensures page_limit { result ≡ self.now.page_limit }
        ensures within { AreWithin self.now }
    {
        self.page_limit as usize
    }

    /// How many spans a shard may open in its life: 1 to [`MOST_SPANS`].
    #[inline]
    pub fn span_limit(&self) -> u32
        ensures span_limit { result ≡ self.now.span_limit }
        ensures within { AreWithin self.now }
    {
        self.span_limit
    }

    /// How many slots of a page a put may take, the lowest: 1 to [`SLOTS`].
    #[inline]
    pub fn slot_limit(&self) -> u16
        ensures slot_limit { result ≡ self.now.slot_limit }
        ensures within { AreWithin self.now }
    {
        self.slot_limit
    }

    /// How many keys a ring of deferred frees holds: 1 to 1,024.
    #[inline]
    pub fn ring_capacity(&self) -> usize
        ensures ring_capacity { result ≡ self.now.ring_capacity }
        ensures within { AreWithin self.now }
    {
        usize::from(self.ring_capacity)
    }

    /// The greatest generation of a slot, at least 1.
    #[inline]
    pub fn gens(&self) -> u32
        ensures gens { result ≡ self.now.gens }
        ensures within { AreWithin self.now }
    {
        self.gens
    }
}
