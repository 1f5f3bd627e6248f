// A shard, and what it has.
ghost use Rattle.std.specs.Prelude.{◌*◌, ◌+◌, ◌≡◌, ◌<◌, ◌≤◌, [], map, length, IsTrue, IsOk, IfOk, IfSome, ◌↔◌, MatchOption};
ghost use Rattle.std.specs.List.Sorted.{IsStrictlyIncreasing};
ghost use Rattle.span.specs.Ids.{rank};
ghost use Rattle.shard.specs.Group.{GroupState};
ghost use Rattle.groups.specs.Group.{Ascend, HasNoHead, IsHeadOf, live_in, paged_in, summary};
ghost use Rattle.span.specs.declared.class.Class.{Class};
ghost use Rattle.shard.specs.Sound.{IsSound};
ghost use Rattle.shard.specs.State.{IsInRange, empty_shard, empty_with};
ghost use Rattle.bitmap.specs.declared.bits.TheConstants.{SLOTS};
ghost use Rattle.span.specs.declared.limits.TheConstants.{MOST_PAGES, MOST_SHARDS, MOST_SPANS};

use crate::class_rooms::ClassRooms;
use crate::error::Config;
use crate::group_row::GroupRow;
use crate::head_indexes::HeadIndexes;
use crate::late_guests::LateGuests;
use bitmap::SLOTS;
use span::names::{Entry, MOST_PAGES, MOST_SHARDS, MOST_SPANS, SpanId};
use span::spans::{Kept, Log};
use std::alloc::{AllocError, Global};
use std::marker::Model;

mod folds;
mod forgetting;
mod keys;
mod leaving;
mod logs;
mod moves;
mod putting;
mod replacing;
mod retiring;
mod sampling;
mod trimming;
mod walking;

pub use replacing::Replaced;
pub use retiring::LiveGroup;
pub use sampling::{Sample, gap_of};
pub use trimming::TrimPart;

/// What a look-up finds. A `usize` is the number of changes in the log of the key's span.
#[derive(Clone, Copy, PartialEq, Eq, Debug)]
pub enum Found<'a> {
    /// The key is live, and these are the words of its object, at its slot of its span's page.
    Value(&'a [u128], usize),
    /// The span is here, and the key is not live.
    Gone(usize),
    /// The shard has no such span.
    NotHere,
}

/// What a free did. A `usize` is the number of changes that the log of the key's span had before.
#[derive(Clone, Copy, PartialEq, Eq, Debug)]
pub enum Freed {
    /// The key was live and has been freed.
    Yes(usize),
    /// The span is here, and the key was not live.
    No(usize),
    /// The shard has no such span.
    NotHere,
}

/// The groups of spans that one thread owns, by ascending head, each with its page of 256 words, or
/// with none where nothing is live.
///
/// It keeps that it is sound, that a word whose number is not in `rooms` has no usable slot, and
/// that a group of which the set of a class has a number is of that class. `heads` says of the last
/// spans that it opened where they are, and `guests` of guests where they stand, and has room for
/// more.
#[derive(Drop)]
pub struct Shard<L: Log = Kept> {
    alloc: Global,
    number: u32,
    page_limit: u32,
    span_limit: u32,
    gens: u32,
    opened: u32,
    ended: bool,
    // Here it takes no room: behind a bool there is some.
    slot_limit: u16,
    groups: GroupRow<L>,
    rooms: ClassRooms,
    heads: HeadIndexes,
    guests: LateGuests<L>,
    // For how many more groups of its own room is reserved.
    group_room: usize,
    // For each group a byte: 0, or how many of its slots are live at the least, if it is open.
    least: Vec<u8>,
}

impl<L: Log> Model for Shard<L> {
    ghost use Rattle.shard.specs.State.{ShardState};
    ghost use Rattle.std.specs.Coded.{codes};

    ghost Value = { ShardState };

    ghost coded = { Prim.hlevel codes };

    ghost use Rattle.shard.specs.Kept.{state_of, IsKept};

    ghost view = { state_of };

    ghost invariant = { IsKept };
}

impl Shard<Kept> {
    /// A shard with no page, which may have that many pages, opens as many spans as there are
    /// serials, and gives a slot the generations 1 to `gens`. It is refused exactly where the
    /// number is not below 64, the pages are not 1 to 1,048,576, or `gens` is 0.
    pub fn new(alloc: Global, number: u32, page_limit: usize, gens: u32) -> Result<Shard, Config>
        ensures in_range { IsOk result ↔ ((number < MOST_SHARDS) × (1 ≤ page_limit)
            × (page_limit ≤ MOST_PAGES) × (1 ≤ gens)) }
        ensures empty { IfOk result (λ shard.
            shard ≡ empty_shard number page_limit MOST_SPANS gens) }
        ensures sound { IfOk result IsSound }
    {
        Shard::with_log(alloc, number, page_limit, MOST_SPANS, gens)
    }
}

impl<L: Log> Shard<L> {
    /// A shard with no page, whose logs are kept or counted as its type says, and which may open
    /// `span_limit` spans in its life: else as [`Shard::new`], and refused as that is, and where
    /// `span_limit` is not 1 to [`MOST_SPANS`].
    pub fn with_log(
        alloc: Global,
        number: u32,
        page_limit: usize,
        span_limit: u32,
        gens: u32,
    ) -> Result<Shard<L>, Config>
        ensures in_range { IsOk result ↔ IsInRange number page_limit span_limit gens }
        ensures empty { IfOk result (λ shard.
            shard ≡ empty_shard number page_limit span_limit gens) }
        ensures sound { IfOk result IsSound }
    {
        Shard::with_slots(alloc, number, page_limit, span_limit, SLOTS as u16, gens)
    }

    /// The same, but that a put takes only the lowest `slot_limit` slots of a page: refused also
    /// where that is not 1 to 256.
    ///
    /// Pages of fewer live slots fold together more often. A group from another shard may have live
    /// slots above.
    pub fn with_slots(
        alloc: Global,
        number: u32,
        page_limit: usize,
        span_limit: u32,
        slot_limit: u16,
        gens: u32,
    ) -> Result<Shard<L>, Config>
        ensures in_range { IsOk result ↔ (IsInRange number page_limit span_limit gens
            × (1 ≤ slot_limit) × (slot_limit ≤ SLOTS)) }
        ensures empty { IfOk result (λ shard.
            shard ≡ empty_with number page_limit span_limit slot_limit gens) }
        ensures sound { IfOk result IsSound }
    {
        if number >= MOST_SHARDS
            || !matches!(page_limit, 1..=MOST_PAGES)
            || !matches!(span_limit, 1..=MOST_SPANS)
            || slot_limit == 0
            || usize::from(slot_limit) > SLOTS
            || gens == 0
        {
            return Err(Config);
        }
        Ok(Shard {
            alloc,
            number,
            page_limit: page_limit as u32,
            span_limit,
            slot_limit,
            gens,
            opened: 0,
            ended: false,
            groups: GroupRow::new(alloc),
            rooms: ClassRooms::new(alloc),
            heads: HeadIndexes::new(alloc),
            guests: LateGuests::new(),
            group_room: 0,
            least: Vec::new(alloc),
        })
    }

    /// How many groups it has.
    pub fn len(&self) -> usize
        ensures { result ≡ length self.now.groups }
    {
        self.groups.len()
    }

    /// How many pages it has, one a group that has any: a trim takes those on which nothing is
    /// live.
    pub fn pages(&self) -> usize
        ensures pages { result ≡ length (paged_in self.now.groups) }
        ensures at_most { result ≤ length self.now.groups }
    {
        let mut pages = 0;
        for index in 0..self.groups.len() {
            if self.groups[index].is_paged() {
                pages += 1;
            }
        }
        pages
    }

    /// Whether it has ended, and so takes no put.
    pub fn ended(&self) -> bool
        ensures ended { result ≡ self.now.ended }
        ensures sound { IsSound self.now }
    {
        self.ended
    }

    /// Its number, which is that of the spans that it opens.
    pub fn number(&self) -> u32
        ensures { result ≡ self.now.number }
    {
        self.number
    }

    /// How many spans it has opened: their serials are the numbers below.
    pub fn opened(&self) -> u32
        ensures opened { result ≡ self.now.opened }
        ensures at_most { result ≤ MOST_SPANS }
    {
        self.opened
    }

    /// How many spans it may open in its life.
    pub fn span_limit(&self) -> u32
        ensures span_limit { result ≡ self.now.span_limit }
        ensures at_most { result ≤ MOST_SPANS }
        ensures opened { self.now.opened ≤ result }
    {
        self.span_limit
    }

    /// Whether it has as many groups as it may have pages.
    pub fn is_full(&self) -> bool
        ensures { IsTrue result ↔ (self.now.page_limit ≡ length self.now.groups) }
    {
        self.groups.len() == self.page_limit as usize
    }

    /// How many keys are live in it.
    pub fn live(&self) -> usize
        ensures live { result ≡ live_in self.now.groups }
        ensures at_most { result ≤ SLOTS * length self.now.groups }
    {
        let mut live = 0;
        for index in 0..self.groups.len() {
            live += self.groups[index].live();
        }
        live
    }

    /// Of each group that has a page the head and the slots that are live in one of its spans, by
    /// ascending head.
    ///
    /// # Errors
    ///
    /// `AllocError` where the list could not grow.
    pub fn groups(&self) -> Result<Vec<Entry>, AllocError>
        ensures items { IfOk result (λ groups. groups.items
            ≡ map summary (paged_in self.now.groups)) }
        ensures ascending { IsStrictlyIncreasing (map (λ group. rank group.head.id)
            (paged_in self.now.groups)) }
    {
        let mut list = Vec::new(self.alloc);
        for index in 0..self.groups.len() {
            let group = &self.groups[index];
            if group.is_paged() {
                list.push(group.entry())?;
            }
        }
        Ok(list)
    }
}

// Where the group of the head stands among the groups.
fn head_index<L: Log>(groups: &GroupRow<L>, head: SpanId) -> Option<usize>
    requires { Ascend groups.now.items }
    ensures head { MatchOption result (HasNoHead groups.now.items head)
        (λ index. (group : GroupState) × IsHeadOf groups.now.items head index group) }
    ensures within { IfSome result (λ index. index < length groups.now.items) }
{
    let index = groups.lower_heads(head);
    if index >= groups.len() {
        return None;
    }
    if groups[index].head_id() == head {
        Some(index)
    } else {
        None
    }
}
