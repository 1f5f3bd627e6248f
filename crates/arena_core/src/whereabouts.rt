// Where the spans are that left the shard which opened them.
ghost use Rattle.std.specs.Prelude.{◌≡◌, ◌≤◌, ◌<◌, ◌+◌, ◌↔◌, ℕ, IsTrue, OnOk, Some};
ghost use Rattle.std.specs.FinMap as map;
ghost use Rattle.groups.specs.LateTable.{state_of};
ghost use Rattle.shard.specs.Sound.{IsSound};
ghost use Rattle.span.specs.Ids.{rank};
ghost use Rattle.span.specs.declared.id.SpanId.{SpanId};
ghost use Rattle.arena_core.specs.Moved.{HasAtMost, KeepsStanding, Notes, TellsStanding, named, with_taken};

use groups::LateTable;
use shard::Shard;
use span::names::{MOST_SPANS, SpanId};
use span::spans::Log;
use std::alloc::{AllocError, Global};
use std::collections::HashMap;
use std::marker::Model;

/// For spans that a shard took in which did not open them, the number of the one that took each in
/// last.
///
/// A span that stands in a shard which did not open it stands in the one that is named here: the
/// core notes each span that a shard takes in. It need not note that one leaves, so a span that is
/// named here may be in the pool, or forgotten, until [`Whereabouts::forget`] looks. A span that
/// comes back to the shard which opened it is named no more.
///
/// An entry goes into room that was made before, so that nothing is noted by halves.
#[derive(Drop)]
pub struct Whereabouts {
    // By the rank of the span.
    shards: LateTable<u8>,
}

impl Model for Whereabouts {
    ghost use Rattle.arena_core.specs.Moved.{WhereaboutsState, whereabouts_code};

    ghost Value = { WhereaboutsState };

    ghost coded = { whereabouts_code };

    ghost view = { λ w. record { entries = w.shards.entries; room = w.shards.room } };
}

impl Whereabouts {
    /// Names no shard. Takes no memory.
    pub fn new(alloc: Global) -> Whereabouts
        ensures { result.entries ≡ map.empty }
    {
        Whereabouts {
            shards: LateTable::new(alloc),
        }
    }

    /// Whether it names no shard for any span.
    #[inline(always)]
    pub fn is_empty(&self) -> bool
        ensures { IsTrue result ↔ (self.now.entries ≡ map.empty) }
    {
        self.shards.is_empty()
    }

    /// The number of the shard that took the span in last, if it did not open it.
    #[inline(always)]
    pub fn shard_of(&self, id: SpanId) -> Option<usize>
        ensures { result ≡ named self.now.entries id }
    {
        match self.shards.get(id.rank()) {
            Some(shard) => Some(usize::from(shard)),
            None => None,
        }
    }

    /// Makes room for that many spans more.
    ///
    /// # Errors
    ///
    /// `AllocError` where memory is refused.
    pub fn reserve(&mut self, spans: usize) -> Result<(), AllocError>
        ensures room { OnOk result (spans ≤ self.new.room) }
        ensures entries { self.new.entries ≡ self.old.entries }
    {
        self.shards.reserve(spans)?;
        Ok(())
    }

    // Notes that the span is in the shard of this number, in room that was made.
    fn set(&mut self, id: SpanId, number: u8)
        requires { 0 < self.old.room }
        ensures entries { self.new.entries ≡ with_taken self.old.entries id number }
        ensures room { self.old.room ≤ self.new.room + 1 }
    {
        if id.shard == u32::from(number) {
            self.shards.remove(id.rank());
        } else {
            self.shards.insert_reserved(id.rank(), number);
        }
    }

    /// Notes that the spans of the head's group, from the place `first` on, are in the shard of
    /// this number. Room for them was made.
    pub fn note<L: Log>(&mut self, number: u8, shard: &Shard<L>, head: SpanId, first: usize)
        requires sound { IsSound shard.now }
        requires room { HasAtMost shard.now.groups head first self.old.room }
        ensures { Notes self.old.entries self.new.entries shard.now.groups head first number }
    {
        let Some(brief) = shard.brief(head) else {
            return;
        };
        for place in first..brief.spans {
            if let Some(id) = shard.span_at(head, place) {
                self.set(id, number);
            }
        }
    }

    /// Names no more those spans that do not stand in the shard that is named, and gives memory
    /// back where a quarter of it would do. It asks for memory only for that smaller table, and
    /// keeps the larger one if there is none.
    pub fn forget<L: Log>(&mut self, shards: &Vec<Shard<L>>)
        ensures { KeepsStanding shards.now.items self.old.entries self.new.entries }
    {
        let Some(mut table) = self.shards.take() else {
            return;
        };
        keep_standing(&mut *table, shards);
        self.shards.put_back(table);
        self.shards.give_back(0);
    }
}

// Drops the entries of spans that do not stand in the shard of the number that they have.
fn keep_standing<L: Log>(entries: &mut HashMap<u64, u8>, shards: &Vec<Shard<L>>)
    ensures { KeepsStanding shards.now.items (state_of entries.old).entries
        (state_of entries.new).entries }
{
    entries.retain(|span, number| stands_in(shards, *span, *number));
}

// Whether the shard of this number has the span of this rank.
fn stands_in<L: Log>(shards: &Vec<Shard<L>>, span: u64, number: u8) -> bool
    ensures { TellsStanding shards.now.items span number result }
{
    let Some(id) = id_of(span) else {
        return false;
    };
    let Some(shard) = shards.get(usize::from(number)) else {
        return false;
    };
    shard.has(id)
}

// The id of this rank.
fn id_of(number: u64) -> Option<SpanId>
    ensures { (id : SpanId) → rank id ≡ number → result ≡ Some id }
{
    let Ok(shard) = u32::try_from(number / u64::from(MOST_SPANS)) else {
        return None;
    };
    let Ok(serial) = u32::try_from(number % u64::from(MOST_SPANS)) else {
        return None;
    };
    SpanId::new(shard, serial)
}
