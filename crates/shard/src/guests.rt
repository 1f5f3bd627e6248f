// What a shard keeps of guests, and for folds.
ghost use Rattle.std.specs.Prelude.{[], ◌≡◌, ◌-◌, ◌+◌, ◌<◌, ◌≤◌, ℕ, None, OnErr, OnOk, drop, length, vec_capacity};
ghost use Rattle.std.specs.FinMap as map;
ghost use Rattle.groups.specs.Dead.{AreEntered, dead_among};
ghost use Rattle.groups.specs.Directory.{entered_from, struck, with_entries};
ghost use Rattle.shard.specs.Guests.{HasReserved, KeepsGuests, KeepsRoom, no_guests, with_moved};
ghost use Rattle.span.specs.Ids.{rank};

use groups::{Directory, Place};
use span::names::SpanId;
use span::spans::{Log, Span};
use std::alloc::{AllocError, Global};
use std::marker::Model;
use std::mem::replace;

/// Where the guests of a shard stand, and room for more.
#[derive(Drop)]
pub struct Guests<L: Log> {
    directory: Directory,
    // For how many more spans room is reserved, and for the guests of which group, if one is named.
    span_room: usize,
    onto: Option<SpanId>,
    // An empty list with room for the guests of the group `onto` and those for which room is
    // reserved.
    list: Vec<Span<L>>,
}

impl<L: Log> Model for Guests<L> {
    ghost use Rattle.std.specs.Coded.{codes};
    ghost use Rattle.shard.specs.Guests.{GuestsState, guests_code};
    ghost use Rattle.shard.specs.GuestsKept.{state_of, IsKept};

    ghost Value = { GuestsState };

    ghost coded = { guests_code (Prim.hlevel codes) (Prim.hlevel codes) };

    ghost view = { state_of };

    ghost invariant = { IsKept };
}

impl<L: Log> Guests<L> {
    /// No guest, and room for none. Takes no memory.
    pub fn new(alloc: Global) -> Guests<L>
        ensures { result ≡ no_guests }
    {
        Guests {
            directory: Directory::new(alloc),
            span_room: 0,
            onto: None,
            list: Vec::new(alloc),
        }
    }

    /// Where the guest stands, if it has an entry.
    pub fn place_of(&self, guest: SpanId) -> Option<Place>
        ensures { result ≡ map.get self.now.directory.entries (rank guest) }
    {
        self.directory.place_of(guest)
    }

    /// Makes room for that many more spans, as guests of the group that is named, if one is, in the
    /// empty list.
    ///
    /// # Errors
    ///
    /// `AllocError` where memory is refused. It says then what it said, and its room is as it was.
    pub fn reserve(
        &mut self,
        spans: usize,
        onto: Option<SpanId>,
        list: Vec<Span<L>>,
    ) -> Result<(), AllocError>
        requires { list.items ≡ [] }
        ensures keeps { KeepsGuests self.old self.new }
        ensures ok { OnOk result (HasReserved spans onto (vec_capacity list) self.new) }
        ensures err { OnErr result (KeepsRoom self.old self.new) }
    {
        self.directory.reserve(spans)?;
        self.span_room = spans;
        self.onto = onto;
        self.list = list;
        Ok(())
    }

    /// The list that was reserved. Its room is gone then.
    pub fn take_list(&mut self, alloc: Global) -> Vec<Span<L>>
        ensures none { result.items ≡ [] }
        ensures room { vec_capacity result ≡ self.old.list_room }
        ensures rest { self.new ≡ record self.old { list_room = 0 } }
    {
        replace(&mut self.list, Vec::new(alloc))
    }

    /// Enters the guests of the head from the place `first` on, counted from 0, in the room that
    /// was reserved, which is less by so many spans then.
    pub fn arrive(&mut self, first: usize, guests: &[Span<L>], head: SpanId, count: usize)
        requires within { first ≤ length guests.now }
        requires entries { length guests.now ≤ self.old.directory.room + first }
        requires count { count ≤ self.old.span_room }
        ensures directory { self.new.directory
            ≡ entered_from self.old.directory first guests.now head }
        ensures span_room { self.new.span_room ≡ self.old.span_room - count }
        ensures onto { self.new.onto ≡ None }
    {
        self.directory.enter_from(first, guests, head);
        self.span_room -= count;
        self.onto = None;
    }

    /// Strikes the guests, whose group leaves. Room is no longer that of a group that is named.
    pub fn depart(&mut self, guests: &[Span<L>])
        ensures directory { self.new.directory
            ≡ with_entries self.old.directory (struck self.old.directory.entries guests.now) }
        ensures span_room { self.new.span_room ≡ self.old.span_room }
        ensures onto { self.new.onto ≡ None }
    {
        self.directory.strike_all(guests);
        self.onto = None;
    }

    /// Room is no longer that of a group that is named.
    pub fn leave_onto(&mut self)
        ensures { self.new ≡ record self.old { onto = None } }
    {
        self.onto = None;
    }

    /// Strikes those of the guests in which no slot is live.
    pub fn strike_dead(&mut self, guests: &[Span<L>])
        ensures directory { self.new.directory ≡ with_entries self.old.directory
            (struck self.old.directory.entries (dead_among guests.now)) }
        ensures room { KeepsRoom self.old self.new }
    {
        self.directory.strike_dead(guests);
    }

    /// Writes that the guests, each of which has an entry, are the guests of the head, in this
    /// order.
    pub fn move_all(&mut self, guests: &[Span<L>], head: SpanId)
        requires { AreEntered self.old.directory.entries guests.now }
        ensures { self.new ≡ with_moved self.old guests.now head }
    {
        self.directory.move_all(guests, head);
    }
}
