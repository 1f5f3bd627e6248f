// Where guests stand.
ghost use Rattle.std.specs.Prelude.{◌≡◌, ◌<◌, ◌≤◌, ◌-◌, ◌+◌, OnOk, OnErr, is_some, length, max, true};
ghost use Rattle.std.specs.FinMap as map;
ghost use Rattle.span.specs.Ids.{rank};
ghost use Rattle.groups.specs.Directory.{directory_of, entered, entered_from, struck, with_entries, with_guest};
ghost use Rattle.groups.specs.Dead.{AreEntered, dead_among};

use crate::late_table::LateTable;
use crate::live::is_live;
use span::names::SpanId;
use span::spans::{Log, Span};
use std::alloc::{AllocError, Global};
use std::marker::Model;

/// Where a span stands: the head of its group, and its place there, 0 being the head.
#[derive(Clone, Copy, PartialEq, Eq, Debug)]
pub struct Place {
    /// The id of the group's head.
    pub head: SpanId,
    /// How many spans of the group stand before it.
    pub place: usize,
}

/// For the guests of an owner's groups, where they stand, so that a look-up of a guest walks
/// neither groups nor guests.
///
/// A head needs no entry: groups stand by ascending head. An entry goes into reserved room, so that
/// no group that comes or goes takes memory for its guests.
#[derive(Drop)]
pub struct Directory {
    // By the rank of the guest.
    places: LateTable<Place>,
    // For how many more entries the table has room.
    room: usize,
}

impl Model for Directory {
    ghost use Rattle.groups.specs.Directory.{DirectoryState, directory_code};
    ghost use Rattle.std.specs.Coded.{codes};

    ghost Value = { DirectoryState };

    ghost coded = { directory_code (Prim.hlevel codes) };

    ghost use Rattle.groups.specs.DirectoryKept.{IsKept};

    ghost view = { λ d. record { entries = d.places.entries; room = d.room } };

    ghost invariant = { IsKept };
}

impl Directory {
    /// No entry. Takes no memory.
    pub fn new(alloc: Global) -> Directory
        ensures { result ≡ directory_of map.empty 0 }
    {
        Directory {
            places: LateTable::new(alloc),
            room: 0,
        }
    }

    /// Where the guest stands, if it has an entry.
    #[inline(always)]
    pub fn place_of(&self, guest: SpanId) -> Option<Place>
        ensures { result ≡ map.get self.now.entries (rank guest) }
    {
        // An owner mostly has no guests, and then nothing is hashed.
        if self.places.is_empty() {
            return None;
        }
        self.places.get(guest.rank())
    }

    /// Makes room for that many more entries, where less is reserved.
    ///
    /// # Errors
    ///
    /// `AllocError` where memory is refused. The directory is then as it was.
    pub fn reserve(&mut self, guests: usize) -> Result<(), AllocError>
        ensures ok { OnOk result (self.new ≡ record self.old { room = max self.old.room guests }) }
        ensures err { OnErr result (self.new ≡ self.old) }
    {
        self.places.reserve(guests)?;
        self.room = self.room.max(guests);
        Ok(())
    }

    /// Enters the guests of the head from the place `first` on, counted from 0, in reserved room.
    pub fn enter_from<L: Log>(&mut self, first: usize, guests: &[Span<L>], head: SpanId)
        requires within { first ≤ length guests.now }
        requires room { length guests.now ≤ self.old.room + first }
        ensures { self.new ≡ entered_from self.old first guests.now head }
    {
        for place in first..guests.len() {
            self.enter(guests[place].id(), head, place + 1);
        }
    }

    // Enters the span as a guest of the head at the place, in reserved room.
    fn enter(&mut self, guest: SpanId, head: SpanId, place: usize)
        requires { 0 < self.old.room }
        ensures { self.new
            ≡ directory_of (with_guest self.old.entries guest head place) (self.old.room - 1) }
    {
        self.places
            .insert_reserved(guest.rank(), Place { head, place });
        self.room -= 1;
    }

    /// Strikes the entries of the spans, which takes no memory and leaves the reserved room.
    pub fn strike_all<L: Log>(&mut self, guests: &[Span<L>])
        ensures { self.new ≡ with_entries self.old (struck self.old.entries guests.now) }
    {
        for index in 0..guests.len() {
            self.strike(guests[index].id());
        }
    }

    /// Strikes the entries of those spans in which no slot is live, which takes no memory and
    /// leaves the reserved room.
    pub fn strike_dead<L: Log>(&mut self, guests: &[Span<L>])
        ensures { self.new
            ≡ with_entries self.old (struck self.old.entries (dead_among guests.now)) }
    {
        for index in 0..guests.len() {
            let guest = &guests[index];
            if !is_live(guest) {
                self.strike(guest.id());
            }
        }
    }

    /// Gives memory back where a quarter of the room in the table would do for the entries and
    /// those that room is reserved for.
    pub fn give_back(&mut self)
        ensures { self.new ≡ self.old }
    {
        self.places.give_back(self.room);
    }

    /// Writes into the entries of the guests, each of which has one, that they are the guests of
    /// the head, in this order. It takes neither memory nor reserved room.
    pub fn move_all<L: Log>(&mut self, guests: &[Span<L>], head: SpanId)
        requires { AreEntered self.old.entries guests.now }
        ensures { self.new ≡ with_entries self.old (entered self.old.entries guests.now head 1) }
    {
        for index in 0..guests.len() {
            self.move_to(guests[index].id(), head, index + 1);
        }
    }

    // Writes into the entry of the guest that it is a guest of the head at the place.
    fn move_to(&mut self, guest: SpanId, head: SpanId, place: usize)
        requires { is_some (map.get self.old.entries (rank guest)) ≡ true }
        ensures { self.new ≡ with_entries self.old (with_guest self.old.entries guest head place) }
    {
        self.places.write_over(guest.rank(), Place { head, place });
    }

    // Strikes the entry of the span, if it has one.
    fn strike(&mut self, guest: SpanId)
        ensures { self.new ≡ with_entries self.old (map.remove self.old.entries (rank guest)) }
    {
        self.places.remove(guest.rank());
    }
}
