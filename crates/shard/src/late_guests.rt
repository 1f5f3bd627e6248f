// What a shard keeps of guests, which has memory only once room was reserved.
ghost use Rattle.std.specs.Prelude.{[], ◌≡◌, ◌-◌, ◌+◌, ◌<◌, ◌≤◌, ℕ, None, OnErr, OnOk, drop, length, vec_capacity};
ghost use Rattle.std.specs.FinMap as map;
ghost use Rattle.groups.specs.Dead.{AreEntered, dead_among};
ghost use Rattle.groups.specs.Directory.{entered_from, struck, with_entries};
ghost use Rattle.shard.specs.Guests.{HasReserved, KeepsGuests, KeepsRoom, no_guests, with_moved};
ghost use Rattle.span.specs.Ids.{rank};

use crate::guests::Guests;
use groups::Place;
use span::names::SpanId;
use span::spans::{Log, Span};
use std::alloc::{AllocError, Global};
use std::marker::Model;

/// The guests of a shard and the room for more, in a box that comes with the first room. Until then
/// it takes a word of the shard.
#[derive(Drop)]
pub struct LateGuests<L: Log> {
    guests: Option<Box<Guests<L>>>,
}

impl<L: Log> Model for LateGuests<L> {
    ghost use Rattle.std.specs.Prelude.{option_map, unwrap_or};
    ghost use Rattle.std.specs.Coded.{codes};
    ghost use Rattle.shard.specs.Guests.{GuestsState, guests_code, no_guests};

    ghost Value = { GuestsState };

    ghost coded = { guests_code (Prim.hlevel codes) (Prim.hlevel codes) };

    ghost view = { λ late. unwrap_or (option_map (λ guests. guests.value) late.guests) no_guests };
}

impl<L: Log> LateGuests<L> {
    /// No guest, and room for none. It takes no memory.
    pub fn new() -> LateGuests<L>
        ensures { result ≡ no_guests }
    {
        LateGuests { guests: None }
    }

    /// Where the guest stands, if it has an entry.
    #[inline(always)]
    pub fn place_of(&self, guest: SpanId) -> Option<Place>
        ensures { result ≡ map.get self.now.directory.entries (rank guest) }
    {
        match &self.guests {
            Some(guests) => guests.place_of(guest),
            None => None,
        }
    }

    /// Makes room for that many more spans, as guests of the group that is named, if one is, in the
    /// empty list.
    ///
    /// # Errors
    ///
    /// `AllocError` where memory is refused. It says then what it said, and its room is as it was.
    pub fn reserve(
        &mut self,
        alloc: Global,
        spans: usize,
        onto: Option<SpanId>,
        list: Vec<Span<L>>,
    ) -> Result<(), AllocError>
        requires { list.items ≡ [] }
        ensures keeps { KeepsGuests self.old self.new }
        ensures ok { OnOk result (HasReserved spans onto (vec_capacity list) self.new) }
        ensures err { OnErr result (KeepsRoom self.old self.new) }
    {
        if let Some(guests) = &mut self.guests {
            return guests.reserve(spans, onto, list);
        }
        let mut guests = Guests::new(alloc);
        guests.reserve(spans, onto, list)?;
        self.guests = Some(Box::new(alloc, guests)?);
        Ok(())
    }

    /// The list that was reserved. Its room is gone then.
    pub fn take_list(&mut self, alloc: Global) -> Vec<Span<L>>
        ensures none { result.items ≡ [] }
        ensures room { vec_capacity result ≡ self.old.list_room }
        ensures rest { self.new ≡ record self.old { list_room = 0 } }
    {
        match &mut self.guests {
            Some(guests) => guests.take_list(alloc),
            None => Vec::new(alloc),
        }
    }

    /// Enters the guests of the head from the place `first` on, counted from 0, in the room that
    /// was reserved, which is less by so many spans then.
    pub fn arrive(&mut self, first: usize, guests: &[Span<L>], head: SpanId, count: usize)
        requires within { first ≤ length guests.now }
        requires entries { length guests.now ≤ self.old.directory.room + first }
        requires some { 0 < count }
        requires count { count ≤ self.old.span_room }
        ensures directory { self.new.directory
            ≡ entered_from self.old.directory first guests.now head }
        ensures span_room { self.new.span_room ≡ self.old.span_room - count }
        ensures onto { self.new.onto ≡ None }
    {
        match &mut self.guests {
            Some(late) => late.arrive(first, guests, head, count),
            None => unreachable!(),
        }
    }

    /// Strikes the guests, whose group leaves. Room is no longer that of a group that is named.
    pub fn depart(&mut self, guests: &[Span<L>])
        ensures directory { self.new.directory
            ≡ with_entries self.old.directory (struck self.old.directory.entries guests.now) }
        ensures span_room { self.new.span_room ≡ self.old.span_room }
        ensures onto { self.new.onto ≡ None }
    {
        let Some(late) = &mut self.guests else {
            return;
        };
        late.depart(guests);
    }

    /// Room is no longer that of a group that is named.
    pub fn leave_onto(&mut self)
        ensures { self.new ≡ record self.old { onto = None } }
    {
        if let Some(guests) = &mut self.guests {
            guests.leave_onto();
        }
    }

    /// Strikes those of the guests in which no slot is live.
    pub fn strike_dead(&mut self, guests: &[Span<L>])
        ensures directory { self.new.directory ≡ with_entries self.old.directory
            (struck self.old.directory.entries (dead_among guests.now)) }
        ensures room { KeepsRoom self.old self.new }
    {
        let Some(late) = &mut self.guests else {
            return;
        };
        late.strike_dead(guests);
    }

    /// Writes that the guests, each of which has an entry, are the guests of the head, in this
    /// order.
    pub fn move_all(&mut self, guests: &[Span<L>], head: SpanId)
        requires { AreEntered self.old.directory.entries guests.now }
        ensures { self.new ≡ with_moved self.old guests.now head }
    {
        let Some(late) = &mut self.guests else {
            return;
        };
        late.move_all(guests, head);
    }
}
