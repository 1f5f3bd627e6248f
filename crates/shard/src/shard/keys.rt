// Look-ups and frees, and where the span of a key stands.
ghost use Rattle.std.specs.Prelude.{◌≡◌, ◌≢◌, ◌+◌, ◌<◌, ◌≤◌, ℕ, false, true, IfSome, MatchOption, is_some, length};
ghost use Rattle.span.specs.Order.{HasNoneFrom, IsFirstFrom};
ghost use Rattle.groups.specs.Group.{HasNoHead, IsElsewhere, IsHeadOf, StandsAt};
ghost use Rattle.groups.specs.Shown.{without_if};
ghost use Rattle.shard.specs.Calls.{FindsObject, Frees, Gets, value_found, was_freed};
ghost use Rattle.shard.specs.Group.{GroupState};
ghost use Rattle.shard.specs.Shown.{shown};
ghost use Rattle.shard.specs.Sound.{IsSound};

use super::{Found, Freed, Shard, head_index};
use crate::class_rooms::WORDS;
use crate::head_indexes::{HEADS, is_noted};
use crate::least_live::clear_byte;
use span::names::{Key, SpanId};
use span::spans::Log;

impl<L: Log> Shard<L> {
    /// The words of the key's object, where it is live here. They are lent from the page, which all
    /// spans of a group share.
    // Inlined, what is found stays in registers: a call passes it through memory.
    #[inline(always)]
    pub fn get(&self, key: &Key) -> Found<'_>
        ensures found { Gets self.now key.now result }
        ensures width { FindsObject result }
        ensures plain { value_found result ≡ (shown self.now).value_of key.now }
        ensures sound { IsSound self.now }
    {
        match self.find(key.span) {
            Some((index, place)) => self.get_at(index, place, key),
            None => Found::NotHere,
        }
    }

    /// What [`Shard::get`] finds, if it is noted that the span of the key is a head here, else
    /// `None`. A caller asks on by [`Shard::is_away`], [`Shard::get_guest`] and
    /// [`Shard::get_searched`], in a function that is not inlined. So the way that mostly comes
    /// saves no registers for the others.
    #[inline(always)]
    pub fn get_first(&self, key: &Key) -> Option<Found<'_>>
        ensures found { IfSome result (λ found. Gets self.now key.now found) }
        ensures here { IfSome result (λ found. found ≢ Found.NotHere) }
        ensures width { IfSome result FindsObject }
        ensures plain { IfSome result (λ found. value_found found
            ≡ (shown self.now).value_of key.now) }
    {
        let Some(index) = self.first_index(key.span) else {
            return None;
        };
        Some(self.get_at(index, 0, key))
    }

    /// What [`Shard::get`] finds, if it is noted that the span of the key is a guest here, and
    /// where it stands; else `None`.
    #[inline(always)]
    pub fn get_guest(&self, key: &Key) -> Option<Found<'_>>
        ensures found { IfSome result (λ found. Gets self.now key.now found) }
        ensures here { IfSome result (λ found. found ≢ Found.NotHere) }
        ensures width { IfSome result FindsObject }
        ensures plain { IfSome result (λ found. value_found found
            ≡ (shown self.now).value_of key.now) }
    {
        match self.near_guest(key.span) {
            Some((index, place)) => Some(self.get_at(index, place, key)),
            None => None,
        }
    }

    /// What [`Shard::get`] finds. No note of the span of the key is asked.
    #[inline(always)]
    pub fn get_searched(&self, key: &Key) -> Found<'_>
        ensures found { Gets self.now key.now result }
        ensures width { FindsObject result }
        ensures plain { value_found result ≡ (shown self.now).value_of key.now }
    {
        let (index, place) = self.search(key.span);
        if index >= self.groups.len() {
            return Found::NotHere;
        }
        self.get_at(index, place, key)
    }

    /// Whether it is noted of the span that it is neither a head nor a guest here, as it is of each
    /// of the last spans that the shard opened.
    #[inline(always)]
    pub fn is_away(&self, id: SpanId) -> bool
        ensures { result ≡ true → IsElsewhere self.now.groups id }
    {
        id.shard == self.number && self.heads.tells_away(id.serial)
    }

    // What is found of the key in its span, which stands at the place of the group at the index.
    #[inline(always)]
    fn get_at(&self, index: usize, place: usize, key: &Key) -> Found<'_>
        requires { StandsAt self.now.groups key.now.span index place }
        ensures found { Gets self.now key.now result }
        ensures here { result ≢ Found.NotHere }
        ensures width { FindsObject result }
        ensures plain { value_found result ≡ (shown self.now).value_of key.now }
        ensures sound { IsSound self.now }
    {
        let group = &self.groups[index];
        let span = group.span_at(place);
        let at = span.changes();
        if span.holds(key.slot, key.generation) {
            let class = span.class();
            let words = group.value_at(class, key.slot);
            Found::Value(words, at)
        } else {
            Found::Gone(at)
        }
    }

    /// Frees the key, where it is live here. It takes no memory.
    #[inline(always)]
    pub fn free(&mut self, key: &Key) -> Freed
        ensures step { Frees self.old key.now result self.new }
        ensures found { was_freed result ≡ is_some ((shown self.old).value_of key.now) }
        ensures plain { shown self.new ≡ without_if (was_freed result) (shown self.old) key.now }
        ensures sound { IsSound self.new }
    {
        let Some((index, place)) = self.find(key.span) else {
            return Freed::NotHere;
        };
        self.free_at(index, place, key)
    }

    /// What [`Shard::free`] does, if the span of the key is the head of the group at the index
    /// ([`Shard::first_index`]). A caller that asks this first, and makes any other call in a
    /// function that is not inlined, saves no registers for it on the way that mostly comes.
    #[inline(always)]
    pub fn free_first(&mut self, index: usize, key: &Key) -> Freed
        requires { StandsAt self.old.groups key.now.span index 0 }
        ensures step { Frees self.old key.now result self.new }
        ensures here { result ≢ Freed.NotHere }
        ensures found { was_freed result ≡ is_some ((shown self.old).value_of key.now) }
        ensures plain { shown self.new ≡ without_if (was_freed result) (shown self.old) key.now }
        ensures sound { IsSound self.new }
    {
        self.free_at(index, 0, key)
    }

    /// The index of the group whose head the span is, if it is noted that it is one.
    #[inline(always)]
    pub fn first_index(&self, id: SpanId) -> Option<usize>
        ensures place { IfSome result (λ index. StandsAt self.now.groups id index 0) }
        ensures sound { IsSound self.now }
    {
        let Some(note) = self.heads.note_of(id.serial) else {
            return None;
        };
        let index = note as usize;
        if !self.is_head(index, id) {
            return None;
        }
        Some(index)
    }

    // Frees the key in its span, which stands at the place of the group at the index.
    #[inline(always)]
    fn free_at(&mut self, index: usize, place: usize, key: &Key) -> Freed
        requires { StandsAt self.old.groups key.now.span index place }
        ensures step { Frees self.old key.now result self.new }
        ensures here { result ≢ Freed.NotHere }
        ensures found { was_freed result ≡ is_some ((shown self.old).value_of key.now) }
        ensures plain { shown self.new ≡ without_if (was_freed result) (shown self.old) key.now }
        ensures sound { IsSound self.new }
    {
        let group = &mut self.groups[index];
        let at = group.span_at(place).changes();
        if !group.free(place, key.slot, key.generation) {
            return Freed::No(at);
        }
        let class = group.class();
        // Before the set, whose slow branch is a call: the index is not needed after it.
        clear_byte(&mut self.least, index);
        self.rooms
            .insert(class, WORDS * index + usize::from(key.slot / 64));
        Freed::Yes(at)
    }

    /// The key of the span's lowest live slot from this one on, if one is live here. It takes no
    /// memory.
    pub fn first_from(&self, id: SpanId, slot: u32) -> Option<Key>
        ensures first { MatchOption result (HasNoneFrom (shown self.now) id slot)
            (IsFirstFrom (shown self.now) id slot) }
        ensures sound { IsSound self.now }
    {
        let Some((index, place)) = self.find(id) else {
            return None;
        };
        self.groups[index].span_at(place).first_from(slot)
    }

    // Where the span of the id stands: its group, and its place there. It is asked first whether it
    // is noted as a head. That much is inlined, so that the place stays in registers; a call would
    // pass it through memory.
    #[inline(always)]
    pub(super) fn find(&self, id: SpanId) -> Option<(usize, usize)>
        ensures sound { IsSound self.now }
        ensures place { MatchOption result (IsElsewhere self.now.groups id) (λ at.
            StandsAt self.now.groups id at.0 at.1) }
    {
        if let Some(index) = self.first_index(id) {
            return Some((index, 0));
        }
        let (index, place) = self.find_other(id);
        if index >= self.groups.len() {
            return None;
        }
        Some((index, place))
    }

    // Whether the group at the index, if there is one, has this head.
    #[inline(always)]
    fn is_head(&self, index: usize, head: SpanId) -> bool
        ensures yes { result ≡ true → (group : GroupState)
            × IsHeadOf self.now.groups head index group }
        ensures no { result ≡ false → (group : GroupState)
            → IsHeadOf self.now.groups head index group → ⊥ }
        ensures sound { IsSound self.now }
    {
        index < self.groups.len() && self.groups[index].head_id() == head
    }

    // Where the guest stands, if what is noted of it holds.
    #[inline(always)]
    fn near_guest(&self, id: SpanId) -> Option<(usize, usize)>
        ensures { IfSome result (λ at. StandsAt self.now.groups id at.0 at.1) }
    {
        let Some(note) = self.heads.note_of(id.serial) else {
            return None;
        };
        let place = (note / HEADS) as usize;
        if place == 0 {
            return None;
        }
        let index = self.heads.index_by_note(note);
        if !self.is_guest(index, place, id) {
            return None;
        }
        Some((index, place))
    }

    // A place past all groups.
    #[inline(always)]
    fn nowhere(&self) -> (usize, usize)
        ensures { length self.now.groups ≤ result.0 }
    {
        (self.groups.len(), 0)
    }

    // Whether the group at the index, if there is one, has this span at the place.
    #[inline(always)]
    fn is_guest(&self, index: usize, place: usize, guest: SpanId) -> bool
        ensures { result ≡ true → StandsAt self.now.groups guest index place }
    {
        if index >= self.groups.len() {
            return false;
        }
        let group = &self.groups[index];
        if place >= group.len() {
            return false;
        }
        group.span_at(place).id() == guest
    }

    // The index that is noted for the head, and whether it is one of those that the shard notes:
    // its group stands there, if there is one.
    #[inline(always)]
    fn noted_index(&self, head: SpanId) -> (usize, bool)
        ensures { result.1 ≡ true → (index : ℕ) (group : GroupState)
            → IsHeadOf self.now.groups head index group → result.0 ≡ index }
    {
        let is_noted = is_noted(self.number, self.heads.base(), head);
        match self.heads.note_of(head.serial) {
            Some(index) => (index as usize, is_noted),
            None => (self.groups.len(), is_noted),
        }
    }

    // Where a span stands that is not noted as a head; past all groups where it stands nowhere. Two
    // numbers come back in registers, and an option of them through memory, which a caller clears
    // before it knows whether it asks.
    #[inline(never)]
    fn find_other(&self, id: SpanId) -> (usize, usize)
        ensures elsewhere { length self.now.groups ≤ result.0 → IsElsewhere self.now.groups id }
        ensures here { result.0 < length self.now.groups
            → StandsAt self.now.groups id result.0 result.1 }
    {
        if self.is_away(id) {
            return self.nowhere();
        }
        match self.near_guest(id) {
            Some(near) => near,
            None => self.search(id),
        }
    }

    // The same, by no note: a guest goes by the directory, and any other span is found by halving.
    #[inline(always)]
    fn search(&self, id: SpanId) -> (usize, usize)
        ensures elsewhere { length self.now.groups ≤ result.0 → IsElsewhere self.now.groups id }
        ensures here { result.0 < length self.now.groups
            → StandsAt self.now.groups id result.0 result.1 }
    {
        if let Some(at) = self.guests.place_of(id) {
            return match self.find_head(at.head) {
                Some(index) => (index, at.place),
                None => self.nowhere(),
            };
        }
        match head_index(&self.groups, id) {
            Some(index) => (index, 0),
            None => self.nowhere(),
        }
    }

    // Where the group of the head stands.
    pub(super) fn find_head(&self, head: SpanId) -> Option<usize>
        ensures head { MatchOption result (HasNoHead self.now.groups head)
            (λ index. (group : GroupState) × IsHeadOf self.now.groups head index group) }
        ensures within { IfSome result (λ index. index < length self.now.groups) }
        ensures sound { IsSound self.now }
    {
        let (noted, is_noted) = self.noted_index(head);
        if self.is_head(noted, head) {
            return Some(noted);
        }
        if is_noted {
            return None;
        }
        head_index(&self.groups, head)
    }
}
