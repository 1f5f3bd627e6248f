// A head and its guests, whose live slots differ.
ghost use Rattle.std.specs.Prelude.{[], ◌∷◌, ◌++◌, ◌≡◌, ◌<◌, ◌≤◌, ◌+◌, ◌*◌, ◌/◌, ℕ, IfOk, IfSome, OnOk, OnErr, MatchOption, Some, IsTrue, ◌↔◌, slice_get, length, map, false, vec_len, vec_capacity};
ghost use Rattle.std.specs.Bool.{OnTrue, OnFalse};
ghost use Rattle.std.specs.FinSet as set;
ghost use Rattle.bitmap.specs.Slots.{AreDisjoint};
ghost use Rattle.span.specs.Classes.{slots_in, width_of};
ghost use Rattle.span.specs.Log.{live_slots, Holds};
ghost use Rattle.span.specs.SpanLogs.{AreLegal, room_for_logs, span_of_log};
ghost use Rattle.span.specs.State.{IsSettable};
ghost use Rattle.groups.specs.Dead.{live_among};
ghost use Rattle.groups.specs.Spans.{HasAllIn, IsNextKey, IsVacantIn, OfSpanAt, all_spans, live_count, set_spans, slots_for, summary_of, taken, union_of, with_free_at, with_guest_at, with_head, with_more_guests, with_put, with_set_at, with_span_at};
ghost use Rattle.bitmap.specs.declared.bits.TheConstants.{SLOTS};

use crate::live::is_live;
use bitmap::{Bits256, Vacancy};
use span::names::{Class, Entry, Key, SpanId};
use span::spans::{Counted, Kept, Log, Span, SpanLog};
use std::alloc::{AllocError, Global};
use std::marker::Model;
use std::mem::swap;

/// A head and its guests, which are on one page: no slot is live in two of them (the idea is that
/// of Mesh). The slots that are live in one of them are kept beside them.
#[derive(Drop)]
pub struct Spans<L: Log = Kept> {
    head: Span<L>,
    guests: Vec<Span<L>>,
    occupied: Bits256,
}

impl<L: Log> Model for Spans<L> {
    ghost use Rattle.groups.specs.Spans.{SpansState};

    ghost Value = { SpansState };

    ghost view = { λ s. record { head = s.head; guests = s.guests.items } };

    ghost use Rattle.groups.specs.SpansKept.{IsKept};

    ghost invariant = { λ s.
        IsKept (record { head = s.head; guests = s.guests.items }) s.occupied };
}

impl<L: Log> Spans<L> {
    /// A head with no guest. Takes no memory.
    pub fn of(alloc: Global, head: Span<L>) -> Spans<L>
        ensures { result ≡ record { head = head; guests = [] } }
    {
        let occupied = head.live();
        Spans {
            head,
            guests: Vec::new(alloc),
            occupied,
        }
    }

    /// The id of the head, which names the group.
    pub fn head_id(&self) -> SpanId
        ensures { result ≡ self.now.head.id }
    {
        self.head.id()
    }

    /// How many spans there are, the head and its guests.
    pub fn len(&self) -> usize
        ensures { result ≡ length (all_spans self.now) }
    {
        1 + self.guests.len()
    }

    /// The guests, after the head.
    pub fn guests(&self) -> &[Span<L>]
        ensures { result.now ≡ self.now.guests }
    {
        self.guests.as_slice()
    }

    /// Takes a guest in. Its live slots are live in none of the spans so far.
    ///
    /// # Errors
    ///
    /// `AllocError` where the list of guests could not grow. The spans are then as they were.
    pub fn push(&mut self, guest: Span<L>) -> Result<(), AllocError>
        requires { AreDisjoint (live_slots guest.log) (union_of (all_spans self.old)) }
        ensures ok { OnOk result (self.new ≡ with_more_guests self.old (guest ∷ [])) }
        ensures err { OnErr result (self.new ≡ self.old) }
    {
        self.guests.reserve(1)?;
        self.occupied = self.occupied.union(&guest.live());
        self.guests.push_reserved(guest);
        Ok(())
    }

    /// Takes the other spans in as its last guests. If its own list has no room for them, all its
    /// guests move to the list that is given, which has, and that is given its own list, with none.
    /// No slot is live on both sides. It takes no memory.
    pub fn take_guests(&mut self, spans: Spans<L>, room: &mut Vec<Span<L>>)
        requires apart { AreDisjoint (union_of (all_spans self.old)) (union_of (all_spans spans)) }
        requires none { room.old.items ≡ [] }
        requires room { length self.old.guests + length (all_spans spans) ≤ vec_capacity room.old }
        ensures guests { self.new ≡ with_more_guests self.old (all_spans spans) }
        ensures none { room.new.items ≡ [] }
    {
        self.occupied = self.occupied.union(&spans.occupied);
        append_all(&mut self.guests, room, spans.head, spans.guests);
    }

    /// The slots that are live in one of the spans.
    pub fn occupied(&self) -> Bits256
        ensures { result ≡ union_of (all_spans self.now) }
    {
        self.occupied
    }

    /// The class of the head's objects.
    pub fn class(&self) -> Class
        ensures { result ≡ self.now.head.class }
    {
        self.head.class()
    }

    /// The group as a plan sees it: the id and the class of its head, and the slots that are live
    /// in one of its spans.
    pub fn entry(&self) -> Entry
        ensures { result ≡ summary_of self.now }
    {
        Entry {
            id: self.head_id(),
            class: self.class(),
            occupied: self.occupied,
        }
    }

    /// How many keys are live in the spans.
    pub fn live(&self) -> usize
        ensures live { result ≡ live_count (all_spans self.now) }
        ensures at_most { result ≤ SLOTS }
    {
        self.occupied.count() as usize
    }

    /// The span at the place, 0 being the head.
    pub fn span_at(&self, place: usize) -> &Span<L>
        requires { place < length (all_spans self.now) }
        ensures { slice_get (all_spans self.now) place ≡ Some result.now }
    {
        if place == 0 {
            &self.head
        } else {
            &self.guests[place - 1]
        }
    }

    /// Where a put of an object of the head's class goes that goes to the word, which has the slots
    /// from 64 `word` on: the lowest of them that is live in no span, and not worn in the head.
    /// `None` where no slot of the word below `slot_limit` is such a slot.
    #[inline(always)]
    pub fn find_in(&self, slot_limit: u16, word: usize) -> Option<Vacancy>
        requires { word < 4 }
        ensures { MatchOption result (HasAllIn slot_limit self.now.head.class (taken self.now) word)
            (IsVacantIn slot_limit self.now word) }
    {
        let Some(found) = self.head.lowest_unused_in(&self.occupied, word) else {
            return None;
        };
        if !is_offered(self.head.class(), slot_limit, found.slot) {
            return None;
        }
        Some(found)
    }

    /// Puts an object of the head's class, given by its words, at a slot that is live in no span,
    /// and not worn in the head. The head gives out the key.
    ///
    /// # Errors
    ///
    /// `AllocError` where the head's log could not grow. The spans are then as they were.
    #[inline(always)]
    pub fn put_at(&mut self, slot: u8, words: &[u128]) -> Result<Key, AllocError>
        requires on_page { slot < slots_in self.old.head.class }
        requires width { length words.now ≡ width_of self.old.head.class }
        requires vacant { set.contains (taken self.old) slot ≡ false }
        ensures slot { IfOk result (λ key. key.slot ≡ slot) }
        ensures key { IfOk result (IsNextKey self.old.head) }
        ensures ok { IfOk result (λ key.
            self.new ≡ with_head self.old (with_put self.old.head slot words.now)) }
        ensures err { OnErr result (self.new ≡ self.old) }
    {
        let key = self.head.put_at(slot, words)?;
        self.occupied.insert(slot);
        Ok(key)
    }

    /// Sets the object of the slot in the span at the place to these words, where the slot is live
    /// there at the generation and its object has as many, and says whether it was. The words of
    /// the page are the caller's to write.
    ///
    /// # Errors
    ///
    /// `AllocError` in place of `true`, where the span's log could not grow. The spans are then as
    /// they were.
    #[inline(always)]
    pub fn set(
        &mut self,
        place: usize,
        slot: u8,
        generation: u32,
        words: &[u128],
    ) -> Result<bool, AllocError>
        requires { place < length (all_spans self.old) }
        ensures found { OfSpanAt (all_spans self.old) place (λ span. IfOk result (λ done.
            IsTrue done ↔ IsSettable span slot generation words.now)) }
        ensures set { OfSpanAt (all_spans self.old) place (λ span. IfOk result (λ done.
            OnTrue done (self.new ≡ set_spans self.old place span slot generation words.now))) }
        ensures unknown { IfOk result (λ done. OnFalse done (self.new ≡ self.old)) }
        ensures refused { OfSpanAt (all_spans self.old) place (λ span.
            OnErr result (IsSettable span slot generation words.now)) }
        ensures err { OnErr result (self.new ≡ self.old) }
    {
        if place == 0 {
            self.set_in_head(slot, generation, words)
        } else {
            self.set_in_guest(place - 1, slot, generation, words)
        }
    }

    #[inline(always)]
    fn set_in_head(&mut self, slot: u8, generation: u32, words: &[u128]) -> Result<bool, AllocError>
        ensures found { IfOk result (λ done. IsTrue done
            ↔ IsSettable self.old.head slot generation words.now) }
        ensures set { IfOk result (λ done. OnTrue done (self.new
            ≡ with_head self.old (with_set_at self.old.head slot generation words.now))) }
        ensures unknown { IfOk result (λ done. OnFalse done (self.new ≡ self.old)) }
        ensures refused { OnErr result (IsSettable self.old.head slot generation words.now) }
        ensures err { OnErr result (self.new ≡ self.old) }
    {
        let done = self.head.set_held(slot, generation, words)?;
        Ok(done)
    }

    #[inline(never)]
    fn set_in_guest(
        &mut self,
        at: usize,
        slot: u8,
        generation: u32,
        words: &[u128],
    ) -> Result<bool, AllocError>
        requires { at < length self.old.guests }
        ensures found { OfSpanAt self.old.guests at (λ span. IfOk result (λ done.
            IsTrue done ↔ IsSettable span slot generation words.now)) }
        ensures set { OfSpanAt self.old.guests at (λ span. IfOk result (λ done. OnTrue done
            (self.new ≡ with_guest_at self.old at (with_set_at span slot generation words.now)))) }
        ensures unknown { IfOk result (λ done. OnFalse done (self.new ≡ self.old)) }
        ensures refused { OfSpanAt self.old.guests at (λ span.
            OnErr result (IsSettable span slot generation words.now)) }
        ensures err { OnErr result (self.new ≡ self.old) }
    {
        let done = self.guests[at].set_held(slot, generation, words)?;
        Ok(done)
    }

    /// Frees the slot in the span at the place, where it is live there at the generation. It takes
    /// no memory.
    #[inline(always)]
    pub fn free(&mut self, place: usize, slot: u8, generation: u32) -> bool
        requires { place < length (all_spans self.old) }
        ensures found { OfSpanAt (all_spans self.old) place (λ span.
            IsTrue result ↔ Holds span.log slot generation) }
        ensures freed { OfSpanAt (all_spans self.old) place (λ span. OnTrue result
            (self.new ≡ with_span_at self.old place (with_free_at span slot generation))) }
        ensures unknown { OnFalse result (self.new ≡ self.old) }
    {
        if place == 0 {
            self.free_in_head(slot, generation)
        } else {
            self.free_in_guest(place - 1, slot, generation)
        }
    }

    #[inline(always)]
    fn free_in_head(&mut self, slot: u8, generation: u32) -> bool
        ensures found { IsTrue result ↔ Holds self.old.head.log slot generation }
        ensures freed { OnTrue result
            (self.new ≡ with_head self.old (with_free_at self.old.head slot generation)) }
        ensures unknown { OnFalse result (self.new ≡ self.old) }
    {
        if !self.head.free_held(slot, generation) {
            return false;
        }
        self.occupied.remove(slot);
        true
    }

    #[inline(never)]
    fn free_in_guest(&mut self, at: usize, slot: u8, generation: u32) -> bool
        requires { at < length self.old.guests }
        ensures found { OfSpanAt self.old.guests at (λ span.
            IsTrue result ↔ Holds span.log slot generation) }
        ensures freed { OfSpanAt self.old.guests at (λ span. OnTrue result
            (self.new ≡ with_guest_at self.old at (with_free_at span slot generation))) }
        ensures unknown { OnFalse result (self.new ≡ self.old) }
    {
        if !self.guests[at].free_held(slot, generation) {
            return false;
        }
        self.occupied.remove(slot);
        true
    }
}

impl Spans<Kept> {
    /// Moves the log of each of them, the head's first, to the end of a list with room for them. It
    /// takes no memory.
    pub fn into_logs(self, logs: &mut Vec<SpanLog>)
        requires room { length (all_spans self) ≤ room_for_logs logs.old }
        ensures logs { map span_of_log logs.new.items ≡ map span_of_log logs.old.items
            ++ all_spans self }
        ensures legal { AreLegal logs.old.items → AreLegal logs.new.items }
        ensures room { room_for_logs logs.old ≡ room_for_logs logs.new + length (all_spans self) }
    {
        push_log(logs, self.head);
        for guest in self.guests {
            push_log(logs, guest);
        }
    }
}

impl Spans<Counted> {
    /// Drops the guests in which no slot is live, and keeps the others in order. A guest takes no
    /// put, so none of their slots can be live again; with kept logs they stay, since an audit
    /// reads all. It takes no memory.
    pub fn forget_guests(&mut self)
        ensures { self.new ≡ record self.old { guests = live_among self.old.guests } }
    {
        keep_live(&mut self.guests);
    }
}

// Whether a put of the class may take the slot.
#[inline(always)]
fn is_offered(class: Class, slot_limit: u16, slot: u8) -> bool
    ensures { IsTrue result ↔ (slot < slots_for slot_limit class) }
{
    u16::from(slot) < class.slots() && u16::from(slot) < slot_limit
}

// Drops the guests in which no slot is live.
fn keep_live(guests: &mut Vec<Span<Counted>>)
    ensures { guests.new.items ≡ live_among guests.old.items }
{
    guests.retain(|guest| is_live(guest));
}

// Moves the span's log to the end of the list, in room that it has.
fn push_log(logs: &mut Vec<SpanLog>, span: Span<Kept>)
    requires { 1 ≤ room_for_logs logs.old }
    ensures logs { map span_of_log logs.new.items ≡ map span_of_log logs.old.items ++ span ∷ [] }
    ensures legal { AreLegal logs.old.items → AreLegal logs.new.items }
    ensures room { room_for_logs logs.old ≡ room_for_logs logs.new + 1 }
{
    logs.push_reserved(span.into_log());
}

// Moves the head and the others after the guests. If their list has no room left, all move into the
// one that has, and the lists change places, so that the one with room has none afterwards.
fn append_all<L: Log>(
    guests: &mut Vec<Span<L>>,
    room: &mut Vec<Span<L>>,
    head: Span<L>,
    mut others: Vec<Span<L>>,
)
    requires none { room.old.items ≡ [] }
    requires room { length guests.old.items + (1 + length others.items) ≤ vec_capacity room.old }
    ensures guests { guests.new.items ≡ guests.old.items ++ head ∷ others.items }
    ensures none { room.new.items ≡ [] }
{
    if others.len() < guests.capacity() - guests.len() {
        guests.push_reserved(head);
        append_reserved(guests, &mut others);
        return;
    }
    append_reserved(room, guests);
    room.push_reserved(head);
    append_reserved(room, &mut others);
    swap(guests, room);
}

// Moves the spans of a list after those of another that has room for them, which needs no memory.
fn append_reserved<L: Log>(spans: &mut Vec<Span<L>>, more: &mut Vec<Span<L>>)
    requires { vec_len spans.old + vec_len more.old ≤ vec_capacity spans.old }
    ensures items { spans.new.items ≡ spans.old.items ++ more.old.items }
    ensures none { more.new.items ≡ [] }
    ensures capacity { vec_capacity spans.old ≤ vec_capacity spans.new }
{
    match spans.append(more) {
        Ok(()) => {}
        Err(_) => unreachable!(),
    }
}
