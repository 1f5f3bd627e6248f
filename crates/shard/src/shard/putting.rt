// Puts: into the lowest group that has a usable slot, or into a new one.
ghost use Rattle.std.specs.Prelude.{◌+◌, ◌≡◌, ◌≤◌, ◌<◌, ◌↔◌, Err, IfOk, IsOkUnless, OnErr, OnOk, false, length, true};
ghost use Rattle.span.specs.Classes.{class_of, slots_in, width_of};
ghost use Rattle.span.specs.PlainMap as plain;
ghost use Rattle.page.specs.Words.{IsInObjects, blank_page, set_object};
ghost use Rattle.shard.specs.Calls.{IsFull, IsSpent, Puts, PutsInNew};
ghost use Rattle.shard.specs.Shown.{shown};
ghost use Rattle.shard.specs.Sound.{IsSound};

use super::Shard;
use crate::class_rooms::WORDS;
use crate::error::PutError;
use crate::group::{Group, Placed, make_room};
use crate::group_row::GroupRow;
use crate::least_live::{add_byte, note_before, reserve_bytes};
use groups::Spans;
use page::{MaybePage, Page};
use span::names::{Class, Key, Object, SpanId};
use span::spans::{Log, Span};
use std::alloc::{AllocError, Global};

impl<L: Log> Shard<L> {
    /// Keeps the object at the lowest usable slot of the open group of its class of lowest head
    /// that has one, and where there is none, at slot 0 of a span that it opens on a new page. It
    /// gives the key, which the group's head gives out, and the number of changes that the head's
    /// log had before.
    ///
    /// It is refused with `Ended` exactly after the shard's end, and with `PagesSpent` exactly
    /// where it has not ended, no open group has a usable slot, and it has as many groups as it may
    /// have pages, or has opened as many spans as it may. With `OutOfMemory` an allocation was
    /// refused; each stands before the first change.
    pub fn put(&mut self, object: Object) -> Result<(Key, usize), PutError>
        ensures ok { IfOk result (λ made.
            Puts self.old (class_of object) object made.0 made.1 self.new) }
        ensures fresh { IfOk result (λ made. (shown self.old).is_issued made.0 ≡ false) }
        ensures plain { IfOk result (λ made. shown self.new
            ≡ plain.with_put (shown self.old) made.0 object) }
        ensures sound { IsSound self.new }
        ensures spent { (result ≡ Err PutError.PagesSpent)
            ↔ ((self.old.ended ≡ false) × IsSpent (class_of object) self.old) }
        ensures ended { (result ≡ Err PutError.Ended) ↔ (self.old.ended ≡ true) }
        ensures err { OnErr result (self.new ≡ self.old) }
    {
        self.put_words(object.class(), object.words())
    }

    /// What [`Shard::put`] does with the object of these words, which are as many as the class has:
    /// they are copied to the page from where they stand, and no object is made.
    // Inlined, a caller's class is a constant in it, and what it answers stays in registers. Only
    // the first look is inlined.
    #[inline(always)]
    pub fn put_words(&mut self, class: Class, words: &[u128]) -> Result<(Key, usize), PutError>
        requires { length words.now ≡ width_of class }
        ensures ok { IfOk result (λ made. Puts self.old class words.now made.0 made.1 self.new) }
        ensures fresh { IfOk result (λ made. (shown self.old).is_issued made.0 ≡ false) }
        ensures plain { IfOk result (λ made. shown self.new
            ≡ plain.with_put (shown self.old) made.0 words.now) }
        ensures sound { IsSound self.new }
        ensures spent { (result ≡ Err PutError.PagesSpent)
            ↔ ((self.old.ended ≡ false) × IsSpent class self.old) }
        ensures ended { (result ≡ Err PutError.Ended) ↔ (self.old.ended ≡ true) }
        ensures err { OnErr result (self.new ≡ self.old) }
    {
        if self.ended {
            return Err(PutError::Ended);
        }
        let Some(number) = self.rooms.lowest(class) else {
            return self.put_otherwise(class, words);
        };
        let group = &mut self.groups[number / WORDS];
        let at = group.span_at(0).changes();
        let Some(Placed { key, is_full }) = group.put(
            self.alloc,
            class,
            number % WORDS,
            self.slot_limit,
            words,
        )?
        else {
            return self.put_otherwise(class, words);
        };
        // A word that is full now leaves the set at once, by what is known of it in registers and
        // without a branch: every other put would look there first.
        self.rooms.remove_if(class, number, is_full);
        Ok((key, at))
    }

    // The same, if the first group does not take it. What the search answers lies in memory, which
    // is cleared for it here alone.
    #[inline(always)]
    fn put_otherwise(&mut self, class: Class, words: &[u128]) -> Result<(Key, usize), PutError>
        requires { length words.now ≡ width_of class }
        ensures ok { IfOk result (λ made. Puts self.old class words.now made.0 made.1 self.new) }
        ensures fresh { IfOk result (λ made. (shown self.old).is_issued made.0 ≡ false) }
        ensures plain { IfOk result (λ made. shown self.new
            ≡ plain.with_put (shown self.old) made.0 words.now) }
        ensures sound { IsSound self.new }
        ensures spent { (result ≡ Err PutError.PagesSpent)
            ↔ ((self.old.ended ≡ false) × IsSpent class self.old) }
        ensures ended { (result ≡ Err PutError.Ended) ↔ (self.old.ended ≡ true) }
        ensures err { OnErr result (self.new ≡ self.old) }
    {
        let made = self.put_searched(class, words)?;
        Ok(made)
    }

    // The same, in the lowest group of the class that turns out to have a usable slot, or in a new
    // one.
    #[inline(never)]
    fn put_searched(&mut self, class: Class, words: &[u128]) -> Result<(Key, usize), PutError>
        requires { length words.now ≡ width_of class }
        ensures ok { IfOk result (λ made. Puts self.old class words.now made.0 made.1 self.new) }
        ensures fresh { IfOk result (λ made. (shown self.old).is_issued made.0 ≡ false) }
        ensures plain { IfOk result (λ made. shown self.new
            ≡ plain.with_put (shown self.old) made.0 words.now) }
        ensures sound { IsSound self.new }
        ensures spent { (result ≡ Err PutError.PagesSpent)
            ↔ ((self.old.ended ≡ false) × IsSpent class self.old) }
        ensures ended { (result ≡ Err PutError.Ended) ↔ (self.old.ended ≡ true) }
        ensures err { OnErr result (self.new ≡ self.old) }
    {
        if self.ended {
            return Err(PutError::Ended);
        }
        while let Some(number) = self.rooms.lowest(class) {
            let group = &mut self.groups[number / WORDS];
            let at = group.span_at(0).changes();
            if let Some(Placed { key, is_full }) = group.put(
                self.alloc,
                class,
                number % WORDS,
                self.slot_limit,
                words,
            )? {
                self.rooms.remove_if(class, number, is_full);
                return Ok((key, at));
            }
            self.rooms.remove(class, number);
        }
        if self.groups.len() >= self.page_limit as usize || self.opened >= self.span_limit {
            return Err(PutError::PagesSpent);
        }
        let key = self.put_in_new(class, words)?;
        Ok((key, 0))
    }

    // Opens a span on a new page, with the value at its first slot. The new head, its page, the
    // list of groups and the sets of those with room grow before the shard changes. No other group
    // has room, so its own is the only one that may have.
    #[inline(never)]
    fn put_in_new(&mut self, class: Class, words: &[u128]) -> Result<Key, PutError>
        requires width { length words.now ≡ width_of class }
        requires full { IsFull self.old.slot_limit class self.old.groups }
        requires pages { length self.old.groups < self.old.page_limit }
        requires opened { self.old.opened < self.old.span_limit }
        requires running { self.old.ended ≡ false }
        ensures ok { IfOk result (λ key. PutsInNew self.old class words.now key 0 self.new) }
        ensures only { IsOkUnless result PutError.OutOfMemory }
        ensures err { OnErr result (self.new ≡ self.old) }
    {
        let Some(id) = SpanId::new(self.number, self.opened) else {
            unreachable!();
        };
        let mut head = Span::with_log(self.alloc, id, class, self.gens);
        let key = head.put_at(0, words)?;
        let reach = first_reach(class, self.groups.len(), self.slot_limit);
        let page = page_of_first(self.alloc, class, reach, words)?;
        reserve_group(&mut self.groups)?;
        self.rooms.reserve(class, self.groups.len() + 1)?;
        self.heads
            .reserve(self.opened as usize + 1, self.groups.len() + 1)?;
        reserve_bytes(&mut self.least, &self.groups, 1)?;
        let index = self.groups.lower_heads(id);
        note_before(&mut self.least, index, &self.groups);
        self.groups.insert_reserved(
            index,
            Group::of(Spans::of(self.alloc, head), MaybePage::new(page, true)),
        );
        add_byte(&mut self.least, index);
        self.rooms.note_arrival(class, index, self.groups.len());
        self.heads
            .note_arrival(self.number, id, index, self.groups.len());
        self.group_room = self.group_room.saturating_sub(1);
        self.opened += 1;
        self.guests.leave_onto();
        Ok(key)
    }
}

// Up to which slot a new page of a shard with so many groups has words in memory from the first
// object on. The pages of a shard that has few grow with what is put there; of those of a large one
// each is soon full, and to grow costs copies.
fn first_reach(class: Class, groups: usize, slot_limit: u16) -> u8
    ensures { result < slots_in class }
{
    if groups < FEW {
        return 0;
    }
    let slots = class.slots().min(slot_limit);
    slots.saturating_sub(1) as u8
}

// A page with the object at its first slot, and words in memory up to another, if it needs any.
fn page_of_first(alloc: Global, class: Class, reach: u8, words: &[u128]) -> Result<Page, AllocError>
    requires reach { reach < slots_in class }
    requires width { length words.now ≡ width_of class }
    ensures words { IfOk result (λ page. page.words ≡ set_object blank_page class 0 words.now) }
    ensures whole { IfOk result (λ page. IsInObjects class page.room) }
{
    let mut page = Page::blank(alloc);
    make_room(&mut page, alloc, class, reach, words)?;
    page.set_at(class, 0, words);
    Ok(page)
}

// How many groups come one by one, with pages that grow.
const FEW: usize = 4;

// Makes room for one more group. Of the first few each gets its own room, so that a shard of one
// page takes little. Later the room doubles.
fn reserve_group<L: Log>(groups: &mut GroupRow<L>) -> Result<(), AllocError>
    ensures items { groups.new.items ≡ groups.old.items }
    ensures len { length groups.new.items ≡ length groups.old.items }
    ensures capacity { groups.old.room ≤ groups.new.room }
    ensures ok { OnOk result (length groups.new.items + 1 ≤ groups.new.room) }
{
    if groups.len() < FEW {
        groups.reserve_exact(1)
    } else {
        groups.reserve(1)
    }
}
