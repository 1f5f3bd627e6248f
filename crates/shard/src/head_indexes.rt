// Where the heads that a shard opened stand, and the ways to its guests.
ghost use Rattle.std.specs.Prelude.{[], ◌≡◌, ◌+◌, ◌-◌, ◌%◌, ◌<◌, ◌≤◌, ℕ, List, OnOk, Some, drop, false, get_or, length, map, remove, slice_get, true};
ghost use Rattle.std.specs.FinMap as finite;
ghost use Rattle.groups.specs.Dead.{dead_among, is_live};
ghost use Rattle.groups.specs.Directory.{Entries, entered, struck};
ghost use Rattle.groups.specs.Group.{AreNoHeadsFrom, HasNoHead};
ghost use Rattle.span.specs.Ids.{rank};
ghost use Rattle.shard.specs.Group.{GroupState};
ghost use Rattle.shard.specs.HeadWindow.{HeadWindow, KeepsNote, end_of, entry_of, most_entries, note_in, window_at};
ghost use Rattle.shard.specs.Heads.{AreReady, HasNoHeadsOf, HasNotesFor, IsNoted, IsOther, KnowsArrival, KnowsHeads, KnowsNoHeads, LeadsTo, MakesPlace, NotesFollow, OthersStay, lowered, note_at, raised};
ghost use Rattle.span.specs.declared.limits.TheConstants.{MOST_PAGES};

use crate::group_row::GroupRow;
use span::names::SpanId;
use span::spans::{Log, Span};
use std::alloc::{AllocError, Global};
use std::marker::Model;

/// How many entries are kept where there are few groups.
pub const FEWEST: usize = 64;
// Up to so many entries no more room is taken than these need.
const FEW: usize = 4;
/// How many serials of heads the entry of a guest tells apart. Indexes of groups are below.
pub const HEADS: u32 = 4_194_304;
/// Up to which place, which is left out, the entry of a guest has its place.
pub const PLACES: usize = 1024;
/// The entry of a guest of which no more is noted: an index past all groups.
pub const FAR: u32 = 4_194_303;
/// The entry of a span that is neither a head nor a guest here. Indexes of groups are below.
pub const AWAY: u32 = 4_194_302;

/// For each of the last spans that the shard opened where it is: the index of its group, if it is
/// the head of one here, or the way to it, if it is a guest here, or that it is neither. So a
/// look-up takes one step, however many groups have left. It has four bytes a span. The first
/// serial that has an entry rises as the shard opens spans, so that the memory goes with the groups
/// that are here and not with the spans that ever were.
///
/// The entry of a guest leads to its head: it is the guest's place, and the lowest bits of the
/// serial of the head, so that no group that comes or goes changes it.
#[derive(Drop)]
pub struct HeadIndexes {
    base: usize,
    // By serial, from the base on.
    indexes: Vec<u32>,
}

impl Model for HeadIndexes {
    ghost use Rattle.shard.specs.HeadWindow.{HeadWindow, window_code};

    ghost Value = { HeadWindow };

    ghost coded = { window_code };

    ghost view = { λ h. record { base = h.base; entries = h.indexes.items } };
}

impl HeadIndexes {
    /// No index. Takes no memory.
    pub fn new(alloc: Global) -> HeadIndexes
        ensures { result.entries ≡ [] }
    {
        HeadIndexes {
            base: 0,
            indexes: Vec::new(alloc),
        }
    }

    /// The lowest serial that has an entry.
    #[inline(always)]
    pub fn base(&self) -> usize
        ensures { result ≡ self.now.base }
    {
        self.base
    }

    /// Makes room for the serials below the count, where it has less. Where they are more than
    /// there are entries for so many groups, the base rises, and half as many are left.
    ///
    /// # Errors
    ///
    /// `AllocError` where memory is refused. The indexes from the base on stay.
    pub fn reserve(&mut self, count: usize, groups: usize) -> Result<(), AllocError>
        ensures base { self.old.base ≤ self.new.base }
        ensures same { (serial : ℕ) → self.new.base ≤ serial
            → KeepsNote serial self.old self.new }
        ensures more { end_of self.old ≤ end_of self.new }
        ensures few { count ≤ self.new.base + most_entries groups }
        ensures ok { OnOk result (count ≤ end_of self.new) }
    {
        let most = most_entries(groups);
        if count.saturating_sub(self.base) > most {
            self.rise(count - most / 2);
            give_back(&mut self.indexes, most);
        }
        grow(&mut self.indexes, count.saturating_sub(self.base))
    }

    // Has the base rise. The entries from there on stay.
    fn rise(&mut self, base: usize)
        requires { self.old.base ≤ base }
        ensures base { self.new.base ≡ base }
        ensures same { (serial : ℕ) → base ≤ serial → KeepsNote serial self.old self.new }
        ensures end { end_of self.old ≤ end_of self.new }
    {
        let gone = (base - self.base).min(self.indexes.len());
        drop_first(&mut self.indexes, gone);
        self.base = base;
    }

    /// The entry of the serial, if it has one.
    #[inline(always)]
    pub fn note_of(&self, serial: u32) -> Option<u32>
        ensures { self.now.base ≤ serial → result ≡ entry_of self.now serial }
    {
        let at = (serial as usize).wrapping_sub(self.base);
        if at >= self.indexes.len() {
            return None;
        }
        Some(self.indexes[at])
    }

    /// Whether it is noted of the span of the serial that it is neither a head nor a guest here.
    #[inline(always)]
    pub fn tells_away(&self, serial: u32) -> bool
        ensures { result ≡ true
            → (self.now.base ≤ serial) × (note_in self.now serial ≡ AWAY) }
    {
        let serial = serial as usize;
        if serial < self.base {
            return false;
        }
        let at = serial - self.base;
        at >= self.indexes.len() || self.indexes[at] == AWAY
    }

    /// The index that is noted for the first serial from the base on with the lowest bits that a
    /// guest's entry has of its head; past all groups where there is no such serial.
    #[inline(always)]
    pub fn index_by_note(&self, note: u32) -> usize
        ensures { LeadsTo self.now note result }
    {
        let heads = HEADS as usize;
        let at = (note as usize + heads - self.base % heads) % heads;
        if at >= self.indexes.len() {
            return usize::MAX;
        }
        self.indexes[at] as usize
    }

    /// Notes where the heads of the shard of this number stand from the index on. It takes no
    /// memory.
    pub fn note_from<L: Log>(&mut self, groups: &GroupRow<L>, from: usize, number: u32)
        requires { AreReady number groups.now.items self.old from }
        ensures known { KnowsHeads number groups.now.items self.new }
        ensures others { (entries : Entries) → KnowsNoHeads number groups.now.items entries self.old
            → KnowsNoHeads number groups.now.items entries self.new }
        ensures base { self.new.base ≡ self.old.base }
        ensures len { length self.new.entries ≡ length self.old.entries }
    {
        note_heads(self.base, &mut self.indexes, groups, from, number);
    }

    /// Notes that a group of the head came to the index, of so many groups of the shard of this
    /// number now. Those from there on have moved up by one. What is noted of guests stays. It
    /// takes no memory, and reads no group.
    pub fn note_arrival(&mut self, number: u32, head: SpanId, index: usize, count: usize)
        requires within { index < count }
        requires few { count ≤ MOST_PAGES }
        ensures known { KnowsArrival number head index count self.old self.new }
        ensures guests { (serial : ℕ) → self.old.base ≤ serial → AWAY ≤ note_in self.old serial
            → IsOther number head serial → KeepsNote serial self.old self.new }
        ensures base { self.new.base ≡ self.old.base }
        ensures end { end_of self.new ≡ end_of self.old }
    {
        self.make_place(index, count);
        self.write(number, head, index as u32);
    }

    // Has the groups from the index on stand one higher, of so many with one that is to be noted
    // there. Where that is the last, none does.
    fn make_place(&mut self, index: usize, count: usize)
        requires within { index < count }
        requires few { count ≤ MOST_PAGES }
        ensures known { (number : ℕ) → MakesPlace number index count self.old self.new }
        ensures guests { (serial : ℕ) → AWAY ≤ note_in self.old serial
            → KeepsNote serial self.old self.new }
        ensures base { self.new.base ≡ self.old.base }
        ensures end { end_of self.new ≡ end_of self.old }
    {
        if index + 1 >= count {
            return;
        }
        raise_from(&mut self.indexes, index as u32);
    }

    /// Notes that the group at the index went, where so many are left. Those behind it have moved
    /// down by one. What is noted of guests stays. It takes no memory, and reads no group.
    pub fn note_departure(&mut self, index: usize, count: usize)
        requires within { index ≤ count }
        requires few { count < MOST_PAGES }
        ensures known { (number : ℕ) (groups : List GroupState) → length groups ≡ count + 1
            → KnowsHeads number groups self.old → KnowsHeads number (remove groups index) self.new }
        ensures guests { (serial : ℕ) → AWAY ≤ note_in self.old serial
            → KeepsNote serial self.old self.new }
        ensures base { self.new.base ≡ self.old.base }
        ensures end { end_of self.new ≡ end_of self.old }
    {
        if index >= count {
            return;
        }
        lower_behind(&mut self.indexes, index as u32);
    }

    /// Notes where the guests of the head stand, from the place `first` on, counted from 0: of
    /// those that the shard of this number opened. It takes no memory.
    pub fn note_guests<L: Log>(
        &mut self,
        number: u32,
        first: usize,
        guests: &[Span<L>],
        head: SpanId,
    )
        requires within { first ≤ length guests.now }
        requires room { HasNotesFor number self.old first guests.now }
        ensures known { NotesFollow number self.old self.new (λ entries.
            entered entries (drop first guests.now) head (first + 1)) }
        ensures heads { (groups : List GroupState) → KnowsHeads number groups self.old
            → AreNoHeadsFrom groups first guests.now → KnowsHeads number groups self.new }
        ensures base { self.new.base ≡ self.old.base }
        ensures end { end_of self.new ≡ end_of self.old }
    {
        for place in first..guests.len() {
            let note = note_at(number, head, place + 1);
            self.write(number, guests[place].id(), note);
        }
    }

    /// Notes that the spans, which were guests, are away. It takes no memory.
    pub fn strike_guests<L: Log>(&mut self, number: u32, guests: &[Span<L>])
        ensures known { NotesFollow number self.old self.new (λ entries.
            struck entries guests.now) }
        ensures heads { (groups : List GroupState) → KnowsHeads number groups self.old
            → AreNoHeadsFrom groups 0 guests.now → KnowsHeads number groups self.new }
        ensures base { self.new.base ≡ self.old.base }
        ensures end { end_of self.new ≡ end_of self.old }
    {
        for place in 0..guests.len() {
            self.note_away(number, guests[place].id());
        }
    }

    /// Notes of those of the spans in which no slot is live that they are away. It takes no memory.
    pub fn strike_dead_guests<L: Log>(&mut self, number: u32, guests: &[Span<L>])
        ensures known { NotesFollow number self.old self.new (λ entries.
            struck entries (dead_among guests.now)) }
        ensures heads { (groups : List GroupState) → KnowsHeads number groups self.old
            → AreNoHeadsFrom groups 0 guests.now → KnowsHeads number groups self.new }
        ensures base { self.new.base ≡ self.old.base }
        ensures end { end_of self.new ≡ end_of self.old }
    {
        for place in 0..guests.len() {
            self.strike_if_dead(number, &guests[place]);
        }
    }

    // Notes of the span that it is away, if no slot of it is live.
    fn strike_if_dead<L: Log>(&mut self, number: u32, span: &Span<L>)
        ensures dead { is_live span.now ≡ false → NotesFollow number self.old self.new (λ entries.
            finite.remove entries (rank span.now.id)) }
        ensures live { is_live span.now ≡ true → self.new ≡ self.old }
        ensures heads { (groups : List GroupState) → KnowsHeads number groups self.old
            → HasNoHead groups span.now.id → KnowsHeads number groups self.new }
        ensures base { self.new.base ≡ self.old.base }
        ensures end { end_of self.new ≡ end_of self.old }
    {
        if is_live(span) {
            return;
        }
        self.note_away(number, span.id());
    }

    /// Notes that the heads of all groups are away. It takes no memory.
    pub fn strike_heads<L: Log>(&mut self, number: u32, groups: &GroupRow<L>)
        ensures known { (entries : Entries) → HasNoHeadsOf entries groups.now.items → KnowsNoHeads
            number groups.now.items entries self.old → KnowsNoHeads number [] entries self.new }
        ensures base { self.new.base ≡ self.old.base }
        ensures end { end_of self.new ≡ end_of self.old }
    {
        for index in 0..groups.len() {
            self.note_away(number, groups[index].head_id());
        }
    }

    /// Notes that the span is neither a head nor a guest here. It takes no memory.
    pub fn note_away(&mut self, number: u32, id: SpanId)
        ensures base { self.new.base ≡ self.old.base }
        ensures end { end_of self.new ≡ end_of self.old }
        ensures this { IsNoted number self.old.base id → note_in self.new id.serial ≡ AWAY }
        ensures others { (serial : ℕ) → self.old.base ≤ serial → IsOther number id serial
            → KeepsNote serial self.old self.new }
        ensures entries { (serial : ℕ) → self.old.base ≤ serial → IsOther number id serial
            → entry_of self.new serial ≡ entry_of self.old serial }
    {
        self.write(number, id, AWAY);
    }

    // Notes this of the span, if the shard of this number opened it and it has an entry.
    fn write(&mut self, number: u32, id: SpanId, note: u32)
        ensures base { self.new.base ≡ self.old.base }
        ensures end { end_of self.new ≡ end_of self.old }
        ensures this { IsNoted number self.old.base id → id.serial < end_of self.old
            → note_in self.new id.serial ≡ note }
        ensures entry { IsNoted number self.old.base id → id.serial < end_of self.old
            → entry_of self.new id.serial ≡ Some note }
        ensures past { end_of self.old ≤ id.serial → self.new ≡ self.old }
        ensures others { (serial : ℕ) → self.old.base ≤ serial → IsOther number id serial
            → KeepsNote serial self.old self.new }
        ensures entries { (serial : ℕ) → self.old.base ≤ serial → IsOther number id serial
            → entry_of self.new serial ≡ entry_of self.old serial }
    {
        if !is_noted(number, self.base, id) {
            return;
        }
        let at = id.serial as usize - self.base;
        if at < self.indexes.len() {
            self.indexes[at] = note;
        }
    }
}

// Whether one of its slots is live.
fn is_live<L: Log>(span: &Span<L>) -> bool
    ensures { result ≡ is_live span.now }
{
    span.live_count() > 0
}

// The entry of the guest of the head at the place.
fn note_at(number: u32, head: SpanId, place: usize) -> u32
    ensures { result ≡ note_at number (record { head = head; place = place }) }
{
    if head.shard == number && 0 < place && place < PLACES {
        place as u32 * HEADS + head.serial % HEADS
    } else {
        FAR
    }
}

/// Whether the shard of this number, the first of whose entries is that of the base, notes where a
/// head of this id stands.
#[inline(always)]
pub fn is_noted(number: u32, base: usize, head: SpanId) -> bool
    ensures known { result ≡ true → IsNoted number base head }
    ensures other { result ≡ false → IsNoted number base head → ⊥ }
{
    head.shard == number && base <= head.serial as usize
}

/// How many entries are kept at most for the spans that were opened, beside so many groups.
pub fn most_entries(groups: usize) -> usize
    ensures least { FEWEST ≤ result }
    ensures most { result ≤ most_entries groups }
{
    FEWEST.max(groups.saturating_mul(16))
}

// Drops so many entries at the front.
fn drop_first(indexes: &mut Vec<u32>, gone: usize)
    requires { gone ≤ length indexes.old.items }
    ensures same { (at : ℕ) → get_or indexes.new.items at AWAY
        ≡ get_or indexes.old.items (gone + at) AWAY }
    ensures len { length indexes.new.items + gone ≡ length indexes.old.items }
{
    indexes.copy_within(gone.., 0);
    indexes.truncate(indexes.len() - gone);
}

// Makes each entry that is an index from this one on one higher. No group is read, and what guests
// have is no index.
fn raise_from(indexes: &mut Vec<u32>, from: u32)
    requires { from < AWAY }
    ensures { indexes.new.items ≡ map (raised from) indexes.old.items }
{
    raise_each(indexes.as_mut_slice(), from);
}

// The same of a slice. With no branch to a write, a loop takes several entries at once.
fn raise_each(entries: &mut [u32], from: u32)
    requires { from < AWAY }
    ensures { entries.new ≡ map (raised from) entries.old }
{
    for entry in entries.iter_mut() {
        *entry = raised(from, *entry);
    }
}

// The entry, one higher if it is an index from this one on. One comparison tells: an entry below is
// far above once this index is taken off it.
#[inline(always)]
fn raised(from: u32, entry: u32) -> u32
    requires { from < AWAY }
    ensures { result ≡ raised from entry }
{
    if entry.wrapping_sub(from) < AWAY - from {
        entry + 1
    } else {
        entry
    }
}

// Makes each entry that is an index behind this one one lower.
fn lower_behind(indexes: &mut Vec<u32>, at: u32)
    requires { at < AWAY }
    ensures { indexes.new.items ≡ map (lowered at) indexes.old.items }
{
    lower_each(indexes.as_mut_slice(), at);
}

// The same of a slice. With no branch to a write, a loop takes several entries at once.
fn lower_each(entries: &mut [u32], at: u32)
    requires { at < AWAY }
    ensures { entries.new ≡ map (lowered at) entries.old }
{
    for entry in entries.iter_mut() {
        *entry = lowered(at, *entry);
    }
}

// The entry, one lower if it is an index behind this one. One comparison tells, as in `raised`.
#[inline(always)]
fn lowered(at: u32, entry: u32) -> u32
    requires { at < AWAY }
    ensures { result ≡ lowered at entry }
{
    if entry.wrapping_sub(at + 1) < AWAY - at - 1 {
        entry - 1
    } else {
        entry
    }
}

// Gives room back where half of it is enough for that many entries.
fn give_back(indexes: &mut Vec<u32>, most: usize)
    ensures { indexes.new.items ≡ indexes.old.items }
{
    if indexes.capacity() / 2 > most {
        indexes.shrink_to(most);
    }
}

// Makes room for that many entries, where there is less: their spans are away.
fn grow(indexes: &mut Vec<u32>, count: usize) -> Result<(), AllocError>
    ensures same { (at : ℕ) → get_or indexes.new.items at AWAY
        ≡ get_or indexes.old.items at AWAY }
    ensures more { length indexes.old.items ≤ length indexes.new.items }
    ensures ok { OnOk result (count ≤ length indexes.new.items) }
{
    if count <= indexes.len() {
        return Ok(());
    }
    if count <= FEW {
        indexes.reserve_exact(count - indexes.len())?;
    }
    indexes.resize(count, AWAY)
}

// Notes where the heads of the shard of this number stand from the index on.
fn note_heads<L: Log>(
    base: usize,
    indexes: &mut Vec<u32>,
    groups: &GroupRow<L>,
    from: usize,
    number: u32,
)
    requires { AreReady number groups.now.items
        (record { base = base; entries = indexes.old.items }) from }
    ensures known { KnowsHeads number groups.now.items
        (record { base = base; entries = indexes.new.items }) }
    ensures others { OthersStay number groups.now.items (window_at base indexes.old.items)
        (window_at base indexes.new.items) }
    ensures len { length indexes.new.items ≡ length indexes.old.items }
{
    for index in from..groups.len() {
        let id = groups[index].head_id();
        if !is_noted(number, base, id) {
            continue;
        }
        indexes[id.serial as usize - base] = index as u32;
    }
}
