// What a span keeps of each slot: its last generation, and whether it is live.
ghost use Rattle.std.specs.Prelude.{◌≡◌, ◌+◌, ◌-◌, ◌*◌, ◌/◌, ◌%◌, ◌<◌, ◌≤◌, ◌^◌, ◌==◌, ◌↔◌, ℕ, [], length, slice_index, slice_index_or, slice_set, IfOk, IsTrue, MatchOption, OnOk, OnErr, vec_len};
ghost use Rattle.bitmap.specs.Slots.{slots_where};
ghost use Rattle.bitmap.specs.declared.bits.TheConstants.{SLOTS};
ghost use Rattle.span.specs.Classes.{slots_in};

use crate::class::Class;
use bitmap::{Bits256, SLOTS};
use std::alloc::{AllocError, Global};

/// A mark for each slot: twice its last generation, and one more while it is live. So one compare
/// says whether a slot is live at a generation.
///
/// The marks are bytes as long as none passes 255, as up to the slot's 127th put, and then 4 bytes
/// each, or 8 from its 2^31st put on. A list ends behind the slots that were put, at 16, at 64, at
/// 128 or with the class: slots are taken the lowest first, so the marks of few objects take few
/// bytes.
#[derive(Drop)]
pub(crate) enum Marks {
    Bytes(Vec<u8>),
    Words(Vec<u32>),
    Longs(Vec<u64>),
}

impl Marks {
    ghost use Rattle.span.specs.Marks.{FitInto, HasNoLiveFrom, HasRoom, IsFirstLiveFrom, IsNarrow, is_live_at, last_given, marks_of};

    /// No slot was put. Takes no memory.
    pub(crate) fn new(alloc: Global) -> Self
        ensures { marks_of result ≡ [] }
    {
        Marks::Bytes(Vec::new(alloc))
    }

    /// Makes room for the slot's next put. It takes memory where the list ends before the slot, and
    /// where the slot's mark is the first to pass a byte, or 4 bytes.
    #[inline(always)]
    pub(crate) fn reserve_all(&mut self, class: Class, slot: u8) -> Result<(), AllocError>
        requires on_page { slot < slots_in class }
        requires fit { FitInto class self.old }
        ensures ok { OnOk result (HasRoom slot self.new) }
        ensures err { OnErr result (self.new ≡ self.old) }
        ensures fit { FitInto class self.new }
        ensures same { (slot : ℕ) →
            slice_index (marks_of self.new) slot ≡ slice_index (marks_of self.old) slot }
    {
        if self.has_room(slot) {
            return Ok(());
        }
        self.grow(class, slot)
    }

    // Whether the slot has its place, where its mark after one more put fits.
    #[inline(always)]
    fn has_room(&self, slot: u8) -> bool
        ensures { IsTrue result ↔ HasRoom slot self.now }
    {
        let slot = usize::from(slot);
        match self {
            Marks::Bytes(bytes) => slot < bytes.len() && bytes[slot] < u8::MAX - 2,
            Marks::Words(words) => slot < words.len() && words[slot] < u32::MAX - 2,
            Marks::Longs(longs) => slot < longs.len(),
        }
    }

    // Takes a longer list in place of this if it ends before the slot, and else a wider one. It
    // stands apart, so that a put has none of it.
    #[inline(never)]
    fn grow(&mut self, class: Class, slot: u8) -> Result<(), AllocError>
        requires on_page { slot < slots_in class }
        requires fit { FitInto class self.old }
        requires full { HasRoom slot self.old → ⊥ }
        ensures ok { OnOk result (HasRoom slot self.new) }
        ensures err { OnErr result (self.new ≡ self.old) }
        ensures fit { FitInto class self.new }
        ensures same { (slot : ℕ) →
            slice_index (marks_of self.new) slot ≡ slice_index (marks_of self.old) slot }
    {
        if usize::from(slot) < self.len() {
            *self = self.wider()?;
        } else {
            *self = self.longer(places_for(class, slot))?;
        }
        Ok(())
    }

    // The same marks in a wider list, where all have room.
    fn wider(&self) -> Result<Marks, AllocError>
        requires { IsNarrow self.now }
        ensures same { IfOk result (λ wider. marks_of wider ≡ marks_of self.now) }
        ensures room { IfOk result (λ wider. (slot : ℕ) → slot < length (marks_of self.now)
            → HasRoom slot wider) }
    {
        match self {
            Marks::Bytes(bytes) => Ok(Marks::Words(as_words(bytes)?)),
            Marks::Words(words) => Ok(Marks::Longs(as_longs(words)?)),
            Marks::Longs(_) => unreachable!(),
        }
    }

    // The same marks in a list with that many places, where the new ones have room.
    fn longer(&self, places: usize) -> Result<Marks, AllocError>
        requires { length (marks_of self.now) ≤ places }
        ensures same { IfOk result (λ longer. (slot : ℕ) →
            slice_index (marks_of longer) slot ≡ slice_index (marks_of self.now) slot) }
        ensures len { IfOk result (λ longer. length (marks_of longer) ≡ places) }
        ensures room { IfOk result (λ longer. (slot : ℕ) → length (marks_of self.now) ≤ slot
            → slot < places → HasRoom slot longer) }
    {
        match self {
            Marks::Bytes(bytes) => Ok(Marks::Bytes(with_places(bytes, places, 0)?)),
            Marks::Words(words) => Ok(Marks::Words(with_places(words, places, 0)?)),
            Marks::Longs(longs) => Ok(Marks::Longs(with_places(longs, places, 0)?)),
        }
    }

    /// Whether the slot is live at the generation.
    #[inline(always)]
    pub(crate) fn is_at(&self, slot: u8, generation: u32) -> bool
        ensures { IsTrue result ↔ slice_index (marks_of self.now) slot ≡ 2 * generation + 1 }
    {
        let slot = usize::from(slot);
        let mark = 2 * u64::from(generation) + 1;
        match self {
            Marks::Bytes(bytes) => slot < bytes.len() && u64::from(bytes[slot]) == mark,
            Marks::Words(words) => slot < words.len() && u64::from(words[slot]) == mark,
            Marks::Longs(longs) => slot < longs.len() && longs[slot] == mark,
        }
    }

    // The mark of a slot that has one.
    fn mark(&self, slot: u8) -> u64
        requires { slot < length (marks_of self.now) }
        ensures { result ≡ slice_index (marks_of self.now) slot }
    {
        match self {
            Marks::Bytes(bytes) => u64::from(bytes[usize::from(slot)]),
            Marks::Words(words) => u64::from(words[usize::from(slot)]),
            Marks::Longs(longs) => longs[usize::from(slot)],
        }
    }

    // How many slots have a mark.
    fn len(&self) -> usize
        ensures { result ≡ length (marks_of self.now) }
    {
        match self {
            Marks::Bytes(bytes) => bytes.len(),
            Marks::Words(words) => words.len(),
            Marks::Longs(longs) => longs.len(),
        }
    }

    /// The last generation of a slot that has a mark.
    pub(crate) fn generation_of(&self, slot: u8) -> u32
        requires within { slot < length (marks_of self.now) }
        requires in_range { last_given (marks_of self.now) slot < 2 ^ 32 }
        ensures { result ≡ last_given (marks_of self.now) slot }
    {
        (self.mark(slot) / 2) as u32
    }

    /// The slots that were given this generation last. It reads all marks.
    #[inline(never)]
    pub(crate) fn slots_at(&self, generation: u32) -> Bits256
        requires some { 1 ≤ generation }
        requires few { length (marks_of self.now) ≤ SLOTS }
        ensures { result ≡ slots_where
            (λ slot. last_given (marks_of self.now) slot == generation) SLOTS }
    {
        let mut slots = Bits256::empty();
        for slot in 0..self.len() {
            if self.mark(slot as u8) / 2 == u64::from(generation) {
                slots.insert(slot as u8);
            }
        }
        slots
    }

    /// The slots that are live. It reads all marks.
    #[inline(never)]
    pub(crate) fn live(&self) -> Bits256
        requires { length (marks_of self.now) ≤ SLOTS }
        ensures { result ≡ slots_where (is_live_at (marks_of self.now)) SLOTS }
    {
        let mut slots = Bits256::empty();
        for slot in 0..self.len() {
            if self.mark(slot as u8) % 2 == 1 {
                slots.insert(slot as u8);
            }
        }
        slots
    }

    /// The first live slot from this one on.
    pub(crate) fn first_live(&self, from: u32) -> Option<u8>
        requires { length (marks_of self.now) ≤ SLOTS }
        ensures { MatchOption result (HasNoLiveFrom (marks_of self.now) from)
            (IsFirstLiveFrom (marks_of self.now) from) }
    {
        for slot in from as usize..self.len() {
            if self.mark(slot as u8) % 2 == 1 {
                return Some(slot as u8);
            }
        }
        None
    }

    /// Gives the slot, which is not live, its next generation, for which there is room, and makes
    /// it live. Takes no memory.
    #[inline(always)]
    pub(crate) fn give_next(&mut self, slot: u8) -> u32
        requires room { HasRoom slot self.old }
        requires not_live { slice_index (marks_of self.old) slot % 2 ≡ 0 }
        requires in_range { slice_index (marks_of self.old) slot + 3 < 2 ^ 33 }
        ensures next { result ≡ last_given (marks_of self.old) slot + 1 }
        ensures given { marks_of self.new ≡ slice_set (marks_of self.old) slot
            (slice_index (marks_of self.old) slot + 3) }
    {
        match self {
            Marks::Bytes(bytes) => {
                let mark = bytes[usize::from(slot)] + 3;
                bytes[usize::from(slot)] = mark;
                u32::from(mark / 2)
            }
            Marks::Words(words) => {
                let mark = words[usize::from(slot)] + 3;
                words[usize::from(slot)] = mark;
                mark / 2
            }
            Marks::Longs(longs) => {
                let mark = longs[usize::from(slot)] + 3;
                longs[usize::from(slot)] = mark;
                (mark / 2) as u32
            }
        }
    }

    /// Ends that the slot is live, which keeps its last generation. Takes no memory.
    #[inline(always)]
    pub(crate) fn take_back(&mut self, slot: u8)
        requires within { slot < length (marks_of self.old) }
        requires live { slice_index (marks_of self.old) slot % 2 ≡ 1 }
        ensures given { marks_of self.new ≡ slice_set (marks_of self.old) slot
            (slice_index (marks_of self.old) slot - 1) }
    {
        match self {
            Marks::Bytes(bytes) => bytes[usize::from(slot)] -= 1,
            Marks::Words(words) => words[usize::from(slot)] -= 1,
            Marks::Longs(longs) => longs[usize::from(slot)] -= 1,
        }
    }
}

// How many places a list gets that has none for the slot yet: few as long as slots are low.
fn places_for(class: Class, slot: u8) -> usize
    requires { slot < slots_in class }
    ensures above { slot < result }
    ensures fit { result ≤ slots_in class }
{
    let places = if slot < 16 {
        16
    } else if slot < 64 {
        64
    } else if slot < 128 {
        128
    } else {
        SLOTS
    };
    usize::from(class.slots()).min(places)
}

// The list, with this item behind it as far as that many places.
fn with_places<T: Copy>(list: &Vec<T>, places: usize, item: T) -> Result<Vec<T>, AllocError>
    requires { vec_len list.now ≤ places }
    ensures same { IfOk result (λ longer. (index : ℕ) →
        slice_index_or longer.items index item ≡ slice_index_or list.now.items index item) }
    ensures len { IfOk result (λ longer. length longer.items ≡ places) }
{
    let mut longer = Vec::with_capacity(*list.allocator(), places)?;
    longer.extend_from_slice(list.as_slice())?;
    longer.resize(places, item)?;
    Ok(longer)
}

// The same numbers, as words.
fn as_words(bytes: &Vec<u8>) -> Result<Vec<u32>, AllocError>
    ensures items { IfOk result (λ words. words.items ≡ bytes.now.items) }
    ensures small { (slot : ℕ) → slot < length bytes.now.items
        → slice_index bytes.now.items slot < 2 ^ 8 }
{
    bytes
        .iter()
        .map(|byte| u32::from(*byte))
        .collect(*bytes.allocator())
}

// The same numbers, in 8 bytes each.
fn as_longs(words: &Vec<u32>) -> Result<Vec<u64>, AllocError>
    ensures { IfOk result (λ longs. longs.items ≡ words.now.items) }
{
    words
        .iter()
        .map(|word| u64::from(*word))
        .collect(*words.allocator())
}
