// The words of a page.
ghost use Rattle.std.specs.Prelude.{◌≡◌, ◌<◌, ◌≤◌, ◌+◌, ◌-◌, ◌/◌, ◌*◌, ◌↔◌, ◌++◌, ℕ, IfOk, OnOk, OnErr, IsTrue, true, length, replicate, slice_index};
ghost use Rattle.std.specs.List.{between};
ghost use Rattle.bitmap.specs.declared.bits.TheConstants.{SLOTS};
ghost use Rattle.page.specs.Words.{IsInObjects, PageState, Reaches, Takes, blank_page, copied, empty_page, is_zeros, object_in, with_object};
ghost use Rattle.page.specs.Blocks.{IsMerged};
ghost use Rattle.bitmap.specs.Slots.{IsBelow};
ghost use Rattle.span.specs.Classes.{slots_in, width_of};

use crate::object_of_zeros::{is_zeros, zeros};
use bitmap::{Bits256, SLOTS};
use span::names::Class;
use std::alloc::{AllocError, Global};
use std::marker::Model;

/// 256 words, which are 256 slots of one, 16 of sixteen, and as many as there is room for between.
/// Those up to the last that was needed are in memory, in one allocation of up to 4,096 bytes, and
/// the others are zeros.
#[derive(Drop)]
pub struct Page {
    words: Vec<u128>,
}

impl Model for Page {
    ghost use Rattle.std.specs.Prelude.{◌≤◌, length};
    ghost use Rattle.bitmap.specs.declared.bits.TheConstants.{SLOTS};
    ghost use Rattle.page.specs.Words.{PageState, page_with};

    ghost Value = { PageState };

    ghost view = { λ a. page_with a.words.items };

    ghost invariant = { λ a. length a.words.items ≤ SLOTS };
}

impl Page {
    /// A page of zeros. Takes no memory.
    pub fn blank(alloc: Global) -> Page
        ensures { result ≡ empty_page }
    {
        Page {
            words: Vec::new(alloc),
        }
    }

    /// The words of the object at the slot.
    #[inline(always)]
    pub fn value_at(&self, class: Class, slot: u8) -> &[u128]
        requires on_page { slot < slots_in class }
        requires whole { IsInObjects class self.now.room }
        ensures object { result.now ≡ object_in self.now.words class slot }
        ensures width { length result.now ≡ width_of class }
        ensures takes { Takes self.now class slot result.now }
    {
        let width = class.words();
        if width == 1 {
            // By far the most frequent: nothing is looked up, and nothing multiplied.
            return run_of(&self.words, usize::from(slot), 1);
        }
        run_of(&self.words, width * usize::from(slot), width)
    }

    /// Whether an object can be written at the slot as it is: its words are in memory there, or it
    /// is zeros, which need none.
    #[inline(always)]
    pub fn takes(&self, class: Class, slot: u8, object: &[u128]) -> bool
        ensures { IsTrue result ↔ Takes self.now class slot object.now }
    {
        let width = class.words();
        width * usize::from(slot) + width <= self.words.len() || is_zeros(object)
    }

    /// Writes an object at the slot, and no other. Zeros that are not in memory stay out of it.
    #[inline(always)]
    pub fn set_at(&mut self, class: Class, slot: u8, object: &[u128])
        requires on_page { slot < slots_in class }
        requires whole { IsInObjects class self.old.room }
        requires width { length object.now ≡ width_of class }
        requires takes { Takes self.old class slot object.now }
        ensures { self.new ≡ with_object self.old class slot object.now }
    {
        if object.len() == 1 {
            let first = usize::from(slot);
            if first < self.words.len() {
                self.words[first] = object[0];
            }
            return;
        }
        let first = object.len() * usize::from(slot);
        if first + object.len() <= self.words.len() {
            self.words[first..first + object.len()].copy_from_slice(object);
        }
    }

    /// Takes words in memory up to the slot, and a few more, in a longer block.
    ///
    /// # Errors
    ///
    /// `AllocError` if the block is refused. The page is then as it was.
    #[inline(never)]
    pub fn reserve(&mut self, alloc: Global, class: Class, slot: u8) -> Result<(), AllocError>
        requires on_page { slot < slots_in class }
        requires whole { IsInObjects class self.old.room }
        ensures words { self.new.words ≡ self.old.words }
        ensures whole { IsInObjects class self.new.room }
        ensures ok { OnOk result (Reaches self.new class slot) }
        ensures err { OnErr result (self.new ≡ self.old) }
    {
        let width = class.words();
        let end = width * usize::from(slot) + width;
        if end <= self.words.len() {
            return Ok(());
        }
        let block = block_for(end);
        self.words = lengthened(alloc, &self.words, block, block - block % width)?;
        Ok(())
    }

    /// Moves the words in memory to a block that it asks for now, and gives the old one back. A
    /// source of pages that hands out its lowest free block first can so empty its upper end.
    ///
    /// # Errors
    ///
    /// `AllocError` if the block is refused. The words are the same either way.
    pub fn renew(&mut self, alloc: Global) -> Result<(), AllocError>
        ensures { self.new ≡ self.old }
    {
        let len = self.words.len();
        if len > 0 {
            self.words = lengthened(alloc, &self.words, block_for(len), len)?;
        }
        Ok(())
    }

    /// Copies the objects at the slots from the same slots of the other page. It takes no memory:
    /// if more words of the other are in memory, it takes its block over.
    pub fn copy_from(&mut self, class: Class, other: Page, slots: &Bits256)
        requires on_page { IsBelow slots.now (slots_in class) }
        requires whole { IsInObjects class self.old.room }
        requires other { IsInObjects class other.room }
        ensures words { self.new.words ≡ copied self.old.words class slots.now other.words }
        ensures whole { IsInObjects class self.new.room }
    {
        if self.is_shorter(&other) {
            self.take_over(class, other, slots);
            return;
        }
        for slot in slots.iter() {
            self.set_at(class, slot, other.value_at(class, slot));
        }
    }

    // Whether more words of the other are in memory.
    fn is_shorter(&self, other: &Page) -> bool
        ensures { IsTrue result ↔ (self.now.room < other.now.room) }
    {
        self.words.len() < other.words.len()
    }

    // The same, where more words of the other are in memory.
    fn take_over(&mut self, class: Class, other: Page, slots: &Bits256)
        requires { self.old.room < other.room }
        ensures words { self.new.words ≡ copied self.old.words class slots.now other.words }
        ensures room { self.new.room ≡ other.room }
    {
        let mut words = other.words;
        put_outside(&mut words, &self.words, class, slots);
        self.words = words;
    }
}

// The words from the first on, or zeros if not all of them are there.
#[inline(always)]
fn run_of(words: &Vec<u128>, first: usize, width: usize) -> &[u128]
    requires width { width ≤ 16 }
    requires first { first ≤ 4096 }
    ensures there { first + width ≤ length words.now.items
        → result.now ≡ between first (first + width) words.now.items }
    ensures beyond { length words.now.items < first + width → is_zeros result.now ≡ true }
    ensures width { length result.now ≡ width }
{
    if first + width <= words.len() {
        &words[first..first + width]
    } else {
        zeros(width)
    }
}

// The length of a block that has so many words: a sixteenth of a page, a quarter, a half or all.
fn block_for(end: usize) -> usize
    requires { end ≤ SLOTS }
    ensures long { end ≤ result }
    ensures whole { 16 ≤ result }
    ensures most { result ≤ SLOTS }
{
    if end <= 16 {
        16
    } else if end <= 64 {
        64
    } else if end <= 128 {
        128
    } else {
        SLOTS
    }
}

// A copy of the words in a block of so many, and zeros after them up to a length.
fn lengthened(
    alloc: Global,
    words: &Vec<u128>,
    block: usize,
    len: usize,
) -> Result<Vec<u128>, AllocError>
    requires { length words.now.items ≤ len }
    ensures { IfOk result (λ longer. longer.items
        ≡ words.now.items ++ replicate (len - length words.now.items) 0) }
{
    let mut longer = Vec::with_capacity(alloc, block)?;
    longer.extend_from_slice(words.as_slice())?;
    longer.resize(len, 0)?;
    Ok(longer)
}

// Puts the words of the others outside of the slots, which are zeros where there are none.
fn put_outside(words: &mut Vec<u128>, others: &Vec<u128>, class: Class, slots: &Bits256)
    requires { length words.old.items ≤ SLOTS }
    ensures long { length words.new.items ≡ length words.old.items }
    ensures merged { IsMerged class slots.now words.old.items others.now.items words.new.items }
{
    let width = class.words();
    for place in 0..words.len() {
        if !slots.contains((place / width) as u8) {
            words[place] = word_at(others, place);
        }
    }
}

// The word at the place, or 0 if there is none.
fn word_at(words: &Vec<u128>, place: usize) -> u128
    ensures { result ≡ slice_index words.now.items place }
{
    if place < words.len() { words[place] } else { 0 }
}
