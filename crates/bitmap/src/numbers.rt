// A set of numbers that grows.
ghost use Rattle.std.specs.Prelude.{◌≡◌, ◌+◌, ◌*◌, ◌/◌, ◌<◌, ◌≤◌, ℕ, false, IfSome, MatchOption, OnErr, OnOk, nat_lt, true, vec_len};
ghost use Rattle.std.specs.FinSet as set;
ghost use Rattle.bitmap.specs.Numbers.{NumbersState, without_if};
ghost use Rattle.bitmap.specs.Slots.{IsLowest, SlotSet};
ghost use Rattle.bitmap.specs.declared.bits.TheConstants.{SLOTS};
ghost use Rattle.bitmap.specs.declared.numbers.TheConstants.{MOST_NUMBERS};

use crate::bits::{Bits256, SLOTS};
use crate::high_numbers::HighNumbers;
use crate::parts::{gather, spread};
use std::alloc::{AllocError, Global};
use std::marker::Model;
use std::mem::size_of;

/// How many numbers a [`NumberSet`] has at most.
pub const MOST_NUMBERS: usize = 1 << 24;

/// A set of numbers below its room, whose least is found in four steps at most. The first 256 take
/// no memory of their own; for each further 256 it takes 32 bytes, which come with
/// [`NumberSet::reserve`] alone.
#[derive(Drop)]
pub struct NumberSet {
    alloc: Global,
    // The numbers below 256.
    low: Bits256,
    // The others, less 256.
    high: HighNumbers,
}

const _: () = prove!(size_of::<NumberSet>() == 48);

impl Model for NumberSet {
    ghost use Rattle.bitmap.specs.Numbers.{NumbersState, numbers_code};

    ghost Value = { NumbersState };

    ghost coded = { numbers_code };

    ghost use Rattle.bitmap.specs.JoinedParts.{state_of};

    ghost view = { state_of };
}

impl NumberSet {
    /// The set of no number, with room for those below 256. Takes no memory.
    pub fn new(alloc: Global) -> NumberSet
        ensures { result ≡ record { numbers = set.empty; room = SLOTS } }
    {
        NumberSet {
            alloc,
            low: Bits256::empty(),
            high: HighNumbers::new(),
        }
    }

    /// Makes room for the numbers below the count, where it has less.
    ///
    /// # Errors
    ///
    /// `AllocError` where memory is refused. The set is then as it was.
    pub fn reserve(&mut self, count: usize) -> Result<(), AllocError>
        requires { count ≤ MOST_NUMBERS }
        ensures numbers { self.new.numbers ≡ self.old.numbers }
        ensures more { self.old.room ≤ self.new.room }
        ensures ok { OnOk result (count ≤ self.new.room) }
        ensures err { OnErr result (self.new ≡ self.old) }
    {
        if count <= SLOTS + self.high.room() {
            return Ok(());
        }
        self.high.reserve(self.alloc, count - SLOTS)
    }

    /// Whether the number is in the set.
    pub fn contains(&self, number: usize) -> bool
        ensures { result ≡ set.contains self.now.numbers number }
    {
        if number < SLOTS {
            return self.low.contains(number as u8);
        }
        self.high.contains(number - SLOTS)
    }

    /// The least number of the set.
    #[inline(always)]
    pub fn lowest(&self) -> Option<usize>
        ensures lowest { MatchOption result (self.now.numbers ≡ set.empty)
            (IsLowest self.now.numbers) }
        ensures in_room { IfSome result (λ number. number < self.now.room) }
    {
        if let Some(slot) = self.low.lowest() {
            return Some(usize::from(slot));
        }
        let Some(number) = self.high.lowest() else {
            return None;
        };
        Some(SLOTS + number)
    }

    /// Takes the number in, which may be in it already.
    #[inline(always)]
    pub fn insert(&mut self, number: usize)
        requires { number < self.old.room }
        ensures { self.new ≡ record self.old { numbers = set.insert self.old.numbers number } }
    {
        if number < SLOTS {
            self.low.insert(number as u8);
            return;
        }
        self.high.insert(number - SLOTS);
    }

    /// Takes the number out, which may not be in it.
    pub fn remove(&mut self, number: usize)
        requires { number < self.old.room }
        ensures { self.new ≡ record self.old { numbers = set.remove self.old.numbers number } }
    {
        if number < SLOTS {
            self.low.remove(number as u8);
            return;
        }
        self.high.remove(number - SLOTS);
    }

    /// Takes the number out where `out` says so. Of a number below 256 it takes no branch on that.
    #[inline(always)]
    pub fn remove_if(&mut self, number: usize, out: bool)
        requires { number < self.old.room }
        ensures { self.new ≡ without_if self.old number out }
    {
        if number < SLOTS {
            self.low.remove_if(number as u8, out);
            return;
        }
        if out {
            self.high.remove(number - SLOTS);
        }
    }

    /// Moves the numbers of the quads from this one on up by one quad, so that the set has none of
    /// this one. The quad at an index is the four numbers from four times the index on. It takes a
    /// step for each 256 that the set has room for from there on, and no memory.
    pub fn shift_up(&mut self, quad: usize)
        requires small { quad < MOST_NUMBERS }
        requires room { (n : ℕ) → set.contains self.old.numbers n ≡ true → n + 4 < self.old.room }
        ensures below { (n : ℕ) → n / 4 < quad
            → set.contains self.new.numbers n ≡ set.contains self.old.numbers n }
        ensures this { (n : ℕ) → n / 4 ≡ quad → set.contains self.new.numbers n ≡ false }
        ensures above { (n : ℕ) → quad ≤ n / 4
            → set.contains self.new.numbers (n + 4) ≡ set.contains self.old.numbers n }
        ensures room { self.new.room ≡ self.old.room }
    {
        let first = 4 * quad;
        if first >= SLOTS {
            self.high.shift_up(first - SLOTS, Bits256::empty());
            return;
        }
        let before = self.low;
        self.low = spread(&before, first, &Bits256::empty());
        self.high.shift_up(0, before);
    }

    /// Takes the numbers of the quad out, and moves those above it down by one quad. It takes a
    /// step for each 256 that the set has room for from there on, and no memory.
    pub fn shift_down(&mut self, quad: usize)
        requires { quad < MOST_NUMBERS }
        ensures below { (n : ℕ) → n / 4 < quad
            → set.contains self.new.numbers n ≡ set.contains self.old.numbers n }
        ensures above { (n : ℕ) → quad ≤ n / 4
            → set.contains self.new.numbers n ≡ set.contains self.old.numbers (n + 4) }
        ensures room { self.new.room ≡ self.old.room }
    {
        let first = 4 * quad;
        if first >= SLOTS {
            self.high.shift_down(first - SLOTS);
            return;
        }
        let after = self.high.first_part();
        self.low = gather(&self.low, first, &after);
        self.high.shift_down(0);
    }

    /// Has the numbers below the count then, and no others. It takes a step for each 256 that it
    /// has room for, and no memory.
    pub fn fill(&mut self, count: usize)
        requires { count ≤ self.old.room }
        ensures numbers { (number : ℕ) → set.contains self.new.numbers number
            ≡ nat_lt number count }
        ensures room { self.new.room ≡ self.old.room }
    {
        let more = count.saturating_sub(SLOTS);
        self.low = Bits256::below(count.min(SLOTS));
        self.high.fill(more);
    }
}
