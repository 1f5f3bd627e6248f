// The numbers of a set from 256 on, which have memory only once there is room for one.
ghost use Rattle.std.specs.Prelude.{◌≡◌, ◌+◌, ◌*◌, ◌%◌, ◌<◌, ◌≤◌, ℕ, [], IfSome, MatchOption, OnErr, OnOk, length, nat_lt};
ghost use Rattle.std.specs.FinSet as set;
ghost use Rattle.bitmap.specs.Parts.{in_parts, numbers_in};
ghost use Rattle.bitmap.specs.Slots.{IsLowest};
ghost use Rattle.bitmap.specs.declared.bits.TheConstants.{SLOTS};
ghost use Rattle.bitmap.specs.declared.numbers.TheConstants.{MOST_NUMBERS};

use crate::bits::Bits256;
use crate::levels::Levels;
use std::alloc::{AllocError, Global};
use std::marker::Model;

/// The numbers of a set from 256 on, less 256. Their levels stand in a box that comes with the
/// first room for one: until then they take two words of the set. A shard has a set of each class,
/// and mostly no more than 256 groups.
#[derive(Drop)]
pub(crate) struct HighNumbers {
    levels: Option<Box<Levels>>,
}

impl Model for HighNumbers {
    ghost use Rattle.std.specs.Coded.{coded_list, coded_ℕ};
    ghost use Rattle.std.specs.FinSet as set;
    ghost use Rattle.std.specs.Prelude.{List, option_map};
    ghost use Rattle.bitmap.specs.Parts.{parts_in};
    ghost use Rattle.bitmap.specs.Slots.{SlotSet};

    ghost Value = { List SlotSet };

    ghost coded = { coded_list (set.code coded_ℕ) };

    ghost view = { λ high. parts_in (option_map (λ levels. levels.value) high.levels) };
}

impl HighNumbers {
    /// No number, and room for none. Takes no memory.
    pub(crate) fn new() -> HighNumbers
        ensures { result ≡ [] }
    {
        HighNumbers { levels: None }
    }

    /// Below which count there is room for all numbers.
    pub(crate) fn room(&self) -> usize
        ensures room { result ≡ SLOTS * length self.now }
        ensures at_most { result ≤ MOST_NUMBERS }
    {
        match &self.levels {
            Some(levels) => levels.room(),
            None => 0,
        }
    }

    /// Makes room for the numbers below the count, where it has less.
    ///
    /// # Errors
    ///
    /// `AllocError` where memory is refused. The numbers are then as they were, with as much room.
    pub(crate) fn reserve(&mut self, alloc: Global, count: usize) -> Result<(), AllocError>
        requires { SLOTS + count ≤ MOST_NUMBERS }
        ensures numbers { numbers_in self.new ≡ numbers_in self.old }
        ensures more { length self.old ≤ length self.new }
        ensures ok { OnOk result (count ≤ SLOTS * length self.new) }
        ensures err { OnErr result (length self.new ≡ length self.old) }
    {
        if let Some(levels) = &mut self.levels {
            levels.reserve(count)?;
            return Ok(());
        }
        self.levels = Some(Levels::with_room(alloc, count)?);
        Ok(())
    }

    /// Whether the number is among them.
    pub(crate) fn contains(&self, number: usize) -> bool
        ensures { result ≡ in_parts self.now number }
    {
        match &self.levels {
            Some(levels) => levels.contains(number),
            None => false,
        }
    }

    /// The least number.
    #[inline(always)]
    pub(crate) fn lowest(&self) -> Option<usize>
        ensures lowest { MatchOption result (numbers_in self.now ≡ set.empty)
            (IsLowest (numbers_in self.now)) }
        ensures in_room { IfSome result (λ number. number < SLOTS * length self.now) }
        ensures at_most { IfSome result (λ number. number < MOST_NUMBERS) }
    {
        match &self.levels {
            Some(levels) => levels.lowest(),
            None => None,
        }
    }

    /// Takes the number in, which may be in already.
    #[inline(always)]
    pub(crate) fn insert(&mut self, number: usize)
        requires { number < SLOTS * length self.old }
        ensures numbers { numbers_in self.new ≡ set.insert (numbers_in self.old) number }
        ensures len { length self.new ≡ length self.old }
    {
        match &mut self.levels {
            Some(levels) => levels.insert(number),
            None => unreachable!(),
        }
    }

    /// Takes the number out, which may not be in.
    #[inline(always)]
    pub(crate) fn remove(&mut self, number: usize)
        requires { number < SLOTS * length self.old }
        ensures numbers { numbers_in self.new ≡ set.remove (numbers_in self.old) number }
        ensures len { length self.new ≡ length self.old }
    {
        match &mut self.levels {
            Some(levels) => levels.remove(number),
            None => unreachable!(),
        }
    }

    /// Moves the numbers of the quads from the one at the limit on up by one quad. In its place
    /// come the last four slots of the part before, which has none if a number stays.
    pub(crate) fn shift_up(&mut self, limit: usize, before: Bits256)
        requires aligned { limit % 4 ≡ 0 }
        requires alone { 0 < limit → before ≡ set.empty }
        ensures below { (q : ℕ) → q < limit → in_parts self.new q ≡ in_parts self.old q }
        ensures this { (slot : ℕ) → slot < 4 → limit < SLOTS * length self.old
            → in_parts self.new (limit + slot) ≡ set.contains before (252 + slot) }
        ensures above { (q : ℕ) → limit ≤ q → q + 4 < SLOTS * length self.old
            → in_parts self.new (q + 4) ≡ in_parts self.old q }
        ensures len { length self.new ≡ length self.old }
    {
        if let Some(levels) = &mut self.levels {
            levels.shift_up(limit, before);
        }
    }

    /// Takes the quad at the limit out, and moves the numbers above it down by one quad.
    pub(crate) fn shift_down(&mut self, limit: usize)
        ensures below { (q : ℕ) → q < limit → in_parts self.new q ≡ in_parts self.old q }
        ensures above { (q : ℕ) → limit ≤ q → in_parts self.new q ≡ in_parts self.old (q + 4) }
        ensures len { length self.new ≡ length self.old }
    {
        if let Some(levels) = &mut self.levels {
            levels.shift_down(limit);
        }
    }

    /// The numbers below 256.
    pub(crate) fn first_part(&self) -> Bits256
        ensures { (slot : ℕ) → slot < 256 → set.contains result slot ≡ in_parts self.now slot }
    {
        match &self.levels {
            Some(levels) => levels.first_part(),
            None => Bits256::empty(),
        }
    }

    /// Has the numbers below the count then, and no others.
    pub(crate) fn fill(&mut self, count: usize)
        requires { count ≤ SLOTS * length self.old }
        ensures numbers { (number : ℕ) → in_parts self.new number ≡ nat_lt number count }
        ensures len { length self.new ≡ length self.old }
    {
        if let Some(levels) = &mut self.levels {
            levels.fill(count);
        }
    }
}
