// Numbers, and above them the sets of the parts that have one.
ghost use Rattle.std.specs.Prelude.{◌≡◌, ◌+◌, ◌*◌, ◌/◌, ◌%◌, ◌<◌, ◌≤◌, ℕ, [], IfOk, IfSome, MatchOption, OnErr, OnOk, length, nat_lt, vec_len};
ghost use Rattle.std.specs.FinSet as set;
ghost use Rattle.bitmap.specs.Parts.{IsSummary, in_parts, numbers_in};
ghost use Rattle.bitmap.specs.Slots.{IsLowest};
ghost use Rattle.bitmap.specs.declared.bits.TheConstants.{SLOTS};
ghost use Rattle.bitmap.specs.declared.numbers.TheConstants.{MOST_NUMBERS};

use crate::bits::{Bits256, SLOTS};
use crate::parts::{
    contains_in, fill, gather_all, grow, insert_in, lowest_in, part_at, remove_in, spread_all,
    summarize_from, summary_of,
};
use std::alloc::{AllocError, Global};
use std::marker::Model;

/// A set of numbers below its room, by parts of 256. Above them stand a set of the parts that have
/// a number, by parts too, and a set of the parts of that which have one (a hierarchical bitmap, as
/// `hibitset` has). So the least is found in three steps.
#[derive(Drop)]
pub(crate) struct Levels {
    parts: Vec<Bits256>,
    // Which parts have a number.
    filled: Vec<Bits256>,
    // Which parts of `filled` have one.
    top: Bits256,
}

impl Model for Levels {
    ghost use Rattle.std.specs.Coded.{coded_list, coded_ℕ};
    ghost use Rattle.std.specs.FinSet as set;
    ghost use Rattle.std.specs.Prelude.{List};
    ghost use Rattle.bitmap.specs.Slots.{SlotSet};
    ghost use Rattle.bitmap.specs.KeptLevels.{IsKept};

    ghost Value = { List SlotSet };

    ghost coded = { coded_list (set.code coded_ℕ) };

    ghost view = { λ high. high.parts.items };

    ghost invariant = { IsKept };
}

impl Levels {
    /// No number, and room for those below the count.
    ///
    /// # Errors
    ///
    /// `AllocError` if memory is refused.
    pub(crate) fn with_room(alloc: Global, count: usize) -> Result<Box<Levels>, AllocError>
        requires { SLOTS + count ≤ MOST_NUMBERS }
        ensures { IfOk result (λ high. (numbers_in high.value ≡ set.empty)
            × (count ≤ SLOTS * length high.value)) }
    {
        let mut high = Levels {
            parts: Vec::new(alloc),
            filled: Vec::new(alloc),
            top: Bits256::empty(),
        };
        high.reserve(count)?;
        Ok(Box::new(alloc, high)?)
    }

    /// Below which count there is room for all numbers.
    pub(crate) fn room(&self) -> usize
        ensures room { result ≡ SLOTS * length self.now }
        ensures at_most { result ≤ MOST_NUMBERS }
    {
        SLOTS * self.parts.len()
    }

    /// Makes room for the numbers below the count, where it has less.
    ///
    /// # Errors
    ///
    /// `AllocError` where memory is refused. The numbers are then as they were, with as much room.
    pub(crate) fn reserve(&mut self, count: usize) -> Result<(), AllocError>
        requires { SLOTS + count ≤ MOST_NUMBERS }
        ensures numbers { numbers_in self.new ≡ numbers_in self.old }
        ensures more { length self.old ≤ length self.new }
        ensures ok { OnOk result (count ≤ SLOTS * length self.new) }
        ensures err { OnErr result (length self.new ≡ length self.old) }
    {
        grow(&mut self.filled, count.div_ceil(SLOTS))?;
        grow(&mut self.parts, count)
    }

    /// Whether the number is among them.
    pub(crate) fn contains(&self, number: usize) -> bool
        ensures { result ≡ in_parts self.now number }
    {
        contains_in(&self.parts, number)
    }

    /// The least number.
    #[inline(always)]
    pub(crate) fn lowest(&self) -> Option<usize>
        ensures lowest { MatchOption result (numbers_in self.now ≡ set.empty)
            (IsLowest (numbers_in self.now)) }
        ensures in_room { IfSome result (λ number. number < SLOTS * length self.now) }
        ensures at_most { IfSome result (λ number. number < MOST_NUMBERS) }
    {
        lowest_of(&self.parts, &self.filled, &self.top)
    }

    /// Takes the number in, which may be in already.
    #[inline(always)]
    pub(crate) fn insert(&mut self, number: usize)
        requires { number < SLOTS * length self.old }
        ensures numbers { numbers_in self.new ≡ set.insert (numbers_in self.old) number }
        ensures len { length self.new ≡ length self.old }
    {
        enter(&mut self.parts, &mut self.filled, &mut self.top, number);
    }

    /// Takes the number out, which may not be in.
    #[inline(always)]
    pub(crate) fn remove(&mut self, number: usize)
        requires { number < SLOTS * length self.old }
        ensures numbers { numbers_in self.new ≡ set.remove (numbers_in self.old) number }
        ensures len { length self.new ≡ length self.old }
    {
        strike(&mut self.parts, &mut self.filled, &mut self.top, number);
    }

    /// Moves the numbers of the quads from the one at the limit on up by one quad. In its place
    /// come the last four slots of the part before, which has none if a number stays.
    pub(crate) fn shift_up(&mut self, limit: usize, before: Bits256)
        requires aligned { limit % 4 ≡ 0 }
        requires alone { 0 < limit → before ≡ set.empty }
        ensures below { (q : ℕ) → q < limit → in_parts self.new q ≡ in_parts self.old q }
        ensures this { (slot : ℕ) → slot < 4 → limit < SLOTS * length self.old
            → in_parts self.new (limit + slot) ≡ set.contains before (252 + slot) }
        ensures above { (q : ℕ) → limit ≤ q → q + 4 < SLOTS * length self.old
            → in_parts self.new (q + 4) ≡ in_parts self.old q }
        ensures len { length self.new ≡ length self.old }
    {
        let end = spread_all(&mut self.parts, limit, before);
        summarize_from(&self.parts, &mut self.filled, limit / SLOTS, end);
        self.top = summary_of(&self.filled);
    }

    /// Takes the quad at the limit out, and moves the numbers above it down by one quad.
    pub(crate) fn shift_down(&mut self, limit: usize)
        ensures below { (q : ℕ) → q < limit → in_parts self.new q ≡ in_parts self.old q }
        ensures above { (q : ℕ) → limit ≤ q → in_parts self.new q ≡ in_parts self.old (q + 4) }
        ensures len { length self.new ≡ length self.old }
    {
        let end = gather_all(&mut self.parts, limit);
        summarize_from(&self.parts, &mut self.filled, limit / SLOTS, end);
        self.top = summary_of(&self.filled);
    }

    /// The numbers below 256.
    pub(crate) fn first_part(&self) -> Bits256
        ensures { (slot : ℕ) → slot < 256 → set.contains result slot ≡ in_parts self.now slot }
    {
        part_at(&self.parts, 0)
    }

    /// Has the numbers below the count then, and no others.
    pub(crate) fn fill(&mut self, count: usize)
        requires { count ≤ SLOTS * length self.old }
        ensures numbers { (number : ℕ) → in_parts self.new number ≡ nat_lt number count }
        ensures len { length self.new ≡ length self.old }
    {
        self.top = fill_levels(&mut self.parts, &mut self.filled, count);
    }
}

// The least number of `high`.
#[inline(never)]
fn lowest_of(high: &Vec<Bits256>, filled: &Vec<Bits256>, top: &Bits256) -> Option<usize>
    requires places { vec_len high.now ≤ 256 * vec_len filled.now }
    requires top_places { vec_len filled.now ≤ 256 }
    requires parts { IsSummary (numbers_in high.now.items) (numbers_in filled.now.items) }
    requires top { IsSummary (numbers_in filled.now.items) top.now }
    ensures lowest { MatchOption result (numbers_in high.now.items ≡ set.empty)
        (IsLowest (numbers_in high.now.items)) }
    ensures in_room { IfSome result (λ number. number < 256 * vec_len high.now) }
{
    let Some(first) = top.lowest() else {
        return None;
    };
    let Some(part) = lowest_in(filled, usize::from(first)) else {
        return None;
    };
    lowest_in(high, part)
}

// Takes the number into `high`, and its part into the sets above.
#[inline(never)]
fn enter(high: &mut Vec<Bits256>, filled: &mut Vec<Bits256>, top: &mut Bits256, number: usize)
    requires within { number < 256 * vec_len high.old }
    requires places { vec_len high.old ≤ 256 * vec_len filled.old }
    requires top_places { vec_len filled.old ≤ 256 }
    requires parts { IsSummary (numbers_in high.old.items) (numbers_in filled.old.items) }
    requires top { IsSummary (numbers_in filled.old.items) top.old }
    ensures numbers { numbers_in high.new.items ≡ set.insert (numbers_in high.old.items) number }
    ensures len { vec_len high.new ≡ vec_len high.old }
    ensures filled_len { vec_len filled.new ≡ vec_len filled.old }
    ensures parts { IsSummary (numbers_in high.new.items) (numbers_in filled.new.items) }
    ensures top { IsSummary (numbers_in filled.new.items) top.new }
{
    let part = number / SLOTS;
    insert_in(high, number);
    insert_in(filled, part);
    top.insert((part / SLOTS) as u8);
}

// Takes the number out of `high`, and its part out of the sets above where it was the last.
#[inline(never)]
fn strike(high: &mut Vec<Bits256>, filled: &mut Vec<Bits256>, top: &mut Bits256, number: usize)
    requires within { number < 256 * vec_len high.old }
    requires places { vec_len high.old ≤ 256 * vec_len filled.old }
    requires top_places { vec_len filled.old ≤ 256 }
    requires parts { IsSummary (numbers_in high.old.items) (numbers_in filled.old.items) }
    requires top { IsSummary (numbers_in filled.old.items) top.old }
    ensures numbers { numbers_in high.new.items ≡ set.remove (numbers_in high.old.items) number }
    ensures len { vec_len high.new ≡ vec_len high.old }
    ensures filled_len { vec_len filled.new ≡ vec_len filled.old }
    ensures parts { IsSummary (numbers_in high.new.items) (numbers_in filled.new.items) }
    ensures top { IsSummary (numbers_in filled.new.items) top.new }
{
    let part = number / SLOTS;
    remove_in(high, number);
    if lowest_in(high, part).is_some() {
        return;
    }
    strike_part(filled, top, part);
}

// Takes the part out of `filled`, and its own part out of the set above where it was the last.
fn strike_part(filled: &mut Vec<Bits256>, top: &mut Bits256, part: usize)
    requires within { part < 256 * vec_len filled.old }
    requires top_places { vec_len filled.old ≤ 256 }
    requires top { IsSummary (numbers_in filled.old.items) top.old }
    ensures numbers { numbers_in filled.new.items ≡ set.remove (numbers_in filled.old.items) part }
    ensures len { vec_len filled.new ≡ vec_len filled.old }
    ensures top { IsSummary (numbers_in filled.new.items) top.new }
{
    remove_in(filled, part);
    if lowest_in(filled, part / SLOTS).is_some() {
        return;
    }
    top.remove((part / SLOTS) as u8);
}

// Has `high` have the numbers below the count, with the sets above, and gives the uppermost.
fn fill_levels(high: &mut Vec<Bits256>, filled: &mut Vec<Bits256>, count: usize) -> Bits256
    requires within { count ≤ 256 * vec_len high.old }
    requires places { vec_len high.old ≤ 256 * vec_len filled.old }
    requires top_places { vec_len filled.old ≤ 256 }
    ensures numbers { (number : ℕ) →
        set.contains (numbers_in high.new.items) number ≡ nat_lt number count }
    ensures len { vec_len high.new ≡ vec_len high.old }
    ensures filled_len { vec_len filled.new ≡ vec_len filled.old }
    ensures parts { IsSummary (numbers_in high.new.items) (numbers_in filled.new.items) }
    ensures top { IsSummary (numbers_in filled.new.items) result }
{
    let parts = count.div_ceil(SLOTS);
    fill(high, count);
    fill(filled, parts);
    Bits256::below(parts.div_ceil(SLOTS))
}
