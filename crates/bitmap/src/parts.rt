// Numbers by parts of 256, each part a set of slots.
ghost use Rattle.std.specs.Prelude.{◌≡◌, ◌+◌, ◌*◌, ◌/◌, ◌%◌, ◌<◌, ◌≤◌, ℕ, MatchOption, OnErr, OnOk, nat_lt, vec_len};
ghost use Rattle.std.specs.FinSet as set;
ghost use Rattle.bitmap.specs.declared.parts.TheConstants.{MOST_PARTS};
ghost use Rattle.bitmap.specs.Parts.{HasNoneFrom, HasNoneIn, IsLowestIn, IsSummary, IsSummaryTo, has_number, in_parts, numbers_in};

use crate::bits::{Bits256, SLOTS};
use std::alloc::AllocError;

/// How many parts there are at most.
pub(crate) const MOST_PARTS: usize = 1 << 16;

/// Takes the number in.
pub(crate) fn insert_in(parts: &mut Vec<Bits256>, number: usize)
    requires { number < 256 * vec_len parts.old }
    ensures numbers { numbers_in parts.new.items ≡ set.insert (numbers_in parts.old.items) number }
    ensures len { vec_len parts.new ≡ vec_len parts.old }
{
    parts[number / SLOTS].insert((number % SLOTS) as u8);
}

/// Takes the number out.
pub(crate) fn remove_in(parts: &mut Vec<Bits256>, number: usize)
    requires { number < 256 * vec_len parts.old }
    ensures numbers { numbers_in parts.new.items ≡ set.remove (numbers_in parts.old.items) number }
    ensures len { vec_len parts.new ≡ vec_len parts.old }
{
    parts[number / SLOTS].remove((number % SLOTS) as u8);
}

/// Whether the number is in the set.
pub(crate) fn contains_in(parts: &Vec<Bits256>, number: usize) -> bool
    ensures { result ≡ set.contains (numbers_in parts.now.items) number }
{
    if number / SLOTS >= parts.len() {
        return false;
    }
    parts[number / SLOTS].contains((number % SLOTS) as u8)
}

/// The least number of the part. A part that there is not has none.
pub(crate) fn lowest_in(parts: &Vec<Bits256>, part: usize) -> Option<usize>
    requires { vec_len parts.now ≤ MOST_PARTS }
    ensures { MatchOption result (HasNoneIn (numbers_in parts.now.items) part)
        (IsLowestIn (numbers_in parts.now.items) part) }
{
    if part >= parts.len() {
        return None;
    }
    let Some(slot) = parts[part].lowest() else {
        return None;
    };
    Some(SLOTS * part + usize::from(slot))
}

/// Makes room for the numbers below the count, where there is less.
pub(crate) fn grow(parts: &mut Vec<Bits256>, count: usize) -> Result<(), AllocError>
    ensures numbers { numbers_in parts.new.items ≡ numbers_in parts.old.items }
    ensures more { vec_len parts.old ≤ vec_len parts.new }
    ensures ok { OnOk result (count ≤ 256 * vec_len parts.new) }
    ensures few { vec_len parts.old < vec_len parts.new → 256 * vec_len parts.new < count + 256 }
    ensures err { OnErr result (vec_len parts.new ≡ vec_len parts.old) }
{
    let wanted = count.div_ceil(SLOTS);
    if wanted <= parts.len() {
        return Ok(());
    }
    parts.resize(wanted, Bits256::empty())
}

/// Has the numbers below the count, and no others.
pub(crate) fn fill(parts: &mut Vec<Bits256>, count: usize)
    requires count { count ≤ 256 * vec_len parts.old }
    requires many { vec_len parts.old ≤ MOST_PARTS }
    ensures numbers { (number : ℕ) →
        set.contains (numbers_in parts.new.items) number ≡ nat_lt number count }
    ensures len { vec_len parts.new ≡ vec_len parts.old }
{
    let full = Bits256::below(SLOTS);
    for part in 0..parts.len() {
        parts[part] = part_below(&full, count.saturating_sub(SLOTS * part));
    }
}

// The slots of a part that are below the limit, which may be past its end.
fn part_below(full: &Bits256, limit: usize) -> Bits256
    requires { (slot : ℕ) → set.contains full.now slot ≡ nat_lt slot 256 }
    ensures { (slot : ℕ) → slot < 256 → set.contains result slot ≡ nat_lt slot limit }
{
    if limit >= SLOTS {
        *full
    } else {
        Bits256::below(limit)
    }
}

/// The slots of the part, of which those from the limit on are four higher. In the four places that
/// they leave, the last four slots of the part before come in, which has none if a slot stays.
pub(crate) fn spread(part: &Bits256, limit: usize, before: &Bits256) -> Bits256
    requires within { limit < 256 }
    requires alone { 0 < limit → before.now ≡ set.empty }
    ensures below { (slot : ℕ) → slot < limit
        → set.contains result slot ≡ set.contains part.now slot }
    ensures this { (slot : ℕ) → slot < 4 → limit + slot < 256
        → set.contains result (limit + slot) ≡ set.contains before.now (252 + slot) }
    ensures above { (slot : ℕ) → limit ≤ slot → slot + 4 < 256
        → set.contains result (slot + 4) ≡ set.contains part.now slot }
{
    let high = part.minus(&Bits256::below(limit));
    part.minus(&high).union(&high.up(before))
}

/// The slots of the part without the four from the limit on, of which those above these are four
/// lower. The last four are the first four of the part after.
pub(crate) fn gather(part: &Bits256, limit: usize, after: &Bits256) -> Bits256
    requires { limit < 256 }
    ensures below { (slot : ℕ) → slot < limit
        → set.contains result slot ≡ set.contains part.now slot }
    ensures above { (slot : ℕ) → limit ≤ slot → slot + 4 < 256
        → set.contains result slot ≡ set.contains part.now (slot + 4) }
    ensures last { (slot : ℕ) → slot < 4 → limit ≤ 252 + slot
        → set.contains result (252 + slot) ≡ set.contains after.now slot }
{
    let low = Bits256::below(limit);
    let high = part.minus(&low);
    part.minus(&high).union(&part.down(after).minus(&low))
}

/// Moves the numbers of the quads from the one at the limit on up by one quad. In its place come
/// the last four slots of the part before, which has none if a number stays. Returns how many parts
/// may have had a number, or have one: the parts behind these are not touched.
pub(crate) fn spread_all(parts: &mut Vec<Bits256>, limit: usize, before: Bits256) -> usize
    requires many { vec_len parts.old ≤ MOST_PARTS }
    requires aligned { limit % 4 ≡ 0 }
    requires alone { 0 < limit → before ≡ set.empty }
    ensures below { (q : ℕ) → q < limit → in_parts parts.new.items q ≡ in_parts parts.old.items q }
    ensures this { (slot : ℕ) → slot < 4 → limit < 256 * vec_len parts.old
        → in_parts parts.new.items (limit + slot) ≡ set.contains before (252 + slot) }
    ensures above { (q : ℕ) → limit ≤ q → q + 4 < 256 * vec_len parts.old
        → in_parts parts.new.items (q + 4) ≡ in_parts parts.old.items q }
    ensures len { vec_len parts.new ≡ vec_len parts.old }
    ensures within { result ≤ vec_len parts.old }
    ensures before { HasNoneFrom (numbers_in parts.old.items) (256 * result) }
    ensures after { HasNoneFrom (numbers_in parts.new.items) (256 * result) }
{
    let from = limit / SLOTS;
    if from >= parts.len() {
        return parts.len();
    }
    let end = parts.len().min(end_of(parts, from + 1) + 1);
    let this = parts[from];
    parts[from] = spread(&this, limit % SLOTS, &before);
    raise_from(parts, from + 1, end, this);
    end
}

// Past which part none has a number, of the parts from this one on.
fn end_of(parts: &Vec<Bits256>, from: usize) -> usize
    requires { from ≤ vec_len parts.now }
    ensures none { HasNoneFrom (numbers_in parts.now.items) (256 * result) }
    ensures order { from ≤ result }
    ensures within { result ≤ vec_len parts.now }
{
    let mut end = parts.len();
    while from < end {
        if parts[end - 1].lowest().is_some() {
            return end;
        }
        end -= 1;
    }
    end
}

// Moves the numbers of the parts from this one on, before the end, up by four. The first four come
// from the last of the part before.
fn raise_from(parts: &mut Vec<Bits256>, from: usize, end: usize, before: Bits256)
    requires order { from ≤ end }
    requires within { end ≤ vec_len parts.old }
    ensures below { (q : ℕ) → q < 256 * from
        → in_parts parts.new.items q ≡ in_parts parts.old.items q }
    ensures first { (slot : ℕ) → slot < 4 → from < end
        → in_parts parts.new.items (256 * from + slot) ≡ set.contains before (252 + slot) }
    ensures above { (q : ℕ) → 256 * from ≤ q → q + 4 < 256 * end
        → in_parts parts.new.items (q + 4) ≡ in_parts parts.old.items q }
    ensures rest { (q : ℕ) → 256 * end ≤ q
        → in_parts parts.new.items q ≡ in_parts parts.old.items q }
    ensures len { vec_len parts.new ≡ vec_len parts.old }
{
    let mut before = before;
    for part in from..end {
        let this = parts[part];
        parts[part] = this.up(&before);
        before = this;
    }
}

/// Takes the quad at the limit out, and moves the numbers above it down by one quad. Returns how
/// many parts may have had a number: the parts behind these are not touched.
pub(crate) fn gather_all(parts: &mut Vec<Bits256>, limit: usize) -> usize
    requires { vec_len parts.old ≤ MOST_PARTS }
    ensures below { (q : ℕ) → q < limit → in_parts parts.new.items q ≡ in_parts parts.old.items q }
    ensures above { (q : ℕ) → limit ≤ q
        → in_parts parts.new.items q ≡ in_parts parts.old.items (q + 4) }
    ensures len { vec_len parts.new ≡ vec_len parts.old }
    ensures within { result ≤ vec_len parts.old }
    ensures before { HasNoneFrom (numbers_in parts.old.items) (256 * result) }
    ensures after { HasNoneFrom (numbers_in parts.new.items) (256 * result) }
{
    let from = limit / SLOTS;
    if from >= parts.len() {
        return parts.len();
    }
    let end = end_of(parts, from + 1);
    let after = part_at(parts, from + 1);
    parts[from] = gather(&parts[from], limit % SLOTS, &after);
    lower_from(parts, from + 1, end);
    end
}

// Moves the numbers of the parts from this one on, before the end, down by four, without its first
// four. No part from the end on has one.
fn lower_from(parts: &mut Vec<Bits256>, from: usize, end: usize)
    requires many { vec_len parts.old ≤ MOST_PARTS }
    requires within { end ≤ vec_len parts.old }
    requires none { HasNoneFrom (numbers_in parts.old.items) (256 * end) }
    ensures below { (q : ℕ) → q < 256 * from
        → in_parts parts.new.items q ≡ in_parts parts.old.items q }
    ensures above { (q : ℕ) → 256 * from ≤ q
        → in_parts parts.new.items q ≡ in_parts parts.old.items (q + 4) }
    ensures rest { (q : ℕ) → 256 * end ≤ q
        → in_parts parts.new.items q ≡ in_parts parts.old.items q }
    ensures len { vec_len parts.new ≡ vec_len parts.old }
{
    for part in from..end {
        let after = part_at(parts, part + 1);
        parts[part] = parts[part].down(&after);
    }
}

/// The part at the index, which has no number where there is none.
pub(crate) fn part_at(parts: &Vec<Bits256>, part: usize) -> Bits256
    ensures { (slot : ℕ) → slot < 256
        → set.contains result slot ≡ in_parts parts.now.items (256 * part + slot) }
{
    if part < parts.len() {
        parts[part]
    } else {
        Bits256::empty()
    }
}

/// Notes which of the parts from this one on, before the end, have a number, if that is noted of
/// those before it. No part from the end on has one.
pub(crate) fn summarize_from(
    parts: &Vec<Bits256>,
    filled: &mut Vec<Bits256>,
    from: usize,
    end: usize,
)
    requires many { vec_len parts.now ≤ MOST_PARTS }
    requires places { vec_len parts.now ≤ 256 * vec_len filled.old }
    requires within { end ≤ vec_len parts.now }
    requires none { HasNoneFrom (numbers_in parts.now.items) (256 * end) }
    requires known { IsSummaryTo (numbers_in parts.now.items) (numbers_in filled.old.items) from
        end }
    ensures summary { IsSummary (numbers_in parts.now.items) (numbers_in filled.new.items) }
    ensures len { vec_len filled.new ≡ vec_len filled.old }
{
    for part in from..end {
        if lowest_in(parts, part).is_some() {
            insert_in(filled, part);
        } else {
            remove_in(filled, part);
        }
    }
}

/// The parts that have a number, of 256 at most.
pub(crate) fn summary_of(parts: &Vec<Bits256>) -> Bits256
    requires { vec_len parts.now ≤ 256 }
    ensures { IsSummary (numbers_in parts.now.items) result }
{
    let mut filled = Bits256::empty();
    for part in 0..parts.len() {
        if lowest_in(parts, part).is_some() {
            filled.insert(part as u8);
        }
    }
    filled
}
