// Lists of sets of numbers. A set past the end has no number and no room.
ghost use Rattle.std.specs.Prelude.{◌≡◌, ◌<◌, ◌≤◌, ℕ, OnOk, max, vec_len};
ghost use Rattle.bitmap.specs.Numbers.{NumbersState};
ghost use Rattle.bitmap.specs.declared.numbers.TheConstants.{MOST_NUMBERS};
ghost use Rattle.shard.specs.Rooms.{HasRoomAt, IsNoLess, IsShiftedDown, IsShiftedUp, set_at};

use bitmap::NumberSet;
use std::alloc::{AllocError, Global};

/// Adds empty sets until there are as many as that.
///
/// # Errors
///
/// `AllocError` where memory is refused. The sets have the numbers that they had.
pub(crate) fn extend(
    sets: &mut Vec<NumberSet>,
    count: usize,
    alloc: Global,
) -> Result<(), AllocError>
    ensures no_less { (n : ℕ) → IsNoLess (set_at sets.old.items n) (set_at sets.new.items n) }
    ensures longer { vec_len sets.old ≤ vec_len sets.new }
    ensures few { vec_len sets.new ≤ max (vec_len sets.old) count }
    ensures ok { OnOk result (count ≤ vec_len sets.new) }
{
    if count <= sets.len() {
        return Ok(());
    }
    sets.reserve_exact(count - sets.len())?;
    while sets.len() < count {
        sets.push(NumberSet::new(alloc))?;
    }
    Ok(())
}

/// Makes room for the numbers below the count in each set.
///
/// # Errors
///
/// `AllocError` where memory is refused. The sets have the numbers that they had.
pub(crate) fn reserve_all(sets: &mut Vec<NumberSet>, count: usize) -> Result<(), AllocError>
    requires { count ≤ MOST_NUMBERS }
    ensures no_less { (n : ℕ) → IsNoLess (set_at sets.old.items n) (set_at sets.new.items n) }
    ensures len { vec_len sets.new ≡ vec_len sets.old }
    ensures ok { OnOk result ((n : ℕ) → n < vec_len sets.old
        → count ≤ (set_at sets.new.items n).room) }
{
    for at in 0..sets.len() {
        sets[at].reserve(count)?;
    }
    Ok(())
}

/// Moves the numbers of the groups from this one on up by those of one in each set.
pub(crate) fn shift_all_up(sets: &mut Vec<NumberSet>, index: usize)
    requires small { index < MOST_NUMBERS }
    requires room { (n : ℕ) → HasRoomAt index (set_at sets.old.items n) }
    ensures shifted { (n : ℕ) →
        IsShiftedUp index (set_at sets.old.items n) (set_at sets.new.items n) }
    ensures len { vec_len sets.new ≡ vec_len sets.old }
{
    for at in 0..sets.len() {
        shift_up(&mut sets[at], index);
    }
}

/// Moves the numbers of the groups from this one on up by those of one. Of an empty set it takes a
/// look alone.
pub(crate) fn shift_up(set: &mut NumberSet, index: usize)
    requires small { index < MOST_NUMBERS }
    requires room { HasRoomAt index set.old }
    ensures { IsShiftedUp index set.old set.new }
{
    if set.lowest().is_none() {
        return;
    }
    set.shift_up(index);
}

/// Takes the numbers of the group out of each set, and moves those above them down.
pub(crate) fn shift_all_down(sets: &mut Vec<NumberSet>, index: usize)
    requires { index < MOST_NUMBERS }
    ensures shifted { (n : ℕ) →
        IsShiftedDown index (set_at sets.old.items n) (set_at sets.new.items n) }
    ensures len { vec_len sets.new ≡ vec_len sets.old }
{
    for at in 0..sets.len() {
        shift_down(&mut sets[at], index);
    }
}

/// Takes the numbers of the group out, and moves those above them down. Of an empty set it takes a
/// look alone.
pub(crate) fn shift_down(set: &mut NumberSet, index: usize)
    requires { index < MOST_NUMBERS }
    ensures { IsShiftedDown index set.old set.new }
{
    if set.lowest().is_none() {
        return;
    }
    set.shift_down(index);
}
