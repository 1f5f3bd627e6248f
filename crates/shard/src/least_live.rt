// A byte for each group. One that is not 0 says that the group is open, and that at least so many
// of its slots are live. A walk that asks for few live slots, or for closed groups, so reads the
// bytes, and passes most groups by.
ghost use Rattle.std.specs.Prelude.{◌≡◌, ◌+◌, ◌<◌, ◌≤◌, ℕ, List, OnOk, Some, insert, length, remove, slice_get, slice_set, vec_len, vec_capacity, false};
ghost use Rattle.shard.specs.Group.{GroupState};
ghost use Rattle.shard.specs.Least.{IsLeast, KnowsLeast};

use crate::group::Group;
use crate::group_row::GroupRow;
use groups::byte_of;
use span::spans::Log;
use std::alloc::AllocError;

/// What the byte of the group may be. It reads the group.
pub(crate) fn byte_of_open<L: Log>(group: &Group<L>) -> u8
    requires { group.now.closed ≡ false }
    ensures { IsLeast result group.now }
{
    byte_of(&group.spans().occupied())
}

/// Notes of the group at the index how many of its slots are live, if it is open.
pub(crate) fn note_byte<L: Log>(least: &mut Vec<u8>, index: usize, group: &Group<L>)
    requires { index < vec_len least.old }
    ensures known { (groups : List GroupState) → slice_get groups index ≡ Some group.now
        → KnowsLeast groups least.old.items → KnowsLeast groups least.new.items }
    ensures len { vec_len least.new ≡ vec_len least.old }
{
    if group.is_closed() {
        return;
    }
    least[index] = byte_of_open(group);
}

/// Notes the same of the group before the index, if there is one. If a group is opened there, the
/// one before it has mostly been filled just now, and is no miss of the cache.
pub(crate) fn note_before<L: Log>(least: &mut Vec<u8>, index: usize, groups: &GroupRow<L>)
    requires index { index ≤ length groups.now.items }
    requires bytes { length groups.now.items ≤ vec_len least.old }
    ensures known { KnowsLeast groups.now.items least.old.items
        → KnowsLeast groups.now.items least.new.items }
    ensures len { vec_len least.new ≡ vec_len least.old }
{
    if index > 0 {
        note_byte(least, index - 1, &groups[index - 1]);
    }
}

/// Makes a byte for each group and for so many more, if there are fewer. Each that comes is 0.
///
/// # Errors
///
/// `AllocError` if memory is refused. The bytes are then as they were.
pub(crate) fn reserve_bytes<L: Log>(
    least: &mut Vec<u8>,
    groups: &GroupRow<L>,
    more: usize,
) -> Result<(), AllocError>
    ensures known { (known : List GroupState) → KnowsLeast known least.old.items
        → KnowsLeast known least.new.items }
    ensures no_fewer { vec_len least.old ≤ vec_len least.new }
    ensures ok { OnOk result (length groups.now.items + more ≤ vec_len least.new) }
{
    let Some(count) = groups.len().checked_add(more) else {
        return Err(AllocError);
    };
    if count <= least.len() {
        return Ok(());
    }
    least.resize(count, 0)
}

/// Has the byte of the index be 0, so that the group there may be any.
#[inline(always)]
pub(crate) fn clear_byte(least: &mut Vec<u8>, index: usize)
    requires { index < vec_len least.old }
    ensures known { (kept : List GroupState) (group : GroupState) → KnowsLeast kept least.old.items
        → KnowsLeast (slice_set kept index group) least.new.items }
    ensures len { vec_len least.new ≡ vec_len least.old }
{
    least[index] = 0;
}

/// Has all bytes be 0, so that the groups may be any.
pub(crate) fn clear_bytes(least: &mut Vec<u8>)
    ensures known { (groups : List GroupState) → KnowsLeast groups least.new.items }
    ensures len { vec_len least.new ≡ vec_len least.old }
{
    for index in 0..least.len() {
        least[index] = 0;
    }
}

/// Gives the group that came to the index the byte 0. Those of the groups behind it move up by one,
/// and the last byte, which is of none, goes. It takes no memory.
pub(crate) fn add_byte(least: &mut Vec<u8>, index: usize)
    requires { index < vec_len least.old }
    ensures known { (kept : List GroupState) (group : GroupState) → index ≤ length kept
        → KnowsLeast kept least.old.items → KnowsLeast (insert kept index group) least.new.items }
    ensures len { vec_len least.new ≡ vec_len least.old }
{
    least.pop();
    insert_zero(least, index);
}

// Inserts a byte where there is room, which needs no memory.
fn insert_zero(least: &mut Vec<u8>, index: usize)
    requires within { index ≤ vec_len least.old }
    requires room { vec_len least.old < vec_capacity least.old }
    ensures items { least.new.items ≡ insert least.old.items index 0 }
    ensures len { vec_len least.new ≡ vec_len least.old + 1 }
{
    match least.insert(index, 0) {
        Ok(()) => {}
        Err(_) => unreachable!(),
    }
}

/// Takes the byte of the group that left the index out. Those behind it move down by one.
pub(crate) fn drop_byte(least: &mut Vec<u8>, index: usize)
    requires { index < vec_len least.old }
    ensures known { (groups : List GroupState) → KnowsLeast groups least.old.items
        → KnowsLeast (remove groups index) least.new.items }
    ensures len { vec_len least.new + 1 ≡ vec_len least.old }
{
    let _ = least.remove(index);
}
