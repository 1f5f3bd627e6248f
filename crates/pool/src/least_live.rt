// A byte for each group: at least so many of its slots are live. A walk that asks for few live
// slots so reads the bytes, and passes most groups by.
ghost use Rattle.std.specs.Prelude.{◌≡◌, ◌+◌, ◌≤◌, length, vec_capacity};
ghost use Rattle.groups.specs.Least.{IsLeast, KnowsLeast};

use crate::pooled::Pooled;
use groups::byte_of;
use span::spans::Log;

/// The byte of the group.
pub(crate) fn byte_of_pooled<L: Log>(group: &Pooled<L>) -> u8
    ensures { IsLeast result group.now }
{
    byte_of(&group.spans().occupied())
}

/// Makes the bytes those of the groups, for which there is room.
pub(crate) fn note_bytes<L: Log>(least: &mut Vec<u8>, groups: &[Pooled<L>])
    requires { length groups.now ≤ vec_capacity least.old }
    ensures known { KnowsLeast IsLeast groups.now least.new.items }
    ensures len { length least.new.items ≡ length groups.now }
    ensures capacity { vec_capacity least.new ≡ vec_capacity least.old }
{
    least.clear();
    for group in groups {
        least.push_reserved(byte_of_pooled(group));
    }
}

// A list of few bytes is not worth a call to the allocator.
const FEW: usize = 16;

/// Gives memory back if a quarter of the room would do for the bytes and for so many more. Twice as
/// much stays.
pub(crate) fn give_back_bytes(least: &mut Vec<u8>, room: usize)
    requires { length least.old.items + room ≤ vec_capacity least.old }
    ensures same { least.new.items ≡ least.old.items }
    ensures room { length least.new.items + room ≤ vec_capacity least.new }
{
    let wanted = least.len() + room;
    if wanted + FEW < least.capacity() / 4 {
        least.shrink_to(2 * wanted);
    }
}
