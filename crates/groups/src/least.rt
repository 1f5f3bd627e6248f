// A byte for each of some groups: at least so many of its slots are live. A walk that asks for
// groups with few live slots reads the bytes, and passes most groups by.
ghost use Rattle.std.specs.Prelude.{◌≡◌, ◌↔◌, ◌+◌, ◌<◌, ◌≤◌, ℕ, IsTrue, Some, length, slice_get};
ghost use Rattle.std.specs.FinSet as set;
ghost use Rattle.groups.specs.Least.{HasLower, HaveLeast, HaveNoLower, least_of};
ghost use Rattle.groups.specs.declared.least.TheConstants.{BLOCK};

use bitmap::{Bits256, SLOTS};

/// The byte that says that all 256 slots are live.
const FULL: u8 = 255;

/// What the byte of a group with these live slots may be at most.
pub fn byte_of(occupied: &Bits256) -> u8
    ensures least { least_of result ≤ set.len occupied.now }
    ensures most { set.len occupied.now ≤ least_of result + 1 }
{
    let live = occupied.count() as usize;
    if live >= SLOTS {
        return FULL;
    }
    live.min(FULL as usize - 1) as u8
}

/// How many slots are live at the least, by the byte.
#[inline(always)]
pub fn least_of(byte: u8) -> usize
    ensures { result ≡ least_of byte }
{
    if byte == FULL { SLOTS } else { byte as usize }
}

/// The first index, from one on, whose byte says of fewer live slots than so many; or the end, if
/// there is none before it. It looks at 64 bytes at once.
pub fn next_below(bytes: &[u8], first: usize, end: usize, limit: usize) -> usize
    requires first { first ≤ end }
    requires bytes { end ≤ length bytes.now }
    ensures first { first ≤ result }
    ensures end { result ≤ end }
    ensures passed { HaveLeast bytes.now limit first result }
    ensures next { result < end → (byte : ℕ) → slice_get bytes.now result ≡ Some byte
        → least_of byte < limit }
{
    let mut index = first;
    if limit <= SLOTS {
        index = pass_blocks(bytes, first, end, limit.min(FULL as usize) as u8);
    }
    while index < end {
        if least_of(bytes[index]) < limit {
            return index;
        }
        index += 1;
    }
    end
}

// How many bytes are looked at at once.
const BLOCK: usize = 64;

// The index after the blocks, from the first index on, in which no byte is lower.
fn pass_blocks(bytes: &[u8], first: usize, end: usize, limit: u8) -> usize
    requires first { first ≤ end }
    requires bytes { end ≤ length bytes.now }
    ensures first { first ≤ result }
    ensures end { result ≤ end }
    ensures passed { HaveNoLower bytes.now limit first result }
{
    let mut index = first;
    while end - index >= BLOCK {
        if has_lower(bytes, index, limit) {
            return index;
        }
        index += BLOCK;
    }
    index
}

// Whether one of the bytes of a block is lower. Each is looked at, without a branch.
fn has_lower(bytes: &[u8], first: usize, limit: u8) -> bool
    requires { first + BLOCK ≤ length bytes.now }
    ensures { IsTrue result ↔ HasLower bytes.now limit first (first + BLOCK) }
{
    let mut found = false;
    for index in first..first + BLOCK {
        found |= bytes[index] < limit;
    }
    found
}
