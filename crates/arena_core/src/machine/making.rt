// Shards, which a core makes with their first use.
ghost use Rattle.std.specs.Prelude.{◌≡◌, ◌<◌, ◌≤◌, IfErr, OnErr, OnOk, vec_len};
ghost use Rattle.arena_core.specs.Filled.{CannotReach};
ghost use Rattle.arena_core.specs.Made.{all_shards, new_shard_of};
ghost use Rattle.marks.specs.Numbers.{AreWithin};

use crate::reply::Refusal;
use marks::Limits;
use shard::Shard;
use span::spans::Log;
use std::alloc::{AllocError, Global};

/// Makes the shards up to the one of this number, if they do not go as far yet. All shards show as
/// before.
///
/// # Errors
///
/// `Config` if a core of these numbers has no such shard, and `OutOfMemory` only if it has one that
/// is not made yet.
#[inline(always)]
pub(super) fn reach<L: Log>(
    alloc: Global,
    limits: &Limits,
    number: u32,
    shards: &mut Vec<Shard<L>>,
) -> Result<(), Refusal>
    ensures same { all_shards limits.now shards.new.items ≡ all_shards limits.now shards.old.items }
    ensures here { OnOk result (number < vec_len shards.new) }
    ensures refused { IfErr result (λ refusal. (vec_len shards.old ≤ number)
        × CannotReach refusal limits.now.shards number number) }
{
    if (number as usize) < shards.len() {
        return Ok(());
    }
    make_up_to(alloc, limits, number, shards)
}

// The same, if the shard of this number is not made yet.
#[cold]
#[inline(never)]
fn make_up_to<L: Log>(
    alloc: Global,
    limits: &Limits,
    number: u32,
    shards: &mut Vec<Shard<L>>,
) -> Result<(), Refusal>
    requires { vec_len shards.old ≤ number }
    ensures same { all_shards limits.now shards.new.items ≡ all_shards limits.now shards.old.items }
    ensures here { OnOk result (number < vec_len shards.new) }
    ensures refused { IfErr result
        (λ refusal. CannotReach refusal limits.now.shards number number) }
{
    if number >= limits.shards() {
        return Err(Refusal::Config);
    }
    add_shards(alloc, *limits, number + 1, shards)?;
    Ok(())
}

// Makes the shards below this number.
fn add_shards<L: Log>(
    alloc: Global,
    limits: Limits,
    end: u32,
    shards: &mut Vec<Shard<L>>,
) -> Result<(), AllocError>
    requires more { vec_len shards.old ≤ end }
    requires few { end ≤ limits.shards }
    ensures same { all_shards limits shards.new.items ≡ all_shards limits shards.old.items }
    ensures ok { OnOk result (vec_len shards.new ≡ end) }
{
    let made = shards.len();
    shards.reserve_exact(end as usize - made)?;
    for number in made as u32..end {
        shards.push_reserved(new_shard(alloc, limits, number));
    }
    Ok(())
}

// A new shard of a core of these numbers.
fn new_shard<L: Log>(alloc: Global, limits: Limits, number: u32) -> Shard<L>
    requires { number < limits.shards }
    ensures { result ≡ new_shard_of limits number }
{
    let made = Shard::with_slots(
        alloc,
        number,
        limits.page_limit(),
        limits.span_limit(),
        limits.slot_limit(),
        limits.gens(),
    );
    match made {
        Ok(shard) => shard,
        Err(_) => unreachable!(),
    }
}
