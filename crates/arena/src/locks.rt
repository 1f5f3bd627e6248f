// The locks of all shards at one time. They are taken ascending, before the first shard is looked
// at or changed, so all that is done under them stands at one time. An array keeps the guards, so
// that they take no memory. Each guard names the latch that lends it.
ghost use Rattle.std.specs.Prelude.{◌≡◌, ◌≤◌, IfOk, Some, length, map, option_map};
ghost use Rattle.marks.specs.Closings.{reopened};
ghost use Rattle.arena.specs.Amounts.{at_most_word};
ghost use Rattle.arena.specs.LentForgets.{all_without_dead, dead_count, dead_of_all, without_dead_guests};
ghost use Rattle.arena.specs.Locked.{latches_of, lent_by, shard_lent};
ghost use Rattle.span.specs.declared.limits.TheConstants.{MOST_SHARDS};

use crate::patience::Patience;
use arrayvec::ArrayVec;
use latch::{Latch, LatchGuard};
use marks::LendsShard;
use shard::Shard;
use span::names::{MOST_SHARDS, SpanId};
use span::spans::{Counted, Log};

// As a length.
const MOST_LOCKED: usize = MOST_SHARDS as usize;

/// A shard under its lock, as a mark takes it.
#[derive(Drop)]
pub(crate) struct LockedShard<'a, L: Log> {
    pub(crate) guard: LatchGuard<'a, Shard<L>>,
}

impl<'a, L: Log> LockedShard<'a, L> {
    pub(crate) fn new(guard: LatchGuard<'a, Shard<L>>) -> LockedShard<'a, L>
        ensures { result.guard.latch.now ≡ guard.entry.latch.now }
    {
        LockedShard { guard }
    }
}

impl<'a, L: Log> LendsShard for LockedShard<'a, L> {
    type Log = L;

    ghost lent = { λ locked. locked.guard.value.value };

    #[inline]
    fn shard(&self) -> &Shard<L> {
        &*self.guard.value
    }

    #[inline]
    fn close(&mut self, head: SpanId) -> bool {
        let guard = &mut self.guard;
        guard.value.close(head)
    }
}

/// The shards of an arena under their locks, by their numbers.
pub(crate) type LockedShards<'a, L> = ArrayVec<Option<LockedShard<'a, L>>, MOST_LOCKED>;

/// Takes the locks of all shards.
pub(crate) fn lock_all<'a, L: Log, P: Patience>(
    patience: &P,
    shards: &'a [Latch<Shard<L>>],
) -> Result<LockedShards<'a, L>, P::Busy>
    requires few { length shards.now ≤ MOST_SHARDS }
    ensures lent { IfOk result (λ locked. latches_of locked.items ≡ map Some shards.now) }
{
    let mut locked = ArrayVec::new();
    for shard in shards {
        locked.push(Some(LockedShard::new(patience.lock(shard)?)));
    }
    Ok(locked)
}

/// Opens all groups of the shards.
pub(crate) fn reopen_all<L: Log>(shards: &mut [Option<LockedShard<'_, L>>])
    ensures { lent_by shards.new ≡ map (option_map reopened) (lent_by shards.old) }
{
    for shard in shards.iter_mut() {
        reopen_one(shard);
    }
}

// Opens all groups of the shard, if there is one.
fn reopen_one<L: Log>(shard: &mut Option<LockedShard<'_, L>>)
    ensures { shard_lent shard.new ≡ option_map reopened (shard_lent shard.old) }
{
    if let Some(shard) = shard {
        let guard = &mut shard.guard;
        guard.value.reopen();
    }
}

/// Has the shards forget each guest in which no slot is live. It gives how many went.
pub(crate) fn forget_all(shards: &mut [Option<LockedShard<'_, Counted>>]) -> usize
    ensures shards { lent_by shards.new ≡ all_without_dead (lent_by shards.old) }
    ensures count { result ≡ at_most_word (dead_of_all (lent_by shards.old)) }
{
    let mut forgotten = 0usize;
    for shard in shards.iter_mut() {
        forgotten = forgotten.saturating_add(forget_one(shard));
    }
    forgotten
}

// The same of the shard, if there is one.
fn forget_one(shard: &mut Option<LockedShard<'_, Counted>>) -> usize
    ensures shard { shard_lent shard.new
        ≡ option_map without_dead_guests (shard_lent shard.old) }
    ensures count { result ≡ dead_count (shard_lent shard.old) }
{
    match shard {
        Some(shard) => {
            let guard = &mut shard.guard;
            guard.value.forget()
        }
        None => 0,
    }
}
