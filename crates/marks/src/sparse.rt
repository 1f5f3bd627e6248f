// The groups that a mark of some sees, without an entry of each other group.
ghost use Rattle.std.specs.Prelude.{◌≤◌, IfOk, OnErr, OnOk, map};
ghost use Rattle.std.specs.List.{IsDistinct};
ghost use Rattle.groups.specs.Group.{paged_in, summary};
ghost use Rattle.marks.specs.Seen.{AreDistinct, AreSound, IsSeenInPart, PartMore, owned_entries};
ghost use Rattle.mesh_graph.specs.Groups.{ids};
ghost use Rattle.mesh_graph.specs.declared.build.TheConstants.{MOST_GROUPS};
ghost use Rattle.pool.specs.Sound.{IsSound as IsSoundPool};
ghost use Rattle.pool.specs.Sparse.{AreParted, HaveSparsest};
ghost use Rattle.shard.specs.Sound.{IsSound as IsSoundShard};
ghost use Rattle.span.specs.Ids.{same_span};
ghost use Rattle.span.specs.declared.entry.Entry.{Entry};

use crate::lends_shard::LendsShard;
use crate::marking::{list_owned, snapshot_of};
use crate::own_heads::have_own_heads;
use groups::{LiveTally, sample_step};
use mesh_graph::{Doubled, Entry, MOST_GROUPS, Snapshot};
use pool::{Pool, push_below};
use std::alloc::{AllocError, Global};

/// Of each side the 4,096 groups that have a page and the fewest live slots, or all if there are no
/// more, unless two of a side have one head. Few other groups get an entry.
///
/// # Errors
///
/// `AllocError` if a list could not grow.
pub(crate) fn sparse_snapshot_of<H: LendsShard>(
    alloc: Global,
    pool: &Pool<H::Log>,
    shards: &[H],
) -> Result<Result<Snapshot, Doubled>, AllocError>
    ensures seen { IfOk result
        (λ told. IfOk told (IsSeenInPart pool.now (map H.lent shards.now))) }
    ensures distinct { IfOk result
        (λ told. OnOk told (AreDistinct pool.now (map H.lent shards.now))) }
    ensures doubled { IfOk result
        (λ told. OnErr told (AreDistinct pool.now (map H.lent shards.now) → ⊥)) }
    ensures sound { OnOk result (AreSound (map H.lent shards.now)) }
    ensures sound_pool { OnOk result (IsSoundPool pool.now) }
{
    if !have_own_heads(alloc, shards)? {
        return sparsest_of_all(alloc, pool, shards);
    }
    let snapshot = sparsest_of_few(alloc, pool, shards)?;
    Ok(Ok(snapshot))
}

// Does the same by an entry of each group, and looks whether two of a side have one head.
fn sparsest_of_all<H: LendsShard>(
    alloc: Global,
    pool: &Pool<H::Log>,
    shards: &[H],
) -> Result<Result<Snapshot, Doubled>, AllocError>
    ensures seen { IfOk result
        (λ told. IfOk told (IsSeenInPart pool.now (map H.lent shards.now))) }
    ensures distinct { IfOk result
        (λ told. OnOk told (AreDistinct pool.now (map H.lent shards.now))) }
    ensures doubled { IfOk result
        (λ told. OnErr told (AreDistinct pool.now (map H.lent shards.now) → ⊥)) }
    ensures sound { OnOk result (AreSound (map H.lent shards.now)) }
    ensures sound_pool { OnOk result (IsSoundPool pool.now) }
{
    let Ok(snapshot) = snapshot_of(alloc, pool, shards)? else {
        return Ok(Err(Doubled));
    };
    Ok(Ok(snapshot.sparsest(MOST_GROUPS)))
}

// Does the same by entries of few groups, since no two owned groups have one head.
fn sparsest_of_few<H: LendsShard>(
    alloc: Global,
    pool: &Pool<H::Log>,
    shards: &[H],
) -> Result<Snapshot, AllocError>
    requires { IsDistinct same_span (ids (owned_entries (map H.lent shards.now))) }
    ensures seen { IfOk result (IsSeenInPart pool.now (map H.lent shards.now)) }
    ensures distinct { OnOk result (AreDistinct pool.now (map H.lent shards.now)) }
    ensures sound { OnOk result (AreSound (map H.lent shards.now)) }
    ensures sound_pool { OnOk result (IsSoundPool pool.now) }
{
    let abandoned = pool.sparse_groups(MOST_GROUPS)?;
    let owned = list_sparse(alloc, shards)?;
    let Ok(snapshot) = Snapshot::new(abandoned, owned) else {
        unreachable!();
    };
    Ok(snapshot.sparsest(MOST_GROUPS))
}

// At least 4,096 of the groups of all shards that have a page, or all if there are no more, in no
// order. None has more live slots than one that is left out.
fn list_sparse<H: LendsShard>(alloc: Global, shards: &[H]) -> Result<Vec<Entry>, AllocError>
    ensures sparsest { IfOk result (λ list.
        HaveSparsest MOST_GROUPS (owned_entries (map H.lent shards.now)) list.items) }
    ensures sound { OnOk result (AreSound (map H.lent shards.now)) }
{
    let step = sample_step(group_count(shards));
    let Some(bound) = sample(shards, step).likely_bound(MOST_GROUPS, step) else {
        return list_owned(alloc, shards);
    };
    let list = list_below(alloc, shards, bound)?;
    if list.len() < MOST_GROUPS {
        return list_owned(alloc, shards);
    }
    Ok(list)
}

// How many groups the shards have.
fn group_count<H: LendsShard>(shards: &[H]) -> usize {
    let mut groups: usize = 0;
    for shard in shards {
        groups = groups.saturating_add(shard.shard().len());
    }
    groups
}

// How many of one group of each `step` have so many live slots, of those of every shard that have a
// page.
fn sample<H: LendsShard>(shards: &[H], step: usize) -> LiveTally
    requires { 1 ≤ step }
{
    let mut tally = LiveTally::none();
    for shard in shards {
        count_sample(&mut tally, shard, step);
    }
    tally
}

// Counts those of one shard.
fn count_sample<H: LendsShard>(tally: &mut LiveTally, lender: &H, step: usize)
    requires { 1 ≤ step }
{
    let shard = lender.shard();
    let mut index = 0;
    while index < shard.len() {
        if shard.is_paged(index) {
            tally.count(shard.spans_at(index).live());
        }
        index = index.saturating_add(step);
    }
}

// The groups of all shards that have a page and fewer live slots than the bound. Of those that have
// one fewer it takes none once there are 4,096.
fn list_below<H: LendsShard>(
    alloc: Global,
    shards: &[H],
    bound: usize,
) -> Result<Vec<Entry>, AllocError>
    ensures parted { IfOk result (λ entries.
        AreParted bound (owned_entries (map H.lent shards.now)) entries.items) }
    ensures sound { OnOk result (AreSound (map H.lent shards.now)) }
{
    let mut entries = Vec::new(alloc);
    for shard in shards {
        push_groups_below(&mut entries, shard, bound)?;
    }
    Ok(entries)
}

// Appends those of one shard. A group of which the shard knows that too many slots are live is not
// read.
fn push_groups_below<H: LendsShard>(
    entries: &mut Vec<Entry>,
    lender: &H,
    bound: usize,
) -> Result<(), AllocError>
    ensures parted { IfOk result (λ _. PartMore bound (map summary
        (paged_in (H.lent lender.now).groups)) entries.old.items entries.new.items) }
    ensures sound { IsSoundShard (H.lent lender.now) }
{
    let shard = lender.shard();
    if shard.ended() {
        return Ok(());
    }
    for at in 0..shard.len() {
        if shard.least_live(at) >= bound {
            continue;
        }
        if shard.is_paged(at) {
            push_below(entries, shard.spans_at(at).entry(), bound, MOST_GROUPS)?;
        }
    }
    Ok(())
}
