// What a mark sees, and the largest plan of it.
ghost use Rattle.std.specs.Prelude.{◌≡◌, ◌↔◌, ◌-◌, ◌^◌, ◌≤◌, ◌++◌, IfOk, IsTrue, OnErr, OnOk, length, map, min};
ghost use Rattle.std.specs.List.{All};
ghost use Rattle.shard.specs.Sound.{IsSound as IsSoundShard};
ghost use Rattle.groups.specs.Group.{paged_in, summary};
ghost use Rattle.pool.specs.Sound.{IsSound as IsSoundPool};
ghost use Rattle.certificate.specs.Plans.{IsBestPlanOf, IsCertificateOf, IsShortOf};
ghost use Rattle.certificate.specs.Text.{FitsClass};
ghost use Rattle.marks.specs.Opening.{Marks};
ghost use Rattle.marks.specs.Seen.{AreDistinct, AreSound, AreTooMany, IsSeen, IsShown, IsTooMany, owned_entries, pages_of};
ghost use Rattle.mesh_graph.specs.Groups.{IsAscending};
ghost use Rattle.mesh_graph.specs.declared.build.TheConstants.{MOST_GROUPS};

use crate::closing::close_planned;
use crate::error::MarkError;
use crate::lends_shard::LendsShard;
use crate::sight::Sight;
use crate::sparse::sparse_snapshot_of;
use augment::plan;
use certificate::{Certificate, Plan, Short};
use mesh_graph::{BuildError, Doubled, Entry, Graph, MOST_GROUPS, Runner, Snapshot};
use pool::Pool;
use std::alloc::{AllocError, Global};

/// A mark of the pool and the shards that are lent: it takes a snapshot of what is in sight
/// ([`Sight`]), makes a plan of as many folds as can be, tells the pool that a plan is open, and
/// closes the groups onto which the plan folds, so that they take no put. It gives the snapshot,
/// the plan and the short set that shows the plan best. After a mark of the sparsest groups, more
/// can be folded by a further one. A runner that goes by pieces fills the rows of its graph in as
/// many as there are shards, and in one if there is none; what the mark gives does not depend on
/// it.
///
/// # Errors
///
/// The first of these that holds: `PlanOpen` if a plan is open; `TooMany` if all is in sight and a
/// side has more than 4,096 groups with a page; `Doubled` if two groups of a side that have a page
/// have the same head, which takes memory to tell. `OutOfMemory` if an allocation was refused and
/// neither of the first two holds. All allocations stand before the first change.
pub fn mark_in<R: Runner, H: LendsShard>(
    runner: &R,
    alloc: Global,
    sight: Sight,
    pool: &mut Pool<H::Log>,
    shards: &mut [H],
) -> Result<Certificate, MarkError>
    requires ready { R.ready runner.now }
    // A largest plan is open, with what shows it; or why there is none, and nothing has changed.
    ensures exact { Marks sight pool.old (map H.lent shards.old) result pool.new
        (map H.lent shards.new) }
    ensures err_shards { OnErr result (shards.new ≡ shards.old) }
    // All is sound, before and after.
    ensures sound { OnOk result (AreSound (map H.lent shards.old)) }
    ensures sound_new { OnOk result (AreSound (map H.lent shards.new)) }
    ensures sound_pool { OnOk result (IsSoundPool pool.new) }
{
    if pool.has_plan() {
        return Err(MarkError::PlanOpen);
    }
    if is_too_many(sight, pool, shards) {
        return Err(MarkError::TooMany);
    }
    let Ok(snapshot) = sparse_snapshot_of(alloc, pool, shards)? else {
        return Err(MarkError::Doubled);
    };
    let pieces = shards.len().max(1);
    let found = largest_plan(runner, alloc, snapshot, pieces)?;
    close_planned(shards, found.plan.pairs());
    pool.plan_opened();
    Ok(found)
}

// Whether more groups are in sight than a plan may have. It takes no memory.
fn is_too_many<H: LendsShard>(sight: Sight, pool: &Pool<H::Log>, shards: &[H]) -> bool
    ensures { IsTrue result ↔ IsTooMany sight pool.now (map H.lent shards.now) }
{
    match sight {
        Sight::All => has_too_many(pool, shards),
        Sight::Sparsest => false,
    }
}

/// Whether a side has more than 4,096 groups that have a page: the pool, or all shards together. It
/// takes no memory.
pub fn has_too_many<H: LendsShard>(pool: &Pool<H::Log>, shards: &[H]) -> bool
    ensures { IsTrue result ↔ AreTooMany pool.now (map H.lent shards.now) }
{
    pool.pages() > MOST_GROUPS || owned_pages(shards) > MOST_GROUPS
}

// A plan with the most pairs, with what it is of and what shows it.
fn largest_plan<R: Runner>(
    runner: &R,
    alloc: Global,
    snapshot: Snapshot,
    pieces: usize,
) -> Result<Certificate, AllocError>
    // The snapshot is not too large, and no group has a slot that its class lacks.
    requires abandoned { length snapshot.abandoned ≤ MOST_GROUPS }
    requires owned { length snapshot.owned ≤ MOST_GROUPS }
    requires abandoned_fit { All FitsClass snapshot.abandoned }
    requires owned_fit { All FitsClass snapshot.owned }
    requires pieces { 1 ≤ pieces }
    requires ready { R.ready runner.now }

    // Its largest plan, with what shows it.
    ensures snapshot { IfOk result (λ found. found.snapshot ≡ snapshot) }
    ensures shown { IfOk result IsShown }
{
    let (plan, short) = plan_of(runner, alloc, &snapshot, pieces)?;
    Ok(Certificate {
        snapshot,
        plan,
        short,
    })
}

// Every group of the pool and of every shard that has a page, unless two of a side have one head.
pub(crate) fn snapshot_of<H: LendsShard>(
    alloc: Global,
    pool: &Pool<H::Log>,
    shards: &[H],
) -> Result<Result<Snapshot, Doubled>, AllocError>
    ensures seen { IfOk result (λ told. IfOk told (IsSeen pool.now (map H.lent shards.now))) }
    ensures distinct { IfOk result
        (λ told. OnOk told (AreDistinct pool.now (map H.lent shards.now))) }
    ensures doubled { IfOk result
        (λ told. OnErr told (AreDistinct pool.now (map H.lent shards.now) → ⊥)) }
    ensures sound { OnOk result (AreSound (map H.lent shards.now)) }
    ensures sound_pool { OnOk result (IsSoundPool pool.now) }
{
    let abandoned = pool.groups()?;
    let owned = list_owned(alloc, shards)?;
    Ok(Snapshot::new(abandoned, owned))
}

// The largest plan of a snapshot that has few groups, and its short set.
fn plan_of<R: Runner>(
    runner: &R,
    alloc: Global,
    snapshot: &Snapshot,
    pieces: usize,
) -> Result<(Plan, Short), AllocError>
    requires abandoned { length snapshot.now.abandoned ≤ MOST_GROUPS }
    requires owned { length snapshot.now.owned ≤ MOST_GROUPS }
    requires pieces { 1 ≤ pieces }
    requires ready { R.ready runner.now }
    ensures best { IfOk result (λ found. IsBestPlanOf snapshot.now found.0) }
    ensures short { IfOk result (λ found. IsShortOf snapshot.now found.0 found.1) }
    ensures certificate { IfOk result (λ found. IsCertificateOf snapshot.now found.0 found.1) }
    ensures ascending { IfOk result (λ found. IsAscending (map (λ p. p.0) found.0)) }
    ensures short_ascending { IfOk result (λ found. IsAscending found.1) }
{
    match Graph::build(runner, alloc, snapshot, pieces) {
        Ok(graph) => plan(alloc, &graph),
        Err(BuildError::OutOfMemory) => Err(AllocError),
        Err(BuildError::TooMany) => unreachable!(),
    }
}

/// The groups of all shards that have a page, each with its occupied set.
pub(crate) fn list_owned<H: LendsShard>(
    alloc: Global,
    shards: &[H],
) -> Result<Vec<Entry>, AllocError>
    ensures items { IfOk result (λ entries. entries.items ≡ owned_entries (map H.lent shards.now)) }
    ensures sound { OnOk result (AreSound (map H.lent shards.now)) }
{
    let mut entries = Vec::with_capacity(alloc, owned_pages(shards))?;
    for shard in shards {
        push_groups(&mut entries, shard)?;
    }
    Ok(entries)
}

// Appends the groups of the shard that have a page, where it has not ended. One that has ended has
// none.
fn push_groups<H: LendsShard>(entries: &mut Vec<Entry>, lender: &H) -> Result<(), AllocError>
    ensures items { IfOk result (λ _. entries.new.items ≡ entries.old.items ++ map summary
        (paged_in (H.lent lender.now).groups)) }
    ensures sound { IsSoundShard (H.lent lender.now) }
{
    let shard = lender.shard();
    if shard.ended() {
        return Ok(());
    }
    for index in 0..shard.len() {
        if shard.is_paged(index) {
            entries.push(shard.spans_at(index).entry())?;
        }
    }
    Ok(())
}

// How many pages the shards have, or the greatest number where there are more.
fn owned_pages<H: LendsShard>(shards: &[H]) -> usize
    ensures { result ≡ min (pages_of (map H.lent shards.now)) (2 ^ 64 - 1) }
{
    let mut pages: usize = 0;
    for shard in shards {
        pages = pages.saturating_add(shard.shard().pages());
    }
    pages
}
