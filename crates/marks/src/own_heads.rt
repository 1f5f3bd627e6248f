// Whether the groups of all shards have heads of their own.
ghost use Rattle.std.specs.Prelude.{◌≡◌, ◌++◌, ◌≤◌, IfOk, IfSome, IsTrue, map};
ghost use Rattle.std.specs.List.{IsDistinct};
ghost use Rattle.std.specs.List.Sorted.{IsStrictlyIncreasing};
ghost use Rattle.groups.specs.Group.{paged_in, summary};
ghost use Rattle.marks.specs.Apart.{AreWithin};
ghost use Rattle.marks.specs.Seen.{owned_entries};
ghost use Rattle.mesh_graph.specs.Groups.{ids};
ghost use Rattle.shard.specs.Sound.{IsSound as IsSoundShard};
ghost use Rattle.span.specs.Ids.{rank, same_span};

use crate::lends_shard::LendsShard;
use std::alloc::{AllocError, Global};

/// Whether no two groups of the shards that have a page have one head. If the heads of each shard
/// come after those of the shards before it, one look at each shard says so. Else the ranks of all
/// heads are listed and sorted.
///
/// # Errors
///
/// `AllocError` if the list could not grow.
pub(crate) fn have_own_heads<H: LendsShard>(alloc: Global, shards: &[H]) -> Result<bool, AllocError>
    ensures { IfOk result (λ own. IsTrue own
        → IsDistinct same_span (ids (owned_entries (map H.lent shards.now)))) }
{
    if are_apart(shards) {
        return Ok(true);
    }
    let mut ranks = list_ranks(alloc, shards)?;
    ranks.sort_unstable();
    Ok(rise(ranks.as_slice()))
}

// Whether the heads of each shard come after those of the shards before it.
fn are_apart<H: LendsShard>(shards: &[H]) -> bool
    ensures { IsTrue result
        → IsDistinct same_span (ids (owned_entries (map H.lent shards.now))) }
{
    let mut next: u64 = 0;
    for shard in shards {
        let Some(past) = past_heads(shard, next) else {
            return false;
        };
        next = past;
    }
    true
}

// The number past the ranks of the shard's heads, if none of these is below the next.
fn past_heads<H: LendsShard>(lender: &H, next: u64) -> Option<u64>
    ensures within { IfSome result
        (λ past. AreWithin next past (map summary (paged_in (H.lent lender.now).groups))) }
    ensures up { IfSome result (λ past. next ≤ past) }
    ensures sound { IsSoundShard (H.lent lender.now) }
{
    let shard = lender.shard();
    if shard.ended() {
        return Some(next);
    }
    let count = shard.len();
    if count == 0 {
        return Some(next);
    }
    let first = shard.spans_at(0).head_id().rank();
    if first < next {
        return None;
    }
    let last = shard.spans_at(count - 1).head_id().rank();
    Some(last + 1)
}

// The ranks of the heads of all groups that have a page.
fn list_ranks<H: LendsShard>(alloc: Global, shards: &[H]) -> Result<Vec<u64>, AllocError>
    ensures { IfOk result (λ ranks.
        ranks.items ≡ map rank (ids (owned_entries (map H.lent shards.now)))) }
{
    let mut ranks = Vec::new(alloc);
    for shard in shards {
        push_ranks(&mut ranks, shard)?;
    }
    Ok(ranks)
}

// Appends those of one shard.
fn push_ranks<H: LendsShard>(ranks: &mut Vec<u64>, lender: &H) -> Result<(), AllocError>
    ensures { IfOk result (λ _. ranks.new.items ≡ ranks.old.items
        ++ map rank (ids (map summary (paged_in (H.lent lender.now).groups)))) }
{
    let shard = lender.shard();
    for at in 0..shard.len() {
        if shard.is_paged(at) {
            ranks.push(shard.spans_at(at).head_id().rank())?;
        }
    }
    Ok(())
}

// Whether each number is below the next.
fn rise(ranks: &[u64]) -> bool
    ensures { IsTrue result → IsStrictlyIncreasing ranks.now }
{
    for k in 1..ranks.len() {
        if ranks[k - 1] >= ranks[k] {
            return false;
        }
    }
    true
}
