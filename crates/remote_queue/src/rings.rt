// A ring for each worker and shard.
ghost use Rattle.std.specs.Prelude.{◌≡◌, ◌<◌, ◌≤◌, ◌↔◌, [], All, IfOk, IsErrOf, IsTrue, OnOk, map, vec_len};
ghost use Rattle.remote_queue.specs.Rings.{AreFreshInboxes, AreFreshOutboxes, AreLong, AreNewLinks, AreWithinLimits, inbox_rings, with_entry, with_row};
ghost use Rattle.span.specs.declared.limits.TheConstants.{MOST_RING_KEYS};

use crate::ends::{Inbox, Outbox, ring};
use crate::error::LinkError;
use span::names::{MOST_RING_KEYS, MOST_SHARDS};
use std::alloc::{AllocError, Global};

/// The ends of the rings from all workers to all shards.
#[derive(Drop)]
pub struct Links {
    /// The senders' ends: by worker, and then by shard.
    pub outboxes: Vec<Vec<Outbox>>,
    /// The takers' ends: by shard, and then by worker.
    pub inboxes: Vec<Vec<Inbox>>,
}

/// A new ring for each worker and shard, each with room for `capacity` keys: by worker its ends to
/// each shard, and by shard its ends from each worker. The end of a worker to a shard, and that of
/// the shard from the worker, are of one ring.
///
/// # Errors
///
/// `Config` exactly if a number is out of its range, which is 1 to 64 workers, 1 to 64 shards,
/// and 1 to 1,024 keys; `OutOfMemory` only if each is within it.
pub fn link(
    alloc: Global,
    workers: usize,
    shards: usize,
    capacity: usize,
) -> Result<Links, LinkError>
    // The refusals.
    ensures config { IsErrOf result LinkError.Config
        ↔ (AreWithinLimits workers shards capacity → ⊥) }
    ensures memory { IsErrOf result LinkError.OutOfMemory
        → AreWithinLimits workers shards capacity }
    ensures within { OnOk result (AreWithinLimits workers shards capacity) }

    // How many ends there are, which belong together, and that no ring has carried a key yet.
    ensures linked { IfOk result (λ links. AreNewLinks workers shards capacity
        links.outboxes.items links.inboxes.items) }
{
    if !are_within_limits(workers, shards, capacity) {
        return Err(LinkError::Config);
    }
    Ok(link_within(alloc, workers, shards, capacity)?)
}

// Whether each number is within its range.
fn are_within_limits(workers: usize, shards: usize, capacity: usize) -> bool
    ensures { IsTrue result ↔ AreWithinLimits workers shards capacity }
{
    (1..=MOST_SHARDS as usize).contains(&workers)
        && (1..=MOST_SHARDS as usize).contains(&shards)
        && (1..=MOST_RING_KEYS).contains(&capacity)
}

// The rings, for numbers within their ranges.
fn link_within(
    alloc: Global,
    workers: usize,
    shards: usize,
    capacity: usize,
) -> Result<Links, AllocError>
    requires { AreWithinLimits workers shards capacity }
    ensures { IfOk result (λ links. AreNewLinks workers shards capacity links.outboxes.items
        links.inboxes.items) }
{
    let mut inboxes = columns(alloc, shards)?;
    let mut outboxes = Vec::with_capacity(alloc, workers)?;
    for _ in 0..workers {
        let row = add_row(alloc, capacity, &mut inboxes)?;
        outboxes.push_reserved(row);
    }
    Ok(Links { outboxes, inboxes })
}

// That many columns with no end in them.
fn columns(alloc: Global, shards: usize) -> Result<Vec<Vec<Inbox>>, AllocError>
    ensures long { IfOk result (λ columns. AreLong 0 (inbox_rings columns.items)) }
    ensures len { IfOk result (λ columns. vec_len columns ≡ shards) }
    ensures untaken { IfOk result (λ columns. All (λ column. AreFreshInboxes column.items)
        columns.items) }
{
    let mut columns = Vec::with_capacity(alloc, shards)?;
    for _ in 0..shards {
        columns.push_reserved(Vec::new(alloc));
    }
    Ok(columns)
}

// A ring for each column, whose taker's end goes last in the column. It gives the senders' ends.
fn add_row(
    alloc: Global,
    capacity: usize,
    columns: &mut Vec<Vec<Inbox>>,
) -> Result<Vec<Outbox>, AllocError>
    requires capacity { (1 ≤ capacity) × (capacity ≤ MOST_RING_KEYS) }
    requires untaken { All (λ column. AreFreshInboxes column.items) columns.old.items }
    ensures wide { vec_len columns.new ≡ vec_len columns.old }
    ensures untaken { OnOk result (All (λ column. AreFreshInboxes column.items) columns.new.items) }
    ensures len { IfOk result (λ row. vec_len row ≡ vec_len columns.old) }
    ensures rings { IfOk result (λ row. inbox_rings columns.new.items
        ≡ with_row (inbox_rings columns.old.items) (map (λ outbox. outbox.ring) row.items)) }
    ensures unsent { IfOk result (λ row. AreFreshOutboxes capacity row.items) }
{
    let mut row = Vec::with_capacity(alloc, columns.len())?;
    for shard in 0..columns.len() {
        let (outbox, inbox) = ring(alloc, capacity)?;
        row.push_reserved(outbox);
        push_to(columns, shard, inbox)?;
    }
    Ok(row)
}

// Puts a taker's end last in a column.
fn push_to(columns: &mut Vec<Vec<Inbox>>, shard: usize, inbox: Inbox) -> Result<(), AllocError>
    requires place { shard < vec_len columns.old }
    requires untaken_before { All (λ column. AreFreshInboxes column.items) columns.old.items }
    requires untaken { inbox.taken ≡ [] }
    ensures len { vec_len columns.new ≡ vec_len columns.old }
    ensures untaken { OnOk result (All (λ column. AreFreshInboxes column.items) columns.new.items) }
    ensures rings { OnOk result (inbox_rings columns.new.items
        ≡ with_entry (inbox_rings columns.old.items) shard inbox.ring) }
{
    columns[shard].push(inbox)?;
    Ok(())
}
