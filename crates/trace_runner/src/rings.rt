//! Frees the keys that wait on rings.

ghost use Rattle.std.specs.Prelude.{◌≡◌, ◌+◌, ◌<◌, ◌≤◌, ◌∷◌, [], Bool, IfOk, OnOk};
ghost use Rattle.arena_core.specs.declared.event.Event.TheVariants as event;
ghost use Rattle.trace_runner.specs.Made.{Tends, UntilNone, requests_of};
ghost use Rattle.trace_runner.specs.News.{News};
ghost use Rattle.trace_runner.specs.Recalls.{Carries, Drains, KeepsPlan, SettlesNext};
ghost use Rattle.trace_runner.specs.Runs.{rings_asked};

use arena_core::{Core, Event, Reply};
use span::spans::Counted;
use std::alloc::AllocError;

/// The sum. More keys than a number counts find no memory.
fn sum(count: usize, more: usize) -> Result<usize, AllocError>
    ensures { IfOk result (λ sum. sum ≡ count + more) }
{
    count.checked_add(more).ok_or(AllocError)
}

/// Frees the key that has waited longest on the ring from the worker to the shard, and says whether
/// one waited.
fn settle_next(core: &mut Core<Counted>, worker: u32, shard: u32) -> bool
    requires worker { worker < core.old.limits.shards }
    requires shard { shard < core.old.limits.shards }
    ensures settled { SettlesNext worker shard core.old result core.new }
    ensures shards { KeepsPlan core.old core.new }
{
    match core.step(Event::Settle { worker, shard }) {
        Reply::Settled(Some(_)) => true,
        Reply::Settled(None) => false,
        _ => unreachable!(),
    }
}

/// Frees the keys that wait on the ring from the worker to the shard, and says how many there were.
fn drain(core: &mut Core<Counted>, worker: u32, shard: u32) -> Result<usize, AllocError>
    requires worker { worker < core.old.limits.shards }
    requires shard { shard < core.old.limits.shards }
    ensures drained { IfOk result (Drains (UntilNone (event.Settle worker shard) ∷ []) core.old
        core.new) }
    ensures shards { KeepsPlan core.old core.new }
{
    let mut count = 0usize;
    while settle_next(core, worker, shard) {
        count = sum(count, 1)?;
    }
    Ok(count)
}

/// Frees the keys that wait on the rings from that many workers to the shard, by worker, and says
/// how many there were.
pub(crate) fn settle_shard(
    core: &mut Core<Counted>,
    workers: u32,
    shard: u32,
) -> Result<usize, AllocError>
    requires workers { workers ≤ core.old.limits.shards }
    requires shard { shard < core.old.limits.shards }
    ensures tended { IfOk result (Drains (requests_of (Tends workers shard)) core.old core.new) }
    ensures shards { KeepsPlan core.old core.new }
{
    let mut count = 0usize;
    for worker in 0..workers {
        let drained = drain(core, worker, shard)?;
        count = sum(count, drained)?;
    }
    Ok(count)
}

/// Frees the keys that wait on all rings, by shard, then by worker.
pub(crate) fn settle_rings(core: &mut Core<Counted>, shards: u32) -> Result<(), AllocError>
    requires shards { shards ≤ core.old.limits.shards }
    ensures made { (news : News) → OnOk result (Carries
        (rings_asked shards) core.old news core.new news) }
    ensures shards { KeepsPlan core.old core.new }
{
    for shard in 0..shards {
        settle_shard(core, shards, shard)?;
    }
    Ok(())
}
