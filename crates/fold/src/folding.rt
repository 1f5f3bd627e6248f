// A fold of a group of the pool onto a group of a shard.
ghost use Rattle.std.specs.Prelude.{◌≡◌, ◌≢◌, ◌+◌, IfErr, IfOk, OnErr, OnOk, Ok, length};
ghost use Rattle.shard.specs.Shown.{shown as shown_by_shard};
ghost use Rattle.shard.specs.Sound.{IsSound as IsSoundShard};
ghost use Rattle.pool.specs.Shown.{shown, together};
ghost use Rattle.pool.specs.Sound.{IsSound};
ghost use Rattle.pool.specs.State.{paged_groups};
ghost use Rattle.fold.specs.Folds.{Folds, HasSpans, MayFold, Steps};
ghost use Rattle.shard.specs.Closes.{HasPagedHead};
ghost use Rattle.groups.specs.Group.{paged_in};

use crate::step::Step;
use pool::Pool;
use shard::Shard;
use span::names::SpanId;
use span::spans::Log;
use std::alloc::AllocError;

/// Folds the pool's group of head `a` onto the shard's group of head `b`, where that can be, and
/// tells what came of it. By a fold the spans of `a` become the last guests of `b`, their live
/// objects stand at the same slots of the page of `b`, and the page of `a` goes, or is that of `b`
/// where this had none. Each key keeps its object.
///
/// The answer is the first of these that holds, exactly: [`Step::Absent`] where `a` heads no group
/// of the pool, or `b` no group of the shard, or a span of `a`'s group is in the shard already, or
/// one that it may yet open; [`Step::Emptied`] where `a`'s group has no page; [`Step::Clash`] where
/// the groups are of two classes, or a slot is live in both; and else [`Step::Folded`], which alone
/// changes anything.
///
/// # Errors
///
/// `AllocError` where the groups could be folded and memory is refused. Pool and shard are then as
/// they were; each allocation comes before the first change.
pub fn fold_one<L: Log>(
    pool: &mut Pool<L>,
    shard: &mut Shard<L>,
    a: SpanId,
    b: SpanId,
) -> Result<Step, AllocError>
    // What a fold does.
    ensures ok { IfOk result (λ step. Steps pool.old shard.old a b step pool.new shard.new) }
    ensures kept { together (shown pool.new) (shown_by_shard shard.new)
        ≡ together (shown pool.old) (shown_by_shard shard.old) }
    ensures page { result ≡ Ok Step.Folded → length (paged_groups pool.new) + 1
        ≡ length (paged_groups pool.old) }
    ensures shard_pages { result ≡ Ok Step.Folded → HasPagedHead shard.old.groups b
        → length (paged_in shard.new.groups) ≡ length (paged_in shard.old.groups) }
    ensures groups { result ≡ Ok Step.Folded → length shard.new.groups ≡ length shard.old.groups }

    // What a refusal leaves.
    ensures err { OnErr result (pool.new ≡ pool.old) }
    ensures err_shard { OnErr result (shard.new ≡ shard.old) }
    ensures err_may { OnErr result (MayFold pool.old shard.old a b) }

    // Both are sound afterwards.
    ensures sound { IsSound pool.new }
    ensures sound_shard { IsSoundShard shard.new }
{
    let spans = match spans_to_fold(pool, shard, a, b) {
        Ok(spans) => spans,
        Err(step) => return Ok(step),
    };
    carry_out(pool, shard, a, b, spans)?;
    Ok(Step::Folded)
}

// How many spans a fold of the two groups moves, memory aside, or what it comes to where it changes
// nothing.
fn spans_to_fold<L: Log>(
    pool: &Pool<L>,
    shard: &Shard<L>,
    a: SpanId,
    b: SpanId,
) -> Result<usize, Step>
    // The groups may be folded, and that many spans come; or nothing changes.
    ensures may { OnOk result (MayFold pool.now shard.now a b) }
    ensures spans { IfOk result (λ spans. HasSpans pool.now.groups a spans) }
    ensures step { IfErr result (λ step. Steps pool.now shard.now a b step pool.now shard.now) }
    ensures unlike { IfErr result (λ step. step ≢ Step.Folded) }

    // Both are sound.
    ensures sound { IsSound pool.now }
    ensures sound_shard { IsSoundShard shard.now }
{
    let from = pool.brief(a);
    // An ended shard has no group.
    if shard.ended() {
        return Err(Step::Absent);
    }
    let Some(from) = from else {
        return Err(Step::Absent);
    };
    let Some(onto) = shard.brief(b) else {
        return Err(Step::Absent);
    };
    if pool.would_double(shard, a) {
        return Err(Step::Absent);
    }
    if !from.paged {
        return Err(Step::Emptied);
    }
    if onto.class != from.class {
        return Err(Step::Clash);
    }
    if onto.occupied.is_disjoint(&from.occupied) {
        Ok(from.spans)
    } else {
        Err(Step::Clash)
    }
}

// Makes room in the shard, and then moves the group there.
fn carry_out<L: Log>(
    pool: &mut Pool<L>,
    shard: &mut Shard<L>,
    a: SpanId,
    b: SpanId,
    spans: usize,
) -> Result<(), AllocError>
    // The fold may be, and moves that many spans.
    requires may { MayFold pool.old shard.old a b }
    requires spans { HasSpans pool.old.groups a spans }
    requires sound { IsSound pool.old }
    requires sound_shard { IsSoundShard shard.old }

    // What it does, and what a refusal leaves.
    ensures folds { OnOk result (Folds pool.old shard.old a b pool.new shard.new) }
    ensures err { OnErr result (pool.new ≡ pool.old) }
    ensures err_shard { OnErr result (shard.new ≡ shard.old) }
    ensures sound { IsSound pool.new }
    ensures sound_shard { IsSoundShard shard.new }
{
    shard.reserve_for(Some(b), spans)?;
    let Some(whole) = pool.lift(a) else {
        unreachable!();
    };
    shard.graft(b, whole);
    Ok(())
}
