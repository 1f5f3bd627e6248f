// What is counted and told of groups, one after another.
ghost use Rattle.std.specs.Prelude.{◌≡◌, ◌≤◌, ◌+◌, ◌++◌, ◌*◌, IfOk, length, map};
ghost use Rattle.span.specs.SpanLogs.{AreLegal, room_for_logs, span_of_log};
ghost use Rattle.span.specs.Ids.{rank};
ghost use Rattle.groups.specs.FirstLive.{IsFirstAmong};
ghost use Rattle.groups.specs.Group.{live_in, paged_in, spans_in, summary};
ghost use Rattle.groups.specs.Spans.{live_count};
ghost use Rattle.groups.specs.Least.{IsLeast, KnowsLeast};
ghost use Rattle.pool.specs.Sparse.{AreParted};
ghost use Rattle.shard.specs.Spaced.{spaced};
ghost use Rattle.span.specs.declared.limits.TheConstants.{ALL_IDS};
ghost use Rattle.bitmap.specs.declared.bits.TheConstants.{SLOTS};

use crate::pooled::Pooled;
use crate::sparse::push_below;
use groups::{earlier, least_of};
use shard::Sample;
use span::names::{Entry, Key, SpanId};
use span::spans::{Kept, Log, SpanLog};
use std::alloc::{AllocError, Global};

/// How many of them have a page.
pub(crate) fn pages<L: Log>(groups: &[Pooled<L>]) -> usize
    ensures { result ≡ length (paged_in groups.now) }
{
    let mut pages = 0;
    for group in groups {
        if group.is_paged() {
            pages += 1;
        }
    }
    pages
}

/// How many keys are live in those that have a page.
pub(crate) fn live<L: Log>(groups: &[Pooled<L>]) -> usize
    requires { length groups.now ≤ ALL_IDS }
    ensures live { result ≡ live_count (spans_in (paged_in groups.now)) }
    ensures at_most { result ≤ SLOTS * length groups.now }
{
    let mut live = 0;
    for group in groups {
        if group.is_paged() {
            live += group.live();
        }
    }
    live
}

/// How many of the first and of one after each `gap` others have a page, and how many keys are live
/// in these.
pub(crate) fn sample<L: Log>(groups: &[Pooled<L>], gap: u32) -> Sample
    requires { length groups.now ≤ ALL_IDS }
    ensures pages { result.pages ≡ length (paged_in (spaced gap groups.now)) }
    ensures live { result.live ≡ live_in (paged_in (spaced gap groups.now)) }
    ensures few { result.pages ≤ length groups.now }
    ensures few_live { result.live ≤ SLOTS * length groups.now }
{
    let step = gap as usize + 1;
    let mut pages = 0;
    let mut live = 0;
    let mut index = 0;
    while index < groups.len() {
        let group = &groups[index];
        if group.is_paged() {
            pages += 1;
            live += group.live();
        }
        index += step;
    }
    Sample { pages, live }
}

/// How many spans they have, heads and guests.
pub(crate) fn span_count<L: Log>(groups: &[Pooled<L>]) -> usize
    requires { length (spans_in groups.now) ≤ ALL_IDS }
    ensures { result ≡ length (spans_in groups.now) }
{
    let mut count = 0;
    for group in groups {
        count += group.len();
    }
    count
}

/// Each that has a page: its head, its class and the slots that are live in one of its spans.
///
/// # Errors
///
/// `AllocError` where the list could not grow.
pub(crate) fn summaries<L: Log>(
    groups: &[Pooled<L>],
    alloc: Global,
) -> Result<Vec<Entry>, AllocError>
    ensures { IfOk result (λ list. list.items ≡ map summary (paged_in groups.now)) }
{
    let mut list = Vec::new(alloc);
    for group in groups {
        if group.is_paged() {
            list.push(group.entry())?;
        }
    }
    Ok(list)
}

/// Those that have a page and fewer live slots than the bound, told as by [`summaries`]. Of those
/// that have one fewer it takes none once there are `most`. A group whose byte says that it has too
/// many live slots is not read.
///
/// # Errors
///
/// `AllocError` if the list could not grow.
pub(crate) fn summaries_below<L: Log>(
    groups: &[Pooled<L>],
    least: &[u8],
    alloc: Global,
    bound: usize,
    most: usize,
) -> Result<Vec<Entry>, AllocError>
    requires known { KnowsLeast IsLeast groups.now least.now }
    requires bytes { length least.now ≡ length groups.now }
    ensures { IfOk result (λ list.
        AreParted bound (map summary (paged_in groups.now)) list.items) }
{
    let mut list = Vec::new(alloc);
    for index in 0..groups.len() {
        if least_of(least[index]) >= bound {
            continue;
        }
        let group = &groups[index];
        if group.is_paged() {
            push_below(&mut list, group.entry(), bound, most)?;
        }
    }
    Ok(list)
}

/// The first live key of their spans from this id on, by ids and then by slots.
pub(crate) fn first_live<L: Log>(groups: &[Pooled<L>], from: SpanId) -> Option<Key>
    ensures { IsFirstAmong (spans_in groups.now) (rank from) result }
{
    let mut first = None;
    for group in groups {
        first = earlier(first, group.spans().first_live(from));
    }
    first
}

/// Moves the log of each of their spans to the end of a list with room for them.
pub(crate) fn into_logs(groups: Vec<Pooled<Kept>>, logs: &mut Vec<SpanLog>)
    requires { length (spans_in groups.items) ≤ room_for_logs logs.old }
    ensures logs { map span_of_log logs.new.items ≡ map span_of_log logs.old.items
        ++ spans_in groups.items }
    ensures legal { AreLegal logs.old.items → AreLegal logs.new.items }
    ensures room { room_for_logs logs.old ≡ room_for_logs logs.new + length
        (spans_in groups.items) }
{
    for group in groups {
        group.into_spans().into_logs(logs);
    }
}
