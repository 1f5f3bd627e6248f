// The groups with the fewest live slots, of which a mark of some takes so many.
ghost use Rattle.std.specs.Prelude.{◌≡◌, ◌≤◌, ◌++◌, ◌∷◌, [], List, IfOk, length, map};
ghost use Rattle.groups.specs.Group.{paged_in, summary};
ghost use Rattle.groups.specs.Least.{IsLeast, KnowsLeast};
ghost use Rattle.pool.specs.Sparse.{AreParted, HaveSparsest};
ghost use Rattle.span.specs.declared.entry.Entry.{Entry};

use crate::pooled::Pooled;
use crate::walks::{summaries, summaries_below};
use groups::{LiveTally, sample_step};
use span::names::Entry;
use span::spans::Log;
use std::alloc::{AllocError, Global};

/// At least `most` of those that have a page, or all if there are no more, in no order. None has
/// more live slots than one that is left out. It guesses how many live slots the sparsest have, and
/// lists those with fewer; if these are too few, it lists all. It reads no group whose byte says
/// that it has too many.
///
/// # Errors
///
/// `AllocError` if the list could not grow.
pub(crate) fn sparse<L: Log>(
    groups: &[Pooled<L>],
    least: &[u8],
    alloc: Global,
    most: usize,
) -> Result<Vec<Entry>, AllocError>
    requires known { KnowsLeast IsLeast groups.now least.now }
    requires bytes { length least.now ≡ length groups.now }
    ensures { IfOk result (λ list.
        HaveSparsest most (map summary (paged_in groups.now)) list.items) }
{
    let step = sample_step(groups.len());
    let Some(bound) = sample(groups, step).likely_bound(most, step) else {
        return summaries(groups, alloc);
    };
    let list = summaries_below(groups, least, alloc, bound, most)?;
    if list.len() < most {
        return summaries(groups, alloc);
    }
    Ok(list)
}

// How many of one group of each `step` have so many live slots, of those that have a page.
fn sample<L: Log>(groups: &[Pooled<L>], step: usize) -> LiveTally
    requires { 1 ≤ step }
{
    let mut tally = LiveTally::none();
    let mut index = 0;
    while index < groups.len() {
        let group = &groups[index];
        if group.is_paged() {
            tally.count(group.live());
        }
        index = index.saturating_add(step);
    }
    tally
}

/// Appends the entry if fewer slots of the group are live than the bound. One that has a slot fewer
/// is left out if the list has `most` entries already, since any of those will do.
#[inline(always)]
pub fn push_below(
    list: &mut Vec<Entry>,
    entry: Entry,
    bound: usize,
    most: usize,
) -> Result<(), AllocError>
    ensures { IfOk result (λ _. (entries : List Entry) → AreParted bound entries list.old.items
        → AreParted bound (entries ++ entry ∷ []) list.new.items) }
{
    let live = entry.occupied.count() as usize;
    if live >= bound {
        return Ok(());
    }
    if list.len() >= most {
        let next = live + 1;
        if next >= bound {
            return Ok(());
        }
    }
    list.push(entry)?;
    Ok(())
}
