// The groups with a live key, those with the fewest first.
ghost use Rattle.std.specs.Prelude.{◌≡◌, ◌-◌, ◌<◌, ◌≤◌, IfOk, List, OnOk, length, map, take, vec_len};
ghost use Rattle.std.specs.List.{filter};
ghost use Rattle.std.specs.List.Sorted.{IsPermutation};
ghost use Rattle.bitmap.specs.declared.bits.TheConstants.{SLOTS};
ghost use Rattle.span.specs.Ids.{rank};
ghost use Rattle.groups.specs.Group.{Ascend};
ghost use Rattle.groups.specs.Sound.{AreSoundGroups};
ghost use Rattle.shard.specs.Least.{KnowsLeast};
ghost use Rattle.shard.specs.Sparse.{AreSparsestFirst, told_of};
ghost use Rattle.shard.specs.Telling.{AreFirst, AreInOrder, AreSelected, is_live, with_told};
ghost use Rattle.shard.specs.declared.shard.retiring.LiveGroup.{LiveGroup};

use super::Shard;
use crate::group::Group;
use crate::group_row::GroupRow;
use crate::least_live::note_byte;
use bitmap::SLOTS;
use groups::{LiveTally, least_of, next_below, sample_step};
use span::names::SpanId;
use span::spans::Log;
use std::alloc::{AllocError, Global};

/// What a shard tells of a group in which a key is live.
#[derive(Clone, Copy)]
pub struct LiveGroup {
    /// The id of its head.
    pub head: SpanId,
    /// How many of its slots are live.
    pub live: usize,
    /// How many spans it has, its head and its guests.
    pub spans: usize,
}

impl<L: Log> Shard<L> {
    /// Up to so many groups with a live key: those with the fewest first, and of those with as many
    /// the one of lowest head. If few are asked for, it reads no group of which
    /// [`Shard::least_live`] says that it has more, and notes of each other how many it has.
    ///
    /// # Errors
    ///
    /// `AllocError` where the list could not grow.
    pub fn sparsest(&mut self, most: usize) -> Result<Vec<LiveGroup>, AllocError>
        ensures told { IfOk result (λ told. (all : List LiveGroup)
            × AreSparsestFirst self.old.groups all × (told.items ≡ take most all)) }
        ensures same { self.new ≡ self.old }
    {
        let mut first = first_of_groups(self.alloc, &self.groups, &mut self.least, most)?;
        sort(&mut first);
        Ok(first)
    }
}

// Those that come first in order of the groups with a live key, as many as that, in no order. It
// guesses from a sample how many live keys these have at most, and tells no other group. If they
// turn out to be too few, it guesses again, since bytes that said too little have been noted anew,
// and then tells all.
fn first_of_groups<L: Log>(
    alloc: Global,
    groups: &GroupRow<L>,
    least: &mut Vec<u8>,
    most: usize,
) -> Result<Vec<LiveGroup>, AllocError>
    requires ascend { Ascend groups.now.items }
    requires sound { AreSoundGroups groups.now.items }
    requires bytes { length groups.now.items ≤ vec_len least.old }
    requires known { KnowsLeast groups.now.items least.old.items }
    ensures first { IfOk result (λ first.
        AreSelected most (filter is_live (map told_of groups.now.items)) first.items) }
    ensures known { KnowsLeast groups.now.items least.new.items }
    ensures len { vec_len least.new ≡ vec_len least.old }
{
    for _ in 0..GUESSES {
        let Some(bound) = likely_bound(groups, least, most) else {
            return first_of_all(alloc, groups, most);
        };
        let told = tell_below(alloc, groups, least, bound, most)?;
        if told.len() >= most {
            return first_of(alloc, told, most);
        }
    }
    first_of_all(alloc, groups, most)
}

// How often it guesses.
const GUESSES: usize = 3;

// The same, by telling each group.
fn first_of_all<L: Log>(
    alloc: Global,
    groups: &GroupRow<L>,
    most: usize,
) -> Result<Vec<LiveGroup>, AllocError>
    ensures { IfOk result (λ first.
        AreSelected most (filter is_live (map told_of groups.now.items)) first.items) }
{
    let mut told = tell(alloc, groups)?;
    keep_live(&mut told);
    first_of(alloc, told, most)
}

// How many live keys may be too many for the first groups, as many as that, by a sample.
fn likely_bound<L: Log>(groups: &GroupRow<L>, least: &Vec<u8>, most: usize) -> Option<usize>
    requires { length groups.now.items ≤ vec_len least.now }
{
    let step = sample_step(groups.len());
    sample(groups, least, step).likely_bound(most, step)
}

// How many of one group of each `step` have so many live keys, of those that have any.
fn sample<L: Log>(groups: &GroupRow<L>, least: &Vec<u8>, step: usize) -> LiveTally
    requires step { 1 ≤ step }
    requires bytes { length groups.now.items ≤ vec_len least.now }
{
    let mut tally = LiveTally::none();
    let mut index = 0;
    while index < groups.len() {
        let live = likely_live(groups, least, index);
        if live > 0 {
            tally.count(live);
        }
        index = index.saturating_add(step);
    }
    tally
}

// How many live keys the group has by its byte. It reads no group of which one is noted.
fn likely_live<L: Log>(groups: &GroupRow<L>, least: &Vec<u8>, index: usize) -> usize
    requires index { index < length groups.now.items }
    requires bytes { length groups.now.items ≤ vec_len least.now }
    ensures { result ≤ SLOTS }
{
    let byte = least[index];
    if byte > 0 {
        return least_of(byte).min(SLOTS);
    }
    groups[index].live()
}

// What is told of the first groups in order with a live key, by ascending head: of each that has
// fewer than the bound. Once it tells of `most`, those that have one fewer come after these. Those
// whose bytes say that they have too many are not looked at. Of the others it notes how many they
// have, so that these are passed by another time.
fn tell_below<L: Log>(
    alloc: Global,
    groups: &GroupRow<L>,
    least: &mut Vec<u8>,
    bound: usize,
    most: usize,
) -> Result<Vec<LiveGroup>, AllocError>
    requires ascend { Ascend groups.now.items }
    requires sound { AreSoundGroups groups.now.items }
    requires bytes { length groups.now.items ≤ vec_len least.old }
    requires known { KnowsLeast groups.now.items least.old.items }
    ensures told { IfOk result (λ told.
        AreFirst (filter is_live (map told_of groups.now.items)) told.items) }
    ensures known { KnowsLeast groups.now.items least.new.items }
    ensures len { vec_len least.new ≡ vec_len least.old }
{
    let count = groups.len();
    let mut told = Vec::new(alloc);
    let mut index = 0;
    while index < count {
        let limit = limit_of(bound, most, told.len());
        index = next_below(least.as_slice(), index, count, limit);
        if index < count {
            let group = &groups[index];
            note_byte(least, index, group);
            tell_below_limit(&mut told, group, limit)?;
            index += 1;
        }
    }
    Ok(told)
}

// Tells of the group if a key is live in it, and fewer than the limit are.
fn tell_below_limit<L: Log>(
    told: &mut Vec<LiveGroup>,
    group: &Group<L>,
    limit: usize,
) -> Result<(), AllocError>
    ensures { OnOk result (told.new.items ≡ with_told told.old.items limit (told_of group.now)) }
{
    let live = group.live();
    if live > 0 && live < limit {
        told.push(told_of(group))?;
    }
    Ok(())
}

// How many live keys are too many for a group to be told of, after so many.
fn limit_of(bound: usize, most: usize, told: usize) -> usize
    ensures few { told < most → result ≡ bound }
    ensures many { most ≤ told → result ≡ bound - 1 }
{
    if told < most {
        bound
    } else {
        bound.saturating_sub(1)
    }
}

// What is told of each group, by ascending head.
fn tell<L: Log>(alloc: Global, groups: &GroupRow<L>) -> Result<Vec<LiveGroup>, AllocError>
    ensures { IfOk result (λ told. told.items ≡ map told_of groups.now.items) }
{
    let mut told = Vec::with_capacity(alloc, groups.len())?;
    for index in 0..groups.len() {
        told.push(told_of(&groups[index]))?;
    }
    Ok(told)
}

fn told_of<L: Log>(group: &Group<L>) -> LiveGroup
    ensures { result ≡ told_of group.now }
{
    LiveGroup {
        head: group.head_id(),
        live: group.live(),
        spans: group.len(),
    }
}

// Leaves out the groups with no live key.
fn keep_live(told: &mut Vec<LiveGroup>)
    ensures { told.new.items ≡ filter is_live told.old.items }
{
    told.retain(|group| group.live > 0);
}

// Those that come first in order, as many as that, in no order.
fn first_of(
    alloc: Global,
    mut told: Vec<LiveGroup>,
    most: usize,
) -> Result<Vec<LiveGroup>, AllocError>
    ensures { IfOk result (λ first. AreSelected most told.items first.items) }
{
    if most >= told.len() {
        return Ok(told);
    }
    select(alloc, told.as_mut_slice(), most)
}

// The same, where there are more.
fn select(alloc: Global, told: &mut [LiveGroup], most: usize) -> Result<Vec<LiveGroup>, AllocError>
    requires { most < length told.old }
    ensures { IfOk result (λ first. AreSelected most told.old first.items) }
{
    let (first, _, _) = told.select_nth_unstable_by_key(
        most,
        |group| (group.live, group.head.rank()),
    );
    let first = first.to_vec(alloc)?;
    Ok(first)
}

// Puts the sparsest first.
fn sort(told: &mut Vec<LiveGroup>)
    ensures permutation { IsPermutation told.old.items told.new.items }
    ensures order { AreInOrder told.new.items }
{
    told.sort_unstable_by_key(|group| (group.live, group.head.rank()));
}
