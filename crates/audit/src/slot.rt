// A log's changes by slot.
ghost use Rattle.std.specs.Prelude.{◌≡◌, ◌≤◌, ◌<◌, ◌-◌, IfOk, IsTrue, MatchOption, List, Some, length, map, slice_get, vec_len, vec_items};
ghost use Rattle.std.specs.List.Sorted.{IsNonDecreasingBy};
ghost use Rattle.span.specs.KeptLogs.{kept_changes};
ghost use Rattle.span.specs.declared.change.Change.{Change};
ghost use Rattle.audit.specs.declared.slot.TheConstants.{MOST_PLACES};
ghost use Rattle.audit.specs.Slots.{change_rank, place_of, slot_rank, AllAreSortedFrom, HasChanges, HaveChanges, IsBySlot, IsSortedFrom, AreBySlot, IsQuiet, IsLast, IsSplitAt};

use crate::calls::slot_of;
use span::spans::{Kept, Log, SpanLog};
use std::alloc::{AllocError, Global};
use std::mem::size_of;
use std::thread;
use std::thread::Threads;

// At most that many threads sort.
const SORTERS: usize = 16;

/// At most that many changes of a log are sorted: more than any memory holds, since each takes 8
/// bytes.
const MOST_PLACES: usize = 1 << 48;

/// Where a change stands: its slot, and its place in the log, below [`MOST_PLACES`]. It takes 8
/// bytes.
#[derive(Clone, Copy)]
pub struct SlotChange {
    pub slot: u8,
    // The place: how often it has 2^32, and what is left.
    high: u16,
    low: u32,
}

const _: () = prove!(size_of::<SlotChange>() == 8);

impl SlotChange {
    // The change of the slot at the place.
    fn new(slot: u8, place: usize) -> SlotChange
        requires { place < MOST_PLACES }
        ensures slot { result.slot ≡ slot }
        ensures place { place_of result ≡ place }
    {
        SlotChange {
            slot,
            high: (place >> 32) as u16,
            low: (place & 0xffff_ffff) as u32,
        }
    }

    // Its place in the log.
    fn place(&self) -> usize
        ensures { result ≡ place_of self.now }
    {
        let SlotChange { high, low, .. } = *self;
        4_294_967_296 * high as usize + low as usize
    }
}

// The place among all changes by slot, and then by place in the log.
fn slot_rank(slot: u8, place: usize) -> u128
    ensures { result ≡ slot_rank slot place }
{
    18446744073709551616 * slot as u128 + place as u128
}

// The changes of the log, in order.
fn slot_changes(alloc: Global, log: &Kept) -> Result<Vec<SlotChange>, AllocError>
    ensures { IfOk result (λ found. HasChanges (kept_changes log.now) found.items) }
{
    if MOST_PLACES < log.len() {
        return Err(AllocError);
    }
    let mut found = Vec::with_capacity(alloc, log.len())?;
    for place in 0..log.len() {
        let slot = slot_of(log.view(place));
        found.push_reserved(SlotChange::new(slot, place));
    }
    Ok(found)
}

// Puts changes in order, by slot, and those of a slot by place.
fn sort(found: &mut Vec<SlotChange>)
    ensures { IsSortedFrom found.old.items found.new.items }
{
    found.sort_unstable_by_key(|change| slot_rank(change.slot, change.place()));
}

// The changes of the log by slot, and those of a slot in their order.
fn by_slot(alloc: Global, log: &Kept) -> Result<Vec<SlotChange>, AllocError>
    ensures { IfOk result (λ found. IsBySlot (kept_changes log.now) found.items) }
{
    let mut found = slot_changes(alloc, log)?;
    sort(&mut found);
    Ok(found)
}

/// For each log its changes by slot.
pub fn all_by_slot(alloc: Global, logs: &[SpanLog]) -> Result<Vec<Vec<SlotChange>>, AllocError>
    ensures len { IfOk result (λ orders. vec_len orders ≡ length logs.now) }
    ensures each { IfOk result (λ orders. AreBySlot logs.now (map vec_items orders.items)) }
{
    let mut orders = Vec::new(alloc);
    for log in logs {
        orders.push(by_slot(alloc, &log.log)?)?;
    }
    Ok(orders)
}

// For each log its changes, in order.
fn all_slot_changes(alloc: Global, logs: &[SpanLog]) -> Result<Vec<Vec<SlotChange>>, AllocError>
    ensures len { IfOk result (λ found. vec_len found ≡ length logs.now) }
    ensures each { IfOk result (λ found. HaveChanges logs.now (map vec_items found.items)) }
{
    let mut found = Vec::with_capacity(alloc, logs.len())?;
    for log in logs {
        found.push(slot_changes(alloc, &log.log)?)?;
    }
    Ok(found)
}

// Puts the changes of each log in order, on a few threads.
fn sort_all<R: Threads + Sync>(rt: &R, found: &mut [Vec<SlotChange>])
    ensures { AllAreSortedFrom found.old found.new }
{
    thread::for_each_mut(
        rt,
        found,
        SORTERS,
        &|_place: usize, changes: &mut Vec<SlotChange>|
            ensures { IsSortedFrom changes.entry.now.items changes.exit.now.items }
        { sort(changes) },
    );
}

/// As [`all_by_slot`], with logs sorted side by side.
pub fn all_by_slot_by_threads<R: Threads + Sync>(
    rt: &R,
    alloc: Global,
    logs: &[SpanLog],
) -> Result<Vec<Vec<SlotChange>>, AllocError>
    ensures len { IfOk result (λ orders. vec_len orders ≡ length logs.now) }
    ensures each { IfOk result (λ orders. AreBySlot logs.now (map vec_items orders.items)) }
{
    let mut orders = all_slot_changes(alloc, logs)?;
    sort_all(rt, orders.as_mut_slice());
    Ok(orders)
}

// The place of a change among all changes by slot.
fn change_rank(change: &SlotChange) -> u128
    ensures { result ≡ change_rank change.now }
{
    slot_rank(change.slot, change.place())
}

// Whether the last of the first `n` changes by slot, if there is one, stands before the rank.
fn ends_before(found: &[SlotChange], rank: u128, n: usize) -> bool
    requires { n ≤ length found.now }
    ensures { IsTrue result → (x : SlotChange) → 1 ≤ n → slice_get found.now (n - 1) ≡ Some x
        → change_rank x < rank }
{
    if n == 0 {
        return true;
    }
    let last = change_rank(&found[n - 1]);
    if rank <= last {
        return false;
    }
    true
}

// Whether the change after the first `n`, if there is one, does not stand before the rank.
fn goes_on_from(found: &[SlotChange], rank: u128, n: usize) -> bool
    requires { n ≤ length found.now }
    ensures { IsTrue result → (x : SlotChange) → slice_get found.now n ≡ Some x
        → rank ≤ change_rank x }
{
    if n == found.len() {
        return true;
    }
    let next = change_rank(&found[n]);
    if next < rank {
        return false;
    }
    true
}

// Whether the first `n` of the changes by slot stand before the rank, and the others don't.
fn is_split_at(found: &[SlotChange], rank: u128, n: usize) -> bool
    requires { IsNonDecreasingBy change_rank found.now }
    ensures { IsTrue result → IsSplitAt found.now rank n }
{
    if found.len() < n {
        return false;
    }
    if !ends_before(found, rank, n) {
        return false;
    }
    if !goes_on_from(found, rank, n) {
        return false;
    }
    true
}

// How many of the changes by slot stand before the rank. The guess, or one more, is tried before a
// search.
fn count_before(found: &[SlotChange], rank: u128, guess: usize) -> usize
    requires { IsNonDecreasingBy change_rank found.now }
    ensures { IsSplitAt found.now rank result }
{
    if is_split_at(found, rank, guess) {
        return guess;
    }
    let next = guess.saturating_add(1);
    if is_split_at(found, rank, next) {
        return next;
    }
    found.partition_point(|change| slot_rank(change.slot, change.place()) < rank)
}

/// The place of the last change of the slot before the place, if there is one. `guess` is how many
/// of the changes by slot may stand up to it: a right guess spares a search.
pub fn last_before(found: &[SlotChange], slot: u8, at: usize, guess: usize) -> Option<usize>
    requires { IsNonDecreasingBy change_rank found.now }
    ensures { (changes : List Change) → IsBySlot changes found.now → at ≤ length changes
        → MatchOption result (IsQuiet changes slot 0 at) (IsLast changes slot at) }
{
    let rank = slot_rank(slot, at);
    let n = count_before(found, rank, guess);
    if n == 0 {
        return None;
    }
    let last = found[n - 1];
    if last.slot == slot {
        Some(last.place())
    } else {
        None
    }
}
