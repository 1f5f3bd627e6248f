// A graph of two sides, as rows of bits.
ghost use Rattle.std.specs.Prelude.{◌≡◌, ◌+◌, ◌*◌, ◌/◌, ◌<◌, ◌≤◌, ℕ, true, false, bit_and, length, slice_get, slice_index, IfNone, IfSome, Some};
ghost use Rattle.std.specs.Bool.{OnTrue};
ghost use Rattle.bitmap.specs.Slots.{has_bit};
ghost use Rattle.mesh_graph.specs.Groups.{IsAscending, compatible_at, ids};
ghost use Rattle.lane_kernels.specs.Rows.{row_at};
ghost use Rattle.mesh_graph.specs.declared.build.TheConstants.{MOST_GROUPS};

use crate::snapshot::Snapshot;
use span::names::SpanId;
use std::marker::Model;
use std::simd::Simd;
use std::simd::prelude::*;

/// Which abandoned group of a snapshot is compatible with which owned one, by their places in the
/// snapshot. It is lent the snapshot, and has a row of bits for each abandoned group,
/// one after another.
#[derive(Drop)]
pub struct Graph<'a> {
    pub(crate) snapshot: &'a Snapshot,
    pub(crate) rows: Vec<u64>,
}

impl<'a> Model for Graph<'a> {
    ghost use Rattle.std.specs.Coded.{codes};
    ghost use Rattle.mesh_graph.specs.Groups.{Groups};
    ghost use Rattle.mesh_graph.specs.Rows.{AreRows};
    ghost use Rattle.span.specs.contracts.entry.Entry as entry;

    ghost Value = { Groups };

    ghost coded = { Prim.hlevel (codes, entry.the_row.coded) };

    ghost view = { λ g. g.snapshot.now };

    ghost invariant = { λ g. AreRows g.snapshot.now g.rows.items };
}

impl<'a> Graph<'a> {
    /// How many abandoned groups there are.
    pub fn abandoned(&self) -> usize
        ensures count { result ≡ length self.now.abandoned }
        ensures at_most { result ≤ MOST_GROUPS }
        ensures ascending { IsAscending (ids self.now.abandoned) }
    {
        self.snapshot.abandoned().len()
    }

    /// How many owned groups there are.
    pub fn owned(&self) -> usize
        ensures count { result ≡ length self.now.owned }
        ensures at_most { result ≤ MOST_GROUPS }
        ensures ascending { IsAscending (ids self.now.owned) }
    {
        self.snapshot.owned().len()
    }

    /// The id of the abandoned group at the place.
    pub fn abandoned_id(&self, i: usize) -> SpanId
        requires { i < length self.now.abandoned }
        ensures { slice_get (ids self.now.abandoned) i ≡ Some result }
    {
        self.snapshot.abandoned()[i].id
    }

    /// The id of the owned group at the place.
    pub fn owned_id(&self, j: usize) -> SpanId
        requires { j < length self.now.owned }
        ensures { slice_get (ids self.now.owned) j ≡ Some result }
    {
        self.snapshot.owned()[j].id
    }

    /// The bits of the abandoned group at the place, in words of 64: bit j of the row is bit j % 64
    /// of word j / 64, and says whether the group is compatible with the owned group at place j.
    pub fn row(&self, i: usize) -> &[u64]
        requires { i < length self.now.abandoned }
        ensures bits { (j : ℕ) → has_bit result.now j ≡ compatible_at self.now i j }
        ensures words { length result.now ≡ (length self.now.owned + 63) / 64 }
        ensures at_most { length result.now ≤ 64 }
    {
        row_of(&self.rows, (self.owned() + 63) / 64, i)
    }

    /// The least owned place from `from` on that is compatible with the abandoned one at `i` and
    /// whose bit is set in `among`, which has as many words as a row.
    pub fn next_partner_among(&self, i: usize, from: usize, among: &[u64]) -> Option<usize>
        requires abandoned { i < length self.now.abandoned }
        requires words { length among.now ≡ (length self.now.owned + 63) / 64 }
        ensures partner { IfSome result (λ j. compatible_at self.now i j ≡ true) }
        ensures among { IfSome result (λ j. has_bit among.now j ≡ true) }
        ensures within { IfSome result (λ j. j < length self.now.owned) }
        ensures from { IfSome result (λ j. from ≤ j) }
        ensures least { IfSome result (λ j. (k : ℕ) → from ≤ k → k < j
            → has_bit among.now k ≡ true → compatible_at self.now i k ≡ false) }
        ensures none { IfNone result ((k : ℕ) → from ≤ k
            → has_bit among.now k ≡ true → compatible_at self.now i k ≡ false) }
    {
        next_shared_bit(self.row(i), among, from)
    }
}

// Row i of rows that stand one after another.
pub(crate) fn row_of(words: &[u64], width: usize, i: usize) -> &[u64]
    requires { width * i + width ≤ length words.now }
    ensures { result.now ≡ row_at width words.now i }
{
    let start = width * i;
    &words[start..start + width]
}

// Whether the eight words from `at` on share no bit with those of `among` at the same places.
fn are_apart(words: &[u64], among: &[u64], at: usize) -> bool
    requires words { at + 8 ≤ length words.now }
    requires among { at + 8 ≤ length among.now }
    ensures { OnTrue result ((i : ℕ) → i < 8
        → bit_and (slice_index words.now (at + i)) (slice_index among.now (at + i)) ≡ 0) }
{
    let shared = Simd::<u64, 8>::from_slice(&words[at..])
        & Simd::<u64, 8>::from_slice(&among[at..]);
    shared.reduce_or() == 0
}

// Where to go on from `start`, past words that share no bit with those of `among`: eight at a time,
// since a row has hardly a bit where few groups fit.
fn past_apart(words: &[u64], among: &[u64], start: usize) -> usize
    requires start { start ≤ length words.now }
    requires same { length among.now ≡ length words.now }
    ensures from { start ≤ result }
    ensures within { result ≤ length words.now }
    ensures apart { (k : ℕ) → start ≤ k → k < result
        → bit_and (slice_index words.now k) (slice_index among.now k) ≡ 0 }
{
    let mut at = start;
    while words.len() - at >= 8 {
        if !are_apart(words, among, at) {
            return at;
        }
        at += 8;
    }
    at
}

// The least bit from `from` on that is set in both.
fn next_shared_bit(words: &[u64], among: &[u64], from: usize) -> Option<usize>
    requires few { length words.now ≤ 64 }
    requires same { length among.now ≡ length words.now }
    ensures set { IfSome result (λ j. has_bit words.now j ≡ true) }
    ensures among { IfSome result (λ j. has_bit among.now j ≡ true) }
    ensures from { IfSome result (λ j. from ≤ j) }
    ensures least { IfSome result (λ j. (k : ℕ) → from ≤ k → k < j
        → has_bit among.now k ≡ true → has_bit words.now k ≡ false) }
    ensures none { IfNone result ((k : ℕ) → from ≤ k
        → has_bit among.now k ≡ true → has_bit words.now k ≡ false) }
{
    let start = from / 64;
    if start >= words.len() {
        return None;
    }
    let left = (words[start] & among[start]) >> (from % 64);
    if left != 0 {
        return Some(from + left.trailing_zeros() as usize);
    }
    for k in past_apart(words, among, start + 1)..words.len() {
        let word = words[k] & among[k];
        if word != 0 {
            return Some(64 * k + word.trailing_zeros() as usize);
        }
    }
    None
}
