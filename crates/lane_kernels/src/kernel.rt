// Rows of disjointness over four rows of words, 64 columns at a time.
ghost use Rattle.std.specs.Prelude.{◌≡◌, ℕ, ◌+◌, ◌-◌, ◌*◌, ◌/◌, ◌%◌, ◌^◌, ◌<◌, ◌≤◌, if◌then◌else◌, length, min, slice_index};
ghost use Rattle.std.specs.FinSet as set;
ghost use Rattle.std.specs.FinSet.{len};
ghost use Rattle.bitmap.specs.Slots.{AreWords, slots_of_words};
ghost use Rattle.bitmap.specs.declared.bits.TheConstants.{SLOTS};
ghost use Rattle.lane_kernels.specs.Planes.{column, is_apart, ones_of, word_of};

use bitmap::SLOTS;
use std::simd::Simd;
use std::simd::prelude::*;

// The bits of 64 columns.
fn word_at(set: &[u64; 4], p: &[u64], q: &[u64], r: &[u64], s: &[u64], at: usize) -> u64
    requires p { at + 64 ≤ length p.now }
    requires q { at + 64 ≤ length q.now }
    requires r { at + 64 ≤ length r.now }
    requires s { at + 64 ≤ length s.now }
    ensures { result ≡ word_of (is_apart set.now p.now q.now r.now s.now) at 64 }
{
    let in_p = Simd::<u64, 64>::splat(set[0]) & Simd::<u64, 64>::from_slice(&p[at..]);
    let in_q = Simd::<u64, 64>::splat(set[1]) & Simd::<u64, 64>::from_slice(&q[at..]);
    let in_r = Simd::<u64, 64>::splat(set[2]) & Simd::<u64, 64>::from_slice(&r[at..]);
    let in_s = Simd::<u64, 64>::splat(set[3]) & Simd::<u64, 64>::from_slice(&s[at..]);
    (in_p | in_q | in_r | in_s)
        .simd_eq(Simd::<u64, 64>::splat(0))
        .to_bitmask()
}

// Whether the set is disjoint from that of a column.
fn is_apart_at(set: &[u64; 4], p: &[u64], q: &[u64], r: &[u64], s: &[u64], k: usize) -> bool
    requires p { k < length p.now }
    requires q { k < length q.now }
    requires r { k < length r.now }
    requires s { k < length s.now }
    ensures { result ≡ is_apart set.now p.now q.now r.now s.now k }
{
    (set[0] & p[k]) | (set[1] & q[k]) | (set[2] & r[k]) | (set[3] & s[k]) == 0
}

// The bits of fewer than 64 columns, one after the other.
#[tactic(auto, using(crate::proofs::Words::doubled))]
fn tail_at(set: &[u64; 4], p: &[u64], q: &[u64], r: &[u64], s: &[u64], at: usize, n: usize) -> u64
    requires few { n < 64 }
    requires p { at + n ≤ length p.now }
    requires q { at + n ≤ length q.now }
    requires r { at + n ≤ length r.now }
    requires s { at + n ≤ length s.now }
    ensures { result ≡ word_of (is_apart set.now p.now q.now r.now s.now) at n }
{
    let mut word = 0;
    let mut k = n;
    while k > 0 {
        k -= 1;
        word = 2 * word + u64::from(is_apart_at(set, p, q, r, s, at + k));
    }
    word
}

// A bit for each column, 64 to a word, the lowest first.
pub(crate) fn fill_row(set: &[u64; 4], p: &[u64], q: &[u64], r: &[u64], s: &[u64], row: &mut [u64])
    requires q { length q.now ≡ length p.now }
    requires r { length r.now ≡ length p.now }
    requires s { length s.now ≡ length p.now }
    requires row { length row.old ≡ (length p.now + 63) / 64 }
    ensures columns { (j : ℕ) → j < length p.now → slice_index row.new (j / 64) / 2 ^ (j % 64) % 2
        ≡ (if is_apart set.now p.now q.now r.now s.now j then 1 else 0) }
    ensures rest { (j : ℕ) → length p.now ≤ j → j < 64 * length row.new
        → slice_index row.new (j / 64) / 2 ^ (j % 64) % 2 ≡ 0 }
{
    for w in 0..row.len() {
        row[w] = next_word(set, p, q, r, s, 64 * w);
    }
}

// The bits of the next 64 columns, or of those that are left.
fn next_word(set: &[u64; 4], p: &[u64], q: &[u64], r: &[u64], s: &[u64], at: usize) -> u64
    requires at { at ≤ length p.now }
    requires q { length q.now ≡ length p.now }
    requires r { length r.now ≡ length p.now }
    requires s { length s.now ≡ length p.now }
    ensures { result ≡ word_of (is_apart set.now p.now q.now r.now s.now) at
        (min 64 (length p.now - at)) }
{
    let left = p.len() - at;
    if left >= 64 {
        word_at(set, p, q, r, s, at)
    } else {
        tail_at(set, p, q, r, s, at, left)
    }
}

// As [`fill_row`], where each of the 64 columns of a word has at least as many slots as `fewest`
// says of that word.
pub(crate) fn fill_row_by_counts(
    set: &[u64; 4],
    count: usize,
    p: &[u64],
    q: &[u64],
    r: &[u64],
    s: &[u64],
    fewest: &[usize],
    row: &mut [u64],
)
    requires set { AreWords set.now }
    requires count { count ≡ len (slots_of_words set.now) }
    requires at_most { count ≤ SLOTS }
    requires q { length q.now ≡ length p.now }
    requires r { length r.now ≡ length p.now }
    requires s { length s.now ≡ length p.now }
    requires row { length row.old ≡ (length p.now + 63) / 64 }
    requires wide { length fewest.now ≡ length row.old }
    requires fewest { (j : ℕ) → j < length p.now → slice_index fewest.now (j / 64)
        ≤ len (slots_of_words (column p.now q.now r.now s.now j)) }
    ensures columns { (j : ℕ) → j < length p.now → slice_index row.new (j / 64) / 2 ^ (j % 64) % 2
        ≡ (if is_apart set.now p.now q.now r.now s.now j then 1 else 0) }
    ensures rest { (j : ℕ) → length p.now ≤ j → j < 64 * length row.new
        → slice_index row.new (j / 64) / 2 ^ (j % 64) % 2 ≡ 0 }
{
    for w in 0..row.len() {
        row[w] = next_word_by_counts(set, count, p, q, r, s, fewest[w], 64 * w);
    }
}

// The bits of the next 64 columns, or of those that are left, where each of these has at least
// `fewest` slots. Where that is more than the set leaves free, each of them shares a slot with the
// set.
fn next_word_by_counts(
    set: &[u64; 4],
    count: usize,
    p: &[u64],
    q: &[u64],
    r: &[u64],
    s: &[u64],
    fewest: usize,
    at: usize,
) -> u64
    requires set { AreWords set.now }
    requires count { count ≡ len (slots_of_words set.now) }
    requires at_most { count ≤ SLOTS }
    requires at { at ≤ length p.now }
    requires q { length q.now ≡ length p.now }
    requires r { length r.now ≡ length p.now }
    requires s { length s.now ≡ length p.now }
    requires fewest { (j : ℕ) → at ≤ j → j < at + 64 → j < length p.now
        → fewest ≤ len (slots_of_words (column p.now q.now r.now s.now j)) }
    ensures { result ≡ word_of (is_apart set.now p.now q.now r.now s.now) at
        (min 64 (length p.now - at)) }
{
    if fewest > SLOTS - count {
        return 0;
    }
    next_word(set, p, q, r, s, at)
}

// How many bits the words of each column have.
pub(crate) fn count_columns(p: &[u64], q: &[u64], r: &[u64], s: &[u64], counts: &mut [u32])
    requires q { length q.now ≡ length p.now }
    requires r { length r.now ≡ length p.now }
    requires s { length s.now ≡ length p.now }
    requires counts { length counts.old ≡ length p.now }
    ensures len { length counts.new ≡ length p.now }
    ensures each { (k : ℕ) → k < length p.now → slice_index counts.new k
        ≡ set.len (slots_of_words (column p.now q.now r.now s.now k)) }
{
    let whole = p.len() / 8 * 8;
    let mut at = 0;
    while at < whole {
        count_eight(p, q, r, s, counts, at);
        at += 8;
    }
    for k in whole..p.len() {
        counts[k] = p[k].count_ones() + q[k].count_ones() + r[k].count_ones() + s[k].count_ones();
    }
}

// The counts of eight columns.
fn count_eight(p: &[u64], q: &[u64], r: &[u64], s: &[u64], counts: &mut [u32], at: usize)
    requires p { at + 8 ≤ length p.now }
    requires q { at + 8 ≤ length q.now }
    requires r { at + 8 ≤ length r.now }
    requires s { at + 8 ≤ length s.now }
    requires counts { at + 8 ≤ length counts.old }
    ensures len { length counts.new ≡ length counts.old }
    ensures before { (k : ℕ) → k < at → slice_index counts.new k ≡ slice_index counts.old k }
    ensures each { (k : ℕ) → at ≤ k → k < at + 8
        → slice_index counts.new k ≡ ones_of p.now q.now r.now s.now k }
{
    let in_p = Simd::<u64, 8>::from_slice(&p[at..]).count_ones();
    let in_q = Simd::<u64, 8>::from_slice(&q[at..]).count_ones();
    let in_r = Simd::<u64, 8>::from_slice(&r[at..]).count_ones();
    let in_s = Simd::<u64, 8>::from_slice(&s[at..]).count_ones();
    (in_p + in_q + in_r + in_s)
        .cast::<u32>()
        .copy_to_slice(&mut counts[at..]);
}
