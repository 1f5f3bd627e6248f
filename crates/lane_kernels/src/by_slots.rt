// Many sets as a row of bits for each slot.
ghost use Rattle.std.specs.Prelude.{◌≡◌, ℕ, ◌+◌, ◌-◌, ◌*◌, ◌/◌, ◌^◌, ◌<◌, ◌≤◌, ◌==◌, ◌&&◌, ◌↔◌, not, length, min, slice_index, take, IfOk};
ghost use Rattle.std.specs.Int.{bit_at};
ghost use Rattle.std.specs.Simd.Lanes.{chunk};
ghost use Rattle.bitmap.specs.Slots.{ascending, has_bit};
ghost use Rattle.lane_kernels.specs.Planes.{column, word_of};
ghost use Rattle.lane_kernels.specs.Rows.{AreBitRows, IsClear, IsClearIn, bit_in, padded, slot_row, survives, width_of};

use bitmap::Bits256;
use std::alloc::{AllocError, Global};
use std::simd::Simd;
use std::simd::prelude::*;

// Whether the word has the bit.
fn has(word: u64, bit: usize) -> bool
    requires { bit < 64 }
    ensures { result ≡ (bit_at word bit == 1) }
{
    (word >> bit) & 1 == 1
}

// The bit of each of fewer than 64 columns of a plane, one after the other.
#[tactic(auto, using(crate::proofs::Words::doubled))]
fn last_bits(plane: &[u64], bit: usize, at: usize, n: usize) -> u64
    requires bit { bit < 64 }
    requires few { n < 64 }
    requires plane { at + n ≤ length plane.now }
    ensures { result ≡ word_of (λ k. bit_at (slice_index plane.now k) bit == 1) at n }
{
    let mut word = 0;
    let mut k = n;
    while k > 0 {
        k -= 1;
        word = 2 * word + u64::from(has(plane[at + k], bit));
    }
    word
}

// The bit of each of 64 columns of a plane.
fn bits_at(plane: &[u64], bit: usize, at: usize) -> u64
    requires bit { bit < 64 }
    requires plane { at + 64 ≤ length plane.now }
    ensures { result ≡ word_of (λ k. bit_at (slice_index plane.now k) bit == 1) at 64 }
{
    let one = Simd::<u64, 64>::splat(1 << bit);
    (Simd::<u64, 64>::from_slice(&plane[at..]) & one)
        .simd_eq(one)
        .to_bitmask()
}

// The bit of each of the next 64 columns of a plane, or of those that are left.
fn next_bits(plane: &[u64], bit: usize, at: usize) -> u64
    requires bit { bit < 64 }
    requires at { at ≤ length plane.now }
    ensures { result ≡ word_of (λ k. bit_at (slice_index plane.now k) bit == 1) at
        (min 64 (length plane.now - at)) }
{
    let left = plane.len() - at;
    if left >= 64 {
        bits_at(plane, bit, at)
    } else {
        last_bits(plane, bit, at, left)
    }
}

// A bit of each column, 64 to a word. The row may be longer.
fn fill_bits(plane: &[u64], bit: usize, row: &mut [u64])
    requires bit { bit < 64 }
    requires row { (length plane.now + 63) / 64 ≤ length row.old }
    ensures len { length row.new ≡ length row.old }
    ensures bits { (j : ℕ) → j < length plane.now
        → has_bit row.new j ≡ (bit_at (slice_index plane.now j) bit == 1) }
{
    for w in 0..(plane.len() + 63) / 64 {
        row[w] = next_bits(plane, bit, 64 * w);
    }
}

// How many words a row takes up among the rows of slots: blocks of sixteen words, the last one
// filled up.
pub(crate) fn padded(words: usize) -> usize
    requires { words < 2 ^ 60 }
    ensures { result ≡ padded words }
{
    (words + 15) / 16 * 16
}

// Sixteen words of the row of a bit. Those of the lowest bit's row begin at `first`, and each
// further row's are `width` words on.
fn block_at(rows: &[u64], width: usize, bit: usize, first: usize) -> Simd<u64, 16>
    requires { first + width * bit + 16 ≤ length rows.now }
    ensures { result ≡ chunk (first + width * bit) 16 rows.now }
{
    Simd::<u64, 16>::from_slice(&rows[first + width * bit..])
}

// These sixteen words, and the bits that the row of some bit of a word has in its sixteen, as
// `block_at` has them.
fn add_rows(
    block: Simd<u64, 16>,
    word: u64,
    rows: &[u64],
    width: usize,
    first: usize,
) -> Simd<u64, 16>
    requires block { length block ≡ 16 }
    requires rows { first + width * 63 + 16 ≤ length rows.now }
    ensures len { length result ≡ 16 }
    ensures bits { (i b : ℕ) → i < 16 → b < 64 → (bit_at (slice_index result i) b ≡ 0)
        ↔ ((bit_at (slice_index block i) b ≡ 0) × IsClear word rows.now width (first + i) b) }
{
    let mut block = block;
    let mut left = word;
    while left != 0 {
        let bit = left.trailing_zeros() as usize;
        block |= block_at(rows, width, bit, first);
        left &= !(1 << bit);
    }
    block
}

// The bits that some row of the words' slots has in the sixteen words from `at` on.
fn block_of(words: &[u64; 4], rows: &[u64], width: usize, at: usize) -> Simd<u64, 16>
    requires rows { length rows.now ≡ width * 256 }
    requires at { at + 16 ≤ width }
    ensures len { length result ≡ 16 }
    ensures bits { (i b : ℕ) → i < 16 → b < 64 → (bit_at (slice_index result i) b ≡ 0)
        ↔ IsClearIn words.now rows.now width (at + i) b 256 }
{
    let mut block = Simd::<u64, 16>::splat(0);
    for k in 0..4 {
        block = add_rows(block, words[k], rows, width, width * (64 * k) + at);
    }
    block
}

// Takes the bits of a block off the words from `at` on, of which there may be fewer.
fn take_off(block: &[u64; 16], at: usize, row: &mut [u64])
    requires { at ≤ length row.old }
    ensures len { length row.new ≡ length row.old }
    ensures block { (i b : ℕ) → i < 16 → b < 64 → at + i < length row.old
        → bit_in row.new (at + i) b ≡ (bit_in row.old (at + i) b && not (bit_in block.now i b)) }
    ensures before { (w : ℕ) → w < at → slice_index row.new w ≡ slice_index row.old w }
    ensures after { (w : ℕ) → at + 16 ≤ w → slice_index row.new w ≡ slice_index row.old w }
{
    for i in 0..(row.len() - at).min(16) {
        row[at + i] &= !block[i];
    }
}

// Takes off the rows of all slots that the set has, a block at a time, which stays in registers
// while the slots go by.
pub(crate) fn take_off_all(set: &Bits256, rows: &[u64], row: &mut [u64])
    requires { length rows.now ≡ padded (length row.old) * 256 }
    ensures len { length row.new ≡ length row.old }
    ensures bits { (j : ℕ) → has_bit row.new j ≡ (has_bit row.old j
        && survives (padded (length row.old)) rows.now j (ascending set.now)) }
{
    let words = set.words();
    let width = padded(row.len());
    let mut at = 0;
    while at < row.len() {
        let block = block_of(&words, rows, width, at);
        take_off(&block.to_array(), at, row);
        at += 16;
    }
}

// The row of a slot: a bit of each column. The row may be longer.
fn fill_slot(p: &[u64], q: &[u64], r: &[u64], s: &[u64], slot: usize, row: &mut [u64])
    requires slot { slot < 256 }
    requires q { length q.now ≡ length p.now }
    requires r { length r.now ≡ length p.now }
    requires s { length s.now ≡ length p.now }
    requires row { (length p.now + 63) / 64 ≤ length row.old }
    ensures len { length row.new ≡ length row.old }
    ensures bits { (j : ℕ) → j < length p.now
        → has_bit row.new j ≡ has_bit (column p.now q.now r.now s.now j) slot }
{
    if slot < 64 {
        fill_bits(p, slot % 64, row);
        return;
    }
    if slot < 128 {
        fill_bits(q, slot % 64, row);
        return;
    }
    if slot < 192 {
        fill_bits(r, slot % 64, row);
        return;
    }
    fill_bits(s, slot % 64, row);
}

// Writes the row of the slot `first + k` as row k of rows that stand one after another.
fn fill_slot_at(
    p: &[u64],
    q: &[u64],
    r: &[u64],
    s: &[u64],
    first: usize,
    k: usize,
    rows: &mut [u64],
)
    requires slot { first + k < 256 }
    requires q { length q.now ≡ length p.now }
    requires r { length r.now ≡ length p.now }
    requires s { length s.now ≡ length p.now }
    requires within { padded (width_of (length p.now)) * k + padded (width_of (length p.now))
        ≤ length rows.old }
    ensures len { length rows.new ≡ length rows.old }
    ensures earlier { take (padded (width_of (length p.now)) * k) rows.new
        ≡ take (padded (width_of (length p.now)) * k) rows.old }
    ensures wide { length (slot_row (length p.now) rows.new k)
        ≡ padded (width_of (length p.now)) }
    ensures bits { (j : ℕ) → j < length p.now → has_bit (slot_row (length p.now) rows.new k) j
        ≡ has_bit (column p.now q.now r.now s.now j) (first + k) }
{
    let width = padded((p.len() + 63) / 64);
    let start = width * k;
    fill_slot(p, q, r, s, first + k, &mut rows[start..start + width]);
}

// Writes the rows of so many slots from `first` on, one after another.
pub(crate) fn fill_slots(
    p: &[u64],
    q: &[u64],
    r: &[u64],
    s: &[u64],
    first: usize,
    count: usize,
    rows: &mut [u64],
)
    requires slots { first + count ≤ 256 }
    requires q { length q.now ≡ length p.now }
    requires r { length r.now ≡ length p.now }
    requires s { length s.now ≡ length p.now }
    requires rows { length rows.old ≡ padded (width_of (length p.now)) * count }
    ensures len { length rows.new ≡ length rows.old }
    ensures rows { AreBitRows p.now q.now r.now s.now first count rows.new }
{
    for k in 0..count {
        fill_slot_at(p, q, r, s, first, k, rows);
    }
}

// Room for the rows of all slots of so many columns as a plane has, without a bit.
pub(crate) fn empty_rows(alloc: Global, plane: &[u64]) -> Result<Vec<u64>, AllocError>
    ensures { IfOk result (λ rows. length rows.items ≡ padded (width_of (length plane.now)) * 256) }
{
    // Where there are more words than a number counts, there is no memory for them either.
    let Some(words) = padded((plane.len() + 63) / 64).checked_mul(256) else {
        return Err(AllocError);
    };
    vec![in alloc; 0; words]
}
