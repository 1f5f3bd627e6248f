// Sets side by side.
ghost use Rattle.std.specs.Prelude.{◌≡◌, ℕ, ◌+◌, ◌*◌, ◌/◌, ◌≤◌, ◌++◌, ◌∷◌, [], IfOk, OnOk, OnErr, length, map, vec_len, slice_get};
ghost use Rattle.std.specs.FinSet as set;
ghost use Rattle.bitmap.specs.Slots.{has_bit};
ghost use Rattle.lane_kernels.specs.Disjoint.{fits};
ghost use Rattle.lane_kernels.specs.Planes.{IsUnionOf, sets_of};
ghost use Rattle.lane_kernels.specs.Rows.{AreFewest, HaveSlots, padded, width_of};
ghost use Rattle.bitmap.specs.declared.bits.TheConstants.{SLOTS};

use crate::by_slots::{empty_rows, fill_slots, padded};
use crate::kernel::{count_columns, fill_row, fill_row_by_counts};
use bitmap::Bits256;
use std::alloc::{AllocError, Global};
use std::marker::Model;

/// A list of sets, kept as four rows of words with one column for each set: row k has the slots
/// from 64 k on.
#[derive(Drop)]
pub struct Planes {
    first: Vec<u64>,
    second: Vec<u64>,
    third: Vec<u64>,
    fourth: Vec<u64>,
    // The union of all.
    all: Bits256,
    ghost second_is_as_long: { vec_len second ≡ vec_len first },
    ghost third_is_as_long: { vec_len third ≡ vec_len first },
    ghost fourth_is_as_long: { vec_len fourth ≡ vec_len first },
    ghost all_is: { IsUnionOf all (sets_of first.items second.items third.items fourth.items) },
}

impl Model for Planes {
    ghost use Rattle.std.specs.Prelude.{List};
    ghost use Rattle.bitmap.specs.Slots.{SlotSet};
    ghost use Rattle.lane_kernels.specs.Planes.{sets_of};
    ghost use Rattle.std.specs.Coded.{coded_list, coded_ℕ};
    ghost use Rattle.std.specs.FinSet as set;

    ghost Value = { List SlotSet };

    ghost coded = { coded_list (set.code coded_ℕ) };

    ghost view = { λ p. sets_of p.first.items p.second.items p.third.items p.fourth.items };
}

impl Planes {
    /// No set.
    pub fn new(alloc: Global) -> Planes
        ensures { result ≡ [] }
    {
        Planes {
            first: Vec::new(alloc),
            second: Vec::new(alloc),
            third: Vec::new(alloc),
            fourth: Vec::new(alloc),
            all: Bits256::empty(),
        }
    }

    /// Puts a set last. The error means that memory ran out, and then no set was put.
    pub fn push(&mut self, set: &Bits256) -> Result<(), AllocError>
        ensures ok { OnOk result (self.new ≡ self.old ++ set.now ∷ []) }
        ensures err { OnErr result (self.new ≡ self.old) }
    {
        self.first.reserve(1)?;
        self.second.reserve(1)?;
        self.third.reserve(1)?;
        self.fourth.reserve(1)?;
        let words = set.words();
        self.first.push_reserved(words[0]);
        self.second.push_reserved(words[1]);
        self.third.push_reserved(words[2]);
        self.fourth.push_reserved(words[3]);
        self.all = self.all.union(set);
        Ok(())
    }

    /// How many sets there are.
    pub fn len(&self) -> usize
        ensures { result ≡ length self.now }
    {
        self.first.len()
    }

    /// How many words a row has that has a bit for each set: one for each 64 sets, begun ones
    /// included.
    pub fn row_words(&self) -> usize
        ensures { result ≡ (length self.now + 63) / 64 }
    {
        (self.first.len() + 63) / 64
    }

    /// Writes a bit for each set, which says whether the set is disjoint from the given one: bit j
    /// % 64 of word j / 64 is that of set j. The bits from the number of sets on are cleared. The
    /// row has [`row_words`](Planes::row_words) words.
    pub fn disjoint_row(&self, set: &Bits256, row: &mut [u64])
        requires { length row.old ≡ (length self.now + 63) / 64 }
        ensures len { length row.new ≡ length row.old }
        ensures bits { (j : ℕ) → has_bit row.new j ≡ fits set.now (slice_get self.now j) }
    {
        fill_row(
            &set.words(),
            &self.first,
            &self.second,
            &self.third,
            &self.fourth,
            row,
        );
    }

    // As [`Planes::disjoint_row`], where each of the 64 sets of a word has at least as many slots
    // as `fewest` says of that word.
    pub(crate) fn disjoint_row_by_counts(&self, set: &Bits256, fewest: &[usize], row: &mut [u64])
        requires row { length row.old ≡ (length self.now + 63) / 64 }
        requires fewest { AreFewest self.now fewest.now }
        ensures len { length row.new ≡ length row.old }
        ensures bits { (j : ℕ) → has_bit row.new j ≡ fits set.now (slice_get self.now j) }
    {
        fill_row_by_counts(
            &set.words(),
            set.count() as usize,
            &self.first,
            &self.second,
            &self.third,
            &self.fourth,
            fewest,
            row,
        );
    }

    /// Writes how many slots each set has.
    pub fn count_all(&self, counts: &mut [u32])
        requires { length counts.old ≡ length self.now }
        ensures { counts.new ≡ map set.len self.now }
    {
        count_columns(&self.first, &self.second, &self.third, &self.fourth, counts);
    }

    /// The slots that some set has.
    pub fn union_all(&self) -> Bits256
        ensures { IsUnionOf result self.now }
    {
        self.all
    }

    /// How many words the row of a slot takes up among the rows of slots: those of a row, filled up
    /// to blocks of sixteen.
    pub fn slot_words(&self) -> usize
        ensures { result ≡ padded (width_of (length self.now)) }
    {
        padded((self.first.len() + 63) / 64)
    }

    /// Room for the rows of all 256 slots, one after another, without a bit. The error means that
    /// memory ran out.
    pub fn empty_slot_rows(&self, alloc: Global) -> Result<Vec<u64>, AllocError>
        ensures { IfOk result (λ rows. length rows.items ≡ padded (width_of (length self.now))
            * SLOTS) }
    {
        empty_rows(alloc, &self.first)
    }

    /// Writes the rows of so many slots from `first` on, one after another, each of
    /// [`slot_words`](Planes::slot_words) words: bit j % 64 of word j / 64 of a slot's row says
    /// whether set j has the slot.
    pub fn fill_slots(&self, first: usize, count: usize, rows: &mut [u64])
        requires slots { first + count ≤ SLOTS }
        requires rows { length rows.old ≡ padded (width_of (length self.now)) * count }
        ensures len { length rows.new ≡ length rows.old }
        ensures rows { HaveSlots self.now first count rows.new }
    {
        fill_slots(
            &self.first,
            &self.second,
            &self.third,
            &self.fourth,
            first,
            count,
            rows,
        );
    }
}
