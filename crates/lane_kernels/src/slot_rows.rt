// Sets as a row of bits for each slot.
ghost use Rattle.std.specs.Prelude.{◌≡◌, ℕ, ◌+◌, ◌/◌, IfOk, IfSome, length, slice_get};
ghost use Rattle.bitmap.specs.Slots.{has_bit};
ghost use Rattle.lane_kernels.specs.Disjoint.{fits};
ghost use Rattle.lane_kernels.specs.Rows.{AreFewest, AreSlotRows, IsFullRow, width_of};

use crate::by_slots::take_off_all;
use crate::planes::Planes;
use bitmap::{Bits256, SLOTS};
use std::alloc::{AllocError, Global};
use std::marker::Model;

/// Up to how many slots of a set their rows take fewer steps than the words of all sets side by
/// side.
pub const MOST_BY_SLOTS: u32 = 190;

/// From how many rows on it is less to lay the sets out by slots than to go by their words for
/// each.
pub const LEAST_BY_SLOTS: usize = 200;

/// A list of sets as a row of bits for each of the 256 slots: bit j of the row of slot s says
/// whether set j has s. A set is disjoint from those that are in none of its slots' rows, so what
/// is told of it and all the others takes a step for each of its slots and each 64 sets, and not
/// for each set. Where few rows are asked for, the sets' words alone are kept, and answer the same.
#[derive(Drop)]
pub struct SlotRows {
    planes: Planes,
    // One after another; none where few rows are asked for.
    rows: Option<Vec<u64>>,
    // The row of a set that is disjoint from all.
    full: Vec<u64>,
    // The least number of slots that one of the 64 sets of each word of a row has.
    fewest: Vec<usize>,
}

impl Model for SlotRows {
    ghost use Rattle.std.specs.Prelude.{IfSome, List};
    ghost use Rattle.bitmap.specs.Slots.{SlotSet};
    ghost use Rattle.lane_kernels.specs.Rows.{AreFewest, AreSlotRows, IsFullRow};
    ghost use Rattle.std.specs.Coded.{coded_list, coded_ℕ};
    ghost use Rattle.std.specs.FinSet as set;

    ghost Value = { List SlotSet };

    ghost coded = { coded_list (set.code coded_ℕ) };

    ghost view = { λ r. r.planes };

    ghost invariant = { λ r. IfSome r.rows (λ rows. AreSlotRows r.planes rows.items)
        × IsFullRow r.planes r.full.items × AreFewest r.planes r.fewest.items };
}

impl SlotRows {
    /// The rows of these sets, of which so many will be asked for: 32 bytes a set; from
    /// [`LEAST_BY_SLOTS`] on, for each 1,024 sets, begun ones included, 128 bytes more for each
    /// slot; beside them 4 bytes a set while they are made. The error means that memory ran out.
    pub fn of(alloc: Global, planes: Planes, asked: usize) -> Result<SlotRows, AllocError>
        ensures { IfOk result (λ rows. rows ≡ planes) }
    {
        if asked < LEAST_BY_SLOTS {
            return SlotRows::beside(alloc, planes, None);
        }
        let mut rows = planes.empty_slot_rows(alloc)?;
        planes.fill_slots(0, SLOTS, &mut rows);
        SlotRows::with_rows(alloc, planes, rows)
    }

    /// The same over rows that are filled, as [`Planes::fill_slots`] fills them by runs of slots.
    pub fn with_rows(alloc: Global, planes: Planes, rows: Vec<u64>) -> Result<SlotRows, AllocError>
        requires { AreSlotRows planes rows.items }
        ensures { IfOk result (λ made. made ≡ planes) }
    {
        SlotRows::beside(alloc, planes, Some(rows))
    }

    // The sets beside their rows by slots, if there are any.
    fn beside(alloc: Global, planes: Planes, rows: Option<Vec<u64>>) -> Result<SlotRows, AllocError>
        requires { IfSome rows (λ rows. AreSlotRows planes rows.items) }
        ensures { IfOk result (λ made. made ≡ planes) }
    {
        let full = full_row(alloc, &planes)?;
        let fewest = fewest_of(alloc, &planes)?;
        Ok(SlotRows {
            planes,
            rows,
            full,
            fewest,
        })
    }

    /// How many sets there are.
    pub fn len(&self) -> usize
        ensures { result ≡ length self.now }
    {
        self.planes.len()
    }

    /// How many words a row has.
    pub fn row_words(&self) -> usize
        ensures { result ≡ (length self.now + 63) / 64 }
    {
        self.planes.row_words()
    }

    /// Writes the row that [`Planes::disjoint_row`] writes. Where there are no rows by slots, or
    /// the set has more slots than [`MOST_BY_SLOTS`], it goes by the sets' words, and passes over
    /// those 64 sets of which each has so many slots that it must share one of the 256.
    pub fn disjoint_row(&self, set: &Bits256, row: &mut [u64])
        requires { length row.old ≡ (length self.now + 63) / 64 }
        ensures len { length row.new ≡ length row.old }
        ensures bits { (j : ℕ) → has_bit row.new j ≡ fits set.now (slice_get self.now j) }
    {
        match &self.rows {
            Some(rows) if set.count() <= MOST_BY_SLOTS => {
                write_row(set, &self.planes, rows, &self.full, row);
            }
            _ => self.planes.disjoint_row_by_counts(set, &self.fewest, row),
        }
    }
}

// The row of a set that is disjoint from all.
fn full_row(alloc: Global, planes: &Planes) -> Result<Vec<u64>, AllocError>
    ensures { IfOk result (λ row. IsFullRow planes.now row.items) }
{
    let mut row = vec![in alloc; 0; planes.row_words()]?;
    fill_full(planes, &mut row);
    Ok(row)
}

fn fill_full(planes: &Planes, row: &mut [u64])
    requires { length row.old ≡ width_of (length planes.now) }
    ensures { IsFullRow planes.now row.new }
{
    planes.disjoint_row(&Bits256::empty(), row);
}

// The least number of slots of one of the 64 sets of each word of a row.
fn fewest_of(alloc: Global, planes: &Planes) -> Result<Vec<usize>, AllocError>
    ensures { IfOk result (λ fewest. AreFewest planes.now fewest.items) }
{
    let mut counts = vec![in alloc; 0; planes.len()]?;
    planes.count_all(&mut counts);
    let mut fewest = vec![in alloc; SLOTS; planes.row_words()]?;
    for j in 0..counts.len() {
        fewest[j / 64] = fewest[j / 64].min(counts[j] as usize);
    }
    Ok(fewest)
}

// Writes the full row without the rows of the set's slots.
fn write_row(set: &Bits256, planes: &Planes, rows: &[u64], full: &[u64], row: &mut [u64])
    requires rows { AreSlotRows planes.now rows.now }
    requires full { IsFullRow planes.now full.now }
    requires row { length row.old ≡ width_of (length planes.now) }
    ensures len { length row.new ≡ length row.old }
    ensures bits { (j : ℕ) → has_bit row.new j ≡ fits set.now (slice_get planes.now j) }
{
    row.copy_from_slice(full);
    if set.is_disjoint(&planes.union_all()) {
        return;
    }
    // For the prover: the set has no slot past those that have a row.
    let _count = set.count();
    take_off_all(set, rows, row);
}
