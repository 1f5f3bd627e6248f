// Builds the graph of a snapshot.
ghost use Rattle.std.specs.Prelude.{◌≡◌, ◌↔◌, ◌+◌, ◌/◌, ◌<◌, ◌≤◌, ◌⊎◌, ℕ, Err, length, map, IfOk};
ghost use Rattle.std.specs.Prelude.{◌*◌, take};
ghost use Rattle.bitmap.specs.Slots.{has_bit};
ghost use Rattle.lane_kernels.specs.Rows.{row_at, width_of};
ghost use Rattle.mesh_graph.specs.Masked.{AreAsWide};
ghost use Rattle.mesh_graph.specs.Rows.{HaveRows, row_bit};
ghost use Rattle.mesh_graph.specs.declared.build.BuildError.TheVariants.{OutOfMemory, TooMany};
ghost use Rattle.mesh_graph.specs.declared.build.TheConstants.{MOST_GROUPS};

use crate::by_class::{Masks, keep_class};
use crate::graph::Graph;
use crate::runner::Runner;
use crate::snapshot::Snapshot;
use lane_kernels::{LEAST_BY_SLOTS, MOST_BY_SLOTS, Planes, SlotRows};
use span::names::Entry;
use std::alloc::{AllocError, Global};

/// The most groups that a graph has on a side.
pub const MOST_GROUPS: usize = 4096;

/// Why a graph was not built.
#[derive(Clone, Copy, PartialEq, Eq, Debug, thiserror::Error)]
pub enum BuildError {
    /// The rows could not grow.
    #[error("out of memory")]
    OutOfMemory,
    /// The snapshot has more than 4,096 groups on a side.
    #[error("a side has more than 4096 groups")]
    TooMany,
}

impl From<AllocError> for BuildError {
    ghost from_gives = { λ _ e. e ≡ OutOfMemory };

    fn from(_: AllocError) -> BuildError {
        BuildError::OutOfMemory
    }
}

impl<'a> Graph<'a> {
    /// The graph of a snapshot, which is lent to it. The runner fills its rows, in so many `pieces`
    /// at most. `TooMany` comes exactly where a side has more than 4,096 groups, and `OutOfMemory`
    /// where the rows could not grow.
    pub fn build<R: Runner>(
        runner: &R,
        alloc: Global,
        snapshot: &'a Snapshot,
        pieces: usize,
    ) -> Result<Graph<'a>, BuildError>
        requires pieces { 1 ≤ pieces }
        requires ready { R.ready runner.now }
        ensures graph { IfOk result (λ graph. graph ≡ snapshot.now) }
        ensures too_many { (result ≡ Err TooMany) ↔ ((MOST_GROUPS < length snapshot.now.abandoned)
            ⊎ (MOST_GROUPS < length snapshot.now.owned)) }
    {
        if snapshot.abandoned().len() > MOST_GROUPS {
            return Err(BuildError::TooMany);
        }
        if snapshot.owned().len() > MOST_GROUPS {
            return Err(BuildError::TooMany);
        }
        let pieces = pieces_of(runner, snapshot, pieces);
        let planes = planes_of(alloc, snapshot.owned())?;
        let sets = sets_by_slots(runner, alloc, planes, snapshot.abandoned().len(), pieces)?;
        let masks = Masks::of(alloc, snapshot.abandoned(), snapshot.owned())?;
        let mut rows = empty_rows(alloc, &sets, snapshot.abandoned().len())?;
        runner.fill(snapshot.abandoned(), &sets, &masks, pieces, &mut rows);
        Ok(Graph { snapshot, rows })
    }
}

/// How many steps the rows of the groups take over so many sets: one for each slot of a group and
/// 64 sets. A group with more slots than [`MOST_BY_SLOTS`] counts as one with that number, since
/// its row goes by words. No clause says the number: it decides how many threads fill rows, and no
/// row depends on it.
pub fn steps_over(groups: &[Entry], sets: usize) -> usize {
    let mut slots = 0usize;
    for entry in groups {
        slots = slots.saturating_add(entry.occupied.count().min(MOST_BY_SLOTS) as usize);
    }
    slots.saturating_mul(sets.div_ceil(64))
}

// In how many pieces the runner fills the rows of the snapshot's graph.
fn pieces_of<R: Runner>(runner: &R, snapshot: &Snapshot, pieces: usize) -> usize
    requires { 1 ≤ pieces }
    ensures { 1 ≤ result }
{
    let steps = steps_over(snapshot.abandoned(), snapshot.owned().len());
    runner.pieces(steps, pieces)
}

// The sets of the groups, side by side.
fn planes_of(alloc: Global, groups: &[Entry]) -> Result<Planes, AllocError>
    ensures { IfOk result (λ planes. planes ≡ map (λ x. x.occupied) groups.now) }
{
    let mut planes = Planes::new(alloc);
    for entry in groups {
        planes.push(&entry.occupied)?;
    }
    Ok(planes)
}

/// The sets by slots, of which so many rows will be asked for. If that is enough for them to be
/// laid out by slots, the runner fills the rows of the slots, by `pieces` if it goes by pieces.
pub fn sets_by_slots<R: Runner>(
    runner: &R,
    alloc: Global,
    planes: Planes,
    asked: usize,
    pieces: usize,
) -> Result<SlotRows, AllocError>
    requires pieces { 1 ≤ pieces }
    requires ready { R.ready runner.now }
    ensures { IfOk result (λ sets. sets ≡ planes) }
{
    if asked < LEAST_BY_SLOTS {
        return SlotRows::of(alloc, planes, asked);
    }
    let mut rows = planes.empty_slot_rows(alloc)?;
    runner.fill_slots(&planes, pieces, &mut rows);
    SlotRows::with_rows(alloc, planes, rows)
}

// Room for the rows of so many groups, without a bit.
fn empty_rows(alloc: Global, sets: &SlotRows, groups: usize) -> Result<Vec<u64>, AllocError>
    requires groups { groups ≤ MOST_GROUPS }
    requires sets { length sets.now ≤ MOST_GROUPS }
    ensures { IfOk result (λ rows. length rows.items ≡ width_of (length sets.now) * groups) }
{
    let words = sets.row_words();
    vec![in alloc; 0; words * groups]
}

// Fills the rows of a run of neighbours, one after another.
pub(crate) fn write_rows(run: &[Entry], sets: &SlotRows, masks: &Option<Masks>, rows: &mut [u64])
    requires masks { AreAsWide masks.now (width_of (length sets.now)) }
    requires rows { length rows.old ≡ width_of (length sets.now) * length run.now }
    ensures len { length rows.new ≡ length rows.old }
    ensures rows { HaveRows run.now sets.now masks.now (length run.now) rows.new }
{
    for i in 0..run.len() {
        write_row_at(&run[i], sets, masks, i, rows);
    }
}

// Writes row `i` of rows that stand one after another.
fn write_row_at(entry: &Entry, sets: &SlotRows, masks: &Option<Masks>, i: usize, rows: &mut [u64])
    requires masks { AreAsWide masks.now (width_of (length sets.now)) }
    requires within { width_of (length sets.now) * i + width_of (length sets.now)
        ≤ length rows.old }
    ensures len { length rows.new ≡ length rows.old }
    ensures earlier { take (width_of (length sets.now) * i) rows.new
        ≡ take (width_of (length sets.now) * i) rows.old }
    ensures wide { length (row_at (width_of (length sets.now)) rows.new i)
        ≡ width_of (length sets.now) }
    ensures bits { (j : ℕ) → has_bit (row_at (width_of (length sets.now)) rows.new i) j
        ≡ row_bit sets.now masks.now entry.now j }
{
    let words = sets.row_words();
    let start = words * i;
    write_row(entry, sets, masks, &mut rows[start..start + words]);
}

// The row of a group: the sets that share no slot with it, of its class.
fn write_row(entry: &Entry, sets: &SlotRows, masks: &Option<Masks>, row: &mut [u64])
    requires row { length row.old ≡ (length sets.now + 63) / 64 }
    requires masks { AreAsWide masks.now (length row.old) }
    ensures len { length row.new ≡ length row.old }
    ensures bits { (j : ℕ) → has_bit row.new j ≡ row_bit sets.now masks.now entry.now j }
{
    sets.disjoint_row(&entry.occupied, row);
    keep_class(masks, entry.class, row);
}
