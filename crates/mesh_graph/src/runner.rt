// Who fills the rows of a graph.
ghost use Rattle.std.specs.Prelude.{◌≡◌, ◌*◌, ◌≤◌, ◌<◌, length};
ghost use denote.Param.Send.{IsSync};
ghost use Rattle.bitmap.specs.declared.bits.TheConstants.{SLOTS};
ghost use Rattle.lane_kernels.specs.Rows.{AreSlotRows, padded, width_of};
ghost use Rattle.mesh_graph.specs.Masked.{AreAsWide};
ghost use Rattle.mesh_graph.specs.Rows.{AreRowsOfRun, AreSlotsOfRun, HaveRows, IsRun};

use crate::build::write_rows;
use crate::by_class::Masks;
use bitmap::SLOTS;
use lane_kernels::{Planes, SlotRows};
use rayon::prelude::*;
use span::names::Entry;
use std::thread::Threads;

/// From how many steps on threads are worth their beginning. A step is a slot of a group and 64
/// groups of the other side.
pub const LEAST_BY_THREADS: usize = 1 << 23;

/// Who fills the rows of a graph, whose bits do not depend on it: [`AtHand`] or [`ByThreads`].
pub trait Runner {
    /// What it needs to go on: that its threads may share what they are lent.
    ghost ready: { Self → Type 0 };

    /// In how many pieces it fills rows that take so many steps together, where its caller asks for
    /// so many pieces.
    fn pieces(&self, steps: usize, pieces: usize) -> usize
        requires { 1 ≤ pieces }
        ensures { 1 ≤ result };

    /// Fills the rows of all slots, one after another, in so many runs of neighbours if it goes by
    /// runs: bit j of a slot's row says whether set j has the slot.
    fn fill_slots(&self, planes: &Planes, pieces: usize, rows: &mut [u64])
        requires ready { ready self.now }
        requires pieces { 1 ≤ pieces }
        requires rows { length rows.old ≡ padded (width_of (length planes.now)) * SLOTS }
        ensures len { length rows.new ≡ length rows.old }
        ensures rows { AreSlotRows planes.now rows.new };

    /// Fills the rows of the groups, one after another, in so many runs of neighbours if it goes by
    /// runs.
    fn fill(
        &self,
        abandoned: &[Entry],
        sets: &SlotRows,
        masks: &Option<Masks>,
        pieces: usize,
        rows: &mut [u64],
    )
        requires ready { ready self.now }
        requires masks { AreAsWide masks.now (width_of (length sets.now)) }
        requires pieces { 1 ≤ pieces }
        requires rows { length rows.old ≡ width_of (length sets.now) * length abandoned.now }
        ensures len { length rows.new ≡ length rows.old }
        ensures rows { HaveRows abandoned.now sets.now masks.now (length abandoned.now) rows.new };
}

/// Fills all rows on the thread that asks, in one piece.
#[derive(Clone, Copy)]
pub struct AtHand;

impl Runner for AtHand {
    ghost ready = { λ _. Unit {0} };

    fn pieces(&self, _steps: usize, _pieces: usize) -> usize {
        1
    }

    fn fill_slots(&self, planes: &Planes, _pieces: usize, rows: &mut [u64]) {
        planes.fill_slots(0, SLOTS, rows);
    }

    fn fill(
        &self,
        abandoned: &[Entry],
        sets: &SlotRows,
        masks: &Option<Masks>,
        _pieces: usize,
        rows: &mut [u64],
    ) {
        write_rows(abandoned, sets, masks, rows);
    }
}

/// Fills the rows by threads, a piece on each, which begin and end within the call. On cores that
/// others use such a thread may wait for milliseconds before it begins, so rows that take fewer
/// steps are filled at hand.
#[derive(Drop)]
pub struct ByThreads<'a, R: Threads + Sync> {
    rt: &'a R,
    least: usize,
}

impl<'a, R: Threads + Sync> ByThreads<'a, R> {
    /// By threads from [`LEAST_BY_THREADS`] steps on.
    pub fn new(rt: &'a R) -> ByThreads<'a, R> {
        ByThreads {
            rt,
            least: LEAST_BY_THREADS,
        }
    }

    /// By threads from so many steps on.
    pub fn from_steps(rt: &'a R, least: usize) -> ByThreads<'a, R> {
        ByThreads { rt, least }
    }
}

impl<'a, R: Threads + Sync> Runner for ByThreads<'a, R> {
    ghost ready = { λ _. IsSync R.row };

    fn pieces(&self, steps: usize, pieces: usize) -> usize {
        if steps < self.least { 1 } else { pieces }
    }

    fn fill_slots(&self, planes: &Planes, pieces: usize, rows: &mut [u64]) {
        if pieces == 1 || planes.len() == 0 {
            planes.fill_slots(0, SLOTS, rows);
            return;
        }
        let run = SLOTS.div_ceil(pieces).max(1).min(SLOTS);
        fill_runs_of_slots(self.rt, planes, run, rows);
    }

    fn fill(
        &self,
        abandoned: &[Entry],
        sets: &SlotRows,
        masks: &Option<Masks>,
        pieces: usize,
        rows: &mut [u64],
    ) {
        if pieces == 1 || sets.len() == 0 || abandoned.len() < 2 {
            write_rows(abandoned, sets, masks, rows);
            return;
        }
        let run = abandoned.len().div_ceil(pieces).max(1).min(abandoned.len());
        fill_runs(self.rt, abandoned, sets, masks, run, rows);
    }
}

// Fills the rows of each run of so many slots, and of those that are left, on threads.
fn fill_runs_of_slots<R: Threads + Sync>(rt: &R, planes: &Planes, run: usize, rows: &mut [u64])
    requires some { 1 ≤ length planes.now }
    requires run { 1 ≤ run }
    requires within { run ≤ SLOTS }
    requires rows { length rows.old ≡ padded (width_of (length planes.now)) * SLOTS }
    ensures len { length rows.new ≡ length rows.old }
    ensures rows { AreSlotRows planes.now rows.new }
{
    par_chunks_mut_for_each(
        rt,
        rows,
        planes.slot_words() * run,
        |start: usize, part: &mut [u64]|
            requires { IsRun (padded (width_of (length planes.now))) SLOTS start (length part.old) }
            ensures { (length part.new ≡ length part.old)
                × AreSlotsOfRun planes.entry.now start (length part.old) part.new }
        { write_run_of_slots(planes, start, part) },
    );
}

// Fills the rows of the run of slots whose first row begins at a word.
fn write_run_of_slots(planes: &Planes, start: usize, part: &mut [u64])
    requires { IsRun (padded (width_of (length planes.now))) SLOTS start (length part.old) }
    ensures len { length part.new ≡ length part.old }
    ensures rows { AreSlotsOfRun planes.now start (length part.old) part.new }
{
    let words = planes.slot_words();
    planes.fill_slots(start / words, part.len() / words, part);
}

// Fills the rows of each run of so many neighbours, and of those that are left, on threads.
fn fill_runs<R: Threads + Sync>(
    rt: &R,
    abandoned: &[Entry],
    sets: &SlotRows,
    masks: &Option<Masks>,
    run: usize,
    rows: &mut [u64],
)
    requires some { 1 ≤ length sets.now }
    requires run { 1 ≤ run }
    requires within { run ≤ length abandoned.now }
    requires masks { AreAsWide masks.now (width_of (length sets.now)) }
    requires rows { length rows.old ≡ width_of (length sets.now) * length abandoned.now }
    ensures len { length rows.new ≡ length rows.old }
    ensures rows { HaveRows abandoned.now sets.now masks.now (length abandoned.now) rows.new }
{
    par_chunks_mut_for_each(
        rt,
        rows,
        sets.row_words() * run,
        |start: usize, part: &mut [u64]|
            requires { IsRun (width_of (length sets.now)) (length abandoned.now) start
                (length part.old) × AreAsWide masks.now (width_of (length sets.now)) }
            ensures { (length part.new ≡ length part.old) × AreRowsOfRun abandoned.entry.now
                sets.entry.now masks.entry.now start (length part.old) part.new }
        { write_run(abandoned, sets, masks, start, part) },
    );
}

// Fills the rows of the run of neighbours whose first row begins at a word.
fn write_run(
    abandoned: &[Entry],
    sets: &SlotRows,
    masks: &Option<Masks>,
    start: usize,
    part: &mut [u64],
)
    requires run { IsRun (width_of (length sets.now)) (length abandoned.now) start
        (length part.old) }
    requires masks { AreAsWide masks.now (width_of (length sets.now)) }
    ensures len { length part.new ≡ length part.old }
    ensures rows { AreRowsOfRun abandoned.now sets.now masks.now start (length part.old) part.new }
{
    let words = sets.row_words();
    let first = start / words;
    let count = part.len() / words;
    write_rows(&abandoned[first..first + count], sets, masks, part);
}
