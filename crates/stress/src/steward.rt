// The steward of a run.
ghost use Rattle.std.specs.Prelude.{◌≡◌};

use arena::{Arena, NoGate, Stepped, Steward};
use certificate::Certificate;
use fold::Step;
use mesh_graph::{AtHand, ByThreads, Entry, MOST_GROUPS};
use std::sync::Wait;
use std::thread::Threads;

/// What came of the marks of a run and of their steps.
#[derive(Clone, Copy, PartialEq, Eq, Debug)]
pub struct Marks {
    /// How many marks were made.
    pub made: usize,
    /// How many were refused.
    pub refused: usize,
    /// How many handed out other groups or slots than the arena's totals told just before.
    pub miscounted: usize,
    /// How many groups were folded.
    pub folded: usize,
    /// How many steps named a group that was not there, or groups that clashed, or were refused.
    pub missed: usize,
}

impl Marks {
    /// No mark was made.
    pub fn none() -> Marks {
        Marks {
            made: 0,
            refused: 0,
            miscounted: 0,
            folded: 0,
            missed: 0,
        }
    }
}

/// A steward at its arena.
#[derive(Drop)]
pub struct Keeper<'a> {
    pub arena: &'a Arena<NoGate>,
    pub steward: Steward,
    pub marks: Marks,
    ghost fits: { steward.limits ≡ arena.now.limits },
}

impl<'a> Keeper<'a> {
    /// The keeper of this steward, or `None` where the steward is that of an arena of other
    /// numbers.
    pub fn new(arena: &'a Arena<NoGate>, steward: Steward) -> Option<Keeper<'a>> {
        if !steward.fits(arena) {
            return None;
        }
        Some(Keeper {
            arena,
            steward,
            marks: Marks::none(),
        })
    }

    /// A mark, the steps of its plan where they are wanted, and its close. What the mark hands out
    /// is counted beside what the arena's totals tell just before, so no worker may run meanwhile.
    /// Threads fill the rows, however few there are.
    pub fn mark_alone<R: Threads + Wait + Sync>(&mut self, rt: &R, takes_steps: bool) {
        let totals = self.arena.totals(rt);
        let runner = ByThreads::from_steps(rt, 0);
        match self.arena.mark(rt, &runner, &mut self.steward) {
            Ok(found) => {
                self.marks.made = self.marks.made.saturating_add(1);
                if handed_out(&found) != (totals.pages, totals.live) {
                    self.marks.miscounted = self.marks.miscounted.saturating_add(1);
                }
            }
            Err(_) => {
                self.marks.refused = self.marks.refused.saturating_add(1);
            }
        }
        if takes_steps {
            self.take_steps(rt);
        }
        self.arena.close(rt, &mut self.steward);
    }

    /// That many marks, each with its steps and its close, beside whoever runs.
    pub fn mark_beside<R: Wait>(&mut self, rt: &R, count: usize) {
        for _ in 0..count {
            if self.arena.mark_some(rt, &AtHand, &mut self.steward).is_ok() {
                self.marks.made = self.marks.made.saturating_add(1);
            } else {
                self.marks.refused = self.marks.refused.saturating_add(1);
            }
            self.take_steps(rt);
            self.arena.close(rt, &mut self.steward);
        }
    }

    // The steps of the open plan that are left.
    fn take_steps<R: Wait>(&mut self, rt: &R) {
        for _ in 0..MOST_GROUPS {
            match self.arena.step(rt, &mut self.steward) {
                Ok(Stepped::NoPairLeft | Stepped::NoPlan) => {
                    return;
                }
                Ok(Stepped::Taken(_, _, Step::Folded)) => {
                    self.marks.folded = self.marks.folded.saturating_add(1);
                }
                Ok(Stepped::Taken(_, _, Step::Emptied)) => {}
                Ok(Stepped::Taken(_, _, Step::Absent | Step::Clash)) | Err(_) => {
                    self.marks.missed = self.marks.missed.saturating_add(1);
                }
            }
        }
    }
}

// How many groups the mark handed out, on both sides, and how many slots of them are occupied.
fn handed_out(found: &Certificate) -> (usize, usize) {
    let abandoned = found.snapshot.abandoned();
    let owned = found.snapshot.owned();
    (
        abandoned.len().saturating_add(owned.len()),
        slots_of(abandoned).saturating_add(slots_of(owned)),
    )
}

fn slots_of(entries: &[Entry]) -> usize {
    let mut slots = 0usize;
    for entry in entries {
        slots = slots.saturating_add(entry.occupied.count() as usize);
    }
    slots
}
