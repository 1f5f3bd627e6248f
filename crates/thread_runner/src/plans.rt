// The steward of a run, and what the report tells of its plans.
ghost use Rattle.std.specs.Prelude.{◌≡◌, ◌+◌, ◌<◌, ◌^◌, ℕ, IfOk, IfSome, List, None, OnOk, false, map, true};
ghost use Rattle.marks.specs.Plans.{next_pair};
ghost use Rattle.trace_text.specs.declared.line.Line.{Line};
ghost use Rattle.thread_runner.specs.Marked.{barrier_from, is_mark_at, taken_pair};
ghost use Rattle.thread_runner.specs.Noted.{pairs_done, pairs_left, plan_pairs};

use crate::body::Note;
use crate::error::Halt;
use crate::minutes::Minutes;
use arena::{Arena, Gate, Stepped, Steward};
use marks::MarkError;
use mesh_graph::ByThreads;
use std::alloc::{AllocError, Global};
use std::sync::Wait;
use std::thread::Threads;
use trace_runner::{Steps, TakenStep};

/// The steward at its arena, and the minutes of its marks.
#[derive(Drop)]
pub(crate) struct Plans<'a, G: Gate> {
    alloc: Global,
    arena: &'a Arena<G>,
    steward: Steward,
    /// Whether a plan is open of which a pair may be left.
    has_steps: bool,
    /// The steps of the open plan so far.
    taken: Steps,
    /// What came of the marks so far.
    minutes: Minutes,
    ghost fits: { steward.limits ≡ arena.now.limits },
    ghost underway: { map taken_pair taken ≡ pairs_done steward.plan },
}

// Takes the next step of the steward's plan, and says whether there was one.
fn take_step<R: Wait, G: Gate>(
    rt: &R,
    arena: &Arena<G>,
    steward: &mut Steward,
    taken: &mut Steps,
) -> Result<bool, AllocError>
    requires fits { steward.old.limits ≡ arena.now.limits }
    requires underway { map taken_pair taken.old ≡ pairs_done steward.old.plan }
    ensures limits { steward.new.limits ≡ steward.old.limits }
    ensures pairs { plan_pairs steward.new.plan ≡ plan_pairs steward.old.plan }
    ensures underway { OnOk result (map taken_pair taken.new ≡ pairs_done steward.new.plan) }
    ensures left { IfOk result (λ found. found ≡ true
        → pairs_left steward.new.plan < pairs_left steward.old.plan) }
    ensures none { IfOk result (λ found. found ≡ false
        → next_pair steward.new.plan ≡ None) }
{
    match arena.step(rt, steward)? {
        Stepped::Taken(abandoned, owned, outcome) => {
            taken.push(TakenStep {
                abandoned,
                owned,
                outcome,
            })?;
            Ok(true)
        }
        Stepped::NoPairLeft => Ok(false),
        Stepped::NoPlan => Ok(false),
    }
}

// Takes the steps of the steward's plan that are left.
fn take_steps<R: Wait, G: Gate>(
    rt: &R,
    arena: &Arena<G>,
    steward: &mut Steward,
    taken: &mut Steps,
) -> Result<(), AllocError>
    requires fits { steward.old.limits ≡ arena.now.limits }
    requires underway { map taken_pair taken.old ≡ pairs_done steward.old.plan }
    ensures limits { steward.new.limits ≡ steward.old.limits }
    ensures pairs { OnOk result (plan_pairs steward.new.plan ≡ plan_pairs steward.old.plan) }
    ensures underway { OnOk result (map taken_pair taken.new ≡ pairs_done steward.new.plan) }
    ensures none { OnOk result (next_pair steward.new.plan ≡ None) }
{
    while take_step(rt, arena, steward, taken)? {}
    Ok(())
}

impl<'a, G: Gate> Plans<'a, G> {
    ghost use Rattle.thread_runner.specs.Sections.{NotesAll, NotesTo};

    /// The plans of this steward, which has none open, or `None` if the steward is that of an
    /// arena of other numbers.
    pub(crate) fn new(alloc: Global, arena: &'a Arena<G>, steward: Steward) -> Option<Plans<'a, G>>
        requires { steward.plan ≡ None }
        ensures { (lines : List Line) → IfSome result (NotesTo lines 0) }
    {
        if !steward.fits(arena) {
            return None;
        }
        Some(Plans {
            alloc,
            arena,
            steward,
            has_steps: false,
            taken: Steps::new(alloc),
            minutes: Minutes::new(alloc),
        })
    }

    /// Whether a pair of the open plan may be left.
    pub(crate) fn has_steps(&self) -> bool {
        self.has_steps
    }

    /// Takes the steps of the open plan that are left.
    pub(crate) fn stepped<R: Wait>(self, rt: &R) -> Result<Plans<'a, G>, AllocError>
        ensures pairs { IfOk result (λ plans. plan_pairs plans.steward.plan
            ≡ plan_pairs self.entry.steward.plan) }
        ensures minutes { IfOk result (λ plans. plans.minutes ≡ self.entry.minutes) }
    {
        let Plans {
            alloc,
            arena,
            mut steward,
            mut taken,
            minutes,
            ..
        } = self;
        take_steps(rt, arena, &mut steward, &mut taken)?;
        Ok(Plans {
            alloc,
            arena,
            steward,
            has_steps: false,
            taken,
            minutes,
        })
    }

    /// Ends the open plan, if there is one: takes the steps that are left, and closes it, which is
    /// told at the barrier that begins at that place.
    pub(crate) fn end_open<R: Wait>(
        self,
        rt: &R,
        barrier: usize,
    ) -> Result<Plans<'a, G>, AllocError>
        requires { barrier < 2 ^ 63 }
        ensures ended { IfOk result (λ plans. plans.steward.plan ≡ None) }
        ensures minutes { (lines : List Line) (above : ℕ) → NotesTo lines above self.entry
            → barrier ≡ barrier_from lines above → IfOk result (NotesAll lines above) }
    {
        let Plans {
            alloc,
            arena,
            mut steward,
            mut taken,
            mut minutes,
            ..
        } = self;
        take_steps(rt, arena, &mut steward, &mut taken)?;
        if arena.close(rt, &mut steward) {
            minutes.closed(barrier, taken, arena.totals(rt).pages)?;
        }
        Ok(Plans {
            alloc,
            arena,
            steward,
            has_steps: false,
            taken: Steps::new(alloc),
            minutes,
        })
    }

    /// Makes the mark at that place, where no plan is open.
    pub(crate) fn mark<R: Wait + Threads + Sync>(
        &mut self,
        rt: &R,
        place: usize,
    ) -> Result<(), Halt>
        requires unplanned { self.old.steward.plan ≡ None }
        requires place { place < 2 ^ 63 }
        ensures { (lines : List Line) → NotesAll lines place self.old
            → is_mark_at lines place ≡ true → OnOk result (NotesTo lines (place + 1) self.new) }
    {
        let runner = ByThreads::new(rt);
        let pieces = self.arena.limits.shards() as usize;
        match self.arena.mark(rt, &runner, &mut self.steward) {
            Ok(certificate) => {
                self.has_steps = true;
                let pages = self.arena.totals(rt).pages;
                self.minutes
                    .planned(&runner, self.alloc, pieces, place, certificate, pages)?;
                Ok(())
            }
            Err(MarkError::TooMany) => {
                self.minutes.refused(place)?;
                Ok(())
            }
            Err(MarkError::OutOfMemory) => Err(Halt::OutOfMemory),
            Err(MarkError::Doubled | MarkError::PlanOpen) => Err(Halt::Doubled),
        }
    }

    /// What the report tells of the marks, in order, and the text of the certificate of the last
    /// that planned; empty where none did.
    pub(crate) fn into_notes(self) -> (Vec<Note>, Vec<u8>)
        ensures notes { result.0 ≡ self.entry.minutes.notes }
        ensures certificate { result.1 ≡ self.entry.minutes.certificate }
    {
        self.minutes.into_parts()
    }
}
