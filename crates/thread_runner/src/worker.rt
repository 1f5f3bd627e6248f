// Who runs a thread's lines.
ghost use Rattle.std.specs.Prelude.{◌≡◌, ◌+◌, ◌<◌, ◌≤◌, ◌^◌, ℕ, Bool, IfOk, IfSome, List, OnOk, Option, Some, [], false, slice_get, take, true};
ghost use Rattle.std.proofs.Props.{props};
ghost use Rattle.arena.specs.Delays.{HasNoneWaiting};
ghost use Rattle.arena.specs.Seats.{Table};
ghost use Rattle.trace_text.specs.Causes.{is_adopt, marks};
ghost use Rattle.trace_text.specs.declared.line.Line.{Line};
ghost use Rattle.thread_runner.specs.Asked.{GivenKeys};
ghost use Rattle.thread_runner.specs.Followed.{carried_by};
ghost use Rattle.thread_runner.specs.Grown.{IsDiaryOf, Tracks};
ghost use Rattle.thread_runner.specs.Known.{AreFresh, AreKept, AreKnown};
ghost use Rattle.thread_runner.specs.declared.keys.Given.{Given};

use crate::caller::Caller;
use crate::diary::Diary;
use crate::error::Halt;
use crate::keys::{Given, Keys};
use crate::layout::Text;
use arena::{Arena, Gate, Seat};
use std::alloc::{AllocError, Global};
use std::marker::{Brand, PhantomData};
use std::sync::Wait;
use trace_runner::Line;

/// What a run reads, which proofs alone know: so that each worker's type says whose lines it
/// follows.
pub(crate) trait Reading: Send + Sync {
    /// The lines of the trace below its header.
    ghost lines: { List Line };

    /// Whether the report has the replies.
    ghost shown: { Bool };

    /// The rings of the arena.
    ghost table: { Table };
}

/// Whoever calls a function for the brand picks what it reads.
impl Reading for Brand {
    ghost lines = { [] };

    ghost shown = { false };

    ghost table = { record { rows = []; columns = [] } };
}

/// What a section begins with, which proofs alone know: so that the type of each of its workers
/// says what that worker knows.
pub(crate) trait Known: Send + Sync {
    /// What is kept of the puts of the sections before.
    ghost kept: { List Given };

    /// The section's number.
    ghost section: { ℕ };
}

/// Whoever calls a function for the brand picks what is known.
impl Known for Brand {
    ghost kept = { [] };

    ghost section = { 0 };
}

/// What all workers of a section are told.
#[derive(Drop)]
pub(crate) struct Briefing<'k, J: Reading, K: Known> {
    /// What the puts of the sections before gave.
    pub(crate) keys: &'k Keys,
    /// The place of its first line.
    pub(crate) from: usize,
    /// The place below its last line that is a thread's, where the barrier begins.
    pub(crate) end: usize,
    pub(crate) of: PhantomData<J>,
    pub(crate) at: PhantomData<K>,
    ghost known: { keys.now.kept.items ≡ K.kept } by { Prim.hlevel props },
    ghost one: { (place : ℕ) → from ≤ place → place < end
        → marks (take place J.lines) ≡ K.section } by { Prim.hlevel props },
}

/// A thread of the trace between two sections.
#[derive(Drop)]
pub(crate) struct Resting<'a, G: Gate> {
    caller: Caller<'a, G>,
    /// How many of its lines it has run.
    done: usize,
}

impl<'a, G: Gate> Resting<'a, G> {
    ghost use Rattle.thread_runner.specs.Sections.{IsResting, IsUnused};

    /// The thread in this seat before the first section, or `None` where the seat is that of an
    /// arena of other numbers.
    pub(crate) fn new(
        alloc: Global,
        arena: &'a Arena<G>,
        text: &Text<'_>,
        seat: Seat,
    ) -> Option<Resting<'a, G>>
        ensures { (kept : List Given) → IsUnused seat → IfSome result (IsResting
            text.now.trace.now.lines.items text.now.replies seat.table (AreKept kept) 0) }
    {
        let caller = Caller::new(alloc, arena, text.replies, seat)?;
        Some(Resting { caller, done: 0 })
    }
}

/// A thread of the trace in a section, which tells what the lines that it has run ask for.
#[derive(Drop)]
pub(crate) struct Worker<'a, G: Gate, J: Reading, K: Known> {
    text: &'a Text<'a>,
    caller: Caller<'a, G>,
    /// How many of its lines it has run.
    done: usize,
    of: PhantomData<J>,
    at: PhantomData<K>,
    ghost rows: { caller.seat.table.rows ≡ J.table.rows } by { Prim.hlevel props },
    ghost columns: { caller.seat.table.columns ≡ J.table.columns } by { Prim.hlevel props },
    ghost reads: { text.now.trace.now.lines.items ≡ J.lines } by { Prim.hlevel props },
    ghost section: { caller.seat.section ≡ K.section } by { Prim.hlevel props },
    ghost tracks: { Tracks J.lines J.shown (AreKnown K.kept caller.fresh.items) caller.seat.worker
        done K.section caller.diary (carried_by caller.seat) } by { Prim.hlevel props },
}

/// A worker at the barrier that ends a section, which has taken and freed the keys that had come in
/// on its rings.
#[derive(Drop)]
pub(crate) struct Settled<'a, G: Gate, J: Reading, K: Known> {
    text: &'a Text<'a>,
    caller: Caller<'a, G>,
    /// How many of its lines it has run, with the adoptions by its shard.
    done: usize,
    of: PhantomData<J>,
    at: PhantomData<K>,
    ghost rows: { caller.seat.table.rows ≡ J.table.rows } by { Prim.hlevel props },
    ghost columns: { caller.seat.table.columns ≡ J.table.columns } by { Prim.hlevel props },
    ghost reads: { text.now.trace.now.lines.items ≡ J.lines } by { Prim.hlevel props },
    ghost section: { caller.seat.section ≡ K.section } by { Prim.hlevel props },
    ghost tracks: { Tracks J.lines J.shown (AreKnown K.kept caller.fresh.items) caller.seat.worker
        done (K.section + 1) caller.diary (carried_by caller.seat) } by { Prim.hlevel props },
}

/// A worker at a barrier that has handed over the keys that its lines left to the threads of
/// shards: none waits at its seat.
#[derive(Drop)]
pub(crate) struct SentOff<'a, G: Gate, J: Reading, K: Known> {
    worker: Worker<'a, G, J, K>,
    ghost none_waits: { HasNoneWaiting worker.caller.seat },
}

impl<'a, G: Gate, J: Reading, K: Known> SentOff<'a, G, J, K> {
    /// Frees the keys that are on the rings to its shard: all that were left to it, where all
    /// workers have sent off theirs.
    pub(crate) fn settled<R: Wait>(self, rt: &R) -> Result<Settled<'a, G, J, K>, AllocError>
        ensures { IfOk result (λ settled. settled.caller.seat.worker
            ≡ self.entry.worker.caller.seat.worker) }
    {
        let Worker {
            text,
            mut caller,
            done,
            of,
            at,
        } = self.worker;
        caller.settle(rt)?;
        Ok(Settled {
            text,
            caller,
            done,
            of,
            at,
        })
    }
}

impl<'a, G: Gate, J: Reading, K: Known> Worker<'a, G, J, K> {
    ghost use Rattle.thread_runner.specs.Sections.{IsResting};

    /// The thread in a section, where so much is known of it.
    pub(crate) fn new(text: &'a Text<'a>, resting: Resting<'a, G>) -> Worker<'a, G, J, K>
        requires lines { text.now.trace.now.lines.items ≡ J.lines }
        requires rests { IsResting J.lines J.shown J.table (AreKept K.kept) K.section resting }
    {
        let Resting { caller, done } = resting;
        Worker {
            text,
            caller,
            done,
            of: PhantomData,
            at: PhantomData,
        }
    }

    /// Its thread's number.
    pub(crate) fn thread(&self) -> u32
        ensures { result ≡ self.now.caller.seat.worker }
    {
        self.caller.thread()
    }

    /// Whether it has a line to run above the line at that place.
    pub(crate) fn has_lines(&self, end: usize) -> bool {
        self.text
            .layout
            .line_after(self.thread(), self.done, end)
            .is_some()
    }

    /// Runs its lines of the section. It halts where one of an earlier section is left.
    pub(crate) fn run<R: Wait>(
        self,
        rt: &R,
        told: &Briefing<'_, J, K>,
    ) -> Result<Worker<'a, G, J, K>, Halt> {
        let Worker {
            text,
            mut caller,
            mut done,
            of,
            at,
        } = self;
        let end = told.end;
        caller.reserve(text.layout.lines_between(caller.thread(), done, end))?;
        for _ in 0..text.trace.lines.len() {
            let next = text.layout.line_after(caller.thread(), done, end);
            let Some(place) = next else {
                break;
            };
            if place < told.from {
                return Err(Halt::Doubled);
            }
            caller.line(rt, text, told.keys, place)?;
            done += 1;
        }
        Ok(Worker {
            text,
            caller,
            done,
            of,
            at,
        })
    }

    /// Hands over the keys that its lines left to the threads of their shards.
    pub(crate) fn sent_off(self) -> SentOff<'a, G, J, K>
        ensures { result.worker.caller.seat.worker ≡ self.entry.caller.seat.worker }
    {
        let mut worker = self;
        worker.caller.send_off();
        SentOff { worker }
    }

    /// Abandons its shard, if its thread ended in this section.
    pub(crate) fn leave<R: Wait>(&mut self, rt: &R) -> Result<(), Halt> {
        self.caller.leave(rt)
    }

    /// Its seat, and what it was told, where it has run all its lines and has no key that is not
    /// kept. It has come to all barriers.
    pub(crate) fn taken_apart(self) -> Result<(Seat, Diary), Halt>
        requires { K.section ≡ marks J.lines + 1 }
        ensures seat { IfOk result (λ parts. parts.0.table ≡ J.table) }
        ensures diary { (given : GivenKeys) → AreKept K.kept given → IfOk result (λ parts. IsDiaryOf
            J.lines J.shown given self.entry.caller.seat.worker parts.1 (carried_by parts.0)) }
    {
        let Worker {
            text,
            caller,
            done,
            ..
        } = self;
        if !text.layout.has_no_line_after(caller.thread(), done) {
            return Err(Halt::Doubled);
        }
        if !caller.has_none_fresh() {
            return Err(Halt::Doubled);
        }
        Ok(caller.taken_apart())
    }
}

impl<'a, G: Gate, J: Reading, K: Known> Settled<'a, G, J, K> {
    ghost use Rattle.thread_runner.specs.Sections.{IsResting};

    /// Its thread's number.
    pub(crate) fn thread(&self) -> u32
        ensures { result ≡ self.now.caller.seat.worker }
    {
        self.caller.thread()
    }

    /// Lets its shard adopt a group, as the line at that place asks, which is the next of its
    /// thread. It halts where that is another.
    pub(crate) fn adopt<R: Wait>(self, rt: &R, place: usize) -> Result<Settled<'a, G, J, K>, Halt>
        requires place { place < 2 ^ 63 }
        requires section { marks (take place J.lines) ≡ K.section }
        requires adopts { (line : Line) → slice_get J.lines place ≡ Some line
            → is_adopt line ≡ true }
    {
        let Settled {
            text,
            mut caller,
            done,
            of,
            at,
        } = self;
        let next = text.layout.line_after(caller.thread(), done, place + 1);
        let Some(next) = next else {
            return Err(Halt::Doubled);
        };
        if next != place {
            return Err(Halt::Doubled);
        }
        caller.adopt(rt, place + 6)?;
        Ok(Settled {
            text,
            caller,
            done: done + 1,
            of,
            at,
        })
    }

    /// Adds what its puts of the section gave to what those of other threads gave in it, and ends
    /// the section.
    pub(crate) fn rested(self, latest: &mut Vec<Given>) -> Result<Resting<'a, G>, Halt>
        ensures before { (given : GivenKeys) → AreFresh latest.new.items given
            → OnOk result (AreFresh latest.old.items given) }
        ensures rests { IfOk result (IsResting J.lines J.shown J.table
            (AreKnown K.kept latest.new.items) (K.section + 1)) }
    {
        let Settled {
            mut caller,
            done,
            ..
        } = self;
        caller.go_on(latest)?;
        Ok(Resting { caller, done })
    }
}
