//! Runs the lines of a trace on a core.

ghost use Rattle.std.specs.Prelude.{◌≡◌, ◌+◌, ◌≤◌, ◌^◌, ◌<◌, ◌&&◌, ◌||◌, ◌==◌, [], ◌∷◌, true, false, not, List, ℕ, Bool, Some, None, filter, OnOk, IfOk, length, slice_get, take, if◌then◌else◌};
ghost use Rattle.arena_core.specs.State.{CoreState};
ghost use Rattle.trace_text.specs.Barrier.{is_barrier};
ghost use Rattle.trace_runner.specs.Kept.{AreHome, KeepsButText};
ghost use Rattle.trace_runner.specs.Recalls.{CanLeave, Carries, EndsBelow, EndsOne, IsAtRest, IsOpen, IsReady, KnowsPlan, Resumes, Serves, TurnsBelow, has};
ghost use Rattle.trace_text.specs.declared.line.Line.{Line};
ghost use Rattle.trace_text.specs.Causes.{begins, begins_again, call_ends, ends, first_cause, is_adopt, is_call_over};
ghost use Rattle.trace_runner.specs.Made.{Did};
ghost use Rattle.trace_runner.specs.News.{News};
ghost use Rattle.trace_runner.specs.Runs.{ends_asked};
ghost use Rattle.trace_runner.specs.RunState.{CarriesOut, HasRun, IsLeftBy, KeepsKeysAt, KeepsKeysOf, MakesAt, MakesLineAt, asked_in, leavers_in, leaves_at, settling_in};
ghost use Rattle.arena_core.specs.declared.event.Event.{Event};

use crate::plans::Plans;
use crate::replies::Replies;
use crate::rings::settle_rings;
use arena_core::{Core, Event, Refusal, Reply};
use mesh_graph::Runner;
use span::spans::Counted;
use std::alloc::{AllocError, Global};
use std::collections::HashSet;
use trace_text::{Call, Line, LineList, Trace};

mod answers;
mod calls;

/// A run of a trace, as far as it has come.
#[derive(Drop)]
struct Run<'t> {
    trace: &'t Trace,
    core: Core<Counted>,
    replies: Replies,
    /// The threads that have ended, and whose shards wait for the barrier to be abandoned.
    leaving: HashSet<u32>,
    plans: Plans,
}

impl<'t> Run<'t> {
    /// A run of no line yet.
    fn new(alloc: Global, trace: &'t Trace, replies: bool, core: Core<Counted>) -> Run<'t>
        requires { Serves trace.now.header.shards core }
        ensures trace { result.trace.now ≡ trace.now }
        ensures come { HasRun replies 0 core result }
    {
        Run {
            trace,
            core,
            replies: Replies::new(alloc, replies),
            leaving: HashSet::new(alloc),
            plans: Plans::new(alloc),
        }
    }

    /// Does what a thread's line of that number asks for. The first key of the name that it reads
    /// has that place.
    fn thread_line(
        &mut self,
        number: usize,
        thread: u32,
        first: usize,
        call: &Call,
    ) -> Result<(), AllocError>
        // The call is that of a trace.
        requires thread { begins_again call.now ≡ false → IsOpen self.old.core thread }
        requires rests { begins_again call.now ≡ true → IsAtRest self.old.core thread }
        requires within { (above : List Line) × (is_call_over above call.now ≡ false) }
        requires home { AreHome self.old.core.limits.shards self.old.replies.keys.items }
        requires enough { self.old.trace.now.header.shards ≤ self.old.core.limits.shards }

        // What it asks for is made.
        ensures made { (done : List Did) → KeepsKeysOf self.old done first call.now → OnOk result
            (MakesAt number (asked_in self.old done thread call.now) self.old self.new) }

        // All else stays.
        ensures shards { Resumes self.old.core (λ other. begins_again call.now && thread == other)
            self.new.core }
        ensures plans { self.new.plans ≡ self.old.plans }
        ensures leaving { OnOk result ((other : ℕ) → has self.new.leaving other
            ≡ (call_ends other thread call.now || has self.old.leaving other)) }
        ensures trace { self.new.trace.now ≡ self.old.trace.now }
    {
        if call.begins_again() {
            return self.begin(number, thread);
        }
        self.thread_call(number, thread, first, call)
    }

    /// Abandons the shard of a thread that has ended.
    fn end(&mut self, shard: u32) -> Result<(), AllocError>
        // The shard may end.
        requires running { IsOpen self.old.core shard }
        requires unplanned { self.old.core.plan ≡ None }

        // Its end is made.
        ensures made { (news : News) → OnOk result
            (Carries (ends_asked (shard ∷ [])) self.old.core news self.new.core news) }

        // All else stays.
        ensures shards { OnOk result (EndsOne self.old.core shard self.new.core) }
        ensures plan { OnOk result (self.new.core.plan ≡ self.old.core.plan) }
        ensures plans { self.new.plans ≡ self.old.plans }
        ensures replies { self.new.replies ≡ self.old.replies }
        ensures leaving { self.new.leaving ≡ self.old.leaving }
        ensures trace { self.new.trace.now ≡ self.old.trace.now }
    {
        match self.core.step(Event::End { shard }) {
            Reply::ShardEnded => Ok(()),
            Reply::Refused(Refusal::OutOfMemory) => Err(AllocError),
            _ => unreachable!(),
        }
    }

    /// Abandons the shards of the threads that have ended since the last barrier, ascending.
    fn abandon(&mut self) -> Result<(), AllocError>
        // The shards may end.
        requires leave { CanLeave self.old.trace.now.header.shards self.old.core
            (has self.old.leaving) }
        requires unplanned { self.old.core.plan ≡ None }

        // Their ends are made.
        ensures made { (news : News) → OnOk result
            (Carries (ends_asked (leavers_in self.old)) self.old.core news self.new.core news) }

        // All else stays.
        ensures shards { OnOk result (EndsBelow self.old.core self.old.trace.now.header.shards
            (has self.old.leaving) self.new.core) }
        ensures plan { OnOk result (self.new.core.plan ≡ self.old.core.plan) }
        ensures plans { self.new.plans ≡ self.old.plans }
        ensures replies { self.new.replies ≡ self.old.replies }
        ensures leaving { OnOk result ((other : ℕ) → has self.new.leaving other ≡ false) }
        ensures trace { self.new.trace.now ≡ self.old.trace.now }
    {
        let shards = self.trace.header.shards;
        for shard in 0..shards {
            if self.leaving.contains(&shard) {
                self.end(shard)?;
            }
        }
        self.leaving.clear();
        Ok(())
    }

    /// Settles the section: ends the open plan, abandons the shards of the threads that have ended,
    /// and frees the keys that wait on all rings.
    fn settle(&mut self) -> Result<(), AllocError>
        // A section is over.
        requires leave { CanLeave self.old.trace.now.header.shards self.old.core
            (has self.old.leaving) }
        requires knows { KnowsPlan self.old.plans self.old.core }
        requires enough { self.old.trace.now.header.shards ≤ self.old.core.limits.shards }

        // What settles it is made.
        ensures made { OnOk result (CarriesOut (settling_in self.old) self.old self.new) }

        // No plan is open, and all else stays.
        ensures shards { OnOk result (EndsBelow self.old.core self.old.trace.now.header.shards
            (has self.old.leaving) self.new.core) }
        ensures unplanned { OnOk result (self.new.core.plan ≡ None) }
        ensures left { OnOk result (self.new.plans.left ≡ None) }
        ensures marks { self.new.plans.marks ≡ self.old.plans.marks }
        ensures rest { KeepsButText self.old.replies self.new.replies }
        ensures leaving { OnOk result ((other : ℕ) → has self.new.leaving other ≡ false) }
        ensures trace { self.new.trace.now ≡ self.old.trace.now }
    {
        self.plans.end_open(&mut self.core, &mut self.replies)?;
        self.abandon()?;
        settle_rings(&mut self.core, self.trace.header.shards)
    }

    /// Does what the line at that place below the header asks for, and after a thread's line takes
    /// a step while a pair of the open plan is left. A barrier begins with its first adoption,
    /// since no thread's line stands between that and the mark.
    fn line<R: Runner>(&mut self, runner: &R, place: usize, line: &Line) -> Result<(), AllocError>
        requires runner { R.ready runner.now }

        // The line is the next of the trace.
        requires numbered { place + 6 < 2 ^ 64 }
        requires here { slice_get self.old.trace.now.lines.items place ≡ Some line.now }
        requires ready { IsReady self.old.trace.now.header.shards self.old.core
            (has self.old.leaving) line.now }
        requires knows { KnowsPlan self.old.plans self.old.core }
        requires few { self.old.plans.marks ≤ place }
        requires home { AreHome self.old.core.limits.shards self.old.replies.keys.items }

        // What it asks for is made.
        ensures made { (done : List Did) → KeepsKeysAt self.old done place line.now
            → OnOk result (MakesLineAt place done line.now self.old self.new) }

        // The run is ready for the line after it.
        ensures knows { OnOk result (KnowsPlan self.new.plans self.new.core) }
        ensures marks { OnOk result (self.new.plans.marks ≤ self.old.plans.marks + 1) }
        ensures shards { OnOk result (TurnsBelow self.old.core self.old.trace.now.header.shards
            (leaves_at self.old line.now) (λ thread. begins thread line.now) self.new.core) }
        ensures leaving { OnOk result ((other : ℕ) → has self.new.leaving other
            ≡ (not (is_barrier line.now) && (ends other line.now || has self.old.leaving other))) }
        ensures trace { self.new.trace.now ≡ self.old.trace.now }
    {
        match line {
            Line::Silent => Ok(()),
            Line::Call { thread, call } => {
                let first = self.trace.place(place);
                self.thread_line(place + 6, *thread, first, call)?;
                self.plans.follow(&mut self.core)
            }
            Line::Adopt { shard } => {
                self.settle()?;
                self.adopt(place + 6, *shard)
            }
            Line::Mark => {
                self.settle()?;
                let pieces = self.trace.header.shards.max(1) as usize;
                self.plans
                    .mark(runner, pieces, &mut self.core, &mut self.replies)
            }
        }
    }

    /// Runs the next line, which is the one at that place below the header.
    fn next_line<R: Runner>(
        &mut self,
        runner: &R,
        place: usize,
        line: &Line,
    ) -> Result<(), AllocError>
        requires runner { R.ready runner.now }
        requires numbered { place + 6 < 2 ^ 64 }
        requires here { slice_get self.old.trace.now.lines.items place ≡ Some line.now }
        requires fine { first_cause self.old.trace.now.header
            (take place self.old.trace.now.lines.items) line.now ≡ None }
        requires come { (replies : Bool) × (start : CoreState)
            × HasRun replies place start self.old }
        ensures more { (replies : Bool) (start : CoreState) → HasRun replies place start self.old
            → OnOk result (HasRun replies (place + 1) start self.new) }
        ensures trace { self.new.trace.now ≡ self.old.trace.now }
    {
        self.line(runner, place, line)?;
        Ok(())
    }
}

/// What a run of all lines leaves.
#[derive(Drop)]
pub struct Ran {
    /// The core after the last line, and after the end of the text.
    pub core: Core<Counted>,
    /// The report, but for the line of the counts.
    pub report: Vec<u8>,
    /// How many answers the lines of threads had.
    pub calls: usize,
    /// The text of the certificate of the last mark that planned; empty where none did.
    pub certificate: Vec<u8>,
}

/// Runs the lines of a trace on the core, one after another. At the end of the text it ends the
/// open plan, abandons the shards of the threads that ended after the last mark, and frees the keys
/// that wait on rings.
///
/// The error means that memory ran out, in a call or for what is kept of its reply; the core is
/// then dropped.
pub fn run_lines<R: Runner>(
    runner: &R,
    alloc: Global,
    trace: &Trace,
    replies: bool,
    core: Core<Counted>,
) -> Result<Ran, AllocError>
    requires serves { Serves trace.now.header.shards core }
    requires runner { R.ready runner.now }
    ensures { IfOk result (λ ran. IsLeftBy replies trace.now core ran) }
{
    let mut run = Run::new(alloc, trace, replies, core);
    for place in 0..trace.lines.len() {
        run.next_line(runner, place, trace.lines.line_at(place))?;
    }
    run.settle()?;
    let Run {
        trace: _,
        core,
        replies,
        leaving: _,
        plans,
    } = run;
    let count = replies.count()?;
    let calls = count - adoptions(&trace.lines);
    Ok(Ran {
        core,
        report: replies.into_text(),
        calls,
        certificate: plans.into_certificate(),
    })
}

/// How many of the lines are adoptions.
fn adoptions(lines: &LineList) -> usize
    ensures { result ≡ length (filter is_adopt lines.now.items) }
{
    let mut count = 0;
    for place in 0..lines.len() {
        count += adoptions_by(lines.line_at(place));
    }
    count
}

/// One for an adoption, and none for another line.
fn adoptions_by(line: &Line) -> usize
    ensures { result ≡ (if is_adopt line.now then 1 else 0) }
{
    match line {
        Line::Adopt { .. } => 1,
        Line::Silent | Line::Call { .. } | Line::Mark => 0,
    }
}
