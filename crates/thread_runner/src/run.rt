// The sections of a run, and what stands between them.
ghost use Rattle.std.specs.Prelude.{◌≡◌, ◌+◌, ◌<◌, ◌≤◌, ◌^◌, ℕ, IfOk, List, None, OnOk, Option, Some, length, slice_get, take, true};
ghost use Rattle.std.specs.List.{AllByRecursion};
ghost use Rattle.std.proofs.Props.{props};
ghost use Rattle.trace_text.specs.Causes.{is_adopt, marks};
ghost use Rattle.trace_text.specs.declared.line.Line.{Line};
ghost use Rattle.trace_text.specs.Barrier.{is_barrier};
ghost use Rattle.thread_runner.specs.Asked.{GivenKeys};
ghost use Rattle.thread_runner.specs.Followed.{carried_by};
ghost use Rattle.thread_runner.specs.Grown.{AreDiaries, HaveNothing, Rests};
ghost use Rattle.thread_runner.specs.Known.{AreKept, AreKnown};
ghost use Rattle.thread_runner.specs.declared.keys.Given.{Given};
ghost use Rattle.thread_runner.specs.Marked.{AreNotesOf, barrier_from, is_mark};
ghost use Rattle.thread_runner.specs.Noted.{plan_pairs};
ghost use Rattle.thread_runner.specs.Sections.{AreResting, IsSection, NotesAll, NotesTo};

use crate::body::Note;
use crate::diary::Diary;
use crate::error::Halt;
use crate::keys::{Given, Keys};
use crate::layout::Text;
use crate::plans::Plans;
use crate::worker::{Briefing, Known, Reading, Resting, SentOff, Settled, Worker};
use arena::{Arena, Gate, Seat, Steward};
use std::alloc::{AllocError, Global};
use std::marker::{Brand, PhantomData};
use std::sync::Wait;
use std::thread;
use std::thread::Threads;
use trace_runner::{Line, LineList};

/// What all sections of a run leave.
#[derive(Drop)]
pub(crate) struct Ran {
    /// The seats of all workers.
    pub(crate) seats: Vec<Seat>,
    /// What they were told, and what came of the marks.
    pub(crate) told: Told,
}

/// What a run was told.
#[derive(Drop)]
pub(crate) struct Told {
    /// What each worker was told.
    pub(crate) diaries: Vec<Diary>,
    /// What the report tells of plans, in order.
    pub(crate) notes: Vec<Note>,
    /// The text of the certificate of the last mark that planned; empty where none did.
    pub(crate) certificate: Vec<u8>,
}

// A run between two sections.
#[derive(Drop)]
struct BetweenSections<'a, G: Gate, J: Reading> {
    alloc: Global,
    text: &'a Text<'a>,
    threads: Vec<Resting<'a, G>>,
    keys: Keys,
    // How many sections were run.
    sections_run: usize,
    of: PhantomData<J>,
    ghost reads: { text.now.trace.now.lines.items ≡ J.lines } by { Prim.hlevel props },
    ghost rest: { AllByRecursion (λ one. Rests J.lines J.shown J.table (AreKept keys.kept.items)
        sections_run one.caller.seat one.done one.caller.diary) threads.items } by { Prim.hlevel props },
}

// A run in a section.
#[derive(Drop)]
struct InSection<'a, G: Gate, J: Reading, K: Known> {
    alloc: Global,
    text: &'a Text<'a>,
    workers: Vec<Worker<'a, G, J, K>>,
    ghost reads: { text.now.trace.now.lines.items ≡ J.lines } by { Prim.hlevel props },
}

// A run at the barrier that ends a section, once the rings were emptied.
#[derive(Drop)]
struct AtBarrier<'a, G: Gate, J: Reading, K: Known> {
    alloc: Global,
    text: &'a Text<'a>,
    workers: Vec<Settled<'a, G, J, K>>,
    ghost reads: { text.now.trace.now.lines.items ≡ J.lines } by { Prim.hlevel props },
}

// A thread for each seat, before the first section.
fn threads_in<'a, G: Gate, J: Reading>(
    alloc: Global,
    arena: &'a Arena<G>,
    text: &Text<'_>,
    seats: Vec<Seat>,
) -> Result<Vec<Resting<'a, G>>, AllocError>
    requires lines { text.now.trace.now.lines.items ≡ J.lines }
    requires shown { text.now.replies ≡ J.shown }
    requires seats { AllByRecursion (λ seat. (seat.table ≡ J.table) × (seat.section ≡ 0)
        × HaveNothing (carried_by seat)) seats.items }
    ensures { (kept : List Given) → IfOk result (λ threads.
        AreResting J.lines J.shown J.table (AreKept kept) 0 threads.items) }
{
    let mut threads = Vec::with_capacity(alloc, seats.len())?;
    for seat in seats {
        if let Some(resting) = Resting::new(alloc, arena, text, seat) {
            threads.push(resting)?;
        }
    }
    Ok(threads)
}

// The threads in a section, where so much is known of each.
fn begun<'a, G: Gate, J: Reading, K: Known>(
    alloc: Global,
    text: &'a Text<'a>,
    threads: Vec<Resting<'a, G>>,
) -> Result<Vec<Worker<'a, G, J, K>>, AllocError>
    requires lines { text.now.trace.now.lines.items ≡ J.lines }
    requires rest { AreResting J.lines J.shown J.table (AreKept K.kept) K.section threads.items }
{
    let mut workers = Vec::with_capacity(alloc, threads.len())?;
    for one in threads {
        workers.push(Worker::new(text, one))?;
    }
    Ok(workers)
}

// What the workers of a section are told, whose lines stand from one place up to, and without, the
// other.
fn briefing<'k, J: Reading, K: Known>(keys: &'k Keys, from: usize, end: usize) -> Briefing<'k, J, K>
    requires kept { keys.now.kept.items ≡ K.kept }
    requires one { (place : ℕ) → from ≤ place → place < end
        → marks (take place J.lines) ≡ K.section }
{
    Briefing {
        keys,
        from,
        end,
        of: PhantomData,
        at: PhantomData,
    }
}

// All workers end the section, with what their puts gave in it.
fn each_rested<'a, G: Gate, J: Reading, K: Known>(
    alloc: Global,
    workers: Vec<Settled<'a, G, J, K>>,
) -> Result<(Vec<Resting<'a, G>>, Vec<Given>), Halt>
    ensures { IfOk result (λ both. AreResting J.lines J.shown J.table
        (AreKnown K.kept both.1.items) (K.section + 1) both.0.items) }
{
    let mut latest = Vec::new(alloc);
    let mut threads = Vec::with_capacity(alloc, workers.len())?;
    for worker in workers {
        threads.push(worker.rested(&mut latest)?)?;
    }
    Ok((threads, latest))
}

// All workers end the section, and what their puts gave is kept.
fn all_rested<'a, G: Gate, J: Reading, K: Known>(
    alloc: Global,
    workers: Vec<Settled<'a, G, J, K>>,
    keys: Keys,
) -> Result<(Vec<Resting<'a, G>>, Keys), Halt>
    requires { keys.kept.items ≡ K.kept }
    ensures { IfOk result (λ both. AreResting J.lines J.shown J.table
        (AreKept both.1.kept.items) (K.section + 1) both.0.items) }
{
    let (threads, latest) = each_rested(alloc, workers)?;
    Ok((threads, keys.with(latest)?))
}

// A section's lines of one worker.
fn run_one<'a, R: Wait, G: Gate, J: Reading, K: Known>(
    rt: &R,
    worker: Worker<'a, G, J, K>,
    told: &Briefing<'_, J, K>,
) -> Result<Worker<'a, G, J, K>, Halt> {
    worker.run(rt, told)
}

// A section's lines, each worker's on a thread of its own.
fn work<'a, R: Threads + Wait + Sync, G: Gate + Sync, J: Reading, K: Known>(
    rt: &R,
    workers: Vec<Worker<'a, G, J, K>>,
    told: &Briefing<'_, J, K>,
) -> Result<Vec<Result<Worker<'a, G, J, K>, Halt>>, AllocError> {
    thread::map_vec(rt, workers, &|worker| run_one(rt, worker, told))
}

// A section's lines, with the steps of the open plan beside them.
fn work_beside<'a, R: Threads + Wait + Sync, G: Gate + Sync, J: Reading, K: Known>(
    rt: &R,
    workers: Vec<Worker<'a, G, J, K>>,
    plans: Plans<'a, G>,
    told: &Briefing<'_, J, K>,
) -> Result<(Vec<Result<Worker<'a, G, J, K>, Halt>>, Plans<'a, G>), AllocError>
    ensures pairs { IfOk result (λ both. plan_pairs both.1.steward.plan
        ≡ plan_pairs plans.entry.steward.plan) }
    ensures minutes { IfOk result (λ both. both.1.minutes ≡ plans.entry.minutes) }
{
    if !plans.has_steps() {
        return Ok((work(rt, workers, told)?, plans));
    }
    let (workers, plans) = thread::join(
        rt,
        move || work(rt, workers, told),
        move || plans.stepped(rt),
    );
    Ok((workers?, plans?))
}

// The lines of the trace below its header.
fn text_lines<'a>(text: &'a Text<'a>) -> &'a LineList
    ensures { result.now ≡ text.now.trace.now.lines }
{
    &text.trace.lines
}

// How many threads the trace has.
fn threads_of(text: &Text<'_>) -> u32
    ensures { result ≡ text.now.trace.now.header.shards }
{
    text.trace.header.shards
}

// Whether the line is one of a barrier.
fn is_barrier(line: &Line) -> bool
    ensures { result ≡ is_barrier line.now }
{
    matches!(line, Line::Adopt { .. } | Line::Mark)
}

// Whether the line is a mark.
fn is_mark(line: &Line) -> bool
    ensures { result ≡ is_mark line.now }
{
    matches!(line, Line::Mark)
}

// Where the next barrier begins: the place of the first adoption or mark from that one on, or that
// below the last line.
fn barrier_of(lines: &LineList, from: usize) -> usize
    requires { from ≤ length lines.now.items }
    ensures barrier { result ≡ barrier_from lines.now.items from }
    ensures within { (from ≤ result) × (result ≤ length lines.now.items) }
{
    for place in from..lines.len() {
        if is_barrier(lines.line_at(place)) {
            return place;
        }
    }
    lines.len()
}

// All workers hand over what their lines left to the threads of shards.
fn send_off_all<'a, G: Gate, J: Reading, K: Known>(
    alloc: Global,
    workers: Vec<Worker<'a, G, J, K>>,
) -> Result<Vec<SentOff<'a, G, J, K>>, AllocError> {
    let mut sent = Vec::with_capacity(alloc, workers.len())?;
    for worker in workers {
        sent.push(worker.sent_off())?;
    }
    Ok(sent)
}

// Frees the keys that are on the rings to the shards of the workers, one after another.
fn all_settled<'a, G: Gate, J: Reading, K: Known, R: Wait>(
    rt: &R,
    alloc: Global,
    sent: Vec<SentOff<'a, G, J, K>>,
) -> Result<Vec<Settled<'a, G, J, K>>, AllocError> {
    let mut workers = Vec::with_capacity(alloc, sent.len())?;
    for one in sent {
        workers.push(one.settled(rt)?)?;
    }
    Ok(workers)
}

// The worker of that thread, taken out of these.
fn take_worker<'a, G: Gate, J: Reading, K: Known>(
    workers: &mut Vec<Worker<'a, G, J, K>>,
    thread: u32,
) -> Result<Worker<'a, G, J, K>, Halt>
    ensures { IfOk result (λ worker. worker.caller.seat.worker ≡ thread) }
{
    for place in 0..workers.len() {
        if workers[place].thread() == thread {
            return Ok(workers.swap_remove(place));
        }
    }
    Err(Halt::Doubled)
}

// The worker of that shard, taken out of these.
fn take_settled<'a, G: Gate, J: Reading, K: Known>(
    workers: &mut Vec<Settled<'a, G, J, K>>,
    shard: u32,
) -> Result<Settled<'a, G, J, K>, Halt> {
    for at in 0..workers.len() {
        if workers[at].thread() == shard {
            return Ok(workers.swap_remove(at));
        }
    }
    Err(Halt::Doubled)
}

// One worker for each of that many threads, in order.
fn in_order<'a, G: Gate, J: Reading, K: Known>(
    alloc: Global,
    workers: Vec<Worker<'a, G, J, K>>,
    threads: u32,
) -> Result<Vec<Worker<'a, G, J, K>>, Halt> {
    let mut workers = workers;
    let mut ordered = Vec::with_capacity(alloc, workers.len())?;
    for thread in 0..threads {
        ordered.push(take_worker(&mut workers, thread)?)?;
    }
    Ok(ordered)
}

// What the workers of that many threads leave, in order, where each has run all its lines.
fn seats_and_diaries<'a, G: Gate, J: Reading, K: Known>(
    alloc: Global,
    workers: Vec<Worker<'a, G, J, K>>,
    threads: u32,
) -> Result<(Vec<Seat>, Vec<Diary>), Halt>
    requires { K.section ≡ marks J.lines + 1 }
    ensures seats { IfOk result (λ parts. AllByRecursion (λ seat. seat.table ≡ J.table)
        parts.0.items) }
    ensures diaries { (given : GivenKeys) → AreKept K.kept given → IfOk result (λ parts.
        AreDiaries J.lines J.shown given threads parts.0.items parts.1.items) }
{
    let mut workers = workers;
    let mut seats = Vec::with_capacity(alloc, workers.len())?;
    let mut diaries = Vec::with_capacity(alloc, workers.len())?;
    for thread in 0..threads {
        let worker = take_worker(&mut workers, thread)?;
        let (seat, diary) = worker.taken_apart()?;
        seats.push(seat)?;
        diaries.push(diary)?;
    }
    Ok((seats, diaries))
}

impl<'a, G: Gate + Sync, J: Reading, K: Known> InSection<'a, G, J, K> {
    // Runs the lines of the section, with the steps of the open plan beside them. The workers are
    // then in order.
    fn run<R: Threads + Wait + Sync>(
        self,
        rt: &R,
        plans: Plans<'a, G>,
        told: Briefing<'_, J, K>,
    ) -> Result<(Self, Plans<'a, G>), Halt>
        ensures pairs { IfOk result (λ both. plan_pairs both.1.steward.plan
            ≡ plan_pairs plans.entry.steward.plan) }
        ensures minutes { IfOk result (λ both. both.1.minutes ≡ plans.entry.minutes) }
    {
        let InSection {
            alloc,
            text,
            workers,
        } = self;
        let mut busy = Vec::with_capacity(alloc, workers.len())?;
        let mut all = Vec::with_capacity(alloc, workers.len())?;
        for worker in workers {
            if worker.has_lines(told.end) {
                busy.push(worker)?;
            } else {
                all.push(worker)?;
            }
        }
        let (worked, plans) = work_beside(rt, busy, plans, &told)?;
        for worker in worked {
            all.push(worker?)?;
        }
        let section = InSection {
            alloc,
            text,
            workers: in_order(alloc, all, threads_of(text))?,
        };
        Ok((section, plans))
    }

    // Abandons the shards of the threads that ended in the section, ascending.
    fn abandon<R: Wait>(&mut self, rt: &R) -> Result<(), Halt> {
        for worker in self.workers.iter_mut() {
            worker.leave(rt)?;
        }
        Ok(())
    }

    // Settles the section that was run, whose plan was ended: shards are abandoned, and the rings
    // are emptied. All workers hand over before the first tends, so that no key is left behind at a
    // seat.
    fn settled<R: Wait>(self, rt: &R) -> Result<AtBarrier<'a, G, J, K>, Halt> {
        let mut section = self;
        section.abandon(rt)?;
        let InSection {
            alloc,
            text,
            workers,
        } = section;
        let sent = send_off_all(alloc, workers)?;
        Ok(AtBarrier {
            alloc,
            text,
            workers: all_settled(rt, alloc, sent)?,
        })
    }
}

impl<'a, G: Gate, J: Reading, K: Known> AtBarrier<'a, G, J, K> {
    // Makes the adoption of the line at that place.
    fn adopt<R: Wait>(&mut self, rt: &R, place: usize, shard: u32) -> Result<(), Halt>
        requires place { place < 2 ^ 63 }
        requires section { marks (take place J.lines) ≡ K.section }
        requires adopts { (line : Line) → slice_get J.lines place ≡ Some line
            → is_adopt line ≡ true }
    {
        let worker = take_settled(&mut self.workers, shard)?;
        self.workers.push(worker.adopt(rt, place)?)?;
        Ok(())
    }

    // The adoptions of the lines from one place up to, and without, another, in their order.
    fn adoptions<R: Wait>(&mut self, rt: &R, from: usize, end: usize) -> Result<(), Halt>
        requires end { end < 2 ^ 63 }
        requires one { (place : ℕ) → from ≤ place → place < end
            → marks (take place J.lines) ≡ K.section }
    {
        for place in from..end {
            if let Some(Line::Adopt { shard }) = self.text.trace.lines.get(place) {
                self.adopt(rt, place, *shard)?;
            }
        }
        Ok(())
    }

    // The run between this section and the next. More sections than a number counts find no memory.
    fn rested(self, keys: Keys, sections_run: usize) -> Result<BetweenSections<'a, G, J>, Halt>
        requires keys { keys.kept.items ≡ K.kept }
        requires section { sections_run ≡ K.section }
        ensures { IfOk result (λ between. between.sections_run ≡ sections_run + 1) }
    {
        let AtBarrier {
            alloc,
            text,
            workers,
        } = self;
        let (threads, keys) = all_rested(alloc, workers, keys)?;
        let sections_run = sections_run.checked_add(1).ok_or(AllocError)?;
        Ok(BetweenSections {
            alloc,
            text,
            threads,
            keys,
            sections_run,
            of: PhantomData,
        })
    }
}

impl<'a, G: Gate + Sync, J: Reading> BetweenSections<'a, G, J> {
    // A section from one place up to, and without, the mark at another, and the barrier, which
    // begins at a third.
    fn run_section<R: Threads + Wait + Sync, K: Known>(
        self,
        rt: &R,
        plans: Plans<'a, G>,
        from: usize,
        barrier: usize,
        end: usize,
    ) -> Result<(Self, Plans<'a, G>), Halt>
        requires bounds { (from ≤ barrier) × (barrier ≤ end) × (end < 2 ^ 63) }
        requires kept { self.keys.kept.items ≡ K.kept }
        requires section { self.sections_run ≡ K.section }
        requires one { (place : ℕ) → from ≤ place → place < end
            → marks (take place J.lines) ≡ K.section }
        ensures notes { (lines : List Line) → IsSection lines from barrier end
            → NotesTo lines from plans.entry → IfOk result (λ ran. NotesTo lines (end + 1) ran.1) }
        ensures sections { IfOk result (λ both. both.0.sections_run ≡ self.entry.sections_run + 1) }
    {
        let BetweenSections {
            alloc,
            text,
            threads,
            keys,
            sections_run,
            ..
        } = self;
        let section: InSection<'a, G, J, K> = InSection {
            alloc,
            text,
            workers: begun(alloc, text, threads)?,
        };
        let told = briefing(&keys, from, barrier);
        let (section, plans) = section.run(rt, plans, told)?;
        let mut plans = plans.end_open(rt, barrier)?;
        let mut at_barrier = section.settled(rt)?;
        at_barrier.adoptions(rt, barrier, end)?;
        plans.mark(rt, end)?;
        Ok((at_barrier.rested(keys, sections_run)?, plans))
    }

    // The last section, from one place up to the end of the text at another.
    fn run_last_section<R: Threads + Wait + Sync, K: Known>(
        self,
        rt: &R,
        plans: Plans<'a, G>,
        from: usize,
        barrier: usize,
    ) -> Result<(Self, Plans<'a, G>), Halt>
        requires bounds { barrier < 2 ^ 63 }
        requires kept { self.keys.kept.items ≡ K.kept }
        requires section { self.sections_run ≡ K.section }
        requires one { (place : ℕ) → from ≤ place → place < barrier
            → marks (take place J.lines) ≡ K.section }
        ensures notes { (lines : List Line) → NotesTo lines from plans.entry
            → barrier ≡ barrier_from lines from → IfOk result (λ ran. NotesAll lines from ran.1) }
        ensures sections { IfOk result (λ both. both.0.sections_run ≡ self.entry.sections_run + 1) }
    {
        let BetweenSections {
            alloc,
            text,
            threads,
            keys,
            sections_run,
            ..
        } = self;
        let section: InSection<'a, G, J, K> = InSection {
            alloc,
            text,
            workers: begun(alloc, text, threads)?,
        };
        let told = briefing(&keys, from, barrier);
        let (section, plans) = section.run(rt, plans, told)?;
        let plans = plans.end_open(rt, barrier)?;
        Ok((section.settled(rt)?.rested(keys, sections_run)?, plans))
    }

    // All sections, up to the end of the text.
    fn run_to_end<R: Threads + Wait + Sync>(
        self,
        rt: &R,
        plans: Plans<'a, G>,
        lines: &LineList,
    ) -> Result<(Self, Plans<'a, G>), Halt>
        requires lines { lines.now.items ≡ J.lines }
        requires first { self.sections_run ≡ 0 }
        requires notes { NotesTo lines.now.items 0 plans }
        ensures notes { IfOk result (λ both. AreNotesOf lines.now.items both.1.minutes.notes.items
            both.1.minutes.certificate.items) }
        ensures sections { IfOk result (λ both. both.0.sections_run ≡ marks lines.now.items + 1) }
    {
        let mut between = self;
        let mut plans = plans;
        let mut from = 0;
        for place in 0..lines.len() {
            if is_mark(lines.line_at(place)) {
                let barrier = barrier_of(lines, from);
                let both = between.run_section::<R, Brand>(rt, plans, from, barrier, place)?;
                between = both.0;
                plans = both.1;
                from = place + 1;
            }
        }
        let barrier = barrier_of(lines, from);
        between.run_last_section::<R, Brand>(rt, plans, from, barrier)
    }

    // What the workers of that many threads leave, in order.
    fn parts<K: Known>(self, threads: u32) -> Result<(Vec<Seat>, Vec<Diary>), Halt>
        requires kept { self.keys.kept.items ≡ K.kept }
        requires section { self.sections_run ≡ K.section }
        requires all { self.sections_run ≡ marks J.lines + 1 }
        ensures seats { IfOk result (λ parts. AllByRecursion (λ seat. seat.table ≡ J.table)
            parts.0.items) }
        ensures diaries { (given : GivenKeys) → AreKept K.kept given → IfOk result (λ parts.
            AreDiaries J.lines J.shown given threads parts.0.items parts.1.items) }
    {
        let BetweenSections {
            alloc,
            text,
            threads: resting,
            ..
        } = self;
        let workers: Vec<Worker<'a, G, J, K>> = begun(alloc, text, resting)?;
        seats_and_diaries(alloc, workers, threads)
    }

    // What the run of that many threads leaves, whose sections were all run.
    fn taken_apart(self, plans: Plans<'a, G>, threads: u32) -> Result<Ran, Halt>
        requires { self.sections_run ≡ marks J.lines + 1 }
        ensures seats { IfOk result (λ ran. AllByRecursion (λ seat. seat.table ≡ J.table)
            ran.seats.items) }
        ensures diaries { IfOk result (λ ran. (given : GivenKeys)
            × AreDiaries J.lines J.shown given threads ran.seats.items ran.told.diaries.items) }
        ensures notes { IfOk result (λ ran. ran.told.notes ≡ plans.entry.minutes.notes) }
        ensures certificate { IfOk result (λ ran. ran.told.certificate
            ≡ plans.entry.minutes.certificate) }
    {
        let (seats, diaries) = self.parts::<Brand>(threads)?;
        let (notes, certificate) = plans.into_notes();
        Ok(Ran {
            seats,
            told: Told {
                diaries,
                notes,
                certificate,
            },
        })
    }
}

/// Runs all sections of a trace at an arena that was opened for it, up to the end of the text.
///
/// # Errors
///
/// `OutOfMemory` where an allocation was refused, and `Doubled` where a shard or the pool was not
/// as the run had left it, or a thread's line or key was not where the trace has it.
pub(crate) fn run_lines<'a, R: Threads + Wait + Sync, G: Gate + Sync, J: Reading>(
    rt: &R,
    alloc: Global,
    text: &'a Text<'a>,
    arena: &'a Arena<G>,
    seats: Vec<Seat>,
    steward: Steward,
) -> Result<Ran, Halt>
    requires lines { text.now.trace.now.lines.items ≡ J.lines }
    requires shown { text.now.replies ≡ J.shown }
    requires unplanned { steward.plan ≡ None }
    requires seats { AllByRecursion (λ seat. (seat.table ≡ J.table) × (seat.section ≡ 0)
        × HaveNothing (carried_by seat)) seats.items }
    ensures seats { IfOk result (λ ran. AllByRecursion (λ seat. seat.table ≡ J.table)
        ran.seats.items) }
    ensures diaries { IfOk result (λ ran. (given : GivenKeys) × AreDiaries J.lines J.shown given
        text.now.trace.now.header.shards ran.seats.items ran.told.diaries.items) }
    ensures notes { IfOk result (λ ran. AreNotesOf text.now.trace.now.lines.items
        ran.told.notes.items ran.told.certificate.items) }
{
    let Some(plans) = Plans::new(alloc, arena, steward) else {
        return Err(Halt::Doubled);
    };
    let between: BetweenSections<'a, G, J> = BetweenSections {
        alloc,
        text,
        threads: threads_in::<G, J>(alloc, arena, text, seats)?,
        keys: Keys::none(alloc),
        sections_run: 0,
        of: PhantomData,
    };
    let (between, plans) = between.run_to_end(rt, plans, text_lines(text))?;
    between.taken_apart(plans, threads_of(text))
}
