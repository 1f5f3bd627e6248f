// A whole run: the sections of all workers, the steward's marks, and the audit.
ghost use Rattle.std.specs.Prelude.{◌≡◌, IfOk, map};

use crate::places::total;
use crate::steward::{Keeper, Marks};
use crate::worker::{Trouble, Worker};
use arena::{Arena, NoGate, Seat, finish};
use audit::{AuditError, audit};
use span::names::Key;
use span::receipts::ReceiptList;
use std::alloc::{AllocError, Global};
use std::sync::Wait;
use std::thread;
use std::thread::Threads;

/// How many workers a run has, each with a shard.
pub const WORKERS: u32 = 8;

/// How many keys a ring of deferred frees holds.
pub const RING: usize = 64;

/// How many sections a run has.
pub const SECTIONS: usize = 10;

/// When the steward marks.
#[derive(Clone, Copy, PartialEq, Eq, Debug)]
pub enum Turn {
    /// After each section, while no worker runs.
    Between,
    /// All the while, beside the workers.
    Beside,
}

/// What a run came to.
#[derive(Clone, Copy, PartialEq, Eq, Debug)]
pub struct Told {
    /// What a worker met that no call may come to, if any did.
    pub trouble: Option<Trouble>,
    /// What came of the marks.
    pub marks: Marks,
    /// How many shards were ended.
    pub ended: usize,
    /// How many groups were adopted.
    pub adopted: usize,
    /// How many groups of running shards were retired.
    pub retired: usize,
    /// How many objects were set in place.
    pub replaced: usize,
    /// How many keys were left to the threads of their shards.
    pub sent: usize,
    /// How many of them were taken from the rings, by these threads or when the arena was ended.
    pub taken: usize,
    /// What the audit says of the receipts.
    pub verdict: Result<(), AuditError>,
}

// A worker for each seat.
fn workers_of<'a>(
    alloc: Global,
    arena: &'a Arena<NoGate>,
    seats: Vec<Seat>,
) -> Result<Vec<Worker<'a>>, AllocError>
    ensures { IfOk result (λ workers. map (λ worker. worker.seat.table) workers.items
        ≡ map (λ seat. seat.table) seats.items) }
{
    let mut workers = Vec::new(alloc);
    for seat in seats {
        let Some(worker) = Worker::new(alloc, arena, seat) else {
            return Err(AllocError);
        };
        workers.push(worker)?;
    }
    Ok(workers)
}

// All keys that the workers have.
fn keys_of(alloc: Global, workers: &[Worker<'_>]) -> Result<Vec<Key>, AllocError> {
    let mut keys = Vec::new(alloc);
    for worker in workers {
        keys.extend_from_slice(worker.keys.as_slice())?;
    }
    Ok(keys)
}

// The calls of a section of one worker.
fn work_one<'a, R: Wait>(rt: &R, worker: Worker<'a>, old: &[Key]) -> Worker<'a>
    ensures { result.seat.table ≡ worker.entry.seat.table }
{
    let mut worker = worker;
    worker.go_on();
    worker.work(rt, old);
    worker
}

// The calls of a section, each worker's in a thread of its own.
fn work<'a, R: Threads + Wait + Sync>(
    rt: &R,
    workers: Vec<Worker<'a>>,
    old: &[Key],
) -> Result<Vec<Worker<'a>>, AllocError>
    ensures { IfOk result (λ after. map (λ worker. worker.seat.table) after.items
        ≡ map (λ worker. worker.seat.table) workers.entry.items) }
{
    let after = thread::map_vec(
        rt,
        workers,
        &|worker: Worker<'_>| -> Worker<'_>
            ensures { result.seat.table ≡ worker.entry.seat.table }
        { work_one(rt, worker, old) },
    )?;
    Ok(after)
}

// Marks all the while.
fn keep<'a, R: Wait>(rt: &R, keeper: Keeper<'a>) -> Keeper<'a> {
    let mut keeper = keeper;
    keeper.mark_beside(rt, 20);
    keeper
}

// One section, with a mark after it or with marks all the while.
fn section<'a, R: Threads + Wait + Sync>(
    rt: &R,
    workers: Vec<Worker<'a>>,
    keeper: Keeper<'a>,
    old: &[Key],
    turn: Turn,
    takes_steps: bool,
) -> (Result<Vec<Worker<'a>>, AllocError>, Keeper<'a>)
    ensures { IfOk result.0 (λ after. map (λ worker. worker.seat.table) after.items
        ≡ map (λ worker. worker.seat.table) workers.entry.items) }
{
    match turn {
        Turn::Between => {
            let workers = work(rt, workers, old);
            let mut keeper = keeper;
            keeper.mark_alone(rt, takes_steps);
            (workers, keeper)
        }
        Turn::Beside => thread::join(rt, move || work(rt, workers, old), move || keep(rt, keeper)),
    }
}

// How many keys were left to the threads of their shards, and how many these took.
fn deferred_of(workers: &[Worker<'_>]) -> (usize, usize) {
    let mut sent = 0usize;
    let mut taken = 0usize;
    for worker in workers {
        sent = sent.saturating_add(worker.sent);
        taken = taken.saturating_add(worker.taken);
    }
    (sent, taken)
}

// How many shards were ended, and how many groups adopted and retired.
fn moves_of(workers: &[Worker<'_>]) -> (usize, usize, usize) {
    let mut ended = 0usize;
    let mut adopted = 0usize;
    let mut retired = 0usize;
    for worker in workers {
        ended = ended.saturating_add(usize::from(worker.has_ended));
        adopted = adopted.saturating_add(worker.adopted);
        retired = retired.saturating_add(worker.retired);
    }
    (ended, adopted, retired)
}

// How many objects were set in place.
fn replaced_by(workers: &[Worker<'_>]) -> usize {
    let mut replaced = 0usize;
    for worker in workers {
        replaced = replaced.saturating_add(worker.replaced);
    }
    replaced
}

// The workers' seats, and their receipts, a list for each.
fn taken_apart(
    alloc: Global,
    workers: Vec<Worker<'_>>,
) -> Result<(Vec<Seat>, Vec<ReceiptList>), AllocError>
    ensures { IfOk result (λ apart. map (λ seat. seat.table) apart.0.items
        ≡ map (λ worker. worker.seat.table) workers.entry.items) }
{
    let mut seats = Vec::with_capacity(alloc, workers.len())?;
    let mut lists = Vec::with_capacity(alloc, workers.len())?;
    for worker in workers {
        let Worker { seat, receipts, .. } = worker;
        seats.push(seat)?;
        lists.push(receipts)?;
    }
    Ok((seats, lists))
}

// What a worker met that no call may come to, if any did.
fn trouble_of(workers: &[Worker<'_>]) -> Option<Trouble> {
    for worker in workers {
        if worker.trouble.is_some() {
            return worker.trouble;
        }
    }
    None
}

// All sections, one after the other.
fn all_sections<'a, R: Threads + Wait + Sync>(
    rt: &R,
    alloc: Global,
    workers: Vec<Worker<'a>>,
    keeper: Keeper<'a>,
    turn: Turn,
) -> Result<(Vec<Worker<'a>>, Keeper<'a>), AllocError>
    ensures { IfOk result (λ after. map (λ worker. worker.seat.table) after.0.items
        ≡ map (λ worker. worker.seat.table) workers.entry.items) }
{
    let mut workers = workers;
    let mut keeper = keeper;
    for number in 0..SECTIONS {
        let old = keys_of(alloc, workers.as_slice())?;
        // A plan that is closed at once leaves groups in the pool, to be adopted.
        let takes_steps = number % 4 != 2;
        let (worked, kept) = section(rt, workers, keeper, old.as_slice(), turn, takes_steps);
        workers = worked?;
        keeper = kept;
    }
    Ok((workers, keeper))
}

/// A run in which the steward marks then.
pub fn run<R: Threads + Wait + Sync>(
    rt: &R,
    alloc: Global,
    turn: Turn,
) -> Result<Told, AllocError> {
    let Ok((arena, seats, steward)) = Arena::open(alloc, WORKERS, 16, RING, 9, NoGate) else {
        return Err(AllocError);
    };
    let workers = workers_of(alloc, &arena, seats)?;
    let Some(keeper) = Keeper::new(&arena, steward) else {
        return Err(AllocError);
    };
    let (workers, keeper) = all_sections(rt, alloc, workers, keeper, turn)?;
    let marks = keeper.marks;
    let trouble = trouble_of(workers.as_slice());
    let (ended, adopted, retired) = moves_of(workers.as_slice());
    let replaced = replaced_by(workers.as_slice());
    let (sent, taken) = deferred_of(workers.as_slice());
    let (seats, mut lists) = taken_apart(alloc, workers)?;
    drop(keeper);
    // Each worker is here again, in its place.
    if !arena.has_all(seats.as_slice()) || lists.len() != seats.len() {
        return Err(AllocError);
    }
    let Ok(finished) = finish(arena, seats, lists.as_mut_slice()) else {
        return Err(AllocError);
    };
    let taken = taken.saturating_add(total(finished.counts.as_slice()));
    let verdict = audit(alloc, finished.logs.as_slice(), lists.as_slice());
    Ok(Told {
        trouble,
        marks,
        ended,
        adopted,
        retired,
        replaced,
        sent,
        taken,
        verdict,
    })
}
