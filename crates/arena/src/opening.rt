// A new arena, with its seats and its steward.
ghost use Rattle.std.specs.Prelude.{◌≡◌, ◌<◌, ◌↔◌, IfOk, IsErrOf, map, vec_len};
ghost use Rattle.std.specs.List.{range_with_len};
ghost use Rattle.marks.specs.Numbers.{AreWithin, limits_of};
ghost use Rattle.remote_queue.specs.Rings.{AreNewLinks};
ghost use Rattle.arena.specs.Seats.{AreLinked, AreSeatsOf, HaveFreshRings, IsTableOf, first_standing, standing, table_of_ends};
ghost use Rattle.arena.specs.Stewards.{new_steward};

use crate::arena::Arena;
use crate::error::OpenError;
use crate::gate::Gate;
use crate::hints::Hints;
use crate::ring_table::RingTable;
use crate::seat::Seat;
use crate::steward::Steward;
use latch::Latch;
use marks::Limits;
use pool::Pool;
use remote_queue::{LinkError, Links, link};
use shard::{Config, Shard};
use span::spans::{Kept, Log};
use std::alloc::{AllocError, Global};
use std::mem::replace;

impl<G: Gate> Arena<G, Kept> {
    /// An arena of `shards` new shards and an empty pool, with a seat for each worker, by number,
    /// and its steward. A shard may have `page_limit` pages of 4,096 bytes, and may open as many
    /// spans as there are serials; [`Arena::with_limits`] takes another number. A ring holds
    /// `ring_capacity` keys, and a slot is given the generations from 1 to `gens`.
    ///
    /// # Errors
    ///
    /// `Config` exactly if a number is out of its range, which is 1 to 64 shards, 1 to 1,048,576
    /// pages, 1 to 1,024 keys, and from 1 generation on; `OutOfMemory` only if each is within
    /// it.
    pub fn open(
        alloc: Global,
        shards: u32,
        page_limit: usize,
        ring_capacity: usize,
        gens: u32,
        gate: G,
    ) -> Result<(Arena<G>, Vec<Seat>, Steward), OpenError>
        ensures config { IsErrOf result OpenError.Config
            ↔ (AreWithin (limits_of shards page_limit ring_capacity gens) → ⊥) }
        ensures memory { IsErrOf result OpenError.OutOfMemory
            → AreWithin (limits_of shards page_limit ring_capacity gens) }
        ensures numbers { IfOk result (λ opened. opened.0.limits
            ≡ limits_of shards page_limit ring_capacity gens) }
        ensures standing { IfOk result (λ opened. map standing opened.1.items
            ≡ map (first_standing opened.0.limits) (range_with_len 0 shards)) }
        ensures seats { IfOk result (λ opened. AreSeatsOf opened.0.limits opened.0.table
            opened.1.items) }
        ensures linked { IfOk result (λ opened. AreLinked opened.1.items) }
        ensures fresh { IfOk result (λ opened. HaveFreshRings ring_capacity opened.1.items) }
        ensures steward { IfOk result (λ opened. opened.2 ≡ new_steward opened.0.limits) }
    {
        Arena::open_with_log(alloc, shards, page_limit, ring_capacity, gens, gate)
    }
}

impl<G: Gate, L: Log> Arena<G, L> {
    /// An arena of new shards, whose logs are kept or counted as its type says, with its seats and
    /// its steward: as [`Arena::open`], and refused as that is.
    pub fn open_with_log(
        alloc: Global,
        shards: u32,
        page_limit: usize,
        ring_capacity: usize,
        gens: u32,
        gate: G,
    ) -> Result<(Arena<G, L>, Vec<Seat>, Steward), OpenError>
        ensures config { IsErrOf result OpenError.Config
            ↔ (AreWithin (limits_of shards page_limit ring_capacity gens) → ⊥) }
        ensures memory { IsErrOf result OpenError.OutOfMemory
            → AreWithin (limits_of shards page_limit ring_capacity gens) }
        ensures numbers { IfOk result (λ opened. opened.0.limits
            ≡ limits_of shards page_limit ring_capacity gens) }
        ensures standing { IfOk result (λ opened. map standing opened.1.items
            ≡ map (first_standing opened.0.limits) (range_with_len 0 shards)) }
        ensures seats { IfOk result (λ opened. AreSeatsOf opened.0.limits opened.0.table
            opened.1.items) }
        ensures linked { IfOk result (λ opened. AreLinked opened.1.items) }
        ensures fresh { IfOk result (λ opened. HaveFreshRings ring_capacity opened.1.items) }
        ensures steward { IfOk result (λ opened. opened.2 ≡ new_steward opened.0.limits) }
    {
        let Some(limits) = Limits::new(shards, page_limit, ring_capacity, gens) else {
            return Err(OpenError::Config);
        };
        Ok(Arena::with_limits(alloc, limits, gate)?)
    }

    /// An arena of new shards by all of its numbers, how many spans a shard may open among them,
    /// whose logs are kept or counted as its type says, with its seats and its steward.
    ///
    /// # Errors
    ///
    /// `AllocError` if memory runs out.
    pub fn with_limits(
        alloc: Global,
        limits: Limits,
        gate: G,
    ) -> Result<(Arena<G, L>, Vec<Seat>, Steward), AllocError>
        ensures numbers { IfOk result (λ opened. opened.0.limits ≡ limits) }
        ensures standing { IfOk result (λ opened. map standing opened.1.items
            ≡ map (first_standing opened.0.limits) (range_with_len 0 limits.shards)) }
        ensures seats { IfOk result (λ opened. AreSeatsOf opened.0.limits opened.0.table
            opened.1.items) }
        ensures linked { IfOk result (λ opened. AreLinked opened.1.items) }
        ensures fresh { IfOk result (λ opened.
            HaveFreshRings limits.ring_capacity opened.1.items) }
        ensures steward { IfOk result (λ opened. opened.2 ≡ new_steward opened.0.limits) }
    {
        let links = links_of(alloc, limits)?;
        let table = RingTable::of(&links);
        let seats = seats_of(alloc, limits, &table, links)?;
        let steward = Steward::new(alloc, limits)?;
        let arena = arena_of(alloc, limits, table, gate)?;
        Ok((arena, seats, steward))
    }
}

// A ring from each worker to each shard.
fn links_of(alloc: Global, limits: Limits) -> Result<Links, AllocError>
    ensures { IfOk result (λ links. AreNewLinks limits.shards limits.shards limits.ring_capacity
        links.outboxes.items links.inboxes.items) }
{
    let shards = limits.shards() as usize;
    match link(alloc, shards, shards, limits.ring_capacity()) {
        Ok(links) => Ok(links),
        Err(LinkError::OutOfMemory) => Err(AllocError),
        Err(LinkError::Config) => unreachable!(),
    }
}

// A seat for each worker, by number, with the ends of its row and its column.
fn seats_of(
    alloc: Global,
    limits: Limits,
    table: &RingTable,
    links: Links,
) -> Result<Vec<Seat>, AllocError>
    // The rings are new, and those of the table.
    requires links { AreNewLinks limits.shards limits.shards limits.ring_capacity
        links.outboxes.items links.inboxes.items }
    requires table { table.now ≡ table_of_ends links.outboxes.items links.inboxes.items }

    // Each seat has its place and its rings.
    ensures standing { IfOk result (λ seats. map standing seats.items
        ≡ map (first_standing limits) (range_with_len 0 limits.shards)) }
    ensures seats { IfOk result (λ seats. AreSeatsOf limits table.now seats.items) }
    ensures linked { IfOk result (λ seats. AreLinked seats.items) }
    ensures fresh { IfOk result (λ seats. HaveFreshRings limits.ring_capacity seats.items) }
{
    let Links {
        outboxes: mut rows,
        inboxes: mut columns,
    } = links;
    let mut seats = Vec::with_capacity(alloc, limits.shards() as usize)?;
    for worker in 0..limits.shards() {
        let outboxes = replace(&mut rows[worker as usize], Vec::new(alloc));
        let inboxes = replace(&mut columns[worker as usize], Vec::new(alloc));
        let seat = Seat::new(worker, limits, table.again(), outboxes, inboxes);
        seats.push_reserved(seat);
    }
    Ok(seats)
}

// New shards and an empty pool behind locks, with hints of spans of which none is opened.
fn arena_of<G: Gate, L: Log>(
    alloc: Global,
    limits: Limits,
    table: RingTable,
    gate: G,
) -> Result<Arena<G, L>, AllocError>
    requires { IsTableOf limits.shards table }
    ensures limits { IfOk result (λ arena. arena.limits ≡ limits) }
    ensures table { IfOk result (λ arena. arena.table ≡ table) }
{
    let hints = Hints::new(alloc, limits.shards(), limits.page_limit())?;
    let shards = locked_shards(alloc, limits)?;
    Ok(Arena {
        alloc,
        limits,
        table,
        pool: Latch::new(alloc, Pool::with_log(alloc))?,
        shards,
        hints,
        gate,
    })
}

// A new shard for each number, behind a lock.
fn locked_shards<L: Log>(alloc: Global, limits: Limits) -> Result<Vec<Latch<Shard<L>>>, AllocError>
    ensures { IfOk result (λ shards. vec_len shards ≡ limits.shards) }
{
    let mut shards = Vec::with_capacity(alloc, limits.shards() as usize)?;
    for number in 0..limits.shards() {
        let shard = new_shard(alloc, number, limits);
        shards.push_reserved(Latch::new(alloc, shard)?);
    }
    Ok(shards)
}

// The new shard of this number.
fn new_shard<L: Log>(alloc: Global, number: u32, limits: Limits) -> Shard<L>
    requires { number < limits.shards }
{
    let (pages, spans, gens) = (limits.page_limit(), limits.span_limit(), limits.gens());
    match Shard::with_slots(alloc, number, pages, spans, limits.slot_limit(), gens) {
        Ok(shard) => shard,
        Err(Config) => unreachable!(),
    }
}
