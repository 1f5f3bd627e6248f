// The end of an arena.
ghost use Rattle.std.specs.Prelude.{◌≡◌, IfErr, IfOk, OnErr, OnOk, length, map, vec_len};
ghost use Rattle.span.specs.SpanLogs.{AreLegal};
ghost use Rattle.arena.specs.Seats.{AreLinked, AreSeatsOf};
ghost use Rattle.arena.specs.Settled.{AreSameSeats, AreSettled};

use crate::arena::Arena;
use crate::gate::Gate;
use crate::receipts::Receipts;
use crate::seat::Seat;
use crate::settling::{greatest_section, know_rings, make_room, settle_seats};
use crate::unlocked::{Unlocked, unlock};
use span::spans::SpanLog;
use std::alloc::AllocError;

/// What an arena leaves when its run is over.
#[derive(Drop)]
pub struct Finished {
    /// The log of each span that the shards opened, wherever the span is: in a shard that has ended
    /// or has not, as a head or a guest, or in the pool, with a page or without.
    pub logs: Vec<SpanLog>,
    /// How many keys were settled from each ring, by its shard and then by its worker.
    pub counts: Vec<Vec<usize>>,
}

/// An arena and its seats, handed back with all that they had.
#[derive(Drop)]
pub struct Unfinished<G: Gate> {
    /// The arena.
    pub arena: Arena<G>,
    /// The seats, in their order.
    pub seats: Vec<Seat>,
}

/// Takes the arena and its seats apart when no thread works on them any more: settles every ring,
/// as [`Arena::settle`] does, and gives the logs of all spans, each with its greatest generation,
/// and how many keys each ring had. The receipts are the caller's, a list for each worker; those of
/// the settled keys go last in them. It owns all locks, so no other thread has one, and it waits
/// for nobody.
///
/// # Errors
///
/// Arena and seats, with no key taken, if there is no memory for the counts, the receipts or the
/// logs; or if a guard of a lock was forgotten, so that its shard is nowhere, which no call here
/// does.
pub fn finish<G: Gate, K: Receipts>(
    mut arena: Arena<G>,
    mut seats: Vec<Seat>,
    receipts: &mut [K],
) -> Result<Finished, Unfinished<G>>
    // All seats are here, in order, with a list each.
    requires seats { AreSeatsOf arena.limits arena.table seats.items }
    requires lists { length receipts.old ≡ vec_len seats }

    // What a settled end hands out.
    ensures legal { IfOk result (λ finished. AreLegal finished.logs.items) }
    ensures counts { IfOk result (λ finished. vec_len finished.counts ≡ vec_len seats) }
    ensures settled { IfOk result (λ finished. AreSettled K.told seats.items
        finished.counts.items receipts.old receipts.new) }
    ensures rings { OnOk result (AreLinked seats.items) }

    // What a refusal hands back.
    ensures arena { IfErr result (λ back. (back.arena.limits ≡ arena.limits)
        × (back.arena.table ≡ arena.table)) }
    ensures same { IfErr result (λ back. AreSameSeats seats.items back.seats.items) }
    ensures seats { IfErr result (λ back. AreSeatsOf back.arena.limits back.arena.table
        back.seats.items) }
    ensures linked { IfErr result (λ back. AreLinked back.seats.items) }
    ensures err { OnErr result (map K.told receipts.new ≡ map K.told receipts.old) }
{
    match settled(&mut arena, seats.as_mut_slice(), receipts) {
        Ok((unlocked, counts)) => Ok(Finished {
            logs: unlocked.into_logs(),
            counts,
        }),
        Err(AllocError) => Err(Unfinished { arena, seats }),
    }
}

/// Takes the logs of all spans out of an arena whose run is over, each with its greatest
/// generation, and leaves it with no span: what [`finish`] does if its seats are not in one
/// hand, or are not known to be the arena's own. No ring is settled: a key that was sent and not
/// taken stays live in its span's log. Who has the arena to itself has all locks, and waits for
/// nobody. Numbers, rings and locks stay, which is all that a clause sees of an arena.
///
/// # Errors
///
/// `AllocError` if memory for the logs was refused, or if a guard of a lock was forgotten.
/// Every span is then where it was.
pub fn take_logs<G: Gate>(arena: &mut Arena<G>) -> Result<Vec<SpanLog>, AllocError>
    ensures legal { IfOk result (λ logs. AreLegal logs.items) }
    ensures same { arena.new ≡ arena.old }
{
    Ok(unlock(arena)?.into_logs())
}

// What is behind the locks of the arena, once every ring is settled, and how many keys each ring
// had. The arena has no span afterwards. All memory is taken before the first key is.
fn settled<G: Gate, K: Receipts>(
    arena: &mut Arena<G>,
    seats: &mut [Seat],
    receipts: &mut [K],
) -> Result<(Unlocked, Vec<Vec<usize>>), AllocError>
    // All seats are here, in order, with a list each.
    requires seats { AreSeatsOf arena.old.limits arena.old.table seats.old }
    requires lists { length receipts.old ≡ length seats.old }

    // What a settled end hands out.
    ensures counts { IfOk result (λ ended. vec_len ended.1 ≡ length seats.old) }
    ensures settled { IfOk result (λ ended. AreSettled K.told seats.old ended.1.items
        receipts.old receipts.new) }
    ensures rings { OnOk result (AreLinked seats.old) }

    // What a refusal hands back.
    ensures arena { (arena.new.limits ≡ arena.old.limits) × (arena.new.table ≡ arena.old.table) }
    ensures linked { OnErr result (AreLinked seats.new) }
    ensures err { OnErr result (AreSameSeats seats.old seats.new
        × (map K.told receipts.new ≡ map K.told receipts.old)) }
{
    know_rings(arena, seats);
    let counts = make_room(arena.alloc, seats, receipts)?;
    let mut unlocked = unlock(arena)?;
    let section = greatest_section(seats);
    settle_seats(&mut unlocked, seats, counts.as_slice(), section, receipts);
    Ok((unlocked, counts))
}
