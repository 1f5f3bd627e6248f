// How many keys are left in each ring.
ghost use Rattle.std.specs.Prelude.{◌≡◌, ◌<◌, ◌≤◌, ℕ, [], All, IfOk, length, map, slice_get, slice_index_or, vec_capacity, vec_len};
ghost use Rattle.remote_queue.specs.Rings.{cell};
ghost use Rattle.arena.specs.Seats.{AreLinked, KeepPlaces, known_lists, out_rings, sending_side};
ghost use Rattle.arena.specs.Settled.{AreCounted, AreSameSeats, KnowAllLeft, known_by, taking_side};
ghost use Rattle.remote_queue.specs.declared.ends.TheConstants.{MOST_KNOWN_KEYS};
ghost use Rattle.span.specs.declared.limits.TheConstants.{MOST_SHARDS};

use crate::seat::Seat;
use remote_queue::Inbox;
use span::ghost_list::GhostList;
use std::alloc::{AllocError, Global};

// How many keys are left in each of the rings into a shard, whose ends are given. These ends then
// know them.
fn count_rings(seats: &mut [Seat], shard: usize, inboxes: &mut Vec<Inbox>, counts: &mut Vec<usize>)
    // There is room for a count of each ring.
    requires wide { vec_len inboxes.old ≡ length seats.old }
    requires room { length seats.old ≤ vec_capacity counts.old }
    requires none { counts.old.items ≡ [] }
    requires linked { (worker : ℕ) → cell (map out_rings seats.old) worker shard
        ≡ slice_get (map (λ inbox. inbox.ring) inboxes.old.items) worker }

    // The seats are as they were, and each count is that of its ring.
    ensures seats { (map sending_side seats.new ≡ map sending_side seats.old)
        × (map (λ seat. seat.inboxes) seats.new ≡ map (λ seat. seat.inboxes) seats.old) }
    ensures tables { map (λ seat. seat.table) seats.new ≡ map (λ seat. seat.table) seats.old }
    ensures places { KeepPlaces seats.old seats.new }
    ensures inboxes { taking_side inboxes.new.items ≡ taking_side inboxes.old.items }
    ensures counted { counts.new.items ≡ map length (known_lists inboxes.new.items) }
    ensures few { All (λ count. count ≤ MOST_KNOWN_KEYS) counts.new.items }
    ensures whole { KnowAllLeft seats.old shard inboxes.old.items inboxes.new.items }
{
    for from in 0..seats.len() {
        counts.push_reserved(seats[from].count_left(shard, &mut inboxes[from]));
    }
}

// How many keys are left in each of the rings into a shard. Its ends then know them.
fn count_shard(alloc: Global, seats: &mut [Seat], shard: usize) -> Result<Vec<usize>, AllocError>
    requires linked { AreLinked seats.old }
    requires few { length seats.old ≤ MOST_SHARDS }
    requires shard { shard < length seats.old }
    ensures same { AreSameSeats seats.old seats.new }
    ensures others { (other : ℕ) → (other ≡ shard → ⊥)
        → known_by seats.new other ≡ known_by seats.old other }
    ensures counted { IfOk result (λ counts. AreCounted seats.old seats.new shard counts.items) }
{
    let mut counts = Vec::with_capacity(alloc, seats.len())?;
    let mut inboxes = Vec::new(alloc);
    let mut columns = GhostList::new();
    seats[shard].swap_inboxes(&mut inboxes, &mut columns);
    count_rings(seats, shard, &mut inboxes, &mut counts);
    seats[shard].swap_inboxes(&mut inboxes, &mut columns);
    Ok(counts)
}

// How many keys are left in each ring, by shard, then worker. The ends of the shards then know
// them.
pub(crate) fn count_all(alloc: Global, seats: &mut [Seat]) -> Result<Vec<Vec<usize>>, AllocError>
    requires linked { AreLinked seats.old }
    requires few { length seats.old ≤ MOST_SHARDS }
    ensures same { AreSameSeats seats.old seats.new }
    ensures linked { AreLinked seats.new }
    ensures len { IfOk result (λ counts. vec_len counts ≡ length seats.old) }
    ensures counted { IfOk result (λ counts. (shard : ℕ) (d : _) → shard < length seats.old
        → AreCounted seats.old seats.new shard (slice_index_or counts.items shard d).items) }
{
    let mut counts = Vec::with_capacity(alloc, seats.len())?;
    for shard in 0..seats.len() {
        let row = count_shard(alloc, seats, shard)?;
        counts.push_reserved(row);
    }
    Ok(counts)
}
