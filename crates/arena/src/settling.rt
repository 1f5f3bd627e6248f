// Emptying the rings when all seats are in one hand.
ghost use Rattle.std.specs.Prelude.{◌≡◌, ◌+◌, ◌<◌, ◌≤◌, ◌↔◌, ◌++◌, ℕ, All, IfOk, IsTrue, OnErr, OnOk, length, map, sum, slice_index_or, vec_len};
ghost use Rattle.arena.specs.Receipts.{AddsFrees, IsFreeBy, joined};
ghost use Rattle.arena.specs.Seats.{AreInOrder, AreLinked, AreSeatsOf, in_rings, known_lists, sending_side, taken_lists};
ghost use Rattle.arena.specs.Settled.{AreCounted, AreEmptied, AreSameSeats, AreSettled, CountAllKnown, FreeAllKnown, HaveRoomFor, greatest_section, taken_with_known};
ghost use Rattle.remote_queue.specs.declared.ends.TheConstants.{MOST_KNOWN_KEYS};
ghost use Rattle.span.specs.declared.limits.TheConstants.{MOST_SHARDS};

use crate::arena::Arena;
use crate::calling::CallsKeys;
use crate::counting::count_all;
use crate::gate::Gate;
use crate::key_calls::Free;
use crate::patience::Waits;
use crate::receipts::Receipts;
use crate::seat::Seat;
use remote_queue::Inbox;
use span::names::Key;
use span::receipts::Receipt;
use span::spans::Log;
use std::alloc::{AllocError, Global};
use std::sync::Wait;

// Who frees a key wherever its span is.
pub(crate) trait Frees {
    // Frees the key for the worker.
    fn free_key(&mut self, worker: u32, section: u64, key: &Key) -> Receipt
        ensures { IsFreeBy worker section key.now result };
}

// Frees keys under the locks of an arena.
#[derive(Drop)]
struct UnderLocks<'a, G: Gate, L: Log, R: Wait> {
    rt: &'a R,
    arena: &'a Arena<G, L>,
}

impl<'a, G: Gate, L: Log, R: Wait> Frees for UnderLocks<'a, G, L, R> {
    fn free_key(&mut self, worker: u32, section: u64, key: &Key) -> Receipt {
        let Ok(freed) = Waits { rt: self.rt }.call(self.arena, &Free { key }, &mut []);
        freed.free_receipt(worker, section, key)
    }
}

impl<G: Gate, L: Log> Arena<G, L> {
    /// Whether a seat of each worker is there, in order, as [`Arena::settle`] and
    /// [`finish`](crate::finish) ask of its seats.
    pub fn has_all(&self, seats: &[Seat]) -> bool
        ensures { IsTrue result
            ↔ ((length seats.now ≡ self.now.limits.shards) × AreInOrder seats.now) }
    {
        seats.len() == self.limits.shards() as usize && are_in_order(seats)
    }

    /// Settles every ring, by shard, then worker, when all seats are in one hand: takes each key
    /// that was sent and not yet taken, and frees it as [`Seat::free`] does. Each leaves one
    /// receipt, in the order in which it was sent, last in the list of the worker of the ring's
    /// shard, with the greatest section of the seats. It gives how many keys each ring had, by
    /// shard, then worker.
    ///
    /// # Errors
    ///
    /// `AllocError` if room for the counts or the receipts was refused. No key was taken then.
    pub fn settle<R: Wait, K: Receipts>(
        &self,
        rt: &R,
        seats: &mut [Seat],
        receipts: &mut [K],
    ) -> Result<Vec<Vec<usize>>, AllocError>
        // All seats are here, in order, with a list each.
        requires seats { AreSeatsOf self.now.limits self.now.table seats.old }
        requires lists { length receipts.old ≡ length seats.old }

        // Every ring is emptied.
        ensures counts { IfOk result (λ counts. vec_len counts ≡ length seats.old) }
        ensures settled { IfOk result (λ counts. AreSettled K.told seats.old counts.items
            receipts.old receipts.new) }
        ensures emptied { OnOk result (AreEmptied seats.old seats.new) }

        // The seats stay the arena's, and a refusal changes nothing.
        ensures seats { AreSeatsOf self.now.limits self.now.table seats.new }
        ensures linked { AreLinked seats.new }
        ensures err { OnErr result (AreSameSeats seats.old seats.new
            × (map K.told receipts.new ≡ map K.told receipts.old)) }
    {
        know_rings(self, seats);
        let counts = make_room(self.alloc, seats, receipts)?;
        let section = greatest_section(seats);
        let mut locks = UnderLocks { rt, arena: self };
        settle_seats(&mut locks, seats, counts.as_slice(), section, receipts);
        Ok(counts)
    }
}

// Whether each seat stands at its worker's number.
fn are_in_order(seats: &[Seat]) -> bool
    ensures { IsTrue result ↔ AreInOrder seats.now }
{
    for place in 0..seats.len() {
        if seats[place].worker() as usize != place {
            return false;
        }
    }
    true
}

// What the types of an arena and of its seats keep, said of all of them: their ends of rings belong
// together.
pub(crate) fn know_rings<G: Gate, L: Log>(arena: &Arena<G, L>, seats: &[Seat])
    requires { AreSeatsOf arena.now.limits arena.now.table seats.now }
    ensures linked { AreLinked seats.now }
    ensures few { length seats.now ≤ MOST_SHARDS }
{
    // For the prover: there are 64 shards at most.
    let _ = arena.limits.shards();
    for seat in seats {
        seat.knows_its_rings();
    }
}

// Counts what is left in the rings, and makes room for a receipt of each key. Keys and receipts
// stay as they are.
pub(crate) fn make_room<K: Receipts>(
    alloc: Global,
    seats: &mut [Seat],
    receipts: &mut [K],
) -> Result<Vec<Vec<usize>>, AllocError>
    // All seats are here, with their rings and a list each.
    requires linked { AreLinked seats.old }
    requires few { length seats.old ≤ MOST_SHARDS }
    requires lists { length receipts.old ≡ length seats.old }

    // Nothing changes but room.
    ensures same { AreSameSeats seats.old seats.new }
    ensures linked { AreLinked seats.new }
    ensures told { map K.told receipts.new ≡ map K.told receipts.old }
    ensures len { IfOk result (λ counts. vec_len counts ≡ length seats.old) }
    ensures counted { IfOk result (λ counts. (shard : ℕ) (d : _) → shard < length seats.old
        → AreCounted seats.old seats.new shard (slice_index_or counts.items shard d).items) }
    ensures room { IfOk result (λ counts. HaveRoomFor K.room (length seats.old) counts.items
        receipts.new) }
{
    let counts = count_all(alloc, seats)?;
    reserve_all(receipts, counts.as_slice())?;
    Ok(counts)
}

// Takes all that is known to be left in the rings of each shard, and frees it. Each receipt goes
// last in the list of the shard's worker.
pub(crate) fn settle_seats<F: Frees, K: Receipts>(
    by: &mut F,
    seats: &mut [Seat],
    counts: &[Vec<usize>],
    section: u64,
    receipts: &mut [K],
)
    // There is room for the receipts of all counted keys.
    requires wide { (length counts.now ≡ length seats.old)
        × (length receipts.old ≡ length seats.old) }
    requires in_order { AreInOrder seats.old }
    requires counts { CountAllKnown seats.old counts.now }
    requires room { HaveRoomFor K.room (length seats.old) counts.now receipts.old }

    // Each counted key is freed, and has its receipt.
    ensures freed { FreeAllKnown K.told seats.old section receipts.old receipts.new }
    ensures sending { map sending_side seats.new ≡ map sending_side seats.old }
    ensures tables { map (λ seat. seat.table) seats.new ≡ map (λ seat. seat.table) seats.old }
    ensures outboxes { map (λ seat. seat.outboxes) seats.new
        ≡ map (λ seat. seat.outboxes) seats.old }
    ensures rings { map in_rings seats.new ≡ map in_rings seats.old }
    ensures taken { map (λ seat. taken_lists seat.inboxes) seats.new
        ≡ map (λ seat. taken_with_known seat.inboxes) seats.old }
{
    for shard in 0..seats.len() {
        seats[shard].settle(by, counts[shard].as_slice(), section, &mut receipts[shard]);
    }
}

// The greatest section of the seats.
pub(crate) fn greatest_section(seats: &[Seat]) -> u64
    ensures { result ≡ greatest_section seats.now }
{
    let mut most = 0;
    for seat in seats {
        most = most.max(seat.section());
    }
    most
}

// Takes the known keys of each ring, one ring after the other, and frees each.
pub(crate) fn settle_rings<F: Frees, K: Receipts>(
    by: &mut F,
    inboxes: &mut Vec<Inbox>,
    counts: &[usize],
    worker: u32,
    section: u64,
    receipts: &mut K,
)
    requires counts { counts.now ≡ map length (known_lists inboxes.old.items) }
    requires room { sum counts.now ≤ K.room receipts.old }
    ensures len { vec_len inboxes.new ≡ vec_len inboxes.old }
    ensures rings { map (λ inbox. inbox.ring) inboxes.new.items
        ≡ map (λ inbox. inbox.ring) inboxes.old.items }
    ensures taken { taken_lists inboxes.new.items ≡ taken_with_known inboxes.old.items }
    ensures freed { AddsFrees worker section (joined (known_lists inboxes.old.items))
        (K.told receipts.old) (K.told receipts.new) }
{
    for from in 0..counts.len() {
        settle_ring(
            by,
            &mut inboxes[from],
            counts[from],
            worker,
            section,
            receipts,
        );
    }
}

// Takes the known keys of a ring, and frees each.
fn settle_ring<F: Frees, K: Receipts>(
    by: &mut F,
    inbox: &mut Inbox,
    left: usize,
    worker: u32,
    section: u64,
    receipts: &mut K,
)
    requires left { left ≡ length inbox.old.known }
    requires room { left ≤ K.room receipts.old }
    ensures room { K.room receipts.old ≤ K.room receipts.new + left }
    ensures ring { inbox.new.ring ≡ inbox.old.ring }
    ensures taken { inbox.new.taken ≡ inbox.old.taken ++ inbox.old.known }
    ensures freed { AddsFrees worker section inbox.old.known (K.told receipts.old)
        (K.told receipts.new) }
{
    for _ in 0..left {
        let key = inbox.take_known();
        receipts.tell(by.free_key(worker, section, &key));
    }
}

// Room for as many receipts as each row counts. What the lists have stays.
fn reserve_all<K: Receipts>(receipts: &mut [K], counts: &[Vec<usize>]) -> Result<(), AllocError>
    requires wide { length counts.now ≡ length receipts.old }
    requires few { All (λ row. All (λ count. count ≤ MOST_KNOWN_KEYS) row.items
        × (vec_len row ≤ MOST_SHARDS)) counts.now }
    ensures told { map K.told receipts.new ≡ map K.told receipts.old }
    ensures room { OnOk result (HaveRoomFor K.room (length receipts.old) counts.now receipts.new) }
{
    for shard in 0..receipts.len() {
        let more = total(counts[shard].as_slice());
        receipts[shard].make_room(more)?;
    }
    Ok(())
}

// The sum of a row of counts.
fn total(counts: &[usize]) -> usize
    requires few { All (λ count. count ≤ MOST_KNOWN_KEYS) counts.now }
    requires short { length counts.now ≤ MOST_SHARDS }
    ensures { result ≡ sum counts.now }
{
    let mut all = 0;
    for count in counts {
        all += *count;
    }
    all
}
