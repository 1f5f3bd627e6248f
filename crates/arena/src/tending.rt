// Taking keys from rings while others work, with a receipt for each.
ghost use Rattle.std.specs.Prelude.{◌≡◌, ◌+◌, ◌<◌, ◌≤◌, IfOk, OnErr, length, sum_by, vec_len};
ghost use Rattle.arena.specs.Tended.{AreLookedAt, AreRingsTended, IsRingTended, known_count};
ghost use Rattle.span.specs.declared.limits.TheConstants.{MOST_RING_KEYS, MOST_SHARDS};

use crate::arena::Arena;
use crate::calling::CallsKeys;
use crate::gate::Gate;
use crate::receipts::Receipts;
use crate::seat::Tended;
use remote_queue::Inbox;
use span::spans::Log;

// How many keys are seen on the rings, at most that many of each. Their ends then know them.
pub(crate) fn look_at_rings(inboxes: &mut Vec<Inbox>, most: usize) -> usize
    requires few { (vec_len inboxes.old ≤ MOST_SHARDS) × (most ≤ MOST_RING_KEYS) }
    ensures len { vec_len inboxes.new ≡ vec_len inboxes.old }
    ensures looked { AreLookedAt inboxes.old.items inboxes.new.items }
    ensures count { result ≡ sum_by (known_count most) inboxes.new.items }
{
    let mut count = 0;
    for from in 0..inboxes.len() {
        count += inboxes[from].look().min(most);
    }
    count
}

// Takes the keys that are known from each of the rings, at most that many, one ring after the
// other, and frees each. A key is taken only once it is freed, so that a call which does not wait
// leaves off at the first one that needs a lock which another thread has, and says so.
pub(crate) fn tend_rings<G: Gate, L: Log, P: CallsKeys, K: Receipts>(
    patience: &P,
    arena: &Arena<G, L>,
    inboxes: &mut Vec<Inbox>,
    most: usize,
    worker: u32,
    section: u64,
    receipts: &mut K,
) -> Tended
    requires few { (vec_len inboxes.old ≤ MOST_SHARDS) × (most ≤ MOST_RING_KEYS) }
    requires room { sum_by (known_count most) inboxes.old.items ≤ K.room receipts.old }
    ensures len { vec_len inboxes.new ≡ vec_len inboxes.old }
    ensures tended { AreRingsTended most worker section (vec_len inboxes.old) inboxes.old.items
        inboxes.new.items (K.told receipts.old) (K.told receipts.new) result.count }
{
    let mut total = 0;
    let mut is_busy = false;
    for from in 0..inboxes.len() {
        let known = keys_to_take(&inboxes[from], most, is_busy);
        let tended = tend_ring(
            patience,
            arena,
            &mut inboxes[from],
            known,
            worker,
            section,
            receipts,
        );
        total += tended.count;
        is_busy = is_busy || tended.is_busy;
    }
    Tended {
        count: total,
        is_busy,
    }
}

// How many keys are taken from a ring: those that are known, at most that many, and none if the
// call has left off.
fn keys_to_take(inbox: &Inbox, most: usize, is_busy: bool) -> usize
    ensures { result ≤ known_count most inbox.now }
{
    if is_busy {
        return 0;
    }
    inbox.known().min(most)
}

// Frees at most that many of the known keys of a ring, each of which it takes once that is done.
fn tend_ring<G: Gate, L: Log, P: CallsKeys, K: Receipts>(
    patience: &P,
    arena: &Arena<G, L>,
    inbox: &mut Inbox,
    most: usize,
    worker: u32,
    section: u64,
    receipts: &mut K,
) -> Tended
    requires known { most ≤ length inbox.old.known }
    requires room { most ≤ K.room receipts.old }
    ensures few { result.count ≤ most }
    ensures room { K.room receipts.old ≤ K.room receipts.new + result.count }
    ensures tended { IsRingTended worker section result.count inbox.old inbox.new
        (K.told receipts.old) (K.told receipts.new) }
{
    let mut count = 0;
    for _ in 0..most {
        if count == most {
            break;
        }
        let left = most - count;
        let Ok(freed) = tend_some(patience, arena, inbox, left, worker, section, receipts) else {
            return Tended {
                count,
                is_busy: true,
            };
        };
        count += freed;
    }
    Tended {
        count,
        is_busy: false,
    }
}

// Frees the next of the known keys, at most that many, and takes each: those in a row that are at
// home, or the one whose span is elsewhere. They are drawn from the ring in blocks, so that it does
// not pay for each of them, and the next ones have their places meanwhile.
fn tend_some<G: Gate, L: Log, P: CallsKeys, K: Receipts>(
    patience: &P,
    arena: &Arena<G, L>,
    inbox: &mut Inbox,
    most: usize,
    worker: u32,
    section: u64,
    receipts: &mut K,
) -> Result<usize, P::Busy>
    requires some { 0 < most }
    requires known { most ≤ length inbox.old.known }
    requires room { most ≤ K.room receipts.old }
    ensures few { IfOk result (λ count. count ≤ most) }
    ensures room { IfOk result (λ count. K.room receipts.old ≤ K.room receipts.new + count) }
    ensures known { IfOk result (λ count. length inbox.old.known
        ≤ length inbox.new.known + count) }
    ensures tended { IfOk result (λ count. IsRingTended worker section count inbox.old inbox.new
        (K.told receipts.old) (K.told receipts.new)) }
    ensures busy { OnErr result (IsRingTended worker section 0 inbox.old inbox.new
        (K.told receipts.old) (K.told receipts.new)) }
    ensures busy_room { OnErr result (K.room receipts.old ≤ K.room receipts.new) }
{
    inbox.draw(most);
    let drawn = inbox.drawn();
    let (keys, _) = drawn.split_at(most.min(drawn.len()));
    let freed = arena.free_first(patience, worker, section, keys, receipts)?;
    inbox.take_drawn(freed);
    Ok(freed)
}
