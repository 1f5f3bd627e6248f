// A worker's place at the arena.
ghost use Rattle.std.specs.Prelude.{◌≡◌, ◌+◌, ◌-◌, ◌<◌, ◌≤◌, ◌^◌, ◌↔◌, ◌++◌, [], IfOk, IfSome, IsOk, IsTrue, None, OnErr, OnOk, Some, length, map, slice_get, slice_index_or, sum, vec_len};
ghost use Rattle.arena.specs.Delays.{CountsCall, HandsOver, HasNoneWaiting, NoneWaits, delay_begun};
ghost use Rattle.arena.specs.KeyCalls.{IsFreed, IsLookedUp, IsSet};
ghost use Rattle.arena.specs.Receipts.{AddsFrees, free_receipt, get_receipt, joined, put_receipt, set_receipt};
ghost use Rattle.arena.specs.Seats.{AreNoFewer, HasItsRings, KeepPlacesBut, KeepsAllButSent, KeepsEnds, Sends, free_places, free_places_to, in_rings, known_lists, new_seat, sending_side, sent_lists, taken_lists, with_inboxes};
ghost use Rattle.arena.specs.Settled.{taken_with_known};
ghost use Rattle.arena.specs.Tended.{IsTended, TendsNone};
ghost use Rattle.arena.specs.KeyAnswers.{LooksUp};
ghost use Rattle.span.specs.Classes.{width_of};
ghost use Rattle.remote_queue.specs.Rings.{inbox_rings};
ghost use Rattle.arena.specs.declared.outboxes.TheConstants.{MOST_DELAY};
ghost use Rattle.remote_queue.specs.declared.ends.TheConstants.{MOST_KNOWN_KEYS};
ghost use Rattle.span.specs.declared.limits.TheConstants.{MOST_SHARDS};

use crate::arena::Arena;
use crate::calling::CallsKeys;
use crate::gate::Gate;
use crate::gathering::gather_in;
use crate::key_calls::{Free, Get, Set};
use crate::lent_calls::{Issued, Looked, Outcome};
use crate::outboxes::{MOST_DELAY, Outboxes};
use crate::patience::{Patience, Waits};
use crate::receipts::Receipts;
use crate::ring_table::RingTable;
use crate::settling::{Frees, settle_rings};
use crate::tending::{look_at_rings, tend_rings};
use crate::word::Word;
use marks::Limits;
use pool::{AdoptError, ReceiveError};
use remote_queue::{Inbox, Outbox};
use shard::PutError;
use span::ghost_list::GhostList;
use span::names::{Class, Key, Object, SpanId};
use span::receipts::Receipt;
use span::spans::Log;
use std::alloc::AllocError;
use std::marker::Model;
use std::mem::swap;
use std::sync::Wait;

mod trying;

pub use trying::Tended;

// How many words an object has at most.
const MOST_WORDS: usize = 16;

/// A worker's place: it puts into the shard of its number, and its receipts carry that number and
/// the section of the run that it is in. It has an end of the worker's ring to each shard, and of
/// each worker's ring to its own shard.
///
/// A key that it leaves to another thread goes in a block with others, and is on its ring, where
/// that thread sees it, at the latest when the seat calls `tend`, `hand_over`, `end` or
/// `next_section`, is dropped, or makes the [`MOST_DELAY`]th further call: each `put`, `get`,
/// `set`, `free`, `free_later`, `retire`, `trim`, `gather` and `adopt` is one.
#[derive(Drop)]
pub struct Seat {
    worker: u32,
    section: u64,
    limits: Limits,
    // All rings of the arena, of which it has the ends of a row and of a column.
    table: RingTable,
    outboxes: Outboxes,
    // By worker.
    inboxes: Vec<Inbox>,
    ghost worker_has_shard: { worker < limits.shards },
    ghost worker_in_range: { worker < MOST_SHARDS },
    ghost outbox_each: { length outboxes.ends ≡ limits.shards },
    ghost inboxes_few: { vec_len inboxes ≤ MOST_SHARDS },
    ghost sends_by_its_row: { map (λ outbox. outbox.ring) outboxes.ends
        ≡ slice_index_or table.rows worker [] },
    ghost takes_by_its_column: { map (λ inbox. inbox.ring) inboxes.items
        ≡ slice_index_or table.columns worker [] },
}

impl Model for Seat {
    ghost use Rattle.std.specs.Prelude.{◌<◌};
    ghost use Rattle.arena.specs.Seats.{SeatState};

    ghost Value = { SeatState };

    ghost view = { λ seat. record {
      worker = seat.worker;
      section = seat.section;
      limits = seat.limits;
      table = seat.table;
      delay = seat.outboxes.delay;
      outboxes = seat.outboxes.ends;
      inboxes = seat.inboxes.items;
    } };
}

impl Seat {
    // A worker's seat at an arena of these numbers, in section 0, with its ends of the rings.
    pub(crate) fn new(
        worker: u32,
        limits: Limits,
        table: RingTable,
        outboxes: Vec<Outbox>,
        inboxes: Vec<Inbox>,
    ) -> Seat
        requires has_shard { worker < limits.shards }
        requires in_range { worker < MOST_SHARDS }
        requires none_waits { NoneWaits outboxes.items }
        requires outbox_each { vec_len outboxes ≡ limits.shards }
        requires inboxes_few { vec_len inboxes ≤ MOST_SHARDS }
        requires row { map (λ outbox. outbox.ring) outboxes.items
            ≡ slice_index_or table.rows worker [] }
        requires column { map (λ inbox. inbox.ring) inboxes.items
            ≡ slice_index_or table.columns worker [] }
        ensures rings { HasItsRings result }
        ensures seat { result ≡ new_seat worker limits table outboxes.items inboxes.items }
    {
        Seat {
            worker,
            section: 0,
            limits,
            table,
            outboxes: Outboxes::new(outboxes),
            inboxes,
        }
    }

    /// The worker's number, which is that of its shard.
    pub fn worker(&self) -> u32
        ensures worker { result ≡ self.now.worker }
        ensures fits { result < self.now.limits.shards }
    {
        self.worker
    }

    /// Whether its numbers are those of the arena, as each call asks that is lent both.
    pub fn fits<G: Gate, L: Log>(&self, arena: &Arena<G, L>) -> bool
        ensures { IsTrue result ↔ (self.now.limits ≡ arena.now.limits) }
    {
        self.limits == arena.limits
    }

    /// The section that its receipts carry.
    pub fn section(&self) -> u64
        ensures { result ≡ self.now.section }
    {
        self.section
    }

    /// How many calls it has made since it left the first key that may still wait for its block to
    /// be full, fewer than [`MOST_DELAY`]. If this is `None`, no key waits.
    pub fn delay(&self) -> Option<u32>
        ensures delay { result ≡ self.now.delay }
        ensures few { IfSome result (λ calls. calls < MOST_DELAY) }
        ensures none { result ≡ None → NoneWaits self.now.outboxes }
    {
        self.outboxes.delay()
    }

    /// From now on its receipts carry the next section, and the keys that wait are handed over.
    /// That all workers go on together, at a barrier, is the callers' own affair. It waits for
    /// nobody and takes no memory.
    pub fn next_section(&mut self)
        requires { self.old.section < 2 ^ 64 - 1 }
        ensures { HandsOver (record self.old { section = self.old.section + 1 }) self.new }
    {
        self.hand_over();
        self.section += 1;
    }

    /// Puts the object into the worker's shard, as [`Seat::try_put`] does, once no other thread has
    /// that shard's lock, and gives the key and the receipt.
    ///
    /// # Errors
    ///
    /// As those of [`Shard::put_words`](shard::Shard::put_words) on the shard as it then is:
    /// `Ended`, `PagesSpent` and `OutOfMemory`.
    pub fn put<G: Gate, L: Log, R: Wait>(
        &mut self,
        rt: &R,
        arena: &Arena<G, L>,
        value: Object,
    ) -> Result<(Key, Receipt), PutError>
        requires { self.old.limits ≡ arena.now.limits }
        ensures receipt { IfOk result (λ put. put.1 ≡ put_receipt self.old.worker self.old.section
            value put.0 put.1.at) }
        ensures seat { CountsCall self.old self.new }
    {
        let Ok(put) = self.put_within(&Waits { rt }, arena, value.class(), value.words());
        let put = put?;
        Ok((put.key(), put.receipt(self.worker, self.section, value)))
    }

    /// Looks the key up, as [`Seat::try_get`] does, once no other thread has a lock that it needs,
    /// and gives what was found and the receipt.
    pub fn get<G: Gate, L: Log, R: Wait>(
        &mut self,
        rt: &R,
        arena: &Arena<G, L>,
        key: &Key,
    ) -> (Option<Object>, Receipt)
        requires { self.old.limits ≡ arena.now.limits }
        ensures receipt { result.1 ≡ get_receipt self.old.worker self.old.section key.now result.0
            result.1.at }
        ensures seat { CountsCall self.old self.new }
    {
        let mut room = [0; MOST_WORDS];
        let Ok(looked) = self.get_within(&Waits { rt }, arena, key, &mut room);
        let found = looked.object(&room);
        let receipt = looked.receipt(self.worker, self.section, key, &found);
        (found, receipt)
    }

    /// Sets the key's object to this one in place, as [`Seat::try_set`] does, once no other thread
    /// has a lock that it needs, and gives whether it did so and the receipt.
    ///
    /// # Errors
    ///
    /// `AllocError` in place of a set that would be done, if the span's log could not grow.
    /// Nothing is set then, and there is no receipt.
    pub fn set<G: Gate, L: Log, R: Wait>(
        &mut self,
        rt: &R,
        arena: &Arena<G, L>,
        key: &Key,
        value: Object,
    ) -> Result<(bool, Receipt), AllocError>
        requires { self.old.limits ≡ arena.now.limits }
        ensures receipt { IfOk result (λ set. set.1 ≡ set_receipt self.old.worker self.old.section
            key.now value set.0 set.1.at) }
        ensures seat { CountsCall self.old self.new }
    {
        let Ok(set) = self.set_within(&Waits { rt }, arena, key, value.words());
        let set = set?;
        Ok((
            set.done(),
            set.set_receipt(self.worker, self.section, key, value),
        ))
    }

    /// Frees the key, as [`Seat::try_free`] does, once no other thread has a lock that it needs,
    /// and gives whether it was live and the receipt.
    pub fn free<G: Gate, L: Log, R: Wait>(
        &mut self,
        rt: &R,
        arena: &Arena<G, L>,
        key: &Key,
    ) -> (bool, Receipt)
        requires { self.old.limits ≡ arena.now.limits }
        ensures receipt { result.1 ≡ free_receipt self.old.worker self.old.section key.now result.0
            result.1.at }
        ensures seat { CountsCall self.old self.new }
    {
        let Ok(freed) = self.free_within(&Waits { rt }, arena, key);
        (
            freed.done(),
            freed.free_receipt(self.worker, self.section, key),
        )
    }

    /// Whether the shard that opened the key's span is one of the arena's, as [`Seat::free_later`]
    /// requires. If so, the seat holds the sending end of the ring to that shard.
    pub fn has_shard_of(&self, key: &Key) -> bool
        ensures shard { IsTrue result ↔ (key.now.span.shard < self.now.limits.shards) }
        ensures end { IsTrue result → key.now.span.shard < length self.now.outboxes }
    {
        key.span.shard < self.limits.shards()
    }

    /// Leaves the key to the thread of the shard that opened its span, which frees it when it next
    /// tends its rings, or when the arena ends, wherever the span then is. Keys go in blocks: until
    /// its block is full the key waits at the seat, for fewer than [`MOST_DELAY`] further calls. It
    /// takes no lock and no memory, waits for nobody, and succeeds if a place of the ring is
    /// known to be free.
    ///
    /// # Errors
    ///
    /// The key, handed back, if the ring took none: each of its places was seen to hold a key,
    /// those of the block among them. All keys that wait are then handed over.
    #[inline(always)]
    pub fn free_later(&mut self, key: Key) -> Result<(), Key>
        requires { key.span.shard < self.old.limits.shards }
        ensures sent { Sends key (sent_lists self.old) result (sent_lists self.new) }
        ensures succeeds { 0 < free_places_to self.old.outboxes key.span.shard → IsOk result }
        ensures place { OnOk result (free_places_to self.old.outboxes key.span.shard
            ≤ free_places_to self.new.outboxes key.span.shard + 1) }
        ensures places { KeepPlacesBut key.span.shard self.old.outboxes self.new.outboxes }
        ensures waits { OnOk result (self.new.delay ≡ delay_begun self.old.delay) }
        ensures none { self.new.delay ≡ None → NoneWaits self.new.outboxes }
        ensures refused { OnErr result (HasNoneWaiting self.new) }
        ensures seat { KeepsAllButSent self.old self.new }
    {
        self.outboxes.leave(key)
    }

    /// Hands over the keys that were left to shards' threads and wait for their block to be full,
    /// so that these threads can see all of them. It takes no lock and no memory, and waits for
    /// nobody.
    pub fn hand_over(&mut self)
        ensures { HandsOver self.old self.new }
    {
        self.outboxes.hand_over();
    }

    /// Hands over what the seat has left to others, looks how many keys have come in for its shard,
    /// and takes these, ring after ring by worker, at most a ring's capacity from each, and frees
    /// each, as [`Seat::free`] does. Each leaves one receipt, in the order in which they were
    /// taken. It gives how many there were.
    ///
    /// # Errors
    ///
    /// `AllocError` if room for the receipts of the keys that were seen on the rings was
    /// refused. No key was taken then; what the seat has left to others is handed over.
    pub fn tend<G: Gate, L: Log, R: Wait, K: Receipts>(
        &mut self,
        rt: &R,
        arena: &Arena<G, L>,
        receipts: &mut K,
    ) -> Result<usize, AllocError>
        requires { self.old.limits ≡ arena.now.limits }
        ensures tended { IfOk result (λ count. IsTended self.old.limits.ring_capacity self.old
            self.new (K.told receipts.old) (K.told receipts.new) count) }
        ensures none { HasNoneWaiting self.new }
        ensures seat { KeepsEnds self.old self.new
            × (sending_side self.new ≡ sending_side self.old) }
        ensures places { AreNoFewer (free_places self.old.outboxes)
            (free_places self.new.outboxes) }
        ensures err { OnErr result (TendsNone self.old self.new (K.told receipts.old)
            (K.told receipts.new)) }
    {
        self.hand_over();
        let most = self.limits.ring_capacity();
        let seen = look_at_rings(&mut self.inboxes, most);
        receipts.make_room(seen)?;
        let tended = tend_rings(
            &Waits { rt },
            arena,
            &mut self.inboxes,
            most,
            self.worker,
            self.section,
            receipts,
        );
        Ok(tended.count)
    }

    /// The end of the worker's shard, under the pool's lock and the shard's: all its groups go to
    /// the pool. The keys that wait at the seat are handed over first.
    ///
    /// # Errors
    ///
    /// As those of [`Pool::receive`](pool::Pool::receive) on pool and shard as they then are:
    /// `Ended`, `Doubled`, `PlanOpen` if a group of the shard is closed, and `OutOfMemory`.
    /// Nothing has moved then. When each comes, that call's contract says; no clause here can name
    /// what the locks guarded.
    pub fn end<G: Gate, L: Log, R: Wait>(
        &mut self,
        rt: &R,
        arena: &Arena<G, L>,
    ) -> Result<(), ReceiveError>
        requires { self.old.limits ≡ arena.now.limits }
        ensures seat { HandsOver self.old self.new }
    {
        let Ok(ended) = self.end_within(&Waits { rt }, arena);
        ended
    }

    /// Begins the worker's shard again, if it has ended, under the shard's lock, as
    /// [`Shard::begin`](shard::Shard::begin) does: it takes puts and adopts as before, and issues
    /// no key twice. It answers whether it had ended; a shard that runs stays as it was. Whether it
    /// had no clause here can say, since none names what the lock guarded. So a seat can go to a
    /// new thread once its shard has ended: what waits on its rings waits for that thread. It takes
    /// no memory.
    pub fn begin<G: Gate, L: Log, R: Wait>(&mut self, rt: &R, arena: &Arena<G, L>) -> bool
        requires { self.old.limits ≡ arena.now.limits }
        ensures seat { CountsCall self.old self.new }
    {
        let Ok(had_ended) = self.begin_within(&Waits { rt }, arena);
        had_ended
    }

    /// Retires up to `most` groups of the worker's shard, under the pool's lock and the shard's:
    /// those with the fewest live keys, of those that have one at least, go to the pool, and the
    /// shard goes on. It gives how many went, which is `most`, or all that have a live key.
    ///
    /// # Errors
    ///
    /// As those of [`Pool::retire`](pool::Pool::retire) on pool and shard as they then are:
    /// `Ended`, `Doubled`, `PlanOpen` if a group of the shard is closed, and `OutOfMemory`.
    /// Nothing has moved then. When each comes, and how many groups go, that call's contract says;
    /// no clause here can name what the locks guarded.
    pub fn retire<G: Gate, L: Log, R: Wait>(
        &mut self,
        rt: &R,
        arena: &Arena<G, L>,
        most: usize,
    ) -> Result<usize, ReceiveError>
        requires { self.old.limits ≡ arena.now.limits }
        ensures at_most { IfOk result (λ count. count ≤ most) }
        ensures seat { CountsCall self.old self.new }
    {
        let Ok(retired) = self.retire_within(&Waits { rt }, arena, most);
        retired
    }

    /// Gives back the page of each open group of the worker's shard in which no slot is live, under
    /// the shard's lock, and answers how many went, as [`Shard::trim`](shard::Shard::trim) does;
    /// that this is of what the lock guarded no clause can name. It takes no memory.
    pub fn trim<G: Gate, L: Log, R: Wait>(&mut self, rt: &R, arena: &Arena<G, L>) -> usize
        requires { self.old.limits ≡ arena.now.limits }
        ensures seat { CountsCall self.old self.new }
    {
        let Ok(count) = self.trim_within(&Waits { rt }, arena);
        count
    }

    /// Moves the pages of up to `most` groups of the worker's shard, from its group `from` on, to
    /// blocks that it asks for now, under the shard's lock, and says how many groups these are:
    /// fewer than `most` if the shard has no more. No key changes. A source of pages that hands out
    /// its lowest free block first can so empty its upper end. In parts of few groups the lock is
    /// held for a short time only; groups that come or go between two parts may be passed over, or
    /// moved twice.
    ///
    /// # Errors
    ///
    /// `AllocError` if a block is refused. Some pages have moved then.
    pub fn gather<G: Gate, L: Log, R: Wait>(
        &mut self,
        rt: &R,
        arena: &Arena<G, L>,
        from: usize,
        most: usize,
    ) -> Result<usize, AllocError>
        requires { self.old.limits ≡ arena.now.limits }
        ensures at_most { IfOk result (λ count. count ≤ most) }
        ensures seat { CountsCall self.old self.new }
    {
        let Ok(gathered) = self.gather_within(&Waits { rt }, arena, from, most);
        gathered
    }

    /// The worker's shard adopts the pool's group of lowest head that has a page, under the pool's
    /// lock and the shard's, and gives its head.
    ///
    /// # Errors
    ///
    /// As those of [`Pool::adopt`](pool::Pool::adopt) on pool and shard as they then are:
    /// `PagesSpent`, `Ended`, `Doubled`, `PlanOpen`, `NothingToAdopt` and `OutOfMemory`. Nothing
    /// has moved then. When each comes, and which group, that call's contract says; no clause here
    /// can name what the locks guarded.
    pub fn adopt<G: Gate, L: Log, R: Wait>(
        &mut self,
        rt: &R,
        arena: &Arena<G, L>,
    ) -> Result<SpanId, AdoptError>
        requires { self.old.limits ≡ arena.now.limits }
        ensures seat { CountsCall self.old self.new }
    {
        let Ok(adopted) = self.adopt_within(&Waits { rt }, arena);
        adopted
    }

    // Counts a call, if keys wait, and hands them over if it is the last that they may wait.
    #[inline(always)]
    pub(crate) fn count_call(&mut self)
        ensures { CountsCall self.old self.new }
    {
        self.outboxes.count_call();
    }

    // A put into the worker's shard.
    #[inline(always)]
    fn put_within<G: Gate, L: Log, P: Patience>(
        &mut self,
        patience: &P,
        arena: &Arena<G, L>,
        class: Class,
        words: &[u128],
    ) -> Result<Result<Issued, PutError>, P::Busy>
        requires fits { self.old.limits ≡ arena.now.limits }
        requires width { length words.now ≡ width_of class }
        ensures seat { OnOk result (CountsCall self.old self.new) }
        ensures busy { OnErr result (self.new ≡ self.old) }
    {
        let mut shard = patience.lock(&arena.shards[self.worker as usize])?;
        arena.gate.inside(self.worker);
        self.count_call();
        Ok(arena.put_in(&mut *shard, class, words))
    }

    // A look-up of the key, whose words go into the room.
    #[inline(always)]
    fn get_within<G: Gate, L: Log, P: CallsKeys, W: Word>(
        &mut self,
        patience: &P,
        arena: &Arena<G, L>,
        key: &Key,
        room: &mut [W],
    ) -> Result<Looked, P::Busy>
        ensures key { IfOk result (λ got. got.0 ≡ key.now) }
        ensures words { IfOk result (λ got. LooksUp W.word room.old got.1 room.new) }
        ensures answered { IfOk result (λ got.
            IsLookedUp W.word key.now room.old got room.new) }
        ensures seat { OnOk result (CountsCall self.old self.new) }
        ensures busy { OnErr result ((self.new ≡ self.old) × (room.new ≡ room.old)) }
    {
        let looked = patience.call(arena, &Get { key }, room)?;
        self.count_call();
        Ok(looked)
    }

    // A set of the key to the object of these words.
    #[inline(always)]
    fn set_within<G: Gate, L: Log, P: CallsKeys>(
        &mut self,
        patience: &P,
        arena: &Arena<G, L>,
        key: &Key,
        words: &[u128],
    ) -> Result<Result<Outcome, AllocError>, P::Busy>
        ensures key { IfOk result (λ made. IfOk made (λ set. set.0 ≡ key.now)) }
        ensures answered { IfOk result (IsSet key.now words.now) }
        ensures seat { OnOk result (CountsCall self.old self.new) }
        ensures busy { OnErr result (self.new ≡ self.old) }
    {
        let set = patience.call(arena, &Set { key, words }, &mut [])?;
        self.count_call();
        Ok(set)
    }

    // A free of the key.
    #[inline(always)]
    fn free_within<G: Gate, L: Log, P: CallsKeys>(
        &mut self,
        patience: &P,
        arena: &Arena<G, L>,
        key: &Key,
    ) -> Result<Outcome, P::Busy>
        ensures key { IfOk result (λ freed. freed.0 ≡ key.now) }
        ensures answered { IfOk result (IsFreed key.now) }
        ensures seat { OnOk result (CountsCall self.old self.new) }
        ensures busy { OnErr result (self.new ≡ self.old) }
    {
        let freed = patience.call(arena, &Free { key }, &mut [])?;
        self.count_call();
        Ok(freed)
    }

    // The end of the worker's shard.
    fn end_within<G: Gate, L: Log, P: Patience>(
        &mut self,
        patience: &P,
        arena: &Arena<G, L>,
    ) -> Result<Result<(), ReceiveError>, P::Busy>
        requires { self.old.limits ≡ arena.now.limits }
        ensures seat { OnOk result (HandsOver self.old self.new) }
        ensures busy { OnErr result (self.new ≡ self.old) }
    {
        let mut pool = patience.lock(&arena.pool)?;
        let mut shard = patience.lock(&arena.shards[self.worker as usize])?;
        self.hand_over();
        Ok(pool.receive(&mut *shard))
    }

    // Begins the worker's shard again, if it has ended.
    fn begin_within<G: Gate, L: Log, P: Patience>(
        &mut self,
        patience: &P,
        arena: &Arena<G, L>,
    ) -> Result<bool, P::Busy>
        requires { self.old.limits ≡ arena.now.limits }
        ensures seat { OnOk result (CountsCall self.old self.new) }
        ensures busy { OnErr result (self.new ≡ self.old) }
    {
        let worker = self.worker;
        let mut shard = patience.lock(&arena.shards[worker as usize])?;
        arena.gate.inside(worker);
        self.count_call();
        Ok(shard.begin())
    }

    // Retires up to that many groups of the worker's shard.
    fn retire_within<G: Gate, L: Log, P: Patience>(
        &mut self,
        patience: &P,
        arena: &Arena<G, L>,
        most: usize,
    ) -> Result<Result<usize, ReceiveError>, P::Busy>
        requires { self.old.limits ≡ arena.now.limits }
        ensures at_most { IfOk result (λ retired. IfOk retired (λ count. count ≤ most)) }
        ensures seat { OnOk result (CountsCall self.old self.new) }
        ensures busy { OnErr result (self.new ≡ self.old) }
    {
        let mut pool = patience.lock(&arena.pool)?;
        let mut shard = patience.lock(&arena.shards[self.worker as usize])?;
        self.count_call();
        Ok(pool.retire(&mut *shard, most))
    }

    // Gives back the pages of the worker's shard in which nothing is live.
    fn trim_within<G: Gate, L: Log, P: Patience>(
        &mut self,
        patience: &P,
        arena: &Arena<G, L>,
    ) -> Result<usize, P::Busy>
        requires { self.old.limits ≡ arena.now.limits }
        ensures seat { OnOk result (CountsCall self.old self.new) }
        ensures busy { OnErr result (self.new ≡ self.old) }
    {
        let number = self.worker;
        let mut shard = patience.lock(&arena.shards[number as usize])?;
        arena.gate.inside(number);
        self.count_call();
        Ok(shard.trim())
    }

    // Moves the pages of up to that many groups of the worker's shard.
    fn gather_within<G: Gate, L: Log, P: Patience>(
        &mut self,
        patience: &P,
        arena: &Arena<G, L>,
        from: usize,
        most: usize,
    ) -> Result<Result<usize, AllocError>, P::Busy>
        requires { self.old.limits ≡ arena.now.limits }
        ensures at_most { IfOk result (λ gathered. IfOk gathered (λ count. count ≤ most)) }
        ensures seat { OnOk result (CountsCall self.old self.new) }
        ensures busy { OnErr result (self.new ≡ self.old) }
    {
        let own = self.worker;
        let mut shard = patience.lock(&arena.shards[own as usize])?;
        arena.gate.inside(own);
        self.count_call();
        Ok(gather_in(&mut *shard, from, most))
    }

    // The worker's shard adopts a group of the pool.
    fn adopt_within<G: Gate, L: Log, P: Patience>(
        &mut self,
        patience: &P,
        arena: &Arena<G, L>,
    ) -> Result<Result<SpanId, AdoptError>, P::Busy>
        requires { self.old.limits ≡ arena.now.limits }
        ensures seat { OnOk result (CountsCall self.old self.new) }
        ensures busy { OnErr result (self.new ≡ self.old) }
    {
        let mut pool = patience.lock(&arena.pool)?;
        let mut shard = patience.lock(&arena.shards[self.worker as usize])?;
        self.count_call();
        Ok(arena.adopt_in(&mut *pool, &mut *shard, self.worker))
    }

    // How many keys the worker sent to a shard that the shard's end has not taken. That end then
    // knows them.
    pub(crate) fn count_left(&mut self, shard: usize, inbox: &mut Inbox) -> usize
        requires { slice_get (map (λ outbox. outbox.ring) self.old.outboxes) shard
            ≡ Some inbox.old.ring }
        ensures seat { (sending_side self.new ≡ sending_side self.old)
            × (self.new.inboxes ≡ self.old.inboxes) }
        ensures table { self.new.table ≡ self.old.table }
        ensures places { AreNoFewer (free_places self.old.outboxes)
            (free_places self.new.outboxes) }
        ensures inbox { (inbox.new.ring ≡ inbox.old.ring) × (inbox.new.taken ≡ inbox.old.taken) }
        ensures left { result ≡ length inbox.new.known }
        ensures whole { slice_index_or (sent_lists self.old) shard [] ≡ inbox.new.taken
            ++ inbox.new.known }
        ensures few { result ≤ MOST_KNOWN_KEYS }
    {
        self.outboxes.count_left(shard, inbox)
    }

    // Takes the known keys of each of its rings, and frees each. The receipts are of the section.
    pub(crate) fn settle<F: Frees, K: Receipts>(
        &mut self,
        by: &mut F,
        counts: &[usize],
        section: u64,
        receipts: &mut K,
    )
        requires counts { counts.now ≡ map length (known_lists self.old.inboxes) }
        requires room { sum counts.now ≤ K.room receipts.old }
        ensures seat { (sending_side self.new ≡ sending_side self.old)
            × (in_rings self.new ≡ in_rings self.old) }
        ensures table { self.new.table ≡ self.old.table }
        ensures outboxes { self.new.outboxes ≡ self.old.outboxes }
        ensures taken { taken_lists self.new.inboxes ≡ taken_with_known self.old.inboxes }
        ensures freed { AddsFrees self.old.worker section
            (joined (known_lists self.old.inboxes)) (K.told receipts.old) (K.told receipts.new) }
    {
        settle_rings(
            by,
            &mut self.inboxes,
            counts,
            self.worker,
            section,
            receipts,
        );
    }

    // What its type keeps: its ends are of its row and its column of the rings.
    pub(crate) fn knows_its_rings(&self)
        ensures { HasItsRings self.now }
    {
        // For the prover: the ghost fields hold.
        let _ = &self.worker;
    }

    // Gives its takers' ends for others, which are of its column of another table.
    pub(crate) fn swap_inboxes(
        &mut self,
        inboxes: &mut Vec<Inbox>,
        columns: &mut GhostList<Vec<Inbox>>,
    )
        requires few { vec_len inboxes.old ≤ MOST_SHARDS }
        requires column { map (λ inbox. inbox.ring) inboxes.old.items
            ≡ slice_index_or (inbox_rings columns.old.items) self.old.worker [] }
        ensures seat { self.new
            ≡ with_inboxes self.old (inbox_rings columns.old.items) inboxes.old.items }
        ensures inboxes { inboxes.new.items ≡ self.old.inboxes }
        ensures columns { inbox_rings columns.new.items ≡ self.old.table.columns }
        ensures column { map (λ inbox. inbox.ring) inboxes.new.items
            ≡ slice_index_or (inbox_rings columns.new.items) self.old.worker [] }
        ensures few { vec_len inboxes.new ≤ MOST_SHARDS }
    {
        swap(&mut self.inboxes, inboxes);
        self.table.swap_columns(columns);
    }
}
