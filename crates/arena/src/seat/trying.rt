// The calls of a seat that do not wait: if another thread has a lock that they need, they answer
// so, and change nothing.
ghost use Rattle.std.specs.Prelude.{◌≡◌, ◌≤◌, IfOk, OnErr, OnOk, length};
ghost use Rattle.arena.specs.Delays.{CountsCall, HandsOver, HasNoneWaiting};
ghost use Rattle.arena.specs.KeyCalls.{IsFreed, IsLookedUp, IsSet};
ghost use Rattle.arena.specs.Seats.{AreNoFewer, KeepsEnds, free_places, sending_side};
ghost use Rattle.arena.specs.Tended.{IsTended, TendsNone};
ghost use Rattle.arena.specs.KeyAnswers.{LooksUp};
ghost use Rattle.span.specs.Classes.{width_of};

use super::Seat;
use crate::arena::Arena;
use crate::gate::Gate;
use crate::lent_calls::{Issued, Looked, Outcome};
use crate::patience::Tries;
use crate::receipts::Receipts;
use crate::tending::{look_at_rings, tend_rings};
use crate::word::Word;
use latch::Busy;
use pool::{AdoptError, ReceiveError};
use shard::PutError;
use span::names::{Class, Key, SpanId};
use span::spans::Log;
use std::alloc::AllocError;

/// What a [`Seat::try_tend`] came to.
#[derive(Clone, Copy, PartialEq, Eq, Debug)]
pub struct Tended {
    /// How many keys were taken, and freed.
    pub count: usize,
    /// Whether it left off, since another thread had the lock that the next key needs. That key is
    /// the next in turn.
    pub is_busy: bool,
}

impl Seat {
    /// Puts the object of these words, which are as many as the class has, into the worker's shard,
    /// under that shard's lock. The words are copied to the page from where they stand.
    ///
    /// # Errors
    ///
    /// [`Busy`] if another thread has the lock. Else those of
    /// [`Shard::put_words`](shard::Shard::put_words) on the shard as it then is: `Ended`,
    /// `PagesSpent` and `OutOfMemory`.
    #[inline(always)]
    pub fn try_put<G: Gate, L: Log>(
        &mut self,
        arena: &Arena<G, L>,
        class: Class,
        words: &[u128],
    ) -> Result<Result<Issued, PutError>, Busy>
        requires fits { self.old.limits ≡ arena.now.limits }
        requires width { length words.now ≡ width_of class }
        ensures seat { OnOk result (CountsCall self.old self.new) }
        ensures busy { OnErr result (self.new ≡ self.old) }
    {
        self.put_within(&Tries, arena, class, words)
    }

    /// Looks the key up, under the lock of whoever has its span, and writes the words of what is
    /// found into `room`, from its first place on, if there is room for all of them. A span that
    /// was never opened takes no lock: nothing is found, before its log's first change. The same is
    /// answered of a span that was forgotten ([`Arena::forget`]).
    ///
    /// # Errors
    ///
    /// [`Busy`] if another thread has a lock that it needs: that of whoever may have the span; and
    /// if the span has moved on, the pool's, or one of the shards' and nobody else has the span.
    /// The same if the span moves each time that the call looks for it, eight times in all. Nothing
    /// is written then.
    #[inline(always)]
    pub fn try_get<G: Gate, L: Log, W: Word>(
        &mut self,
        arena: &Arena<G, L>,
        key: &Key,
        room: &mut [W],
    ) -> Result<Looked, Busy>
        requires { self.old.limits ≡ arena.now.limits }
        ensures key { IfOk result (λ got. got.0 ≡ key.now) }
        ensures words { IfOk result (λ got. LooksUp W.word room.old got.1 room.new) }
        ensures answered { IfOk result (λ got.
            IsLookedUp W.word key.now room.old got room.new) }
        ensures seat { OnOk result (CountsCall self.old self.new) }
        ensures busy { OnErr result ((self.new ≡ self.old) × (room.new ≡ room.old)) }
    {
        self.get_within(&Tries, arena, key, room)
    }

    /// Sets the key's object to these words in place, under the lock of whoever has its span, if
    /// the key is live and its object has as many words. A span that is nowhere takes no lock, as
    /// for [`Seat::try_get`].
    ///
    /// # Errors
    ///
    /// [`Busy`] as that of [`Seat::try_get`]. Else `AllocError` in place of a set that would be
    /// done, if the span's log could not grow. Nothing is set then.
    pub fn try_set<G: Gate, L: Log>(
        &mut self,
        arena: &Arena<G, L>,
        key: &Key,
        words: &[u128],
    ) -> Result<Result<Outcome, AllocError>, Busy>
        requires { self.old.limits ≡ arena.now.limits }
        ensures key { IfOk result (λ made. IfOk made (λ set. set.0 ≡ key.now)) }
        ensures answered { IfOk result (IsSet key.now words.now) }
        ensures seat { OnOk result (CountsCall self.old self.new) }
        ensures busy { OnErr result (self.new ≡ self.old) }
    {
        self.set_within(&Tries, arena, key, words)
    }

    /// Frees the key, if it is live, under the lock of whoever has its span. A span that is nowhere
    /// takes no lock, as for [`Seat::try_get`].
    ///
    /// # Errors
    ///
    /// [`Busy`] as that of [`Seat::try_get`].
    #[inline(always)]
    pub fn try_free<G: Gate, L: Log>(
        &mut self,
        arena: &Arena<G, L>,
        key: &Key,
    ) -> Result<Outcome, Busy>
        requires { self.old.limits ≡ arena.now.limits }
        ensures key { IfOk result (λ freed. freed.0 ≡ key.now) }
        ensures answered { IfOk result (IsFreed key.now) }
        ensures seat { OnOk result (CountsCall self.old self.new) }
        ensures busy { OnErr result (self.new ≡ self.old) }
    {
        self.free_within(&Tries, arena, key)
    }

    /// What [`Seat::tend`] does, as long as no other thread has a lock that the next key needs: it
    /// takes a key only if it can free it at once.
    ///
    /// # Errors
    ///
    /// `AllocError` as that of [`Seat::tend`].
    pub fn try_tend<G: Gate, L: Log, K: Receipts>(
        &mut self,
        arena: &Arena<G, L>,
        receipts: &mut K,
    ) -> Result<Tended, AllocError>
        requires { self.old.limits ≡ arena.now.limits }
        ensures tended { IfOk result (λ tended. IsTended self.old.limits.ring_capacity self.old
            self.new (K.told receipts.old) (K.told receipts.new) tended.count) }
        ensures none { HasNoneWaiting self.new }
        ensures seat { KeepsEnds self.old self.new
            × (sending_side self.new ≡ sending_side self.old) }
        ensures places { AreNoFewer (free_places self.old.outboxes)
            (free_places self.new.outboxes) }
        ensures err { OnErr result (TendsNone self.old self.new (K.told receipts.old)
            (K.told receipts.new)) }
    {
        self.hand_over();
        let most = self.limits.ring_capacity();
        let seen = look_at_rings(&mut self.inboxes, most);
        receipts.make_room(seen)?;
        Ok(tend_rings(
            &Tries,
            arena,
            &mut self.inboxes,
            most,
            self.worker,
            self.section,
            receipts,
        ))
    }

    /// What [`Seat::end`] does, if no other thread has the pool's lock or the shard's.
    ///
    /// # Errors
    ///
    /// [`Busy`] if another thread has one. Else the end, whose errors are those of
    /// [`Seat::end`].
    pub fn try_end<G: Gate, L: Log>(
        &mut self,
        arena: &Arena<G, L>,
    ) -> Result<Result<(), ReceiveError>, Busy>
        requires { self.old.limits ≡ arena.now.limits }
        ensures seat { OnOk result (HandsOver self.old self.new) }
        ensures busy { OnErr result (self.new ≡ self.old) }
    {
        self.end_within(&Tries, arena)
    }

    /// What [`Seat::begin`] does, if no other thread has the shard's lock.
    ///
    /// # Errors
    ///
    /// [`Busy`] if another thread has it.
    pub fn try_begin<G: Gate, L: Log>(&mut self, arena: &Arena<G, L>) -> Result<bool, Busy>
        requires { self.old.limits ≡ arena.now.limits }
        ensures seat { OnOk result (CountsCall self.old self.new) }
        ensures busy { OnErr result (self.new ≡ self.old) }
    {
        self.begin_within(&Tries, arena)
    }

    /// What [`Seat::retire`] does, if no other thread has the pool's lock or the shard's.
    ///
    /// # Errors
    ///
    /// [`Busy`] if another thread has one. Else the retirement, whose errors are those of
    /// [`Seat::retire`].
    pub fn try_retire<G: Gate, L: Log>(
        &mut self,
        arena: &Arena<G, L>,
        most: usize,
    ) -> Result<Result<usize, ReceiveError>, Busy>
        requires { self.old.limits ≡ arena.now.limits }
        ensures at_most { IfOk result (λ retired. IfOk retired (λ count. count ≤ most)) }
        ensures seat { OnOk result (CountsCall self.old self.new) }
        ensures busy { OnErr result (self.new ≡ self.old) }
    {
        self.retire_within(&Tries, arena, most)
    }

    /// What [`Seat::trim`] does, if no other thread has the shard's lock.
    ///
    /// # Errors
    ///
    /// [`Busy`] if another thread has it.
    pub fn try_trim<G: Gate, L: Log>(&mut self, arena: &Arena<G, L>) -> Result<usize, Busy>
        requires { self.old.limits ≡ arena.now.limits }
        ensures seat { OnOk result (CountsCall self.old self.new) }
        ensures busy { OnErr result (self.new ≡ self.old) }
    {
        self.trim_within(&Tries, arena)
    }

    /// What [`Seat::gather`] does, if no other thread has the shard's lock.
    ///
    /// # Errors
    ///
    /// [`Busy`] if another thread has it. Else the gathering, whose error is that of
    /// [`Seat::gather`].
    pub fn try_gather<G: Gate, L: Log>(
        &mut self,
        arena: &Arena<G, L>,
        from: usize,
        most: usize,
    ) -> Result<Result<usize, AllocError>, Busy>
        requires { self.old.limits ≡ arena.now.limits }
        ensures at_most { IfOk result (λ gathered. IfOk gathered (λ count. count ≤ most)) }
        ensures seat { OnOk result (CountsCall self.old self.new) }
        ensures busy { OnErr result (self.new ≡ self.old) }
    {
        self.gather_within(&Tries, arena, from, most)
    }

    /// What [`Seat::adopt`] does, if no other thread has the pool's lock or the shard's.
    ///
    /// # Errors
    ///
    /// [`Busy`] if another thread has one. Else the adoption, whose errors are those of
    /// [`Seat::adopt`].
    pub fn try_adopt<G: Gate, L: Log>(
        &mut self,
        arena: &Arena<G, L>,
    ) -> Result<Result<SpanId, AdoptError>, Busy>
        requires { self.old.limits ≡ arena.now.limits }
        ensures seat { OnOk result (CountsCall self.old self.new) }
        ensures busy { OnErr result (self.new ≡ self.old) }
    {
        self.adopt_within(&Tries, arena)
    }
}
