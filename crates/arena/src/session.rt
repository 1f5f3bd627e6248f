// A worker's shard that its seat keeps out of its lock over many calls.
ghost use Rattle.std.specs.Arc.{arc_value};
ghost use Rattle.std.specs.Prelude.{◌≡◌, ◌<◌, ◌↔◌, Err, IfOk, IsOk, MatchResult, OnErr, OnOk, Some, length, slice_get, true};
ghost use Rattle.groups.specs.Group.{IsElsewhere};
ghost use Rattle.shard.specs.Calls.{Puts};
ghost use Rattle.shard.specs.Shown.{shown};
ghost use Rattle.shard.specs.declared.error.PutError.TheVariants as put_error;
ghost use Rattle.span.specs.Classes.{width_of};
ghost use Rattle.span.specs.PlainMap as plain;
ghost use Rattle.arena.specs.Delays.{CountsCall, HandsOver, HasNoneWaiting, delay_begun};
ghost use Rattle.arena.specs.Seats.{KeepsAllButSent, Sends, free_places_to, sent_lists};
ghost use Rattle.arena.specs.Sessions.{FreesFirstIn, IsSpentRunning, LooksUpFirstIn, MaySetHere, SetsFirstIn};

use crate::arena::Arena;
use crate::gate::Gate;
use crate::key_calls::{Free, Get, Set};
use crate::lent_calls::{Issued, Looked, Outcome, free_in, get_in, set_in};
use crate::seat::Seat;
use crate::word::Word;
use latch::{Busy, Hold};
use shard::{PutError, Shard};
use span::names::{Class, Key};
use span::spans::{Kept, Log};
use std::alloc::{AllocError, Global};
use std::sync::Arc;

/// A seat that keeps its worker's shard out of its lock, with a share of the arena: from
/// [`Session::try_begin`] until it is paused ([`Session::pause`]) or let go, its calls on what is
/// in that shard take no lock, and what each of them does to the shard is said exactly.
///
/// Meanwhile whoever else wants the shard's lock waits, or is told that another thread has it:
/// those who look up, set or free an object there, a mark, a close, a totalling, and a step whose
/// owned group is there. A session waits for nobody: if a call needs a lock beside, it tries it,
/// and answers [`Busy`] with nothing changed; who asked pauses, makes the call at the seat, and
/// begins again. So two sessions never wait for each other. A call that waits for the lock, made by
/// the session's own thread, would wait for ever.
pub struct Session<G: Gate, L: Log = Kept> {
    /// The arena.
    pub arena: Arc<Arena<G, L>, Global>,
    /// The seat.
    pub seat: Seat,
    /// The seat's shard, out of its lock. It goes back with the session, whether that is paused or
    /// let go.
    pub shard: Hold<Shard<L>>,
    ghost fits: { seat.limits ≡ (arc_value arena).limits },
    ghost its_own: { slice_get (arc_value arena).shards.items seat.worker ≡ Some shard.turn },
}

impl<G: Gate, L: Log> Session<G, L> {
    /// Takes the shard of the seat out of its lock. It takes no memory.
    ///
    /// # Errors
    ///
    /// The arena and the seat, handed back as they were, if another thread has the shard.
    pub fn try_begin(
        arena: Arc<Arena<G, L>, Global>,
        seat: Seat,
    ) -> Result<Session<G, L>, (Arc<Arena<G, L>, Global>, Seat)>
        requires { seat.limits ≡ (arc_value arena).limits }
        ensures { MatchResult result (λ session. (session.arena ≡ arena) × (session.seat ≡ seat))
            (λ back. (back.0 ≡ arena) × (back.1 ≡ seat)) }
    {
        let worker = seat.worker();
        match arena.shards[worker as usize].try_hold() {
            Ok(shard) => {
                arena.gate.inside(worker);
                Ok(Session { arena, seat, shard })
            }
            Err(Busy) => Err((arena, seat)),
        }
    }

    /// Gives the shard back to its lock, and hands out the arena and the seat.
    pub fn pause(self) -> (Arc<Arena<G, L>, Global>, Seat)
        ensures arena { result.0 ≡ self.arena }
        ensures seat { result.1 ≡ self.seat }
    {
        let Session { arena, seat, shard } = self;
        let worker = seat.worker();
        arena.shards[worker as usize].give_back(shard);
        (arena, seat)
    }

    /// Puts the object of these words, which are as many as the class has, into the shard, as
    /// [`Shard::put_words`] does.
    ///
    /// # Errors
    ///
    /// `Ended` exactly if the shard has ended, `PagesSpent` exactly if it has not, no open
    /// group of the class has a usable slot, and it has as many groups as it may have pages, or has
    /// opened as many spans as it may; with `OutOfMemory` an allocation was refused. The shard is
    /// then as it was.
    #[inline(always)]
    pub fn put(&mut self, class: Class, words: &[u128]) -> Result<Issued, PutError>
        requires { length words.now ≡ width_of class }
        ensures ok { IfOk result (λ made. Puts self.old.shard.value.value class words.now made.0
            made.1 self.new.shard.value.value) }
        ensures plain { IfOk result (λ made. shown self.new.shard.value.value ≡ plain.with_put
            (shown self.old.shard.value.value) made.0 words.now) }
        ensures ended { (result ≡ Err put_error.Ended)
            ↔ (self.old.shard.value.value.ended ≡ true) }
        ensures spent { (result ≡ Err put_error.PagesSpent)
            ↔ IsSpentRunning class self.old.shard.value.value }
        ensures err { OnErr result (self.new.shard.value.value ≡ self.old.shard.value.value) }
        ensures seat { CountsCall self.old.seat self.new.seat }
        ensures arena { self.new.arena ≡ self.old.arena }
    {
        self.seat.count_call();
        self.arena.put_in(&mut *self.shard.value, class, words)
    }

    /// Looks the key up in the shard, as [`Shard::get`] does, and if that does not have the
    /// key's span, in the place that may, if its lock is to be had. The words of what is found are
    /// written into `room`, from its first place on, if there is room for all of them.
    ///
    /// # Errors
    ///
    /// [`Busy`] only if the shard does not have the key's span, and another thread has the lock
    /// of the place that may, or the span is not there either. Nothing is written then.
    #[inline(always)]
    pub fn try_get<W: Word>(&mut self, key: &Key, room: &mut [W]) -> Result<Looked, Busy>
        ensures key { IfOk result (λ got. got.0 ≡ key.now) }
        ensures told { LooksUpFirstIn W.word self.old.shard.value.value key.now room.old result
            room.new }
        ensures shard { self.new.shard ≡ self.old.shard }
        ensures seat { OnOk result (CountsCall self.old.seat self.new.seat) }
        ensures busy { OnErr result (self.new.seat ≡ self.old.seat) }
        ensures arena { self.new.arena ≡ self.old.arena }
    {
        let worker = self.seat.worker();
        let got = look_up(&*self.arena, worker, &*self.shard.value, key, room)?;
        self.seat.count_call();
        Ok(got)
    }

    /// Sets the key's object to these words in place, in the shard, as [`Shard::set`] does, and
    /// if that does not have the key's span, in the place that may, if its lock is to be had.
    /// Words that are not as many as the key's object has are not set.
    ///
    /// # Errors
    ///
    /// [`Busy`] as that of [`Session::try_get`]. Else `AllocError` in place of a set that would be
    /// done, if the span's log could not grow. Nothing is set then.
    pub fn try_set(
        &mut self,
        key: &Key,
        words: &[u128],
    ) -> Result<Result<Outcome, AllocError>, Busy>
        ensures key { IfOk result (λ made. IfOk made (λ set. set.0 ≡ key.now)) }
        ensures told { IfOk result (λ set. IfOk set (λ told. SetsFirstIn
            self.old.shard.value.value key.now words.now told self.new.shard.value.value)) }
        ensures refused { IfOk result (λ set. OnErr set
            (MaySetHere self.old.shard.value.value key.now words.now)) }
        ensures err { IfOk result (λ set. OnErr set
            (self.new.shard.value.value ≡ self.old.shard.value.value)) }
        ensures seat { OnOk result (CountsCall self.old.seat self.new.seat) }
        ensures elsewhere { OnErr result
            (IsElsewhere self.old.shard.value.value.groups key.now.span) }
        ensures busy { OnErr result ((self.new.seat ≡ self.old.seat)
            × (self.new.shard.value.value ≡ self.old.shard.value.value)) }
        ensures arena { self.new.arena ≡ self.old.arena }
    {
        let worker = self.seat.worker();
        let set = set(&*self.arena, worker, &mut *self.shard.value, key, words)?;
        self.seat.count_call();
        Ok(set)
    }

    /// Frees the key in the shard, as [`Shard::free`] does, and if that does not have the key's
    /// span, in the place that may, if its lock is to be had. It takes no memory.
    ///
    /// # Errors
    ///
    /// [`Busy`] as that of [`Session::try_get`].
    #[inline(always)]
    pub fn try_free(&mut self, key: &Key) -> Result<Outcome, Busy>
        ensures key { IfOk result (λ freed. freed.0 ≡ key.now) }
        ensures told { IfOk result (λ told. FreesFirstIn self.old.shard.value.value key.now told
            self.new.shard.value.value) }
        ensures seat { OnOk result (CountsCall self.old.seat self.new.seat) }
        ensures elsewhere { OnErr result
            (IsElsewhere self.old.shard.value.value.groups key.now.span) }
        ensures busy { OnErr result ((self.new.seat ≡ self.old.seat)
            × (self.new.shard.value.value ≡ self.old.shard.value.value)) }
        ensures arena { self.new.arena ≡ self.old.arena }
    {
        let worker = self.seat.worker();
        let freed = free(&*self.arena, worker, &mut *self.shard.value, key)?;
        self.seat.count_call();
        Ok(freed)
    }

    /// What [`Seat::free_later`] does, at the session's seat.
    ///
    /// # Errors
    ///
    /// As those of [`Seat::free_later`].
    #[inline(always)]
    pub fn free_later(&mut self, key: Key) -> Result<(), Key>
        requires { key.span.shard < self.old.seat.limits.shards }
        ensures sent { Sends key (sent_lists self.old.seat) result (sent_lists self.new.seat) }
        ensures succeeds { 0 < free_places_to self.old.seat.outboxes key.span.shard → IsOk result }
        ensures waits { OnOk result (self.new.seat.delay ≡ delay_begun self.old.seat.delay) }
        ensures refused { OnErr result (HasNoneWaiting self.new.seat) }
        ensures seat { KeepsAllButSent self.old.seat self.new.seat }
        ensures shard { self.new.shard ≡ self.old.shard }
        ensures arena { self.new.arena ≡ self.old.arena }
    {
        self.seat.free_later(key)
    }

    /// What [`Seat::hand_over`] does, at the session's seat.
    pub fn hand_over(&mut self)
        ensures seat { HandsOver self.old.seat self.new.seat }
        ensures shard { self.new.shard ≡ self.old.shard }
        ensures arena { self.new.arena ≡ self.old.arena }
    {
        self.seat.hand_over();
    }
}

impl<G: Gate, L: Log> Drop for Session<G, L> {
    fn drop(self) {
        let Session { arena, seat, shard } = self;
        let worker = seat.worker();
        arena.shards[worker as usize].give_back(shard);
    }
}

// A look-up of the worker's session in the shard that it keeps, or else in the place that may have
// the span.
#[inline(always)]
fn look_up<G: Gate, L: Log, W: Word>(
    arena: &Arena<G, L>,
    worker: u32,
    shard: &Shard<L>,
    key: &Key,
    room: &mut [W],
) -> Result<Looked, Busy>
    ensures key { IfOk result (λ got. got.0 ≡ key.now) }
    ensures told { LooksUpFirstIn W.word shard.now key.now room.old result room.new }
{
    match get_in(shard, key, room) {
        Some(got) => Ok(got),
        None => arena.try_call_beside(worker, &Get { key }, room),
    }
}

// The same of a set.
#[inline(always)]
fn set<G: Gate, L: Log>(
    arena: &Arena<G, L>,
    worker: u32,
    shard: &mut Shard<L>,
    key: &Key,
    words: &[u128],
) -> Result<Result<Outcome, AllocError>, Busy>
    ensures key { IfOk result (λ made. IfOk made (λ set. set.0 ≡ key.now)) }
    ensures told { IfOk result (λ set. IfOk set
        (λ told. SetsFirstIn shard.old key.now words.now told shard.new)) }
    ensures refused { IfOk result (λ set. OnErr set (MaySetHere shard.old key.now words.now)) }
    ensures err { IfOk result (λ set. OnErr set (shard.new ≡ shard.old)) }
    ensures elsewhere { OnErr result (IsElsewhere shard.old.groups key.now.span) }
    ensures busy { OnErr result (shard.new ≡ shard.old) }
{
    match set_in(shard, key, words) {
        Ok(Some(set)) => Ok(Ok(set)),
        Ok(None) => arena.try_call_beside(worker, &Set { key, words }, &mut []),
        Err(refused) => Ok(Err(refused)),
    }
}

// The same of a free.
#[inline(always)]
fn free<G: Gate, L: Log>(
    arena: &Arena<G, L>,
    worker: u32,
    shard: &mut Shard<L>,
    key: &Key,
) -> Result<Outcome, Busy>
    ensures key { IfOk result (λ freed. freed.0 ≡ key.now) }
    ensures told { IfOk result (λ told. FreesFirstIn shard.old key.now told shard.new) }
    ensures elsewhere { OnErr result (IsElsewhere shard.old.groups key.now.span) }
    ensures busy { OnErr result (shard.new ≡ shard.old) }
{
    match free_in(shard, key) {
        Some(freed) => Ok(freed),
        None => arena.try_call_beside(worker, &Free { key }, &mut []),
    }
}
