// Who makes the calls of a thread, and keeps what they are told.
ghost use Rattle.std.specs.Prelude.{◌≡◌, ◌+◌, ◌-◌, ◌≤◌, ◌<◌, ◌^◌, ◌∷◌, [], ℕ, IfOk, IfSome, List, OnOk, Option, Some, false, slice_get, true, unwrap_or};
ghost use Rattle.arena.specs.Delays.{HasNoneWaiting};
ghost use Rattle.span.specs.declared.key.Key.{Key};
ghost use Rattle.span.specs.declared.receipt.Receipt.{Receipt};
ghost use Rattle.trace_text.specs.declared.line.Line.{Line};
ghost use Rattle.trace_text.specs.Causes.{is_adopt, is_call_over};
ghost use Rattle.trace_text.specs.Objects.{counted_from, last_word};
ghost use Rattle.thread_runner.specs.Asked.{Begins, Called, Frees, Gets, GivenKeys, IsRetirement, Leaves, Puts, Retires, Said, Sets, Tends, Trims, asked_by, frees_from, is_adoption, puts_from};
ghost use Rattle.thread_runner.specs.Followed.{carried_by, entries_on};
ghost use Rattle.thread_runner.specs.Grown.{Grows, IsEmptyDiary, TellsAdoption, seated};
ghost use Rattle.thread_runner.specs.Known.{AreFresh, AreKnown};
ghost use Rattle.thread_runner.specs.declared.keys.Given.{Given};

use crate::diary::Diary;
use crate::error::Halt;
use crate::keys::{Given, Keys, enter, find};
use crate::layout::Text;
use arena::{Arena, Gate, Seat};
use pool::{AdoptError, ReceiveError};
use shard::PutError;
use span::names::{Class, Key, Object, SpanId};
use span::receipts::Receipt;
use std::alloc::{AllocError, Global};
use std::ops::Range;
use std::sync::Wait;
use trace_runner::{Call, Line, Other, counting_from};

/// A thread of the trace in its seat at the arena.
#[derive(Drop)]
pub(crate) struct Caller<'a, G: Gate> {
    arena: &'a Arena<G>,
    seat: Seat,
    /// What its puts gave in this section, in order.
    fresh: Vec<Given>,
    /// What it was told.
    diary: Diary,
    /// Whether it ended in this section, so that its shard is to be abandoned.
    leaves: bool,
    ghost fits: { seat.limits ≡ arena.now.limits },
}

/// Where a line stands, and which keys it names, by their places among all keys that the lines
/// bind.
#[derive(Clone, Copy)]
struct Spot {
    /// The line's number.
    number: usize,
    /// The place of the first key that it binds.
    binds: usize,
    /// The place of the first key of the name that it reads.
    reads: usize,
}

// The key of that index of a name whose first key is at that place, or of its only put. More than a
// number counts find no memory.
fn place_of(first: usize, index: Option<u32>) -> Result<usize, AllocError>
    ensures { IfOk result (λ place. place ≡ first + unwrap_or index 0) }
{
    let index = index.unwrap_or(0);
    first.checked_add(index as usize).ok_or(AllocError)
}

// What the adoption came to, where the run goes on.
fn adoption(adopted: Result<SpanId, AdoptError>) -> Result<Other, Halt>
    ensures { IfOk result (λ other. is_adoption other ≡ true) }
{
    match adopted {
        Ok(head) => Ok(Other::Adopted(head)),
        Err(AdoptError::PagesSpent) => Ok(Other::PagesSpent),
        Err(AdoptError::NothingToAdopt) => Ok(Other::NothingToAdopt),
        Err(AdoptError::OutOfMemory) => Err(Halt::OutOfMemory),
        Err(AdoptError::Doubled | AdoptError::Ended | AdoptError::PlanOpen) => Err(Halt::Doubled),
    }
}

// What the retirement came to, where the run goes on.
fn retirement(retired: Result<usize, ReceiveError>) -> Result<Other, Halt>
    ensures { (most : ℕ) → IfOk retired (λ count. count ≤ most)
        → IfOk result (IsRetirement most) }
{
    match retired {
        Ok(count) => Ok(Other::Retired(count)),
        Err(ReceiveError::PlanOpen) => Ok(Other::PlanOpen),
        Err(ReceiveError::OutOfMemory) => Err(Halt::OutOfMemory),
        Err(ReceiveError::Doubled | ReceiveError::Ended) => Err(Halt::Doubled),
    }
}

impl<'a, G: Gate> Caller<'a, G> {
    ghost use Rattle.thread_runner.specs.Sections.{IsSpotOf, TellsFrom, TellsLine, TellsTaken};

    /// The thread of this seat, or `None` where the seat is that of an arena of other numbers.
    pub(crate) fn new(
        alloc: Global,
        arena: &'a Arena<G>,
        replies: bool,
        seat: Seat,
    ) -> Option<Caller<'a, G>>
        ensures diary { IfSome result (λ caller. IsEmptyDiary replies caller.diary) }
        ensures seat { IfSome result (λ caller. caller.seat ≡ seat) }
    {
        if !seat.fits(arena) {
            return None;
        }
        Some(Caller {
            arena,
            seat,
            fresh: Vec::new(alloc),
            diary: Diary::new(alloc, replies),
            leaves: false,
        })
    }

    /// Its thread's number.
    pub(crate) fn thread(&self) -> u32
        ensures { result ≡ self.now.seat.worker }
    {
        self.seat.worker()
    }

    /// Makes room for what that many calls are told.
    pub(crate) fn reserve(&mut self, calls: usize) -> Result<(), AllocError>
        ensures told { OnOk result (Grows [] [] 0 self.old.diary self.new.diary) }
        ensures seat { seated self.new.seat ≡ seated self.old.seat }
        ensures carried { carried_by self.new.seat ≡ carried_by self.old.seat }
        ensures fresh { self.new.fresh ≡ self.old.fresh }
    {
        self.diary.reserve(calls)
    }

    /// Makes the calls of the line at that place, which is one of its thread's. It halts at any
    /// other line than a call.
    pub(crate) fn line<R: Wait>(
        &mut self,
        rt: &R,
        text: &Text<'_>,
        keys: &Keys,
        place: usize,
    ) -> Result<(), Halt>
        ensures call { (line : Line) → slice_get text.now.trace.now.lines.items place ≡ Some line
            → OnOk result (is_adopt line ≡ false) }
        ensures told { (line : Line) → slice_get text.now.trace.now.lines.items place ≡ Some line
            → OnOk result (TellsLine text.now place line keys.now.kept.items self.old self.new) }
        ensures seat { seated self.new.seat ≡ seated self.old.seat }
    {
        let trace = text.trace;
        if trace.lines.len() <= place {
            return Err(Halt::Doubled);
        }
        let Line::Call { call, .. } = trace.lines.line_at(place) else {
            return Err(Halt::Doubled);
        };
        let Some(binds) = text.layout.first(place) else {
            return Err(Halt::Doubled);
        };
        let spot = Spot {
            number: place + 6,
            binds,
            reads: trace.place(place),
        };
        self.call(rt, text, keys, spot, call)
    }

    // Makes a call of a trace, on the line of that spot.
    fn call<R: Wait>(
        &mut self,
        rt: &R,
        text: &Text<'_>,
        keys: &Keys,
        spot: Spot,
        call: &Call,
    ) -> Result<(), Halt>
        requires { (above : List Line) × (is_call_over above call.now ≡ false) }
        ensures told { (above : List Line) → IsSpotOf above call.now spot → OnOk result (TellsFrom
            spot.number (asked_by above call.now) keys.now.kept.items self.old self.new) }
        ensures seat { seated self.new.seat ≡ seated self.old.seat }
    {
        let Spot {
            number,
            binds,
            reads,
        } = spot;
        match call {
            Call::Put { class, value, .. } => self.put(rt, number, binds, *class, *value),
            Call::Fill {
                class,
                count,
                value,
                ..
            } => self.fill(rt, number, binds, *class, *count, *value),
            Call::Get { key } => self.get(rt, keys, number, place_of(reads, key.index)?),
            Call::Set { key, class, value } => {
                let place = place_of(reads, key.index)?;
                self.set(rt, keys, number, place, counting_from(*class, *value))
            }
            Call::Free { key } => self.free(rt, keys, number, place_of(reads, key.index)?),
            Call::Sweep { from, to, .. } => self.sweep(rt, keys, number, reads, *from..*to),
            Call::Later { key } => self.later(keys, number, place_of(reads, key.index)?),
            Call::Tend => self.tend(rt, number),
            Call::Trim => self.trim(rt, number),
            Call::Retire { most } => self.retire(rt, number, *most),
            Call::End => {
                self.leaves = true;
                self.other(number, Other::Ended)
            }
            Call::Begin => self.begin(rt, number),
        }
    }

    // Keeps the receipt of a call on the line of that number.
    fn keep(&mut self, number: usize, receipt: Receipt) -> Result<(), Halt>
        ensures told { OnOk result (Grows (entries_on number (Called receipt)) (receipt ∷ []) 1
            self.old.diary self.new.diary) }
        ensures seat { self.new.seat ≡ self.old.seat }
        ensures fresh { self.new.fresh ≡ self.old.fresh }
    {
        self.diary.keep(number, receipt)?;
        Ok(())
    }

    // Keeps what the line of that number came to other than by a call on a key.
    fn other(&mut self, number: usize, other: Other) -> Result<(), Halt>
        ensures told { OnOk result (Grows (entries_on number (Said other)) [] 1
            self.old.diary self.new.diary) }
        ensures seat { self.new.seat ≡ self.old.seat }
        ensures fresh { self.new.fresh ≡ self.old.fresh }
    {
        self.diary.keep_other(number, other)?;
        Ok(())
    }

    // The key that a put gave, by the place of the key among all keys that the lines bind: a put of
    // an earlier section, or of its own. It halts where no such put was made.
    fn key_at(&self, keys: &Keys, place: usize) -> Result<Option<Key>, Halt>
        ensures { (given : GivenKeys) → AreKnown keys.now.kept.items self.now.fresh.items given
            → IfOk result (λ key. given place ≡ key) }
    {
        if let Some(key) = keys.get(place) {
            return Ok(key);
        }
        match find(self.fresh.as_slice(), place) {
            Some(key) => Ok(key),
            None => Err(Halt::Doubled),
        }
    }

    // Puts the object of the class that counts up from that base, on the line of that number, and
    // keeps what it gave as the key of that place.
    fn put<R: Wait>(
        &mut self,
        rt: &R,
        number: usize,
        place: usize,
        class: Class,
        base: u128,
    ) -> Result<(), Halt>
        requires { last_word class base < 2 ^ 128 }
        ensures told { (kept : List Given) → OnOk result (TellsFrom number
            (Puts place (counted_from class base) ∷ []) kept self.old self.new) }
        ensures seat { seated self.new.seat ≡ seated self.old.seat }
    {
        match self.seat.put(rt, self.arena, counting_from(class, base)) {
            Ok((key, receipt)) => {
                let key = Some(key);
                enter(&mut self.fresh, place, key)?;
                self.keep(number, receipt)
            }
            Err(PutError::PagesSpent) => {
                let key = None;
                enter(&mut self.fresh, place, key)?;
                self.other(number, Other::PagesSpent)
            }
            Err(PutError::OutOfMemory) => Err(Halt::OutOfMemory),
            Err(PutError::Ended) => Err(Halt::Doubled),
        }
    }

    // Puts `count` objects of the class in order, which count up from `value`, from `value + 1` and
    // so on, and keeps what they gave as the keys from that place on.
    fn fill<R: Wait>(
        &mut self,
        rt: &R,
        number: usize,
        first: usize,
        class: Class,
        count: u32,
        value: u128,
    ) -> Result<(), Halt>
        requires { last_word class (value + count - 1) < 2 ^ 128 }
        ensures told { (kept : List Given) → OnOk result (TellsFrom number
            (puts_from first class count value) kept self.old self.new) }
        ensures seat { seated self.new.seat ≡ seated self.old.seat }
    {
        for i in 0..count {
            let place = place_of(first, Some(i))?;
            self.put(rt, number, place, class, value + u128::from(i))?;
        }
        Ok(())
    }

    // Looks the key of that place up, where it was given out.
    fn get<R: Wait>(&mut self, rt: &R, keys: &Keys, number: usize, place: usize) -> Result<(), Halt>
        ensures told { OnOk result (TellsFrom number (Gets place ∷ []) keys.now.kept.items
            self.old self.new) }
        ensures seat { seated self.new.seat ≡ seated self.old.seat }
    {
        let Some(key) = self.key_at(keys, place)? else {
            return self.other(number, Other::Unbound);
        };
        let (_, receipt) = self.seat.get(rt, self.arena, &key);
        self.keep(number, receipt)
    }

    // Sets the key of that place to the object, where it was given out.
    fn set<R: Wait>(
        &mut self,
        rt: &R,
        keys: &Keys,
        number: usize,
        place: usize,
        value: Object,
    ) -> Result<(), Halt>
        ensures told { OnOk result (TellsFrom number (Sets place value ∷ []) keys.now.kept.items
            self.old self.new) }
        ensures seat { seated self.new.seat ≡ seated self.old.seat }
    {
        let Some(key) = self.key_at(keys, place)? else {
            return self.other(number, Other::Unbound);
        };
        let (_, receipt) = self.seat.set(rt, self.arena, &key, value)?;
        self.keep(number, receipt)
    }

    // Frees the key of that place, where it was given out.
    fn free<R: Wait>(
        &mut self,
        rt: &R,
        keys: &Keys,
        number: usize,
        place: usize,
    ) -> Result<(), Halt>
        ensures told { OnOk result (TellsFrom number (Frees place ∷ []) keys.now.kept.items
            self.old self.new) }
        ensures seat { seated self.new.seat ≡ seated self.old.seat }
    {
        let Some(key) = self.key_at(keys, place)? else {
            return self.other(number, Other::Unbound);
        };
        let (_, receipt) = self.seat.free(rt, self.arena, &key);
        self.keep(number, receipt)
    }

    // Frees the keys of a name, whose first is at that place, of these indices.
    fn sweep<R: Wait>(
        &mut self,
        rt: &R,
        keys: &Keys,
        number: usize,
        first: usize,
        indices: Range<u32>,
    ) -> Result<(), Halt>
        ensures told { OnOk result (TellsFrom number
            (frees_from first indices.start indices.end) keys.now.kept.items self.old self.new) }
        ensures seat { seated self.new.seat ≡ seated self.old.seat }
    {
        for index in indices.start..indices.end {
            let place = place_of(first, Some(index))?;
            self.free(rt, keys, number, place)?;
        }
        Ok(())
    }

    // Leaves the key of that place to be freed later, where it was given out.
    fn later(&mut self, keys: &Keys, number: usize, place: usize) -> Result<(), Halt>
        ensures told { OnOk result (TellsFrom number (Leaves place ∷ []) keys.now.kept.items
            self.old self.new) }
        ensures seat { seated self.new.seat ≡ seated self.old.seat }
    {
        let Some(key) = self.key_at(keys, place)? else {
            return self.other(number, Other::Unbound);
        };
        if !self.seat.has_shard_of(&key) {
            return Err(Halt::Doubled);
        }
        match self.seat.free_later(key) {
            Ok(()) => self.other(number, Other::Sent),
            Err(_) => self.other(number, Other::RingFull),
        }
    }

    // Frees the keys that have come in on the rings to its shard.
    fn tend<R: Wait>(&mut self, rt: &R, number: usize) -> Result<(), Halt>
        ensures told { (kept : List Given)
            → OnOk result (TellsFrom number (Tends ∷ []) kept self.old self.new) }
        ensures seat { seated self.new.seat ≡ seated self.old.seat }
    {
        let count = self.diary.tend(rt, &mut self.seat, self.arena)?;
        self.diary.keep_other(number, Other::Settled(count))?;
        Ok(())
    }

    // Gives back the pages of its shard on which nothing is live.
    fn trim<R: Wait>(&mut self, rt: &R, number: usize) -> Result<(), Halt>
        ensures told { (kept : List Given)
            → OnOk result (TellsFrom number (Trims ∷ []) kept self.old self.new) }
        ensures seat { seated self.new.seat ≡ seated self.old.seat }
    {
        let count = self.seat.trim(rt, self.arena);
        self.other(number, Other::Trimmed(count))
    }

    // Lets up to that many groups of its shard go to the pool.
    fn retire<R: Wait>(&mut self, rt: &R, number: usize, most: u32) -> Result<(), Halt>
        ensures told { (kept : List Given)
            → OnOk result (TellsFrom number (Retires most ∷ []) kept self.old self.new) }
        ensures seat { seated self.new.seat ≡ seated self.old.seat }
    {
        let most = most as usize;
        let said = retirement(self.seat.retire(rt, self.arena, most))?;
        self.other(number, said)
    }

    // Lets its shard, which has ended, run again.
    fn begin<R: Wait>(&mut self, rt: &R, number: usize) -> Result<(), Halt>
        ensures told { (kept : List Given)
            → OnOk result (TellsFrom number (Begins ∷ []) kept self.old self.new) }
        ensures seat { seated self.new.seat ≡ seated self.old.seat }
    {
        if !self.seat.begin(rt, self.arena) {
            return Err(Halt::Doubled);
        }
        self.other(number, Other::Begun)
    }

    /// Hands over the keys that its lines left to the threads of their shards.
    pub(crate) fn send_off(&mut self)
        ensures diary { self.new.diary ≡ self.old.diary }
        ensures fresh { self.new.fresh ≡ self.old.fresh }
        ensures seat { seated self.new.seat ≡ seated self.old.seat }
        ensures carried { carried_by self.new.seat ≡ carried_by self.old.seat }
        ensures none { HasNoneWaiting self.new.seat }
    {
        self.seat.hand_over();
    }

    /// Frees the keys that are on the rings to its shard. Where all threads have come in and sent
    /// off theirs, no key is sent meanwhile, so one look at each ring takes them all.
    pub(crate) fn settle<R: Wait>(&mut self, rt: &R) -> Result<usize, AllocError>
        ensures told { IfOk result (λ count. TellsTaken count self.old self.new) }
        ensures fresh { self.new.fresh ≡ self.old.fresh }
        ensures seat { seated self.new.seat ≡ seated self.old.seat }
        ensures none { HasNoneWaiting self.new.seat }
    {
        self.diary.tend(rt, &mut self.seat, self.arena)
    }

    /// Abandons its shard, if its thread ended in this section.
    pub(crate) fn leave<R: Wait>(&mut self, rt: &R) -> Result<(), Halt>
        ensures diary { self.new.diary ≡ self.old.diary }
        ensures fresh { self.new.fresh ≡ self.old.fresh }
        ensures seat { seated self.new.seat ≡ seated self.old.seat }
        ensures carried { carried_by self.new.seat ≡ carried_by self.old.seat }
    {
        if !self.leaves {
            return Ok(());
        }
        self.leaves = false;
        match self.seat.end(rt, self.arena) {
            Ok(()) => Ok(()),
            Err(ReceiveError::OutOfMemory) => Err(Halt::OutOfMemory),
            Err(ReceiveError::Doubled | ReceiveError::Ended | ReceiveError::PlanOpen) => {
                Err(Halt::Doubled)
            }
        }
    }

    /// Lets its shard adopt a group, on the line of that number.
    pub(crate) fn adopt<R: Wait>(&mut self, rt: &R, number: usize) -> Result<(), Halt>
        ensures told { OnOk result (TellsAdoption number self.old.diary self.new.diary) }
        ensures fresh { self.new.fresh ≡ self.old.fresh }
        ensures seat { seated self.new.seat ≡ seated self.old.seat }
        ensures carried { carried_by self.new.seat ≡ carried_by self.old.seat }
    {
        let other = adoption(self.seat.adopt(rt, self.arena))?;
        self.diary.keep_adoption(number, other)?;
        Ok(())
    }

    /// Adds what its puts of this section gave to what those of other threads gave in it. From now
    /// on its receipts carry the next section.
    pub(crate) fn go_on(&mut self, latest: &mut Vec<Given>) -> Result<(), Halt>
        ensures diary { self.new.diary ≡ self.old.diary }
        ensures thread { self.new.seat.worker ≡ self.old.seat.worker }
        ensures table { self.new.seat.table ≡ self.old.seat.table }
        ensures section { OnOk result (self.new.seat.section ≡ self.old.seat.section + 1) }
        ensures carried { carried_by self.new.seat ≡ carried_by self.old.seat }
        ensures before { (given : GivenKeys) → AreFresh latest.new.items given
            → OnOk result (AreFresh latest.old.items given) }
        ensures kept { (given : GivenKeys) → AreFresh latest.new.items given
            → OnOk result (AreFresh self.old.fresh.items given) }
    {
        if self.seat.section() == u64::MAX {
            return Err(Halt::Doubled);
        }
        latest.extend_from_slice(self.fresh.as_slice())?;
        self.fresh.clear();
        self.seat.next_section();
        Ok(())
    }

    /// Whether it made no put in this section.
    pub(crate) fn has_none_fresh(&self) -> bool
        ensures { result ≡ true → self.now.fresh.items ≡ [] }
    {
        self.fresh.is_empty()
    }

    /// Its seat, and what it was told.
    pub(crate) fn taken_apart(self) -> (Seat, Diary)
        ensures { result ≡ (self.entry.seat, self.entry.diary) }
    {
        let Caller { seat, diary, .. } = self;
        (seat, diary)
    }
}
