// One span: which of its slots are live, the generations that they were given, and the log of all
// that was done, which is kept or only counted.
ghost use Rattle.std.specs.Prelude.{◌≡◌, ◌+◌, ◌<◌, ◌≤◌, ◌↔◌, IsTrue, OnOk, OnErr, IfOk, IfSome, MatchOption, [], length, true, false};
ghost use Rattle.std.specs.Bool.{OnTrue, OnFalse};
ghost use Rattle.std.specs.FinSet as set;
ghost use Rattle.span.specs.declared.change.Change.TheVariants as Change;

use crate::class::Class;
use crate::id::SpanId;
use crate::key::Key;
use crate::log::{Kept, Log};
use crate::marks::Marks;
use crate::span_log::SpanLog;
use bitmap::{Bits256, Vacancy};
use std::alloc::{AllocError, Global};
use std::marker::Model;

/// The slots of a class: which are live, at which generation, and the log of all that was done to
/// them.
///
/// A span is moved whenever a list of spans grows, so what is kept of each slot stands outside of
/// the struct, and comes with puts: a byte for each of 16 slots, of 64, of 128 or of all, as far as
/// one was put, and 4 bytes each once one was put 128 times.
/// The log has room for the free of each live slot at all times, so a free takes no memory. A log
/// that is only [`Counted`](crate::spans::Counted) takes none at all.
#[derive(Drop)]
pub struct Span<L: Log = Kept> {
    // A look-up reads the id, the class and the marks.
    id: SpanId,
    gens: u32,
    class: Class,
    // Whether some slot may be worn. Which ones are, the marks say.
    may_be_worn: bool,
    live_count: u16,
    marks: Marks,
    log: L,
}

impl<L: Log> Model for Span<L> {
    ghost use Rattle.span.specs.State.{SpanState};

    ghost Value = { SpanState };

    ghost view = { λ s. record {
      id = s.id;
      class = s.class;
      gens = s.gens;
      log = L.changes s.log;
    } };

    ghost use Rattle.span.specs.Kept.{IsKept};

    ghost invariant = { λ s.
        IsKept s.class s.gens s.may_be_worn s.live_count s.marks (L.changes s.log) (L.room s.log) };
}

impl<L: Log> Span<L> {
    ghost use Rattle.bitmap.specs.Slots.{HasWord, IsLowestOutsideIn};
    ghost use Rattle.bitmap.specs.declared.bits.TheConstants.{SLOTS};
    ghost use Rattle.span.specs.Classes.{slots_in, width_of};
    ghost use Rattle.span.specs.Log.{IsLegal, IsOfClass, live_slots, worn_slots, puts_of, Holds, was_issued};
    ghost use Rattle.span.specs.Order.{HoldsNoneFrom, IsFirstHeld};
    ghost use Rattle.span.specs.State.{IsSettable, used_or_worn, with_change};

    /// A span to which nothing was done yet, whose log is kept or counted as its type says: as
    /// [`Span::new`]. Takes no memory.
    pub fn with_log(alloc: Global, id: SpanId, class: Class, gens: u32) -> Self
        requires { 1 ≤ gens }
        ensures { result ≡ record { id = id; class = class; gens = gens; log = [] } }
    {
        Span {
            id,
            gens,
            class,
            may_be_worn: false,
            live_count: 0,
            marks: Marks::new(alloc),
            log: L::new(alloc),
        }
    }

    /// Puts an object, given by its words, at a slot that is neither live nor worn, and answers its
    /// key, which was never given out before. It grows a log that is kept for this put and for the
    /// frees of all live slots. It grows the list of marks if that ends before the slot, or if the
    /// slot is the first that is put 128 times, or 2^31 times. `Err` comes where memory runs out,
    /// and then the span is as before.
    #[inline(always)]
    pub fn put_at(&mut self, slot: u8, words: &[u128]) -> Result<Key, AllocError>
        requires on_page { slot < slots_in self.old.class }
        requires width { length words.now ≡ width_of self.old.class }
        requires not_live { set.contains (live_slots self.old.log) slot ≡ false }
        requires not_worn { set.contains (worn_slots self.old.gens self.old.log) slot ≡ false }

        // The key.
        ensures key { IfOk result (λ key. (key.span ≡ self.old.id) × (key.slot ≡ slot)
            × (key.generation ≡ puts_of slot self.old.log + 1)) }
        ensures at_most_gens { IfOk result (λ key. key.generation ≤ self.old.gens) }
        ensures never_issued { IfOk result (λ key.
            was_issued self.old.log key.slot key.generation ≡ false) }

        // The span.
        ensures ok { OnOk result (self.new ≡ with_change self.old
            (Change.Put slot (puts_of slot self.old.log + 1) words.now)) }
        ensures err { OnErr result (self.new ≡ self.old) }
        ensures legal { IsLegal self.new.gens self.new.log }
        ensures of_class { IsOfClass self.new.class self.new.log }
    {
        self.log
            .reserve(usize::from(self.live_count) + 2, words.len())?;
        self.marks.reserve_all(self.class, slot)?;
        let generation = self.marks.give_next(slot);
        self.log.push_put(slot, generation, self.class, words);
        self.live_count += 1;
        if generation == self.gens {
            self.may_be_worn = true;
        }
        Ok(Key {
            span: self.id,
            slot,
            generation,
        })
    }

    /// Whether the slot is live at the generation.
    #[inline(always)]
    pub fn holds(&self, slot: u8, generation: u32) -> bool
        ensures live { IsTrue result ↔ Holds self.now.log slot generation }
        ensures on_page { OnTrue result (slot < slots_in self.now.class) }
        ensures legal { IsLegal self.now.gens self.now.log }
    {
        self.marks.is_at(slot, generation)
    }

    /// The key of the lowest live slot from this one on, if one is live. Takes no memory.
    pub fn first_from(&self, slot: u32) -> Option<Key>
        ensures first { MatchOption result (HoldsNoneFrom self.now.log slot)
            (IsFirstHeld self.now.log slot) }
        ensures span { IfSome result (λ key. key.span ≡ self.now.id) }
    {
        if self.live_count == 0 {
            return None;
        }
        let Some(slot) = self.marks.first_live(slot) else {
            return None;
        };
        let span = self.id;
        let generation = self.marks.generation_of(slot);
        Some(Key {
            span,
            slot,
            generation,
        })
    }

    /// Sets the object of the slot to these words if the slot is live at the generation and its
    /// object has as many, and says whether it was. It grows a log that is kept for this set and
    /// for the frees of all live slots.
    ///
    /// # Errors
    ///
    /// `AllocError` in place of `true`, where memory runs out. A log that is only counted takes
    /// none, and refuses a set after 2^63 changes alone. The span is then as before.
    pub fn set_held(
        &mut self,
        slot: u8,
        generation: u32,
        words: &[u128],
    ) -> Result<bool, AllocError>
        ensures found { IfOk result (λ done. IsTrue done
            ↔ IsSettable self.old slot generation words.now) }
        ensures set { IfOk result (λ done. OnTrue done
            (self.new ≡ with_change self.old (Change.Set slot generation words.now))) }
        ensures unknown { IfOk result (λ done. OnFalse done (self.new ≡ self.old)) }
        ensures refused { OnErr result (IsSettable self.old slot generation words.now) }
        ensures err { OnErr result (self.new ≡ self.old) }
        ensures legal { IsLegal self.new.gens self.new.log }
        ensures of_class { IsOfClass self.new.class self.new.log }
    {
        if words.len() != self.class.words() || !self.holds(slot, generation) {
            return Ok(false);
        }
        self.set_at(slot, generation, words)?;
        Ok(true)
    }

    // Sets the object of the slot, which is live at the generation, and whose object has as many
    // words.
    fn set_at(&mut self, slot: u8, generation: u32, words: &[u128]) -> Result<(), AllocError>
        requires { IsSettable self.old slot generation words.now }
        ensures ok { OnOk result
            (self.new ≡ with_change self.old (Change.Set slot generation words.now)) }
        ensures err { OnErr result (self.new ≡ self.old) }
        ensures legal { IsLegal self.new.gens self.new.log }
        ensures of_class { IsOfClass self.new.class self.new.log }
    {
        self.log
            .reserve_set(usize::from(self.live_count) + 1, words.len())?;
        self.log.push_set(slot, generation, self.class, words);
        Ok(())
    }

    /// Frees the slot if it is live at the generation, and says whether it was. Takes no memory.
    #[inline(always)]
    pub fn free_held(&mut self, slot: u8, generation: u32) -> bool
        ensures found { IsTrue result ↔ Holds self.old.log slot generation }
        ensures freed { OnTrue result
            (self.new ≡ with_change self.old (Change.Free slot generation)) }
        ensures unknown { OnFalse result (self.new ≡ self.old) }
        ensures legal { IsLegal self.new.gens self.new.log }
    {
        if !self.holds(slot, generation) {
            return false;
        }
        self.free_at(slot, generation);
        true
    }

    // Frees the slot, which is live at the generation.
    #[inline(always)]
    fn free_at(&mut self, slot: u8, generation: u32)
        requires { Holds self.old.log slot generation }
        ensures freed { self.new ≡ with_change self.old (Change.Free slot generation) }
        ensures legal { IsLegal self.new.gens self.new.log }
    {
        self.log.push_free(slot, generation);
        self.marks.take_back(slot);
        self.live_count -= 1;
    }

    /// The slots that are live. It reads what is kept of each slot, if one is live.
    pub fn live(&self) -> Bits256
        ensures { result ≡ live_slots self.now.log }
    {
        if self.live_count == 0 {
            return Bits256::empty();
        }
        self.marks.live()
    }

    /// How many slots are live.
    pub fn live_count(&self) -> u16
        ensures { result ≡ set.len (live_slots self.now.log) }
    {
        self.live_count
    }

    /// The slots that were given their greatest generation, and take no put again. A worn slot may
    /// be live. It reads what is kept of each slot once one is worn, and nothing before.
    #[inline(always)]
    pub fn worn(&self) -> Bits256
        ensures { result ≡ worn_slots self.now.gens self.now.log }
    {
        if !self.may_be_worn {
            return Bits256::empty();
        }
        self.marks.slots_at(self.gens)
    }

    /// The lowest slot of the word that is neither in the set nor worn, and whether it is the last
    /// of the word, or `None` if there is none. Word k has the slots from 64 k on.
    #[inline(always)]
    pub fn lowest_unused_in(&self, used: &Bits256, word: usize) -> Option<Vacancy>
        requires { word < 4 }
        ensures lowest { MatchOption result (HasWord (used_or_worn self.now used.now) word)
            (λ found. IsLowestOutsideIn (used_or_worn self.now used.now) word found.slot) }
        ensures last { IfSome result (λ found. IsTrue found.is_last
            ↔ HasWord (set.insert (used_or_worn self.now used.now) found.slot) word) }
        ensures in_range { IfSome result (λ found. found.slot < SLOTS) }
    {
        if self.may_be_worn {
            return used.lowest_outside_both_in(&self.worn(), word);
        }
        used.lowest_outside_both_in(used, word)
    }

    /// The class of its objects.
    pub fn class(&self) -> Class
        ensures class { result ≡ self.now.class }
        ensures of_class { IsOfClass self.now.class self.now.log }
    {
        self.class
    }

    /// The span's name.
    pub fn id(&self) -> SpanId
        ensures { result ≡ self.now.id }
    {
        self.id
    }

    /// The greatest generation that a slot may be given.
    pub fn gens(&self) -> u32
        ensures value { result ≡ self.now.gens }
        ensures in_range { 1 ≤ result }
    {
        self.gens
    }

    /// How many changes were done: the length of the log, whether it is kept or not.
    pub fn changes(&self) -> usize
        ensures { result ≡ length self.now.log }
    {
        self.log.len()
    }
}

impl Span<Kept> {
    ghost use Rattle.span.specs.Log.{IsLegal};
    ghost use Rattle.span.specs.KeptLogs.{kept_changes};
    ghost use Rattle.span.specs.SpanLogs.{span_of_log};

    /// A span to which nothing was done yet. A slot is put at most `gens` times. Takes no memory.
    pub fn new(alloc: Global, id: SpanId, class: Class, gens: u32) -> Self
        requires { 1 ≤ gens }
        ensures { result ≡ record { id = id; class = class; gens = gens; log = [] } }
    {
        Span::with_log(alloc, id, class, gens)
    }

    /// All changes, in order, of which none is ever dropped. A log that is only counted has no such
    /// list.
    pub fn log(&self) -> &Kept
        ensures changes { kept_changes result.now ≡ self.now.log }
        ensures legal { IsLegal self.now.gens self.now.log }
    {
        &self.log
    }

    /// Its id, its greatest generation and all its changes, which are handed out by move, when its
    /// run is over. Takes no memory.
    pub fn into_log(self) -> SpanLog
        ensures log { span_of_log result ≡ self }
        ensures legal { IsLegal result.gens (kept_changes result.log) }
    {
        let Span {
            id,
            gens,
            class,
            log,
            ..
        } = self;
        SpanLog {
            span: id,
            class,
            gens,
            log,
        }
    }
}
