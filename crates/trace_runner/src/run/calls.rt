// The calls that the lines of a trace ask for.
ghost use Rattle.std.specs.Prelude.{◌≡◌, ◌+◌, ◌-◌, ◌≤◌, ◌^◌, ◌<◌, ◌||◌, ◌==◌, [], ◌∷◌, false, List, ℕ, Some, None, OnOk, Ok, length, unwrap_or};
ghost use Rattle.trace_runner.specs.Kept.{AreHome, IsHome, is_put};
ghost use Rattle.trace_runner.specs.Recalls.{IsAtRest, IsOpen, KeepsPlan, MayCall, Resumes, has};
ghost use Rattle.span.specs.Classes.{width_of};
ghost use Rattle.trace_text.specs.Objects.{counted_from, last_word};
ghost use Rattle.trace_text.specs.declared.line.Line.{Line};
ghost use Rattle.trace_text.specs.Causes.{begins_again, call_ends, is_call_over};
ghost use Rattle.trace_runner.specs.Made.{Did, Calls, Keyless, Leaves, Tends};
ghost use Rattle.trace_runner.specs.Runs.{on_key, key_of, puts_asked};
ghost use Rattle.trace_runner.specs.RunState.{KeepsAll, KeepsKey, KeepsKeysOf, MakesAt, asked_in, frees_in, lines_in};
ghost use Rattle.arena_core.specs.declared.event.Event.{Event};
ghost use Rattle.arena_core.specs.declared.event.Event.TheVariants as event;

use super::Run;
use super::answers::{answer_to, key_of_put, was_replaced};
use crate::report::{Answer, Other};
use crate::rings::settle_shard;
use arena_core::Event;
use span::names::{Class, Key};
use std::alloc::AllocError;
use trace_text::{Call, Reference, counted_in};

impl<'t> Run<'t> {
    /// Makes a call that is no put on the line of that number, and keeps what it answers.
    fn call(&mut self, number: usize, event: Event) -> Result<(), AllocError>
        // The event is one that a line asks for.
        requires may { MayCall self.old.core event }
        requires kind { is_put (Calls event) ≡ false }

        // It is made, and its reply kept or told.
        ensures made { OnOk result (MakesAt number (Calls event ∷ []) self.old self.new) }
        ensures keys { self.new.replies.keys ≡ self.old.replies.keys }

        // All else stays.
        ensures shards { KeepsPlan self.old.core self.new.core }
        ensures plans { self.new.plans ≡ self.old.plans }
        ensures leaving { self.new.leaving ≡ self.old.leaving }
        ensures trace { self.new.trace.now ≡ self.old.trace.now }
    {
        let reply = self.core.step(event);
        let answer = answer_to(reply)?;
        self.replies.tell(number, &answer)?;
        Ok(())
    }

    /// Lets the shard adopt, on the line of that number. An event has the room of an object, which
    /// is cleared, and here no other line pays for it.
    #[inline(never)]
    pub(super) fn adopt(&mut self, number: usize, shard: u32) -> Result<(), AllocError>
        requires { MayCall self.old.core (event.Adopt shard) }
        ensures made { OnOk result (MakesAt number (Calls (event.Adopt shard) ∷ []) self.old
            self.new) }
        ensures keys { self.new.replies.keys ≡ self.old.replies.keys }
        ensures shards { KeepsPlan self.old.core self.new.core }
        ensures plans { self.new.plans ≡ self.old.plans }
        ensures leaving { self.new.leaving ≡ self.old.leaving }
        ensures trace { self.new.trace.now ≡ self.old.trace.now }
    {
        self.call(number, Event::Adopt { shard })
    }

    /// Puts the object of the class that counts up from that base.
    fn put(
        &mut self,
        number: usize,
        thread: u32,
        class: Class,
        base: u128,
    ) -> Result<(), AllocError>
        requires running { IsOpen self.old.core thread }
        requires within { last_word class base < 2 ^ 128 }
        ensures made { OnOk result (MakesAt number
            (Calls (event.Put thread (counted_from class base)) ∷ []) self.old self.new) }
        ensures shards { KeepsPlan self.old.core self.new.core }
        ensures plans { self.new.plans ≡ self.old.plans }
        ensures leaving { self.new.leaving ≡ self.old.leaving }
        ensures trace { self.new.trace.now ≡ self.old.trace.now }
    {
        match class {
            Class::C16 => self.put_words(number, thread, class, &[base]),
            _ => {
                let mut room = [0; 16];
                self.put_words(number, thread, class, counted_in(&mut room, class, base))
            }
        }
    }

    // Puts the object of these words, by the core's own call: an event, an object and a reply would
    // go through memory.
    fn put_words(
        &mut self,
        number: usize,
        thread: u32,
        class: Class,
        words: &[u128],
    ) -> Result<(), AllocError>
        requires running { IsOpen self.old.core thread }
        requires width { length words.now ≡ width_of class }
        ensures made { OnOk result (MakesAt number (Calls (event.Put thread words.now) ∷ [])
            self.old self.new) }
        ensures shards { KeepsPlan self.old.core self.new.core }
        ensures plans { self.new.plans ≡ self.old.plans }
        ensures leaving { self.new.leaving ≡ self.old.leaving }
        ensures trace { self.new.trace.now ≡ self.old.trace.now }
    {
        let put = self.core.put_words(thread, class, words);
        let key = key_of_put(put)?;
        self.replies.tell_put(number, key)?;
        Ok(())
    }

    /// Keeps that no call was made, since the key that the line names was never given out.
    fn skip(&mut self, number: usize) -> Result<(), AllocError>
        ensures made { OnOk result (MakesAt number (Keyless ∷ []) self.old self.new) }
        ensures keys { self.new.replies.keys ≡ self.old.replies.keys }
        ensures shards { KeepsPlan self.old.core self.new.core }
        ensures plans { self.new.plans ≡ self.old.plans }
        ensures leaving { self.new.leaving ≡ self.old.leaving }
        ensures trace { self.new.trace.now ≡ self.old.trace.now }
    {
        self.replies.tell(number, &Answer::Other(Other::Unbound))?;
        Ok(())
    }

    /// Puts `count` objects of the class in order, which count up from `value`, from `value + 1`
    /// and so on.
    fn fill(
        &mut self,
        number: usize,
        thread: u32,
        class: Class,
        count: u32,
        value: u128,
    ) -> Result<(), AllocError>
        requires running { IsOpen self.old.core thread }
        requires within { last_word class (value + count - 1) < 2 ^ 128 }
        ensures made { OnOk result (MakesAt number (puts_asked thread class count value) self.old
            self.new) }
        ensures shards { KeepsPlan self.old.core self.new.core }
        ensures plans { self.new.plans ≡ self.old.plans }
        ensures leaving { self.new.leaving ≡ self.old.leaving }
        ensures trace { self.new.trace.now ≡ self.old.trace.now }
    {
        for i in 0..count {
            self.put(number, thread, class, value + u128::from(i))?;
        }
        Ok(())
    }

    /// The key that a reference names, where the first key of its name has that place.
    fn key_of(&self, first: usize, reference: &Reference) -> Option<Key>
        ensures found { (done : List Did) → KeepsKey self.now done first reference.now
            → result ≡ key_of (lines_in self.now) done reference.now }
        ensures home { (shards : ℕ) → AreHome shards self.now.replies.keys.items
            → IsHome shards result }
    {
        self.replies.key(first, reference.index.unwrap_or(0))
    }

    /// Sets the key, where it was given out, to the object of the class that counts up from that
    /// base. It stays out of the calls of a thread, which would have the room of its words each.
    #[inline(never)]
    fn set(
        &mut self,
        number: usize,
        key: Option<Key>,
        class: Class,
        base: u128,
    ) -> Result<(), AllocError>
        requires within { last_word class base < 2 ^ 128 }
        ensures made { OnOk result (MakesAt number
            (on_key (λ k. event.Set k (counted_from class base)) key ∷ []) self.old self.new) }
        ensures shards { KeepsPlan self.old.core self.new.core }
        ensures plans { self.new.plans ≡ self.old.plans }
        ensures leaving { self.new.leaving ≡ self.old.leaving }
        ensures trace { self.new.trace.now ≡ self.old.trace.now }
    {
        let Some(key) = key else {
            return self.skip(number);
        };
        match class {
            Class::C16 => self.set_key(number, key, &[base]),
            _ => {
                let mut room = [0; 16];
                self.set_key(number, key, counted_in(&mut room, class, base))
            }
        }
    }

    // Sets a key that was given out to the object of these words, by the core's own call, as a put
    // does.
    fn set_key(&mut self, number: usize, key: Key, words: &[u128]) -> Result<(), AllocError>
        ensures made { OnOk result (MakesAt number (Calls (event.Set key words.now) ∷ []) self.old
            self.new) }
        ensures shards { KeepsPlan self.old.core self.new.core }
        ensures plans { self.new.plans ≡ self.old.plans }
        ensures leaving { self.new.leaving ≡ self.old.leaving }
        ensures trace { self.new.trace.now ≡ self.old.trace.now }
    {
        let set = self.core.set(&key, words);
        let replaced = was_replaced(set)?;
        self.replies.tell_set(number, replaced)?;
        Ok(())
    }

    /// Frees the key, where it was given out. It is inlined, so that no key of a sweep goes through
    /// memory.
    #[inline(always)]
    fn free(&mut self, number: usize, key: Option<Key>) -> Result<(), AllocError>
        ensures made { OnOk result (MakesAt number (on_key event.Free key ∷ []) self.old self.new) }
        ensures keys { self.new.replies.keys ≡ self.old.replies.keys }
        ensures shards { KeepsPlan self.old.core self.new.core }
        ensures plans { self.new.plans ≡ self.old.plans }
        ensures leaving { self.new.leaving ≡ self.old.leaving }
        ensures trace { self.new.trace.now ≡ self.old.trace.now }
    {
        match key {
            Some(key) => self.free_key(number, key),
            None => self.skip(number),
        }
    }

    // The same for a key that was given out, by the core's own call.
    fn free_key(&mut self, number: usize, key: Key) -> Result<(), AllocError>
        ensures made { OnOk result (MakesAt number (Calls (event.Free key) ∷ []) self.old
            self.new) }
        ensures keys { self.new.replies.keys ≡ self.old.replies.keys }
        ensures shards { KeepsPlan self.old.core self.new.core }
        ensures plans { self.new.plans ≡ self.old.plans }
        ensures leaving { self.new.leaving ≡ self.old.leaving }
        ensures trace { self.new.trace.now ≡ self.old.trace.now }
    {
        let freed = self.core.free(&key);
        self.replies.tell_free(number, freed)?;
        Ok(())
    }

    /// Looks the key up, where it was given out.
    fn get(&mut self, number: usize, key: Option<Key>) -> Result<(), AllocError>
        ensures made { OnOk result (MakesAt number (on_key event.Get key ∷ []) self.old self.new) }
        ensures shards { KeepsPlan self.old.core self.new.core }
        ensures plans { self.new.plans ≡ self.old.plans }
        ensures leaving { self.new.leaving ≡ self.old.leaving }
        ensures trace { self.new.trace.now ≡ self.old.trace.now }
    {
        match key {
            Some(key) => self.get_key(number, key),
            None => self.skip(number),
        }
    }

    // The same for a key that was given out.
    fn get_key(&mut self, number: usize, key: Key) -> Result<(), AllocError>
        ensures made { OnOk result (MakesAt number (Calls (event.Get key) ∷ []) self.old self.new) }
        ensures shards { KeepsPlan self.old.core self.new.core }
        ensures plans { self.new.plans ≡ self.old.plans }
        ensures leaving { self.new.leaving ≡ self.old.leaving }
        ensures trace { self.new.trace.now ≡ self.old.trace.now }
    {
        let found = self.core.get(&key);
        self.replies.tell_look_up(number, found)?;
        Ok(())
    }

    /// Frees the keys of a name from one place up to, and without, another, where its first key has
    /// that place.
    fn sweep(&mut self, number: usize, first: usize, from: u32, to: u32) -> Result<(), AllocError>
        ensures made { (done : List Did) (name : List ℕ) → KeepsAll self.old done first name from to
            → OnOk result (MakesAt number (frees_in self.old done name from to) self.old self.new) }
        ensures shards { KeepsPlan self.old.core self.new.core }
        ensures plans { self.new.plans ≡ self.old.plans }
        ensures leaving { self.new.leaving ≡ self.old.leaving }
        ensures trace { self.new.trace.now ≡ self.old.trace.now }
    {
        for place in from..to {
            let key = self.replies.key(first, place);
            self.free(number, key)?;
        }
        Ok(())
    }

    /// Leaves the key to be freed later, where it was given out.
    fn later(&mut self, number: usize, thread: u32, key: Option<Key>) -> Result<(), AllocError>
        requires thread { IsOpen self.old.core thread }
        requires home { IsHome self.old.core.limits.shards key }
        ensures made { OnOk result (MakesAt number (on_key (event.Later thread) key ∷ []) self.old
            self.new) }
        ensures shards { KeepsPlan self.old.core self.new.core }
        ensures plans { self.new.plans ≡ self.old.plans }
        ensures leaving { self.new.leaving ≡ self.old.leaving }
        ensures trace { self.new.trace.now ≡ self.old.trace.now }
    {
        match key {
            Some(key) => self.call(
                number,
                Event::Later {
                    worker: thread,
                    key,
                },
            ),
            None => self.skip(number),
        }
    }

    /// Frees the keys that wait on the rings to the thread's shard.
    fn tend(&mut self, number: usize, thread: u32) -> Result<(), AllocError>
        requires thread { IsOpen self.old.core thread }
        requires enough { self.old.trace.now.header.shards ≤ self.old.core.limits.shards }
        ensures made { OnOk result (MakesAt number
            (Tends self.old.trace.now.header.shards thread ∷ []) self.old self.new) }
        ensures shards { KeepsPlan self.old.core self.new.core }
        ensures plans { self.new.plans ≡ self.old.plans }
        ensures leaving { self.new.leaving ≡ self.old.leaving }
        ensures trace { self.new.trace.now ≡ self.old.trace.now }
    {
        let workers = self.trace.header.shards;
        let count = settle_shard(&mut self.core, workers, thread)?;
        self.replies
            .tell(number, &Answer::Other(Other::Settled(count)))?;
        Ok(())
    }

    /// Gives back the pages of the thread's shard on which nothing is live. It stays out of line,
    /// as an adoption does.
    #[inline(never)]
    fn trim(&mut self, number: usize, thread: u32) -> Result<(), AllocError>
        requires { IsOpen self.old.core thread }
        ensures made { OnOk result (MakesAt number (Calls (event.Trim thread) ∷ []) self.old
            self.new) }
        ensures shards { KeepsPlan self.old.core self.new.core }
        ensures plans { self.new.plans ≡ self.old.plans }
        ensures leaving { self.new.leaving ≡ self.old.leaving }
        ensures trace { self.new.trace.now ≡ self.old.trace.now }
    {
        self.call(number, Event::Trim { shard: thread })
    }

    /// Lets up to that many groups of the thread's shard go to the pool. It stays out of line, as
    /// an adoption does.
    #[inline(never)]
    fn retire(&mut self, number: usize, thread: u32, most: u32) -> Result<(), AllocError>
        requires { IsOpen self.old.core thread }
        ensures made { OnOk result (MakesAt number (Calls (event.Retire thread most) ∷ []) self.old
            self.new) }
        ensures shards { KeepsPlan self.old.core self.new.core }
        ensures plans { self.new.plans ≡ self.old.plans }
        ensures leaving { self.new.leaving ≡ self.old.leaving }
        ensures trace { self.new.trace.now ≡ self.old.trace.now }
    {
        let most = most as usize;
        self.call(
            number,
            Event::Retire {
                shard: thread,
                most,
            },
        )
    }

    /// Lets the shard of a thread that has ended run again.
    #[inline(never)]
    pub(super) fn begin(&mut self, number: usize, thread: u32) -> Result<(), AllocError>
        requires { IsAtRest self.old.core thread }
        ensures made { OnOk result (MakesAt number (Calls (event.Begin thread) ∷ []) self.old
            self.new) }
        ensures shards { Resumes self.old.core (λ number. thread == number) self.new.core }
        ensures plans { self.new.plans ≡ self.old.plans }
        ensures leaving { self.new.leaving ≡ self.old.leaving }
        ensures trace { self.new.trace.now ≡ self.old.trace.now }
    {
        match self.core.begin(thread) {
            Ok(()) => {
                self.replies.tell(number, &Answer::Other(Other::Begun))?;
                Ok(())
            }
            // The shard is there, and has ended.
            Err(_) => unreachable!(),
        }
    }

    /// Keeps that the thread has ended. Its shard is abandoned at the barrier.
    fn leave(&mut self, number: usize, thread: u32) -> Result<(), AllocError>
        ensures made { OnOk result (MakesAt number (Leaves ∷ []) self.old self.new) }
        ensures shards { KeepsPlan self.old.core self.new.core }
        ensures plans { self.new.plans ≡ self.old.plans }
        ensures leaving { OnOk result ((other : ℕ) → has self.new.leaving other
            ≡ (thread == other || has self.old.leaving other)) }
        ensures trace { self.new.trace.now ≡ self.old.trace.now }
    {
        self.leaving.insert(thread)?;
        self.replies.tell(number, &Answer::Other(Other::Ended))?;
        Ok(())
    }

    /// Makes the calls of a thread on the line of that number, which does not begin again. The
    /// first key of the name that it reads has that place.
    pub(super) fn thread_call(
        &mut self,
        number: usize,
        thread: u32,
        first: usize,
        call: &Call,
    ) -> Result<(), AllocError>
        // The call is that of a trace.
        requires thread { IsOpen self.old.core thread }
        requires runs { begins_again call.now ≡ false }
        requires within { (above : List Line) × (is_call_over above call.now ≡ false) }
        requires home { AreHome self.old.core.limits.shards self.old.replies.keys.items }
        requires enough { self.old.trace.now.header.shards ≤ self.old.core.limits.shards }

        // What it asks for is made.
        ensures made { (done : List Did) → KeepsKeysOf self.old done first call.now → OnOk result
            (MakesAt number (asked_in self.old done thread call.now) self.old self.new) }

        // All else stays.
        ensures shards { KeepsPlan self.old.core self.new.core }
        ensures plans { self.new.plans ≡ self.old.plans }
        ensures leaving { OnOk result ((other : ℕ) → has self.new.leaving other
            ≡ (call_ends other thread call.now || has self.old.leaving other)) }
        ensures trace { self.new.trace.now ≡ self.old.trace.now }
    {
        match call {
            Call::Put { class, value, .. } => self.put(number, thread, *class, *value),
            Call::Fill {
                class,
                count,
                value,
                ..
            } => self.fill(number, thread, *class, *count, *value),
            Call::Get { key } => {
                let key = self.key_of(first, key);
                self.get(number, key)
            }
            Call::Set { key, class, value } => {
                let key = self.key_of(first, key);
                self.set(number, key, *class, *value)
            }
            Call::Free { key } => {
                let key = self.key_of(first, key);
                self.free(number, key)
            }
            Call::Sweep { from, to, .. } => self.sweep(number, first, *from, *to),
            Call::Later { key } => {
                let key = self.key_of(first, key);
                self.later(number, thread, key)
            }
            Call::Tend => self.tend(number, thread),
            Call::Trim => self.trim(number, thread),
            Call::Retire { most } => self.retire(number, thread, *most),
            Call::End => self.leave(number, thread),
            Call::Begin => unreachable!(),
        }
    }
}
