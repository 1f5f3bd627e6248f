// Puts, look-ups and frees, wherever the span of a key is.
ghost use Rattle.std.specs.Prelude.{◌≡◌, ◌≢◌, ◌≤◌, IfSome, Some, length, option_map, slice_get};
ghost use Rattle.span.specs.Classes.{IsObject, width_of};
ghost use Rattle.shard.specs.Calls.{FindsObject, value_found, was_freed};
ghost use Rattle.arena_core.specs.Calls.{CoreCall, ShownCall, ShownStep};
ghost use Rattle.arena_core.specs.Lookups.{FindsWords, HasParts, words_if};
ghost use Rattle.arena_core.specs.Moved.{StandsIn, StandsInNoOther};
ghost use Rattle.arena_core.specs.Sound.{IsSound};
ghost use Rattle.arena_core.specs.State.{shown};
ghost use Rattle.arena_core.specs.Step.{CoreStep};
ghost use Rattle.arena_core.specs.declared.event.Event.TheVariants as event;
ghost use Rattle.arena_core.specs.declared.reply.Reply.TheVariants as reply;

use super::Core;
use super::making::reach;
use crate::reply::Refusal;
use shard::{Found, Freed, Shard};
use span::names::{Class, Key, Object, SpanId};
use span::spans::Log;

impl<L: Log> Core<L> {
    /// Keeps the object in the shard of this number, at the slot that the shard chooses among those
    /// of its class, and answers its key.
    ///
    /// What [`Core::step`] does with [`Event::Put`], without a reply to take apart. It is refused
    /// as that is: by [`Refusal::Config`] where there is no such shard, by [`Refusal::Ended`] where
    /// it has ended, by [`Refusal::PagesSpent`] where it needs a new span, and has as many groups
    /// as it may have pages or has opened as many spans as it may, and by [`Refusal::OutOfMemory`]
    /// only where none of these holds.
    #[inline(always)]
    pub fn put(&mut self, number: u32, value: Object) -> Result<Key, Refusal>
        ensures exact { CoreCall self.old (event.Put number value) reply.Issued result self.new }
        ensures plain { ShownCall self.old (event.Put number value) reply.Issued result self.new }
        ensures sound { IsSound self.new }
    {
        self.put_words(number, value.class(), value.words())
    }

    /// What [`Core::put`] does with the object of these words, which are as many as the class has.
    /// An object has the room of the largest; words go to their page from where they stand.
    #[inline(always)]
    pub fn put_words(&mut self, number: u32, class: Class, words: &[u128]) -> Result<Key, Refusal>
        requires { length words.now ≡ width_of class }
        ensures exact { CoreCall self.old (event.Put number words.now)
            reply.Issued result self.new }
        ensures plain { ShownCall self.old (event.Put number words.now)
            reply.Issued result self.new }
        ensures sound { IsSound self.new }
    {
        reach(self.alloc, &self.limits, number, &mut self.shards)?;
        let shard = &mut self.shards[number as usize];
        let (key, _) = shard.put_words(class, words)?;
        Ok(key)
    }

    /// The words of the key's object, where it is live: those of the object that [`Core::step`]
    /// answers to [`Event::Get`]. They are lent from the page where they stand. It takes no memory.
    #[inline(always)]
    pub fn get(&self, key: &Key) -> Option<&[u128]>
        ensures value { option_map (λ words. words.now) result
            ≡ (shown self.now).value_of key.now }
        ensures object { IfSome result (λ words. IsObject words.now) }
        ensures sound { IsSound self.now }
    {
        let Some(shard) = self.shards.get(key.span.shard as usize) else {
            return some_words(self.get_unmade(key.span, key.slot, key.generation));
        };
        match shard.get_first(key) {
            Some(found) => words_of(found),
            None => some_words(self.get_other(shard, key.span, key.slot, key.generation)),
        }
    }

    // The words of the key's object, if it is live, else no word. The shard opened the span of
    // the key, and does not note it as a head. Like the calls below it is not inlined, and parts of
    // a key and words go in registers, so that a look-up which needs none of them saves nothing.
    #[inline(never)]
    fn get_other<'a>(
        &'a self,
        shard: &'a Shard<L>,
        span: SpanId,
        slot: u8,
        generation: u32,
    ) -> &'a [u128]
        requires here { slice_get self.now.shards span.shard ≡ Some shard.now }
        requires generation { 1 ≤ generation }
        ensures { FindsWords self.now span slot generation result.now }
    {
        // For the prover: the core is sound.
        let _ = &self.shards;
        let key = Key {
            span,
            slot,
            generation,
        };
        if let Some(found) = shard.get_guest(&key) {
            return words_in(found);
        }
        if shard.is_away(span) {
            self.get_away(span, slot, generation)
        } else {
            self.get_searched(shard, span, slot, generation)
        }
    }

    // The same, if no note led to the span, or says that it is elsewhere: the shard is searched.
    #[inline(never)]
    fn get_searched<'a>(
        &'a self,
        shard: &'a Shard<L>,
        span: SpanId,
        slot: u8,
        generation: u32,
    ) -> &'a [u128]
        requires here { slice_get self.now.shards span.shard ≡ Some shard.now }
        requires generation { 1 ≤ generation }
        ensures { FindsWords self.now span slot generation result.now }
    {
        // For the prover: the core is sound.
        let _ = &self.shards;
        let key = Key {
            span,
            slot,
            generation,
        };
        match shard.get_searched(&key) {
            Found::NotHere => self.get_away(span, slot, generation),
            found => words_in(found),
        }
    }

    // The same, if the shard that opened the span is not made.
    #[inline(never)]
    fn get_unmade(&self, span: SpanId, slot: u8, generation: u32) -> &[u128]
        requires home { StandsIn self.now.shards span span.shard → ⊥ }
        requires generation { 1 ≤ generation }
        ensures { FindsWords self.now span slot generation result.now }
    {
        self.get_away(span, slot, generation)
    }

    // The same, if the shard that opened the span does not have it.
    #[inline(always)]
    fn get_away(&self, span: SpanId, slot: u8, generation: u32) -> &[u128]
        requires home { StandsIn self.now.shards span span.shard → ⊥ }
        requires generation { 1 ≤ generation }
        ensures { FindsWords self.now span slot generation result.now }
    {
        if self.whereabouts.is_empty() {
            self.get_pooled(span, slot, generation)
        } else {
            self.get_taken_in(span, slot, generation)
        }
    }

    // The same, if another shard may have taken the span in. That one is asked first.
    #[inline(never)]
    fn get_taken_in(&self, span: SpanId, slot: u8, generation: u32) -> &[u128]
        requires home { StandsIn self.now.shards span span.shard → ⊥ }
        requires generation { 1 ≤ generation }
        ensures { FindsWords self.now span slot generation result.now }
    {
        let key = Key {
            span,
            slot,
            generation,
        };
        match self.find_taken_in(&key) {
            Found::NotHere => self.get_pooled(span, slot, generation),
            found => words_in(found),
        }
    }

    // The same, if no shard has the span: the pool is asked.
    #[inline(never)]
    fn get_pooled(&self, span: SpanId, slot: u8, generation: u32) -> &[u128]
        requires home { StandsIn self.now.shards span span.shard → ⊥ }
        requires other { StandsInNoOther self.now.shards span }
        requires generation { 1 ≤ generation }
        ensures { FindsWords self.now span slot generation result.now }
    {
        let key = Key {
            span,
            slot,
            generation,
        };
        words_in(self.pool.get(&key))
    }

    // What the shard finds that took the key's span in last, if one did.
    #[inline(always)]
    fn find_taken_in(&self, key: &Key) -> Found<'_>
        ensures object { FindsObject result }
        ensures value { result ≢ Found.NotHere
            → value_found result ≡ (shown self.now).value_of key.now }
        ensures not_here { result ≡ Found.NotHere → StandsInNoOther self.now.shards key.now.span }
    {
        let Some(number) = self.whereabouts.shard_of(key.span) else {
            return Found::NotHere;
        };
        let Some(shard) = self.shards.get(number) else {
            return Found::NotHere;
        };
        shard.get_searched(key)
    }

    /// Frees the key, where it is live, and says whether it was: what [`Core::step`] does with
    /// [`Event::Free`]. It takes no memory.
    #[inline(always)]
    pub fn free(&mut self, key: &Key) -> bool
        ensures exact { CoreStep self.old (event.Free key.now) (reply.Freed result) self.new }
        ensures plain { ShownStep self.old (event.Free key.now) (reply.Freed result) self.new }
        ensures sound { IsSound self.new }
    {
        let Some(shard) = self.shards.get_mut(key.span.shard as usize) else {
            return self.free_parts(key.span, key.slot, key.generation);
        };
        let Some(index) = shard.first_index(key.span) else {
            return self.free_parts(key.span, key.slot, key.generation);
        };
        was_done(shard.free_first(index, key))
    }

    // Frees the key of these parts, if it is live. It is not inlined, and parts of a key go in
    // registers, so that a free which does not need it saves nothing.
    #[inline(never)]
    fn free_parts(&mut self, span: SpanId, slot: u8, generation: u32) -> bool
        requires { 1 ≤ generation }
        ensures exact { (key : Key) → HasParts key span slot generation
            → CoreStep self.old (event.Free key) (reply.Freed result) self.new }
        ensures plain { (key : Key) → HasParts key span slot generation
            → ShownStep self.old (event.Free key) (reply.Freed result) self.new }
        ensures sound { IsSound self.new }
    {
        let key = Key {
            span,
            slot,
            generation,
        };
        self.free_asked(&key)
    }

    // Frees the key, if it is live. The shard that opened its span is asked for it.
    #[inline(always)]
    fn free_asked(&mut self, key: &Key) -> bool
        ensures exact { CoreStep self.old (event.Free key.now) (reply.Freed result) self.new }
        ensures plain { ShownStep self.old (event.Free key.now) (reply.Freed result) self.new }
        ensures sound { IsSound self.new }
    {
        let Some(shard) = self.shards.get_mut(key.span.shard as usize) else {
            return self.free_moved(*key);
        };
        let freed = shard.free(key);
        if matches!(freed, Freed::NotHere) {
            return self.free_moved(*key);
        }
        was_done(freed)
    }

    // Frees the key, where it is live, and the shard that opened its span does not have the span.
    #[inline(never)]
    fn free_moved(&mut self, key: Key) -> bool
        requires { StandsIn self.old.shards key.span key.span.shard → ⊥ }
        ensures exact { CoreStep self.old (event.Free key) (reply.Freed result) self.new }
        ensures plain { ShownStep self.old (event.Free key) (reply.Freed result) self.new }
        ensures sound { IsSound self.new }
    {
        let freed = self.free_taken_in(&key);
        if matches!(freed, Freed::NotHere) {
            return was_done(self.pool.free(&key));
        }
        was_done(freed)
    }

    // Frees the key in the shard that took its span in last, if one did.
    fn free_taken_in(&mut self, key: &Key) -> Freed
        ensures exact { result ≢ Freed.NotHere
            → CoreStep self.old (event.Free key.now) (reply.Freed (was_freed result)) self.new }
        ensures plain { result ≢ Freed.NotHere
            → ShownStep self.old (event.Free key.now) (reply.Freed (was_freed result)) self.new }
        ensures sound { IsSound self.new }
        ensures not_here { result ≡ Freed.NotHere → StandsInNoOther self.old.shards key.now.span
            × (self.new ≡ self.old) }
    {
        let Some(number) = self.whereabouts.shard_of(key.span) else {
            return Freed::NotHere;
        };
        let Some(shard) = self.shards.get_mut(number) else {
            return Freed::NotHere;
        };
        shard.free(key)
    }
}

// The words that were found.
#[inline(always)]
fn words_of(found: Found<'_>) -> Option<&[u128]>
    requires { FindsObject found }
    ensures value { option_map (λ words. words.now) result ≡ value_found found.entry }
    ensures object { IfSome result (λ words. IsObject words.now) }
{
    match found {
        Found::Value(value, _) => Some(value),
        Found::Gone(_) | Found::NotHere => None,
    }
}

// The words that were found, or no word. An object has at least one.
#[inline(always)]
fn words_in(found: Found<'_>) -> &[u128]
    requires { FindsObject found }
    ensures value { words_if result.now ≡ value_found found.entry }
    ensures object { IfSome (words_if result.now) IsObject }
{
    match found {
        Found::Value(value, _) => value,
        Found::Gone(_) | Found::NotHere => &[],
    }
}

// The words, if there is one.
#[inline(always)]
fn some_words(words: &[u128]) -> Option<&[u128]>
    ensures value { option_map (λ words. words.now) result ≡ words_if words.now }
    ensures object { IfSome (words_if words.now) IsObject
        → IfSome result (λ words. IsObject words.now) }
{
    if words.is_empty() { None } else { Some(words) }
}

// Whether the free was done.
fn was_done(freed: Freed) -> bool
    ensures { result ≡ was_freed freed }
{
    match freed {
        Freed::Yes(_) => true,
        Freed::No(_) | Freed::NotHere => false,
    }
}
