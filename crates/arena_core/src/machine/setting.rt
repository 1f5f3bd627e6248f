// Sets in place, wherever the span of a key is.
ghost use Rattle.std.specs.Prelude.{◌≡◌, ◌≤◌, IfOk, MatchResult, Err, Ok};
ghost use Rattle.shard.specs.Calls.{was_replaced};
ghost use Rattle.arena_core.specs.Calls.{CoreCall, IfSetHere, ShownCall, ShownStep};
ghost use Rattle.arena_core.specs.Lookups.{HasParts};
ghost use Rattle.arena_core.specs.Moved.{StandsIn, StandsInNoOther};
ghost use Rattle.arena_core.specs.Sound.{IsSound};
ghost use Rattle.arena_core.specs.Step.{CoreStep};
ghost use Rattle.arena_core.specs.declared.event.Event.TheVariants as event;
ghost use Rattle.arena_core.specs.declared.reply.Reply.TheVariants as reply;

use super::Core;
use crate::reply::Refusal;
use shard::Replaced;
use span::names::{Key, SpanId};
use span::spans::Log;
use std::alloc::AllocError;

impl<L: Log> Core<L> {
    /// Sets the key to the object of these words, where it is live and its object has as many
    /// words, and says whether it did: what [`Core::step`] does with [`Event::Set`]. The words go
    /// to the page where the object stands, also while a plan is open. Any number of words may be
    /// given. A free of the key takes no memory afterwards, as before.
    ///
    /// It is refused by [`Refusal::OutOfMemory`] alone, and only in place of `true`, where the log
    /// of the key's span could not grow, or memory was refused for a page that had only zeros until
    /// now. A log that is only counted takes no memory until 2^63 changes.
    ///
    /// [`Event::Set`]: crate::Event::Set
    #[inline(always)]
    pub fn set(&mut self, key: &Key, words: &[u128]) -> Result<bool, Refusal>
        ensures exact { CoreCall self.old (event.Set key.now words.now)
            reply.Replaced result self.new }
        ensures plain { ShownCall self.old (event.Set key.now words.now)
            reply.Replaced result self.new }
        ensures sound { IsSound self.new }
    {
        let Some(shard) = self.shards.get_mut(key.span.shard as usize) else {
            return self.set_parts(key.span, key.slot, key.generation, words);
        };
        let Some(index) = shard.first_index(key.span) else {
            return self.set_parts(key.span, key.slot, key.generation, words);
        };
        set_reply(shard.set_first(index, key, words))
    }

    // Sets the key of these parts, where it may be set. It is not inlined, and parts of a key go
    // in registers, so that a set which does not need it saves little.
    #[inline(never)]
    fn set_parts(
        &mut self,
        span: SpanId,
        slot: u8,
        generation: u32,
        words: &[u128],
    ) -> Result<bool, Refusal>
        requires { 1 ≤ generation }
        ensures exact { (key : Key) → HasParts key span slot generation
            → CoreCall self.old (event.Set key words.now) reply.Replaced result self.new }
        ensures plain { (key : Key) → HasParts key span slot generation
            → ShownCall self.old (event.Set key words.now) reply.Replaced result self.new }
        ensures sound { IsSound self.new }
    {
        let key = Key {
            span,
            slot,
            generation,
        };
        self.set_asked(&key, words)
    }

    // Sets the key, where it may be set. The shard that opened its span is asked for it.
    #[inline(always)]
    fn set_asked(&mut self, key: &Key, words: &[u128]) -> Result<bool, Refusal>
        ensures exact { CoreCall self.old (event.Set key.now words.now)
            reply.Replaced result self.new }
        ensures plain { ShownCall self.old (event.Set key.now words.now)
            reply.Replaced result self.new }
        ensures sound { IsSound self.new }
    {
        let Some(shard) = self.shards.get_mut(key.span.shard as usize) else {
            return self.set_moved(key, words);
        };
        let replaced = shard.set(key, words)?;
        if matches!(replaced, Replaced::NotHere) {
            return self.set_moved(key, words);
        }
        Ok(was_set(replaced))
    }

    // Sets the key, where it may be set, and the shard that opened its span does not have the span.
    fn set_moved(&mut self, key: &Key, words: &[u128]) -> Result<bool, Refusal>
        requires { StandsIn self.old.shards key.now.span key.now.span.shard → ⊥ }
        ensures exact { CoreCall self.old (event.Set key.now words.now)
            reply.Replaced result self.new }
        ensures plain { ShownCall self.old (event.Set key.now words.now)
            reply.Replaced result self.new }
        ensures sound { IsSound self.new }
    {
        let replaced = self.set_taken_in(key, words)?;
        if matches!(replaced, Replaced::NotHere) {
            let pooled = self.pool.set(key, words)?;
            return Ok(was_set(pooled));
        }
        Ok(was_set(replaced))
    }

    // Sets the key in the shard that took its span in last, if one did.
    fn set_taken_in(&mut self, key: &Key, words: &[u128]) -> Result<Replaced, Refusal>
        ensures exact { IfSetHere
            (λ answer. CoreStep self.old (event.Set key.now words.now) answer self.new) result }
        ensures plain { IfSetHere
            (λ answer. ShownStep self.old (event.Set key.now words.now) answer self.new) result }
        ensures sound { IsSound self.new }
        ensures not_here { IfOk result (λ answer. answer ≡ Replaced.NotHere
            → StandsInNoOther self.old.shards key.now.span × (self.new ≡ self.old)) }
    {
        let Some(number) = self.whereabouts.shard_of(key.span) else {
            return Ok(Replaced::NotHere);
        };
        let Some(shard) = self.shards.get_mut(number) else {
            return Ok(Replaced::NotHere);
        };
        let replaced = shard.set(key, words)?;
        Ok(replaced)
    }
}

// What a set in a shard comes to: whether it was done, or why it was refused.
#[inline(always)]
fn set_reply(replaced: Result<Replaced, AllocError>) -> Result<bool, Refusal>
    ensures { MatchResult replaced (λ answer. result ≡ Ok (was_replaced answer))
        (λ error. result ≡ Err Refusal.OutOfMemory) }
{
    match replaced {
        Ok(answer) => Ok(was_set(answer)),
        Err(_) => Err(Refusal::OutOfMemory),
    }
}

// Whether the set was done.
fn was_set(replaced: Replaced) -> bool
    ensures { result ≡ was_replaced replaced }
{
    match replaced {
        Replaced::Yes(_) => true,
        Replaced::No(_) | Replaced::NotHere => false,
    }
}
