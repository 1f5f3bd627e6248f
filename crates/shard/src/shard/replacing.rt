// Sets in place.
ghost use Rattle.std.specs.Prelude.{◌≡◌, ◌≢◌, IfOk, OnErr, true};
ghost use Rattle.span.specs.PlainMap as plain;
ghost use Rattle.groups.specs.Group.{StandsAt};
ghost use Rattle.groups.specs.Shown.{with_value_if};
ghost use Rattle.shard.specs.Calls.{Sets, was_replaced};
ghost use Rattle.shard.specs.Shown.{shown};
ghost use Rattle.shard.specs.Sound.{IsSound};

use crate::shard::Shard;
use span::names::Key;
use span::spans::Log;
use std::alloc::AllocError;

/// What a set did. A `usize` is the number of changes that the log of the key's span had before.
#[derive(Clone, Copy, PartialEq, Eq, Debug)]
pub enum Replaced {
    /// The key was live, and its object has been replaced.
    Yes(usize),
    /// The span is here, and the key was not live, or its object has another class.
    No(usize),
    /// The shard has no such span.
    NotHere,
}

impl<L: Log> Shard<L> {
    /// Sets the key's object to these words in place, where the key is live here and its object has
    /// as many. A closed group takes sets, and so does a guest. A free of the key takes no memory
    /// afterwards, as before.
    ///
    /// # Errors
    ///
    /// `AllocError` in place of `Yes`, where the span's log could not grow, or memory was refused
    /// for a page that had only zeros until now. The shard is then as it was. A log that is only
    /// counted takes no memory until 2^63 changes.
    pub fn set(&mut self, key: &Key, words: &[u128]) -> Result<Replaced, AllocError>
        ensures step { IfOk result (λ answer. Sets self.old key.now words.now answer self.new) }
        ensures found { IfOk result (λ answer. was_replaced answer
            ≡ plain.may_set (shown self.old) key.now words.now) }
        ensures plain { IfOk result (λ answer. shown self.new
            ≡ with_value_if (was_replaced answer) (shown self.old) key.now words.now) }
        ensures sound { IsSound self.new }
        ensures refused { OnErr result (plain.may_set (shown self.old) key.now words.now ≡ true) }
        ensures err { OnErr result (self.new ≡ self.old) }
    {
        let Some((index, place)) = self.find(key.span) else {
            return Ok(Replaced::NotHere);
        };
        self.set_at(index, place, key, words)
    }

    /// What [`Shard::set`] does, if the span of the key is the head of the group at the index
    /// ([`Shard::first_index`]): as [`Shard::free_first`] is beside [`Shard::free`].
    ///
    /// # Errors
    ///
    /// `AllocError` as from [`Shard::set`].
    #[inline(always)]
    pub fn set_first(
        &mut self,
        index: usize,
        key: &Key,
        words: &[u128],
    ) -> Result<Replaced, AllocError>
        requires { StandsAt self.old.groups key.now.span index 0 }
        ensures step { IfOk result (λ answer. Sets self.old key.now words.now answer self.new) }
        ensures here { IfOk result (λ answer. answer ≢ Replaced.NotHere) }
        ensures found { IfOk result (λ answer. was_replaced answer
            ≡ plain.may_set (shown self.old) key.now words.now) }
        ensures plain { IfOk result (λ answer. shown self.new
            ≡ with_value_if (was_replaced answer) (shown self.old) key.now words.now) }
        ensures sound { IsSound self.new }
        ensures refused { OnErr result (plain.may_set (shown self.old) key.now words.now ≡ true) }
        ensures err { OnErr result (self.new ≡ self.old) }
    {
        self.set_at(index, 0, key, words)
    }

    // Sets the key's object in its span, which stands at the place of the group at the index.
    #[inline(always)]
    fn set_at(
        &mut self,
        index: usize,
        place: usize,
        key: &Key,
        words: &[u128],
    ) -> Result<Replaced, AllocError>
        requires { StandsAt self.old.groups key.now.span index place }
        ensures step { IfOk result (λ answer. Sets self.old key.now words.now answer self.new) }
        ensures here { IfOk result (λ answer. answer ≢ Replaced.NotHere) }
        ensures found { IfOk result (λ answer. was_replaced answer
            ≡ plain.may_set (shown self.old) key.now words.now) }
        ensures plain { IfOk result (λ answer. shown self.new
            ≡ with_value_if (was_replaced answer) (shown self.old) key.now words.now) }
        ensures sound { IsSound self.new }
        ensures refused { OnErr result (plain.may_set (shown self.old) key.now words.now ≡ true) }
        ensures err { OnErr result (self.new ≡ self.old) }
    {
        let group = &mut self.groups[index];
        let at = group.span_at(place).changes();
        if !group.set(self.alloc, place, key.slot, key.generation, words)? {
            return Ok(Replaced::No(at));
        }
        Ok(Replaced::Yes(at))
    }
}
