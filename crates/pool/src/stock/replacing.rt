// Sets in place.
ghost use Rattle.std.specs.Prelude.{◌≡◌, IfOk, OnErr, true};
ghost use Rattle.span.specs.PlainMap as plain;
ghost use Rattle.shard.specs.Calls.{was_replaced};
ghost use Rattle.groups.specs.Shown.{with_value_if};
ghost use Rattle.pool.specs.Calls.{Sets};
ghost use Rattle.pool.specs.Shown.{shown};
ghost use Rattle.pool.specs.Sound.{IsSound};

use super::Stock;
use shard::Replaced;
use span::names::Key;
use span::spans::Log;
use std::alloc::AllocError;

impl<L: Log> Stock<L> {
    /// Sets the key's object to these words in place, if the key is live here and its object has as
    /// many.
    ///
    /// # Errors
    ///
    /// `AllocError` in place of `Yes`, if the span's log could not grow, or memory was refused for
    /// a page that had only zeros until now. The groups are then as they were.
    pub(crate) fn set(&mut self, key: &Key, words: &[u128]) -> Result<Replaced, AllocError>
        ensures step { IfOk result (λ answer. Sets self.old key.now words.now answer self.new) }
        ensures found { IfOk result (λ answer. was_replaced answer
            ≡ plain.may_set (shown self.old) key.now words.now) }
        ensures plain { IfOk result (λ answer. shown self.new
            ≡ with_value_if (was_replaced answer) (shown self.old) key.now words.now) }
        ensures sound { IsSound self.new }
        ensures refused { OnErr result (plain.may_set (shown self.old) key.now words.now ≡ true) }
        ensures err { OnErr result (self.new ≡ self.old) }
    {
        let Some((group, place)) = self.find(key.span) else {
            return Ok(Replaced::NotHere);
        };
        let head = group.head_id();
        let span = group.span_at(place);
        let at = span.changes();
        if !self
            .groups
            .set(self.alloc, head, place, key.slot, key.generation, words)?
        {
            return Ok(Replaced::No(at));
        }
        Ok(Replaced::Yes(at))
    }
}
