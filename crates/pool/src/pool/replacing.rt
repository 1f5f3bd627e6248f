// Sets in place.
ghost use Rattle.std.specs.Prelude.{◌≡◌, IfOk, OnErr, true};
ghost use Rattle.span.specs.PlainMap as plain;
ghost use Rattle.shard.specs.Calls.{was_replaced};
ghost use Rattle.groups.specs.Shown.{with_value_if};
ghost use Rattle.pool.specs.Calls.{Sets};
ghost use Rattle.pool.specs.Shown.{shown};
ghost use Rattle.pool.specs.Sound.{IsSound};

use super::Pool;
use shard::Replaced;
use span::names::Key;
use span::spans::Log;
use std::alloc::AllocError;

impl<L: Log> Pool<L> {
    /// Sets the key's object to these words in place, where the key is live here and its object has
    /// as many. Its group keeps its page. A free of the key takes no memory afterwards, as before.
    ///
    /// # Errors
    ///
    /// `AllocError` in place of `Yes`, where the span's log could not grow, or memory was refused
    /// for a page that had only zeros until now. The pool is then as it was. A log that is only
    /// counted takes no memory until 2^63 changes.
    pub fn set(&mut self, key: &Key, words: &[u128]) -> Result<Replaced, AllocError>
        ensures step { IfOk result (λ answer. Sets self.old key.now words.now answer self.new) }
        ensures found { IfOk result (λ answer. was_replaced answer
            ≡ plain.may_set (shown self.old) key.now words.now) }
        ensures plain { IfOk result (λ answer. shown self.new
            ≡ with_value_if (was_replaced answer) (shown self.old) key.now words.now) }
        ensures sound { IsSound self.new }
        ensures refused { OnErr result (plain.may_set (shown self.old) key.now words.now ≡ true) }
        ensures err { OnErr result (self.new ≡ self.old) }
    {
        let Some(stock) = &mut self.stock else {
            return Ok(Replaced::NotHere);
        };
        stock.set(key, words)
    }
}
