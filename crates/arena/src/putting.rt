// A put, by which others find its span once they are handed its key.
ghost use Rattle.std.specs.Prelude.{◌≡◌, ◌↔◌, Err, IfOk, OnErr, false, length, true};
ghost use Rattle.shard.specs.Calls.{IsSpent, Puts};
ghost use Rattle.shard.specs.Shown.{shown};
ghost use Rattle.shard.specs.Sound.{IsSound};
ghost use Rattle.shard.specs.declared.error.PutError.TheVariants as put_error;
ghost use Rattle.span.specs.Classes.{width_of};
ghost use Rattle.span.specs.PlainMap as plain;

use crate::arena::Arena;
use crate::gate::Gate;
use crate::hints::Announced;
use crate::lent_calls::Issued;
use shard::{PutError, Shard};
use span::names::Class;
use span::spans::Log;

impl<G: Gate, L: Log> Arena<G, L> {
    /// Puts the object of these words into a shard that is lent, as [`Shard::put_words`] does, and
    /// counts the span if that is new, before its key is handed out.
    ///
    /// # Errors
    ///
    /// As those of [`Shard::put_words`].
    #[inline(always)]
    pub(crate) fn put_in(
        &self,
        shard: &mut Shard<L>,
        class: Class,
        words: &[u128],
    ) -> Result<Issued, PutError>
        requires { length words.now ≡ width_of class }
        ensures ok { IfOk result (λ put. Puts shard.old class words.now put.0 put.1 shard.new) }
        ensures fresh { IfOk result (λ put. (shown shard.old).is_issued put.0 ≡ false) }
        ensures plain { IfOk result (λ put. shown shard.new
            ≡ plain.with_put (shown shard.old) put.0 words.now) }
        ensures sound { IsSound shard.new }
        ensures spent { (result ≡ Err put_error.PagesSpent)
            ↔ ((shard.old.ended ≡ false) × IsSpent class shard.old) }
        ensures ended { (result ≡ Err put_error.Ended) ↔ (shard.old.ended ≡ true) }
        ensures err { OnErr result (shard.new ≡ shard.old) }
    {
        match shard.put_words(class, words) {
            Ok((key, at)) => {
                let announced = if at == 0 {
                    self.hints.count_opened(key.span)
                } else {
                    Announced::before(key.span, at)
                };
                Ok(Issued::new(key, at, &announced))
            }
            Err(refused) => Err(refused),
        }
    }
}
