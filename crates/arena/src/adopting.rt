// An adoption, after which others find the spans that came.
ghost use Rattle.std.specs.Prelude.{◌≡◌, ◌≢◌, ◌↔◌, ◌<◌, Err, IfOk, OnErr, OnOk, length, true};
ghost use Rattle.pool.specs.Calls.{Adopts, MeetsDouble, MeetsNothing, MeetsPlan};
ghost use Rattle.pool.specs.Shown.{shown, together};
ghost use Rattle.pool.specs.Sound.{IsSound};
ghost use Rattle.shard.specs.Shown.{shown as shown_by_shard};
ghost use Rattle.shard.specs.Sound.{IsSound as IsSoundShard};
ghost use Rattle.span.specs.declared.limits.TheConstants.{MOST_SHARDS};

use crate::arena::Arena;
use crate::gate::Gate;
use crate::hints::Place;
use pool::{AdoptError, Pool};
use shard::Shard;
use span::names::SpanId;
use span::spans::Log;

impl<G: Gate, L: Log> Arena<G, L> {
    /// Moves the group of lowest head that has a page from the pool to the shard of this number,
    /// as [`Pool::adopt`] does, and notes where its spans are. Both are lent.
    ///
    /// # Errors
    ///
    /// As those of [`Pool::adopt`].
    pub(crate) fn adopt_in(
        &self,
        pool: &mut Pool<L>,
        shard: &mut Shard<L>,
        number: u32,
    ) -> Result<SpanId, AdoptError>
        requires { number < MOST_SHARDS }
        ensures ok { IfOk result (λ head. Adopts pool.old shard.old head pool.new shard.new) }
        ensures kept { OnOk result (together (shown pool.new) (shown_by_shard shard.new)
            ≡ together (shown pool.old) (shown_by_shard shard.old)) }
        ensures spent { (result ≡ Err AdoptError.PagesSpent)
            ↔ (shard.old.page_limit ≡ length shard.old.groups) }
        ensures ended { (result ≡ Err AdoptError.Ended)
            ↔ ((shard.old.page_limit ≢ length shard.old.groups) × (shard.old.ended ≡ true)) }
        ensures doubled { (result ≡ Err AdoptError.Doubled) ↔ MeetsDouble pool.old shard.old }
        ensures plan_open { (result ≡ Err AdoptError.PlanOpen) ↔ MeetsPlan pool.old shard.old }
        ensures nothing { (result ≡ Err AdoptError.NothingToAdopt)
            ↔ MeetsNothing pool.old shard.old }
        ensures err { OnErr result ((pool.new ≡ pool.old) × (shard.new ≡ shard.old)) }
        ensures sound { IsSound pool.new × IsSoundShard shard.new }
    {
        let adopted = pool.adopt(shard);
        if let Ok(head) = adopted {
            self.hints.note_group(shard, head, Place::Shard(number));
        }
        adopted
    }
}
