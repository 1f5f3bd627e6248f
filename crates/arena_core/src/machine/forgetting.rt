// Spans that can never be live again, which the core forgets.
ghost use Rattle.std.specs.Prelude.{◌*◌, ◌≡◌, ◌≤◌, MatchResult, length, map};
ghost use Rattle.arena_core.specs.Forgets.{Forgets, dead_owned, without_dead_guests};
ghost use Rattle.arena_core.specs.Sound.{IsSound};
ghost use Rattle.arena_core.specs.State.{shown};
ghost use Rattle.arena_core.specs.Step.{HasPlan};
ghost use Rattle.span.specs.declared.limits.TheConstants.{ALL_IDS, MOST_SHARDS};

use super::Core;
use crate::reply::Refusal;
use shard::Shard;
use span::ghost_list::GhostList;
use span::spans::Counted;

impl Core<Counted> {
    /// Forgets the spans that can never be live again, with their generations, and answers how
    /// many: the guests of the shards' groups in which no slot is live, and of the pool such guests
    /// and all spans of groups in which no slot is live. A guest takes no put, and neither does
    /// what is in the pool, which no shard takes back where nothing of it is live: so each of their
    /// keys finds nothing, as before, and was given out once, as before. A shard's own group with
    /// nothing live stays, since it takes puts again, also where it has been trimmed. Nothing that
    /// a caller sees changes but the memory that is kept. It asks for memory only for a smaller
    /// table in the place of a larger one, which stays if there is none.
    ///
    /// It is no event, and is asked for: a sweep looks at each group and each guest. With kept logs
    /// there is none, since an audit reads all logs.
    ///
    /// It is refused with [`Refusal::PlanOpen`] exactly while a plan is open.
    pub fn forget(&mut self) -> Result<usize, Refusal>
        ensures exact { MatchResult result (λ count. Forgets self.old count self.new)
            (λ refusal. (refusal ≡ Refusal.PlanOpen) × HasPlan self.old × (self.new ≡ self.old)) }
        ensures same { shown self.new ≡ shown self.old }
        ensures sound { IsSound self.new }
    {
        if self.plan.is_open() {
            return Err(Refusal::PlanOpen);
        }
        self.forgotten = self
            .forgotten
            .appended(&GhostList::of(&self.shards, &self.pool));
        let owned = forget_guests(&mut self.shards);
        let pooled = self.pool.forget();
        self.whereabouts.forget(&self.shards);
        Ok(owned + pooled)
    }
}

// Has each shard forget its guests in which no slot is live.
fn forget_guests(shards: &mut Vec<Shard<Counted>>) -> usize
    requires { length shards.old.items ≤ MOST_SHARDS }
    ensures items { shards.new.items ≡ map without_dead_guests shards.old.items }
    ensures count { result ≡ length (dead_owned shards.old.items) }
    ensures at_most { result ≤ ALL_IDS * MOST_SHARDS }
{
    let mut count = 0;
    for index in 0..shards.len() {
        count += shards[index].forget();
    }
    count
}
