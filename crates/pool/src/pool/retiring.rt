// Groups of a running shard that go to the pool.
ghost use Rattle.std.specs.Prelude.{◌≡◌, ◌↔◌, ◌≤◌, List, ◌∷◌, Err, IfOk, IsOkUnless, OnErr, OnOk, false, length, true};
ghost use Rattle.std.specs.List.{list_any};
ghost use Rattle.shard.specs.Leaving.{swept};
ghost use Rattle.shard.specs.Shown.{shown as shown_by_shard};
ghost use Rattle.shard.specs.Sound.{IsSound as IsSoundShard};
ghost use Rattle.shard.specs.Sparse.{AreSparsestFirst};
ghost use Rattle.shard.specs.declared.shard.retiring.LiveGroup.{LiveGroup};
ghost use Rattle.span.specs.declared.limits.TheConstants.{ALL_IDS};
ghost use Rattle.pool.specs.Calls.{HasClosed, IsInPool};
ghost use Rattle.pool.specs.Handover.{AreReady, StayReady, span_count};
ghost use Rattle.pool.specs.Retires.{HasRetired, MovesSparse, MovesSparsest, Retires};
ghost use Rattle.pool.specs.Shown.{shown, together};
ghost use Rattle.pool.specs.Sound.{IsSound};

use super::Pool;
use crate::error::ReceiveError;
use shard::{LiveGroup, Shard};
use span::spans::Log;

impl<L: Log> Pool<L> {
    /// Up to `most` groups of the shard come here whole, and the shard goes on: those with the
    /// fewest live keys, of those that have one at least; of several, the one of lowest head. It
    /// answers how many came, which is `most`, or all that have a live key.
    ///
    /// # Errors
    ///
    /// Those of [`Pool::receive`], for the same causes, in the same order. Each allocation comes
    /// before the first change: for a list of the groups with a live key, and for as many groups as
    /// go.
    pub fn retire(&mut self, shard: &mut Shard<L>, most: usize) -> Result<usize, ReceiveError>
        // What it does.
        ensures ok { IfOk result
            (λ count. Retires self.old shard.old most count self.new shard.new) }
        ensures whole { IfOk result
            (λ count. HasRetired self.old shard.old count self.new shard.new) }
        ensures kept { OnOk result (together (shown self.new) (shown_by_shard shard.new)
            ≡ together (shown self.old) (shown_by_shard shard.old)) }

        // Each refusal, and what it leaves.
        ensures ended { (result ≡ Err ReceiveError.Ended) ↔ (shard.old.ended ≡ true) }
        ensures doubled { (result ≡ Err ReceiveError.Doubled)
            ↔ ((shard.old.ended ≡ false) × IsInPool self.old shard.old) }
        ensures plan_open { (result ≡ Err ReceiveError.PlanOpen) ↔ ((shard.old.ended ≡ false)
            × (IsInPool self.old shard.old → ⊥) × HasClosed shard.old.groups) }
        ensures err { OnErr result (self.new ≡ self.old) }
        ensures err_shard { OnErr result (shard.new ≡ shard.old) }

        // Both are sound afterwards.
        ensures sound { IsSound self.new }
        ensures sound_shard { IsSoundShard shard.new }
    {
        let doubled = self.has_one_of(shard);
        if shard.ended() {
            return Err(ReceiveError::Ended);
        }
        if doubled {
            return Err(ReceiveError::Doubled);
        }
        if shard.has_closed() {
            return Err(ReceiveError::PlanOpen);
        }
        self.retire_some(shard, most)
    }

    // Makes room for the sparsest groups, as many as are to go, and takes them in.
    fn retire_some(&mut self, shard: &mut Shard<L>, most: usize) -> Result<usize, ReceiveError>
        // No cause of a refusal holds but memory.
        requires running { shard.old.ended ≡ false }
        requires apart { IsInPool self.old shard.old → ⊥ }
        requires open { list_any (λ group. group.closed) shard.old.groups ≡ false }
        requires sound { IsSound self.old }
        requires sound_shard { IsSoundShard shard.old }

        // What it does.
        ensures ok { IfOk result
            (λ count. Retires self.old shard.old most count self.new shard.new) }
        ensures whole { IfOk result
            (λ count. HasRetired self.old shard.old count self.new shard.new) }
        ensures kept { OnOk result (together (shown self.new) (shown_by_shard shard.new)
            ≡ together (shown self.old) (shown_by_shard shard.old)) }

        // What a refusal leaves.
        ensures only { IsOkUnless result ReceiveError.OutOfMemory }
        ensures err { OnErr result (self.new ≡ self.old) }
        ensures err_shard { OnErr result (shard.new ≡ shard.old) }

        // Both are sound afterwards.
        ensures sound { IsSound self.new }
        ensures sound_shard { IsSoundShard shard.new }
    {
        let going = shard.sparsest(most)?;
        self.reserve(going.len(), span_count(going.as_slice()))?;
        self.move_going(shard, going.as_slice());
        Ok(going.len())
    }

    // Takes in the groups that are told of, in reserved room. If they are many, their places in the
    // shard go in one walk, when all have left. Few cost less if each place goes at once, since no
    // other group is looked at then.
    fn move_going(&mut self, shard: &mut Shard<L>, going: &[LiveGroup])
        requires ready { (rest : List LiveGroup) × AreReady self.old shard.old going.now rest }
        requires unclosed { list_any (λ group. group.closed) shard.old.groups ≡ false }

        // They came.
        ensures moved { MovesSparse (length going.now) self.old shard.old self.new shard.new }
        ensures whole { HasRetired self.old shard.old (length going.now) self.new shard.new }
        ensures left { (rest : List LiveGroup) → AreReady self.old shard.old going.now rest
            → AreSparsestFirst shard.new.groups rest }
        ensures kept { together (shown self.new) (shown_by_shard shard.new)
            ≡ together (shown self.old) (shown_by_shard shard.old) }

        ensures sound { IsSound self.new }
        ensures sound_shard { IsSoundShard shard.new }
    {
        if going.len() <= FEW {
            self.take_each(shard, going);
            return;
        }
        self.take_going(shard, going);
        shard.sweep();
    }

    // Takes in the groups that are told of, one after another, in reserved room. The place of each
    // in the shard goes.
    fn take_each(&mut self, shard: &mut Shard<L>, going: &[LiveGroup])
        requires ready { (rest : List LiveGroup) × AreReady self.old shard.old going.now rest }

        // They came.
        ensures moved { MovesSparse (length going.now) self.old shard.old self.new shard.new }
        ensures whole { HasRetired self.old shard.old (length going.now) self.new shard.new }
        ensures left { (rest : List LiveGroup) → AreReady self.old shard.old going.now rest
            → AreSparsestFirst shard.new.groups rest }
        ensures kept { together (shown self.new) (shown_by_shard shard.new)
            ≡ together (shown self.old) (shown_by_shard shard.old) }

        ensures sound { IsSound self.new }
        ensures sound_shard { IsSoundShard shard.new }
    {
        for one in going {
            self.take_alone(shard, one);
        }
    }

    // Takes in the group that is told of, in reserved room, and its place in the shard goes.
    fn take_alone(&mut self, shard: &mut Shard<L>, one: &LiveGroup)
        requires { (more rest : List LiveGroup)
            × AreReady self.old shard.old (one.now ∷ more) rest }

        // What it does.
        ensures moves { MovesSparsest self.old shard.old self.new shard.new }
        ensures kept { together (shown self.new) (shown_by_shard shard.new)
            ≡ together (shown self.old) (shown_by_shard shard.old) }
        ensures ready { StayReady one.now self.old shard.old self.new shard.new }
    {
        let Some(whole) = shard.lift(one.head) else {
            unreachable!();
        };
        self.take_in(whole);
    }

    // Takes in the groups that are told of, one after another, in reserved room. Their places in
    // the shard stay.
    fn take_going(&mut self, shard: &mut Shard<L>, going: &[LiveGroup])
        requires ready { (rest : List LiveGroup)
            × AreReady self.old (swept shard.old) going.now rest }

        // They came.
        ensures moved { MovesSparse (length going.now) self.old (swept shard.old) self.new
            (swept shard.new) }
        ensures whole { HasRetired self.old (swept shard.old) (length going.now) self.new
            (swept shard.new) }
        ensures left { (rest : List LiveGroup) → AreReady self.old (swept shard.old) going.now rest
            → AreSparsestFirst (swept shard.new).groups rest }
        ensures kept { together (shown self.new) (shown_by_shard (swept shard.new))
            ≡ together (shown self.old) (shown_by_shard (swept shard.old)) }

        ensures sound { IsSound self.new }
    {
        for one in going {
            self.take_one(shard, one);
        }
    }

    // Takes in the group that is told of, in reserved room. Its place in the shard stays.
    fn take_one(&mut self, shard: &mut Shard<L>, one: &LiveGroup)
        requires { (more rest : List LiveGroup)
            × AreReady self.old (swept shard.old) (one.now ∷ more) rest }

        // What it does.
        ensures moves { MovesSparsest self.old (swept shard.old) self.new (swept shard.new) }
        ensures kept { together (shown self.new) (shown_by_shard (swept shard.new))
            ≡ together (shown self.old) (shown_by_shard (swept shard.old)) }
        ensures ready { StayReady one.now self.old (swept shard.old) self.new (swept shard.new) }
    {
        let Some(whole) = shard.lift_aside(one.head) else {
            unreachable!();
        };
        self.take_in(whole);
    }
}

// How many groups leave one by one. Each moves a few bytes for each group of the shard. A walk
// reads all of them.
const FEW: usize = 64;

// How many spans the groups have together.
fn span_count(going: &[LiveGroup]) -> usize
    requires { span_count going.now ≤ ALL_IDS }
    ensures { result ≡ span_count going.now }
{
    let mut count = 0;
    for one in going {
        count += one.spans;
    }
    count
}
