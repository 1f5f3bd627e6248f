// The end of a shard and its beginning again, retirements, and the adoption of a group.
ghost use Rattle.std.specs.Prelude.{◌≡◌};
ghost use Rattle.arena_core.specs.Calls.{CoreCall};
ghost use Rattle.arena_core.specs.Filled.{CannotReach};
ghost use Rattle.arena_core.specs.Made.{IsUnused};
ghost use Rattle.arena_core.specs.Sound.{IsSound};
ghost use Rattle.arena_core.specs.State.{shown};
ghost use Rattle.arena_core.specs.Step.{CoreStep};
ghost use Rattle.arena_core.specs.TrimsPart.{TrimsOrCannot};
ghost use Rattle.arena_core.specs.declared.event.Event.TheVariants as event;
ghost use Rattle.arena_core.specs.declared.reply.Reply.TheVariants as reply;

use super::Core;
use super::making::reach;
use super::plans::spans_to_come;
use crate::reply::{Refusal, adopt_refusal, end_refusal};
use shard::TrimPart;
use span::names::SpanId;
use span::spans::Log;

impl<L: Log> Core<L> {
    // Ends the shard of this number: its groups go to the pool.
    pub(super) fn end(&mut self, number: u32) -> Result<(), Refusal>
        ensures exact { CoreCall self.old (event.End number)
            (λ _. reply.ShardEnded) result self.new }
        ensures same { shown self.new ≡ shown self.old }
        ensures sound { IsSound self.new }
    {
        reach(self.alloc, &self.limits, number, &mut self.shards)?;
        let shard = &mut self.shards[number as usize];
        match self.pool.receive(shard) {
            Ok(()) => {}
            Err(error) => return Err(end_refusal(error)),
        }
        Ok(())
    }

    /// Lets the shard of this number, which has ended, run again, for a new thread: it takes puts
    /// and groups as before. The spans that it opens have serials that go on from where they stood,
    /// so no key is issued twice; what stood in it stays where it is, under its keys. It takes no
    /// memory.
    ///
    /// What [`Core::step`] does with [`Event::Begin`], without a reply to take apart. It is refused
    /// by [`Refusal::Running`] exactly where the shard has not ended, and by [`Refusal::Config`]
    /// exactly where there is no such shard.
    pub fn begin(&mut self, number: u32) -> Result<(), Refusal>
        ensures exact { CoreCall self.old (event.Begin number)
            (λ _. reply.ShardBegun) result self.new }
        ensures same { shown self.new ≡ shown self.old }
        ensures sound { IsSound self.new }
    {
        let Some(shard) = self.shards.get_mut(number as usize) else {
            return Err(self.no_begin(number));
        };
        if !shard.begin() {
            return Err(Refusal::Running);
        }
        Ok(())
    }

    // Why a shard that is not made cannot begin again.
    fn no_begin(&self, number: u32) -> Refusal
        requires { IsUnused self.now number }
        ensures { CoreStep self.now (event.Begin number) (reply.Refused result) self.now }
    {
        let count = self.limits.shards();
        if number >= count {
            return Refusal::Config;
        }
        Refusal::Running
    }

    /// Moves up to `most` groups of the shard of this number to the pool, with their pages, and
    /// lets the shard go on. It answers how many went: `most`, or all that have a live key. Those
    /// with the fewest live keys go first; of several, the one of lowest head. Groups with no live
    /// key stay with the shard, whose free pages they are.
    ///
    /// What [`Core::step`] does with [`Event::Retire`], without a reply to take apart. It is
    /// refused as that is: by [`Refusal::Config`] where there is no such shard, by
    /// [`Refusal::Ended`] where it has ended, by [`Refusal::PlanOpen`] where one of its groups is
    /// closed, and by [`Refusal::OutOfMemory`] only where none of these holds.
    pub fn retire(&mut self, number: u32, most: usize) -> Result<usize, Refusal>
        ensures exact { CoreCall self.old (event.Retire number most) reply.Retired result self.new }
        ensures same { shown self.new ≡ shown self.old }
        ensures sound { IsSound self.new }
    {
        let Some(shard) = self.shards.get_mut(number as usize) else {
            return self.retire_none(number, most);
        };
        let count = match self.pool.retire(shard, most) {
            Ok(count) => count,
            Err(error) => return Err(end_refusal(error)),
        };
        Ok(count)
    }

    // A retirement of a shard that is not made, and so has no group.
    fn retire_none(&self, number: u32, most: usize) -> Result<usize, Refusal>
        requires { IsUnused self.now number }
        ensures { CoreCall self.now (event.Retire number most) reply.Retired result self.now }
    {
        let count = self.limits.shards();
        if number >= count {
            return Err(Refusal::Config);
        }
        Ok(0)
    }

    /// Gives back the page of each open group of the shard of this number in which no slot is live,
    /// and answers how many went. The groups stay: a later put into one of them opens a page for
    /// it. It takes no memory.
    ///
    /// What [`Core::step`] does with [`Event::Trim`], without a reply to take apart. It is refused
    /// by [`Refusal::Config`] exactly where there is no such shard.
    pub fn trim(&mut self, number: u32) -> Result<usize, Refusal>
        ensures exact { CoreCall self.old (event.Trim number) reply.Trimmed result self.new }
        ensures same { shown self.new ≡ shown self.old }
        ensures sound { IsSound self.new }
    {
        let Some(shard) = self.shards.get_mut(number as usize) else {
            return self.trim_none(number);
        };
        Ok(shard.trim())
    }

    /// What [`Core::trim`] does, but of up to `most` groups of the shard alone, from its group
    /// `from` on: there are fewer than `most` only if no more follow. A part takes as long as its
    /// groups do, however many the shard has. It is no event.
    ///
    /// It is refused by [`Refusal::Config`] exactly if there is no such shard.
    pub fn trim_some(&mut self, number: u32, from: usize, most: usize) -> Result<TrimPart, Refusal>
        ensures exact { TrimsOrCannot number from most self.old result self.new }
        ensures same { shown self.new ≡ shown self.old }
        ensures sound { IsSound self.new }
    {
        let Some(shard) = self.shards.get_mut(number as usize) else {
            return self.trim_no_part(number, from, most);
        };
        Ok(shard.trim_some(from, most))
    }

    // The same of a shard that is not made, and so has no group.
    fn trim_no_part(&self, number: u32, from: usize, most: usize) -> Result<TrimPart, Refusal>
        requires { IsUnused self.now number }
        ensures { TrimsOrCannot number from most self.now result self.now }
    {
        // For the prover: from where on, and how many.
        let _ = (from, most);
        let count = self.limits.shards();
        if number >= count {
            return Err(Refusal::Config);
        }
        Ok(TrimPart {
            groups: 0,
            pages: 0,
        })
    }

    // A trim of a shard that is not made, and so has no page.
    fn trim_none(&self, number: u32) -> Result<usize, Refusal>
        requires { IsUnused self.now number }
        ensures { CoreCall self.now (event.Trim number) reply.Trimmed result self.now }
    {
        let count = self.limits.shards();
        if number >= count {
            return Err(Refusal::Config);
        }
        Ok(0)
    }

    // Why no group is adopted by a shard that cannot be made, for this cause.
    fn no_adopter(&self, number: u32, cause: Refusal) -> Refusal
        requires unused { IsUnused self.now number }
        requires cause { CannotReach cause self.now.limits.shards number number }
        ensures { CoreStep self.now (event.Adopt number) (reply.Refused result) self.now }
    {
        if self.plan.is_open() {
            return Refusal::PlanOpen;
        }
        if self.pool.pages() == 0 {
            return Refusal::NothingToAdopt;
        }
        cause
    }

    // Moves the pool's group of lowest head that has a page to the shard of this number, and notes
    // that its spans are there. The room for the notes is made before anything changes.
    pub(super) fn adopt(&mut self, number: u32) -> Result<SpanId, Refusal>
        ensures exact { CoreCall self.old (event.Adopt number) reply.Adopted result self.new }
        ensures same { shown self.new ≡ shown self.old }
        ensures sound { IsSound self.new }
    {
        match reach(self.alloc, &self.limits, number, &mut self.shards) {
            Ok(()) => {}
            Err(cause) => return Err(self.no_adopter(number, cause)),
        }
        let shard = &mut self.shards[number as usize];
        let coming = match self.pool.adoptable(shard) {
            Ok(head) => head,
            Err(error) => return Err(adopt_refusal(error)),
        };
        self.whereabouts.reserve(spans_to_come(&self.pool, coming))?;
        let head = match self.pool.adopt(shard) {
            Ok(head) => head,
            Err(error) => return Err(adopt_refusal(error)),
        };
        self.whereabouts.note(number as u8, shard, head, 0);
        Ok(head)
    }
}
