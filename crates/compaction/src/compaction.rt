// A compaction of a core, in steps.
ghost use Rattle.std.specs.Prelude.{◌≡◌, ◌+◌, ◌<◌, ◌≤◌, None, OnErr, max, not, true};
ghost use Rattle.arena_core.specs.declared.event.Event.TheVariants as event;
ghost use Rattle.arena_core.specs.Sound.{IsSound};
ghost use Rattle.arena_core.specs.State.{pages, shown};
ghost use Rattle.compaction.specs.Compacts.{ClosesOwn, CompactsIfPays, IsIdle, IsWithin, Leaves, Takes, going, is_poor, noted};
ghost use Rattle.compaction.specs.Progress.{IsThrough, fresh};
ghost use Rattle.compaction.specs.Told.{standing_of};

use crate::advanced::{Advanced, advanced_by};
use crate::compacted::{Compacted, Standing};
use crate::late_work::LateWork;
use crate::progress::{Phase, Progress};
use crate::work::Stage;
use arena_core::{Core, Event, Refusal, Reply};
use certificate::Certificate;
use span::spans::Counted;
use std::alloc::AllocError;
use std::marker::Model;

/// A plan or a round that folds one of so many groups of its smaller side is worth another one.
const WORTH: usize = 16;

/// Where the compaction of a core stands between two calls.
#[derive(Drop)]
pub struct Compaction {
    progress: Progress,
    // What comes next where the progress leaves a choice, from the first mark on.
    work: LateWork,
}

impl Model for Compaction {
    ghost use Rattle.compaction.specs.declared.progress.Progress.{Progress};

    ghost Value = { Progress };

    ghost view = { λ compaction. compaction.progress };
}

/// What one step took of the budget, and what it did.
#[derive(Clone, Copy)]
pub struct Taken {
    /// How much of the budget: as much as a retirement may retire, and 1 for any other step.
    pub cost: usize,
    /// What it did.
    pub advanced: Advanced,
}

impl Compaction {
    /// A compaction that has not begun.
    pub fn new() -> Compaction
        ensures { result ≡ fresh }
    {
        Compaction {
            progress: Progress::fresh(),
            work: LateWork::new(),
        }
    }

    // Has a further call begin anew, which knows what was found.
    fn restart(&mut self)
        ensures { self.new ≡ fresh }
    {
        self.progress = Progress::fresh();
        self.work.restart();
    }

    /// Takes steps of the compaction up to the budget, at least one. A retirement of some groups
    /// takes as much of it as the groups are, each other step takes one. A round that begins is one
    /// whose plans compare at most 4,096 times so many pairs of groups as the budget is, of which
    /// less than 64 counts as 64.
    ///
    /// All keys are what they were, whatever is answered. Each call of one compaction is to be
    /// given the same core: with another one, the map of that stays as well, but its rounds are
    /// those of nobody.
    pub fn go_on(&mut self, core: &mut Core<Counted>, budget: usize) -> Compacted
        ensures steps { IsWithin (max budget 1) result.standing
            (going self.old core.old) (going self.new core.new) }
        ensures same { shown core.new ≡ shown core.old }
        ensures pages { pages core.new + result.pages ≡ pages core.old }
        ensures stands { Leaves result.standing core.new }
        ensures sound { IsSound core.new }
    {
        let before = core.totals().pages;
        let standing = self.take_steps(core, budget.max(1));
        let after = core.totals().pages;
        Compacted {
            pages: before - after,
            standing,
        }
    }

    /// Compacts until it is done, if at least so many percent of the pages could go, and else does
    /// nothing: so it may be asked as often as one likes. A compaction that is under way goes on.
    ///
    /// How many could go is known from counts alone: the pages without those that the live keys
    /// would need if these were full, and without as many as the last compaction has left that
    /// could have gone by this count. A page counts as one of 256 slots until a mark has seen some.
    /// The counts are those of [`Core::estimate`], which looks at 4,096 groups at most: so to pass
    /// over takes no longer if there are more pages.
    pub fn go_on_if_pays(&mut self, core: &mut Core<Counted>, least_percent: usize) -> Compacted
        ensures either { CompactsIfPays result (going self.old core.old) (going self.new core.new) }
        ensures same { shown core.new ≡ shown core.old }
        ensures pages { pages core.new + result.pages ≡ pages core.old }
        ensures stands { Leaves result.standing core.new }
        ensures sound { IsSound core.new }
    {
        if self.is_passed_over(core, least_percent) {
            return Compacted {
                pages: 0,
                standing: Standing::Done,
            };
        }
        self.go_on(core, usize::MAX)
    }

    // Whether too few pages could go for a compaction to begin. A plan is for the compaction, which
    // it refuses.
    fn is_passed_over(&self, core: &Core<Counted>, least_percent: usize) -> bool
        ensures idle { result ≡ true → IsIdle self.now core.now }
        ensures sound { IsSound core.now }
    {
        let has_plan = core.has_plan();
        let is_begun = !matches!(self.progress.phase, Phase::Fresh);
        let pays = self.work.pays(core.estimate(), least_percent);
        !has_plan && !is_begun && !pays
    }

    // Takes steps up to the budget.
    fn take_steps(&mut self, core: &mut Core<Counted>, budget: usize) -> Standing
        requires { 0 < budget }
        ensures steps { IsWithin budget result
            (going self.old core.old) (going self.new core.new) }
        ensures same { shown core.new ≡ shown core.old }
        ensures stands { Leaves result core.new }
        ensures sound { IsSound core.new }
    {
        let mut left = budget;
        while left > 0 {
            let taken = self.advance(core, left, budget);
            left -= taken.cost;
            match taken.advanced.ended() {
                Some(standing) => return standing,
                None => {}
            }
        }
        Standing::GoesOn
    }

    /// Takes the next step, which takes no more than is left of the budget, or 1. A caller that
    /// keeps something beside each page takes the steps of a call one by one, and follows each.
    /// The whole budget bounds the rounds as that of [`Compaction::go_on`] does.
    pub fn step(&mut self, core: &mut Core<Counted>, left: usize, budget: usize) -> Taken
        ensures some { 0 < result.cost }
        ensures at_most { result.cost ≤ max left 1 }
        ensures takes { Takes result.cost result.advanced
            (going self.old core.old) (going self.new core.new) }
        ensures same { shown core.new ≡ shown core.old }
        ensures stands { Leaves (standing_of result.advanced) core.new }
        ensures sound { IsSound core.new }
    {
        self.advance(core, left.max(1), budget)
    }

    // Takes the next step, which takes no more than is left of the budget.
    fn advance(&mut self, core: &mut Core<Counted>, left: usize, budget: usize) -> Taken
        requires { 0 < left }
        ensures some { 0 < result.cost }
        ensures at_most { result.cost ≤ left }
        ensures takes { Takes result.cost result.advanced
            (going self.old core.old) (going self.new core.new) }
        ensures same { shown core.new ≡ shown core.old }
        ensures stands { Leaves (standing_of result.advanced) core.new }
        ensures sound { IsSound core.new }
    {
        let is_choosing = matches!(self.progress.phase, Phase::Choosing);
        if is_choosing && matches!(self.work.stage(), Stage::Retire) {
            return self.retire(core, left);
        }
        Taken {
            cost: 1,
            advanced: self.take_one(core, budget),
        }
    }

    // Takes the next step, which is no retirement.
    fn take_one(&mut self, core: &mut Core<Counted>, budget: usize) -> Advanced
        ensures takes { Takes 1 result (going self.old core.old) (going self.new core.new) }
        ensures same { shown core.new ≡ shown core.old }
        ensures stands { Leaves (standing_of result) core.new }
        ensures sound { IsSound core.new }
    {
        match self.progress.phase {
            Phase::Fresh => self.begin(core),
            Phase::Trimming => self.trim(core),
            Phase::Choosing => self.take_chosen(core, budget),
            Phase::Folding => self.fold(core),
            Phase::Closing => self.close(core),
        }
    }

    // Takes the step that the stage says. All is done, unless the last mark planned so much that
    // another one is worth it.
    fn take_chosen(&mut self, core: &mut Core<Counted>, budget: usize) -> Advanced
        requires { self.old.phase ≡ Phase.Choosing }
        ensures takes { Takes 1 result (going self.old core.old) (going self.new core.new) }
        ensures same { shown core.new ≡ shown core.old }
        ensures stands { Leaves (standing_of result) core.new }
        ensures sound { IsSound core.new }
    {
        match self.work.stage() {
            Stage::Keep | Stage::Adopt => self.adopt(core, budget),
            Stage::End if self.progress.is_spent => self.end(core),
            // A retirement is no such step.
            Stage::Mark | Stage::End | Stage::Retire => self.mark(core),
        }
    }

    // Forgets, which is refused while a plan is open.
    fn begin(&mut self, core: &mut Core<Counted>) -> Advanced
        requires { self.old.phase ≡ Phase.Fresh }
        ensures takes { Takes 1 result (going self.old core.old) (going self.new core.new) }
        ensures same { shown core.new ≡ shown core.old }
        ensures stands { Leaves (standing_of result) core.new }
        ensures sound { IsSound core.new }
    {
        let done = core.forget();
        if let Err(refusal) = done {
            return Advanced::Refused(refusal);
        }
        self.progress = Progress::begun();
        Advanced::Went
    }

    // Trims the next shard. Once there is none, what is in the pool is marked.
    fn trim(&mut self, core: &mut Core<Counted>) -> Advanced
        requires { self.old.phase ≡ Phase.Trimming }
        ensures takes { Takes 1 result (going self.old core.old) (going self.new core.new) }
        ensures same { shown core.new ≡ shown core.old }
        ensures stands { Leaves (standing_of result) core.new }
        ensures sound { IsSound core.new }
    {
        let shard = self.progress.trimmed;
        match core.trim(shard) {
            Ok(_) => self.progress.trimmed = shard + 1,
            Err(_) => self.progress.phase = Phase::Choosing,
        }
        Advanced::Went
    }

    // Plans as many folds as can be of the sparsest groups of the pool and of the shards.
    fn mark(&mut self, core: &mut Core<Counted>) -> Advanced
        requires { self.old.phase ≡ Phase.Choosing }
        ensures takes { Takes 1 result (going self.old core.old) (going self.new core.new) }
        ensures same { shown core.new ≡ shown core.old }
        ensures stands { Leaves (standing_of result) core.new }
        ensures sound { IsSound core.new }
    {
        let made = self.make_work(core);
        if let Err(_) = made {
            return Advanced::Refused(Refusal::OutOfMemory);
        }
        let reply = core.step(Event::MarkSome);
        self.note_marked(&reply);
        advanced_by(&reply)
    }

    // Makes the room for what a first mark is noted in. If a plan is open, that refuses the mark.
    fn make_work(&mut self, core: &Core<Counted>) -> Result<(), AllocError>
        ensures same { self.new ≡ self.old }
        ensures no_plan { OnErr result (core.now.plan ≡ None) }
        ensures sound { IsSound core.now }
    {
        let is_planned = core.has_plan();
        if self.work.is_made() || is_planned {
            return Ok(());
        }
        self.work.make(core.alloc())?;
        Ok(())
    }

    // Notes what the mark planned, of which side, and what the pages are.
    fn note_marked(&mut self, reply: &Reply)
        ensures { self.new ≡ noted event.MarkSome reply.now self.old }
    {
        let Reply::Marked(certificate) = reply else {
            return;
        };
        let is_worth = is_worth(certificate);
        self.progress.phase = Phase::Folding;
        self.progress.is_spent = !is_worth;
        self.work.note_mark(is_worth, certificate);
    }

    // Folds the next pair of the plan, if one is left.
    fn fold(&mut self, core: &mut Core<Counted>) -> Advanced
        requires { self.old.phase ≡ Phase.Folding }
        ensures takes { Takes 1 result (going self.old core.old) (going self.new core.new) }
        ensures same { shown core.new ≡ shown core.old }
        ensures stands { Leaves (standing_of result) core.new }
        ensures sound { IsSound core.new }
    {
        let reply = core.step(Event::Step);
        self.note_folded(&reply);
        advanced_by(&reply)
    }

    // Notes whether a pair was left.
    fn note_folded(&mut self, reply: &Reply)
        ensures { self.new ≡ noted event.Step reply.now self.old }
    {
        match reply {
            Reply::NoPairLeft => self.progress.phase = Phase::Closing,
            // Somebody else has closed it.
            Reply::NoPlan => self.progress.phase = Phase::Choosing,
            _ => {}
        }
    }

    // Closes the plan.
    fn close(&mut self, core: &mut Core<Counted>) -> Advanced
        requires { self.old.phase ≡ Phase.Closing }
        ensures takes { Takes 1 result (going self.old core.old) (going self.new core.new) }
        ensures same { shown core.new ≡ shown core.old }
        ensures stands { Leaves (standing_of result) core.new }
        ensures sound { IsSound core.new }
    {
        let reply = core.step(Event::Close);
        self.progress.phase = Phase::Choosing;
        advanced_by(&reply)
    }

    // Has the next shard retire its part of what is wanted, so far as it has that and the budget
    // goes.
    fn retire(&mut self, core: &mut Core<Counted>, left: usize) -> Taken
        requires some { 0 < left }
        requires choosing { self.old.phase ≡ Phase.Choosing }
        ensures some { 0 < result.cost }
        ensures at_most { result.cost ≤ left }
        ensures takes { Takes result.cost result.advanced
            (going self.old core.old) (going self.new core.new) }
        ensures same { shown core.new ≡ shown core.old }
        ensures stands { Leaves (standing_of result.advanced) core.new }
        ensures sound { IsSound core.new }
    {
        let shard = self.work.shard();
        let share = self.work.share(self.progress.trimmed);
        let most = share.min(left).max(1);
        let reply = core.step(Event::Retire { shard, most });
        self.note_retired(&reply, share, most);
        Taken {
            cost: most,
            advanced: advanced_by(&reply),
        }
    }

    // Notes how many groups the shard retired of those that it was asked for. One that has ended
    // has none.
    fn note_retired(&mut self, reply: &Reply, share: usize, most: usize)
        ensures { self.new ≡ self.old }
    {
        self.work
            .note_retirement(reply, self.progress.trimmed, share, most);
    }

    // Has a shard adopt the next group of the pool, until enough are kept, or there is none, or no
    // shard may have one.
    fn adopt(&mut self, core: &mut Core<Counted>, budget: usize) -> Advanced
        requires { self.old.phase ≡ Phase.Choosing }
        ensures takes { Takes 1 result (going self.old core.old) (going self.new core.new) }
        ensures same { shown core.new ≡ shown core.old }
        ensures stands { Leaves (standing_of result) core.new }
        ensures sound { IsSound core.new }
    {
        let shard = self.work.shard();
        let reply = core.step(Event::Adopt { shard });
        self.after_adoption(&reply, core, budget);
        advanced_by(&reply)
    }

    // Notes the adoption, and goes on if it was the last one.
    fn after_adoption(&mut self, reply: &Reply, core: &Core<Counted>, budget: usize)
        ensures { self.new ≡ self.old }
    {
        self.work
            .note_adoption(reply, self.progress.trimmed, core, budget);
    }

    // Forgets once more, and then all is done.
    fn end(&mut self, core: &mut Core<Counted>) -> Advanced
        requires { IsThrough self.old }
        ensures takes { Takes 1 result (going self.old core.old) (going self.new core.new) }
        ensures same { shown core.new ≡ shown core.old }
        ensures stands { Leaves (standing_of result) core.new }
        ensures sound { IsSound core.new }
    {
        if let Err(refusal) = core.forget() {
            return Advanced::Refused(refusal);
        }
        self.restart();
        Advanced::Done
    }

    /// Gives the compaction up where it is: a plan of it is closed, and a further call begins anew.
    /// Groups that it has retired stay in the pool.
    pub fn give_up(&mut self, core: &mut Core<Counted>)
        ensures anew { self.new ≡ fresh }
        ensures closes { ClosesOwn self.old core.old core.new }
        ensures same { shown core.new ≡ shown core.old }
    {
        let is_planned = self.progress.is_planned();
        self.restart();
        if is_planned {
            core.step(Event::Close);
        }
    }
}

// Whether so many folds were planned that another mark is worth it: one of 16 groups of the smaller
// side.
fn is_worth(certificate: &Certificate) -> bool
    ensures { result ≡ not (is_poor certificate.now) }
{
    let snapshot = &certificate.snapshot;
    let smaller = snapshot.abandoned().len().min(snapshot.owned().len());
    let folds = certificate.plan.pairs().len();
    folds > 0 && folds.saturating_mul(WORTH) >= smaller
}
