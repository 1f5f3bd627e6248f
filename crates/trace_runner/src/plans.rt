//! What a run knows of plans: the open one, and how many marks there were.

ghost use Rattle.std.specs.Prelude.{◌≡◌, ◌+◌, ◌-◌, ◌<◌, ◌≤◌, ◌^◌, ◌∷◌, [], Bool, IfOk, length, replicate, None, Some, OnOk};
ghost use Rattle.arena_core.specs.declared.event.Event.TheVariants as event;
ghost use Rattle.arena_core.specs.declared.reply.Reply.TheVariants.{Marked};
ghost use Rattle.certificate.specs.Text.{IsWritable};
ghost use Rattle.trace_runner.specs.Made.{Calls, Called};
ghost use Rattle.trace_runner.specs.Kept.{KeepsButText, Kept, kept_none};
ghost use Rattle.trace_runner.specs.News.{mark_news, no_news, with_called};
ghost use Rattle.trace_runner.specs.Recalls.{Carries, KeepsShards, KnowsPlan, news_at, news_in};
ghost use Rattle.trace_runner.specs.Runs.{plan_end_asked, stepping};

use crate::replies::Replies;
use crate::report::{CloseNews, Heads, MarkNews, PlanNews, Steps, TakenStep};
use arena_core::{Core, Event, Refusal, Reply};
use certificate::{Certificate, partners, write};
use mesh_graph::Runner;
use span::spans::Counted;
use std::alloc::{AllocError, Global};
use std::mem;

/// What the report tells of the mark of that number, which planned this, with so many pages in use.
/// The runner fills the rows of the partners, by `pieces` if it goes by pieces. `AllocError` comes
/// if memory runs out.
pub fn mark_news<R: Runner>(
    runner: &R,
    alloc: Global,
    pieces: usize,
    mark: usize,
    certificate: Certificate,
    pages: usize,
) -> Result<MarkNews, AllocError>
    requires runner { R.ready runner.now }
    requires pieces { 1 ≤ pieces }
    ensures { IfOk result (λ news. news ≡ mark_news mark certificate pages) }
{
    let partners = partners(
        runner,
        alloc,
        &certificate.snapshot,
        &certificate.short,
        pieces,
    )?;
    let Certificate {
        snapshot,
        plan,
        short,
    } = certificate;
    Ok(MarkNews {
        mark,
        abandoned: snapshot.abandoned().len(),
        owned: snapshot.owned().len(),
        plan,
        short,
        partners: Heads::new(partners),
        pages,
    })
}

/// What a run knows of plans.
#[derive(Drop)]
pub(crate) struct Plans {
    alloc: Global,
    /// The marks so far.
    marks: usize,
    /// Where a plan is open, how many of its pairs are left.
    left: Option<usize>,
    /// The steps of the open plan so far.
    taken: Steps,
    /// The text of the certificate of the last mark that planned; empty where none did.
    certificate: Vec<u8>,
}

impl Plans {
    /// No mark yet.
    pub(crate) fn new(alloc: Global) -> Plans
        ensures news { (replies : Bool) → news_at (kept_none replies) result ≡ no_news replies }
        ensures left { result.left ≡ None }
    {
        Plans {
            alloc,
            marks: 0,
            left: None,
            taken: Steps::new(alloc),
            certificate: Vec::new(alloc),
        }
    }

    /// The text of the certificate of the last mark that planned; empty where none did.
    pub(crate) fn into_certificate(self) -> Vec<u8>
        ensures { result ≡ self.certificate }
    {
        self.certificate
    }

    /// Takes a step of the open plan while a pair is left, as after each thread's line.
    pub(crate) fn follow(&mut self, core: &mut Core<Counted>) -> Result<(), AllocError>
        requires knows { KnowsPlan self.old core.old }
        ensures made { (kept : Kept) → OnOk result (Carries (stepping core.old.plan) core.old
            (news_at kept self.old) core.new (news_at kept self.new)) }
        ensures knows { OnOk result (KnowsPlan self.new core.new) }
        ensures shards { KeepsShards core.old core.new }
        ensures marks { self.new.marks ≡ self.old.marks }
    {
        match self.left {
            Some(left) if left > 0 => self.step(core, left),
            _ => Ok(()),
        }
    }

    /// Ends the open plan, if there is one: takes the steps that are left, closes it, and tells so.
    pub(crate) fn end_open(
        &mut self,
        core: &mut Core<Counted>,
        replies: &mut Replies,
    ) -> Result<(), AllocError>
        requires knows { KnowsPlan self.old core.old }
        ensures made { OnOk result (Carries (plan_end_asked core.old.plan) core.old
            (news_in replies.old self.old) core.new (news_in replies.new self.new)) }
        ensures rest { KeepsButText replies.old replies.new }
        ensures ended { OnOk result (core.new.plan ≡ None) }
        ensures left { OnOk result (self.new.left ≡ None) }
        ensures shards { KeepsShards core.old core.new }
        ensures marks { self.new.marks ≡ self.old.marks }
    {
        let Some(left) = self.left else {
            return Ok(());
        };
        self.take_steps_left(core, left)?;
        self.close(core, replies)
    }

    /// Takes all the steps that are left.
    fn take_steps_left(&mut self, core: &mut Core<Counted>, left: usize) -> Result<(), AllocError>
        requires knows { KnowsPlan self.old core.old }
        requires left { self.old.left ≡ Some left }
        ensures made { (kept : Kept) → OnOk result (Carries (replicate left (Calls event.Step))
            core.old (news_at kept self.old) core.new (news_at kept self.new)) }
        ensures knows { OnOk result (KnowsPlan self.new core.new) }
        ensures none { OnOk result (self.new.left ≡ Some 0) }
        ensures shards { KeepsShards core.old core.new }
        ensures marks { self.new.marks ≡ self.old.marks }
    {
        for taken in 0..left {
            self.step(core, left - taken)?;
        }
        Ok(())
    }

    /// Takes the next step of the open plan, of which that many are left.
    fn step(&mut self, core: &mut Core<Counted>, left: usize) -> Result<(), AllocError>
        // The plan has a pair left.
        requires knows { KnowsPlan self.old core.old }
        requires left { self.old.left ≡ Some left }
        requires some { 0 < left }

        // The step is made, and what is kept of the plan goes on with it.
        ensures made { (kept : Kept) → OnOk result (Carries (Calls event.Step ∷ []) core.old
            (news_at kept self.old) core.new (news_at kept self.new)) }
        ensures knows { OnOk result (KnowsPlan self.new core.new) }
        ensures one_less { OnOk result (self.new.left ≡ Some (left - 1)) }
        ensures shards { KeepsShards core.old core.new }
        ensures marks { self.new.marks ≡ self.old.marks }
    {
        match core.step(Event::Step) {
            Reply::Stepped(abandoned, owned, outcome) => {
                self.left = Some(left - 1);
                self.taken.push(TakenStep {
                    abandoned,
                    owned,
                    outcome,
                })
            }
            Reply::Refused(Refusal::OutOfMemory) => Err(AllocError),
            _ => unreachable!(),
        }
    }

    /// Closes the open plan, of which no pair is left, and tells so.
    fn close(&mut self, core: &mut Core<Counted>, replies: &mut Replies) -> Result<(), AllocError>
        // A plan is open, and no pair of it is left.
        requires knows { KnowsPlan self.old core.old }
        requires left { self.old.left ≡ Some 0 }

        // The close is made and told.
        ensures made { OnOk result (Carries (Calls event.Close ∷ []) core.old
            (news_in replies.old self.old) core.new (news_in replies.new self.new)) }
        ensures rest { KeepsButText replies.old replies.new }

        // No plan is open then.
        ensures ended { core.new.plan ≡ None }
        ensures left { self.new.left ≡ None }
        ensures shards { KeepsShards core.old core.new }
        ensures marks { self.new.marks ≡ self.old.marks }
    {
        match core.step(Event::Close) {
            Reply::Closed => {
                self.left = None;
                let steps = mem::replace(&mut self.taken, Steps::new(self.alloc));
                let closed = CloseNews {
                    mark: self.marks,
                    steps,
                    pages: core.totals().pages,
                };
                replies.tell_news(&PlanNews::Closed(closed))
            }
            _ => unreachable!(),
        }
    }

    /// Marks: makes a plan, and opens it, unless a side has too many groups; and tells so. The
    /// runner fills the rows of the partners by `pieces` if it goes by pieces.
    pub(crate) fn mark<R: Runner>(
        &mut self,
        runner: &R,
        pieces: usize,
        core: &mut Core<Counted>,
        replies: &mut Replies,
    ) -> Result<(), AllocError>
        // No plan is open.
        requires unplanned { core.old.plan ≡ None }
        requires left { self.old.left ≡ None }
        requires few { self.old.marks + 1 < 2 ^ 64 }

        // The runner may fill rows.
        requires runner { R.ready runner.now }
        requires pieces { 1 ≤ pieces }

        // The mark is made and told.
        ensures made { OnOk result (Carries (Calls event.Mark ∷ []) core.old
            (news_in replies.old self.old) core.new (news_in replies.new self.new)) }
        ensures rest { KeepsButText replies.old replies.new }

        // What is kept of its plan.
        ensures knows { OnOk result (KnowsPlan self.new core.new) }
        ensures shards { KeepsShards core.old core.new }
        ensures marks { OnOk result (self.new.marks ≡ self.old.marks + 1) }
    {
        match core.step_by(runner, Event::Mark) {
            Reply::Marked(certificate) => {
                self.planned(runner, pieces, core, certificate, replies)
            }
            Reply::Refused(Refusal::TooMany) => {
                self.marks += 1;
                replies.tell_news(&PlanNews::TooMany(self.marks))
            }
            Reply::Refused(Refusal::OutOfMemory) => Err(AllocError),
            _ => unreachable!(),
        }
    }

    /// Keeps and tells what a mark has planned.
    fn planned<R: Runner>(
        &mut self,
        runner: &R,
        pieces: usize,
        core: &Core<Counted>,
        certificate: Certificate,
        replies: &mut Replies,
    ) -> Result<(), AllocError>
        requires runner { R.ready runner.now }
        requires pieces { 1 ≤ pieces }
        requires few { self.old.marks + 1 < 2 ^ 64 }
        requires writable { IsWritable certificate }
        ensures news { OnOk result (news_in replies.new self.new ≡ with_called
            (news_in replies.old self.old) (Called event.Mark (Marked certificate) core.now)) }
        ensures rest { KeepsButText replies.old replies.new }
        ensures left { OnOk result (self.new.left ≡ Some (length certificate.plan)) }
        ensures marks { OnOk result (self.new.marks ≡ self.old.marks + 1) }
    {
        self.marks += 1;
        self.left = Some(certificate.plan.pairs().len());
        self.certificate = write(self.alloc, &certificate)?;
        let pages = core.totals().pages;
        let marked = mark_news(runner, self.alloc, pieces, self.marks, certificate, pages)?;
        replies.tell_news(&PlanNews::Marked(marked))
    }
}
