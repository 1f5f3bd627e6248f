//! What a report says.

ghost use Rattle.std.specs.Prelude.{◌≡◌, ◌++◌, ◌∷◌, [], OnOk, OnErr};

use certificate::{Plan, Short};
use fold::Step;
use span::names::{Key, Object, SpanId};
use std::alloc::{AllocError, Global};
use std::marker::Model;

/// What a line came to other than by a call on a key.
#[derive(Clone, Copy)]
pub enum Other {
    /// A put found no usable slot, and the shard may have no further page; or an adoption found the
    /// shard to have as many groups as it may have pages.
    PagesSpent,
    /// The put that should have bound the name was refused.
    Unbound,
    /// A thread has ended.
    Ended,
    /// A shard adopted the group with this head.
    Adopted(SpanId),
    /// A shard found no group to adopt.
    NothingToAdopt,
    /// A key was sent off to be freed later.
    Sent,
    /// The ring for a key that was to be freed later had no room.
    RingFull,
    /// That many keys that had come in were taken, and freed where they were live.
    Settled(usize),
    /// A shard gave that many pages back, on which nothing was live.
    Trimmed(usize),
    /// That many groups of a shard went to the pool.
    Retired(usize),
    /// None did, since the open plan folds onto a group of the shard.
    PlanOpen,
    /// The shard of a thread that had ended runs again.
    Begun,
}

/// What a call of the trace answered, or an adoption. It takes as much room as an object does, 272
/// bytes, and a few words.
#[derive(Clone, Copy)]
pub enum Answer {
    /// A put stored its object under this key.
    Key(Key),
    /// A look-up found this object.
    Value(Object),
    /// A look-up found no object under its key.
    Absent,
    /// A set replaced the object under its key.
    Replaced,
    /// A set found no object of its class under its key.
    NotReplaced,
    /// A free took the object out.
    Freed,
    /// A free found no object under its key.
    NotFreed,
    /// It was no call on a key, or made none.
    Other(Other),
}

/// An answer with its place in the trace.
#[derive(Clone, Copy)]
pub struct LineAnswer {
    /// The number of the line that asked for it, where the first line of the trace is 1.
    pub line: usize,
    /// What it was answered.
    pub answer: Answer,
}

/// A step of an open plan: the pair that was next, and what came of it.
#[derive(Clone, Copy)]
pub struct TakenStep {
    /// The head of the abandoned group.
    pub abandoned: SpanId,
    /// The head of the owned group.
    pub owned: SpanId,
    /// What came of the fold.
    pub outcome: Step,
}

/// Steps of one plan, in order. Contracts see their list.
#[derive(Drop)]
pub struct Steps {
    taken: Vec<TakenStep>,
}

impl Model for Steps {
    ghost use Rattle.std.specs.Prelude.{List};
    ghost use Rattle.trace_runner.specs.declared.report.TakenStep.{TakenStep};

    ghost Value = { List TakenStep };

    ghost view = { λ steps. steps.taken.items };
}

impl Steps {
    /// No step.
    pub fn new(alloc: Global) -> Steps
        ensures { result ≡ [] }
    {
        Steps {
            taken: Vec::new(alloc),
        }
    }

    /// Adds a step after the others. `AllocError` comes where memory runs out, and then nothing is
    /// added.
    pub fn push(&mut self, step: TakenStep) -> Result<(), AllocError>
        ensures pushed { OnOk result (self.new ≡ self.old ++ step ∷ []) }
        ensures same { OnErr result (self.new ≡ self.old) }
    {
        self.taken.push(step)?;
        Ok(())
    }

    /// The steps, in their order.
    pub fn taken(&self) -> &[TakenStep]
        ensures { result.now ≡ self.now }
    {
        &self.taken
    }
}

/// Groups, by their heads. Contracts see the list of the heads.
#[derive(Drop)]
pub struct Heads {
    ids: Vec<SpanId>,
}

impl Model for Heads {
    ghost use Rattle.std.specs.Prelude.{List};
    ghost use Rattle.span.specs.declared.id.SpanId.{SpanId};

    ghost Value = { List SpanId };

    ghost view = { λ heads. heads.ids.items };
}

impl Heads {
    /// The groups of these heads.
    pub fn new(ids: Vec<SpanId>) -> Heads
        ensures { result ≡ ids.items }
    {
        Heads { ids }
    }

    /// The heads, in their order.
    pub fn ids(&self) -> &[SpanId]
        ensures { result.now ≡ self.now }
    {
        &self.ids
    }
}

/// What the report tells of a mark that planned.
#[derive(Drop)]
pub struct MarkNews {
    /// The number of the mark, where the first of the trace is 1.
    pub mark: usize,
    /// How many abandoned groups the mark saw.
    pub abandoned: usize,
    /// How many owned groups it saw.
    pub owned: usize,
    /// The pairs that it planned.
    pub plan: Plan,
    /// The abandoned groups that have too few partners, and so show that no plan has more pairs.
    pub short: Short,
    /// Their partners.
    pub partners: Heads,
    /// The pages in use when it planned.
    pub pages: usize,
}

/// What the report tells of a plan that was ended.
#[derive(Drop)]
pub struct CloseNews {
    /// The number of the mark that planned it.
    pub mark: usize,
    /// The steps that carried it out.
    pub steps: Steps,
    /// The pages in use when it was ended.
    pub pages: usize,
}

/// What the report tells of plans.
#[derive(Drop)]
pub enum PlanNews {
    /// A mark planned.
    Marked(MarkNews),
    /// The mark of this number saw more than 4,096 groups on a side.
    TooMany(usize),
    /// A plan was ended.
    Closed(CloseNews),
}

/// The counts at the end of a run.
#[derive(Clone, Copy)]
pub struct Ending {
    /// The pages in use.
    pub pages: usize,
    /// The slots that hold an object, over all pages.
    pub live: usize,
    /// The replies to the lines of threads, whatever they say. Those to adoptions don't count.
    pub calls: usize,
}
