// What a call of a compaction answers.
use arena_core::Refusal;

/// What the steps of one call came to.
#[derive(Clone, Copy)]
pub struct Compacted {
    /// How many pages went.
    pub pages: usize,
    /// Whether a further call has something to do.
    pub standing: Standing,
}

/// How a call leaves a compaction.
#[derive(Clone, Copy)]
pub enum Standing {
    /// The budget is used up, and a further call goes on.
    GoesOn,
    /// Nothing is left to do; a further call begins anew.
    Done,
    /// A step was refused, and a further call tries it again: by [`Refusal::OutOfMemory`], or by
    /// [`Refusal::PlanOpen`], since somebody else has opened a plan.
    Refused(Refusal),
}
