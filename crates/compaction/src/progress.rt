// What a compaction has gone through.
ghost use Rattle.std.specs.Prelude.{◌≡◌};
ghost use Rattle.compaction.specs.Progress.{begun, fresh, is_planned};

/// What a compaction has gone through since it began, which says what may come next.
#[derive(Clone, Copy)]
pub struct Progress {
    /// How many shards were trimmed, from shard 0 on.
    pub trimmed: u32,
    /// Which steps may come next.
    pub phase: Phase,
    /// Whether the last mark planned so few folds that no further one is worth it.
    pub is_spent: bool,
}

const _: () = prove!(size_of::<Progress>() == 8);

/// Which steps of a compaction may come next.
#[derive(Clone, Copy)]
pub enum Phase {
    /// It has not begun: the spans that can never be live again are forgotten.
    Fresh,
    /// The next shard is trimmed, until there is none.
    Trimming,
    /// Groups retire, are adopted or are marked, or all is done.
    Choosing,
    /// The next pair of its plan is folded.
    Folding,
    /// No pair of its plan is left, and the plan is closed.
    Closing,
}

impl Progress {
    /// That of a compaction that has not begun.
    pub(crate) fn fresh() -> Progress
        ensures { result ≡ fresh }
    {
        Progress {
            phase: Phase::Fresh,
            trimmed: 0,
            is_spent: false,
        }
    }

    /// That of a compaction that has just begun.
    pub(crate) fn begun() -> Progress
        ensures { result ≡ begun }
    {
        Progress {
            phase: Phase::Trimming,
            ..Progress::fresh()
        }
    }

    /// Whether a plan that the compaction has opened may be open.
    pub(crate) fn is_planned(&self) -> bool
        ensures { result ≡ is_planned self.now.phase }
    {
        matches!(self.phase, Phase::Folding | Phase::Closing)
    }
}
