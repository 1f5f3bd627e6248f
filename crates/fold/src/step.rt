// What a fold of two groups comes to.

/// What came of a fold of one group onto another. Only [`Step::Folded`] has changed anything.
#[derive(Clone, Copy, PartialEq, Eq, Debug)]
pub enum Step {
    /// One of the groups is not there, or a span of the first is in the shard already, or one that
    /// it may yet open.
    Absent,
    /// The first group has no page, since none of its slots is live.
    Emptied,
    /// The groups are of two classes, or a slot is live in both.
    Clash,
    /// The spans of the first group are guests of the second, and its page is gone, or that of the
    /// second where this had none.
    Folded,
}
