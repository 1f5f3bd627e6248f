// How much is kept.
/// How much a core or an arena keeps, over its pool and all its shards.
#[derive(Clone, Copy, PartialEq, Eq, Debug)]
pub struct Totals {
    /// How many pages, each of 4,096 bytes, the groups have.
    pub pages: usize,
    /// How many keys are live.
    pub live: usize,
}
