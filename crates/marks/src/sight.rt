// Which groups a mark sees.
/// Which of the groups that have a page a mark sees.
#[derive(Clone, Copy, PartialEq, Eq, Debug)]
pub enum Sight {
    /// All of them. A mark is refused if a side has more than 4,096.
    All,
    /// Of each side the 4,096 with the fewest live slots, or all if there are no more.
    Sparsest,
}
