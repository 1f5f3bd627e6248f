// A value that is out of its latch, and not lent from it.
use crate::latch::Turn;

/// A value that a thread keeps out of its [`Latch`](crate::Latch), which it does not borrow, so
/// that both may stand in one struct. It is no `Drop`: who has it gives it back by
/// [`Latch::give_back`](crate::Latch::give_back), so that no value is lost to its latch.
pub struct Hold<T> {
    /// The right to give it back, which names the latch.
    pub turn: Turn<T>,
    /// What is held.
    pub value: Box<T>,
}
