// What a thread calls while it holds the lock of a shard.

/// What a thread passes whenever it has taken one shard's lock alone, once, before it touches the
/// shard. A test can hold a thread there, and so see which other threads get on meanwhile. It must
/// not use the arena that it is a part of, whose lock the thread holds.
pub trait Gate: Drop {
    /// A thread holds the lock of the shard of this number.
    fn inside(&self, shard: u32);
}

/// A gate that lets each thread pass at once.
#[derive(Clone, Copy)]
pub struct NoGate;

impl Gate for NoGate {
    fn inside(&self, _shard: u32) {}
}
