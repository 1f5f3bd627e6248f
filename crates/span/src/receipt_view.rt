// What a call on a key told, as it is read in place.
use crate::key::Key;
use crate::object_view::ObjectView;

/// What a call asked of its key, and what it was answered, as [`Call`](crate::receipts::Call),
/// whose object is not copied.
#[derive(Clone, Copy)]
pub enum CallView<'a> {
    /// A put of this object.
    Put { value: ObjectView<'a> },
    /// A look-up that found this object.
    Found { value: ObjectView<'a> },
    /// A look-up that found nothing.
    NotFound,
    /// A set to this object that was done.
    Set { value: ObjectView<'a> },
    /// A set to this object that was not done, since the key was not live, or its object had
    /// another class.
    NotSet { value: ObjectView<'a> },
    /// A free that was done.
    Freed,
    /// A free that was not done, since the key was not live.
    NotFreed,
}

/// One call on a key, as [`Receipt`](crate::receipts::Receipt), whose object is not copied.
#[derive(Clone, Copy)]
pub struct ReceiptView<'a> {
    /// The key that the call was about, or that its put gave out.
    pub key: Key,
    /// The number of the worker that made the call.
    pub worker: u32,
    /// The number of the section of its run that the call fell into.
    pub section: u64,
    /// How many changes stood in the log of the key's span before the call.
    pub at: usize,
    /// What was asked and answered.
    pub call: CallView<'a>,
}
