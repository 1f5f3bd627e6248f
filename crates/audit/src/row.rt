// The sections of a log's changes, while receipts tell them. It stands apart, since tables are said
// of it.
ghost use Rattle.std.specs.Prelude.{◌≡◌, length};

/// The sections of the changes of a log, as far as receipts told them. A change takes 9 bytes.
#[derive(Drop)]
pub struct Row {
    pub(crate) sections: Vec<u64>,
    /// Whether a receipt told the section of the change.
    pub(crate) told: Vec<bool>,
    ghost same_len: { length told.items ≡ length sections.items },
}

/// The sections of the changes of a log, once all were told.
#[derive(Drop)]
pub enum Sections {
    /// All changes were made in this section.
    Same { section: u64, changes: usize },
    /// The section of each. A change takes 8 bytes.
    Each(Vec<u64>),
}
