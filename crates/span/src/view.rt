// What stands in a span's log, as it is read in place.

/// One change of a span, as [`Change`](crate::spans::Change), whose words are lent.
#[derive(Clone, Copy)]
pub enum ChangeView<'a> {
    /// The slot took an object of these words, at the generation.
    Put {
        slot: u8,
        generation: u32,
        words: &'a [u128],
    },
    /// The slot, which was live at the generation, took an object of these words in place of its
    /// own.
    Set {
        slot: u8,
        generation: u32,
        words: &'a [u128],
    },
    /// The slot, which was live at the generation, gave its object up.
    Free {
        slot: u8,
        generation: u32,
    },
}
