// Receipts as a list keeps them.
ghost use Rattle.std.specs.Prelude.{◌≤◌, ◌<◌};
ghost use Rattle.span.specs.declared.limits.TheConstants.{MOST_SHARDS, MOST_SPANS};

use crate::class::Class;
use std::mem::size_of;

/// What a call asked and was answered, whose words stand elsewhere.
#[derive(Clone, Copy)]
pub(crate) enum StoredCall {
    Put(Class),
    /// Puts of objects of one word each, whose words count up by one from call to call.
    CountedPut,
    Found(Class),
    NotFound,
    Set(Class),
    /// Sets to such objects.
    CountedSet,
    NotSet(Class),
    Freed,
    NotFreed,
}

/// Receipts of calls that follow one another: of one kind, by one worker in one section, on slots
/// one after another of a span, at one generation and at places one after another of its log. What
/// is kept is the first of them; how many they are is told by where the next ones start. It takes
/// 48 bytes. Their words stand one after another. Where the run is counted, the word of the first
/// stands there alone, and each of the others has the word that comes after that of the call before
/// it: 0 comes after the greatest.
///
/// The second receipt decides which of the two a run is: one whose first two words count up is
/// counted, and ends where a word does not go on. So each such end takes at most the 48 bytes of
/// another run: words that count up in twos alone take 64 bytes for two receipts, where 32 would
/// do.
#[derive(Clone, Copy)]
pub(crate) struct ReceiptRun {
    pub section: u64,
    /// How many changes stood in the span's log before the first call.
    pub at: usize,
    /// Where the words of the first call begin among those of the list, if it has words.
    pub first: usize,
    /// The place of the first receipt in the list.
    pub start: usize,
    pub serial: u32,
    pub generation: u32,
    pub worker: u32,
    pub shard: u8,
    /// The slot of the first call.
    pub slot: u8,
    pub call: StoredCall,
    pub ghost shard_in_range: { shard < MOST_SHARDS },
    pub ghost serial_in_range: { serial < MOST_SPANS },
    pub ghost generation_in_range: { 1 ≤ generation },
}

const _: () = prove!(size_of::<ReceiptRun>() == 48);

/// How a receipt joins those before it.
#[derive(Clone, Copy)]
pub(crate) enum Joins {
    /// It begins a run of its own.
    Apart,
    /// It goes on with the last run, and its words stand behind those of the run.
    WithItsWords,
    /// It goes on with the last run, whose call is now this one, and its word is told by how many
    /// there are.
    Counted(StoredCall),
}
