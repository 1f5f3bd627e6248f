// What a thread was told.
ghost use Rattle.std.specs.Prelude.{◌≡◌, ◌+◌, ◌≤◌, ◌++◌, ◌∷◌, [], IfOk, OnOk, drop, length, map, take};
ghost use Rattle.std.specs.List.{flat_map};
ghost use Rattle.span.specs.ReceiptLists.{kept_receipts};
ghost use Rattle.arena.specs.Delays.{HasNoneWaiting};
ghost use Rattle.thread_runner.specs.Followed.{carried_by};
ghost use Rattle.thread_runner.specs.Grown.{Grows, IsEmptyDiary, TellsTending};
ghost use Rattle.thread_runner.specs.declared.diary.Entry.TheVariants as entry;
ghost use Rattle.thread_runner.specs.Told.{answer_of, call_line, diary_lines, entry_lines, is_free, lineless, other_line, receipts_after, told_lines};

use arena::{Arena, Gate, Seat};
use span::receipts::{Call, Receipt, ReceiptList};
use std::alloc::{AllocError, Global};
use std::sync::Wait;
use trace_runner::{Answer, LineAnswer, Other};

/// What a line came to other than by a call on a key, with its place in the trace.
#[derive(Clone, Copy)]
pub struct OtherLine {
    /// The number of the line, where the first line of the trace is 1.
    pub line: usize,
    /// What it came to.
    pub other: Other,
}

/// What a diary keeps of a call on a line, or of keys that came in, beside the receipts.
#[derive(Clone, Copy)]
pub enum Entry {
    /// A call on a key, on the line of that number. Its receipt is the next.
    Called(usize),
    /// Frees of that many keys that came in on the rings. Their receipts are the next, and have no
    /// replies of their own.
    Incoming(usize),
    /// What a line came to other than by a call on a key.
    Said(OtherLine),
}

/// What a thread was told, in the order of its calls.
#[derive(Drop)]
pub(crate) struct Diary {
    /// Whether the report has replies.
    replies: bool,
    /// The receipts of all calls on keys, in order.
    receipts: ReceiptList,
    /// What it was told, in order, where the report has replies.
    entries: Vec<Entry>,
    /// How many replies to calls there are.
    calls: usize,
}

impl Diary {
    /// The diary of a thread that was told nothing yet.
    pub(crate) fn new(alloc: Global, replies: bool) -> Diary
        ensures { IsEmptyDiary replies result }
    {
        Diary {
            replies,
            receipts: ReceiptList::new(alloc),
            entries: Vec::new(alloc),
            calls: 0,
        }
    }

    /// Makes room for what that many calls are told, and for as many words of objects.
    pub(crate) fn reserve(&mut self, calls: usize) -> Result<(), AllocError>
        ensures { OnOk result (Grows [] [] 0 self.old self.new) }
    {
        if self.replies {
            self.entries.reserve(calls)?;
        }
        self.receipts.reserve(calls, calls)
    }

    // Keeps an entry, where the report has replies.
    fn note(&mut self, entry: Entry) -> Result<(), AllocError>
        ensures { OnOk result (Grows (entry ∷ []) [] 0 self.old self.new) }
    {
        if self.replies {
            self.entries.push(entry)?;
        }
        Ok(())
    }

    // Counts a reply. More than a number counts find no memory.
    fn count(&mut self) -> Result<(), AllocError>
        ensures { OnOk result (Grows [] [] 1 self.old self.new) }
    {
        self.calls = self.calls.checked_add(1).ok_or(AllocError)?;
        Ok(())
    }

    /// Keeps the receipt of a call on the line of that number.
    pub(crate) fn keep(&mut self, line: usize, receipt: Receipt) -> Result<(), AllocError>
        ensures { OnOk result (Grows (entry.Called line ∷ []) (receipt ∷ []) 1 self.old self.new) }
    {
        self.count()?;
        self.note(Entry::Called(line))?;
        self.receipts.push(&receipt)?;
        Ok(())
    }

    /// Keeps what the line of that number came to other than by a call on a key.
    pub(crate) fn keep_other(&mut self, line: usize, other: Other) -> Result<(), AllocError>
        ensures { OnOk result (Grows (entry.Said (record { line = line; other = other }) ∷ []) [] 1
            self.old self.new) }
    {
        self.count()?;
        self.note(Entry::Said(OtherLine { line, other }))
    }

    /// Keeps what the adoption of the line of that number came to. It is no reply to a call, and
    /// not counted.
    pub(crate) fn keep_adoption(&mut self, line: usize, other: Other) -> Result<(), AllocError>
        ensures { OnOk result (Grows (entry.Said (record { line = line; other = other }) ∷ []) [] 0
            self.old self.new) }
    {
        self.note(Entry::Said(OtherLine { line, other }))
    }

    /// Frees the keys that have come in on the rings to the seat's shard, keeps their receipts, and
    /// says how many there were.
    pub(crate) fn tend<R: Wait, G: Gate>(
        &mut self,
        rt: &R,
        seat: &mut Seat,
        arena: &Arena<G>,
    ) -> Result<usize, AllocError>
        requires { seat.old.limits ≡ arena.now.limits }
        ensures told { IfOk result (λ count. TellsTending seat.old.section seat.old.worker count
            self.old self.new (carried_by seat.old) (carried_by seat.new)) }
        ensures worker { seat.new.worker ≡ seat.old.worker }
        ensures section { seat.new.section ≡ seat.old.section }
        ensures table { seat.new.table ≡ seat.old.table }
        ensures limits { seat.new.limits ≡ seat.old.limits }
        ensures none { HasNoneWaiting seat.new }
    {
        let count = seat.tend(rt, arena, &mut self.receipts)?;
        self.note(Entry::Incoming(count))?;
        Ok(count)
    }

    /// How many replies there are.
    pub(crate) fn calls(&self) -> usize
        ensures { result ≡ self.now.calls }
    {
        self.calls
    }

    /// The receipts of all calls on keys, in order.
    pub(crate) fn into_receipts(self) -> ReceiptList
        ensures { result ≡ self.receipts }
    {
        self.receipts
    }

    /// Adds all replies, in the order of the calls.
    pub(crate) fn push_replies(&self, replies: &mut Vec<LineAnswer>) -> Result<(), AllocError>
        ensures { OnOk result (replies.new.items ≡ replies.old.items ++ diary_lines self.now) }
    {
        push_told(replies, self.entries.as_slice(), &self.receipts)
    }
}

/// What the call of a receipt was answered.
fn answer_of(receipt: &Receipt) -> Answer
    ensures { result ≡ answer_of receipt.now }
{
    match receipt.call {
        Call::Put { .. } => Answer::Key(receipt.key),
        Call::Found { value } => Answer::Value(value),
        Call::NotFound => Answer::Absent,
        Call::Set { .. } => Answer::Replaced,
        Call::NotSet { .. } => Answer::NotReplaced,
        Call::Freed => Answer::Freed,
        Call::NotFreed => Answer::NotFreed,
    }
}

/// Whether a receipt is that of a free.
fn is_free(receipt: &Receipt) -> bool
    ensures { result ≡ is_free receipt.now.call }
{
    matches!(receipt.call, Call::Freed | Call::NotFreed)
}

/// Adds the reply of a receipt that no line asked for. That of a free has none: its key came in on
/// a ring.
fn push_lineless(replies: &mut Vec<LineAnswer>, receipt: &Receipt) -> Result<(), AllocError>
    ensures { OnOk result (replies.new.items ≡ replies.old.items ++ lineless receipt.now) }
{
    if !is_free(receipt) {
        let answer = answer_of(receipt);
        replies.push(LineAnswer { line: 0, answer })?;
    }
    Ok(())
}

/// Adds the replies of that many receipts that no line asked for, of which the first has that
/// place.
fn push_all_lineless(
    replies: &mut Vec<LineAnswer>,
    receipts: &ReceiptList,
    first: usize,
    count: usize,
) -> Result<(), AllocError>
    requires { first + count ≤ length (kept_receipts receipts.now) }
    ensures { OnOk result (replies.new.items ≡ replies.old.items
        ++ flat_map lineless (take count (drop first (kept_receipts receipts.now)))) }
{
    // Each of these places is a number, since how many there are is one.
    let left = receipts.len() - first;
    prove!(count <= left);
    for i in 0..count {
        push_lineless(replies, &receipts.receipt(first + i))?;
    }
    Ok(())
}

/// Adds the reply of the receipt of that place, if there is one, on the line of that number, and
/// gives the place after it.
fn push_call(
    replies: &mut Vec<LineAnswer>,
    line: usize,
    receipts: &ReceiptList,
    place: usize,
) -> Result<usize, AllocError>
    requires { place ≤ length (kept_receipts receipts.now) }
    ensures told { OnOk result (replies.new.items ≡ replies.old.items
        ++ map (call_line line) (take 1 (drop place (kept_receipts receipts.now)))) }
    ensures left { IfOk result (λ next. drop next (kept_receipts receipts.now)
        ≡ drop 1 (drop place (kept_receipts receipts.now))) }
    ensures within { IfOk result (λ next. next ≤ length (kept_receipts receipts.now)) }
{
    if place == receipts.len() {
        return Ok(place);
    }
    let answer = answer_of(&receipts.receipt(place));
    replies.push(LineAnswer { line, answer })?;
    Ok(place + 1)
}

/// Adds the replies of that many receipts that no line asked for, as far as there are so many, of
/// which the first has that place, and gives the place after them.
fn push_incoming(
    replies: &mut Vec<LineAnswer>,
    count: usize,
    receipts: &ReceiptList,
    place: usize,
) -> Result<usize, AllocError>
    requires { place ≤ length (kept_receipts receipts.now) }
    ensures told { OnOk result (replies.new.items ≡ replies.old.items
        ++ flat_map lineless (take count (drop place (kept_receipts receipts.now)))) }
    ensures left { IfOk result (λ next. drop next (kept_receipts receipts.now)
        ≡ drop count (drop place (kept_receipts receipts.now))) }
    ensures within { IfOk result (λ next. next ≤ length (kept_receipts receipts.now)) }
{
    let count = count.min(receipts.len() - place);
    push_all_lineless(replies, receipts, place, count)?;
    Ok(place + count)
}

/// Adds the replies of an entry whose first receipt has that place, and gives the place of the
/// first that is left.
fn push_entry(
    replies: &mut Vec<LineAnswer>,
    entry: &Entry,
    receipts: &ReceiptList,
    place: usize,
) -> Result<usize, AllocError>
    requires { place ≤ length (kept_receipts receipts.now) }
    ensures told { OnOk result (replies.new.items ≡ replies.old.items
        ++ entry_lines entry.now (drop place (kept_receipts receipts.now))) }
    ensures left { IfOk result (λ next. drop next (kept_receipts receipts.now)
        ≡ receipts_after entry.now (drop place (kept_receipts receipts.now))) }
    ensures within { IfOk result (λ next. next ≤ length (kept_receipts receipts.now)) }
{
    match entry {
        Entry::Called(line) => push_call(replies, *line, receipts, place),
        Entry::Incoming(count) => push_incoming(replies, *count, receipts, place),
        Entry::Said(told) => {
            push_other(replies, told)?;
            Ok(place)
        }
    }
}

/// Adds the replies of entries, in order, whose receipts these are.
fn push_told(
    replies: &mut Vec<LineAnswer>,
    entries: &[Entry],
    receipts: &ReceiptList,
) -> Result<(), AllocError>
    ensures { OnOk result (replies.new.items ≡ replies.old.items
        ++ told_lines entries.now (kept_receipts receipts.now)) }
{
    let mut place = 0;
    for entry in entries {
        place = push_entry(replies, entry, receipts, place)?;
    }
    push_incoming(replies, receipts.len(), receipts, place)?;
    Ok(())
}

/// Adds the reply of what a line came to other than by a call on a key.
fn push_other(replies: &mut Vec<LineAnswer>, told: &OtherLine) -> Result<(), AllocError>
    ensures { OnOk result (replies.new.items ≡ replies.old.items ++ other_line told.now ∷ []) }
{
    let line = told.line;
    let answer = Answer::Other(told.other);
    replies.push(LineAnswer { line, answer })?;
    Ok(())
}
