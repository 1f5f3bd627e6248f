// Receipts that a list keeps as one: which receipt goes on with which, and where the run of a place
// is.
ghost use Rattle.std.specs.Prelude.{◌≡◌, ◌≤◌, ◌<◌, ◌+◌, [], ◌∷◌, IsTrue, IfSome, Some, ℕ, length, slice_get, vec_capacity, vec_len};
ghost use Rattle.span.specs.StoredReceipts.{CountsUp, Follows, HasCall, HasPlace, IsCountedOf, IsNextOf, JoinsAs, MayCount};
ghost use Rattle.span.specs.StoredReceipts.{call_in, call_width, call_words, counted_form, counted_up, key_in, receipt_in, stride, with_last_call};
ghost use Rattle.span.specs.ReceiptViews.{call_viewed, receipt_viewed};
ghost use Rattle.span.specs.Stored.{run_from};
ghost use Rattle.span.specs.declared.stored_receipt.ReceiptRun.{ReceiptRun};

use crate::id::SpanId;
use crate::key::Key;
use crate::object::Object;
use crate::object_view::ObjectView;
use crate::receipt::{Call, Receipt};
use crate::receipt_view::{CallView, ReceiptView};
use crate::stored_receipt::{Joins, ReceiptRun, StoredCall};
use crate::words::run;

// Whether two calls are of one kind that makes a change, their objects of one class, and both
// counted or neither.
fn same_call(a: StoredCall, b: StoredCall) -> bool
    ensures { IsTrue result → a ≡ b }
{
    match (a, b) {
        (StoredCall::Put(a), StoredCall::Put(b)) => a == b,
        (StoredCall::Set(a), StoredCall::Set(b)) => a == b,
        (StoredCall::CountedPut, StoredCall::CountedPut)
        | (StoredCall::CountedSet, StoredCall::CountedSet)
        | (StoredCall::Freed, StoredCall::Freed) => true,
        _ => false,
    }
}

// The slot of the receipt's key. What a call answers is known to be in the range of its type, and a
// field that is read is not.
fn slot_of(receipt: &Receipt) -> u8
    ensures { result ≡ receipt.now.key.slot }
{
    receipt.key.slot
}

// How many changes stood in the log before the call, for the same reason.
fn place_of(receipt: &Receipt) -> usize
    ensures { result ≡ receipt.now.at }
{
    receipt.at
}

// Whether the receipt follows the first `k` calls of the run, whatever it says of its call.
fn follows(run: &ReceiptRun, k: usize, receipt: &Receipt) -> bool
    ensures { IsTrue result → Follows run.now k receipt.now }
{
    let SpanId { shard, serial } = receipt.key.span;
    let generation = receipt.key.generation;
    let (slot, at) = (slot_of(receipt), place_of(receipt));
    if slot <= run.slot || usize::from(slot - run.slot) != k {
        return false;
    }
    if u32::from(run.shard) != shard || run.serial != serial || run.generation != generation {
        return false;
    }
    if run.worker != receipt.worker || run.section != receipt.section {
        return false;
    }
    at >= run.at && at - run.at == k
}

// Whether a receipt that follows the first `k` calls of the run is also of their kind, and its
// words would stand behind theirs at `first`. Calls that make no change leave the log as it is, so
// none follows another.
fn is_next_of(run: &ReceiptRun, k: usize, first: usize, call: StoredCall, receipt: &Receipt) -> bool
    requires { Follows run.now k receipt.now }
    ensures { IsTrue result → IsNextOf run.now k first call receipt.now }
{
    if !same_call(run.call, call) {
        return false;
    }
    run.first <= first && first - run.first == k * stride(run.call)
}

// What a run of these calls is where their words count up, which those of objects of one word may
// do.
fn counted_form(call: StoredCall) -> Option<StoredCall>
    ensures { result ≡ counted_form call }
{
    match call {
        StoredCall::Put(class) => (class.words() == 1).then_some(StoredCall::CountedPut),
        StoredCall::Set(class) => (class.words() == 1).then_some(StoredCall::CountedSet),
        _ => None,
    }
}

// The word that comes that many after the one at `first`.
#[inline(always)]
fn counted_word(words: &[u128], first: usize, k: usize) -> u128
    requires { first + 1 ≤ length words.now }
    ensures word { result ∷ [] ≡ counted_up k (run_from words.now first 1) }
    ensures own { counted_up 0 (run_from words.now first 1) ≡ run_from words.now first 1 }
{
    words[first].wrapping_add(k as u128)
}

// Whether the object is of the word that comes that many after the one at `first`.
fn counts_up(words: &[u128], first: usize, k: usize, object: &[u128]) -> bool
    ensures { IsTrue result → CountsUp words.now first k object.now }
{
    if words.len() <= first {
        return false;
    }
    ObjectView::Word(counted_word(words, first, k)).is(object)
}

// Whether the run is counted, or has one call so far, which may be either.
fn may_count(run: StoredCall, k: usize, call: StoredCall, counted: StoredCall) -> bool
    ensures { IsTrue result → MayCount run k call counted }
{
    if same_call(run, counted) {
        return true;
    }
    k == 1 && same_call(run, call)
}

// The run's call with one more receipt, which follows its first `k` calls, if the words of all of
// them count up.
fn counted_on(
    run: &ReceiptRun,
    k: usize,
    words: &[u128],
    call: StoredCall,
    receipt: &Receipt,
) -> Option<StoredCall>
    requires follows { Follows run.now k receipt.now }
    requires call { (k : ℕ) → call_in call k (call_words receipt.now.call) ≡ receipt.now.call }
    ensures { IfSome result (λ counted. IsCountedOf words.now run.now k counted receipt.now) }
{
    let Some(counted) = counted_form(call) else {
        return None;
    };
    if !may_count(run.call, k, call, counted) {
        return None;
    }
    if !counts_up(words, run.first, k, words_of(&receipt.call)) {
        return None;
    }
    Some(counted)
}

/// How the receipt, which is the one after `len`, joins those before it.
pub(crate) fn joins(
    runs: &[ReceiptRun],
    words: &[u128],
    len: usize,
    call: StoredCall,
    receipt: &Receipt,
) -> Joins
    requires { (k : ℕ) → call_in call k (call_words receipt.now.call) ≡ receipt.now.call }
    ensures { JoinsAs words.now runs.now len call receipt.now result }
{
    if runs.is_empty() {
        return Joins::Apart;
    }
    let last = &runs[runs.len() - 1];
    if len < last.start {
        return Joins::Apart;
    }
    let k = len - last.start;
    if !follows(last, k, receipt) {
        return Joins::Apart;
    }
    if let Some(counted) = counted_on(last, k, words, call, receipt) {
        return Joins::Counted(counted);
    }
    if is_next_of(last, k, words.len(), call, receipt) {
        return Joins::WithItsWords;
    }
    Joins::Apart
}

/// Makes this the call of the last run.
pub(crate) fn call_last(runs: &mut Vec<ReceiptRun>, call: StoredCall)
    requires { 0 < vec_len runs.old }
    ensures items { runs.new.items ≡ with_last_call runs.old.items call }
    ensures len { vec_len runs.new ≡ vec_len runs.old }
    ensures capacity { vec_capacity runs.new ≡ vec_capacity runs.old }
{
    let last = runs.len() - 1;
    runs[last].call = call;
}

/// The run of this receipt alone, whose words stand at `first`, and which starts at this place.
pub(crate) fn run_of(receipt: &Receipt, call: StoredCall, first: usize, start: usize) -> ReceiptRun
    ensures next { IsNextOf result 0 first call receipt.now }
    ensures start { result.start ≡ start }
{
    let SpanId { shard, serial } = receipt.key.span;
    ReceiptRun {
        section: receipt.section,
        at: place_of(receipt),
        first,
        start,
        serial,
        generation: receipt.key.generation,
        worker: receipt.worker,
        shard: shard as u8,
        slot: slot_of(receipt),
        call,
    }
}

// Whether the run with this number has the place, as far as the starts of this one and the next
// tell.
#[inline(always)]
fn has_place(runs: &[ReceiptRun], place: usize, i: usize) -> bool
    ensures { IsTrue result → HasPlace runs.now place i }
{
    if runs.len() <= i || place < runs[i].start {
        return false;
    }
    if i + 1 == runs.len() {
        return true;
    }
    place < runs[i + 1].start
}

// The number of the run that has the place, by halving.
#[inline(never)]
fn search(runs: &[ReceiptRun], place: usize) -> usize
    requires first { (first : ReceiptRun) → slice_get runs.now 0 ≡ Some first
        → first.start ≤ place }
    requires some { 0 < length runs.now }
    ensures { HasPlace runs.now place result }
{
    let (mut low, mut high) = (0, runs.len());
    while 1 < high - low {
        let middle = low + (high - low) / 2;
        if runs[middle].start <= place {
            low = middle;
        } else {
            high = middle;
        }
    }
    low
}

/// The number of the run that has the place. `near`, and the number after it, are tried before a
/// search.
#[inline(always)]
pub(crate) fn run_at(runs: &[ReceiptRun], place: usize, near: usize) -> usize
    requires first { (first : ReceiptRun) → slice_get runs.now 0 ≡ Some first
        → first.start ≤ place }
    requires some { 0 < length runs.now }
    ensures { HasPlace runs.now place result }
{
    if has_place(runs, place, near) {
        return near;
    }
    let next = near.saturating_add(1);
    if has_place(runs, place, next) {
        return next;
    }
    search(runs, place)
}

// The key of the run's call with this number.
#[inline(always)]
fn key_at(run: &ReceiptRun, k: usize) -> Key
    requires { run.now.slot + k < 256 }
    ensures { result ≡ key_in run.now k }
{
    Key {
        span: SpanId {
            shard: u32::from(run.shard),
            serial: run.serial,
        },
        slot: run.slot + k as u8,
        generation: run.generation,
    }
}

/// The receipt of the run's call with this number, with its object not copied.
#[inline(always)]
pub(crate) fn view_of<'a>(run: &ReceiptRun, k: usize, words: &'a [u128]) -> ReceiptView<'a>
    requires { HasCall (length words.now) run.now k }
    ensures { receipt_viewed result ≡ receipt_in words.now run.now k }
{
    let first = run.first + k * stride(run.call);
    ReceiptView {
        key: key_at(run, k),
        worker: run.worker,
        section: run.section,
        at: run.at + k,
        call: call_at(run.call, k, words, first),
    }
}

/// The receipt of the run's call with this number.
pub(crate) fn receipt_of(run: &ReceiptRun, k: usize, words: &[u128]) -> Receipt
    requires { HasCall (length words.now) run.now k }
    ensures { result ≡ receipt_in words.now run.now k }
{
    let first = run.first + k * stride(run.call);
    Receipt {
        key: key_at(run, k),
        worker: run.worker,
        section: run.section,
        at: run.at + k,
        call: copied_call_at(run.call, k, words, first),
    }
}

// How far the words of each call of a run stand behind those of the one before it.
#[inline(always)]
fn stride(call: StoredCall) -> usize
    ensures value { result ≡ stride call }
    ensures few { result ≤ 16 }
{
    match call {
        StoredCall::Put(class)
        | StoredCall::Found(class)
        | StoredCall::Set(class)
        | StoredCall::NotSet(class) => class.words(),
        StoredCall::CountedPut
        | StoredCall::CountedSet
        | StoredCall::NotFound
        | StoredCall::Freed
        | StoredCall::NotFreed => 0,
    }
}

/// The words of the call's object, if it has one.
pub(crate) fn words_of(call: &Call) -> &[u128]
    ensures { result.now ≡ call_words call.now }
{
    match call {
        Call::Put { value }
        | Call::Found { value }
        | Call::Set { value }
        | Call::NotSet { value } => value.words(),
        Call::NotFound | Call::Freed | Call::NotFreed => &[],
    }
}

/// The call without its words.
pub(crate) fn stored(call: &Call) -> StoredCall
    ensures call { (k : ℕ) → call_in result k (call_words call.now) ≡ call.now }
    ensures width { call_width result ≡ length (call_words call.now) }
{
    match call {
        Call::Put { value } => StoredCall::Put(value.class()),
        Call::Found { value } => StoredCall::Found(value.class()),
        Call::NotFound => StoredCall::NotFound,
        Call::Set { value } => StoredCall::Set(value.class()),
        Call::NotSet { value } => StoredCall::NotSet(value.class()),
        Call::Freed => StoredCall::Freed,
        Call::NotFreed => StoredCall::NotFreed,
    }
}

// The call with this number of a run, whose words begin at the word `first`, or count up from
// there.
#[inline(always)]
fn call_at(call: StoredCall, k: usize, words: &[u128], first: usize) -> CallView<'_>
    requires { first + call_width call ≤ length words.now }
    ensures { call_viewed result ≡ call_in call k (run_from words.now first (call_width call)) }
{
    match call {
        StoredCall::Put(class) => CallView::Put {
            value: ObjectView::Lent(run(words, first, class)),
        },
        StoredCall::CountedPut => CallView::Put {
            value: ObjectView::Word(counted_word(words, first, k)),
        },
        StoredCall::Found(class) => CallView::Found {
            value: ObjectView::Lent(run(words, first, class)),
        },
        StoredCall::NotFound => CallView::NotFound,
        StoredCall::Set(class) => CallView::Set {
            value: ObjectView::Lent(run(words, first, class)),
        },
        StoredCall::CountedSet => CallView::Set {
            value: ObjectView::Word(counted_word(words, first, k)),
        },
        StoredCall::NotSet(class) => CallView::NotSet {
            value: ObjectView::Lent(run(words, first, class)),
        },
        StoredCall::Freed => CallView::Freed,
        StoredCall::NotFreed => CallView::NotFreed,
    }
}

// The same, with its words copied.
fn copied_call_at(call: StoredCall, k: usize, words: &[u128], first: usize) -> Call
    requires { first + call_width call ≤ length words.now }
    ensures { result ≡ call_in call k (run_from words.now first (call_width call)) }
{
    match call {
        StoredCall::Put(class) => Call::Put {
            value: Object::of(class, run(words, first, class)),
        },
        StoredCall::CountedPut => Call::Put {
            value: Object::c16(counted_word(words, first, k)),
        },
        StoredCall::Found(class) => Call::Found {
            value: Object::of(class, run(words, first, class)),
        },
        StoredCall::NotFound => Call::NotFound,
        StoredCall::Set(class) => Call::Set {
            value: Object::of(class, run(words, first, class)),
        },
        StoredCall::CountedSet => Call::Set {
            value: Object::c16(counted_word(words, first, k)),
        },
        StoredCall::NotSet(class) => Call::NotSet {
            value: Object::of(class, run(words, first, class)),
        },
        StoredCall::Freed => Call::Freed,
        StoredCall::NotFreed => Call::NotFreed,
    }
}
