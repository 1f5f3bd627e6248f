// A list of receipts.
ghost use Rattle.std.specs.Prelude.{◌≡◌, ◌≤◌, ◌<◌, ◌+◌, [], ◌∷◌, ◌++◌, OnErr, OnOk, Some, length, slice_get};
ghost use Rattle.span.specs.StoredReceipts.{AreRuns, AreRuns-prop, call_words};

use crate::receipt::Receipt;
use crate::receipt_run::{call_last, joins, receipt_of, run_at, run_of, stored, view_of, words_of};
use crate::receipt_view::ReceiptView;
use crate::stored_receipt::{Joins, ReceiptRun};
use crate::words::push_words;
use std::alloc::{AllocError, Global};

/// Receipts, in the order of their calls: what a worker keeps of its run for an audit. A receipt
/// takes 48 bytes, and one with an object the object's words besides, which stand in a list of
/// their own. Receipts of calls that follow one another, as those of puts on a fresh page do, take
/// 48 bytes together, and their words. Where these are puts of one word each, or sets, whose words
/// count up by one from call to call, the first word alone is kept, so that they take 64 bytes
/// together.
#[derive(Drop)]
pub struct ReceiptList {
    runs: Vec<ReceiptRun>,
    words: Vec<u128>,
    // How many receipts there are.
    len: usize,
    ghost runs_are: { AreRuns (length words.items) len 0 runs.items } by { AreRuns-prop (length words.items) len 0 runs.items },
}

impl ReceiptList {
    ghost use Rattle.span.specs.ReceiptLists.{kept_receipts, receipt_room, receipt_word_room};
    ghost use Rattle.span.specs.ReceiptViews.{receipt_viewed};

    /// No receipt. Takes no memory.
    pub fn new(alloc: Global) -> ReceiptList
        ensures { kept_receipts result ≡ [] }
    {
        ReceiptList {
            runs: Vec::new(alloc),
            words: Vec::new(alloc),
            len: 0,
        }
    }

    /// How many receipts there are.
    pub fn len(&self) -> usize
        ensures { result ≡ length (kept_receipts self.now) }
    {
        self.len
    }

    /// Makes room for that many more receipts, and for that many words of objects among them.
    ///
    /// # Errors
    ///
    /// `AllocError` where memory runs out, or where there would be more receipts than a number
    /// counts. The receipts are then as they were, and the room has not shrunk.
    pub fn reserve(&mut self, more: usize, words: usize) -> Result<(), AllocError>
        ensures receipts { kept_receipts self.new ≡ kept_receipts self.old }
        ensures room { receipt_room self.old ≤ receipt_room self.new }
        ensures word_room { receipt_word_room self.old ≤ receipt_word_room self.new }
        ensures ok { OnOk result (more ≤ receipt_room self.new) }
        ensures words { OnOk result (words ≤ receipt_word_room self.new) }
    {
        if usize::MAX - self.len < more {
            return Err(AllocError);
        }
        self.runs.reserve(more)?;
        self.words.reserve(words)?;
        Ok(())
    }

    /// Adds a receipt at the end, in reserved room, which needs no memory.
    pub fn push_reserved(&mut self, receipt: &Receipt)
        requires room { 0 < receipt_room self.old }
        requires words { length (call_words receipt.now.call) ≤ receipt_word_room self.old }
        ensures receipts { kept_receipts self.new ≡ kept_receipts self.old ++ receipt.now ∷ [] }
        ensures room { receipt_room self.old ≤ receipt_room self.new + 1 }
    {
        let first = self.words.len();
        let call = stored(&receipt.call);
        match joins(
            self.runs.as_slice(),
            self.words.as_slice(),
            self.len,
            call,
            receipt,
        ) {
            Joins::Counted(counted) => {
                call_last(&mut self.runs, counted);
                self.len += 1;
                return;
            }
            Joins::WithItsWords => {
                push_words(&mut self.words, words_of(&receipt.call));
                self.len += 1;
                return;
            }
            Joins::Apart => {}
        }
        push_words(&mut self.words, words_of(&receipt.call));
        self.runs
            .push_reserved(run_of(receipt, call, first, self.len));
        self.len += 1;
    }

    /// Adds a receipt at the end.
    ///
    /// # Errors
    ///
    /// `AllocError` where memory runs out. The receipts are then as they were.
    pub fn push(&mut self, receipt: &Receipt) -> Result<(), AllocError>
        ensures ok { OnOk result (kept_receipts self.new
            ≡ kept_receipts self.old ++ receipt.now ∷ []) }
        ensures err { OnErr result (kept_receipts self.new ≡ kept_receipts self.old) }
    {
        self.reserve(1, words_of(&receipt.call).len())?;
        self.push_reserved(receipt);
        Ok(())
    }

    /// The receipt at the place, the oldest being at 0, with its words lent: an object is not
    /// copied.
    pub fn view(&self, place: usize) -> ReceiptView<'_>
        requires { place < length (kept_receipts self.now) }
        ensures { slice_get (kept_receipts self.now) place ≡ Some (receipt_viewed result) }
    {
        self.view_near(place, &mut self.guess(place))
    }

    /// The same, looked for first by the number in `near`, which the last call left there: who
    /// reads a list in order, from any number on, so spares a search.
    #[inline(always)]
    pub fn view_near(&self, place: usize, near: &mut usize) -> ReceiptView<'_>
        requires { place < length (kept_receipts self.now) }
        ensures { slice_get (kept_receipts self.now) place ≡ Some (receipt_viewed result) }
    {
        let i = run_at(self.runs.as_slice(), place, *near);
        *near = i;
        let run = &self.runs[i];
        view_of(run, place - run.start, self.words.as_slice())
    }

    /// The receipt at the place, the oldest being at 0.
    pub fn receipt(&self, place: usize) -> Receipt
        requires { place < length (kept_receipts self.now) }
        ensures { slice_get (kept_receipts self.now) place ≡ Some result }
    {
        let run = &self.runs[run_at(self.runs.as_slice(), place, self.guess(place))];
        receipt_of(run, place - run.start, self.words.as_slice())
    }

    // The number of the run that the place may be in, as it is where all have as many receipts. No
    // answer rests on it.
    fn guess(&self, place: usize) -> usize {
        if self.len == 0 {
            return 0;
        }
        place.saturating_mul(self.runs.len()) / self.len
    }
}
