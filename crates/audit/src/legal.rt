// Whether no span has two logs and each log is legal.
ghost use Rattle.std.specs.Prelude.{◌≡◌, ◌↔◌, ◌<◌, ◌≤◌, ◌+◌, ◌++◌, ◌∷◌, [], IsTrue, IfOk, MatchOption, List, Some, None, ℕ, slice_get};
ghost use Rattle.span.specs.declared.change.Change.{Change};
ghost use Rattle.span.specs.declared.class.Class.{Class};
ghost use Rattle.span.specs.KeptLogs.{kept_changes};
ghost use Rattle.span.specs.Log.{IsChangeOf, IsLegal, IsOfClass};
ghost use Rattle.span.specs.Views.{viewed};
ghost use Rattle.span.specs.declared.span_log.SpanLog.{SpanLog};
ghost use Rattle.audit.specs.Agreement.{IsLegalLog, LogsAreLegal};
ghost use Rattle.audit.specs.Changes.{AreAfter, AreIssued, CountsChange, TellsLegal};
ghost use Rattle.audit.specs.Tables.{IsTable};

use crate::calls::{generation_left_by, issued_by, slot_of};
use crate::log::{LogPlaces, table_of};
use bitmap::SLOTS;
use span::names::Class;
use span::spans::{ChangeView, Kept, Log, SpanLog};
use std::alloc::{AllocError, Global};

// No slot holds anything.
fn no_contents() -> [Option<u32>; SLOTS]
    ensures { AreAfter [] result }
{
    [None; SLOTS]
}

// No slot was ever put.
fn none_issued() -> [u32; SLOTS]
    ensures { AreIssued [] result }
{
    [0; SLOTS]
}

// Whether something of this generation is there.
fn is_of(here: Option<u32>, generation: u32) -> bool
    ensures { IsTrue result ↔ (here ≡ Some generation) }
{
    match here {
        Some(current) => current == generation,
        None => false,
    }
}

// Whether the change may follow the changes before it, where it and they are of one class: what a
// slot holds then has as many words as what a set puts in its place.
fn may_follow(
    held: &[Option<u32>; SLOTS],
    issued: &[u32; SLOTS],
    gens: u32,
    change: ChangeView<'_>,
) -> bool
    ensures { TellsLegal gens held.now issued.now (viewed change.entry) result }
{
    let here = held[usize::from(slot_of(change))];
    let last = issued[usize::from(slot_of(change))];
    match change {
        ChangeView::Put { generation, .. } => here.is_none()
            && 1 <= generation
            && generation - 1 == last
            && generation <= gens,
        ChangeView::Set { generation, .. } => is_of(here, generation),
        ChangeView::Free { generation, .. } => is_of(here, generation),
    }
}

// Whether a put or a set is of a slot that a page of the class has, and of an object of the class.
fn is_of_class(class: Class, change: ChangeView<'_>) -> bool
    ensures { IsTrue result ↔ IsChangeOf class (viewed change.entry) }
{
    match change {
        ChangeView::Put { slot, words, .. } | ChangeView::Set { slot, words, .. } => {
            u16::from(slot) < class.slots() && words.len() == class.words()
        }
        ChangeView::Free { .. } => true,
    }
}

// Enters the change into what the slots hold and have issued.
fn enter(held: &mut [Option<u32>; SLOTS], issued: &mut [u32; SLOTS], change: ChangeView<'_>)
    ensures held { (before : List Change) → AreAfter before held.old
        → AreAfter (before ++ viewed change.entry ∷ []) held.new }
    ensures issued { CountsChange (viewed change.entry) issued.old issued.new }
{
    let slot = usize::from(slot_of(change));
    held[slot] = generation_left_by(change);
    issued[slot] = issued_by(change, issued[slot]);
}

// Whether the changes are legal, and all of the class.
fn is_legal(class: Class, gens: u32, log: &Kept) -> bool
    ensures { IsTrue result
        ↔ (IsLegal gens (kept_changes log.now) × IsOfClass class (kept_changes log.now)) }
{
    let mut held = no_contents();
    let mut issued = none_issued();
    for i in 0..log.len() {
        let change = log.view(i);
        if !is_of_class(class, change) {
            return false;
        }
        if !may_follow(&held, &issued, gens, change) {
            return false;
        }
        enter(&mut held, &mut issued, change);
    }
    true
}

// Whether each log is legal for the class and the greatest generation that it names.
fn logs_are_legal(logs: &[SpanLog]) -> bool
    ensures { IsTrue result ↔ ((i : ℕ) (log : SpanLog) → slice_get logs.now i ≡ Some log
        → IsLegalLog log) }
{
    for log in logs {
        if !is_legal(log.class, log.gens, &log.log) {
            return false;
        }
    }
    true
}

/// The table of the logs, where no span has two logs and each is legal.
pub fn table_of_legal(alloc: Global, logs: &[SpanLog]) -> Result<Option<LogPlaces>, AllocError>
    ensures { IfOk result (λ table. MatchOption table (LogsAreLegal logs.now → ⊥)
        (λ table. LogsAreLegal logs.now × IsTable logs.now table)) }
{
    let Some(table) = table_of(alloc, logs)? else {
        return Ok(None);
    };
    if logs_are_legal(logs) {
        Ok(Some(table))
    } else {
        Ok(None)
    }
}
