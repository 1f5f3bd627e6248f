// The table by which a span's log is found.
ghost use Rattle.std.specs.Prelude.{◌≡◌, ◌<◌, false, true, IfNone, IfOk, IfSome, IsTrue, MatchOption, Some, ℕ, length, slice_get, slice_index_or};
ghost use Rattle.span.specs.Ids.{rank, same_span};
ghost use Rattle.audit.specs.Agreement.{HaveOneSpanEach};
ghost use Rattle.audit.specs.Tables.{AreByRank, ArePlaces, AreSortedFrom, HasNoneTwice, HasTwice, HasNoLog, IsLogAt, IsTable};
ghost use Rattle.audit.specs.declared.log.LogPlace.{LogPlace};

use span::names::{MOST_SHARDS, SpanId};
use span::spans::SpanLog;
use std::alloc::{AllocError, Global};

/// Where the log of a span stands.
#[derive(Clone, Copy)]
pub struct LogPlace {
    span: SpanId,
    log: usize,
}

/// Where the log of each span stands, of the spans that have one.
#[derive(Drop)]
pub struct LogPlaces {
    // By the ranks of the spans.
    by_rank: Vec<LogPlace>,
    // By shard, where the first span of the shard stands among them. Guesses are made of it, and no
    // answer rests on it.
    firsts: Vec<usize>,
}

impl LogPlaces {
    // Where the span stands, if the spans that its shard opened before all have a log.
    fn guess(&self, span: SpanId) -> usize {
        let first = self.firsts.get(span.shard as usize).copied().unwrap_or(0);
        first.saturating_add(span.serial as usize)
    }
}

// Where each log stands, in order.
fn places_of(alloc: Global, logs: &[SpanLog]) -> Result<Vec<LogPlace>, AllocError>
    ensures { IfOk result (λ places. ArePlaces logs.now places.items) }
{
    let mut places = Vec::with_capacity(alloc, logs.len())?;
    for log in 0..logs.len() {
        places.push_reserved(LogPlace {
            span: logs[log].span,
            log,
        });
    }
    Ok(places)
}

// Puts places in order of the ranks of their spans.
fn sort(places: &mut Vec<LogPlace>)
    ensures { AreSortedFrom places.old.items places.new.items }
{
    places.sort_unstable_by_key(|place| place.span.rank());
}

fn is_same(a: SpanId, b: SpanId) -> bool
    ensures { result ≡ same_span a b }
{
    a.shard == b.shard && a.serial == b.serial
}

// Whether some span stands twice, one place behind the other.
fn has_twice(places: &[LogPlace]) -> bool
    ensures yes { IsTrue result → HasTwice places.now }
    ensures no { result ≡ false → HasNoneTwice places.now }
{
    for k in 1..places.len() {
        if is_same(places[k - 1].span, places[k].span) {
            return true;
        }
    }
    false
}

// By shard, where its first span stands.
fn firsts_of(alloc: Global, places: &[LogPlace]) -> Result<Vec<usize>, AllocError> {
    let mut firsts = vec![in alloc; 0usize; MOST_SHARDS as usize]?;
    for k in (0..places.len()).rev() {
        if let Some(first) = firsts.get_mut(places[k].span.shard as usize) {
            *first = k;
        }
    }
    Ok(firsts)
}

/// Where the log of each span stands. `None` where a span has two.
pub fn table_of(alloc: Global, logs: &[SpanLog]) -> Result<Option<LogPlaces>, AllocError>
    ensures { IfOk result (λ table. MatchOption table (HaveOneSpanEach logs.now → ⊥)
        (IsTable logs.now)) }
{
    let mut by_rank = places_of(alloc, logs)?;
    sort(&mut by_rank);
    if has_twice(by_rank.as_slice()) {
        return Ok(None);
    }
    let firsts = firsts_of(alloc, by_rank.as_slice())?;
    Ok(Some(LogPlaces { by_rank, firsts }))
}

// Whether the span stands at the place.
fn is_at(places: &[LogPlace], k: usize, span: SpanId) -> bool
    ensures within { IsTrue result → k < length places.now }
    ensures here { IsTrue result → (d : LogPlace)
        → same_span (slice_index_or places.now k d).span span ≡ true }
{
    if places.len() <= k {
        return false;
    }
    is_same(places[k].span, span)
}

// The place of the span, found by halving.
fn search(places: &[LogPlace], span: SpanId) -> Option<usize>
    requires { AreByRank places.now }
    ensures within { IfSome result (λ k. k < length places.now) }
    ensures found { IfSome result (λ k. (d : LogPlace)
        → same_span (slice_index_or places.now k d).span span ≡ true) }
    ensures none { IfNone result ((k : ℕ) (place : LogPlace) → slice_get places.now k ≡ Some place
        → same_span place.span span ≡ false) }
{
    places
        .binary_search_by_key(
            &span.rank(),
            |place: &LogPlace| -> u64
                ensures { result ≡ rank place.now.span }
            { place.span.rank() },
        )
        .ok()
}

// The place of the span. The guess is tried before a search.
fn place_of(places: &[LogPlace], span: SpanId, guess: usize) -> Option<usize>
    requires { AreByRank places.now }
    ensures within { IfSome result (λ k. k < length places.now) }
    ensures found { IfSome result (λ k. (d : LogPlace)
        → same_span (slice_index_or places.now k d).span span ≡ true) }
    ensures none { IfNone result ((k : ℕ) (place : LogPlace) → slice_get places.now k ≡ Some place
        → same_span place.span span ≡ false) }
{
    if is_at(places, guess, span) {
        return Some(guess);
    }
    search(places, span)
}

/// The index of the span's log, if it has one.
pub fn index_of(logs: &[SpanLog], table: &LogPlaces, span: SpanId) -> Option<usize>
    requires { IsTable logs.now table.now }
    ensures within { IfSome result (λ j. j < length logs.now) }
    ensures found { MatchOption result (HasNoLog logs.now span) (IsLogAt logs.now span) }
{
    let k = place_of(table.by_rank.as_slice(), span, table.guess(span))?;
    Some(table.by_rank[k].log)
}
