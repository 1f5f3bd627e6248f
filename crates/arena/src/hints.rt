// Where each span may be, in memory that does not grow with the spans that are opened.
ghost use Rattle.std.specs.Prelude.{◌≡◌, ◌*◌, ◌+◌, ◌<◌, ◌≤◌, ◌^◌, ◌↔◌, IfSome, None, vec_len};
ghost use Rattle.arena.specs.Hints.{IsPlace, IsSomewhere, hint_word, place_code};
ghost use Rattle.span.specs.declared.limits.TheConstants.{MOST_SHARDS};

use crate::nowhere::Nowhere;
use shard::Shard;
use span::names::{MOST_SPANS, SpanId};
use span::spans::Log;
use std::alloc::{AllocError, Global};
use std::sync::atomic::Ordering::SeqCst;
use std::sync::atomic::{AtomicIn, Rule};

// How many hints of a shard's spans are kept for each page that the shard may have. A power of two.
const HINTS_A_PAGE: usize = 4;

// For how many pages of a shard hints are kept at most: 512 KB a shard, whatever number of pages it
// may have.
const MOST_HINTED_PAGES: usize = 16_384;

// How many serials there are: the serial stands in the lower half of a hint's word.
const SERIALS: u64 = 1 << 32;

// The word that says nothing.
const NO_HINT: u64 = 0;

/// Where a span may be.
#[derive(Clone, Copy, PartialEq, Eq)]
pub(crate) enum Place {
    /// Nowhere, for now or for good: it was not opened yet, or it was forgotten.
    Nowhere,
    /// In the pool.
    Pool,
    /// In the shard of this number.
    Shard(u32),
}

/// What a word says: in which place the span of the serial may be.
#[derive(Clone, Copy)]
pub(crate) struct Hint {
    pub(crate) serial: u32,
    pub(crate) place: Place,
}

/// The rule of a count of the spans that a shard has opened, whoever writes it.
#[derive(Clone, Copy)]
pub(crate) struct OpenedCount;

impl Rule for OpenedCount {
    ghost invariant = { λ word. word ≤ 2 ^ 32 };
}

/// The rule of a hint's word, whoever writes it: in its upper half stands a code of the place, of
/// which there are 67, or 0 if it says nothing.
#[derive(Clone, Copy)]
pub(crate) struct HintWord;

impl Rule for HintWord {
    ghost invariant = { λ word. word < 67 * 2 ^ 32 };
}

/// That a span was counted by its first put, so that others find its keys. Only this module makes
/// one.
#[derive(Drop)]
pub(crate) struct Announced {
    id: SpanId,
}

impl Announced {
    /// A span whose log has so many changes was counted by its first put.
    #[inline(always)]
    pub(crate) fn before(id: SpanId, at: usize) -> Announced
        requires { 0 < at }
        ensures { result.id ≡ id }
    {
        // For the prover: the log has a change.
        let _ = at;
        Announced { id }
    }
}

/// How many spans each shard has opened, and where some of them may be. The first is exact, since
/// the first put of a span counts it before its key is handed out: a serial that was not counted is
/// of no span. The second is a hint, in a table of fixed size for each shard, in which a serial
/// shares its word with others. Another thread may move the span before the hint is followed, so
/// its reader looks whether the span is there; and if no word speaks of a serial, its span
/// may be in the shard that opened it. A word says 'nowhere' only of a span that was forgotten,
/// which never comes back ([`Nowhere`]).
#[derive(Drop)]
pub(crate) struct Hints {
    // By shard.
    opened: Vec<AtomicIn<OpenedCount>>,
    // By shard, and then by the last bits of a serial.
    words: Vec<Vec<AtomicIn<HintWord>>>,
    // These bits.
    mask: u32,
    ghost few: { vec_len opened ≤ MOST_SHARDS },
}

impl Hints {
    /// Those of that many shards, of that many pages each, which have opened no span. Of a shard of
    /// more than [`MOST_HINTED_PAGES`] pages more spans share a word, since the table is made
    /// whole.
    pub(crate) fn new(alloc: Global, shards: u32, page_limit: usize) -> Result<Hints, AllocError>
        requires few { shards ≤ MOST_SHARDS }
    {
        let size = (page_limit.min(MOST_HINTED_PAGES) * HINTS_A_PAGE).next_power_of_two();
        let mut opened = Vec::with_capacity(alloc, shards as usize)?;
        let mut words = Vec::with_capacity(alloc, shards as usize)?;
        for _ in 0..shards {
            opened.push_reserved(AtomicIn::new(0));
            words.push_reserved(no_hints(alloc, size)?);
        }
        Ok(Hints {
            opened,
            words,
            mask: size as u32 - 1,
        })
    }

    /// Where the span may be: two loads. It is nowhere if it was not opened, as one of a shard
    /// that is not of this arena.
    #[inline]
    pub(crate) fn place_of(&self, id: SpanId) -> Place
        ensures { IsPlace result }
    {
        let SpanId { shard, serial } = id;
        let Some(opened) = self.opened.get(shard as usize) else {
            return Place::Nowhere;
        };
        if u64::from(serial) >= opened.load(SeqCst) {
            return Place::Nowhere;
        }
        match self.hint_of(id) {
            Some(hint) => hint.place,
            None => Place::Shard(shard),
        }
    }

    /// How many spans the shard of this number has opened, or 4,294,967,295 if that is more: no
    /// key has a greater serial. None if there is no such shard.
    pub(crate) fn opened_by(&self, shard: u32) -> u32 {
        match self.opened.get(shard as usize) {
            Some(opened) => opened.load(SeqCst).min(u64::from(MOST_SPANS)) as u32,
            None => 0,
        }
    }

    /// Says from now on that the span is opened, with all that its shard opened before it.
    #[inline]
    pub(crate) fn count_opened(&self, id: SpanId) -> Announced
        ensures { result.id ≡ id }
    {
        let SpanId { shard, serial } = id;
        if let Some(opened) = self.opened.get(shard as usize) {
            opened.store(u64::from(serial) + 1, SeqCst);
        }
        Announced { id }
    }

    /// Says from now on that the span may be in this place, if that is not what is said. Of a span
    /// in the shard that opened it no word speaks.
    pub(crate) fn note(&self, id: SpanId, place: Place)
        requires { IsSomewhere place }
    {
        self.write(id, place);
    }

    /// Says from now on that the span is nowhere, as it is.
    pub(crate) fn note_nowhere(&self, nowhere: &Nowhere) {
        self.write(nowhere.id(), Place::Nowhere);
    }

    // Says from now on that the span may be in this place, or nowhere, if that is not what is said.
    fn write(&self, id: SpanId, place: Place)
        requires { IsPlace place }
    {
        if self.place_of(id) == place {
            return;
        }
        let SpanId { shard, serial } = id;
        let Some(word) = self.word_of(id) else {
            return;
        };
        let says = if place == Place::Shard(shard) {
            NO_HINT
        } else {
            word_from(Hint { serial, place })
        };
        word.store(says, SeqCst);
    }

    /// Says so of all spans of the head's group, if the shard has it.
    pub(crate) fn note_group<L: Log>(&self, shard: &Shard<L>, head: SpanId, place: Place)
        requires { IsSomewhere place }
    {
        if let Some(group) = shard.brief(head) {
            for at in 0..group.spans {
                if let Some(id) = shard.span_at(head, at) {
                    self.note(id, place);
                }
            }
        }
    }

    // The hint of this span, if there is one: its word may speak of another.
    #[inline]
    fn hint_of(&self, id: SpanId) -> Option<Hint>
        ensures { IfSome result (λ hint. IsPlace hint.place) }
    {
        let word = self.word_of(id)?;
        let hint = hint_from(word.load(SeqCst))?;
        if hint.serial == id.serial {
            Some(hint)
        } else {
            None
        }
    }

    // The word that may speak of the span. A shard that is not of this arena has none.
    #[inline]
    fn word_of(&self, id: SpanId) -> Option<&AtomicIn<HintWord>> {
        let SpanId { shard, serial } = id;
        let words = self.words.get(shard as usize)?;
        words.get((serial & self.mask) as usize)
    }
}

// That many words, which say nothing.
fn no_hints(alloc: Global, size: usize) -> Result<Vec<AtomicIn<HintWord>>, AllocError> {
    let mut words = Vec::with_capacity(alloc, size)?;
    for _ in 0..size {
        words.push_reserved(AtomicIn::new(NO_HINT));
    }
    Ok(words)
}

// What the word says, or `None` if it says nothing.
#[inline]
fn hint_from(word: u64) -> Option<Hint>
    requires { word < 67 * 2 ^ 32 }
    ensures place { IfSome result (λ hint. IsPlace hint.place) }
    ensures said { IfSome result (λ hint. hint_word hint ≡ word) }
    ensures none { result ≡ None → word < 2 ^ 32 }
{
    let place = place_from(word / SERIALS)?;
    let serial = (word % SERIALS) as u32;
    Some(Hint { serial, place })
}

// The word that says this.
#[inline]
fn word_from(hint: Hint) -> u64
    requires { IsPlace hint.place }
    ensures said { result ≡ hint_word hint }
    ensures rule { result < 67 * 2 ^ 32 }
{
    let Hint { serial, place } = hint;
    code_from(place) * SERIALS + u64::from(serial)
}

// The place that the code names, or `None` for 0, which names none.
#[inline]
fn place_from(code: u64) -> Option<Place>
    requires { code < 67 }
    ensures place { IfSome result IsPlace }
    ensures code { IfSome result (λ place. place_code place ≡ code) }
    ensures none { (result ≡ None) ↔ (code ≡ 0) }
{
    match code {
        0 => None,
        1 => Some(Place::Nowhere),
        2 => Some(Place::Pool),
        _ => Some(Place::Shard(code as u32 - 3)),
    }
}

// The code that names the place.
#[inline]
fn code_from(place: Place) -> u64
    requires { IsPlace place }
    ensures code { result ≡ place_code place }
    ensures few { result < 67 }
{
    match place {
        Place::Nowhere => 1,
        Place::Pool => 2,
        Place::Shard(number) => 3 + u64::from(number),
    }
}
