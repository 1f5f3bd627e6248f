// A core from its beginning to its end, and the calls on keys.
ghost use Rattle.std.specs.Prelude.{◌≡◌, ◌↔◌, ◌⊎◌, ◌∷◌, [], IfSome, IsSome, None, Some, length, option_map};
ghost use Rattle.span.specs.Classes.{IsObject, width_of};
ghost use Rattle.marks.specs.Numbers.{AreWithin, limits_of};
ghost use Rattle.teurlaks_c.specs.Numbers.{limits_given, limits_with};
ghost use Rattle.teurlaks_c.specs.Calls.{Counts, Estimates, Frees, FreesKey, Gets, GetsKey, GetsWords, HasNew, Nexts, NextsInSpan, Puts, PutsWords, SaysGot, SaysNext, SaysWords, Sets, SetsKey, SetsWords};
ghost use Rattle.teurlaks_c.specs.Words.{word_of, words_of};
ghost use Rattle.teurlaks_c.specs.Status.{config, has_core, no_core, out_of_memory};

use crate::handle::Handle;
use crate::held::Held;
use crate::keys::{key_of, raw_of, span_of};
use crate::limits::limits_for;
use crate::replies::{
    GetReply, NextReply, PutReply, RawKey, RawSpan, RawWord, TotalsReply, WordsReply,
};
use crate::status::{CONFIG, HAS_CORE, NO_CORE, NONE, OK, OUT_OF_MEMORY, TOO_SMALL, status_of};
use crate::words::{class_for, join_all, raw_word, value_of, write_words};
use arena_core::Core;
use bitmap::SLOTS;
use marks::Limits;
use span::names::{Class, Key, MOST_SPANS};
use std::alloc::Global;
use std::mem::replace;

/// Leaves a new core to the handle, which has none yet: of `shards` shards, 1 to 64, each of up to
/// `page_limit` pages of 4,096 bytes, 1 to 1,048,576, with rings of `ring_capacity` keys, 1 to
/// 1,024, each slot of which is given the generations from 1 to `gens`, at least 1.
///
/// `HAS_CORE` comes exactly where the handle has a core already. Where it has none, `CONFIG` comes
/// exactly where a number is out of its range, and `OUT_OF_MEMORY` only where each is within it.
/// Where the status is not `OK` the handle is as it was.
#[unsafe(no_mangle)]
pub extern "C" fn teurlaks_new(
    alloc: Global,
    out: &mut Handle,
    shards: u32,
    page_limit: u32,
    ring_capacity: u32,
    gens: u32,
) -> u32
    ensures ok { result ≡ 0 → HasNew (limits_of shards page_limit ring_capacity gens) out.new.held }
    ensures refused { (result ≡ 0 → ⊥) → out.new.held ≡ out.old.held }
    ensures config { out.old.held ≡ None → (result ≡ config)
        ↔ (AreWithin (limits_of shards page_limit ring_capacity gens) → ⊥) }
    ensures taken { (result ≡ has_core) ↔ IsSome out.old.held }
{
    teurlaks_new_with_spans(
        alloc,
        out,
        shards,
        page_limit,
        MOST_SPANS,
        ring_capacity,
        gens,
    )
}

/// As `teurlaks_new`, of a core each shard of which opens up to `span_limit` spans in its life, 1
/// to 4,294,967,295: so no key has another serial than one below that.
#[unsafe(no_mangle)]
pub extern "C" fn teurlaks_new_with_spans(
    alloc: Global,
    out: &mut Handle,
    shards: u32,
    page_limit: u32,
    span_limit: u32,
    ring_capacity: u32,
    gens: u32,
) -> u32
    ensures ok { result ≡ 0 → HasNew
        (limits_given shards page_limit span_limit ring_capacity gens) out.new.held }
    ensures refused { (result ≡ 0 → ⊥) → out.new.held ≡ out.old.held }
    ensures config { out.old.held ≡ None → (result ≡ config)
        ↔ (AreWithin (limits_given shards page_limit span_limit ring_capacity gens) → ⊥) }
    ensures taken { (result ≡ has_core) ↔ IsSome out.old.held }
{
    teurlaks_new_with_slots(
        alloc,
        out,
        shards,
        page_limit,
        span_limit,
        SLOTS as u32,
        ring_capacity,
        gens,
    )
}

/// As `teurlaks_new_with_spans`, of a core whose puts take only the lowest `slot_limit` slots of a
/// page, 1 to 256. Pages with fewer slots in use share memory with others more often.
#[unsafe(no_mangle)]
pub extern "C" fn teurlaks_new_with_slots(
    alloc: Global,
    out: &mut Handle,
    shards: u32,
    page_limit: u32,
    span_limit: u32,
    slot_limit: u32,
    ring_capacity: u32,
    gens: u32,
) -> u32
    ensures ok { result ≡ 0 → HasNew
        (limits_with shards page_limit span_limit slot_limit ring_capacity gens) out.new.held }
    ensures refused { (result ≡ 0 → ⊥) → out.new.held ≡ out.old.held }
    ensures config { out.old.held ≡ None → (result ≡ config)
        ↔ (AreWithin (limits_with shards page_limit span_limit slot_limit ring_capacity gens) → ⊥) }
    ensures taken { (result ≡ has_core) ↔ IsSome out.old.held }
{
    if !out.is_null() {
        return HAS_CORE;
    }
    let found = limits_for(
        shards,
        page_limit,
        span_limit,
        slot_limit,
        ring_capacity,
        gens,
    );
    let Some(limits) = found else {
        return CONFIG;
    };
    leave_core(alloc, out, limits)
}

// Leaves a new core of these numbers to the handle, which has none yet.
fn leave_core(alloc: Global, out: &mut Handle, limits: Limits) -> u32
    requires { out.old.held ≡ None }
    ensures ok { result ≡ 0 → HasNew limits out.new.held }
    ensures refused { (result ≡ 0 → ⊥) → out.new.held ≡ None }
    ensures only { (result ≡ 0) ⊎ (result ≡ out_of_memory) }
{
    let held = Held::new(Core::with_limits(alloc, limits));
    match Box::new(alloc, held) {
        Ok(held) => {
            *out = Handle::of(held);
            OK
        }
        Err(_) => OUT_OF_MEMORY,
    }
}

/// Gives the memory of the core back, where the handle has one. It then has none.
#[unsafe(no_mangle)]
pub extern "C" fn teurlaks_drop(alloc: Global, handle: &mut Handle)
    ensures { handle.new.held ≡ None }
{
    drop(replace(handle, Handle::none()).into_box(alloc));
}

/// Keeps an object of one word in the shard, and answers its key, which was never given out before.
/// Refused with `PAGES_SPENT`, `ENDED`, `CONFIG` or `OUT_OF_MEMORY` as [`Core::put`] is; nothing
/// has changed then.
#[unsafe(no_mangle)]
pub extern "C" fn teurlaks_put(handle: &mut Handle, shard: u32, value: RawWord) -> PutReply
    ensures live { IsSome handle.old.held → Puts handle.old.held shard (word_of value ∷ []) result
        handle.new.held }
    ensures none { handle.old.held ≡ None → (result.status ≡ no_core) × (handle.new.held ≡ None) }
{
    put(handle, shard, Class::C16, &[value_of(value)])
}

/// Keeps an object of 1 to 16 words in the shard, as [`teurlaks_put`] does with one word. Where
/// the words are none or more than 16, it answers `CONFIG`, and nothing has changed.
#[unsafe(no_mangle)]
pub extern "C" fn teurlaks_put_words(handle: &mut Handle, shard: u32, words: &[RawWord]) -> PutReply
    ensures live { IsSome handle.old.held → PutsWords handle.old.held shard (words_of words.now)
        result handle.new.held }
    ensures none { handle.old.held ≡ None → (result.status ≡ no_core) × (handle.new.held ≡ None) }
{
    match words {
        [word] => put_one(handle, shard, *word),
        [first, second] => put_two(handle, shard, *first, *second),
        _ => put_wider(handle, shard, words),
    }
}

/// The word of the key, where it is live and has an object of one word. `NONE` where it is not
/// live, and `TOO_SMALL` where its object has more words. Nothing changes.
#[unsafe(no_mangle)]
pub extern "C" fn teurlaks_get(handle: &mut Handle, key: RawKey) -> GetReply
    ensures live { IsSome handle.old.held → Gets handle.old.held key result handle.new.held }
    ensures none { handle.old.held ≡ None → (result.status ≡ no_core) × (word_of result.value ≡ 0)
        × (handle.new.held ≡ None) }
{
    let Some(key) = key_of(key) else {
        return GetReply {
            value: raw_word(0),
            status: or_no_core(NONE, handle),
        };
    };
    get(handle, &key)
}

/// Writes the words of the key's object, where it is live, into `words`, from its first on, and
/// answers how many they are. `NONE` where it is not live, and `TOO_SMALL` where there is no room
/// for that many: nothing was written then. The core stays as it is.
#[unsafe(no_mangle)]
pub extern "C" fn teurlaks_get_words(
    handle: &mut Handle,
    key: RawKey,
    words: &mut [RawWord],
) -> WordsReply
    ensures live { IsSome handle.old.held → GetsWords handle.old.held key words.old result words.new
        handle.new.held }
    ensures none { handle.old.held ≡ None → (result.status ≡ no_core) × (result.len ≡ 0)
        × (words.new ≡ words.old) × (handle.new.held ≡ None) }
{
    let Some(key) = key_of(key) else {
        return WordsReply {
            status: or_no_core(NONE, handle),
            len: 0,
        };
    };
    get_words(handle, &key, words)
}

/// Sets the key to the object of this word, where it is live and has an object of one word, which
/// `OK` says; else it answers `NONE`. Refused with `OUT_OF_MEMORY` as [`Core::set`] is; nothing has
/// changed then.
#[unsafe(no_mangle)]
pub extern "C" fn teurlaks_set(handle: &mut Handle, key: RawKey, value: RawWord) -> u32
    ensures live { IsSome handle.old.held → Sets handle.old.held key (word_of value ∷ []) result
        handle.new.held }
    ensures none { handle.old.held ≡ None → (result ≡ no_core) × (handle.new.held ≡ None) }
{
    let Some(key) = key_of(key) else {
        return or_no_core(NONE, handle);
    };
    set(handle, &key, &[value_of(value)])
}

/// Sets the key to the object of 1 to 16 words, as [`teurlaks_set`] does with one word, where it is
/// live and its object has as many. Where the words are none or more than 16, it answers `CONFIG`,
/// and nothing has changed.
#[unsafe(no_mangle)]
pub extern "C" fn teurlaks_set_words(handle: &mut Handle, key: RawKey, words: &[RawWord]) -> u32
    ensures live { IsSome handle.old.held → SetsWords handle.old.held key (words_of words.now)
        result handle.new.held }
    ensures none { handle.old.held ≡ None → (result ≡ no_core) × (handle.new.held ≡ None) }
{
    let Some(_) = class_for(words) else {
        return or_no_core(CONFIG, handle);
    };
    let Some(key) = key_of(key) else {
        return or_no_core(NONE, handle);
    };
    let mut room = [0; 16];
    let values = &mut room[..words.len()];
    join_all(values, words);
    set(handle, &key, values)
}

/// Frees the key, where it is live, which `OK` says; else it answers `NONE`, and nothing changes.
/// It takes no memory.
#[unsafe(no_mangle)]
pub extern "C" fn teurlaks_free(handle: &mut Handle, key: RawKey) -> u32
    ensures live { IsSome handle.old.held → Frees handle.old.held key result handle.new.held }
    ensures none { handle.old.held ≡ None → (result ≡ no_core) × (handle.new.held ≡ None) }
{
    let Some(key) = key_of(key) else {
        return or_no_core(NONE, handle);
    };
    free(handle, &key)
}

/// The live key that comes next after this one, by the ids of spans and then by slots, as
/// [`Core::next_live`] answers it; the first one where no key has these numbers, as where all are
/// 0. `NONE` says that no live key is left. Nothing changes.
#[unsafe(no_mangle)]
pub extern "C" fn teurlaks_next(handle: &mut Handle, after: RawKey) -> NextReply
    ensures live { IsSome handle.old.held → Nexts handle.old.held after result handle.new.held }
    ensures none { handle.old.held ≡ None → (result.status ≡ no_core) × (handle.new.held ≡ None) }
{
    let Some(held) = handle.held() else {
        return NextReply {
            status: NO_CORE,
            key: no_key(),
        };
    };
    next_reply(held.core.next_live(key_of(after)))
}

/// The first live key of the span at a slot from this one on, wherever the span is, as
/// [`Core::first_in_span`] answers it. `NONE` says that no such key is live, as of numbers that no
/// span has. Nothing changes.
#[unsafe(no_mangle)]
pub extern "C" fn teurlaks_next_in_span(handle: &mut Handle, span: RawSpan, slot: u32) -> NextReply
    ensures live { IsSome handle.old.held
        → NextsInSpan handle.old.held span slot result handle.new.held }
    ensures none { handle.old.held ≡ None → (result.status ≡ no_core) × (handle.new.held ≡ None) }
{
    let Some(held) = handle.held() else {
        return NextReply {
            status: NO_CORE,
            key: no_key(),
        };
    };
    let Some(id) = span_of(span) else {
        return next_reply(None);
    };
    next_reply(held.core.first_in_span(id, slot))
}

/// How many pages there are, and how many keys are live. Nothing changes.
#[unsafe(no_mangle)]
pub extern "C" fn teurlaks_totals(handle: &mut Handle) -> TotalsReply
    ensures live { IsSome handle.old.held → Counts handle.old.held result handle.new.held }
    ensures none { handle.old.held ≡ None → (result.pages ≡ 0) × (result.live ≡ 0)
        × (handle.new.held ≡ None) }
{
    let Some(held) = handle.held() else {
        return TotalsReply { pages: 0, live: 0 };
    };
    let totals = held.core.totals();
    TotalsReply {
        pages: totals.pages,
        live: totals.live,
    }
}

/// About how many pages there are, and how many keys are live: exactly as many as
/// `teurlaks_totals` says of up to 4,096 groups. Of more it looks at one of each so many, so that
/// it takes no longer. Nothing changes.
#[unsafe(no_mangle)]
pub extern "C" fn teurlaks_estimate(handle: &mut Handle) -> TotalsReply
    ensures live { IsSome handle.old.held
        → Estimates handle.old.held result handle.new.held }
    ensures none { handle.old.held ≡ None → (result.pages ≡ 0) × (result.live ≡ 0)
        × (handle.new.held ≡ None) }
{
    let Some(held) = handle.held() else {
        return TotalsReply { pages: 0, live: 0 };
    };
    let estimate = held.core.estimate();
    TotalsReply {
        pages: estimate.pages,
        live: estimate.live,
    }
}

// The core keeps the object of these words.
#[inline(always)]
fn put(handle: &mut Handle, shard: u32, class: Class, words: &[u128]) -> PutReply
    requires width { length words.now ≡ width_of class }
    ensures live { IsSome handle.old.held → Puts handle.old.held shard words.now result
        handle.new.held }
    ensures none { handle.old.held ≡ None → (result.status ≡ no_core) × (handle.new.held ≡ None) }
{
    let Some(held) = handle.held() else {
        return PutReply {
            status: NO_CORE,
            key: no_key(),
        };
    };
    match held.core.put_words(shard, class, words) {
        Ok(key) => PutReply {
            status: OK,
            key: raw_of(key),
        },
        Err(refusal) => PutReply {
            status: status_of(refusal),
            key: no_key(),
        },
    }
}

// The core keeps the object of this word. Of the narrowest objects the class is known, and their
// words need no room but their own.
#[inline(always)]
fn put_one(handle: &mut Handle, shard: u32, word: RawWord) -> PutReply
    ensures live { IsSome handle.old.held → PutsWords handle.old.held shard (words_of (word ∷ []))
        result handle.new.held }
    ensures none { handle.old.held ≡ None → (result.status ≡ no_core) × (handle.new.held ≡ None) }
{
    put(handle, shard, Class::C16, &[value_of(word)])
}

// The core keeps the object of these two words.
#[inline(always)]
fn put_two(handle: &mut Handle, shard: u32, first: RawWord, second: RawWord) -> PutReply
    ensures live { IsSome handle.old.held → PutsWords handle.old.held shard
        (words_of (first ∷ second ∷ [])) result handle.new.held }
    ensures none { handle.old.held ≡ None → (result.status ≡ no_core) × (handle.new.held ≡ None) }
{
    put(
        handle,
        shard,
        Class::C32,
        &[value_of(first), value_of(second)],
    )
}

// The core keeps the object of these words, whichever class has as many. What it answers has a
// place in memory of its own, so that what the puts above answer needs none.
#[inline(always)]
fn put_wider(handle: &mut Handle, shard: u32, words: &[RawWord]) -> PutReply
    ensures live { IsSome handle.old.held → PutsWords handle.old.held shard (words_of words.now)
        result handle.new.held }
    ensures none { handle.old.held ≡ None → (result.status ≡ no_core) × (handle.new.held ≡ None) }
{
    let PutReply { status, key } = put_wide(handle, shard, words);
    PutReply { status, key }
}

// The same, with room for the widest object.
#[inline(never)]
fn put_wide(handle: &mut Handle, shard: u32, words: &[RawWord]) -> PutReply
    ensures live { IsSome handle.old.held → PutsWords handle.old.held shard (words_of words.now)
        result handle.new.held }
    ensures none { handle.old.held ≡ None → (result.status ≡ no_core) × (handle.new.held ≡ None) }
{
    let Some(class) = class_for(words) else {
        return PutReply {
            status: or_no_core(CONFIG, handle),
            key: no_key(),
        };
    };
    let mut room = [0; 16];
    let values = &mut room[..words.len()];
    join_all(values, words);
    put(handle, shard, class, values)
}

// The core looks the key up, for its word.
#[inline(always)]
fn get(handle: &mut Handle, key: &Key) -> GetReply
    ensures live { IsSome handle.old.held → GetsKey handle.old.held key.now (SaysGot result)
        handle.new.held }
    ensures none { handle.old.held ≡ None → (result.status ≡ no_core) × (word_of result.value ≡ 0)
        × (handle.new.held ≡ None) }
{
    let Some(held) = handle.held() else {
        return GetReply {
            value: raw_word(0),
            status: NO_CORE,
        };
    };
    got(held.core.get(key))
}

// The core looks the key up, and its words are written into the room.
fn get_words(handle: &mut Handle, key: &Key, room: &mut [RawWord]) -> WordsReply
    ensures live { IsSome handle.old.held → GetsKey handle.old.held key.now
        (SaysWords room.old result room.new) handle.new.held }
    ensures none { handle.old.held ≡ None → (result.status ≡ no_core) × (result.len ≡ 0)
        × (room.new ≡ room.old) × (handle.new.held ≡ None) }
{
    let Some(held) = handle.held() else {
        return WordsReply {
            status: NO_CORE,
            len: 0,
        };
    };
    tell(held.core.get(key), room)
}

// The core sets the key to the object of these words.
fn set(handle: &mut Handle, key: &Key, words: &[u128]) -> u32
    ensures live { IsSome handle.old.held → SetsKey handle.old.held key.now words.now result
        handle.new.held }
    ensures none { handle.old.held ≡ None → (result ≡ no_core) × (handle.new.held ≡ None) }
{
    let Some(held) = handle.held() else {
        return NO_CORE;
    };
    match held.core.set(key, words) {
        Ok(done) => { if done { OK } else { NONE } }
        Err(refusal) => status_of(refusal),
    }
}

// The core frees the key.
#[inline(always)]
fn free(handle: &mut Handle, key: &Key) -> u32
    ensures live { IsSome handle.old.held → FreesKey handle.old.held key.now result
        handle.new.held }
    ensures none { handle.old.held ≡ None → (result ≡ no_core) × (handle.new.held ≡ None) }
{
    let Some(held) = handle.held() else {
        return NO_CORE;
    };
    if held.core.free(key) { OK } else { NONE }
}

// The status of a call that needs no core for its answer, or `NO_CORE`.
pub(crate) fn or_no_core(status: u32, handle: &mut Handle) -> u32
    ensures same { handle.new.held ≡ handle.old.held }
    ensures live { IsSome handle.old.held → result ≡ status }
    ensures none { handle.old.held ≡ None → result ≡ no_core }
{
    if handle.is_null() { NO_CORE } else { status }
}

// The key that comes next, as C has it.
fn next_reply(found: Option<Key>) -> NextReply
    ensures { SaysNext result found }
{
    let Some(key) = found else {
        return NextReply {
            status: NONE,
            key: no_key(),
        };
    };
    NextReply {
        status: OK,
        key: raw_of(key),
    }
}

// What was found, as C has it where it wants one word.
#[inline(always)]
pub(crate) fn got(found: Option<&[u128]>) -> GetReply
    requires { IfSome found (λ words. IsObject words.now) }
    ensures { SaysGot result (option_map (λ words. words.now) found.entry) }
{
    let (value, status) = match found {
        Some([word]) => (*word, OK),
        Some(_) => (0, TOO_SMALL),
        None => (0, NONE),
    };
    GetReply {
        value: raw_word(value),
        status,
    }
}

// What was found, as C has it, with its words in the room where there is enough.
pub(crate) fn tell(found: Option<&[u128]>, room: &mut [RawWord]) -> WordsReply
    ensures { SaysWords room.old result room.new (option_map (λ words. words.now) found.entry) }
{
    let Some(words) = found else {
        return WordsReply {
            status: NONE,
            len: 0,
        };
    };
    let len = words.len();
    if len > room.len() {
        return WordsReply {
            status: TOO_SMALL,
            len,
        };
    }
    write_words(room, words);
    WordsReply { status: OK, len }
}

// What stands for a key where there is none: generation 0 is never given out.
pub(crate) fn no_key() -> RawKey {
    RawKey {
        serial: 0,
        generation: 0,
        shard: 0,
        slot: 0,
        reserved: 0,
    }
}
