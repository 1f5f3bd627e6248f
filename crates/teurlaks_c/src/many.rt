// Many puts, look-ups and frees by one call, which tests the handle once.
ghost use Rattle.std.specs.Prelude.{◌≡◌, IsSome, None, Some, length, take};
ghost use Rattle.teurlaks_c.specs.Many.{Changes, FreesAll, FreesRaw, GetsAll, GetsRaw, PutsEach, PutsMany, objects_of};
ghost use Rattle.teurlaks_c.specs.Status.{done, no_core};

use crate::calls::got;
use crate::handle::Handle;
use crate::keys::{key_of, raw_of};
use crate::replies::{GetReply, ManyReply, RawKey, RawWord};
use crate::status::{NO_CORE, OK, status_of};
use crate::words::value_of;
use arena_core::Core;
use span::names::Class;
use span::spans::Counted;

/// Keeps an object of one word for each of the words in the shard, in their order, as so many calls
/// of `teurlaks_put` do, and leaves their keys in `keys`, in the same order. It stops where `words`
/// or `keys` end, and at the first put that is refused.
///
/// It answers how many were put, with `OK`, or with why the next one was refused, as `teurlaks_put`
/// is; those before it stand, and nothing else of `keys` is written.
#[unsafe(no_mangle)]
pub extern "C" fn teurlaks_put_many(
    handle: &mut Handle,
    shard: u32,
    words: &[RawWord],
    keys: &mut [RawKey],
) -> ManyReply
    ensures live { IsSome handle.old.held → Changes handle.old.held
        (PutsEach shard words.now keys.old result keys.new) handle.new.held }
    ensures none { handle.old.held ≡ None → (result.status ≡ no_core) × (result.count ≡ 0)
        × (keys.new ≡ keys.old) × (handle.new.held ≡ None) }
{
    let Some(held) = handle.held() else {
        return without_core();
    };
    put_all(&mut held.core, shard, words, keys)
}

/// Frees each of the keys that is live, in their order, as so many calls of `teurlaks_free` do, and
/// answers how many were live. It takes no memory.
#[unsafe(no_mangle)]
pub extern "C" fn teurlaks_free_many(handle: &mut Handle, keys: &[RawKey]) -> ManyReply
    ensures live { IsSome handle.old.held → (result.status ≡ done) × Changes handle.old.held
        (λ old new. FreesAll old keys.now result.count new) handle.new.held }
    ensures none { handle.old.held ≡ None → (result.status ≡ no_core) × (result.count ≡ 0)
        × (handle.new.held ≡ None) }
{
    let Some(held) = handle.held() else {
        return without_core();
    };
    ManyReply {
        status: OK,
        count: free_all(&mut held.core, keys),
    }
}

/// Leaves at each place of `replies` what `teurlaks_get` answers for the key at that place of
/// `keys`, as far as both go, and answers how many were looked up. Nothing else changes.
#[unsafe(no_mangle)]
pub extern "C" fn teurlaks_get_many(
    handle: &mut Handle,
    keys: &[RawKey],
    replies: &mut [GetReply],
) -> ManyReply
    ensures live { IsSome handle.old.held → (result.status ≡ done) × Changes handle.old.held
        (λ old new. (new ≡ old) × GetsAll old keys.now replies.old replies.new) handle.new.held }
    ensures none { handle.old.held ≡ None → (result.status ≡ no_core) × (result.count ≡ 0)
        × (replies.new ≡ replies.old) × (handle.new.held ≡ None) }
{
    let Some(held) = handle.held() else {
        return without_core();
    };
    get_all(&held.core, keys, replies);
    ManyReply {
        status: OK,
        count: keys.len().min(replies.len()),
    }
}

// The answer for a handle that has no core.
fn without_core() -> ManyReply
    ensures { (result.status ≡ no_core) × (result.count ≡ 0) }
{
    ManyReply {
        status: NO_CORE,
        count: 0,
    }
}

// Puts an object for each word, and leaves its key, as far as both go.
fn put_all(
    core: &mut Core<Counted>,
    shard: u32,
    words: &[RawWord],
    keys: &mut [RawKey],
) -> ManyReply
    ensures { PutsMany core.old shard (take (length keys.old) (objects_of words.now)) keys.old
        result keys.new core.new }
{
    let count = words.len().min(keys.len());
    for place in 0..count {
        match core.put_words(shard, Class::C16, &[value_of(words[place])]) {
            Ok(key) => keys[place] = raw_of(key),
            Err(refusal) => {
                return ManyReply {
                    status: status_of(refusal),
                    count: place,
                };
            }
        }
    }
    ManyReply { status: OK, count }
}

// Frees each key, and counts those that were live.
fn free_all(core: &mut Core<Counted>, keys: &[RawKey]) -> usize
    ensures { FreesAll core.old keys.now result core.new }
{
    let mut count = 0;
    for raw in keys {
        if free_raw(core, *raw) {
            count += 1;
        }
    }
    count
}

// Frees the key of these numbers, and says whether it was live.
#[inline(always)]
fn free_raw(core: &mut Core<Counted>, raw: RawKey) -> bool
    ensures { FreesRaw core.old raw result core.new }
{
    match key_of(raw) {
        Some(key) => core.free(&key),
        None => false,
    }
}

// Leaves what a look-up of each key answers, as far as both go.
fn get_all(core: &Core<Counted>, keys: &[RawKey], replies: &mut [GetReply])
    ensures { GetsAll core.now keys.now replies.old replies.new }
{
    let count = keys.len().min(replies.len());
    for place in 0..count {
        replies[place] = get_raw(core, keys[place]);
    }
}

// What a look-up of the key of these numbers answers.
#[inline(always)]
fn get_raw(core: &Core<Counted>, raw: RawKey) -> GetReply
    ensures { GetsRaw core.now raw result }
{
    match key_of(raw) {
        Some(key) => got(core.get(&key)),
        None => got(None),
    }
}
