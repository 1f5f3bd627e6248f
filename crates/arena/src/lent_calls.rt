//! Calls on a shard or a pool that is lent, as a lock lends it, and their answers.
//!
//! Each call here is one call of a shard or of the pool. Its answer says what that call answered,
//! and how many changes stood in the span's log before it: with the caller's worker and section,
//! that is what a receipt has, which an audit holds against the logs. No other module makes an
//! answer, so an answer comes from a shard or the pool, or from a span that is nowhere.
ghost use Rattle.std.specs.Prelude.{◌≡◌, ◌≤◌, ℕ, IfOk, IfSome, List, None, OnErr, false, is_some, length, option_map, take, true};
ghost use Rattle.span.specs.Classes.{IsObject};
ghost use Rattle.span.specs.PlainMap as plain;
ghost use Rattle.shard.specs.Calls.{FindsObject, Frees, Gets, Sets, value_found};
ghost use Rattle.shard.specs.Shown.{shown};
ghost use Rattle.shard.specs.Sound.{IsSound};
ghost use Rattle.pool.specs.Calls.{Frees as FreesPooled, Gets as GetsPooled, Sets as SetsPooled};
ghost use Rattle.pool.specs.Shown.{shown as shown_by_pool};
ghost use Rattle.pool.specs.Sound.{IsSound as IsSoundPool};
ghost use Rattle.arena.specs.Receipts.{IsFreeBy, free_receipt, get_receipt, put_receipt, set_receipt};
ghost use Rattle.arena.specs.KeyAnswers.{LooksUp, WritesFound, changes_at, free_answer, map_after_free, map_after_set, set_answer};

use crate::hints::Announced;
use crate::nowhere::Nowhere;
use crate::word::{Word, write_words};
use pool::Pool;
use shard::{Found, Freed, Replaced, Shard};
use span::names::{Key, Object};
use span::receipts::{Call, Receipt};
use span::spans::Log;
use std::alloc::AllocError;
use std::marker::Model;
use std::snapshot::Snapshot;

/// What a put answers that is not refused. In a clause it is the key, and how many changes stood in
/// its span's log before.
#[derive(Drop)]
pub struct Issued {
    key: Key,
    at: usize,
}

impl Model for Issued {
    ghost use Rattle.std.specs.Prelude.{ℕ};
    ghost use Rattle.span.specs.declared.key.Key.{Key};

    ghost Value = { Key × ℕ };

    ghost view = { λ issued. (issued.key, issued.at) };
}

impl Issued {
    // The key of a span that is counted, so that whoever is handed the key finds it.
    #[inline(always)]
    pub(crate) fn new(key: Key, at: usize, announced: &Announced) -> Issued
        requires { announced.now.id ≡ key.span }
        ensures { result ≡ (key, at) }
    {
        // For the prover: the key's span is counted.
        let _ = announced;
        Issued { key, at }
    }

    /// The key that the put gave out.
    #[inline(always)]
    pub fn key(&self) -> Key
        ensures { result ≡ self.now.0 }
    {
        self.key
    }

    /// How many changes stood in the log of the key's span before.
    #[inline(always)]
    pub fn at(&self) -> usize
        ensures { result ≡ self.now.1 }
    {
        self.at
    }

    /// The receipt of the put, which was of this object, by the worker in the section.
    pub fn receipt(&self, worker: u32, section: u64, value: Object) -> Receipt
        ensures { result ≡ put_receipt worker section value self.now.0 self.now.1 }
    {
        Receipt {
            worker,
            section,
            key: self.key,
            at: self.at,
            call: Call::Put { value },
        }
    }
}

/// What a look-up answers. In a clause it is the key, how many words its object has, if the key is
/// live, and how many changes stand in its span's log.
#[derive(Drop)]
pub struct Looked {
    // The key that was asked, which only proofs read: no call copies it for that.
    about: Snapshot<Key>,
    word_count: Option<usize>,
    at: usize,
}

impl Model for Looked {
    ghost use Rattle.std.specs.Prelude.{ℕ, Option};
    ghost use Rattle.span.specs.declared.key.Key.{Key};

    ghost Value = { Key × Option ℕ × ℕ };

    ghost view = { λ looked. (looked.about.value, looked.word_count, looked.at) };
}

impl Looked {
    // Nothing is found of a span that is nowhere, before its log's first change.
    #[inline(always)]
    pub(crate) fn nowhere(key: &Key, nowhere: Nowhere) -> Looked
        requires { nowhere.id ≡ key.now.span }
        ensures { result ≡ (key.now, None, 0) }
    {
        // For the prover: the key's span is nowhere.
        let _ = nowhere;
        Looked {
            about: Snapshot::of(key),
            word_count: None,
            at: 0,
        }
    }

    /// How many words the key's object has, or `None` if the key is not live.
    #[inline(always)]
    pub fn word_count(&self) -> Option<usize>
        ensures { result ≡ self.now.1 }
    {
        self.word_count
    }

    /// How many changes stand in the log of the key's span.
    #[inline(always)]
    pub fn at(&self) -> usize
        ensures { result ≡ self.now.2 }
    {
        self.at
    }

    /// The object whose words the look-up left in this room, which has place for any, if the key is
    /// live.
    pub fn object(&self, room: &[u128]) -> Option<Object>
        requires left { (before : List ℕ) × LooksUp (λ word. word) before self.now.1 room.now }
        requires long { 16 ≤ length room.now }
        ensures { result ≡ option_map (λ count. take count room.now) self.now.1 }
    {
        let count = self.word_count?;
        Some(first_words(count, room))
    }

    /// The receipt of the look-up, which was of this key and found this object, by the worker in
    /// the section.
    pub fn receipt(&self, worker: u32, section: u64, key: &Key, found: &Option<Object>) -> Receipt
        requires { self.now.0 ≡ key.now }
        ensures receipt { result ≡ get_receipt worker section key.now found.now self.now.2 }
    {
        Receipt {
            worker,
            section,
            key: *key,
            at: self.at,
            call: Call::look_up(*found),
        }
    }
}

// The object of the first words of the room, which are so many.
fn first_words(count: usize, room: &[u128]) -> Object
    requires { (count ≤ length room.now) × IsObject (take count room.now) }
    ensures { result ≡ take count room.now }
{
    Object::from_words(&room[..count])
}

/// What a set or a free answers. In a clause it is the key, whether it was done, and how many
/// changes stood in its span's log before.
#[derive(Drop)]
pub struct Outcome {
    // The key that was asked, which only proofs read: no call copies it for that.
    about: Snapshot<Key>,
    done: bool,
    at: usize,
}

impl Model for Outcome {
    ghost use Rattle.std.specs.Prelude.{Bool, ℕ};
    ghost use Rattle.span.specs.declared.key.Key.{Key};

    ghost Value = { Key × Bool × ℕ };

    ghost view = { λ outcome. (outcome.about.value, outcome.done, outcome.at) };
}

impl Outcome {
    // Nothing is done to a span that is nowhere, before its log's first change.
    #[inline(always)]
    pub(crate) fn nowhere(key: &Key, nowhere: Nowhere) -> Outcome
        requires { nowhere.id ≡ key.now.span }
        ensures { result ≡ (key.now, false, 0) }
    {
        // For the prover: the key's span is nowhere.
        let _ = nowhere;
        Outcome::new(key, false, 0)
    }

    // What was answered to the key.
    #[inline(always)]
    fn new(key: &Key, done: bool, at: usize) -> Outcome
        ensures { result ≡ (key.now, done, at) }
    {
        Outcome {
            about: Snapshot::of(key),
            done,
            at,
        }
    }

    /// Whether it was done.
    #[inline(always)]
    pub fn done(&self) -> bool
        ensures { result ≡ self.now.1 }
    {
        self.done
    }

    /// How many changes stood in the log of the key's span before.
    #[inline(always)]
    pub fn at(&self) -> usize
        ensures { result ≡ self.now.2 }
    {
        self.at
    }

    /// The receipt of the set, which was of this key to this object, by the worker in the section.
    pub fn set_receipt(&self, worker: u32, section: u64, key: &Key, value: Object) -> Receipt
        requires { self.now.0 ≡ key.now }
        ensures receipt { result ≡ set_receipt worker section key.now value self.now.1 self.now.2 }
        ensures own { result ≡ set_receipt worker section self.now.0 value self.now.1 self.now.2 }
    {
        Receipt {
            worker,
            section,
            key: *key,
            at: self.at,
            call: Call::set(value, self.done),
        }
    }

    /// The receipt of the free, which was of this key, by the worker in the section.
    // Inlined, its fields go where they are read, and the room for an object is neither made nor
    // copied.
    #[inline(always)]
    pub fn free_receipt(&self, worker: u32, section: u64, key: &Key) -> Receipt
        requires { self.now.0 ≡ key.now }
        ensures receipt { result ≡ free_receipt worker section key.now self.now.1 self.now.2 }
        ensures own { result ≡ free_receipt worker section self.now.0 self.now.1 self.now.2 }
        ensures free { IsFreeBy worker section key.now result }
    {
        Receipt {
            worker,
            section,
            key: *key,
            at: self.at,
            call: Call::free(self.done),
        }
    }
}

/// Looks the key up in the shard, as [`Shard::get`] does, and writes the words of what it finds
/// into the room, from its first place on, if there is room for all of them. The answer is `None`
/// exactly if the shard does not have the span. It takes no memory.
#[inline(always)]
pub fn get_in<L: Log, W: Word>(shard: &Shard<L>, key: &Key, room: &mut [W]) -> Option<Looked>
    ensures got { (what : Found) × Gets shard.now key.now what
        × (option_map (λ got. got.2) result ≡ changes_at what) }
    ensures key { IfSome result (λ got. got.0 ≡ key.now) }
    ensures words { IfSome result (λ got. WritesFound W.word ((shown shard.now).value_of key.now)
        room.old got.1 room.new) }
    ensures width { IfSome ((shown shard.now).value_of key.now) IsObject }
    ensures none { result ≡ None → room.new ≡ room.old }
    ensures sound { IsSound shard.now }
{
    written(key, shard.get(key), room)
}

/// Looks the key up in the pool, as [`get_in`] does in a shard.
#[inline(never)]
pub fn get_pool<L: Log, W: Word>(pool: &Pool<L>, key: &Key, room: &mut [W]) -> Option<Looked>
    ensures got { (what : Found) × GetsPooled pool.now key.now what
        × (option_map (λ got. got.2) result ≡ changes_at what) }
    ensures key { IfSome result (λ got. got.0 ≡ key.now) }
    ensures words { IfSome result (λ got. WritesFound W.word
        ((shown_by_pool pool.now).value_of key.now) room.old got.1 room.new) }
    ensures width { IfSome ((shown_by_pool pool.now).value_of key.now) IsObject }
    ensures none { result ≡ None → room.new ≡ room.old }
    ensures sound { IsSoundPool pool.now }
{
    written(key, pool.get(key), room)
}

// What was found of the key, with its words in the room if there is enough.
#[inline(always)]
fn written<W: Word>(key: &Key, found: Found<'_>, room: &mut [W]) -> Option<Looked>
    requires { FindsObject found }
    ensures got { option_map (λ got. got.2) result ≡ changes_at found.entry }
    ensures key { IfSome result (λ got. got.0 ≡ key.now) }
    ensures words { IfSome result (λ got. WritesFound W.word (value_found found.entry)
        room.old got.1 room.new) }
    ensures width { IfSome (value_found found.entry) IsObject }
    ensures none { result ≡ None → room.new ≡ room.old }
{
    match found {
        Found::Value(words, at) => {
            if words.len() <= room.len() {
                write_words(room, words);
            }
            Some(Looked {
                about: Snapshot::of(key),
                word_count: Some(words.len()),
                at,
            })
        }
        Found::Gone(at) => Some(Looked {
            about: Snapshot::of(key),
            word_count: None,
            at,
        }),
        Found::NotHere => None,
    }
}

/// Sets the key's object to these words in the shard, in place, as [`Shard::set`] does. The answer
/// is `None` exactly if the shard does not have the span.
///
/// # Errors
///
/// As that of [`Shard::set`]: `AllocError` in place of a set that would be done, if the span's log
/// could not grow. The shard is then as it was.
#[inline(always)]
pub fn set_in<L: Log>(
    shard: &mut Shard<L>,
    key: &Key,
    words: &[u128],
) -> Result<Option<Outcome>, AllocError>
    ensures set { IfOk result (λ set. (what : Replaced)
        × Sets shard.old key.now words.now what shard.new × (set ≡ set_answer key.now what)) }
    ensures key { IfOk result (λ set. IfSome set (λ outcome. outcome.0 ≡ key.now)) }
    ensures done { IfOk result (λ set. IfSome set (λ outcome. outcome.1
        ≡ plain.may_set (shown shard.old) key.now words.now)) }
    ensures plain { IfOk result (λ set. shown shard.new
        ≡ map_after_set (shown shard.old) key.now words.now set) }
    ensures sound { IsSound shard.new }
    ensures refused { OnErr result (plain.may_set (shown shard.old) key.now words.now ≡ true) }
    ensures err { OnErr result (shard.new ≡ shard.old) }
{
    let replaced = shard.set(key, words)?;
    Ok(outcome_of_set(key, replaced))
}

/// Sets the key's object to these words in the pool, as [`set_in`] does in a shard.
///
/// # Errors
///
/// As that of [`Pool::set`]: `AllocError` in place of a set that would be done, if the span's log
/// could not grow. The pool is then as it was.
#[inline(never)]
pub fn set_pool<L: Log>(
    pool: &mut Pool<L>,
    key: &Key,
    words: &[u128],
) -> Result<Option<Outcome>, AllocError>
    ensures set { IfOk result (λ set. (what : Replaced)
        × SetsPooled pool.old key.now words.now what pool.new × (set ≡ set_answer key.now what)) }
    ensures key { IfOk result (λ set. IfSome set (λ outcome. outcome.0 ≡ key.now)) }
    ensures done { IfOk result (λ set. IfSome set (λ outcome. outcome.1
        ≡ plain.may_set (shown_by_pool pool.old) key.now words.now)) }
    ensures plain { IfOk result (λ set. shown_by_pool pool.new
        ≡ map_after_set (shown_by_pool pool.old) key.now words.now set) }
    ensures sound { IsSoundPool pool.new }
    ensures refused { OnErr result (plain.may_set (shown_by_pool pool.old) key.now words.now
        ≡ true) }
    ensures err { OnErr result (pool.new ≡ pool.old) }
{
    let replaced = pool.set(key, words)?;
    Ok(outcome_of_set(key, replaced))
}

/// Frees the key in the shard, as [`Shard::free`] does. The answer is `None` exactly if the shard
/// does not have the span. It takes no memory.
#[inline(always)]
pub fn free_in<L: Log>(shard: &mut Shard<L>, key: &Key) -> Option<Outcome>
    ensures freed { (what : Freed) × Frees shard.old key.now what shard.new
        × (result ≡ free_answer key.now what) }
    ensures key { IfSome result (λ outcome. outcome.0 ≡ key.now) }
    ensures done { IfSome result (λ outcome. outcome.1
        ≡ is_some ((shown shard.old).value_of key.now)) }
    ensures plain { shown shard.new ≡ map_after_free (shown shard.old) key.now result }
    ensures sound { IsSound shard.new }
{
    outcome_of_free(key, shard.free(key))
}

/// Frees the key in the pool, as [`free_in`] does in a shard.
#[inline(never)]
pub fn free_pool<L: Log>(pool: &mut Pool<L>, key: &Key) -> Option<Outcome>
    ensures freed { (what : Freed) × FreesPooled pool.old key.now what pool.new
        × (result ≡ free_answer key.now what) }
    ensures key { IfSome result (λ outcome. outcome.0 ≡ key.now) }
    ensures done { IfSome result (λ outcome. outcome.1
        ≡ is_some ((shown_by_pool pool.old).value_of key.now)) }
    ensures plain { shown_by_pool pool.new
        ≡ map_after_free (shown_by_pool pool.old) key.now result }
    ensures sound { IsSoundPool pool.new }
{
    outcome_of_free(key, pool.free(key))
}

// What a set came to, if the span is there.
#[inline(always)]
fn outcome_of_set(key: &Key, replaced: Replaced) -> Option<Outcome>
    ensures told { result ≡ set_answer key.now replaced }
    ensures key { IfSome result (λ outcome. outcome.0 ≡ key.now) }
{
    match replaced {
        Replaced::Yes(at) => Some(Outcome::new(key, true, at)),
        Replaced::No(at) => Some(Outcome::new(key, false, at)),
        Replaced::NotHere => None,
    }
}

// What a free came to, if the span is there.
#[inline(always)]
fn outcome_of_free(key: &Key, freed: Freed) -> Option<Outcome>
    ensures told { result ≡ free_answer key.now freed }
    ensures key { IfSome result (λ outcome. outcome.0 ≡ key.now) }
{
    match freed {
        Freed::Yes(at) => Some(Outcome::new(key, true, at)),
        Freed::No(at) => Some(Outcome::new(key, false, at)),
        Freed::NotHere => None,
    }
}
