// The calls on a key: a look-up, a set and a free.
ghost use Rattle.std.specs.Prelude.{◌≡◌, IfOk};
ghost use Rattle.arena.specs.KeyCalls.{FindsNothing, FreesIn, FreesInPool, FreesNothing, LooksUpIn, LooksUpPooled, SetsIn, SetsInPool, SetsNothing};
ghost use Rattle.arena.specs.KeyAnswers.{LooksUp};

use crate::calling::KeyCall;
use crate::lent_calls::{Looked, Outcome, free_in, free_pool, get_in, get_pool, set_in, set_pool};
use crate::nowhere::Nowhere;
use crate::word::Word;
use pool::Pool;
use shard::Shard;
use span::names::{Key, SpanId};
use span::spans::Log;
use std::alloc::AllocError;

/// A look-up of the key, whose words go into the room.
#[derive(Drop)]
pub(crate) struct Get<'a> {
    pub(crate) key: &'a Key,
}

impl<W: Word> KeyCall<W> for Get<'_> {
    type Answer = Looked;

    ghost id = { λ call. call.key.now.span };

    ghost in_shard_does = { λ call. LooksUpIn W.word call.key.now };

    ghost in_pool_does = { λ call. LooksUpPooled W.word call.key.now };

    ghost nowhere_is = { λ call. FindsNothing call.key.now };

    ghost does = { λ call before answer after. (answer.0 ≡ call.key.now)
        × LooksUp W.word before answer.1 after };

    #[inline(always)]
    fn span(&self) -> SpanId {
        self.key.span
    }

    #[inline(always)]
    fn in_shard<L: Log>(&self, shard: &mut Shard<L>, room: &mut [W]) -> Option<Looked> {
        get_in(&*shard, self.key, room)
    }

    #[inline(never)]
    fn in_pool<L: Log>(&self, pool: &mut Pool<L>, room: &mut [W]) -> Option<Looked> {
        get_pool(&*pool, self.key, room)
    }

    #[inline(always)]
    fn nowhere(&self, nowhere: Nowhere, _room: &mut [W]) -> Looked {
        Looked::nowhere(self.key, nowhere)
    }
}

/// A set of the key to these words, in place.
#[derive(Drop)]
pub(crate) struct Set<'a> {
    pub(crate) key: &'a Key,
    pub(crate) words: &'a [u128],
}

impl KeyCall<u128> for Set<'_> {
    type Answer = Result<Outcome, AllocError>;

    ghost id = { λ call. call.key.now.span };

    ghost in_shard_does = { λ call old before answer new after.
        SetsIn call.key.now call.words.now old answer new × (after ≡ before) };

    ghost in_pool_does = { λ call old before answer new after.
        SetsInPool call.key.now call.words.now old answer new × (after ≡ before) };

    ghost nowhere_is = { λ call. SetsNothing call.key.now };

    ghost does = { λ call _ answer _. IfOk answer (λ set. set.0 ≡ call.key.now) };

    #[inline(always)]
    fn span(&self) -> SpanId {
        self.key.span
    }

    #[inline(always)]
    fn in_shard<L: Log>(
        &self,
        shard: &mut Shard<L>,
        _room: &mut [u128],
    ) -> Option<Result<Outcome, AllocError>> {
        set_in(shard, self.key, self.words).transpose()
    }

    #[inline(never)]
    fn in_pool<L: Log>(
        &self,
        pool: &mut Pool<L>,
        _room: &mut [u128],
    ) -> Option<Result<Outcome, AllocError>> {
        set_pool(pool, self.key, self.words).transpose()
    }

    #[inline(always)]
    fn nowhere(&self, nowhere: Nowhere, _room: &mut [u128]) -> Result<Outcome, AllocError> {
        Ok(Outcome::nowhere(self.key, nowhere))
    }
}

/// A free of the key.
#[derive(Drop)]
pub(crate) struct Free<'a> {
    pub(crate) key: &'a Key,
}

impl KeyCall<u128> for Free<'_> {
    type Answer = Outcome;

    ghost id = { λ call. call.key.now.span };

    ghost in_shard_does = { λ call old before answer new after.
        FreesIn call.key.now old answer new × (after ≡ before) };

    ghost in_pool_does = { λ call old before answer new after.
        FreesInPool call.key.now old answer new × (after ≡ before) };

    ghost nowhere_is = { λ call. FreesNothing call.key.now };

    ghost does = { λ call _ answer _. answer.0 ≡ call.key.now };

    #[inline(always)]
    fn span(&self) -> SpanId {
        self.key.span
    }

    #[inline(always)]
    fn in_shard<L: Log>(&self, shard: &mut Shard<L>, _room: &mut [u128]) -> Option<Outcome> {
        free_in(shard, self.key)
    }

    #[inline(never)]
    fn in_pool<L: Log>(&self, pool: &mut Pool<L>, _room: &mut [u128]) -> Option<Outcome> {
        free_pool(pool, self.key)
    }

    #[inline(always)]
    fn nowhere(&self, nowhere: Nowhere, _room: &mut [u128]) -> Outcome {
        Outcome::nowhere(self.key, nowhere)
    }
}
