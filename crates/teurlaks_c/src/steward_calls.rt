// What is asked of the steward of a handle, and what it answers.
ghost use Rattle.std.specs.Prelude.{◌≡◌, Some};
ghost use Rattle.certificate.specs.Text.{IsWritable};
ghost use Rattle.teurlaks_c.specs.declared.share.StewardAndMark.{StewardAndMark};
ghost use Rattle.teurlaks_c.specs.Calls.{CountsOf, kept};
ghost use Rattle.teurlaks_c.specs.StewardCalls.{Asks, Closes, GathersPooled, Keeps, Marks, TakesStep};

use crate::held::Witness;
use crate::meshing::marked;
use crate::recorded::RecordedSteward;
use crate::replies::MarkReply;
use crate::share::{Share, SharedSteward, StewardAndMark};
use crate::share_handle::ShareHandle;
use arena::{Arena, Busy, NoGate, Stepped, Totals};
use certificate::Certificate;
use marks::MarkError;
use span::spans::Log;
use std::alloc::{AllocError, Global};
use std::mem::replace;

/// A call of a steward.
pub(crate) trait StewardCall {
    /// What the steward answers.
    type Answer;

    /// What it does.
    ghost does: { Self → StewardAndMark → Self.Answer → StewardAndMark → Type 0 };

    /// Makes the call.
    fn ask<L: Log>(&self, arena: &Arena<NoGate, L>, inner: &mut StewardAndMark) -> Self::Answer
        requires { inner.old.steward.limits ≡ arena.now.limits }
        ensures limits { inner.new.steward.limits ≡ inner.old.steward.limits }
        ensures does { does self.now inner.old result inner.new };
}

/// Asks the steward of the handle, where it has one.
pub(crate) fn at_steward<C: StewardCall>(
    alloc: Global,
    handle: &mut ShareHandle,
    call: &C,
) -> Option<C::Answer>
    ensures { Asks (C.does call.now) handle.old.share result handle.new.share }
{
    let Some(mut share) = replace(handle, ShareHandle::none()).into_box(alloc) else {
        return None;
    };
    let answer = ask_share(&mut *share, call);
    *handle = ShareHandle::of(share);
    answer
}

// Asks the steward, where that is what is shared.
fn ask_share<C: StewardCall>(share: &mut Share, call: &C) -> Option<C::Answer>
    ensures { Asks (C.does call.now) (Some share.old) result (Some share.new) }
{
    match share {
        Share::Steward(steward) => Some(ask_steward(steward, call)),
        Share::RecordedSteward(steward) => Some(ask_recorded_steward(steward, call)),
        _ => None,
    }
}

// Asks the steward.
fn ask_steward<C: StewardCall>(shared: &mut SharedSteward, call: &C) -> C::Answer
    ensures arena { shared.new.arena ≡ shared.old.arena }
    ensures seats { shared.new.seats ≡ shared.old.seats }
    ensures does { C.does call.now shared.old.inner result shared.new.inner }
{
    call.ask(&*shared.arena, &mut shared.inner)
}

// Asks the steward of a recorded arena.
fn ask_recorded_steward<C: StewardCall>(shared: &mut RecordedSteward, call: &C) -> C::Answer
    ensures arena { shared.new.arena ≡ shared.old.arena }
    ensures seats { shared.new.seats ≡ shared.old.seats }
    ensures does { C.does call.now shared.old.inner result shared.new.inner }
{
    call.ask(&*shared.arena, &mut shared.inner)
}

/// A mark of all groups.
#[derive(Drop)]
pub(crate) struct Mark;

impl StewardCall for Mark {
    type Answer = Result<Result<MarkReply, MarkError>, Busy>;

    ghost does = { λ call. Marks };

    fn ask<L: Log>(
        &self,
        arena: &Arena<NoGate, L>,
        inner: &mut StewardAndMark,
    ) -> Result<Result<MarkReply, MarkError>, Busy> {
        match arena.try_mark(&mut inner.steward)? {
            Ok(certificate) => Ok(Ok(keep(&mut inner.last, certificate))),
            Err(refusal) => Ok(Err(refusal)),
        }
    }
}

/// A mark of the sparsest groups.
#[derive(Drop)]
pub(crate) struct MarkSome;

impl StewardCall for MarkSome {
    type Answer = Result<Result<MarkReply, MarkError>, Busy>;

    ghost does = { λ call. Marks };

    fn ask<L: Log>(
        &self,
        arena: &Arena<NoGate, L>,
        inner: &mut StewardAndMark,
    ) -> Result<Result<MarkReply, MarkError>, Busy> {
        match arena.try_mark_some(&mut inner.steward)? {
            Ok(certificate) => Ok(Ok(keep(&mut inner.last, certificate))),
            Err(refusal) => Ok(Err(refusal)),
        }
    }
}

/// The next step.
#[derive(Drop)]
pub(crate) struct Step;

impl StewardCall for Step {
    type Answer = Result<Result<Stepped, AllocError>, Busy>;

    ghost does = { λ call. TakesStep };

    fn ask<L: Log>(
        &self,
        arena: &Arena<NoGate, L>,
        inner: &mut StewardAndMark,
    ) -> Result<Result<Stepped, AllocError>, Busy> {
        arena.try_step(&mut inner.steward)
    }
}

/// The close of the open plan.
#[derive(Drop)]
pub(crate) struct Close;

impl StewardCall for Close {
    type Answer = Result<bool, Busy>;

    ghost does = { λ call. Closes };

    fn ask<L: Log>(
        &self,
        arena: &Arena<NoGate, L>,
        inner: &mut StewardAndMark,
    ) -> Result<bool, Busy> {
        arena.try_close(&mut inner.steward)
    }
}

/// A gathering of up to that many groups of the pool.
#[derive(Drop)]
pub(crate) struct GatherPool {
    pub(crate) from: usize,
    pub(crate) most: usize,
}

impl StewardCall for GatherPool {
    type Answer = Result<Result<usize, AllocError>, Busy>;

    ghost does = { λ call. GathersPooled call.most };

    fn ask<L: Log>(
        &self,
        arena: &Arena<NoGate, L>,
        _inner: &mut StewardAndMark,
    ) -> Result<Result<usize, AllocError>, Busy> {
        arena.try_gather_pool(self.from, self.most)
    }
}

/// Pages and live keys.
#[derive(Drop)]
pub(crate) struct CountAll;

impl StewardCall for CountAll {
    type Answer = Result<Totals, Busy>;

    ghost does = { λ call. Keeps };

    fn ask<L: Log>(
        &self,
        arena: &Arena<NoGate, L>,
        _inner: &mut StewardAndMark,
    ) -> Result<Totals, Busy> {
        arena.try_totals()
    }
}

// Keeps the certificate of the mark, and makes the reply for C.
fn keep(last: &mut Option<Witness>, certificate: Certificate) -> MarkReply
    requires { IsWritable certificate }
    ensures counts { CountsOf result certificate }
    ensures keeps { kept last.new ≡ Some certificate }
{
    let says = marked(&certificate);
    drop(replace(last, Some(Witness { certificate })));
    says
}
