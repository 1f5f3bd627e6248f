// Compaction of a core, by calls that each take a part of it.
ghost use Rattle.std.specs.Prelude.{◌≡◌, IsSome, None};
ghost use Rattle.compaction.specs.declared.advanced.Advanced.TheVariants as advanced;
ghost use Rattle.teurlaks_c.specs.Compacting.{Advances, Compacts, GivesUp, MayCompact, SaysAdvanced, SaysStanding};
ghost use Rattle.teurlaks_c.specs.Status.{done, no_core};

use crate::handle::Handle;
use crate::keys::raw_span;
use crate::meshing::no_span;
use crate::replies::{AdvanceReply, CompactReply};
use crate::status::{NO_CORE, OK, status_of};
use compaction::{Advanced, Compacted, Standing, Taken};
use span::names::SpanId;

/// Takes steps of the compaction of the core up to the budget, at least one, and counts the pages
/// that went.
/// Where `more` is 1 a further call goes on; where it is 0 the compaction is done, no plan is open,
/// and a further call begins anew. A retirement of some groups takes as much of the budget as they
/// are, each other step takes one. All keys are what they were.
///
/// Refused with `OUT_OF_MEMORY`, or with `PLAN_OPEN` while a plan of the caller is open. The steps
/// before that were taken, and a further call tries the refused one again. The certificate of the
/// last mark that the caller made is kept.
#[unsafe(no_mangle)]
pub extern "C" fn teurlaks_compact_within(handle: &mut Handle, budget: usize) -> CompactReply
    ensures live { IsSome handle.old.held → Compacts handle.old.held budget result
        handle.new.held }
    ensures none { handle.old.held ≡ None → (result.status ≡ no_core) × (result.more ≡ 0)
        × (result.pages ≡ 0) × (handle.new.held ≡ None) }
{
    let Some(held) = handle.held() else {
        return CompactReply {
            status: NO_CORE,
            more: 0,
            pages: 0,
        };
    };
    compact_reply(held.compaction.go_on(&mut held.core, budget))
}

/// Compacts the core until that is done, if at least so many percent of its pages could go, and
/// else does nothing. So it may be asked as often as one likes. How many could go is known from
/// counts alone, without as many as the last compaction has left that could have gone by these. A
/// compaction that is under way goes on.
///
/// Refused as [`teurlaks_compact_within`] is, and `more` is then 1.
#[unsafe(no_mangle)]
pub extern "C" fn teurlaks_compact_if_pays(handle: &mut Handle, percent: usize) -> CompactReply
    ensures live { IsSome handle.old.held → MayCompact handle.old.held result handle.new.held }
    ensures none { handle.old.held ≡ None → (result.status ≡ no_core) × (result.more ≡ 0)
        × (result.pages ≡ 0) × (handle.new.held ≡ None) }
{
    let Some(held) = handle.held() else {
        return CompactReply {
            status: NO_CORE,
            more: 0,
            pages: 0,
        };
    };
    compact_reply(held.compaction.go_on_if_pays(&mut held.core, percent))
}

// What C reads of it.
fn compact_reply(done: Compacted) -> CompactReply
    ensures standing { SaysStanding result done.standing }
    ensures pages { result.pages ≡ done.pages }
{
    let (status, more) = match done.standing {
        Standing::GoesOn => (OK, 1),
        Standing::Done => (OK, 0),
        Standing::Refused(refusal) => (status_of(refusal), 1),
    };
    CompactReply {
        status,
        more,
        pages: done.pages,
    }
}

/// Takes one step of the compaction of the core, which takes no more than `left` of a budget, or 1,
/// and says what it cost. So a caller that keeps something beside each page takes the steps of a
/// call one by one: where `folded` is 1 the group of `abandoned` is on the page of that of `owned`
/// now, and its own page is gone; else each group is on the page that it had. The plans of a round
/// compare at most 4,096 times `budget` pairs of groups. `more`, refusals and the certificate are
/// as of [`teurlaks_compact_within`].
#[unsafe(no_mangle)]
pub extern "C" fn teurlaks_compaction_step(
    handle: &mut Handle,
    left: usize,
    budget: usize,
) -> AdvanceReply
    ensures live { IsSome handle.old.held → Advances handle.old.held left result
        handle.new.held }
    ensures none { handle.old.held ≡ None → (result.status ≡ no_core) × (result.more ≡ 0)
        × (result.folded ≡ 0) × (handle.new.held ≡ None) }
{
    let Some(held) = handle.held() else {
        return unadvanced(NO_CORE, 0, 0);
    };
    advance_reply(held.compaction.step(&mut held.core, left, budget))
}

/// Gives the compaction of the core up where it is: a plan that it has opened is closed, and a
/// further call begins anew. Groups that it has retired stay in the pool, until shards adopt them.
#[unsafe(no_mangle)]
pub extern "C" fn teurlaks_compaction_give_up(handle: &mut Handle) -> u32
    ensures live { IsSome handle.old.held → (result ≡ done)
        × GivesUp handle.old.held handle.new.held }
    ensures none { handle.old.held ≡ None → (result ≡ no_core) × (handle.new.held ≡ None) }
{
    let Some(held) = handle.held() else {
        return NO_CORE;
    };
    held.compaction.give_up(&mut held.core);
    OK
}

// What C reads of a step.
fn advance_reply(taken: Taken) -> AdvanceReply
    ensures says { SaysAdvanced result taken.advanced }
    ensures cost { result.cost ≡ taken.cost }
{
    match taken.advanced {
        Advanced::Folded(abandoned, owned) => folded(taken.cost, abandoned, owned),
        Advanced::Went => unadvanced(OK, 1, taken.cost),
        Advanced::Done => unadvanced(OK, 0, taken.cost),
        Advanced::Refused(refusal) => unadvanced(status_of(refusal), 1, taken.cost),
    }
}

fn folded(cost: usize, abandoned: SpanId, owned: SpanId) -> AdvanceReply
    ensures says { SaysAdvanced result (advanced.Folded abandoned owned) }
    ensures cost { result.cost ≡ cost }
{
    AdvanceReply {
        status: OK,
        more: 1,
        cost,
        folded: 1,
        abandoned: raw_span(abandoned),
        owned: raw_span(owned),
    }
}

// A step that folded nothing.
fn unadvanced(status: u32, more: u32, cost: usize) -> AdvanceReply
    ensures status { result.status ≡ status }
    ensures more { result.more ≡ more }
    ensures cost { result.cost ≡ cost }
    ensures folded { result.folded ≡ 0 }
{
    AdvanceReply {
        status,
        more,
        cost,
        folded: 0,
        abandoned: no_span(),
        owned: no_span(),
    }
}
