// What the report tells of the core's replies.
ghost use Rattle.std.specs.Prelude.{◌≡◌, OnOk, IfOk, Ok};
ghost use Rattle.trace_runner.specs.Recalls.{IsPutServed, IsServed, IsSetServed, MeetsPlan, reply_to_put};
ghost use Rattle.trace_runner.specs.Answers.{answer_told, put_told};
ghost use Rattle.trace_runner.specs.Runs.{IsTold};
ghost use Rattle.arena_core.specs.declared.event.Event.{Event};
ghost use Rattle.arena_core.specs.declared.reply.Reply.TheVariants as reply;

use crate::replies::{answer_to_free, answer_to_set};
use crate::report::{Answer, Other};
use arena_core::{Refusal, Reply};
use span::names::{Key, Object};
use std::alloc::AllocError;

/// What the report tells of the reply to a call.
pub(super) fn answer_to(reply: Reply) -> Result<Answer, AllocError>
    requires { IsServed reply }
    ensures told { (event : Event) → MeetsPlan event reply → OnOk result (IsTold event reply) }
    ensures answer { IfOk result (λ answer. answer ≡ answer_told reply) }
{
    match reply {
        Reply::Issued(key) => Ok(Answer::Key(key)),
        Reply::Found(found) => Ok(answer_to_look_up(found)),
        Reply::Replaced(replaced) => Ok(answer_to_set(replaced)),
        Reply::Freed(freed) => Ok(answer_to_free(freed)),
        Reply::Sent => Ok(Answer::Other(Other::Sent)),
        Reply::ShardEnded => Ok(Answer::Other(Other::Ended)),
        Reply::ShardBegun => Ok(Answer::Other(Other::Begun)),
        Reply::Retired(count) => Ok(Answer::Other(Other::Retired(count))),
        Reply::Trimmed(count) => Ok(Answer::Other(Other::Trimmed(count))),
        Reply::Adopted(head) => Ok(Answer::Other(Other::Adopted(head))),
        Reply::Refused(refusal) => answer_to_refusal(refusal),
        // The others come of events that rings and plans are asked by.
        Reply::Settled(_) | Reply::Marked(_) | Reply::Stepped(..) => unreachable!(),
        Reply::NoPairLeft | Reply::Closed | Reply::NoPlan => unreachable!(),
    }
}

/// What the report tells of a refusal: only that of a page, that of an adoption which finds
/// nothing, that of a full ring and that of a retirement while a plan is open. Running out of
/// memory ends the run.
fn answer_to_refusal(refusal: Refusal) -> Result<Answer, AllocError>
    requires { IsServed (reply.Refused refusal) }
    ensures told { (event : Event) → MeetsPlan event (reply.Refused refusal)
        → OnOk result (IsTold event (reply.Refused refusal)) }
    ensures answer { IfOk result (λ answer. answer ≡ answer_told (reply.Refused refusal)) }
{
    match refusal {
        Refusal::PagesSpent => Ok(Answer::Other(Other::PagesSpent)),
        Refusal::NothingToAdopt => Ok(Answer::Other(Other::NothingToAdopt)),
        Refusal::RingFull => Ok(Answer::Other(Other::RingFull)),
        Refusal::PlanOpen => Ok(Answer::Other(Other::PlanOpen)),
        Refusal::OutOfMemory => Err(AllocError),
        // A trace asks for its own shards alone, for none that has ended but to begin it, and for a
        // mark by another way.
        Refusal::Ended | Refusal::Running => unreachable!(),
        Refusal::TooMany | Refusal::Config => unreachable!(),
    }
}

/// The key that a put gave out; none where its shard may have no further page. Running out of
/// memory ends the run.
pub(super) fn key_of_put(put: Result<Key, Refusal>) -> Result<Option<Key>, AllocError>
    requires { IsPutServed put }
    ensures told { (event : Event) → OnOk result (IsTold event (reply_to_put put)) }
    ensures key { IfOk result (λ key. put_told key ≡ answer_told (reply_to_put put)) }
{
    match put {
        Ok(key) => Ok(Some(key)),
        Err(Refusal::PagesSpent) => Ok(None),
        Err(Refusal::OutOfMemory) => Err(AllocError),
        // A line puts into a shard of its trace, which runs, and no other refusal comes of that.
        Err(_) => unreachable!(),
    }
}

/// Whether a set was done. Running out of memory ends the run.
pub(super) fn was_replaced(set: Result<bool, Refusal>) -> Result<bool, AllocError>
    requires { IsSetServed set }
    ensures { IfOk result (λ replaced. set ≡ Ok replaced) }
{
    match set {
        Ok(replaced) => Ok(replaced),
        Err(Refusal::OutOfMemory) => Err(AllocError),
        // No other refusal comes of a set.
        Err(_) => unreachable!(),
    }
}

/// What the report tells of a look-up.
fn answer_to_look_up(found: Option<Object>) -> Answer
    ensures { result ≡ answer_told (reply.Found found) }
{
    match found {
        Some(object) => Answer::Value(object),
        None => Answer::Absent,
    }
}
