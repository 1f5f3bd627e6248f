//! Writes answers, a line for each.

ghost use Rattle.std.specs.Prelude.{◌≡◌, ◌++◌, OnOk};
ghost use Rattle.std.specs.List.{flat_map};
ghost use Rattle.trace_runner.specs.Report.{answer_text, answers_text, line_of_answer, number_word, other_text};

use crate::report::{Answer, LineAnswer, Other};
use crate::writing::{push_id, push_key, push_number};
use std::alloc::AllocError;

fn push_number_word(out: &mut Vec<u8>, number: u128) -> Result<(), AllocError>
    ensures { OnOk result (out.new.items ≡ out.old.items ++ number_word number) }
{
    out.extend_from_slice(b" ")?;
    push_number(out, number)
}

fn push_number_words(out: &mut Vec<u8>, numbers: &[u128]) -> Result<(), AllocError>
    ensures { OnOk result (out.new.items ≡ out.old.items ++ flat_map number_word numbers.now) }
{
    for number in numbers {
        push_number_word(out, *number)?;
    }
    Ok(())
}

fn push_other(out: &mut Vec<u8>, other: &Other) -> Result<(), AllocError>
    ensures { OnOk result (out.new.items ≡ out.old.items ++ other_text other.now) }
{
    match other {
        Other::PagesSpent => out.extend_from_slice(b"refused pages"),
        Other::Unbound => out.extend_from_slice(b"unbound"),
        Other::Ended => out.extend_from_slice(b"ended"),
        Other::Adopted(head) => {
            out.extend_from_slice(b"adopted ")?;
            push_id(out, *head)
        }
        Other::NothingToAdopt => out.extend_from_slice(b"refused nothing"),
        Other::Sent => out.extend_from_slice(b"sent"),
        Other::RingFull => out.extend_from_slice(b"full"),
        Other::Settled(count) => {
            out.extend_from_slice(b"settled ")?;
            push_number(out, *count)
        }
        Other::Trimmed(count) => {
            out.extend_from_slice(b"trimmed ")?;
            push_number(out, *count)
        }
        Other::Retired(count) => {
            out.extend_from_slice(b"retired ")?;
            push_number(out, *count)
        }
        Other::PlanOpen => out.extend_from_slice(b"refused plan"),
        Other::Begun => out.extend_from_slice(b"begun"),
    }
}

fn push_answer(out: &mut Vec<u8>, answer: &Answer) -> Result<(), AllocError>
    ensures { OnOk result (out.new.items ≡ out.old.items ++ answer_text answer.now) }
{
    match answer {
        Answer::Key(key) => {
            out.extend_from_slice(b"key ")?;
            push_key(out, *key)
        }
        Answer::Value(object) => {
            out.extend_from_slice(b"value")?;
            push_number_words(out, object.words())
        }
        Answer::Absent => out.extend_from_slice(b"none"),
        Answer::Replaced => out.extend_from_slice(b"yes"),
        Answer::NotReplaced => out.extend_from_slice(b"no"),
        Answer::Freed => out.extend_from_slice(b"yes"),
        Answer::NotFreed => out.extend_from_slice(b"no"),
        Answer::Other(other) => push_other(out, other),
    }
}

/// Adds the line of an answer to the text. It stays out of line, so that a call whose answer isn't
/// told doesn't pay for it.
#[inline(never)]
pub(crate) fn push_answer_line(
    out: &mut Vec<u8>,
    line: usize,
    answer: &Answer,
) -> Result<(), AllocError>
    ensures { OnOk result (out.new.items ≡ out.old.items ++ line_of_answer line answer.now) }
{
    push_number(out, line)?;
    out.extend_from_slice(b" ")?;
    push_answer(out, answer)?;
    out.extend_from_slice(b"\n")
}

/// Adds a line for each answer to the text, in their order, where `replies` asks for them.
/// `AllocError` comes where memory runs out.
pub fn push_answers(
    out: &mut Vec<u8>,
    replies: bool,
    answers: &[LineAnswer],
) -> Result<(), AllocError>
    ensures { OnOk result (out.new.items ≡ out.old.items ++ answers_text replies answers.now) }
{
    if replies {
        for answer in answers {
            push_answer_line(out, answer.line, &answer.answer)?;
        }
    }
    Ok(())
}
