//! What is said to people of a line that is at fault.

ghost use Rattle.std.specs.Prelude.{◌≡◌, ◌++◌, IfOk};
ghost use Rattle.command_line.specs.Sentences.{of_cause, of_certificate, of_trace};

use arrayvec::ArrayVec;
use std::alloc::{AllocError, Global};
use trace_text::Cause;

/// What is wrong with a line of a trace, in a few words.
fn of_cause(cause: Cause) -> &'static str
    ensures { result.now ≡ of_cause cause }
{
    match cause {
        Cause::Header => "this line of the header is missing or malformed",
        Cause::Form => "the line has none of the forms of its version",
        Cause::Limit => "a number is out of range",
        Cause::Thread => "the header has no thread or shard of that number",
        Cause::Ended => "the thread ended before and has not begun again",
        Cause::Adopt => "no mark follows the adoption above",
        Cause::Bound => "the name was bound before",
        Cause::Unknown => "no earlier line bound the name to such keys",
        Cause::Early => "a mark must come before this line",
    }
}

/// A sentence that has a name in it.
fn around(alloc: Global, front: &[u8], name: &[u8], back: &[u8]) -> Result<Vec<u8>, AllocError>
    ensures { IfOk result (λ text. text.items ≡ front.now ++ name.now ++ back.now) }
{
    let mut text = Vec::from_slice(alloc, front)?;
    text.extend_from_slice(name)?;
    text.extend_from_slice(back)?;
    Ok(text)
}

/// What is wrong with a line of a trace, in a few words, with the name that it is about, if that
/// is known.
pub fn of_trace(
    alloc: Global,
    cause: Cause,
    name: &Option<ArrayVec<u8, 16>>,
) -> Result<Vec<u8>, AllocError>
    ensures { IfOk result (λ text. text.items ≡ of_trace cause name.now) }
{
    match (cause, name) {
        (Cause::Bound, Some(name)) => around(alloc, b"the name ", name, b" was bound before"),
        (Cause::Unknown, Some(name)) => {
            around(
                alloc,
                b"no earlier line bound the name ",
                name,
                b" to such keys",
            )
        }
        _ => Vec::from_slice(alloc, of_cause(cause).as_bytes()),
    }
}

/// What is wrong with a line of a certificate, in a few words.
pub fn of_certificate(cause: certificate::Cause) -> &'static str
    ensures { result.now ≡ of_certificate cause }
{
    match cause {
        certificate::Cause::Cut => "the text ends before the end of this line",
        certificate::Cause::Form => "the line is malformed",
        certificate::Cause::Limit => "a number is out of range",
        certificate::Cause::Set => "the set is malformed or has a slot that its class lacks",
        certificate::Cause::Order => "the id is not above the one before it",
        certificate::Cause::Version => "no serial and no class needs version 3",
        certificate::Cause::Tail => "bytes follow the last line",
    }
}
