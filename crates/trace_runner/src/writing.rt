//! Writes the lines of a report. Each number is printed into a buffer on the stack, so that the
//! text alone grows.

ghost use Rattle.std.specs.Prelude.{◌≡◌, ◌++◌, OnOk};
ghost use Rattle.span.specs.Texts.{id_text, key_text};
ghost use Rattle.trace_runner.specs.Report.{end_line};

use crate::report::Ending;
use itoa::{Buffer, Integer};
use span::names::{Key, SpanId};
use std::alloc::AllocError;

mod answers;
mod plans;

pub(crate) use answers::push_answer_line;
pub use answers::push_answers;
pub use plans::push_news;

pub(crate) fn push_number<I: Integer>(out: &mut Vec<u8>, number: I) -> Result<(), AllocError>
    ensures { OnOk result (out.new.items ≡ out.old.items ++ I.text number) }
{
    let mut buffer = Buffer::new();
    out.extend_from_slice(buffer.format(number).as_bytes())
}

fn push_id(out: &mut Vec<u8>, id: SpanId) -> Result<(), AllocError>
    ensures { OnOk result (out.new.items ≡ out.old.items ++ id_text id) }
{
    push_number(out, id.shard)?;
    out.extend_from_slice(b".")?;
    push_number(out, id.serial)
}

fn push_key(out: &mut Vec<u8>, key: Key) -> Result<(), AllocError>
    ensures { OnOk result (out.new.items ≡ out.old.items ++ key_text key) }
{
    push_id(out, key.span)?;
    out.extend_from_slice(b"/")?;
    push_number(out, key.slot)?;
    out.extend_from_slice(b"/")?;
    push_number(out, key.generation)
}

/// Adds the line of the counts to the text. `AllocError` comes where memory runs out.
pub fn push_ending(out: &mut Vec<u8>, ending: &Ending) -> Result<(), AllocError>
    ensures { OnOk result (out.new.items ≡ out.old.items ++ end_line ending.now) }
{
    out.extend_from_slice(b"end pages ")?;
    push_number(out, ending.pages)?;
    out.extend_from_slice(b" live ")?;
    push_number(out, ending.live)?;
    out.extend_from_slice(b" calls ")?;
    push_number(out, ending.calls)?;
    out.extend_from_slice(b"\n")
}
