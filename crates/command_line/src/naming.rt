//! The name by which a line of a trace is at fault.

ghost use Rattle.std.specs.Prelude.{◌≡◌, option_map, slice_get};
ghost use Rattle.certificate.specs.Words.{parts_of};
ghost use Rattle.command_line.specs.Job.{bytes_of};
ghost use Rattle.command_line.specs.Naming.{as_kept, name_at, name_by, name_in};

use arrayvec::ArrayVec;
use trace_text::{Cause, Reference};

/// The part of that number, from 0 on, of what the separator parts.
fn part(separator: u8, bytes: &[u8], number: usize) -> Option<&[u8]>
    ensures { bytes_of result ≡ slice_get (parts_of separator bytes.now) number }
{
    bytes.split(|byte| *byte == separator).nth(number)
}

/// The name in a word that is a reference.
fn name_in(word: &[u8]) -> Option<ArrayVec<u8, 16>>
    ensures { result ≡ option_map as_kept (name_in word.now) }
{
    let reference = Reference::new(word)?;
    ArrayVec::try_from(reference.name.as_bytes()).ok()
}

/// The name in the third word of the line of that number, from 1 on.
fn name_at(text: &[u8], line: usize) -> Option<ArrayVec<u8, 16>>
    ensures { result ≡ option_map as_kept (name_at text.now line) }
{
    let line = part(b'\n', text, line.saturating_sub(1))?;
    let word = part(b' ', line, 2)?;
    name_in(word)
}

/// The name by which the line is at fault, if the cause is about a name.
pub fn name_by(cause: Cause, text: &[u8], line: usize) -> Option<ArrayVec<u8, 16>>
    ensures { result ≡ name_by cause text.now line }
{
    match cause {
        Cause::Bound | Cause::Unknown => name_at(text, line),
        _ => None,
    }
}
