// Reads certificates.
ghost use Rattle.std.specs.Prelude.{◌≡◌, ◌+◌, ◌≤◌, IfOk};
ghost use Rattle.certificate.specs.Grammar.{Reads, at_line, body_in, certificate_in, closing_in, end_in, last_in, line_in, outline_of, version_in};
ghost use Rattle.certificate.specs.Text.{IsTextOf, IsWritable};
ghost use Rattle.certificate.specs.Words.{lines_of};
ghost use Rattle.certificate.specs.NextLines.{next_line};

use super::cause::{Cause, ReadError};
use super::items::{read_entries, read_folds, read_short};
use super::lines::Lines;
use super::version::Version;
use super::words::{parse_last, parse_version};
use crate::certificate::Certificate;
use crate::plan::{Plan, Short};
use mesh_graph::Snapshot;
use std::alloc::Global;

/// Reads a certificate of version 1, 2 or 3. It accepts exactly the texts of the grammar: those
/// that [`write`](crate::write()) gives, in version 2 or 3, and those of version 1, in which each
/// group is of the class [`C16`](span::names::Class::C16). For any other text it returns the first
/// line at fault and that line's first cause.
///
/// # Errors
///
/// `BadCertificate` where the text is no certificate; `OutOfMemory` where memory runs out.
pub fn read(alloc: Global, text: &[u8]) -> Result<Certificate, ReadError>
    ensures read { Reads outline_of result (certificate_in text.now) }
    ensures writable { IfOk result IsWritable }

    // An accepted text is the very text that is written of what was read, or its text in version 1.
    ensures text { IfOk result (λ certificate. IsTextOf certificate text.now) }
{
    read_text(alloc, text)
}

/// The first line and the rest.
fn read_text(alloc: Global, text: &[u8]) -> Result<Certificate, ReadError>
    ensures read { Reads outline_of result (certificate_in text.now) }
    ensures writable { IfOk result IsWritable }
{
    let mut lines = Lines::new(text);
    let version = read_version(&mut lines)?;
    read_body(alloc, &mut lines, version)
}

/// The version that the first line names.
fn read_version(lines: &mut Lines) -> Result<Version, ReadError>
    requires { lines.old.at ≡ 0 }
    ensures read { result ≡ at_line 0 (line_in version_in (lines_of lines.old.text.now) 0) }
    ensures text { IfOk result (λ _. lines.new.text.now ≡ lines.old.text.now) }
    ensures passed { IfOk result (λ _. lines.new.at ≡ 1) }
{
    let line = lines.next_number();
    match version_at(lines) {
        Ok(version) => Ok(version),
        Err(cause) => Err(ReadError::BadCertificate { line, cause }),
    }
}

fn version_at(lines: &mut Lines) -> Result<Version, Cause>
    ensures line { result ≡ next_line version_in lines.old }
    ensures text { IfOk result (λ _. lines.new.text.now ≡ lines.old.text.now) }
    ensures passed { IfOk result (λ _. lines.new.at ≡ lines.old.at + 1) }
{
    parse_version(lines.next_line()?)
}

/// The lists and the last line, below the first line.
fn read_body(alloc: Global, lines: &mut Lines, version: Version) -> Result<Certificate, ReadError>
    requires { lines.old.at ≡ 1 }
    ensures read { Reads outline_of result (body_in version (lines_of lines.old.text.now)) }
    ensures writable { IfOk result IsWritable }
{
    let abandoned = read_entries(alloc, lines, version, b"abandoned")?;
    let owned = read_entries(alloc, lines, version, b"owned")?;
    let folds = read_folds(alloc, lines, version)?;
    let short = read_short(alloc, lines, version)?;
    let certificate = Certificate {
        snapshot: Snapshot::from_ascending(abandoned, owned),
        plan: Plan::new(folds),
        short: Short::new(short),
    };
    read_ending(lines, version.is_wanted(&certificate))?;
    Ok(certificate)
}

/// The last line, and nothing behind it.
fn read_ending(lines: &mut Lines, is_wanted: bool) -> Result<(), ReadError>
    requires { lines.old.at ≤ 32767 }
    ensures { result ≡ closing_in is_wanted (lines_of lines.old.text.now) lines.old.at }
{
    read_last(lines, is_wanted)?;
    read_nothing(lines)
}

fn read_last(lines: &mut Lines, is_wanted: bool) -> Result<(), ReadError>
    requires { lines.old.at ≤ 32768 }
    ensures read { result ≡ at_line lines.old.at
        (next_line (last_in is_wanted) lines.old) }
    ensures text { IfOk result (λ _. lines.new.text.now ≡ lines.old.text.now) }
    ensures passed { IfOk result (λ _. lines.new.at ≡ lines.old.at + 1) }
{
    let line = lines.next_number();
    match last_at(lines, is_wanted) {
        Ok(()) => Ok(()),
        Err(cause) => Err(ReadError::BadCertificate { line, cause }),
    }
}

fn last_at(lines: &mut Lines, is_wanted: bool) -> Result<(), Cause>
    ensures line { result ≡ next_line (last_in is_wanted) lines.old }
    ensures text { IfOk result (λ _. lines.new.text.now ≡ lines.old.text.now) }
    ensures passed { IfOk result (λ _. lines.new.at ≡ lines.old.at + 1) }
{
    parse_last(is_wanted, lines.next_line()?)
}

/// Nothing but the end of the last line.
fn read_nothing(lines: &Lines) -> Result<(), ReadError>
    requires { lines.now.at ≤ 32768 }
    ensures { result ≡ at_line lines.now.at (end_in (lines_of lines.now.text.now) lines.now.at) }
{
    if lines.has_ended() {
        Ok(())
    } else {
        Err(ReadError::BadCertificate {
            line: lines.next_number(),
            cause: Cause::Tail,
        })
    }
}
