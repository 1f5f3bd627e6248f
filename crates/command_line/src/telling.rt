//! Tells what went wrong.

ghost use Rattle.std.specs.Prelude.{◌≡◌, ◌<◌, ◌+◌, ◌++◌, ◌-◌, ◌^◌, true, false, IfOk, OnOk, IsErrOf};
ghost use Rattle.command_line.specs.declared.telling.TellError.TheVariants as tell_error;
ghost use Rattle.command_line.specs.Telling.{FailsOnce, IsMessage, TellsFront, TellsMessage, asks_for_help, audit_message, file_message, line_message, status_of, status_if_unreported, text_message};
ghost use Rattle.command_line.specs.Job.{bytes_of};

use crate::fault::Fault;
use crate::sentences;
use audit::AuditCause;
use itoa::Buffer;
use std::alloc::{AllocError, Global};
use thiserror::Error;
use trace_runner::{Sink, SinkFailed, give};

/// Why a fault was not told.
#[derive(Clone, Copy, Debug, PartialEq, Eq, Error)]
pub enum TellError {
    /// Memory ran out before anything was written.
    #[error("memory ran out before the fault was told")]
    OutOfMemory,
    /// The sink took a prefix of the message, and failed.
    #[error("the fault could not be told whole: look for a full disk or a closed pipe")]
    SinkFailed,
}

impl TellError {
    /// The status with which the program ends: 3 where memory ran out, and 5 where a write failed.
    pub fn status(&self) -> u8
        ensures { result ≡ status_if_unreported self.now }
    {
        match self {
            TellError::OutOfMemory => 3,
            TellError::SinkFailed => 5,
        }
    }
}

impl From<AllocError> for TellError {
    ghost from_gives = { λ _ error. error ≡ tell_error.OutOfMemory };

    fn from(_error: AllocError) -> TellError {
        TellError::OutOfMemory
    }
}

impl From<SinkFailed> for TellError {
    ghost from_gives = { λ _ error. error ≡ tell_error.SinkFailed };

    fn from(_error: SinkFailed) -> TellError {
        TellError::SinkFailed
    }
}

fn push_line(text: &mut Vec<u8>, line: usize, said: &[u8]) -> Result<(), AllocError>
    ensures { OnOk result (text.new.items ≡ text.old.items ++ line_message line said.now) }
{
    let mut buffer = Buffer::new();
    text.extend_from_slice(b"line ")?;
    text.extend_from_slice(buffer.format(line).as_bytes())?;
    text.extend_from_slice(b": ")?;
    text.extend_from_slice(said)?;
    text.extend_from_slice(b"\n")?;
    Ok(())
}

/// What is said of a text: to people, if it has a file, and then to programs.
fn text_message(
    alloc: Global,
    file: Option<&str>,
    line: usize,
    sentence: &[u8],
    word: &[u8],
) -> Result<Vec<u8>, AllocError>
    ensures { IfOk result (λ text. text.items
        ≡ text_message (bytes_of file.entry) line sentence.now word.now) }
{
    let mut text = Vec::new(alloc);
    if let Some(file) = file {
        text.extend_from_slice(file.as_bytes())?;
        text.extend_from_slice(b": ")?;
        push_line(&mut text, line, sentence)?;
    }
    push_line(&mut text, line, word)?;
    Ok(text)
}

fn audit_message(alloc: Global, cause: AuditCause) -> Result<Vec<u8>, AllocError>
    ensures { IfOk result (λ text. text.items ≡ audit_message cause) }
{
    let mut text = Vec::from_slice(alloc, b"audit: ")?;
    text.extend_from_slice(cause.to_string(alloc)?.as_bytes())?;
    text.extend_from_slice(b"\n")?;
    Ok(text)
}

fn file_message(alloc: Global, file: &str, said: &str) -> Result<Vec<u8>, AllocError>
    ensures { IfOk result (λ text. text.items ≡ file_message file.now said.now) }
{
    let mut text = Vec::from_slice(alloc, b"io: ")?;
    text.extend_from_slice(file.as_bytes())?;
    text.extend_from_slice(b": ")?;
    text.extend_from_slice(said.as_bytes())?;
    text.extend_from_slice(b"\n")?;
    Ok(text)
}

fn message(alloc: Global, fault: &Fault) -> Result<Vec<u8>, AllocError>
    ensures { IfOk result (λ text. IsMessage fault.now text.items) }
{
    match fault {
        Fault::BadTrace {
            file,
            line,
            cause,
            name,
        } => {
            let sentence = sentences::of_trace(alloc, *cause, name)?;
            let word = cause.word().as_bytes();
            text_message(alloc, file.as_deref(), *line, &sentence, word)
        }
        Fault::BadCertificate { file, line, cause } => {
            let sentence = sentences::of_certificate(*cause).as_bytes();
            let word = cause.word().as_bytes();
            text_message(alloc, file.as_deref(), *line, sentence, word)
        }
        Fault::Words(error) => Ok(error.to_string(alloc)?.into_bytes()),
        Fault::OutOfMemory => Vec::from_slice(alloc, b"memory\n"),
        Fault::Doubled => Vec::from_slice(alloc, b"doubled\n"),
        Fault::Audit(cause) => audit_message(alloc, *cause),
        Fault::SinkFailed => Vec::from_slice(alloc, b"io: standard output\n"),
        Fault::Io { file, error } => file_message(alloc, file, error.to_string(alloc)?.as_str()),
    }
}

/// Tells the fault, and answers the status with which the program ends.
///
/// Help and the version that were asked for go to `out`, and all else to `err`; the other sink
/// stays as it is. After `OutOfMemory` both sinks are as they were, and after `SinkFailed` the one
/// that was written to has taken a prefix of the message.
pub fn tell<O: Sink, E: Sink>(
    alloc: Global,
    fault: &Fault,
    out: &mut O,
    err: &mut E,
) -> Result<u8, TellError>
    requires out_room { O.failures out.old < 2 ^ 64 - 1 }
    requires err_room { E.failures err.old < 2 ^ 64 - 1 }
    ensures status { IfOk result (λ status. status ≡ status_of fault.now) }
    ensures told { OnOk result (TellsMessage fault.now (O.taken out.old) (O.taken out.new)
        (E.taken err.old) (E.taken err.new)) }
    ensures succeeded { OnOk result ((O.failures out.new ≡ O.failures out.old)
        × (E.failures err.new ≡ E.failures err.old)) }

    ensures front { IsErrOf result TellError.SinkFailed → TellsFront fault.now
        (O.taken out.old) (O.taken out.new) (E.taken err.old) (E.taken err.new) }
    ensures failed { IsErrOf result TellError.SinkFailed → FailsOnce fault.now
        (O.failures out.old) (O.failures out.new) (E.failures err.old) (E.failures err.new) }
    ensures memory { IsErrOf result TellError.OutOfMemory → (out.new ≡ out.old)
        × (err.new ≡ err.old) }

    // Nothing else is written.
    ensures out_kept { asks_for_help fault.now ≡ false → out.new ≡ out.old }
    ensures err_kept { asks_for_help fault.now ≡ true → err.new ≡ err.old }
{
    let message = message(alloc, fault)?;
    if fault.asks_for_help() {
        give(out, message.as_slice())?;
        return Ok(fault.status());
    }
    give(err, message.as_slice())?;
    Ok(fault.status())
}
