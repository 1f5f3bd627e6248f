//! What stops a replay or a check.

ghost use Rattle.std.specs.Prelude.{◌≡◌};
ghost use Rattle.trace_runner.specs.declared.fault.ReplayError.TheVariants as replay_error;
ghost use Rattle.trace_runner.specs.declared.fault.CheckError.TheVariants as check_error;
ghost use Rattle.trace_runner.specs.Errors.{stop_of_parse, stop_of_read};

use crate::sink::SinkFailed;
use certificate::ReadError;
use std::alloc::{AllocError, AllocFailed};
use thiserror::Error;
use trace_text::{Cause, ParseError};

/// Why a trace was not replayed.
#[derive(Clone, Copy, Debug, PartialEq, Eq, Error)]
pub enum ReplayError {
    /// Memory ran out. Nothing was written.
    #[error("memory ran out before the report was written: replay a shorter trace")]
    OutOfMemory,
    /// The text is no trace. `line` is the first line at fault, where the first line is 1, and
    /// nothing was written.
    #[error("line {line} of the trace is at fault: {cause}")]
    BadTrace { line: usize, cause: Cause },
    /// The sink did not take the whole report. It took a prefix of it.
    #[error("the report could not be written whole: look for a full disk or a closed pipe")]
    SinkFailed,
}

impl From<AllocError> for ReplayError {
    ghost from_gives = { λ _ error. error ≡ replay_error.OutOfMemory };

    fn from(_error: AllocError) -> ReplayError {
        ReplayError::OutOfMemory
    }
}

impl<T: Drop> From<AllocFailed<T>> for ReplayError {
    ghost from_gives = { λ _ error. error ≡ replay_error.OutOfMemory };

    fn from(_error: AllocFailed<T>) -> ReplayError {
        ReplayError::OutOfMemory
    }
}

impl From<ParseError> for ReplayError {
    ghost from_gives = { λ error stop. stop ≡ stop_of_parse error };

    fn from(error: ParseError) -> ReplayError {
        match error {
            ParseError::OutOfMemory => ReplayError::OutOfMemory,
            ParseError::BadTrace { line, cause } => ReplayError::BadTrace { line, cause },
        }
    }
}

impl From<SinkFailed> for ReplayError {
    ghost from_gives = { λ _ error. error ≡ replay_error.SinkFailed };

    fn from(_error: SinkFailed) -> ReplayError {
        ReplayError::SinkFailed
    }
}

/// Why a certificate was not checked.
#[derive(Clone, Copy, Debug, PartialEq, Eq, Error)]
pub enum CheckError {
    /// Memory ran out. Nothing was written.
    #[error("memory ran out before the verdict was written")]
    OutOfMemory,
    /// The text is no certificate. `line` is the first line at fault, where the first line is 1,
    /// and nothing was written.
    #[error("line {line} of the certificate is at fault: {cause}")]
    BadCertificate {
        line: usize,
        cause: certificate::Cause,
    },
    /// The sink did not take the whole line. It took a prefix of it.
    #[error("the verdict could not be written whole: look for a full disk or a closed pipe")]
    SinkFailed,
}

impl From<ReadError> for CheckError {
    ghost from_gives = { λ error stop. stop ≡ stop_of_read error };

    fn from(error: ReadError) -> CheckError {
        match error {
            ReadError::OutOfMemory => CheckError::OutOfMemory,
            ReadError::BadCertificate { line, cause } => CheckError::BadCertificate { line, cause },
        }
    }
}

impl From<AllocError> for CheckError {
    ghost from_gives = { λ _ error. error ≡ check_error.OutOfMemory };

    fn from(_error: AllocError) -> CheckError {
        CheckError::OutOfMemory
    }
}
