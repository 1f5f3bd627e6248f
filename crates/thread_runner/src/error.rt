// Why a trace was not replayed by threads.
ghost use Rattle.std.specs.Prelude.{◌≡◌};
ghost use Rattle.thread_runner.specs.Errors.{error_of_halt, stop_of_parse};
ghost use Rattle.thread_runner.specs.declared.error.Halt.TheVariants as halts;
ghost use Rattle.thread_runner.specs.declared.error.ThreadsError.TheVariants as threads_error;

use audit::AuditCause;
use std::alloc::{AllocError, AllocFailed};
use thiserror::Error;
use trace_runner::{Cause, ParseError};

/// Why a run came to no end.
#[derive(Clone, Copy)]
pub(crate) enum Halt {
    /// Memory ran out.
    OutOfMemory,
    /// A shard or the pool was not as the run had left it.
    Doubled,
}

impl From<AllocError> for Halt {
    ghost from_gives = { λ _ halt. halt ≡ halts.OutOfMemory };

    fn from(_error: AllocError) -> Halt {
        Halt::OutOfMemory
    }
}

impl<T: Drop> From<AllocFailed<T>> for Halt {
    ghost from_gives = { λ _ halt. halt ≡ halts.OutOfMemory };

    fn from(_error: AllocFailed<T>) -> Halt {
        Halt::OutOfMemory
    }
}

/// Why a trace was not replayed by threads.
#[derive(Clone, Copy, Debug, PartialEq, Eq, Error)]
pub enum ThreadsError {
    /// Memory ran out. Nothing was written.
    #[error("memory ran out before the report was written: replay a shorter trace")]
    OutOfMemory,
    /// The text is no trace. `line` is the first line at fault, where the first line is 1, and
    /// nothing was written.
    #[error("line {line} of the trace is at fault: {cause}")]
    BadTrace { line: usize, cause: Cause },
    /// A shard or the pool was not as the run had left it: a span that would move was at both
    /// places, a shard had ended whose thread had not, or a plan was open that had been closed; or
    /// at the end a thread or its seat was missing, or had lines left, or a ring had a key left.
    /// Nothing was written.
    #[error("a span stood in two places, or a shard had ended that had not: report this as an error of the program")]
    Doubled,
    /// What the calls were told does not agree with the logs of the spans, in this part. Nothing
    /// was written.
    #[error("audit: {0}")]
    AuditFault(AuditCause),
    /// The sink did not take the whole report. It took a prefix of it.
    #[error("the report could not be written whole: look for a full disk or a closed pipe")]
    SinkFailed,
}

impl From<AllocError> for ThreadsError {
    ghost from_gives = { λ _ error. error ≡ threads_error.OutOfMemory };

    fn from(_error: AllocError) -> ThreadsError {
        ThreadsError::OutOfMemory
    }
}

impl<T: Drop> From<AllocFailed<T>> for ThreadsError {
    ghost from_gives = { λ _ error. error ≡ threads_error.OutOfMemory };

    fn from(_error: AllocFailed<T>) -> ThreadsError {
        ThreadsError::OutOfMemory
    }
}

impl From<Halt> for ThreadsError {
    ghost from_gives = { λ halt error. error ≡ error_of_halt halt };

    fn from(halt: Halt) -> ThreadsError {
        match halt {
            Halt::OutOfMemory => ThreadsError::OutOfMemory,
            Halt::Doubled => ThreadsError::Doubled,
        }
    }
}

impl From<ParseError> for ThreadsError {
    ghost from_gives = { λ error stop. stop ≡ stop_of_parse error };

    fn from(error: ParseError) -> ThreadsError {
        match error {
            ParseError::OutOfMemory => ThreadsError::OutOfMemory,
            ParseError::BadTrace { line, cause } => ThreadsError::BadTrace { line, cause },
        }
    }
}
