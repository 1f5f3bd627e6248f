//! What stops the program, and the status with which it then ends.

ghost use Rattle.std.specs.Prelude.{◌≡◌};
ghost use Rattle.command_line.specs.declared.fault.Fault.TheVariants as fault;
ghost use Rattle.command_line.specs.Telling.{IsUnread, fault_of_check, fault_of_job, fault_of_replay, fault_of_threads};

use crate::job::JobError;
use crate::naming::name_by;
use arrayvec::ArrayVec;
use audit::AuditCause;
use std::alloc::{AllocError, AllocFailed, Global};
use std::io;
use thiserror::Error;
use thread_runner::ThreadsError;
use trace_runner::{CheckError, ReplayError};
use trace_text::Cause;

/// Why the program did not do its job, or what it shows in place of one.
#[derive(Debug, Drop, Error)]
pub enum Fault {
    /// Memory ran out.
    #[error("memory ran out: replay a shorter trace")]
    OutOfMemory,
    /// The text is no trace. `line` is the first line at fault, where the first line is 1, and
    /// `file` the file that has the text: none for standard input. `name` is the name by which
    /// the line is at fault, if the cause is about one and the text was given.
    #[error("line {line} of the trace is at fault: {cause}")]
    BadTrace {
        file: Option<String>,
        line: usize,
        cause: Cause,
        name: Option<ArrayVec<u8, 16>>,
    },
    /// The text is no certificate. `line` is the first line at fault, where the first line is 1,
    /// and `file` the file that has the text: none for standard input.
    #[error("line {line} of the certificate is at fault: {cause}")]
    BadCertificate {
        file: Option<String>,
        line: usize,
        cause: certificate::Cause,
    },
    /// A shard or the pool of a run by threads was not as its calls had left it.
    #[error("a span stood in two places, or a shard had ended that had not: report this as an error of the program")]
    Doubled,
    /// What the calls of a run by threads were told does not agree with the logs of its spans.
    #[error("audit: {0}")]
    Audit(AuditCause),
    /// The sink did not take the whole report, or the whole verdict.
    #[error("the report could not be written whole: look for a full disk or a closed pipe")]
    SinkFailed,
    /// The words of the command line name no job, or they ask for help or for the version.
    #[error(transparent)]
    Words(clap::Error),
    /// The file, standard input or the command line could not be read, or the file for the
    /// certificate could not be written. `error` is what the system said.
    #[error("{file} could not be read or written: {error}")]
    Io {
        file: String,
        error: io::Error,
    },
}

impl Fault {
    ghost use Rattle.command_line.specs.Telling.{asks_for_help, in_file, status_of};

    /// What it comes to that what has this name could not be read: `OutOfMemory` where the system
    /// says that, or where there is no memory for the name, and else `Io`.
    pub fn unread(alloc: Global, file: &str, error: io::Error) -> Fault
        ensures { IsUnread file.now error result }
    {
        match error.kind() {
            io::ErrorKind::OutOfMemory => Fault::OutOfMemory,
            _ => match file.to_string(alloc) {
                Ok(file) => Fault::Io { file, error },
                Err(_) => Fault::OutOfMemory,
            },
        }
    }

    /// The fault, where this is its text, from this file, or from standard input where there is
    /// none. A fault that is not of a text stays as it is.
    pub fn in_file(self, file: Option<String>, text: &[u8]) -> Fault
        ensures { result ≡ in_file file text.now self }
    {
        match self {
            Fault::BadTrace { line, cause, .. } => Fault::BadTrace {
                file,
                line,
                cause,
                name: name_by(cause, text, line),
            },
            Fault::BadCertificate { line, cause, .. } => {
                Fault::BadCertificate { file, line, cause }
            }
            stop => stop,
        }
    }

    /// Whether nothing is wrong: help or the version was asked for.
    pub fn asks_for_help(&self) -> bool
        ensures { result ≡ asks_for_help self.now }
    {
        match self {
            Fault::Words(error) => !error.use_stderr(),
            _ => false,
        }
    }

    /// The status with which the program ends: 0 where help or the version was asked for, 1 where
    /// the text is no trace or no certificate, 2 where the words name no job, 3 where memory ran
    /// out, 4 where a run by threads was not as it ought to be, and 5 where a read or a write
    /// failed.
    pub fn status(&self) -> u8
        ensures { result ≡ status_of self.now }
    {
        match self {
            Fault::BadTrace { .. } => 1,
            Fault::BadCertificate { .. } => 1,
            Fault::Words(error) if error.use_stderr() => 2,
            Fault::Words(_) => 0,
            Fault::OutOfMemory => 3,
            Fault::Doubled | Fault::Audit(_) => 4,
            Fault::SinkFailed | Fault::Io { .. } => 5,
        }
    }
}

impl From<ReplayError> for Fault {
    ghost from_gives = { λ error stop. stop ≡ fault_of_replay error };

    fn from(error: ReplayError) -> Fault {
        match error {
            ReplayError::OutOfMemory => Fault::OutOfMemory,
            ReplayError::BadTrace { line, cause } => Fault::BadTrace {
                file: None,
                line,
                cause,
                name: None,
            },
            ReplayError::SinkFailed => Fault::SinkFailed,
        }
    }
}

impl From<ThreadsError> for Fault {
    ghost from_gives = { λ error stop. stop ≡ fault_of_threads error };

    fn from(error: ThreadsError) -> Fault {
        match error {
            ThreadsError::OutOfMemory => Fault::OutOfMemory,
            ThreadsError::BadTrace { line, cause } => Fault::BadTrace {
                file: None,
                line,
                cause,
                name: None,
            },
            ThreadsError::Doubled => Fault::Doubled,
            ThreadsError::AuditFault(cause) => Fault::Audit(cause),
            ThreadsError::SinkFailed => Fault::SinkFailed,
        }
    }
}

impl From<CheckError> for Fault {
    ghost from_gives = { λ error stop. stop ≡ fault_of_check error };

    fn from(error: CheckError) -> Fault {
        match error {
            CheckError::OutOfMemory => Fault::OutOfMemory,
            CheckError::BadCertificate { line, cause } => Fault::BadCertificate {
                file: None,
                line,
                cause,
            },
            CheckError::SinkFailed => Fault::SinkFailed,
        }
    }
}

impl From<JobError> for Fault {
    ghost from_gives = { λ error stop. stop ≡ fault_of_job error };

    fn from(error: JobError) -> Fault {
        match error {
            JobError::OutOfMemory => Fault::OutOfMemory,
            JobError::Words(error) => Fault::Words(error),
        }
    }
}

impl From<AllocError> for Fault {
    ghost from_gives = { λ _ stop. stop ≡ fault.OutOfMemory };

    fn from(_error: AllocError) -> Fault {
        Fault::OutOfMemory
    }
}

impl<T: Drop> From<AllocFailed<T>> for Fault {
    ghost from_gives = { λ _ stop. stop ≡ fault.OutOfMemory };

    fn from(_error: AllocFailed<T>) -> Fault {
        Fault::OutOfMemory
    }
}
