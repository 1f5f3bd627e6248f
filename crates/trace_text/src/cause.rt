//! Why a text is no trace.

ghost use Rattle.std.specs.Prelude.{◌≡◌};
ghost use Rattle.trace_text.specs.declared.cause.ParseError.TheVariants.{OutOfMemory};

use std::alloc::{AllocError, AllocFailed};
use std::fmt;
use thiserror::Error;

/// What is wrong with a line. Of several causes the first of this list is answered.
#[derive(Clone, Copy, Debug, PartialEq, Eq)]
pub enum Cause {
    /// One of lines 1 to 5 is missing or has not its form.
    Header,
    /// A further line has none of the forms.
    Form,
    /// A number is outside its range.
    Limit,
    /// The header has no thread of this number, or no shard.
    Thread,
    /// An earlier line ends the thread, or the thread of the shard that adopts.
    Ended,
    /// An adoption stands above, and no mark follows it before this line or the end of the text.
    Adopt,
    /// An earlier line binds the name.
    Bound,
    /// No earlier line binds the name, or the one that does gives it no such keys.
    Unknown,
    /// Another thread binds the name, and no mark stands between the two lines.
    Early,
}

impl Cause {
    ghost use Rattle.std.specs.Prelude.{◌≡◌};
    ghost use Rattle.trace_text.specs.Causes.{word_of};

    /// The cause in one lower-case word.
    pub fn word(&self) -> &'static str
        ensures { result.now ≡ word_of self.now }
    {
        match self {
            Cause::Header => "header",
            Cause::Form => "form",
            Cause::Limit => "limit",
            Cause::Thread => "thread",
            Cause::Ended => "ended",
            Cause::Adopt => "adopt",
            Cause::Bound => "bound",
            Cause::Unknown => "unknown",
            Cause::Early => "early",
        }
    }
}

impl fmt::Display for Cause {
    ghost use Rattle.std.specs.Prelude.{Some};
    ghost use Rattle.trace_text.specs.Causes.{word_of};

    ghost output = { λ cause. Some (word_of cause) };

    fn fmt<W: fmt::Write>(&self, f: &mut fmt::Formatter<W>) -> fmt::Result {
        f.write_str(self.word())
    }
}

/// Why a text was not read.
#[derive(Clone, Copy, Debug, PartialEq, Eq, Error)]
pub enum ParseError {
    /// Memory ran out.
    #[error("out of memory")]
    OutOfMemory,
    /// The first line at fault, counted from 1, and its first cause.
    #[error("line {line}: {cause}")]
    BadTrace { line: usize, cause: Cause },
}

impl From<AllocError> for ParseError {
    ghost from_gives = { λ _ e. e ≡ OutOfMemory };

    fn from(_e: AllocError) -> ParseError {
        ParseError::OutOfMemory
    }
}

impl<T: Drop> From<AllocFailed<T>> for ParseError {
    ghost from_gives = { λ _ e. e ≡ OutOfMemory };

    fn from(_e: AllocFailed<T>) -> ParseError {
        ParseError::OutOfMemory
    }
}
