// Why a text is no certificate.
ghost use Rattle.std.specs.Prelude.{◌≡◌};
ghost use Rattle.certificate.specs.declared.text.cause.ReadError.TheVariants.{OutOfMemory};

use std::alloc::{AllocError, AllocFailed};
use std::fmt;
use thiserror::Error;

/// What is wrong with a line. Of several causes the first of this list is answered.
#[derive(Clone, Copy, PartialEq, Eq, Debug)]
pub enum Cause {
    /// The text ends before this line, or in it without a line feed.
    Cut,
    /// The line has not its words, or an id, a class or a count is no number or pair of numbers.
    Form,
    /// A count, or an id's shard or serial, is outside its range, or the text's version has no such
    /// class.
    Limit,
    /// The last word of a group's line is not 64 lower-case hexadecimal digits, or has a slot that
    /// no page of the group's class has.
    Set,
    /// The id is not above the one before it in its list.
    Order,
    /// The line is the `end` of a text of version 3 in which each serial is below
    /// [`TEXT_SPANS`](crate::TEXT_SPANS) and each class 16, 64 or 256: version 2 has a text for it.
    Version,
    /// Bytes follow the line `end`.
    Tail,
}

impl Cause {
    ghost use Rattle.certificate.specs.Causes.{word_of};

    /// The cause in one lower-case word.
    pub fn word(&self) -> &'static str
        ensures { result.now ≡ word_of self.now }
    {
        match self {
            Cause::Cut => "cut",
            Cause::Form => "form",
            Cause::Limit => "limit",
            Cause::Set => "set",
            Cause::Order => "order",
            Cause::Version => "version",
            Cause::Tail => "tail",
        }
    }
}

impl fmt::Display for Cause {
    ghost use Rattle.std.specs.Prelude.{Some};
    ghost use Rattle.certificate.specs.Causes.{word_of};

    ghost output = { λ cause. Some (word_of cause) };

    fn fmt<W: fmt::Write>(&self, f: &mut fmt::Formatter<W>) -> fmt::Result {
        f.write_str(self.word())
    }
}

/// Why a certificate was not read.
#[derive(Clone, Copy, PartialEq, Eq, Debug, Error)]
pub enum ReadError {
    /// The lists could not grow.
    #[error("out of memory")]
    OutOfMemory,
    /// The first line at fault, counted from 1, and its first cause.
    #[error("line {line}: {cause}")]
    BadCertificate {
        /// The line's number.
        line: usize,
        /// What is wrong with it.
        cause: Cause,
    },
}

impl From<AllocError> for ReadError {
    ghost from_gives = { λ _ e. e ≡ OutOfMemory };

    fn from(_: AllocError) -> ReadError {
        ReadError::OutOfMemory
    }
}

impl<T: Drop> From<AllocFailed<T>> for ReadError {
    ghost from_gives = { λ _ e. e ≡ OutOfMemory };

    fn from(_: AllocFailed<T>) -> ReadError {
        ReadError::OutOfMemory
    }
}
