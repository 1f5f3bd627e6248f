//! Where a report goes.

ghost use Rattle.std.specs.Prelude.{◌≡◌, ◌≤◌, ◌<◌, ◌+◌, ◌-◌, ◌^◌, ℕ, List, Option, length, take, IfOk, OnOk, OnErr};
ghost use Rattle.std.specs.Io.KnownBytes.{Appends, Keeps};
ghost use Rattle.trace_runner.specs.Sink.{AppendsFront};

use thiserror::Error;

mod interrupted;
mod memory;
mod out;

pub use memory::Memory;
pub use out::Out;

/// The sink took no more bytes, as when a disk is full or a pipe is closed.
#[derive(Clone, Copy, Debug, PartialEq, Eq, Error)]
#[error("the output could not be written: look for a full disk or a closed pipe")]
pub struct SinkFailed;

/// Takes bytes, and counts how often it failed.
///
/// The count fits 64 bits: whoever hands in a sink knows that one more failure still does.
pub trait Sink {
    // The bytes that it has taken, where it tells them.
    ghost taken: { Self → Option (List ℕ) };

    ghost failures: { Self → ℕ };

    /// Takes a prefix of the bytes, at least one of them, and answers how many. After
    /// `SinkFailed` it has taken none of them.
    fn take(&mut self, bytes: &[u8]) -> Result<usize, SinkFailed>
        requires some { 0 < length bytes.now }
        requires room { failures self.old < 2 ^ 64 - 1 }
        ensures count { IfOk result (λ n. (0 < n) × (n ≤ length bytes.now)) }
        ensures taken { IfOk result (λ n. Appends (taken self.old) (taken self.new)
            (take n bytes.now)) }
        ensures succeeded { OnOk result (failures self.new ≡ failures self.old) }
        ensures kept { OnErr result (Keeps (taken self.old) (taken self.new)) }
        ensures failed { OnErr result (failures self.new ≡ failures self.old + 1) };

    /// How often it failed.
    fn failures(&self) -> u64
        ensures { result ≡ failures self.now };
}

/// Gives all bytes to the sink. At `SinkFailed` it has taken a prefix of them, and failed once.
pub fn give<S: Sink>(sink: &mut S, bytes: &[u8]) -> Result<(), SinkFailed>
    requires { S.failures sink.old < 2 ^ 64 - 1 }
    ensures whole { OnOk result (Appends (S.taken sink.old) (S.taken sink.new) bytes.now) }
    ensures succeeded { OnOk result (S.failures sink.new ≡ S.failures sink.old) }
    ensures front { OnErr result (AppendsFront (S.taken sink.old) (S.taken sink.new) bytes.now) }
    ensures failed { OnErr result (S.failures sink.new ≡ S.failures sink.old + 1) }
{
    let mut given = 0;
    while given < bytes.len() {
        given += sink.take(&bytes[given..])?;
    }
    Ok(())
}
