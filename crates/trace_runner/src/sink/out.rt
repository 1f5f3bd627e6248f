// A sink over a writer.
ghost use Rattle.std.specs.Prelude.{◌≡◌};

use super::interrupted::write_once;
use crate::sink::{Sink, SinkFailed};
use std::io::Write;

/// A sink over a writer. It tells its bytes where the writer does, and a writer that takes none of
/// the bytes has failed; a write that a signal interrupted is made again.
#[derive(Drop)]
pub struct Out<W> {
    /// Where the bytes go.
    pub writer: W,
    /// How often the writer failed.
    pub failures: u64,
}

impl<W> Out<W> {
    /// A sink over a writer that has not failed yet.
    pub fn new(writer: W) -> Out<W>
        ensures writer { result.writer ≡ writer }
        ensures failures { result.failures ≡ 0 }
    {
        Out {
            writer,
            failures: 0,
        }
    }
}

impl<W: Write> Sink for Out<W> {
    ghost taken = { λ o. W.contents o.writer };

    ghost failures = { λ o. o.failures };

    fn take(&mut self, bytes: &[u8]) -> Result<usize, SinkFailed> {
        match write_once(&mut self.writer, bytes) {
            Ok(count) if count > 0 => Ok(count),
            _ => {
                self.failures += 1;
                Err(SinkFailed)
            }
        }
    }

    fn failures(&self) -> u64 {
        self.failures
    }
}
