// A sink in memory.
ghost use Rattle.std.specs.Prelude.{◌≡◌, [], Some};

use crate::sink::{Sink, SinkFailed};
use std::alloc::Global;

/// A sink in memory. It fails where memory does.
#[derive(Drop)]
pub struct Memory {
    /// What it has taken.
    pub bytes: Vec<u8>,
    /// How often it failed.
    pub failures: u64,
}

impl Memory {
    /// A sink that has taken nothing.
    pub fn new(alloc: Global) -> Memory
        ensures bytes { result.bytes.items ≡ [] }
        ensures failures { result.failures ≡ 0 }
    {
        Memory {
            bytes: Vec::new(alloc),
            failures: 0,
        }
    }
}

impl Sink for Memory {
    ghost taken = { λ m. Some m.bytes.items };

    ghost failures = { λ m. m.failures };

    fn take(&mut self, bytes: &[u8]) -> Result<usize, SinkFailed> {
        match self.bytes.extend_from_slice(bytes) {
            Ok(()) => Ok(bytes.len()),
            Err(_) => {
                self.failures += 1;
                Err(SinkFailed)
            }
        }
    }

    fn failures(&self) -> u64 {
        self.failures
    }
}
