//! Sinks over a writer.
use std::alloc::Global;
use std::io::{self, Write};
use trace_runner::{Out, Sink, SinkFailed, give};

const TEXT: &[u8] = b"end pages 0 live 0 calls 0\n";

// Takes one byte a write. The write of the number `fails_at` fails, by an error or by `Ok(0)`.
#[derive(Drop)]
struct Drip {
    bytes: Vec<u8>,
    writes: usize,
    fails_at: usize,
    gives_zero: bool,
}

impl Write for Drip {
    fn write(&mut self, buf: &[u8]) -> io::Result<usize> {
        self.writes = self.writes.saturating_add(1);
        if self.writes == self.fails_at {
            return if self.gives_zero {
                Ok(0)
            } else {
                Err(io::Error::from(io::ErrorKind::StorageFull))
            };
        }
        let Some(first) = buf.first() else {
            return Ok(0);
        };
        self.bytes.push(*first)?;
        Ok(1)
    }

    fn flush(&mut self) -> io::Result<()> {
        Ok(())
    }
}

/// Whether that many bytes of the text are taken, where the write after them fails, and the failure
/// is told, once.
fn takes_front(alloc: Global, taken: usize, gives_zero: bool) -> bool {
    let mut out = Out::new(Drip {
        bytes: Vec::new(alloc),
        writes: 0,
        fails_at: taken.saturating_add(1),
        gives_zero,
    });
    let result = give(&mut out, TEXT);
    let (wanted, failures) = if taken < TEXT.len() {
        (Err(SinkFailed), 1)
    } else {
        (Ok(()), 0)
    };
    let bytes = out.writer.bytes.as_slice();
    (result, out.failures(), bytes.len()) == (wanted, failures, taken) && TEXT.starts_with(bytes)
}

#[test]
fn one_byte_a_write(rt: HostRuntime) {
    for taken in 0..28usize {
        assert!(rt; takes_front(rt.alloc(), taken, false), "at {taken}");
        assert!(rt; takes_front(rt.alloc(), taken, true), "at {taken}");
    }
}
