//! Sinks that fail.
ghost use Rattle.std.specs.Prelude.{None};

use mesh_graph::AtHand;
use trace_runner::{CheckError, ReplayError, Sink, SinkFailed, check_text, replay_serial};

/// The trace of no call.
const EMPTY: &[u8] = b"mesh 1\nshards 1\npages 4\nring 4\ngens 9\n";

/// Takes one byte a write, and fails from one write on.
#[derive(Drop)]
struct Narrow {
    taken: usize,
    room: usize,
    failures: u64,
}

impl Sink for Narrow {
    ghost taken = { λ _. None };

    ghost failures = { λ sink. sink.failures };

    fn take(&mut self, _bytes: &[u8]) -> Result<usize, SinkFailed> {
        if self.taken >= self.room {
            self.failures += 1;
            return Err(SinkFailed);
        }
        self.taken += 1;
        Ok(1)
    }

    fn failures(&self) -> u64 {
        self.failures
    }
}

#[test]
fn a_sink_that_fails_is_told(rt: HostRuntime) {
    for room in 0..29usize {
        let mut out = Narrow {
            taken: 0,
            room,
            failures: 0,
        };
        let result = replay_serial(
            &AtHand,
            rt.alloc(),
            EMPTY,
            false,
            &mut out,
            &mut Vec::new(rt.alloc()),
        );
        let wanted = if room < 27 {
            Err(ReplayError::SinkFailed)
        } else {
            Ok(())
        };
        assert_eq!(rt;
            (result, out.taken, out.failures),
            (wanted, room.min(27), u64::from(room < 27))
        );
    }
}

/// A certificate of one group, which is left out.
pub const NO_PARTNER: &[u8] =
    b"meshcert 1\nabandoned 1\n0.0 0100000000000000000000000000000000000000000000000000000000000000\nowned 0\nfolds 0\nshort 0\nend\n";

#[test]
fn a_sink_that_fails_in_a_check_is_told(rt: HostRuntime) {
    for room in 0..11usize {
        let mut out = Narrow {
            taken: 0,
            room,
            failures: 0,
        };
        let result = check_text(rt.alloc(), NO_PARTNER, &mut out);
        let wanted = if room < 9 {
            Err(CheckError::SinkFailed)
        } else {
            Ok(false)
        };
        assert_eq!(rt;
            (result, out.taken, out.failures),
            (wanted, room.min(9), u64::from(room < 9))
        );
    }
}
