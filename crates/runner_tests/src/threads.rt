//! Replays by threads.
use arena::Gate;
use std::alloc::Global;
use std::hint::spin_loop;
use std::sync::Wait;
use std::sync::atomic::{AtomicBool, Ordering};
use std::test::Fail;
use std::thread::Threads;
use thread_runner::replay_gated;
use trace_runner::Memory;

/// Two threads with a put each.
const TWO_PUTS: &[u8] = b"mesh 1\nshards 2\npages 4\nring 4\ngens 9\n0 put a 1\n1 put b 2\n";

const TWO_PUTS_REPORT: &[u8] =
    b"6 key 0.0/0/1\n7 key 1.0/0/1\nend pages 2 live 2 calls 2\naudit ok\n";

/// A plan whose step is taken beside thread 2, or else after it. The thread frees the key that is
/// to be folded.
const STEP_BESIDE_A_FREE: &[u8] =
    b"mesh 1\nshards 3\npages 4\nring 4\ngens 9\n0 put a 1\n0 end\n1 fill b 2 10\n1 sweep b 0 1\nmark\n2 put c 3\n2 free a\n";

/// The report where the step came before the free.
const STEP_BESIDE_A_FREE_REPORT: &[u8] =
    b"6 key 0.0/0/1\n7 ended\n8 key 1.0/0/1\n8 key 1.0/1/1\n9 yes\nmark 1 abandoned 1 owned 1 folds 1 pages 2\nfold 0.0 onto 1.0\nshort none\npartners none\n11 key 2.0/0/1\n12 yes\nstep 0.0 onto 1.0 folded\nclosed 1 pages 2\nend pages 2 live 2 calls 7\naudit ok\n";

/// Whether a shard's first call has come, and whether it met the other shard's.
#[derive(Drop)]
struct Visit {
    inside: AtomicBool,
    met: AtomicBool,
}

impl Visit {
    fn new() -> Visit {
        Visit {
            inside: AtomicBool::new(false),
            met: AtomicBool::new(false),
        }
    }

    /// Waits, where this is the shard's first call, for the other's to be inside too, for some
    /// seconds of a processor.
    fn meet(&self, other: &Visit) {
        if self.inside.swap(true, Ordering::SeqCst) {
            return;
        }
        for _ in 0..100_000_000 {
            if other.inside.load(Ordering::SeqCst) {
                self.met.store(true, Ordering::SeqCst);
                return;
            }
            spin_loop();
        }
    }
}

/// Each shard's first call waits for the other's.
#[derive(Drop)]
struct Meet<'a> {
    first: &'a Visit,
    second: &'a Visit,
}

impl<'a> Gate for Meet<'a> {
    fn inside(&self, shard: u32) {
        if shard == 0 {
            self.first.meet(self.second);
        } else {
            self.second.meet(self.first);
        }
    }
}

#[test]
fn threads_run_side_by_side(rt: HostRuntime) -> Result<(), Fail> {
    let alloc: Global = rt.alloc();
    let (first, second) = (Visit::new(), Visit::new());
    let mut out = Memory::new(alloc);
    let mut cert = Vec::new(alloc);
    let gate = Meet {
        first: &first,
        second: &second,
    };
    replay_gated(&rt, alloc, gate, TWO_PUTS, true, &mut out, &mut cert)?;
    assert_eq!(rt; out.bytes.as_slice(), TWO_PUTS_REPORT);
    assert!(rt; first.met.load(Ordering::SeqCst));
    assert!(rt; second.met.load(Ordering::SeqCst));
    Ok(())
}

/// Each call on shard 2 takes its time, in which it has a processor.
#[derive(Drop)]
struct Dawdle;

impl Gate for Dawdle {
    fn inside(&self, shard: u32) {
        if shard == 2 {
            for _ in 0..10_000_000 {
                spin_loop();
            }
        }
    }
}

/// Whether the step came before the free.
fn is_taken_beside<R: Threads + Wait + Sync>(rt: &R, alloc: Global) -> Result<bool, Fail> {
    let mut out = Memory::new(alloc);
    let mut cert = Vec::new(alloc);
    let text = STEP_BESIDE_A_FREE;
    replay_gated(rt, alloc, Dawdle, text, true, &mut out, &mut cert)?;
    Ok(out.bytes.as_slice() == STEP_BESIDE_A_FREE_REPORT)
}

#[test]
fn steps_are_taken_beside_threads(rt: HostRuntime) -> Result<(), Fail> {
    // The thread of the steps may come late to a processor: then once more.
    let mut is_beside = false;
    for _ in 0..20 {
        if is_taken_beside(&rt, rt.alloc())? {
            is_beside = true;
            break;
        }
    }
    assert!(rt; is_beside);
    Ok(())
}
