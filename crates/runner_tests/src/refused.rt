//! What a refused allocation leaves.
ghost use Rattle.std.specs.Prelude.{◌≡◌};

use crate::sinks::NO_PARTNER;
use mesh_graph::AtHand;
use std::alloc::{AllocError, Global};
use std::process::Abort;
use std::test::Fail;
use trace_runner::{CheckError, Memory, ReplayError, check_text, replay_serial};

const STALE_KEY: &[u8] =
    b"mesh 1\nshards 1\npages 4\nring 4\ngens 9\n0 put a 5\n0 get a\n0 free a\n0 get a\n0 put b 6\n0 get a\n";

const STALE_KEY_REPORT: &[u8] =
    b"6 key 0.0/0/1\n7 value 5\n8 yes\n9 none\n10 key 0.0/0/2\n11 none\nend pages 1 live 1 calls 6\n";

const ONE_FOLD: &[u8] =
    b"mesh 1\nshards 2\npages 4\nring 4\ngens 9\n0 fill a 2 10\n0 sweep a 0 1\n0 end\n1 put x 7\nmark\n1 get a.1\n";

const ONE_FOLD_REPORT: &[u8] =
    b"6 key 0.0/0/1\n6 key 0.0/1/1\n7 yes\n8 ended\n9 key 1.0/0/1\nmark 1 abandoned 1 owned 1 folds 1 pages 2\nfold 0.0 onto 1.0\nshort none\npartners none\n11 value 11\nstep 0.0 onto 1.0 folded\nclosed 1 pages 1\nend pages 1 live 2 calls 6\n";

const ONE_FOLD_CERTIFICATE: &[u8] =
    b"meshcert 2\nabandoned 1\n0.0 16 0200000000000000000000000000000000000000000000000000000000000000\nowned 1\n1.0 16 0100000000000000000000000000000000000000000000000000000000000000\nfolds 1\n0.0 1.0\nshort 0\nend\n";

const SECOND_CHOICE: &[u8] =
    b"mesh 1\nshards 4\npages 4\nring 4\ngens 9\n0 fill a 3 1\n0 sweep a 0 2\n1 fill b 2 4\n1 sweep b 0 1\n0 end\n1 end\n2 put c 6\n3 fill d 2 7\n3 sweep d 0 1\nmark\n";

const SECOND_CHOICE_REPORT: &[u8] =
    b"6 key 0.0/0/1\n6 key 0.0/1/1\n6 key 0.0/2/1\n7 yes\n7 yes\n8 key 1.0/0/1\n8 key 1.0/1/1\n9 yes\n10 ended\n11 ended\n12 key 2.0/0/1\n13 key 3.0/0/1\n13 key 3.0/1/1\n14 yes\nmark 1 abandoned 2 owned 2 folds 2 pages 4\nfold 0.0 onto 3.0\nfold 1.0 onto 2.0\nshort none\npartners none\nstep 0.0 onto 3.0 folded\nstep 1.0 onto 2.0 folded\nclosed 1 pages 2\nend pages 2 live 4 calls 14\n";

const SECOND_CHOICE_CERTIFICATE: &[u8] =
    b"meshcert 2\nabandoned 2\n0.0 16 0400000000000000000000000000000000000000000000000000000000000000\n1.0 16 0200000000000000000000000000000000000000000000000000000000000000\nowned 2\n2.0 16 0100000000000000000000000000000000000000000000000000000000000000\n3.0 16 0200000000000000000000000000000000000000000000000000000000000000\nfolds 2\n0.0 3.0\n1.0 2.0\nshort 0\nend\n";

const FOLD_TWICE: &[u8] =
    b"mesh 1\nshards 3\npages 4\nring 4\ngens 9\n0 put a 1\n0 end\n1 fill b 2 10\n1 sweep b 0 1\nmark\n1 end\n2 fill c 3 20\n2 sweep c 0 2\nmark\n2 get a\n2 get b.1\n2 get c.2\n";

const FOLD_TWICE_REPORT: &[u8] =
    b"6 key 0.0/0/1\n7 ended\n8 key 1.0/0/1\n8 key 1.0/1/1\n9 yes\nmark 1 abandoned 1 owned 1 folds 1 pages 2\nfold 0.0 onto 1.0\nshort none\npartners none\n11 ended\n12 key 2.0/0/1\n12 key 2.0/1/1\n12 key 2.0/2/1\n13 yes\n13 yes\nstep 0.0 onto 1.0 folded\nclosed 1 pages 2\nmark 2 abandoned 1 owned 1 folds 1 pages 2\nfold 1.0 onto 2.0\nshort none\npartners none\n15 value 1\n16 value 11\n17 value 22\nstep 1.0 onto 2.0 folded\nclosed 2 pages 1\nend pages 1 live 3 calls 14\n";

const FOLD_TWICE_CERTIFICATE: &[u8] =
    b"meshcert 2\nabandoned 1\n1.0 16 0300000000000000000000000000000000000000000000000000000000000000\nowned 1\n2.0 16 0400000000000000000000000000000000000000000000000000000000000000\nfolds 1\n1.0 2.0\nshort 0\nend\n";

const ADOPTION: &[u8] =
    b"mesh 1\nshards 2\npages 4\nring 4\ngens 9\n0 put a 5\n0 end\nadopt 1\nmark\n1 put b 6\n";

const ADOPTION_REPORT: &[u8] =
    b"6 key 0.0/0/1\n7 ended\n8 adopted 0.0\nmark 1 abandoned 0 owned 1 folds 0 pages 1\nshort none\npartners none\n10 key 0.0/1/1\nclosed 1 pages 1\nend pages 1 live 2 calls 3\n";

const ADOPTION_CERTIFICATE: &[u8] =
    b"meshcert 2\nabandoned 0\nowned 1\n0.0 16 0100000000000000000000000000000000000000000000000000000000000000\nfolds 0\nshort 0\nend\n";

/// A text that is no certificate.
fn before(alloc: Global) -> Result<Vec<u8>, AllocError> {
    match Vec::from_slice(alloc, b"before") {
        Ok(cert) => Ok(cert),
        Err(_) => Vec::from_slice(alloc, b"before"),
    }
}

// Replays the text. Where an allocation is refused, nothing is written and the certificate stays,
// and the same call is made again.
fn replay_again(
    rt: &(impl AllocGlobal + Abort),
    text: &[u8],
    out: &mut Memory,
    cert: &mut Vec<u8>,
) -> Result<(), ReplayError>
    requires { out.old.failures ≡ 0 }
{
    let result = replay_serial(&AtHand, rt.alloc(), text, true, out, cert);
    if result.is_ok() {
        return result;
    }
    // The report is in the sink's memory, so the last allocation is the sink's.
    let failures = if result == Err(ReplayError::SinkFailed) {
        1
    } else {
        assert_eq!(rt; result, Err(ReplayError::OutOfMemory));
        0
    };
    let is_kept = cert.as_slice() == b"before".as_slice();
    assert_eq!(rt;
        (out.failures, out.bytes.len(), is_kept),
        (failures, 0, true)
    );
    replay_serial(&AtHand, rt.alloc(), text, true, out, cert)
}

/// Whether the text has this report and this certificate, at once or where an allocation was
/// refused.
fn is_replayed(
    rt: &(impl AllocGlobal + Abort),
    text: &[u8],
    report: &[u8],
    certificate: &[u8],
) -> Result<(), Fail> {
    let mut cert = before(rt.alloc())?;
    let mut out = Memory::new(rt.alloc());
    let result = replay_again(rt, text, &mut out, &mut cert);
    assert_eq!(rt;
        (result, out.bytes.as_slice(), cert.as_slice()),
        (Ok(()), report, certificate)
    );
    Ok(())
}

#[test]
fn a_refused_growth_leaves_nothing(rt: HostRuntime) -> Result<(), Fail> {
    is_replayed(&rt, STALE_KEY, STALE_KEY_REPORT, b"")
}

#[test]
fn a_refused_growth_of_a_fold_leaves_nothing(rt: HostRuntime) -> Result<(), Fail> {
    is_replayed(&rt, ONE_FOLD, ONE_FOLD_REPORT, ONE_FOLD_CERTIFICATE)
}

#[test]
fn a_refused_growth_of_two_folds_leaves_nothing(rt: HostRuntime) -> Result<(), Fail> {
    is_replayed(
        &rt,
        SECOND_CHOICE,
        SECOND_CHOICE_REPORT,
        SECOND_CHOICE_CERTIFICATE,
    )
}

#[test]
fn a_refused_growth_of_two_marks_leaves_nothing(rt: HostRuntime) -> Result<(), Fail> {
    is_replayed(&rt, FOLD_TWICE, FOLD_TWICE_REPORT, FOLD_TWICE_CERTIFICATE)
}

#[test]
fn a_refused_growth_of_an_adoption_leaves_nothing(rt: HostRuntime) -> Result<(), Fail> {
    is_replayed(&rt, ADOPTION, ADOPTION_REPORT, ADOPTION_CERTIFICATE)
}

// Checks the certificate. Where an allocation is refused, nothing is written, and the same call is
// made again.
fn check_again(
    rt: &(impl AllocGlobal + Abort),
    text: &[u8],
    out: &mut Memory,
) -> Result<bool, CheckError>
    requires { out.old.failures ≡ 0 }
{
    let result = check_text(rt.alloc(), text, out);
    if result.is_ok() {
        return result;
    }
    let failures = if result == Err(CheckError::SinkFailed) {
        1
    } else {
        assert_eq!(rt; result, Err(CheckError::OutOfMemory));
        0
    };
    assert_eq!(rt; (out.failures, out.bytes.len()), (failures, 0));
    check_text(rt.alloc(), text, out)
}

#[test]
fn a_refused_growth_of_a_check_leaves_nothing(rt: HostRuntime) {
    let mut out = Memory::new(rt.alloc());
    let result = check_again(&rt, ONE_FOLD_CERTIFICATE, &mut out);
    assert_eq!(rt;
        (result, out.bytes.as_slice()),
        (
            Ok(true),
            b"accepted folds 1 short 0 partners 0\n".as_slice()
        )
    );
}

#[test]
fn a_refused_growth_of_a_rejection_leaves_nothing(rt: HostRuntime) {
    let mut out = Memory::new(rt.alloc());
    let result = check_again(&rt, NO_PARTNER, &mut out);
    assert_eq!(rt;
        (result, out.bytes.as_slice()),
        (Ok(false), b"rejected\n".as_slice())
    );
}
