//! Checks a certificate.

ghost use Rattle.std.specs.Prelude.{◌≡◌, ◌<◌, ◌-◌, ◌^◌, IfOk, IfErr, OnOk};
ghost use Rattle.trace_runner.specs.Verdict.{StopsCheck, WritesVerdict, verdict_line};

use crate::fault::CheckError;
use crate::sink::{Sink, give};
use crate::writing::push_number;
use certificate::{Certificate, check, partner_count, read};
use std::alloc::{AllocError, Global};

/// Reads a certificate, checks it, gives the line that says so to `out`, and answers whether it is
/// accepted: whether its plan is one of its snapshot and its short set shows that no plan has more
/// pairs. The line is `accepted folds F short K partners Q`, with the numbers of its pairs, of its
/// short set and of the partners of that, or `rejected`.
///
/// `BadCertificate` comes exactly for a text that is no certificate, with its first line at fault
/// and the first cause that holds of it. `SinkFailed` comes where `out` failed; it has then taken a
/// prefix of the line. `OutOfMemory` comes where an allocation was refused. After the first and the
/// last `out` has taken nothing.
pub fn check_text<S: Sink>(alloc: Global, text: &[u8], out: &mut S) -> Result<bool, CheckError>
    requires { S.failures out.old < 2 ^ 64 - 1 }
    ensures ok { IfOk result (WritesVerdict text.now (S.taken out.old) (S.taken out.new)) }
    ensures succeeded { OnOk result (S.failures out.new ≡ S.failures out.old) }
    ensures err { IfErr result (StopsCheck text.now (S.failures out.old) (S.failures out.new)
        (S.taken out.old) (S.taken out.new)) }
{
    let certificate = read(alloc, text)?;
    let accepted = check(&certificate.snapshot, &certificate.plan, &certificate.short);
    let line = verdict_line(alloc, &certificate, accepted)?;
    match give(out, line.as_slice()) {
        Ok(()) => Ok(accepted),
        Err(_) => Err(CheckError::SinkFailed),
    }
}

/// The line that says whether the certificate is accepted.
fn verdict_line(
    alloc: Global,
    certificate: &Certificate,
    accepted: bool,
) -> Result<Vec<u8>, AllocError>
    ensures { IfOk result (λ line. line.items ≡ verdict_line certificate.now accepted) }
{
    if !accepted {
        return Vec::from_slice(alloc, b"rejected\n");
    }
    let partners = partner_count(&certificate.snapshot, certificate.short.ids());
    let mut line = Vec::from_slice(alloc, b"accepted folds ")?;
    push_number(&mut line, certificate.plan.pairs().len())?;
    line.extend_from_slice(b" short ")?;
    push_number(&mut line, certificate.short.ids().len())?;
    line.extend_from_slice(b" partners ")?;
    push_number(&mut line, partners)?;
    line.extend_from_slice(b"\n")?;
    Ok(line)
}
