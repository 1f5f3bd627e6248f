//! Certificates that are read, accepted and written again. Where an allocation is refused, what was
//! refused is asked again. Which texts are rejected, and what is said of those that are no
//! certificates, is tested with the program.
ghost use Rattle.std.specs.Prelude.{IfOk};
ghost use Rattle.certificate.specs.Text.{IsWritable};

use certificate::{Cause, Certificate, ReadError, Short, check, partners, read, write};
use mesh_graph::{AtHand, Snapshot};
use std::alloc::Global;

// Three groups compete for one place: in version 1, and as that is written.
const CLASSLESS: &str = "meshcert 1
abandoned 3
0.0 0100000000000000000000000000000000000000000000000000000000000000
1.0 0100000000000000000000000000000000000000000000000000000000000000
2.0 0100000000000000000000000000000000000000000000000000000000000000
owned 1
3.0 0200000000000000000000000000000000000000000000000000000000000000
folds 1
0.0 3.0
short 3
0.0
1.0
2.0
end
";

const COMPETING: &str = "meshcert 2
abandoned 3
0.0 16 0100000000000000000000000000000000000000000000000000000000000000
1.0 16 0100000000000000000000000000000000000000000000000000000000000000
2.0 16 0100000000000000000000000000000000000000000000000000000000000000
owned 1
3.0 16 0200000000000000000000000000000000000000000000000000000000000000
folds 1
0.0 3.0
short 3
0.0
1.0
2.0
end
";

// Two groups compete for a place of their class, and another group has no place of its own.
const CLASSES: &str = "meshcert 2
abandoned 3
0.0 16 0100000000000000000000000000000000000000000000000000000000000000
0.1 64 0100000000000000000000000000000000000000000000000000000000000000
0.2 64 0100000000000000000000000000000000000000000000000000000000000000
owned 2
1.0 64 0200000000000000000000000000000000000000000000000000000000000000
1.1 256 0200000000000000000000000000000000000000000000000000000000000000
folds 1
0.1 1.0
short 3
0.0
0.1
0.2
end
";

// Groups of spans that were opened late, beside one that was opened early.
const LATE: &str = "meshcert 3
abandoned 2
0.1023 16 0100000000000000000000000000000000000000000000000000000000000000
0.70000 64 0100000000000000000000000000000000000000000000000000000000000000
owned 1
1.4294967294 64 0200000000000000000000000000000000000000000000000000000000000000
folds 1
0.70000 1.4294967294
short 1
0.1023
end
";

// Two groups of 85 slots, of which one has the last, compete for a place of their class.
const WIDTHS: &str = "meshcert 3
abandoned 2
0.0 48 0100000000000000000000000000000000000000000000000000000000000000
0.1 48 0000000000000000000010000000000000000000000000000000000000000000
owned 2
1.0 48 0200000000000000000000000000000000000000000000000000000000000000
1.1 64 0200000000000000000000000000000000000000000000000000000000000000
folds 1
0.0 1.0
short 2
0.0
0.1
end
";

const NONE: &str = "meshcert 2
abandoned 0
owned 0
folds 0
short 0
end
";

// The short set has a group twice.
const FAULTY: &str = "meshcert 2
abandoned 0
owned 0
folds 0
short 2
0.0
0.0
end
";

fn read_again(alloc: Global, text: &str) -> Result<Certificate, ReadError>
    ensures { IfOk result IsWritable }
{
    match read(alloc, text.as_bytes()) {
        Err(ReadError::OutOfMemory) => read(alloc, text.as_bytes()),
        answer => answer,
    }
}

fn is_written(alloc: Global, certificate: &Certificate, text: &str) -> bool
    requires { IsWritable certificate.now }
{
    let written = match write(alloc, certificate) {
        Err(_) => write(alloc, certificate),
        written => written,
    };
    match written {
        Ok(written) => written.as_slice() == text.as_bytes(),
        Err(_) => false,
    }
}

fn partner_count(alloc: Global, snapshot: &Snapshot, short: &Short) -> Option<usize> {
    let found = match partners(&AtHand, alloc, snapshot, short, 1) {
        Err(_) => partners(&AtHand, alloc, snapshot, short, 1),
        found => found,
    };
    Some(found.ok()?.len())
}

// How many pairs, members of the short set and partners of those the certificate has, if it is
// accepted.
fn sizes(alloc: Global, certificate: &Certificate) -> Option<(usize, usize, usize)> {
    let Certificate {
        snapshot,
        plan,
        short,
    } = certificate;
    if !check(snapshot, plan, short) {
        return None;
    }
    let partners = partner_count(alloc, snapshot, short)?;
    Some((plan.pairs().len(), short.ids().len(), partners))
}

// The sizes of the certificate that the text is, if this text is written of it.
fn accepted(alloc: Global, text: &str, written: &str) -> Option<(usize, usize, usize)> {
    let certificate = read_again(alloc, text).ok()?;
    if is_written(alloc, &certificate, written) {
        sizes(alloc, &certificate)
    } else {
        None
    }
}

#[test]
fn a_certificate_is_accepted(rt: HostRuntime) {
    assert_eq!(rt;
        (
            accepted(rt.alloc(), COMPETING, COMPETING),
            accepted(rt.alloc(), NONE, NONE)
        ),
        (Some((1, 3, 1)), Some((0, 0, 0)))
    );
}

#[test]
fn a_certificate_of_two_classes_is_accepted(rt: HostRuntime) {
    assert_eq!(rt; accepted(rt.alloc(), CLASSES, CLASSES), Some((1, 3, 1)));
}

#[test]
fn version_1_is_read_and_version_2_is_written(rt: HostRuntime) {
    assert_eq!(rt; accepted(rt.alloc(), CLASSLESS, COMPETING), Some((1, 3, 1)));
}

#[test]
fn serials_above_those_of_version_2_are_read_and_written_in_version_3(rt: HostRuntime) {
    assert_eq!(rt; accepted(rt.alloc(), LATE, LATE), Some((1, 1, 0)));
}

#[test]
fn classes_that_version_2_lacks_are_read_and_written_in_version_3(rt: HostRuntime) {
    assert_eq!(rt; accepted(rt.alloc(), WIDTHS, WIDTHS), Some((1, 2, 1)));
}

fn fault(alloc: Global, text: &str) -> Option<ReadError> {
    read_again(alloc, text).err()
}

#[test]
fn the_line_at_fault_is_told(rt: HostRuntime) {
    let order = ReadError::BadCertificate {
        line: 7,
        cause: Cause::Order,
    };
    assert_eq!(rt; fault(rt.alloc(), FAULTY), Some(order));
}
