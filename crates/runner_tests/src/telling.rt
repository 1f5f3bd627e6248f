//! Faults, with the messages and the statuses that they end with, where `examples/` can't show
//! them.
use command_line::{Fault, TellError, tell};
use std::alloc::Global;
use std::test::Fail;
use trace_runner::{Cause, Memory, ReplayError};

// What is printed for the fault: the status, standard output and standard error.
fn told(alloc: Global, fault: &Fault) -> Result<(u8, Memory, Memory), TellError> {
    let mut out = Memory::new(alloc);
    let mut err = Memory::new(alloc);
    let status = tell(alloc, fault, &mut out, &mut err)?;
    Ok((status, out, err))
}

// The last line that there may be.
#[test]
fn the_last_line(rt: HostRuntime) -> Result<(), Fail> {
    let fault = Fault::from(ReplayError::BadTrace {
        line: 18_446_744_073_709_551_615,
        cause: Cause::Bound,
    });
    let (status, out, err) = told(rt.alloc(), &fault)?;
    assert_eq!(rt;
        (status, out.bytes.as_slice(), err.bytes.as_slice()),
        (
            1,
            b"".as_slice(),
            b"line 18446744073709551615: bound\n".as_slice()
        )
    );
    Ok(())
}

// What is said of a line of this text in a file, which is named to people alone.
fn said(alloc: Global, text: &[u8], line: usize, cause: Cause) -> Result<Memory, Fail> {
    let fault = Fault::from(ReplayError::BadTrace { line, cause });
    let fault = fault.in_file(Some("t.txt".to_string(alloc)?), text);
    let (_, _, err) = told(alloc, &fault)?;
    Ok(err)
}

// People are told the name that a line binds again, or that no line above it binds.
#[test]
fn a_named_file(rt: HostRuntime) -> Result<(), Fail> {
    let text = b"1\n2\n3\n4\n5\n0 put a1 5\n0 fill a1 3 5\n0 get b23456789abcdefg.7".as_slice();
    assert_eq!(rt;
        said(rt.alloc(), text, 7, Cause::Bound)?.bytes.as_slice(),
        b"t.txt: line 7: the name a1 was bound before\nline 7: bound\n".as_slice()
    );
    assert_eq!(rt;
        said(rt.alloc(), text, 8, Cause::Unknown)?.bytes.as_slice(),
        b"t.txt: line 8: no earlier line bound the name b23456789abcdefg to such keys\nline 8: unknown\n".as_slice()
    );
    Ok(())
}

// A cause that is not about a name is told without one, and so is one of a line without a name.
#[test]
fn a_line_without_a_name(rt: HostRuntime) -> Result<(), Fail> {
    let text = b"0 put a1 5\n0 put 7\n0 put a.1.2 7\n\n".as_slice();
    for line in 0..6 {
        let mut wanted = Vec::new(rt.alloc());
        let name = if line < 2 { "the name a1" } else { "the name" };
        wanted.extend_from_slice(b"t.txt: line ")?;
        wanted.extend_from_slice(line.to_string(rt.alloc())?.as_bytes())?;
        wanted.extend_from_slice(b": ")?;
        wanted.extend_from_slice(name.as_bytes())?;
        wanted.extend_from_slice(b" was bound before\nline ")?;
        wanted.extend_from_slice(line.to_string(rt.alloc())?.as_bytes())?;
        wanted.extend_from_slice(b": bound\n")?;
        let err = said(rt.alloc(), text, line, Cause::Bound)?;
        assert_eq!(rt; err.bytes.as_slice(), wanted.as_slice());
    }
    assert_eq!(rt;
        said(rt.alloc(), text, 1, Cause::Early)?.bytes.as_slice(),
        b"t.txt: line 1: a mark must come before this line\nline 1: early\n".as_slice()
    );
    Ok(())
}
