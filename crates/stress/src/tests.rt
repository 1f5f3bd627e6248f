//! That a run of many threads comes to what it ought to.
use crate::runs::{Told, Turn, run};
use crate::worker::Trouble;
use audit::AuditError;
use std::test::Fail;

// What a run must come to: no call met what none may, the audit is passed, that many marks were
// made, none of them was refused or told other groups than there were, and no step missed its
// groups.
fn wanted(made: usize) -> (Option<Trouble>, Result<(), AuditError>, [usize; 4]) {
    (None, Ok(()), [made, 0, 0, 0])
}

// Whether keys were left for later, and each was taken once.
fn all_taken(told: &Told) -> bool {
    told.sent > 1000 && told.taken == told.sent
}

// Whether objects were set in place, each of which the audit then held against the logs.
fn some_replaced(told: &Told) -> bool {
    told.replaced > 1000
}

// What it came to.
fn summary(told: &Told) -> (Option<Trouble>, Result<(), AuditError>, [usize; 4]) {
    let marks = told.marks;
    (
        told.trouble,
        told.verdict,
        [marks.made, marks.refused, marks.miscounted, marks.missed],
    )
}

#[test]
fn marks_between_sections(rt: HostRuntime) -> Result<(), Fail> {
    let told = run(&rt, rt.alloc(), Turn::Between)?;
    assert_eq!(rt; summary(&told), wanted(10));
    // Nobody is in the way of an end or a retirement, and the first plan always finds groups that
    // fit.
    let moved = told.retired > 0 && told.marks.folded > 0;
    let came = (told.ended, moved, all_taken(&told), some_replaced(&told));
    assert_eq!(rt; came, (4, true, true, true));
    Ok(())
}

#[test]
fn marks_beside_sections(rt: HostRuntime) -> Result<(), Fail> {
    let told = run(&rt, rt.alloc(), Turn::Beside)?;
    let came = (all_taken(&told), some_replaced(&told));
    assert_eq!(rt; (summary(&told), came), (wanted(200), (true, true)));
    Ok(())
}
