//! What is made new: a core, an arena and rings.
use crate::refusing::{Rounds, Script, Subject};
use arena::{Arena, NoGate, OpenError};
use arena_core::{Core, CoreError};
use remote_queue::{LinkError, link};
use std::alloc::Global;
use std::sync::Wait;

/// What is to be made.
#[derive(Clone, Copy)]
pub(crate) enum New {
    Core,
    Arena,
    Rings,
}

#[derive(Clone, Copy, PartialEq)]
pub(crate) enum Told {
    /// It was made, with so many pages, seats or rows of rings.
    Made(usize),
    OutOfMemory,
    Config,
}

/// Makes what it is asked for, and lets it go.
#[derive(Drop)]
pub(crate) struct Maker {
    alloc: Global,
}

fn new_core(alloc: Global) -> Told {
    match Core::new(alloc, 6, 8, 4, 9) {
        Ok(core) => Told::Made(core.totals().pages),
        Err(CoreError::Config) => Told::Config,
    }
}

fn new_arena(alloc: Global) -> Told {
    match Arena::open(alloc, 3, 8, 4, 9, NoGate) {
        Ok((_, seats, _)) => Told::Made(seats.len()),
        Err(OpenError::OutOfMemory) => Told::OutOfMemory,
        Err(OpenError::Config) => Told::Config,
    }
}

fn new_rings(alloc: Global) -> Told {
    match link(alloc, 3, 2, 4) {
        Ok(links) => Told::Made(links.outboxes.len()),
        Err(LinkError::OutOfMemory) => Told::OutOfMemory,
        Err(LinkError::Config) => Told::Config,
    }
}

impl Subject for Maker {
    type Call = New;

    type Told = Told;

    fn fresh<R: Wait>(_rt: &R, alloc: Global) -> Option<Maker> {
        Some(Maker { alloc })
    }

    fn answer<R: Wait>(&mut self, _rt: &R, call: New) -> Told {
        match call {
            New::Core => new_core(self.alloc),
            New::Arena => new_arena(self.alloc),
            New::Rings => new_rings(self.alloc),
        }
    }

    fn out_of_memory() -> Told {
        Told::OutOfMemory
    }

    fn may_do_without(_call: New) -> bool {
        false
    }

    fn is_like<R: Wait>(&mut self, _rt: &R, _twin: &mut Maker, _told: &[Told]) -> bool {
        true
    }
}

fn rounds_of<R: Wait>(rt: &R, alloc: Global) -> Option<Rounds> {
    let calls = vec![in alloc; New::Core, New::Arena, New::Rings].ok()?;
    let script = Script::<Maker>::new(rt, alloc, calls)?;
    script.rounds(rt, alloc)
}

#[test]
fn refuses_each(rt: HostRuntime) {
    let rounds = rounds_of(&rt, rt.alloc());
    assert!(rt;
        matches!(rounds, Some(rounds) if rounds.are_well()),
        "{rounds:?}"
    );
}
