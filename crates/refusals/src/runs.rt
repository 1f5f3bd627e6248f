//! Runs of events on a core, which make room for their replies before the first event.
use crate::cores::{Told, tell};
use crate::refusing::{Rounds, Script, Subject};
use arena_core::{Core, Event, Reply};
use span::names::{Key, Object, SpanId};
use std::alloc::Global;
use std::sync::Wait;

/// How many keys there are.
const KEYS: u8 = 6;

/// What a run of a look-up and a free leaves.
#[derive(Clone, Copy, PartialEq)]
pub(crate) enum Ran {
    /// So many replies, of which this is the last.
    Replies(usize, Option<Told>),
    OutOfMemory,
}

/// A core with a few keys, and the replies of all its runs.
#[derive(Drop)]
pub(crate) struct Runner {
    core: Core,
    replies: Vec<Reply>,
}

// A look-up and a free take no memory, so a growth is one of the replies.
fn run(core: &mut Core, replies: &mut Vec<Reply>, key: Key) -> Ran {
    let events = [Event::Get { key }, Event::Free { key }];
    match core.run(&events, replies) {
        Ok(()) => Ran::Replies(replies.len(), last_of(replies.as_slice())),
        Err(_) => Ran::OutOfMemory,
    }
}

fn last_of(replies: &[Reply]) -> Option<Told> {
    Some(tell(replies.last()?))
}

fn new_core(alloc: Global) -> Option<Core> {
    let mut core = Core::new(alloc, 1, 8, 4, 9).ok()?;
    for word in 0..KEYS {
        let value = Object::c16(u128::from(word));
        if let Reply::Refused(_) = core.step(Event::Put { shard: 0, value }) {
            return None;
        }
    }
    Some(core)
}

impl Subject for Runner {
    type Call = Key;

    type Told = Ran;

    fn fresh<R: Wait>(_rt: &R, alloc: Global) -> Option<Runner> {
        Some(Runner {
            core: new_core(alloc)?,
            replies: Vec::new(alloc),
        })
    }

    fn answer<R: Wait>(&mut self, _rt: &R, key: Key) -> Ran {
        run(&mut self.core, &mut self.replies, key)
    }

    fn out_of_memory() -> Ran {
        Ran::OutOfMemory
    }

    fn may_do_without(_key: Key) -> bool {
        false
    }

    fn is_like<R: Wait>(&mut self, _rt: &R, twin: &mut Runner, _told: &[Ran]) -> bool {
        self.core.totals() == twin.core.totals() && self.replies.len() == twin.replies.len()
    }
}

fn keys(alloc: Global) -> Option<Vec<Key>> {
    let mut keys = Vec::new(alloc);
    for slot in 0..KEYS {
        keys.push(Key::new(SpanId::new(0, 0)?, slot, 1)?).ok()?;
    }
    Some(keys)
}

fn rounds_of<R: Wait>(rt: &R, alloc: Global) -> Option<Rounds> {
    let script = Script::<Runner>::new(rt, alloc, keys(alloc)?)?;
    script.rounds(rt, alloc)
}

#[test]
fn refuses_each(rt: HostRuntime) {
    let rounds = rounds_of(&rt, rt.alloc());
    assert!(rt;
        matches!(rounds, Some(rounds) if rounds.are_well()),
        "{rounds:?}"
    );
}
