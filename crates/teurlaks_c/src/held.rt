// What a handle holds.
ghost use Rattle.std.specs.Prelude.{◌≡◌, IfOk, MatchOption, None, OnErr};
ghost use Rattle.certificate.specs.Text.{IsWritable};
ghost use Rattle.compaction.specs.Progress.{fresh};

use arena_core::Core;
use certificate::Certificate;
use compaction::Compaction;
use span::spans::Counted;
use std::alloc::{AllocError, Global};
use std::marker::Model;
use std::mem::replace;

/// A core whose changes are only counted, and what its last mark answered, so that a caller can ask
/// for the text of it afterwards.
#[derive(Drop)]
pub struct Held {
    /// The shards, the pool and the open plan.
    pub core: Core<Counted>,
    /// The certificate of the last mark that was asked for and not refused.
    pub last: LateWitness,
    /// Where the compaction of the core stands.
    pub compaction: Compaction,
}

impl Held {
    /// The core, of which no mark was made, and whose compaction has not begun.
    pub(crate) fn new(core: Core<Counted>) -> Held
        ensures core { result.core ≡ core }
        ensures last { result.last ≡ None }
        ensures compaction { result.compaction ≡ fresh }
    {
        Held {
            core,
            last: LateWitness::new(),
            compaction: Compaction::new(),
        }
    }
}

/// A certificate that is within the grammar of texts.
#[derive(Drop)]
pub struct Witness {
    /// What the mark saw, its plan, and its short set.
    pub certificate: Certificate,
    pub ghost writable: { IsWritable certificate },
}

/// The certificate that is kept, if there is one. Its room comes with the first mark, and stays:
/// until then it takes two words.
#[derive(Drop)]
pub struct LateWitness {
    room: Option<Box<Option<Witness>>>,
}

impl Model for LateWitness {
    ghost use Rattle.std.specs.Prelude.{None, Option, option_map, unwrap_or};
    ghost use Rattle.teurlaks_c.specs.declared.held.Witness.{Witness};
    ghost use Rattle.std.specs.Coded.{codes};
    ghost use Rattle.teurlaks_c.specs.contracts.held.Witness as witness;

    ghost Value = { Option Witness };

    ghost coded = { Prim.hlevel (codes, witness.the_row.coded) };

    ghost view = { λ late. unwrap_or (option_map (λ room. room.value) late.room) None };
}

impl LateWitness {
    /// No certificate. It takes no memory.
    pub(crate) fn new() -> LateWitness
        ensures { result ≡ None }
    {
        LateWitness { room: None }
    }

    /// The certificate, in its room, if there is any.
    pub(crate) fn room(&self) -> Option<&Option<Witness>>
        ensures { MatchOption result (self.now ≡ None) (λ last. self.now ≡ last.now) }
    {
        match &self.room {
            Some(room) => Some(&**room),
            None => None,
        }
    }

    /// Hands out the room with the certificate that is in it, and makes it first if there is none.
    ///
    /// # Errors
    ///
    /// `AllocError` if memory is refused. Nothing has changed then.
    pub(crate) fn take_room(&mut self, alloc: Global) -> Result<Box<Option<Witness>>, AllocError>
        ensures ok { IfOk result (λ room. room.value ≡ self.old) }
        ensures err { OnErr result (self.new ≡ self.old) }
    {
        match replace(&mut self.room, None) {
            Some(room) => Ok(room),
            None => Ok(Box::new(alloc, None)?),
        }
    }

    /// Keeps what is in the room.
    pub(crate) fn put_back(&mut self, room: Box<Option<Witness>>)
        ensures { self.new ≡ room.value }
    {
        self.room = Some(room);
    }
}
