// What a compaction keeps beside what it has gone through, from its first mark on.

use crate::past::Past;
use crate::work::{Stage, Work};
use arena_core::{Core, Refusal, Reply};
use certificate::Certificate;
use marks::Totals;
use span::spans::Counted;
use std::alloc::{AllocError, Global};

/// Which round of a compaction it is, in a box that comes with the first mark and stays: a core
/// that is not compacted has no room for it.
#[derive(Drop)]
pub(crate) struct LateWork {
    work: Option<Box<Work>>,
}

impl LateWork {
    /// That of a compaction which has made no mark. It takes no memory.
    pub(crate) fn new() -> LateWork {
        LateWork { work: None }
    }

    /// Has the next compaction begin with what this one has found.
    pub(crate) fn restart(&mut self) {
        if let Some(work) = &mut self.work {
            **work = work.next();
        }
    }

    /// Whether a compaction can be expected to pay of a core with these totals.
    pub(crate) fn pays(&self, totals: Totals, least_percent: usize) -> bool {
        match &self.work {
            Some(work) => work.pays(totals, least_percent),
            None => Past::none().pays(totals, least_percent),
        }
    }

    /// Whether the box is there.
    pub(crate) fn is_made(&self) -> bool {
        self.work.is_some()
    }

    /// Makes the box.
    ///
    /// # Errors
    ///
    /// `AllocError` if memory is refused.
    pub(crate) fn make(&mut self, alloc: Global) -> Result<(), AllocError> {
        self.work = Some(Box::new(alloc, Work::new())?);
        Ok(())
    }

    /// What comes next: the mark, if none was made.
    pub(crate) fn stage(&self) -> Stage {
        match &self.work {
            Some(work) => work.stage,
            None => Stage::Mark,
        }
    }

    /// The shard that is asked next.
    pub(crate) fn shard(&self) -> u32 {
        match &self.work {
            Some(work) => work.turn.shard,
            None => 0,
        }
    }

    /// What the next of so many shards retires of what is wanted, if others have as many.
    pub(crate) fn share(&self, shards: u32) -> usize {
        match &self.work {
            Some(work) => work.share(shards),
            None => 0,
        }
    }

    /// Notes what a mark planned, and whether that is worth another one.
    pub(crate) fn note_mark(&mut self, is_worth: bool, certificate: &Certificate) {
        if let Some(work) = &mut self.work {
            work.note_marked(is_worth, certificate);
        }
    }

    /// Notes how many groups one of so many shards retired of those that it was asked for. One that
    /// has ended has none.
    pub(crate) fn note_retirement(
        &mut self,
        reply: &Reply,
        shards: u32,
        share: usize,
        most: usize,
    ) {
        let count = match reply {
            Reply::Retired(count) => *count,
            Reply::Refused(Refusal::OutOfMemory | Refusal::PlanOpen) => return,
            _ => 0,
        };
        if let Some(work) = &mut self.work {
            work.note_retired(shards, count, share, most);
        }
    }

    /// Notes the adoption by one of so many shards, and goes on if it was the last one.
    pub(crate) fn note_adoption(
        &mut self,
        reply: &Reply,
        shards: u32,
        core: &Core<Counted>,
        budget: usize,
    ) {
        if let Some(work) = &mut self.work {
            if work.note_adopted(reply, shards) {
                work.end_adoptions(core, budget);
            }
        }
    }
}
