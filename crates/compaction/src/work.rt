// Which round of a compaction it is, and what comes next in it.

use crate::occupancy::{MOST_GROUPS, Occupancy};
use crate::past::Past;
use crate::round::Round;
use crate::rounds::Rounds;
use crate::turn::Turn;
use arena_core::{Core, Refusal, Reply};
use bitmap::Bits256;
use certificate::Certificate;
use marks::Totals;
use mesh_graph::Snapshot;
use span::spans::Counted;

/// What comes next while no plan of the compaction is open.
#[derive(Clone, Copy)]
pub(crate) enum Stage {
    Retire,
    // The adoptions of those that are kept.
    Keep,
    Mark,
    // The adoptions of what is left.
    Adopt,
    // The spans that can never be live again, now that others are empty.
    End,
}

/// Which round of a compaction it is, and what comes next in it, from its first mark on.
#[derive(Drop)]
pub(crate) struct Work {
    pub(crate) stage: Stage,
    // How many slots are occupied on some page that a mark saw: no object changes its slot, so no
    // page can have more objects in the end.
    slots: usize,
    past: Past,
    pub(crate) turn: Turn,
    rounds: Rounds,
    round: Round,
}

impl Work {
    /// That of a compaction which has made no mark.
    pub(crate) fn new() -> Work {
        Work {
            stage: Stage::Mark,
            slots: 1,
            past: Past::none(),
            turn: Turn::first(),
            rounds: Rounds::none(),
            round: Round::of_pool(),
        }
    }

    /// That of the next compaction, which knows what this one has found.
    pub(crate) fn next(&self) -> Work {
        Work {
            past: self.past,
            ..Work::new()
        }
    }

    /// Whether another compaction can be expected to pay of a core with these totals.
    pub(crate) fn pays(&self, totals: Totals, least_percent: usize) -> bool {
        self.past.pays(totals, least_percent)
    }

    /// What the next shard retires of what is wanted, if others of so many have as many.
    pub(crate) fn share(&self, shards: u32) -> usize {
        if self.turn.due > 0 {
            self.turn.due
        } else {
            self.round.share(self.turn.shards_left(shards))
        }
    }

    /// Notes what the mark planned, of which side, and what the pages are.
    pub(crate) fn note_marked(&mut self, is_worth: bool, certificate: &Certificate) {
        self.round = self.round.with_mark(is_worth, leaves_some(certificate));
        self.slots = self.slots.max(occupied_slots(&certificate.snapshot));
        self.past = self.past.with_slots(slots_of(&certificate.snapshot));
        self.turn = Turn::first();
        self.stage = if self.round.is_again {
            Stage::Mark
        } else {
            Stage::Adopt
        };
    }

    /// Notes how many groups the shard retired of those that it was asked for.
    pub(crate) fn note_retired(&mut self, shards: u32, count: usize, share: usize, most: usize) {
        self.round = self.round.with_retired(count);
        let before = self.turn;
        self.turn = if count < most {
            self.after(before.without_this(), shards)
        } else if share > most {
            before.with_due(share - most)
        } else {
            self.after(before, shards)
        };
        let is_around = self.round.is_by_shards() || self.turn.shard <= before.shard;
        if (self.round.wanted() == 0 && is_around) || self.turn.is_over(shards) {
            self.turn = Turn::first();
            self.stage = if self.round.to_keep() > 0 {
                Stage::Keep
            } else {
                Stage::Mark
            };
        }
    }

    // The turn of the shard that is asked after this one. Each is asked once for a group at least,
    // since the sparsest ones may all be of one shard.
    fn after(&self, turn: Turn, shards: u32) -> Turn {
        if self.round.is_by_shards() {
            turn.next_but_one(shards)
        } else {
            turn.next(shards)
        }
    }

    /// Notes who adopted the group, and answers whether no further one is to be adopted. Groups
    /// come by ascending heads, so that a shard adopts what follows on its own.
    pub(crate) fn note_adopted(&mut self, reply: &Reply, shards: u32) -> bool {
        match reply {
            Reply::Adopted(head) => {
                self.turn = Turn::first().at(head.shard);
                self.round = self.round.with_kept();
                matches!(self.stage, Stage::Keep) && self.round.to_keep() == 0
            }
            Reply::Refused(Refusal::OutOfMemory | Refusal::PlanOpen) => false,
            Reply::Refused(Refusal::NothingToAdopt) => true,
            _ => {
                let turn = self.turn.without_this();
                self.turn = turn.before(shards);
                turn.is_over(shards)
            }
        }
    }

    /// Goes on with the mark, or with the next round, if there is one.
    pub(crate) fn end_adoptions(&mut self, core: &Core<Counted>, budget: usize) {
        self.turn = Turn::first();
        if matches!(self.stage, Stage::Keep) {
            self.stage = Stage::Mark;
            return;
        }
        if self.round.has_division() {
            self.rounds.note(self.round.is_worth);
        }
        let totals = core.totals();
        let pages = Occupancy::new(totals, self.slots);
        match self.rounds.next(pages, budget) {
            Some(division) => {
                self.round = Round::of(division);
                self.stage = Stage::Retire;
            }
            None => {
                self.round = Round::of_pool();
                self.stage = Stage::End;
                self.past = self.past.with_left(core.estimate());
            }
        }
    }
}

// Whether the plan leaves groups in the pool, or may not have seen all.
fn leaves_some(certificate: &Certificate) -> bool {
    let abandoned = certificate.snapshot.abandoned().len();
    certificate.plan.pairs().len() < abandoned || abandoned >= MOST_GROUPS
}

// How many slots are occupied by some group that a mark saw, or 1.
fn occupied_slots(snapshot: &Snapshot) -> usize {
    let mut occupied = Bits256::empty();
    for entry in snapshot.owned() {
        occupied = occupied.union(&entry.occupied);
    }
    for entry in snapshot.abandoned() {
        occupied = occupied.union(&entry.occupied);
    }
    (occupied.count() as usize).max(1)
}

// How many slots a page has, of the class with the most that a mark saw in shards.
fn slots_of(snapshot: &Snapshot) -> usize {
    let mut slots = 1usize;
    for entry in snapshot.owned() {
        slots = slots.max(usize::from(entry.class.slots()));
    }
    slots
}
