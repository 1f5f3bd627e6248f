// Guests that can never be live again, which a shard forgets.
ghost use Rattle.std.specs.Prelude.{◌≡◌, ◌+◌, ◌≤◌, List, length, map as map_list};
ghost use Rattle.span.specs.declared.key.Key.{Key};
ghost use Rattle.shard.specs.Guests.{KeepsRoom};
ghost use Rattle.shard.specs.HeadWindow.{end_of};
ghost use Rattle.shard.specs.Heads.{HasNotesFor, KnowsHeads, KnowsNoHeads};
ghost use Rattle.groups.specs.Dead.{AreEntered, dead_among, forgotten, live_among, without_dead};
ghost use Rattle.groups.specs.Directory.{KnowsGuests, struck, with_entries};
ghost use Rattle.groups.specs.Group.{AreNoHeads, Ascend, GuestsAreNoHeads, HaveGuestsOnce};
ghost use Rattle.shard.specs.Forgets.{Forgets};
ghost use Rattle.shard.specs.Group.{GroupState};
ghost use Rattle.shard.specs.Shown.{shown};
ghost use Rattle.shard.specs.Sound.{IsSound};
ghost use Rattle.span.specs.declared.limits.TheConstants.{ALL_IDS};

use super::Shard;
use crate::group::Group;
use crate::group_row::GroupRow;
use crate::head_indexes::HeadIndexes;
use crate::late_guests::LateGuests;
use span::spans::Counted;

impl Shard<Counted> {
    /// Forgets each guest in which no slot is live, and answers how many. A guest takes no put, so
    /// none of its keys can be live again: a look-up and a free of one no longer find its span.
    /// Heads stay, since they may take puts, and pages do. It takes no memory.
    pub fn forget(&mut self) -> usize
        ensures forgets { Forgets self.old result self.new }
        ensures at_most { result ≤ ALL_IDS }
        ensures value { (key : Key) → (shown self.new).value_of key
            ≡ (shown self.old).value_of key }
        ensures sound { IsSound self.new }
    {
        let before = self.span_count();
        forget_all(
            &mut self.groups,
            &mut self.guests,
            &mut self.heads,
            self.number,
            self.group_room,
        );
        before - self.span_count()
    }
}

// Has each group forget its guests in which no slot is live, and notes where the others stand then.
// Then gives back the room of groups that were folded, if half of it is enough for the groups that
// are here and for those that room is reserved for.
fn forget_all(
    groups: &mut GroupRow<Counted>,
    guests: &mut LateGuests<Counted>,
    heads: &mut HeadIndexes,
    number: u32,
    room: usize,
)
    requires room { length groups.old.items + room ≤ groups.old.room }
    requires known { KnowsGuests groups.old.items guests.old.directory.entries }
    requires ascend { Ascend groups.old.items }
    requires noted { KnowsNoHeads number groups.old.items guests.old.directory.entries heads.old }
    requires heads { KnowsHeads number groups.old.items heads.old }
    requires apart { GuestsAreNoHeads groups.old.items }
    requires once { HaveGuestsOnce groups.old.items }
    ensures items { groups.new.items ≡ map_list without_dead groups.old.items }
    ensures capacity { length groups.new.items + room ≤ groups.new.room }
    ensures known { KnowsGuests groups.new.items guests.new.directory.entries }
    ensures room { guests.new.directory.room ≡ guests.old.directory.room }
    ensures spans { KeepsRoom guests.old guests.new }
    ensures noted { KnowsNoHeads number groups.old.items guests.new.directory.entries heads.new }
    ensures heads { KnowsHeads number groups.old.items heads.new }
    ensures end { end_of heads.new ≡ end_of heads.old }
{
    forget_each(groups, guests, heads, number);
    give_back(groups, room);
}

// Gives room back if half of it is enough.
fn give_back(groups: &mut GroupRow<Counted>, room: usize)
    requires { length groups.old.items + room ≤ groups.old.room }
    ensures items { groups.new.items ≡ groups.old.items }
    ensures room { length groups.new.items + room ≤ groups.new.room }
{
    let capacity = groups.capacity();
    let wanted = groups.len() + room;
    if wanted <= capacity / 2 {
        groups.shrink_to(wanted);
    }
}

// Has each of the groups forget its guests in which no slot is live.
fn forget_each(
    groups: &mut GroupRow<Counted>,
    guests: &mut LateGuests<Counted>,
    heads: &mut HeadIndexes,
    number: u32,
)
    requires known { KnowsGuests groups.old.items guests.old.directory.entries }
    requires ascend { Ascend groups.old.items }
    requires noted { KnowsNoHeads number groups.old.items guests.old.directory.entries heads.old }
    requires heads { KnowsHeads number groups.old.items heads.old }
    requires apart { GuestsAreNoHeads groups.old.items }
    requires once { HaveGuestsOnce groups.old.items }
    ensures items { groups.new.items ≡ map_list without_dead groups.old.items }
    ensures capacity { groups.new.room ≡ groups.old.room }
    ensures known { KnowsGuests groups.new.items guests.new.directory.entries }
    ensures room { guests.new.directory.room ≡ guests.old.directory.room }
    ensures spans { KeepsRoom guests.old guests.new }
    ensures noted { KnowsNoHeads number groups.old.items guests.new.directory.entries heads.new }
    ensures heads { KnowsHeads number groups.old.items heads.new }
    ensures end { end_of heads.new ≡ end_of heads.old }
{
    for index in 0..groups.len() {
        forget_in(&mut groups[index], guests, heads, number);
    }
}

// Has the group forget its guests in which no slot is live. The entries of the others say where
// they stand then.
fn forget_in(
    group: &mut Group<Counted>,
    guests: &mut LateGuests<Counted>,
    heads: &mut HeadIndexes,
    number: u32,
)
    requires entered { AreEntered (struck guests.old.directory.entries
        (dead_among group.old.guests)) (live_among group.old.guests) }
    requires fit { HasNotesFor number heads.old 0 (live_among group.old.guests) }
    ensures group { group.new ≡ without_dead group.old }
    ensures directory { guests.new.directory ≡ with_entries guests.old.directory
        (forgotten guests.old.directory.entries group.old) }
    ensures spans { KeepsRoom guests.old guests.new }
    ensures noted { (all : List GroupState) → KnowsNoHeads number all guests.old.directory.entries
        heads.old → KnowsNoHeads number all guests.new.directory.entries heads.new }
    ensures heads { (groups : List GroupState) → KnowsHeads number groups heads.old
        → AreNoHeads groups group.old.guests → KnowsHeads number groups heads.new }
    ensures base { heads.new.base ≡ heads.old.base }
    ensures end { end_of heads.new ≡ end_of heads.old }
{
    guests.strike_dead(group.spans().guests());
    heads.strike_dead_guests(number, group.spans().guests());
    group.forget_guests();
    guests.move_all(group.spans().guests(), group.head_id());
    heads.note_guests(number, 0, group.spans().guests(), group.head_id());
}
