// Groups that leave one after another, while their places stay until all have left.
ghost use Rattle.std.specs.Prelude.{◌≡◌, ◌≤◌, filter, length};
ghost use Rattle.bitmap.specs.declared.numbers.TheConstants.{MOST_NUMBERS};
ghost use Rattle.shard.specs.Leaving.{has_stayed, swept};
ghost use Rattle.shard.specs.Moves.{Lifts};
ghost use Rattle.shard.specs.Rooms.{HaveRoom, RoomsFollow, room_of};
ghost use Rattle.shard.specs.Sound.{IsSound};
ghost use Rattle.span.specs.declared.class.Class.{Class};

use super::Shard;
use crate::class_rooms::ClassRooms;
use crate::group::Group;
use crate::group_row::GroupRow;
use crate::least_live::{clear_byte, clear_bytes};
use groups::Whole;
use span::names::SpanId;
use span::spans::Log;
use std::mem::replace;

impl<L: Log> Shard<L> {
    /// The group of the head leaves, with its guests and its page, and no other moves up: where it
    /// stood stays a place of no account, until [`Shard::sweep`] drops all such places. So many
    /// that leave cost a walk together, where each [`Shard::lift`] costs one. `None` where the
    /// shard does not have the group, or it has left. It takes no memory.
    pub fn lift_aside(&mut self, head: SpanId) -> Option<Whole<L>>
        ensures lifts { Lifts (swept self.old) head result (swept self.new) }
        ensures sound { IsSound self.new }
    {
        let Some(index) = self.find_head(head) else {
            return None;
        };
        let group = &mut self.groups[index];
        if group.has_left() {
            return None;
        }
        let place = Group::left_by(self.alloc, group.head_id(), group.class(), self.gens);
        let (spans, page) = replace(group, place).into_parts();
        clear_byte(&mut self.least, index);
        self.guests.depart(spans.guests());
        self.heads.strike_guests(self.number, spans.guests());
        Some(Whole::new(spans, page))
    }

    /// Drops the places of groups that have left. It takes no memory.
    pub fn sweep(&mut self)
        ensures swept { self.new ≡ swept self.old }
        ensures sound { IsSound self.new }
    {
        sweep_rooms(&self.groups, &mut self.rooms);
        self.heads.strike_heads(self.number, &self.groups);
        self.groups.drop_left();
        self.heads.note_from(&self.groups, 0, self.number);
        clear_bytes(&mut self.least);
    }
}

// Has the sets name the groups that have not left by the indexes that they get where the others'
// places go.
fn sweep_rooms<L: Log>(groups: &GroupRow<L>, rooms: &mut ClassRooms)
    requires few { length groups.now.items ≤ MOST_NUMBERS }
    requires room { HaveRoom groups.now.items rooms.old (length groups.now.items) }
    ensures has { RoomsFollow groups.now.items (filter has_stayed groups.now.items) rooms.old
        rooms.new }
    ensures room { (class : Class) → room_of rooms.new class ≡ room_of rooms.old class }
{
    let mut next = 0;
    for index in 0..groups.len() {
        let place = &groups[index];
        let class = place.class();
        if place.has_left() {
            rooms.remove_all(class, index);
            continue;
        }
        rooms.move_to(class, index, next);
        next += 1;
    }
}
