// Pages with nothing live, which go while the shard goes on.
ghost use Rattle.std.specs.Prelude.{◌≡◌, ◌-◌, ◌<◌, ◌≤◌, Some, drop, is_some, length, slice_get, take};
ghost use Rattle.std.specs.List.{filter};
ghost use Rattle.shard.specs.Group.{GroupState};
ghost use Rattle.shard.specs.Shown.{shown};
ghost use Rattle.shard.specs.Sound.{IsSound};
ghost use Rattle.shard.specs.Trims.{Trims, TrimsSome, changed_from, is_idle, trimmed};

use super::Shard;
use crate::group_row::GroupRow;
use span::spans::Log;
use std::alloc::{AllocError, Global};

/// What a trim of some groups did.
#[derive(Clone, Copy, PartialEq, Eq, Debug)]
pub struct TrimPart {
    /// How many groups these are.
    pub groups: usize,
    /// How many of them gave their page back.
    pub pages: usize,
}

impl<L: Log> Shard<L> {
    /// Gives back the page of each open group in which no slot is live, and answers how many went.
    /// The groups stay, and with them their keys' generations: a later put into one of them opens a
    /// page for it. A closed group keeps its page. It takes no memory.
    pub fn trim(&mut self) -> usize
        ensures trims { Trims self.old result self.new }
        ensures plain { shown self.new ≡ shown self.old }
        ensures sound { IsSound self.new }
    {
        let end = self.groups.len();
        trim_each(&mut self.groups, self.alloc, 0, end)
    }

    /// What [`Shard::trim`] does, but of up to `most` groups alone, from the index `from` on, by
    /// ascending head. There are fewer than `most` only if no more follow. It takes no memory.
    pub fn trim_some(&mut self, from: usize, most: usize) -> TrimPart
        ensures trims { TrimsSome from most self.old result self.new }
        ensures plain { shown self.new ≡ shown self.old }
        ensures sound { IsSound self.new }
    {
        let end = from.saturating_add(most).min(self.groups.len());
        let pages = trim_each(&mut self.groups, self.alloc, from, end);
        TrimPart {
            groups: end.saturating_sub(from),
            pages,
        }
    }

    /// Moves the page of the group at the index, if it has one, to a block that it asks for now,
    /// and changes nothing else. A source of pages that hands out its lowest free block first can
    /// so empty its upper end.
    ///
    /// # Errors
    ///
    /// `AllocError` if the block is refused.
    pub fn renew(&mut self, index: usize) -> Result<(), AllocError>
        requires { index < length self.old.groups }
        ensures same { self.new ≡ self.old }
        ensures sound { IsSound self.new }
    {
        self.groups[index].renew(self.alloc)
    }

    /// Whether the group at the index, by ascending head, has a page.
    pub fn is_paged(&self, index: usize) -> bool
        requires { index < length self.now.groups }
        ensures { (group : GroupState) → slice_get self.now.groups index ≡ Some group
            → result ≡ is_some group.page }
    {
        self.groups[index].is_paged()
    }
}

// Trims the groups from one index on up to another, and says how many gave their page back.
fn trim_each<L: Log>(groups: &mut GroupRow<L>, alloc: Global, from: usize, end: usize) -> usize
    requires { end ≤ length groups.old.items }
    ensures items { groups.new.items ≡ changed_from trimmed from (end - from) groups.old.items }
    ensures pages { result
        ≡ length (filter is_idle (take (end - from) (drop from groups.old.items))) }
    ensures capacity { groups.new.room ≡ groups.old.room }
{
    let mut pages = 0;
    for index in from..end {
        if groups[index].trim(alloc) {
            pages += 1;
        }
    }
    pages
}
