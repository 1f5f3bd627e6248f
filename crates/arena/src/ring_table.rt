// Which rings the seats of an arena send and take by, as contracts see it.
ghost use Rattle.std.specs.Prelude.{◌≡◌};
ghost use Rattle.remote_queue.specs.Rings.{inbox_rings};
ghost use Rattle.arena.specs.Seats.{table_of_ends};

use remote_queue::{Inbox, Links, Outbox};
use span::ghost_list::GhostList;
use std::marker::Model;
use std::mem::swap;

/// Which rings there are between the workers and the shards of an arena. Contracts alone see it: it
/// has no bytes.
#[derive(Drop)]
pub struct RingTable {
    // The ends by worker and by shard. That a seat's ends are of rings of these is a fact of the
    // type that has both (`Seat`).
    rows: GhostList<Vec<Outbox>>,
    columns: GhostList<Vec<Inbox>>,
}

impl Model for RingTable {
    ghost use Rattle.arena.specs.Seats.{Table, table_of_ends};

    ghost Value = { Table };

    ghost view = { λ table. table_of_ends table.rows.items table.columns.items };
}

impl RingTable {
    // The rings of these ends.
    pub(crate) fn of(links: &Links) -> RingTable
        ensures { result ≡ table_of_ends links.now.outboxes.items links.now.inboxes.items }
    {
        RingTable {
            rows: GhostList::listed(&links.outboxes),
            columns: GhostList::listed(&links.inboxes),
        }
    }

    // The same rings.
    pub(crate) fn again(&self) -> RingTable
        ensures { result ≡ self.now }
    {
        RingTable {
            rows: self.rows.again(),
            columns: self.columns.again(),
        }
    }

    // Gives its rings by shard for others.
    pub(crate) fn swap_columns(&mut self, columns: &mut GhostList<Vec<Inbox>>)
        ensures table { self.new
            ≡ record { rows = self.old.rows; columns = inbox_rings columns.old.items } }
        ensures columns { inbox_rings columns.new.items ≡ self.old.columns }
    {
        swap(&mut self.columns, columns);
    }
}
