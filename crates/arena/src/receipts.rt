// Where the receipts of the keys go that are taken from rings.
ghost use Rattle.std.specs.Prelude.{◌≡◌, ◌≤◌, ◌<◌, ◌+◌, ◌^◌, ℕ, List, [], ◌∷◌, ◌++◌, OnOk};
ghost use Rattle.span.specs.ReceiptLists.{kept_receipts, receipt_room};
ghost use Rattle.span.specs.declared.receipt.Receipt.{Receipt};
ghost use Rattle.arena.specs.Receipts.{IsFree};
ghost use Rattle.arena.specs.DroppedReceipts.{dropped_receipts};

use span::ghost_list::GhostList;
use span::receipts::{Receipt, ReceiptList};
use std::alloc::AllocError;

/// Where the receipts of the keys go that are taken from rings, and freed: into a list, which keeps
/// them for an audit, or nowhere, as [`Dropped`].
///
/// Contracts see all receipts in both, so no other clause speaks of the choice.
pub trait Receipts: Drop {
    /// The receipts, the oldest first.
    ghost told: { Self → List Receipt };

    /// How many more of frees it takes with no memory.
    ghost room: { Self → ℕ };

    /// Makes room for that many more receipts of frees.
    ///
    /// # Errors
    ///
    /// `AllocError` if memory runs out. The receipts are then as they were, and the room has not
    /// shrunk.
    fn make_room(&mut self, more: usize) -> Result<(), AllocError>
        ensures told { told self.new ≡ told self.old }
        ensures room { room self.old ≤ room self.new }
        ensures ok { OnOk result (more ≤ room self.new) };

    /// Adds the receipt of a free at the end, in reserved room, which needs no memory.
    fn tell(&mut self, receipt: Receipt)
        requires room { 0 < room self.old }
        requires free { IsFree receipt }
        ensures told { told self.new ≡ told self.old ++ receipt ∷ [] }
        ensures room { room self.old ≤ room self.new + 1 };
}

/// A list keeps its receipts: 48 bytes for each of a free, or for several that follow one another.
impl Receipts for ReceiptList {
    ghost told = { kept_receipts };

    ghost room = { receipt_room };

    fn make_room(&mut self, more: usize) -> Result<(), AllocError> {
        self.reserve(more, 0)
    }

    fn tell(&mut self, receipt: Receipt) {
        self.push_reserved(&receipt);
    }
}

/// Keeps no receipt, and takes no memory: for a service whose run is not audited. Proofs alone
/// carry the receipts along.
#[derive(Drop)]
pub struct Dropped {
    receipts: GhostList<Receipt>,
}

impl Dropped {
    /// No receipt yet.
    pub fn new() -> Dropped
        ensures { dropped_receipts result ≡ [] }
    {
        Dropped {
            receipts: GhostList::new(),
        }
    }
}

impl Receipts for Dropped {
    ghost told = { dropped_receipts };

    // There is always room.
    ghost room = { λ d. 2 ^ 64 };

    fn make_room(&mut self, _more: usize) -> Result<(), AllocError> {
        Ok(())
    }

    #[inline(always)]
    fn tell(&mut self, receipt: Receipt) {
        self.receipts = self.receipts.pushed(&receipt);
    }
}
