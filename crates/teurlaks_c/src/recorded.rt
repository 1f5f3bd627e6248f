// What handles have of an arena whose run is recorded, to be audited when it is over.
ghost use Rattle.std.specs.Arc.{arc_value};
ghost use Rattle.std.specs.Prelude.{◌≡◌, All};

use crate::share::StewardAndMark;
use arena::{Arena, NoGate, Seat};
use span::receipts::ReceiptList;
use span::spans::SpanLog;
use std::alloc::Global;
use std::sync::Arc;

/// An arena that keeps the log of each span.
pub type RecordedShards = Arena<NoGate>;

/// A seat, with the receipts of all calls that were made at it, by one thread after another.
#[derive(Drop)]
pub struct KeptSeat {
    /// The seat.
    pub seat: Seat,
    /// The receipts, in the order of the calls.
    pub receipts: ReceiptList,
}

/// A worker's seat at a recorded arena, with a share of that.
#[derive(Drop)]
pub struct RecordedSeat {
    /// The arena.
    pub arena: Arc<RecordedShards, Global>,
    /// The seat, with its receipts.
    pub kept: KeptSeat,
    pub ghost fits: { kept.seat.limits ≡ (arc_value arena).limits },
}

/// The steward of a recorded arena, with a share of that.
#[derive(Drop)]
pub struct RecordedSteward {
    /// The arena.
    pub arena: Arc<RecordedShards, Global>,
    /// Its steward, and the last mark.
    pub inner: StewardAndMark,
    /// The seats that no thread has.
    pub seats: Vec<KeptSeat>,
    pub ghost fits: { inner.steward.limits ≡ (arc_value arena).limits },
    pub ghost seats_fit: { All (λ kept. kept.seat.limits ≡ (arc_value arena).limits) seats.items },
}

/// What a recorded arena leaves when its run is over.
#[derive(Drop)]
pub struct RecordedRun {
    /// The logs of all spans.
    pub logs: Vec<SpanLog>,
    /// The receipts of each seat.
    pub lists: Vec<ReceiptList>,
}
