// What the handle of a thread has of an arena.
ghost use Rattle.std.specs.Arc.{arc_value};
ghost use Rattle.std.specs.Prelude.{◌≡◌, All};

use crate::held::Witness;
use crate::recorded::{RecordedRun, RecordedSeat, RecordedSteward};
use arena::{Arena, NoGate, Seat, Session, Steward};
use span::spans::Counted;
use std::alloc::Global;
use std::sync::Arc;

/// The arena of a service: its logs are only counted, and nothing is told of who is inside of a
/// shard.
pub type Shards = Arena<NoGate, Counted>;

/// A worker's seat, with a share of its arena, which goes with the last of its shares.
#[derive(Drop)]
pub struct SharedSeat {
    /// The arena.
    pub arena: Arc<Shards, Global>,
    /// The seat.
    pub seat: Seat,
    pub ghost fits: { seat.limits ≡ (arc_value arena).limits },
}

/// A worker's seat that keeps its shard out of its lock, with a share of its arena. The shard goes
/// back where this is dropped.
#[derive(Drop)]
pub struct SharedSession {
    /// The session.
    pub session: Session<NoGate, Counted>,
}

impl SharedSession {
    /// The seat, whose shard goes back to its lock.
    pub(crate) fn pause(self) -> SharedSeat
        ensures arena { result.arena ≡ self.session.arena }
        ensures seat { result.seat ≡ self.session.seat }
    {
        let SharedSession { session } = self;
        let (arena, seat) = session.pause();
        SharedSeat { arena, seat }
    }
}

/// The steward of an arena, which keeps the open plan, and what its last mark answered.
#[derive(Drop)]
pub struct StewardAndMark {
    /// The keeper of the open plan.
    pub steward: Steward,
    /// The certificate of the last mark that was not refused.
    pub last: Option<Witness>,
}

/// The steward of an arena, with a share of it.
#[derive(Drop)]
pub struct SharedSteward {
    /// The arena.
    pub arena: Arc<Shards, Global>,
    /// Its steward, and the last mark.
    pub inner: StewardAndMark,
    /// The seats that no thread has.
    pub seats: Vec<Seat>,
    pub ghost fits: { inner.steward.limits ≡ (arc_value arena).limits },
    pub ghost seats_fit: { All (λ seat. seat.limits ≡ (arc_value arena).limits) seats.items },
}

/// What a handle has: a seat, which may keep its shard, or a steward of an arena, whose run is
/// recorded or is not; or a recorded run that is over.
#[derive(Drop)]
pub enum Share {
    /// A worker's seat.
    Seat(SharedSeat),
    /// The steward.
    Steward(SharedSteward),
    /// A worker's seat that keeps its shard.
    Session(SharedSession),
    /// A worker's seat, with its receipts.
    RecordedSeat(RecordedSeat),
    /// The steward of an arena whose run is recorded.
    RecordedSteward(RecordedSteward),
    /// What is left of such an arena.
    Run(RecordedRun),
    /// Nothing: a call has taken out what is shared, to make another of these of it. No call leaves
    /// it behind.
    Nothing,
}
