// A call on what a latch keeps.
ghost use Rattle.std.specs.Prelude.{List};

/// A call on the value of a [`Latch`](crate::Latch), which is done with the value when it returns:
/// [`Latch::try_ask`](crate::Latch::try_ask) makes it where the value is. `W` is what it may write
/// into a room of the caller's.
pub trait Ask<T, W> {
    /// What it answers.
    type Answer;

    /// What it does, by the value and what the room has before, and by both after.
    ghost does: { Self → T → List W → Self.Answer → T → List W → Type 0 };

    /// Makes the call.
    fn ask(&self, value: &mut T, room: &mut [W]) -> Self::Answer
        ensures { does self.now value.old room.old result value.new room.new };
}
