// Spans that can never be live again, which an arena forgets.
ghost use Rattle.std.specs.Prelude.{◌≡◌, ◌↔◌, IfOk, IsErr, IsSome};

use crate::arena::Arena;
use crate::error::PlanOpen;
use crate::forgotten::Forgotten;
use crate::gate::Gate;
use crate::patience::{Patience, Tries, Waits};
use crate::steward::Steward;
use latch::Busy;
use span::spans::Counted;
use std::sync::Wait;

impl<G: Gate> Arena<G, Counted> {
    /// Forgets the spans that can never be live again, with their generations, under all locks, and
    /// answers how many went: each guest of the shards' groups in which no slot is live, and in the
    /// pool each such guest and all spans of groups in which no slot is live. They take no put, so
    /// none of their keys can be live again: each finds nothing, as before. Nothing else that a
    /// caller sees changes, as a private contract says of what the locks lend. It asks for memory
    /// only for a smaller table in the place of a larger one, which stays if there is none.
    ///
    /// Only an arena whose logs are counted forgets, since an audit reads all logs. The receipt of
    /// a look-up, a set or a free of a key whose span was forgotten says that nothing was found,
    /// after no change: its log is gone.
    ///
    /// # Errors
    ///
    /// [`PlanOpen`] exactly while the steward has a plan. Nothing is forgotten then.
    pub fn forget<R: Wait>(&self, rt: &R, steward: &Steward) -> Result<usize, PlanOpen>
        requires { steward.now.limits ≡ self.now.limits }
        ensures plan_open { IsErr result ↔ IsSome steward.now.plan }
    {
        let Ok(forgotten) = self.forget_within(&Waits { rt }, steward);
        Ok(forgotten?.count())
    }

    /// What [`Arena::forget`] does, if no other thread has a lock.
    ///
    /// # Errors
    ///
    /// [`Busy`] if another thread has one. Else the forgetting, whose error is that of
    /// [`Arena::forget`].
    pub fn try_forget(&self, steward: &Steward) -> Result<Result<usize, PlanOpen>, Busy>
        requires { steward.now.limits ≡ self.now.limits }
        ensures plan_open { IfOk result
            (λ forgotten. IsErr forgotten ↔ IsSome steward.now.plan) }
    {
        Ok(match self.forget_within(&Tries, steward)? {
            Ok(spans) => Ok(spans.count()),
            Err(refused) => Err(refused),
        })
    }

    // Has the shards and the pool forget, if no plan is open, once it has all locks.
    fn forget_within<P: Patience>(
        &self,
        patience: &P,
        steward: &Steward,
    ) -> Result<Result<Forgotten, PlanOpen>, P::Busy>
        ensures plan_open { IfOk result
            (λ forgotten. IsErr forgotten ↔ IsSome steward.now.plan) }
    {
        if steward.has_plan() {
            return Ok(Err(PlanOpen));
        }
        let mut pool = patience.lock(&self.pool)?;
        let mut shards = self.lock_all(patience)?;
        Ok(Ok(Forgotten::by(self, &mut pool, shards.as_mut_slice())))
    }
}
