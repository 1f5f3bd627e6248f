// Who is planned with whom.
ghost use Rattle.std.specs.Prelude.{◌≡◌, ◌<◌, length, slice_set, Some, None, IfSome, IfOk, replicate};
ghost use Rattle.augment.specs.Mates.{mate, ArePaired};

use std::alloc::{AllocError, Global};

/// Who is planned with whom, by the places of both sides.
#[derive(Drop)]
pub(crate) struct Mates {
    /// The owned place that each abandoned one is planned onto.
    pub onto: Vec<Option<usize>>,
    /// The abandoned place that is planned onto each owned one.
    pub planned: Vec<Option<usize>>,
    pub ghost paired: { ArePaired onto.items planned.items },
}

impl Mates {
    /// Nobody is planned.
    pub(crate) fn new(alloc: Global, abandoned: usize, owned: usize) -> Result<Self, AllocError>
        ensures onto { IfOk result (λ mates. mates.onto.items ≡ replicate abandoned None) }
        ensures planned { IfOk result (λ mates. mates.planned.items ≡ replicate owned None) }
    {
        let onto = vec![in alloc; None; abandoned]?;
        let planned = vec![in alloc; None; owned]?;
        Ok(Mates { onto, planned })
    }

    /// Plans an abandoned place onto a free owned one, and answers the one that it leaves, which is
    /// free then.
    pub(crate) fn pair_up(&mut self, abandoned: usize, owned: usize) -> Option<usize>
        requires abandoned_in { abandoned < length self.old.onto.items }
        requires owned_in { owned < length self.old.planned.items }
        requires free { mate self.old.planned.items owned ≡ None }
        ensures onto { self.new.onto.items ≡ slice_set self.old.onto.items abandoned (Some owned) }
        ensures left { result ≡ mate self.old.onto.items abandoned }
        ensures freed { IfSome result (λ k. mate self.new.planned.items k ≡ None) }
        ensures owned { length self.new.planned.items ≡ length self.old.planned.items }
    {
        let left = self.onto[abandoned].replace(owned);
        if let Some(k) = left {
            self.planned[k] = None;
        }
        self.planned[owned] = Some(abandoned);
        left
    }
}
