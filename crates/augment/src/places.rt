// Owned places that a search or a walk has passed.
ghost use Rattle.std.specs.Prelude.{◌≡◌, ◌<◌, ◌≤◌, false, true, length, replicate, slice_set, IfOk};
ghost use Rattle.augment.specs.Walks.{AreOpposite, is_passed};
ghost use Rattle.mesh_graph.specs.declared.build.TheConstants.{MOST_GROUPS};

use std::alloc::{AllocError, Global};

/// Which owned places were passed. Beside that there is a bit for each place that was not, 64 to a
/// word, so that those that were need no second look.
#[derive(Drop)]
pub(crate) struct Places {
    pub passed: Vec<bool>,
    pub unpassed: Vec<u64>,
    pub ghost opposite: { AreOpposite unpassed.items passed.items },
}

impl Places {
    /// So many places, of which none was passed.
    pub(crate) fn new(alloc: Global, count: usize) -> Result<Self, AllocError>
        requires { count ≤ MOST_GROUPS }
        ensures { IfOk result (λ places. places.passed.items ≡ replicate count false) }
    {
        let passed = vec![in alloc; false; count]?;
        let unpassed = vec![in alloc; u64::MAX; (count + 63) / 64]?;
        Ok(Places { passed, unpassed })
    }

    /// Passes the place.
    pub(crate) fn pass(&mut self, place: usize)
        requires { place < length self.old.passed.items }
        ensures { self.new.passed.items ≡ slice_set self.old.passed.items place true }
    {
        self.passed[place] = true;
        self.unpassed[place / 64] &= !(1 << (place % 64));
    }

    /// Whether each place was passed.
    pub(crate) fn into_passed(self) -> Vec<bool>
        ensures { result ≡ self.passed }
    {
        self.passed
    }
}
