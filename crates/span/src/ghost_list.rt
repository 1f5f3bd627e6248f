//! Lists that only proofs read.
ghost use Rattle.std.specs.Prelude.{◌≡◌, List, [], ◌∷◌, ◌++◌};
ghost use Rattle.std.specs.Borrow.{ftrue};
ghost use Rattle.std.specs.Coded.{coded_list};

use std::marker::{Model, PhantomData};

/// A list of values as clauses see them, which only proofs read: it has no bytes, and its calls do
/// nothing when they run.
///
/// No memory ties the list to anything, so what it says rests on the contracts of the type that
/// keeps it: no body decides anything by it. `named` is proved by hand, and each other call that
/// makes such a list names its items by that one.
pub struct GhostList<T> {
    marker: PhantomData<T>,
    pub ghost items: { List T } by { coded_list T.code },
}

impl<T> Model for GhostList<T> {
    ghost also_owns = { λ _. ftrue };
}

// It owns nothing.
unsafe impl<T> Send for GhostList<T> {}

// It owns nothing.
unsafe impl<T> Sync for GhostList<T> {}

impl<T> Drop for GhostList<T> {
    #[inline(always)]
    fn drop(self) {
        let Self { marker: _ } = self;
    }
}

impl<T> GhostList<T> {
    // The items that the caller's proof names.
    #[inline(always)]
    fn named() -> GhostList<T>
        ghost items: { List T }
        ensures { result.items ≡ items }
    {
        GhostList {
            marker: PhantomData,
        }
    }

    /// The items that the caller's proof names, by the two values that are lent.
    #[inline(always)]
    pub fn of<A, B>(_first: &A, _second: &B) -> GhostList<T>
        ghost items: { List T }
        ensures { result.items ≡ items }
    {
        GhostList::named()
    }

    /// No item.
    #[inline(always)]
    pub fn new() -> GhostList<T>
        ensures { result.items ≡ [] }
    {
        GhostList::named()
    }

    /// The items of the list.
    #[inline(always)]
    pub fn listed(items: &Vec<T>) -> GhostList<T>
        ensures { result.items ≡ items.now.items }
    {
        GhostList::of(items, &())
    }

    /// The same items.
    #[inline(always)]
    pub fn again(&self) -> GhostList<T>
        ensures { result.items ≡ self.now.items }
    {
        GhostList::of(self, &())
    }

    /// These items, and one more.
    #[inline(always)]
    pub fn pushed(&self, item: &T) -> GhostList<T>
        ensures { result.items ≡ self.now.items ++ item.now ∷ [] }
    {
        GhostList::of(self, item)
    }

    /// These items, and then those of the other.
    #[inline(always)]
    pub fn appended(&self, more: &GhostList<T>) -> GhostList<T>
        ensures { result.items ≡ self.now.items ++ more.now.items }
    {
        GhostList::of(self, more)
    }
}
