// A box's pointer without its type and without its allocator, as C keeps it, or null.
ghost use Rattle.std.specs.Prelude.{◌≡◌, MatchOption, None, Option, Some};
ghost use Rattle.std.specs.Coded.{coded_option};
ghost use Rattle.teurlaks_c.specs.Owned.{owns_box};

use crate::handle::unboxed::Unboxed;
use std::alloc::Global;
use std::marker::Model;

/// Where a value lies that was in a box of the system's allocator, or null if there is none. It
/// owns what the box owned.
pub struct Nullable<T> {
    pub(crate) at: *mut T,
    pub ghost value: { Option T } by { coded_option T.code },
}

impl<T> Model for Nullable<T> {
    ghost also_owns = { λ n. owns_box T.row n.at n.value };
}

impl<T> Nullable<T> {
    /// Null, of no box.
    pub(crate) fn none() -> Nullable<T>
        ensures { result.value ≡ None }
    {
        Nullable {
            at: std::ptr::null_mut(),
        }
    }

    /// The pointer of the box.
    pub(crate) fn of(held: Box<T>) -> Nullable<T>
    where
        T: Drop,
        ensures { result.value ≡ Some held.value }
    {
        Nullable::of_unboxed(Unboxed::from_box(held))
    }

    /// The box again, if there is one.
    pub(crate) fn into_box(self, alloc: Global) -> Option<Box<T>>
        ensures { MatchOption result (self.value ≡ None) (λ held. self.value ≡ Some held.value) }
    {
        match self.into_unboxed(alloc) {
            Some(unboxed) => Some(unboxed.into_box()),
            None => None,
        }
    }

    fn of_unboxed(unboxed: Unboxed<T, Global>) -> Nullable<T>
        ensures { result.value ≡ Some unboxed.value }
    {
        let Unboxed { at, alloc: _ } = unboxed;
        Nullable { at }
    }

    fn into_unboxed(self, alloc: Global) -> Option<Unboxed<T, Global>>
        ensures { MatchOption result (self.value ≡ None) (λ held. self.value ≡ Some held.value) }
    {
        let Nullable { at } = self;
        if at.is_null() {
            None
        } else {
            Some(Unboxed { at, alloc })
        }
    }
}
