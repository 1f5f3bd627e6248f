// What a caller keeps of a core: where it is.
ghost use Rattle.std.specs.Prelude.{◌≡◌, IsSome, MatchBool, MatchOption, None, Option, Some};
ghost use Rattle.teurlaks_c.specs.declared.held.Held.{Held};
ghost use Rattle.teurlaks_c.specs.Owned.{held_code, owns_held};

pub(crate) mod nullable;
mod unboxed;

use crate::held::Held;
use nullable::Nullable;
use std::alloc::Global;
use std::marker::Model;

/// Where a core is, or null where there is none. Only the library reads it; a caller moves it, and
/// never copies it.
#[repr(C)]
#[derive(Drop)]
pub struct Handle {
    at: *mut u8,
    pub ghost held: { Option Held } by { held_code },
}

impl Model for Handle {
    ghost also_owns = { λ h. owns_held h.at h.held };
}

impl Handle {
    ghost use Rattle.std.specs.Borrow.{sem};
    ghost use Rattle.teurlaks_c.specs.Lending.{LendsHeld, LendsHeldIf};

    /// A handle of nothing, which is what all zero bytes are.
    pub fn none() -> Handle
        ensures { result.held ≡ None }
    {
        Handle::of_nullable(Nullable::none())
    }

    /// A handle of what the box has.
    pub fn of(held: Box<Held>) -> Handle
        ensures { result.held ≡ Some held.value }
    {
        Handle::of_nullable(Nullable::of(held))
    }

    /// The box again, where there is one.
    pub fn into_box(self, alloc: Global) -> Option<Box<Held>>
        ensures { MatchOption result (self.held ≡ None) (λ held. self.held ≡ Some held.value) }
    {
        self.into_nullable().into_box(alloc)
    }

    /// What the handle holds, lent where it lies, or `None` if it holds nothing.
    // Nothing is written but by who writes through it.
    #[inline(always)]
    pub fn held(&mut self) -> Option<&mut Held>
        ensures* writes_back { sem 𝓛 (LendsHeldIf self.entry result) }
        ensures value { MatchOption result (self.old.held ≡ None)
            (λ held. self.old.held ≡ Some held.now) }
    {
        if self.is_null() {
            None
        } else {
            Some(self.lent())
        }
    }

    /// Whether the handle holds nothing.
    #[inline(always)]
    pub fn is_null(&mut self) -> bool
        ensures { (self.new ≡ self.old)
            × MatchBool result (self.old.held ≡ None) (IsSome self.old.held) }
    {
        self.at.is_null()
    }

    #[inline(always)]
    fn lent(&mut self) -> &mut Held
        requires { IsSome self.old.held }
        ensures* writes_back { sem 𝓛 (LendsHeld self.entry result) }
        ensures value { self.old.held ≡ Some result.now }
    {
        unsafe { &mut *(self.at as *mut Held) }
    }

    fn of_nullable(nullable: Nullable<Held>) -> Handle
        ensures { result.held ≡ nullable.value }
    {
        let Nullable { at } = nullable;
        Handle { at: at as *mut u8 }
    }

    fn into_nullable(self) -> Nullable<Held>
        ensures { result.value ≡ self.held }
    {
        let Handle { at } = self;
        Nullable {
            at: at as *mut Held,
        }
    }
}

unsafe impl Send for Handle {}
