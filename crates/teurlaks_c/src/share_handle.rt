// What a thread keeps of an arena: where its seat is, or its steward.
ghost use Rattle.std.specs.Prelude.{◌≡◌, MatchOption, None, Option, Some};
ghost use Rattle.teurlaks_c.specs.declared.share.Share.{Share};
ghost use Rattle.teurlaks_c.specs.Owned.{owns_share, share_code};

use crate::handle::nullable::Nullable;
use crate::share::Share;
use std::alloc::Global;
use std::marker::Model;

/// Where a seat or a steward is, or null where there is none. Only the library reads it; a caller
/// moves it, to another thread too, and never copies it.
#[repr(C)]
#[derive(Drop)]
pub struct ShareHandle {
    at: *mut u8,
    pub ghost share: { Option Share } by { share_code },
}

impl Model for ShareHandle {
    ghost also_owns = { λ h. owns_share h.at h.share };
}

impl ShareHandle {
    /// A handle of nothing, which is what all zero bytes are.
    pub fn none() -> ShareHandle
        ensures { result.share ≡ None }
    {
        ShareHandle::of_nullable(Nullable::none())
    }

    /// A handle of what the box has.
    pub fn of(share: Box<Share>) -> ShareHandle
        ensures { result.share ≡ Some share.value }
    {
        ShareHandle::of_nullable(Nullable::of(share))
    }

    /// The box again, where there is one.
    pub fn into_box(self, alloc: Global) -> Option<Box<Share>>
        ensures { MatchOption result (self.share ≡ None) (λ share. self.share ≡ Some share.value) }
    {
        self.into_nullable().into_box(alloc)
    }

    fn of_nullable(nullable: Nullable<Share>) -> ShareHandle
        ensures { result.share ≡ nullable.value }
    {
        let Nullable { at } = nullable;
        ShareHandle { at: at as *mut u8 }
    }

    fn into_nullable(self) -> Nullable<Share>
        ensures { result.value ≡ self.share }
    {
        let ShareHandle { at } = self;
        Nullable {
            at: at as *mut Share,
        }
    }
}

unsafe impl Send for ShareHandle {}
