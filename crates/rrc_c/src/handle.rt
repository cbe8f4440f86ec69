// SPDX-License-Identifier: MIT
ghost use Rattle.std.specs.Prelude.{◌≡◌, Option, is_some};
ghost use Rattle.std.specs.Borrow.{sem};
ghost use Rattle.std.specs.Coded.{coded_option};
ghost use Rattle.std.specs.Option.{option_map};
ghost use Rattle.std_heap.specs.contracts.GlobalAllocator.TheImpl.{ghosts};
ghost use Rattle.rrc_c.specs.Handles.{sealed_owns};
ghost use Rattle.rrc_share.specs.contracts.cache_shelf.CacheShelf.{the_row};

use crate::boxed::Boxed;
use rrc_share::CacheShelf;
use std::alloc::Global;
use std::marker::Model;

/// A box with a shelf in it, or none, whose type names no type that C does not know.
#[repr(C)]
#[derive(Drop)]
pub struct Seal {
    at: *mut u8,
    alloc: Global,
    pub ghost shelf: { Option the_row.Denot } by { coded_option the_row.coded },
}

impl Model for Seal {
    ghost also_owns = { λ s. sealed_owns (ghosts.dealloc_token s.alloc) the_row s.at s.shelf };
}

unsafe impl Send for Seal {}

/// A shelf, if it was made and not freed. C owns it, and writes nothing into it but zeros, before
/// it is made.
#[repr(C)]
#[derive(Drop)]
pub struct Handle {
    pub seal: Seal,
    is_live: bool,
    ghost live: { is_live ≡ is_some seal.shelf },
}

impl Handle {
    ghost use Rattle.rrc_c.specs.Boxed.{boxed_shelf, IsBoxedShelf, LendsShelf};

    /// Whether there is a shelf.
    pub(crate) fn is_live(&self) -> bool
        ensures { result ≡ is_some self.now.seal.shelf }
    {
        self.is_live
    }

    /// The handle as what it lies in memory as, whose type C can't know.
    pub(crate) fn boxed(&mut self) -> &mut Boxed<CacheShelf>
        ensures* writes_back { sem 𝓛 (IsBoxedShelf self.entry result) }
        ensures value { result.now ≡ boxed_shelf self.old }
    {
        unsafe { &mut *(self as *mut Handle as *mut Boxed<CacheShelf>) }
    }

    /// The shelf, if there is one, to be changed where it lies.
    pub(crate) fn get_mut(&mut self) -> Option<&mut CacheShelf>
        ensures* writes_back { sem 𝓛 (LendsShelf self.entry result) }
        ensures value { option_map (λ it. it.now) result ≡ self.old.seal.shelf }
    {
        self.boxed().get_mut()
    }
}
