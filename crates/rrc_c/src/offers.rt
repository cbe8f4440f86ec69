// SPDX-License-Identifier: MIT
ghost use Rattle.std.specs.Prelude.{◌≡◌, Option, is_some};
ghost use Rattle.std.specs.Borrow.{sem};
ghost use Rattle.std.specs.Coded.{coded_option};
ghost use Rattle.std.specs.Option.{option_map};
ghost use Rattle.std_heap.specs.contracts.GlobalAllocator.TheImpl.{ghosts};
ghost use Rattle.rrc_c.specs.Handles.{sealed_owns};
ghost use Rattle.rrc_shelf.specs.contracts.reading.Reading.{the_row};

use crate::boxed::Boxed;
use rrc_shelf::Reading;
use std::alloc::Global;
use std::marker::Model;

/// A box with a reading in it, or none, whose type names no type that C does not know.
#[repr(C)]
#[derive(Drop)]
pub struct ReadingSeal {
    at: *mut u8,
    alloc: Global,
    pub ghost reading: { Option the_row.Denot } by { coded_option the_row.coded },
}

impl Model for ReadingSeal {
    ghost also_owns = { λ s. sealed_owns (ghosts.dealloc_token s.alloc) the_row s.at s.reading };
}

unsafe impl Send for ReadingSeal {}

/// The offers of a message, if one was read and they were not freed. C owns it, and writes nothing
/// into it but zeros, before a message is read.
#[repr(C)]
#[derive(Drop)]
pub struct Offers {
    pub seal: ReadingSeal,
    is_live: bool,
    ghost live: { is_live ≡ is_some seal.reading },
}

impl Offers {
    ghost use Rattle.rrc_c.specs.Boxed.{boxed_offers, IsBoxedOffers, LendsOffers};

    /// Whether there are offers.
    pub(crate) fn is_live(&self) -> bool
        ensures { result ≡ is_some self.now.seal.reading }
    {
        self.is_live
    }

    /// The handle as what it lies in memory as, whose type C can't know.
    pub(crate) fn boxed(&mut self) -> &mut Boxed<Reading>
        ensures* writes_back { sem 𝓛 (IsBoxedOffers self.entry result) }
        ensures value { result.now ≡ boxed_offers self.old }
    {
        unsafe { &mut *(self as *mut Offers as *mut Boxed<Reading>) }
    }

    /// The offers, if there are some, to be changed where they lie.
    pub(crate) fn get_mut(&mut self) -> Option<&mut Reading>
        ensures* writes_back { sem 𝓛 (LendsOffers self.entry result) }
        ensures value { option_map (λ it. it.now) result ≡ self.old.seal.reading }
    {
        self.boxed().get_mut()
    }
}
