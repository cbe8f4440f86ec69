// SPDX-License-Identifier: MIT
ghost use Rattle.std.specs.Prelude.{◌≡◌, Option, is_some};
ghost use Rattle.std.specs.Borrow.{sem};
ghost use Rattle.std.specs.Coded.{coded_option};
ghost use Rattle.std.specs.Option.{option_map};
ghost use Rattle.std_heap.specs.contracts.GlobalAllocator.TheImpl.{ghosts};
ghost use Rattle.rrc_c.specs.Handles.{sealed_owns};
ghost use Rattle.rrc_shelf.specs.contracts.taken.Taken.{the_row};

use crate::boxed::Boxed;
use rrc_shelf::Taken;
use std::alloc::Global;
use std::marker::Model;

/// A box with chapters in it, or none, whose type names no type that C does not know.
#[repr(C)]
#[derive(Drop)]
pub struct ChapterSeal {
    at: *mut u8,
    alloc: Global,
    pub ghost chapters: { Option the_row.Denot } by { coded_option the_row.coded },
}

impl Model for ChapterSeal {
    ghost also_owns = { λ s. sealed_owns (ghosts.dealloc_token s.alloc) the_row s.at s.chapters };
}

unsafe impl Send for ChapterSeal {}

/// Chapters that left a shelf, if they were taken and not freed. C owns it, and writes nothing into
/// it but zeros, before chapters are taken.
#[repr(C)]
#[derive(Drop)]
pub struct Chapters {
    pub seal: ChapterSeal,
    is_live: bool,
    ghost live: { is_live ≡ is_some seal.chapters },
}

impl Chapters {
    ghost use Rattle.rrc_c.specs.Boxed.{boxed_chapters, IsBoxedChapters, LendsChapters};

    /// Whether there are chapters.
    pub(crate) fn is_live(&self) -> bool
        ensures { result ≡ is_some self.now.seal.chapters }
    {
        self.is_live
    }

    /// The handle as what it lies in memory as, whose type C can't know.
    pub(crate) fn boxed(&mut self) -> &mut Boxed<Taken>
        ensures* writes_back { sem 𝓛 (IsBoxedChapters self.entry result) }
        ensures value { result.now ≡ boxed_chapters self.old }
    {
        unsafe { &mut *(self as *mut Chapters as *mut Boxed<Taken>) }
    }

    /// The chapters, if there are some, to be changed where they lie.
    pub(crate) fn get_mut(&mut self) -> Option<&mut Taken>
        ensures* writes_back { sem 𝓛 (LendsChapters self.entry result) }
        ensures value { option_map (λ it. it.now) result ≡ self.old.seal.chapters }
    {
        self.boxed().get_mut()
    }
}
