// SPDX-License-Identifier: MIT
ghost use Rattle.std.specs.Prelude.{◌≡◌, ℕ, Option, None, Some, IsSome};
ghost use Rattle.std.specs.Coded.{coded_option};
ghost use Rattle.rrc_c.specs.Handles.{glance_owns, glance_shares, sight_owns};
ghost use Rattle.rrc_share.specs.contracts.cache_shelf.CacheShelf.{the_row};

use rrc_share::CacheShelf;
use std::marker::Model;
use std::ptr;

/// A shelf that is lent for a time.
#[derive(Drop)]
pub struct Glance {
    at: *mut CacheShelf,
    pub ghost shelf: { the_row.Denot } by { the_row.coded },
    pub ghost life: { ℕ },
}

impl Model for Glance {
    ghost also_owns = { λ g. glance_owns g.at g.life g.shelf };

    ghost also_shares = { λ g _ κ. glance_shares g.at g.shelf κ };
}

impl Glance {
    /// The shelf.
    pub(crate) fn get(&self) -> &CacheShelf
        ensures { result.now ≡ self.now.shelf }
    {
        unsafe { &*self.at }
    }
}

/// A shelf that is lent for a time, or none, whose type names no type that C does not know.
#[repr(C)]
#[derive(Drop)]
pub struct Sight {
    at: *mut u8,
    pub ghost shelf: { Option the_row.Denot } by { coded_option the_row.coded },
    pub ghost life: { ℕ },
}

impl Model for Sight {
    ghost also_owns = { λ s. sight_owns s.at s.life s.shelf };
}

impl Sight {
    /// No shelf.
    pub(crate) fn empty() -> Sight
        ensures { result.shelf ≡ None }
    {
        Sight {
            at: ptr::null_mut(),
        }
    }

    /// A shelf that is lent, sealed.
    pub(crate) fn of(glance: Glance) -> Sight
        ensures { (result.shelf ≡ Some glance.shelf) × (result.life ≡ glance.life) }
    {
        let Glance { at } = glance;
        Sight { at: at as *mut u8 }
    }

    /// The shelf that was sealed.
    pub(crate) fn into_glance(self) -> Glance
        requires { IsSome self.shelf }
        ensures { (self.shelf ≡ Some result.shelf) × (result.life ≡ self.life) }
    {
        let Sight { at } = self;
        Glance {
            at: at as *mut CacheShelf,
        }
    }
}

unsafe impl Send for Sight {}
