// SPDX-License-Identifier: MIT
ghost use Rattle.std.specs.Prelude.{◌≡◌, None, Some, is_some, IfNone, IfSome};
ghost use Rattle.std.specs.Option.{option_map};

use crate::sight::{Glance, Sight};
use std::mem;

/// A shelf that a thread may look at for the time of a call, or none: a copy of a handle, which is
/// the thread's own.
#[repr(C)]
#[derive(Drop)]
pub struct Look {
    pub sight: Sight,
    is_live: bool,
    ghost live: { is_live ≡ is_some sight.shelf },
}

impl Look {
    /// Takes the shelf out, if there is one.
    pub(crate) fn take(&mut self) -> Option<Glance>
        ensures taken { option_map (λ glance. glance.shelf) result ≡ self.old.sight.shelf }
        ensures life { IfSome result (λ glance. glance.life ≡ self.old.sight.life) }
        ensures none { IfNone result (self.new ≡ self.old) }
    {
        if !self.is_live {
            return None;
        }
        let sight = mem::replace(&mut self.sight, Sight::empty());
        self.is_live = false;
        Some(sight.into_glance())
    }

    /// Puts a shelf in.
    pub(crate) fn put(&mut self, glance: Glance)
        ensures shelf { self.new.sight.shelf ≡ Some glance.shelf }
        ensures life { self.new.sight.life ≡ glance.life }
    {
        self.sight = Sight::of(glance);
        self.is_live = true;
    }
}

/// The same, and the seed that the shelf's names are hashed under: a copy of a handle.
#[repr(C)]
#[derive(Drop)]
pub struct ShelfLook {
    pub look: Look,
    pub seed: [u8; 16],
}
