// SPDX-License-Identifier: MIT
//! Keys as they were before they had a class, for histories that were made then.
ghost use Rattle.std.specs.Prelude.{◌≡◌, IfOk};
ghost use Rattle.rrc_name.specs.Wire.{folded};
ghost use Rattle.rrc_name.specs.Images.{image_of, without_class};

use crate::class::IN;
use crate::key;
use crate::name::Name;
use crate::slot::Slot;
use std::alloc::AllocError;
use std::marker::Model;

/// A folded name, and what of it is kept.
#[derive(Debug, Drop)]
pub struct Key {
    pub name: Name,
    pub slot: Slot,
}

impl Model for Key {
    ghost use Rattle.rrc_name.specs.Key.{IsFolded};
    ghost use Rattle.rrc_name.specs.classless.Key.{KeyOf};

    ghost Value = { KeyOf };

    ghost view = { λ k. record { name = k.name; slot = k.slot } };

    ghost invariant = { λ k. IsFolded k.name };

    ghost inverse = { λ k. record { name = k.name; slot = k.slot } };
}

impl Key {
    /// The key of a name, in whatever case it is written, and a slot.
    pub fn of(name: &Name, slot: Slot) -> Result<Key, AllocError>
        ensures { IfOk result (λ key. key ≡ record { name = folded name.now; slot = slot }) }
    {
        Ok(Key {
            name: name.folded()?,
            slot,
        })
    }

    /// The key of the same name and slot in class IN.
    pub fn image(&self) -> Result<key::Key, AllocError>
        ensures { IfOk result (λ key. key ≡ image_of self.now) }
    {
        Ok(key::Key {
            name: self.name.clone()?,
            class: IN,
            slot: self.slot,
        })
    }

    /// The key of the same name and slot as one of class IN.
    pub fn of_image(key: &key::Key) -> Result<Key, AllocError>
        ensures { IfOk result (λ made. made ≡ without_class key.now) }
    {
        Ok(Key {
            name: key.name.clone()?,
            slot: key.slot,
        })
    }
}

impl Clone for Key {
    ghost is_clone = { λ a b. b ≡ a };

    fn clone(&self) -> Result<Key, AllocError> {
        Ok(Key {
            name: self.name.clone()?,
            slot: self.slot,
        })
    }
}

impl PartialEq for Key {
    ghost use Rattle.rrc_name.specs.classless.Key.{key_eq};
    ghost use Rattle.rrc_name.specs.lemmas.ImageLaws.{classless_key_eq-laws};
    ghost use Rattle.std.specs.Cmp.{partial_equiv_from_equiv};

    ghost eq = { key_eq };

    ghost laws = { partial_equiv_from_equiv classless_key_eq-laws };

    fn eq(&self, other: &Key) -> bool {
        self.slot == other.slot && self.name == other.name
    }
}

impl Eq for Key {
    ghost use Rattle.rrc_name.specs.lemmas.ImageLaws.{classless_key_eq-laws};

    ghost laws = { classless_key_eq-laws };
}
