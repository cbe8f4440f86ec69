// SPDX-License-Identifier: MIT
ghost use Rattle.std.specs.Prelude.{◌≡◌, IfOk};
ghost use Rattle.rrc_name.specs.Wire.{folded, IsWireForm};

use crate::name::Name;
use crate::slot::Slot;
use std::alloc::AllocError;
use std::cmp::Ordering;
use std::hash::{Hash, Hasher};
use std::marker::Model;

/// A folded name, a class (RFC 1035 section 3.2.4), and what of them is kept.
#[derive(Debug, Drop)]
pub struct Key {
    pub name: Name,
    pub class: u16,
    pub slot: Slot,
}

impl Model for Key {
    ghost use Rattle.rrc_name.specs.Key.{KeyOf, IsFolded};

    ghost Value = { KeyOf };

    ghost view = { λ k. record { name = k.name; class = k.class; slot = k.slot } };

    ghost invariant = { λ k. IsFolded k.name };

    ghost inverse = { λ k. record { name = k.name; class = k.class; slot = k.slot } };
}

impl Key {
    ghost use Rattle.rrc_name.specs.Key.{IsFolded};

    /// The key of a name, in whatever case it is written, a class and a slot.
    pub fn of(name: &Name, class: u16, slot: Slot) -> Result<Key, AllocError>
        ensures { IfOk result (λ key. key ≡ record { name = folded name.now; class = class; slot = slot }) }
    {
        Ok(Key {
            name: name.folded()?,
            class,
            slot,
        })
    }

    /// The key's name, which is folded.
    pub fn name(&self) -> &Name
        ensures value { result.now ≡ self.now.name }
        ensures folded { IsFolded self.now.name }
        ensures name { IsWireForm self.now.name }
    {
        self.name.is_a_wire_form();
        &self.name
    }
}

impl Clone for Key {
    ghost is_clone = { λ a b. b ≡ a };

    fn clone(&self) -> Result<Key, AllocError> {
        Ok(Key {
            name: self.name.clone()?,
            class: self.class,
            slot: self.slot,
        })
    }
}

impl PartialEq for Key {
    ghost use Rattle.rrc_name.specs.Key.{key_eq};
    ghost use Rattle.rrc_name.specs.lemmas.KeyLaws.{key_eq-laws};
    ghost use Rattle.std.specs.Cmp.{partial_equiv_from_equiv};

    ghost eq = { key_eq };

    ghost laws = { partial_equiv_from_equiv key_eq-laws };

    fn eq(&self, other: &Key) -> bool {
        self.slot == other.slot && self.class == other.class && self.name == other.name
    }
}

impl Eq for Key {
    ghost use Rattle.rrc_name.specs.lemmas.KeyLaws.{key_eq-laws};

    ghost laws = { key_eq-laws };
}

impl Hash for Key {
    ghost use Rattle.rrc_name.specs.Key.{key_hash};
    ghost use Rattle.rrc_name.specs.lemmas.KeyLaws.{key_hash-alike};

    ghost hash_input = { key_hash };

    ghost respects_eq = { key_hash-alike.fed };

    // The slots of a block have one hash, so in a map they lie side by side: at most 65 keys of a
    // name in each class, and those that one ask looks for mostly among them.
    fn hash<H: Hasher>(&self, state: &mut H) {
        self.name.hash(state);
        self.slot.block().hash(state);
    }
}

impl Ord for Key {
    ghost use Rattle.rrc_name.specs.Key.{key_order};
    ghost use Rattle.rrc_name.specs.lemmas.KeyLaws.{key_order-total, key_order-ties};
    ghost use Rattle.std.specs.Prelude.{refl};

    ghost cmp = { key_order };

    ghost total = { key_order-total };

    ghost matches_partial_cmp = { λ _ _. refl };

    ghost matches_eq = { key_order-ties };

    // Names that are folded and tie in canonical order are one name, so classes and slots are all
    // that is left to compare.
    fn cmp(&self, other: &Key) -> Ordering {
        let names = self.name().canonical_cmp(other.name());
        let classes = self.class.cmp(&other.class);
        let slots = self.slot.cmp(&other.slot);
        names.then(classes.then(slots))
    }
}

impl PartialOrd for Key {
    ghost use Rattle.rrc_name.specs.Key.{key_order};
    ghost use Rattle.rrc_name.specs.lemmas.KeyLaws.{key_order-total, key_order-ties};
    ghost use Rattle.std.specs.Ordering.{as_partial_cmp};
    ghost use Rattle.std.specs.Cmp.{partial_order_from_agreeing_total};
    ghost use Rattle.std.specs.Prelude.{refl};

    ghost partial_cmp = { as_partial_cmp key_order };

    ghost laws = { partial_order_from_agreeing_total key_order key_order-total (λ _ _. refl) key_order-ties };

    fn partial_cmp(&self, other: &Key) -> Option<Ordering> {
        Some(self.cmp(other))
    }
}
