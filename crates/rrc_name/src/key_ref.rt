// SPDX-License-Identifier: MIT
use crate::key::Key;
use crate::name_ref::NameRef;
use crate::slot::Slot;
use std::alloc::AllocError;
use std::collections::hash_map::Equivalent;
use std::hash::{Hash, Hasher};

/// A key that is looked up: a folded name that belongs to somebody else, a class, and a slot of
/// them. It finds what is kept under the key in a map, without a key of its own.
#[derive(Debug)]
pub struct KeyRef<'a> {
    pub name: NameRef<'a>,
    pub class: u16,
    pub slot: Slot,
}

impl<'a> KeyRef<'a> {
    ghost use Rattle.std.specs.Prelude.{◌≡◌};
    ghost use Rattle.rrc_name.specs.KeyRef.{key_of};

    /// The key itself, to look up with.
    pub fn of(key: &'a Key) -> KeyRef<'a>
        ensures value { key_of result ≡ key.now }
    {
        KeyRef {
            name: key.name.as_ref(),
            class: key.class,
            slot: key.slot,
        }
    }
}

impl Clone for KeyRef<'_> {
    ghost use Rattle.std.specs.Prelude.{◌≡◌, ⊤};

    ghost is_clone = { λ a b. b ≡ a };

    ghost is_infallible = { λ _. ⊤ };

    fn clone(&self) -> Result<Self, AllocError> {
        Ok(*self)
    }
}

impl Copy for KeyRef<'_> {}

impl PartialEq for KeyRef<'_> {
    ghost use Rattle.rrc_name.specs.Key.{key_eq};
    ghost use Rattle.rrc_name.specs.KeyRef.{key_of};
    ghost use Rattle.rrc_name.specs.lemmas.KeyLaws.{key_eq-laws};
    ghost use Rattle.std.specs.Cmp.{partial_equiv_from_equiv, on_equiv};

    ghost eq = { λ a b. key_eq (key_of a) (key_of b) };

    ghost laws = { partial_equiv_from_equiv (on_equiv key_of key_eq-laws) };

    fn eq(&self, other: &Self) -> bool {
        self.slot == other.slot && self.class == other.class && self.name == other.name
    }
}

impl Eq for KeyRef<'_> {
    ghost use Rattle.rrc_name.specs.KeyRef.{key_of};
    ghost use Rattle.rrc_name.specs.lemmas.KeyLaws.{key_eq-laws};
    ghost use Rattle.std.specs.Cmp.{on_equiv};

    ghost laws = { on_equiv key_of key_eq-laws };
}

impl Hash for KeyRef<'_> {
    ghost use Rattle.rrc_name.specs.Key.{key_hash};
    ghost use Rattle.rrc_name.specs.KeyRef.{key_of};
    ghost use Rattle.rrc_name.specs.lemmas.KeyLaws.{key_hash-alike};

    ghost hash_input = { λ k. key_hash (key_of k) };

    ghost respects_eq = { λ a b. key_hash-alike.fed (key_of a) (key_of b) };

    fn hash<H: Hasher>(&self, state: &mut H) {
        self.name.hash(state);
        self.slot.block().hash(state);
    }
}

impl Equivalent<Key> for KeyRef<'_> {
    ghost use Rattle.rrc_name.specs.Key.{key_eq};
    ghost use Rattle.rrc_name.specs.KeyRef.{key_of};
    ghost use Rattle.rrc_name.specs.lemmas.KeyLaws.{key_eq-laws, key_hash-alike};

    ghost equivalent = { λ wanted key. key_eq (key_of wanted) key };

    ghost respects_hash = { λ wanted key. key_hash-alike.fed (key_of wanted) key };

    ghost respects_eq = { λ wanted a b. key_eq-laws.congr (key_of wanted) a b };

    fn equivalent(&self, key: &Key) -> bool {
        self.slot == key.slot && self.class == key.class && self.name == key.name.as_ref()
    }
}
