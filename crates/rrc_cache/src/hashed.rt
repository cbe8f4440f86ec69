// SPDX-License-Identifier: MIT
ghost use Rattle.std.specs.Prelude.{◌≡◌};
ghost use Rattle.rrc_name.specs.Key.{block_of};

use rrc_name::{Key, KeyRef, Slot};
use std::collections::hash_map::Equivalent;
use std::fmt::{self, Debug, Formatter, Write};
use std::hash::{Hash, Hasher};

/// Which block of 32 types the type of a slot is in.
fn block_of(slot: Slot) -> u16
    ensures { result ≡ block_of slot }
{
    match slot {
        Slot::Set(rtype) | Slot::Failed(rtype) => rtype / 32,
        Slot::Nx => 0,
    }
}

/// A key beside the hash of its name, so that a map need not hash the name again.
#[derive(Drop)]
pub struct HashedKey {
    pub(crate) hash: u64,
    pub(crate) key: Key,
}

/// It does not tell the hash.
impl Debug for HashedKey {
    fn fmt<W: Write>(&self, f: &mut Formatter<W>) -> fmt::Result {
        self.key.fmt(f)
    }
}

impl PartialEq for HashedKey {
    ghost use Rattle.rrc_cache.specs.Keyed.{hashed_eq};
    ghost use Rattle.rrc_cache.specs.KeyedLaws.{hashed_eq-laws};
    ghost use Rattle.std.specs.Cmp.{partial_equiv_from_equiv};

    ghost eq = { hashed_eq };

    ghost laws = { partial_equiv_from_equiv hashed_eq-laws };

    fn eq(&self, other: &HashedKey) -> bool {
        self.hash == other.hash && self.key == other.key
    }
}

impl Eq for HashedKey {
    ghost use Rattle.rrc_cache.specs.KeyedLaws.{hashed_eq-laws};

    ghost laws = { hashed_eq-laws };
}

impl Hash for HashedKey {
    ghost use Rattle.rrc_cache.specs.Keyed.{hashed_by};
    ghost use Rattle.rrc_cache.specs.KeyedLaws.{hashed_by-alike};

    ghost hash_input = { hashed_by };

    ghost respects_eq = { hashed_by-alike.fed };

    // The slots of a block have one hash, so in a map they lie side by side: at most 65 keys of a
    // name, and those that one ask looks for mostly among them.
    fn hash<H: Hasher>(&self, state: &mut H) {
        state.write_u64(self.hash ^ u64::from(block_of(self.key.slot)));
    }
}

/// A key that is looked up, beside the hash of its name.
#[derive(Clone, Copy)]
pub struct HashedRef<'a> {
    pub(crate) hash: u64,
    pub(crate) key: KeyRef<'a>,
}

impl PartialEq for HashedRef<'_> {
    ghost use Rattle.rrc_cache.specs.Keyed.{hashed_eq, hashed_of};
    ghost use Rattle.rrc_cache.specs.KeyedLaws.{hashed_eq-laws};
    ghost use Rattle.std.specs.Cmp.{partial_equiv_from_equiv, on_equiv};

    ghost eq = { λ a b. hashed_eq (hashed_of a) (hashed_of b) };

    ghost laws = { partial_equiv_from_equiv (on_equiv hashed_of hashed_eq-laws) };

    fn eq(&self, other: &Self) -> bool {
        self.hash == other.hash && self.key == other.key
    }
}

impl Eq for HashedRef<'_> {
    ghost use Rattle.rrc_cache.specs.Keyed.{hashed_of};
    ghost use Rattle.rrc_cache.specs.KeyedLaws.{hashed_eq-laws};
    ghost use Rattle.std.specs.Cmp.{on_equiv};

    ghost laws = { on_equiv hashed_of hashed_eq-laws };
}

impl Hash for HashedRef<'_> {
    ghost use Rattle.rrc_cache.specs.Keyed.{hashed_by, hashed_of};
    ghost use Rattle.rrc_cache.specs.KeyedLaws.{hashed_by-alike};

    ghost hash_input = { λ wanted. hashed_by (hashed_of wanted) };

    ghost respects_eq = { λ a b. hashed_by-alike.fed (hashed_of a) (hashed_of b) };

    fn hash<H: Hasher>(&self, state: &mut H) {
        state.write_u64(self.hash ^ u64::from(block_of(self.key.slot)));
    }
}

impl Equivalent<HashedKey> for HashedRef<'_> {
    ghost use Rattle.rrc_cache.specs.Keyed.{hashed_eq, hashed_of};
    ghost use Rattle.rrc_cache.specs.KeyedLaws.{hashed_eq-laws, hashed_by-alike};

    ghost equivalent = { λ wanted key. hashed_eq (hashed_of wanted) key };

    ghost respects_hash = { λ wanted key. hashed_by-alike.fed (hashed_of wanted) key };

    ghost respects_eq = { λ wanted a b. hashed_eq-laws.congr (hashed_of wanted) a b };

    fn equivalent(&self, key: &HashedKey) -> bool {
        self.hash == key.hash && self.key.equivalent(&key.key)
    }
}
