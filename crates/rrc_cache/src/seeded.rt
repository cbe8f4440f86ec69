// SPDX-License-Identifier: MIT
ghost use Rattle.std.specs.Prelude.{◌≡◌};
ghost use Rattle.rrc_name.specs.NameRef.{name_in};
ghost use Rattle.rrc_cache.specs.Keyed.{name_hash};
ghost use Rattle.rrc_cache.specs.Seeds.{IsHashOf};

use crate::name_hash::{NameHash, keyed_hash};
use rrc_name::NameRef;
use std::fmt::{self, Debug, Formatter, Write};

/// What names are hashed behind: SipHash-1-3 under the two keys of 64 bits that are a seed, the
/// lower octets first. Who does not know the seed cannot foresee the hash of any name, and so
/// cannot pick names whose hashes are alike.
#[derive(Clone, Copy)]
pub struct Seeded {
    seed: [u8; 16],
}

impl Seeded {
    pub(crate) fn new(seed: [u8; 16]) -> Seeded {
        Seeded { seed }
    }

    /// The hash of a name.
    pub(crate) fn hash_of(&self, name: NameRef<'_>) -> u64
        ensures { result ≡ name_hash self.now (name_in name.entry) }
    {
        keyed_hash(name.as_slice(), &self.seed)
    }

    /// The hash of a name, with the seed that it is hashed under.
    pub(crate) fn name_hash(&self, name: NameRef<'_>) -> NameHash
        ensures { IsHashOf result (name_in name.entry) }
    {
        NameHash::of(self.seed, name)
    }

    /// The hash of a name, which is not hashed again where its hash under this seed is known.
    pub(crate) fn hash_by(&self, known: NameHash, name: NameRef<'_>) -> u64
        requires { IsHashOf known (name_in name) }
        ensures { result ≡ name_hash self.now (name_in name.entry) }
    {
        if known.seed == self.seed {
            known.hash
        } else {
            self.hash_of(name)
        }
    }
}

/// It does not tell the seed.
impl Debug for Seeded {
    fn fmt<W: Write>(&self, f: &mut Formatter<W>) -> fmt::Result {
        f.write_str("Seeded")
    }
}
