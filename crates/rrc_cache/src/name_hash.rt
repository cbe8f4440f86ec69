// SPDX-License-Identifier: MIT
ghost use Rattle.std.specs.Prelude.{◌≡◌, ◌/◌, ◌%◌, ◌^◌};
ghost use Rattle.std.specs.Hash.DefaultHasher as sip;
ghost use Rattle.rrc_name.specs.NameRef.{name_in};
ghost use Rattle.rrc_cache.specs.Seeds.{keyed_hash, number_of_seed, IsHashOf};

use core::hash::keyed_hasher;
use rrc_name::NameRef;
use std::fmt::{self, Debug, Formatter, Write};
use std::hash::{DefaultHasher, Hasher};

/// The hash of a name under a seed, for calls that look the name up, so that a name is hashed once,
/// whatever else its hash is needed for. A part under the same seed takes it as it is, one under
/// another seed hashes the name anew: no reply depends on the seed.
#[derive(Clone, Copy)]
pub struct NameHash {
    pub hash: u64,
    pub seed: [u8; 16],
}

impl NameHash {
    /// The hash of a name under a seed.
    pub fn of(seed: [u8; 16], name: NameRef<'_>) -> NameHash
        ensures seed { result.seed ≡ seed }
        ensures hash { IsHashOf result (name_in name.entry) }
    {
        NameHash {
            hash: keyed_hash(name.as_slice(), &seed),
            seed,
        }
    }
}

/// It tells neither the hash nor the seed, by which names could be picked that are hashed alike.
impl Debug for NameHash {
    fn fmt<W: Write>(&self, f: &mut Formatter<W>) -> fmt::Result {
        f.write_str("NameHash")
    }
}

/// SipHash-1-3 of nothing yet, under the keys that a seed is.
fn hasher_of(seed: &[u8; 16]) -> DefaultHasher
    ensures { result ≡ sip.with_keys (number_of_seed seed.now % 2 ^ 64) (number_of_seed seed.now / 2 ^ 64) }
{
    let keys = u128::from_le_bytes(*seed);
    keyed_hasher((keys % (1 << 64)) as u64, (keys / (1 << 64)) as u64)
}

/// The hash of octets under a seed: SipHash-1-3 under the two keys of 64 bits that the seed is, the
/// lower octets first. Who does not know the seed cannot foresee it.
pub fn keyed_hash(octets: &[u8], seed: &[u8; 16]) -> u64
    ensures { result ≡ keyed_hash seed.now octets.now }
{
    let mut hasher = hasher_of(seed);
    hasher.write(octets);
    hasher.finish()
}
