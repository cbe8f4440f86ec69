// SPDX-License-Identifier: MIT
ghost use Rattle.std.specs.Prelude.{◌≡◌, ◌≤◌, ◌<◌};
ghost use Rattle.rrc_name.specs.Parts.{hash_of, part_of};
ghost use Rattle.rrc_name.specs.Wire.{folded};

use crate::name::Name;

/// The hash of a name, in whatever case it is written.
fn hash_of(octets: &[u8]) -> u32
    ensures { result ≡ hash_of (folded octets.now) }
{
    octets
        .iter()
        .map(|octet| octet.to_ascii_lowercase())
        .fold(0u32, |hash, octet| {
            hash.wrapping_mul(1_000_003).wrapping_add(u32::from(octet))
        })
}

/// The part of a cache, below `parts`, which is 1 to 64, that all keys of a name lie in, in
/// whatever case the name is written. It takes no memory.
pub fn part_of(name: &Name, parts: usize) -> usize
    requires some { 1 ≤ parts }
    requires few { parts ≤ 64 }
    ensures value { result ≡ part_of name.now parts }
    ensures below { result < parts }
{
    hash_of(name.wire.as_slice()) as usize % parts
}
