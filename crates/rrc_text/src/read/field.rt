// SPDX-License-Identifier: MIT
ghost use Rattle.std.specs.Prelude.{◌≡◌, ◌==◌, ◌<◌, length, position, IfSome};
ghost use Rattle.rrc_text.specs.Fields.{field_at, field_in_front, first_unspaced, has_field};
ghost use Rattle.rrc_text.specs.Gives.{Gives};

use crate::read::line_fault::LineFault;
use memchr::memchr;

fn first_space(octets: &[u8]) -> Option<usize>
    ensures place { result ≡ position (λ octet. octet == 32) octets.now }
    ensures inside { IfSome result (λ place. place < length octets.now) }
{
    memchr(b' ', octets)
}

fn first_unspaced(octets: &[u8]) -> Option<usize>
    ensures place { result ≡ first_unspaced octets.now }
    ensures inside { IfSome result (λ place. place < length octets.now) }
{
    octets.iter().position(|&octet| octet != b' ')
}

fn field_in_front(octets: &[u8]) -> (&[u8], &[u8])
    ensures field { result.0.now ≡ (field_in_front octets.now).0 }
    ensures rest { result.1.now ≡ (field_in_front octets.now).1 }
{
    match first_space(octets) {
        Some(end) => octets.split_at(end),
        None => (octets, &[]),
    }
}

/// The first field, and the octets behind it.
pub fn field_at(octets: &[u8]) -> Result<(&[u8], &[u8]), LineFault>
    ensures { Gives (λ found. (found.0.now, found.1.now)) result (field_at octets.now) }
{
    match first_unspaced(octets) {
        Some(start) => Ok(field_in_front(&octets[start..])),
        None => Err(LineFault::NotOne),
    }
}

/// Whether there is a field.
pub fn has_field(octets: &[u8]) -> bool
    ensures { result ≡ has_field octets.now }
{
    first_unspaced(octets).is_some()
}
