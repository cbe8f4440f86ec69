// SPDX-License-Identifier: MIT
ghost use Rattle.rrc_text.specs.Gives.{Gives};
ghost use Rattle.rrc_text.specs.Octets.{octets_of};

use crate::read::digits::decoded;
use crate::read::line_fault::LineFault;
use rrc_name::Octets;
use std::alloc::Global;

/// The octets that hexadecimal digits of either case spell, or a dash for none.
pub fn octets_in(alloc: Global, digits: &[u8]) -> Result<Octets, LineFault>
    ensures { Gives (λ octets. octets) result (octets_of digits.now) }
{
    if digits == b"-".as_slice() {
        return Ok(Octets::new(alloc));
    }
    if digits.is_empty() {
        return Err(LineFault::NotOne);
    }
    match decoded(alloc, digits)? {
        Some(octets) => Ok(octets),
        None => Err(LineFault::NotOne),
    }
}
