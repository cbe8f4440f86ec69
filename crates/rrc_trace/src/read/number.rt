// SPDX-License-Identifier: MIT
ghost use Rattle.rrc_text.specs.Fields.{said_at};
ghost use Rattle.rrc_text.specs.Gives.{Gives};
ghost use Rattle.rrc_trace.specs.Numbers.{moment_of, rtype_of};

use rrc_history::LAST_MOMENT;
use rrc_text::{Kind, LineFault, field_at, kind_in, number_in};
use rrc_wire::is_kept;

/// A moment in seconds, and the octets behind it.
pub(crate) fn moment_at(octets: &[u8]) -> Result<(u64, &[u8]), LineFault>
    ensures { Gives (λ found. (found.0, found.1.now)) result (said_at moment_of octets.now) }
{
    let (field, rest) = field_at(octets)?;
    Ok((number_in(field, LAST_MOMENT)?, rest))
}

/// A type whose data are kept in its class.
pub(crate) fn rtype_at(octets: &[u8]) -> Result<(Kind, &[u8]), LineFault>
    ensures { Gives (λ found. (found.0, found.1.now)) result (said_at rtype_of octets.now) }
{
    let (field, rest) = field_at(octets)?;
    let kind = kind_in(field)?;
    if is_kept(kind.rtype, kind.class) {
        Ok((kind, rest))
    } else {
        Err(LineFault::NotOne)
    }
}
