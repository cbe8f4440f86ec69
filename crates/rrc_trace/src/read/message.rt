// SPDX-License-Identifier: MIT
ghost use Rattle.rrc_text.specs.Fields.{said_at};
ghost use Rattle.rrc_text.specs.Gives.{Gives};
ghost use Rattle.rrc_trace.specs.Messages.{message_of, fetched_of};

use rrc_name::Octets;
use rrc_text::{LineFault, field_at, octets_in};
use std::alloc::Global;

/// The octets of a message, of any length, and the octets of the line behind them.
pub(crate) fn message_at(alloc: Global, octets: &[u8]) -> Result<(Octets, &[u8]), LineFault>
    ensures { Gives (λ found. (found.0, found.1.now)) result (said_at message_of octets.now) }
{
    let (field, rest) = field_at(octets)?;
    Ok((octets_in(alloc, field)?, rest))
}

/// The octets of a message that was fetched, or none where a dash stands, and the octets of the
/// line behind them.
pub(crate) fn fetched_at(alloc: Global, octets: &[u8]) -> Result<(Option<Octets>, &[u8]), LineFault>
    ensures { Gives (λ found. (found.0, found.1.now)) result (said_at fetched_of octets.now) }
{
    let (field, rest) = field_at(octets)?;
    if field == b"-".as_slice() {
        return Ok((None, rest));
    }
    Ok((Some(octets_in(alloc, field)?), rest))
}
