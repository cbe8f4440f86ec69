// SPDX-License-Identifier: MIT
ghost use Rattle.rrc_text.specs.Fields.{said_at};
ghost use Rattle.rrc_text.specs.Gives.{Gives};
ghost use Rattle.rrc_text.specs.Words.{purpose_of, mode_of};

use crate::read::field::field_at;
use crate::read::line_fault::LineFault;
use rrc_history::{Mode, Purpose};

/// What an answer is for, and the octets behind the word.
pub fn purpose_at(octets: &[u8]) -> Result<(Purpose, &[u8]), LineFault>
    ensures { Gives (λ found. (found.0, found.1.now)) result (said_at purpose_of octets.now) }
{
    let (field, rest) = field_at(octets)?;
    if field == b"any".as_slice() {
        Ok((Purpose::Any, rest))
    } else if field == b"answer".as_slice() {
        Ok((Purpose::Answer, rest))
    } else {
        Err(LineFault::NotOne)
    }
}

/// Whether a stale answer will do, and the octets behind the word.
pub fn mode_at(octets: &[u8]) -> Result<(Mode, &[u8]), LineFault>
    ensures { Gives (λ found. (found.0, found.1.now)) result (said_at mode_of octets.now) }
{
    let (field, rest) = field_at(octets)?;
    if field == b"none".as_slice() {
        Ok((Mode::NoStale, rest))
    } else if field == b"failed".as_slice() {
        Ok((Mode::Failed, rest))
    } else if field == b"now".as_slice() {
        Ok((Mode::Now, rest))
    } else {
        Err(LineFault::NotOne)
    }
}
