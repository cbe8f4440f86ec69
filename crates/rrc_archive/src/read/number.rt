// SPDX-License-Identifier: MIT
ghost use Rattle.std.specs.Prelude.{IfOk};
ghost use Rattle.rrc_archive.specs.ArchiveFields.{count_of};
ghost use Rattle.rrc_archive.specs.ArchiveLaw.{IsNumber};
ghost use Rattle.rrc_text.specs.Fields.{said_at};
ghost use Rattle.rrc_text.specs.Gives.{Gives};
ghost use Rattle.rrc_text.specs.Numbers.{kind_of};

use rrc_text::{Kind, LineFault, field_at, kind_in};
use std::str;

/// A number of 64 bits, and the octets behind it. A sign and zeros may stand in front.
pub(crate) fn count_at(octets: &[u8]) -> Result<(u64, &[u8]), LineFault>
    ensures held { IfOk result (λ found. IsNumber found.0) }
    ensures exact { Gives (λ found. (found.0, found.1.now)) result (said_at count_of octets.now) }
{
    let (field, rest) = field_at(octets)?;
    let Ok(text) = str::from_utf8(field) else {
        return Err(LineFault::NotOne);
    };
    match text.parse::<u64>() {
        Ok(count) => Ok((count, rest)),
        Err(_) => Err(LineFault::NotOne),
    }
}

/// A type and its class, and the octets behind them.
pub(crate) fn kind_at(octets: &[u8]) -> Result<(Kind, &[u8]), LineFault>
    ensures held { IfOk result (λ found. IsNumber found.0.rtype × IsNumber found.0.class) }
    ensures exact { Gives (λ found. (found.0, found.1.now)) result (said_at kind_of octets.now) }
{
    let (field, rest) = field_at(octets)?;
    Ok((kind_in(field)?, rest))
}
