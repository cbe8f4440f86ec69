// SPDX-License-Identifier: MIT
ghost use Rattle.std.specs.Prelude.{◌≡◌, ◌+◌, ◌≤◌, length};
ghost use Rattle.rrc_wire.specs.Reading.{Gives, word_at, long_at, within};

use crate::fault::WireFault;
use byteorder::{BigEndian, ByteOrder};

/// The field of 16 bits at a place.
pub(crate) fn word_at(message: &[u8], place: usize) -> u16
    requires { place + 2 ≤ length message.now }
    ensures { result ≡ word_at message.now place }
{
    BigEndian::read_u16(&message[place..])
}

/// The field of 32 bits at a place.
pub(crate) fn long_at(message: &[u8], place: usize) -> u32
    requires { place + 4 ≤ length message.now }
    ensures { result ≡ long_at message.now place }
{
    BigEndian::read_u32(&message[place..])
}

/// The place behind some octets from `place` on, where the message does not end before it.
pub(crate) fn within(message: &[u8], place: usize, octets: usize) -> Result<usize, WireFault>
    requires { place ≤ length message.now }
    ensures { Gives (λ next. next) result (within message.now place octets) }
{
    if octets > message.len() - place {
        return Err(WireFault::Short);
    }
    Ok(place + octets)
}
