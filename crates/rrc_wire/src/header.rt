// SPDX-License-Identifier: MIT
ghost use Rattle.std.specs.Prelude.{◌≡◌, ◌<◌, ◌≤◌, ◌/◌, ◌%◌, ◌^◌, length};
ghost use Rattle.rrc_wire.specs.Reading.{Gives};
ghost use Rattle.rrc_wire.specs.Shown.{as_header};
ghost use Rattle.rrc_wire.specs.Header.{header_of, fields_of, flag};

use crate::fault::WireFault;
use crate::field::word_at;

/// The header of a response with one question (RFC 1035 section 4.1.1). Its counts are those of the
/// three sections.
#[derive(Clone, Copy)]
pub(crate) struct Header {
    pub(crate) id: u16,
    pub(crate) opcode: u8,
    pub(crate) aa: bool,
    pub(crate) tc: bool,
    pub(crate) rd: bool,
    pub(crate) ra: bool,
    pub(crate) rcode: u8,
    pub(crate) answers: u16,
    pub(crate) authorities: u16,
    pub(crate) additionals: u16,
}

/// The octets of a header.
pub(crate) const SIZE: usize = 12;

/// Whether the bit of a flag word is set, the lowest being bit 0.
pub(crate) fn flag(flags: u16, bit: u8) -> bool
    requires { bit < 16 }
    ensures { result ≡ flag flags bit }
{
    (flags >> bit) & 1 == 1
}

/// The opcode in a flag word.
fn opcode_of(flags: u16) -> u8
    ensures { result ≡ flags / 2 ^ 11 % 16 }
{
    ((flags >> 11) & 0xf) as u8
}

/// The RCODE in a flag word.
pub(crate) fn rcode_of(flags: u16) -> u8
    ensures { result ≡ flags % 16 }
{
    (flags & 0xf) as u8
}

/// The fields of the header that a message begins with.
fn fields_of(message: &[u8]) -> Header
    requires { 12 ≤ length message.now }
    ensures { as_header result ≡ fields_of message.now }
{
    let flags = word_at(message, 2);
    Header {
        id: word_at(message, 0),
        opcode: opcode_of(flags),
        aa: flag(flags, 10),
        tc: flag(flags, 9),
        rd: flag(flags, 8),
        ra: flag(flags, 7),
        rcode: rcode_of(flags),
        answers: word_at(message, 6),
        authorities: word_at(message, 8),
        additionals: word_at(message, 10),
    }
}

/// The header of a message, where it is a response with one question.
#[tactic(auto, unfolding(crate::specs::Header::header_of))]
pub(crate) fn header_of(message: &[u8]) -> Result<Header, WireFault>
    ensures { Gives as_header result (header_of message.now) }
{
    if message.len() > 65535 {
        return Err(WireFault::TooLong);
    }
    if message.len() < SIZE {
        return Err(WireFault::Short);
    }
    if !flag(word_at(message, 2), 15) {
        return Err(WireFault::NotResponse);
    }
    if word_at(message, 4) != 1 {
        return Err(WireFault::NotOneQuestion);
    }
    Ok(fields_of(message))
}
