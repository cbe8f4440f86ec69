// SPDX-License-Identifier: MIT
ghost use Rattle.std.specs.Prelude.{◌≡◌, ◌<◌, ◌^◌, length, IfSome};
ghost use Rattle.rrc_text.specs.Fields.{said_at};
ghost use Rattle.rrc_text.specs.Gives.{Gives};
ghost use Rattle.rrc_text.specs.Numbers.{number_of, at_most, ttl_of, word_of, slash_in, kind_of, trust_of};

use crate::kind::Kind;
use crate::read::field::field_at;
use crate::read::line_fault::LineFault;
use memchr::memchr;
use rrc_history::Trust;
use rrc_name::class::IN;

/// The number that decimal digits spell, where it is at most `most`. Zeros may stand in front.
pub fn number_in(digits: &[u8], most: u64) -> Result<u64, LineFault>
    requires { most < 2 ^ 60 }
    ensures { Gives (λ number. number) result (at_most most (number_of digits.now)) }
{
    if digits.is_empty() {
        return Err(LineFault::NotOne);
    }
    let mut number = 0;
    for &digit in digits {
        if !digit.is_ascii_digit() {
            return Err(LineFault::NotOne);
        }
        number = 10 * number + u64::from(digit - b'0');
        if number > most {
            return Err(LineFault::NotOne);
        }
    }
    Ok(number)
}

/// A time to live as written, in seconds.
pub fn ttl_at(octets: &[u8]) -> Result<(u32, &[u8]), LineFault>
    ensures { Gives (λ found. (found.0, found.1.now)) result (said_at ttl_of octets.now) }
{
    let (field, rest) = field_at(octets)?;
    match u32::try_from(number_in(field, u64::from(u32::MAX))?) {
        Ok(ttl) => Ok((ttl, rest)),
        Err(_) => Err(LineFault::NotOne),
    }
}

/// A number of 16 bits.
pub fn word_in(digits: &[u8]) -> Result<u16, LineFault>
    ensures { Gives (λ word. word) result (word_of digits.now) }
{
    match u16::try_from(number_in(digits, u64::from(u16::MAX))?) {
        Ok(word) => Ok(word),
        Err(_) => Err(LineFault::NotOne),
    }
}

/// The place of the first slash.
pub fn first_slash(field: &[u8]) -> Option<usize>
    ensures place { result ≡ slash_in field.now }
    ensures inside { IfSome result (λ place. place < length field.now) }
{
    memchr(b'/', field)
}

/// The type that a field says, and the class behind a slash, or IN.
pub fn kind_in(field: &[u8]) -> Result<Kind, LineFault>
    ensures { Gives (λ kind. kind) result (kind_of field.now) }
{
    match first_slash(field) {
        Some(place) => {
            let rtype = word_in(&field[..place])?;
            let class = word_in(&field[place + 1..])?;
            Ok(Kind { rtype, class })
        }
        None => {
            let rtype = word_in(field)?;
            Ok(Kind { rtype, class: IN })
        }
    }
}

/// The trust that a rank of 1 to 4 says, and the octets behind it.
pub fn trust_at(octets: &[u8]) -> Result<(Trust, &[u8]), LineFault>
    ensures { Gives (λ found. (found.0, found.1.now)) result (said_at trust_of octets.now) }
{
    let (field, rest) = field_at(octets)?;
    match number_in(field, 4)? {
        1 => Ok((Trust::Additional, rest)),
        2 => Ok((Trust::NonAuthoritativeAnswer, rest)),
        3 => Ok((Trust::Authority, rest)),
        4 => Ok((Trust::AuthoritativeAnswer, rest)),
        _ => Err(LineFault::NotOne),
    }
}
