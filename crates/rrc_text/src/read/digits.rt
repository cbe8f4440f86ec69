// SPDX-License-Identifier: MIT
ghost use Rattle.std.specs.Prelude.{◌≡◌, ◌↔◌, ◌<◌, ◌≤◌, ◌*◌, ◌/◌, ◌%◌, length, true, Ok, IfOk, IsTrue};
ghost use Rattle.std.specs.Result.{result_ok};
ghost use Rattle.std.specs.List.{AllPass};
ghost use Rattle.hex.specs.Hex.{is_hex_digit, hex_digit_value, decode_of, decode_pairs};

use rrc_name::Octets;
use std::alloc::{AllocError, Global};

/// So many octets are kept without memory of their own, as most data are.
const FEW: usize = 32;

/// Whether an octet is a hexadecimal digit, of either case.
fn is_digit(octet: u8) -> bool
    ensures { result ≡ is_hex_digit octet }
{
    matches!(octet, b'A'..=b'F' | b'a'..=b'f' | b'0'..=b'9')
}

/// Whether all octets are hexadecimal digits. There is no way out of its loop, so that it looks at
/// many octets at a time.
fn are_digits(octets: &[u8]) -> bool
    ensures { IsTrue result ↔ AllPass is_hex_digit octets.now }
{
    let mut all = true;
    for &octet in octets {
        all &= is_digit(octet);
    }
    all
}

/// The value of a hexadecimal digit. A letter of either case has bit 6, and its lowest four bits
/// count from 1.
fn value_of(digit: u8) -> u8
    requires { is_hex_digit digit ≡ true }
    ensures value { hex_digit_value digit ≡ Some result }
    ensures small { result < 16 }
{
    (digit & 0xf) + 9 * (digit >> 6)
}

/// Writes the octets that digits spell over as many octets.
fn decode_over(digits: &[u8], octets: &mut [u8])
    requires digits { AllPass is_hex_digit digits.now }
    requires room { length digits.now ≡ 2 * length octets.old }
    ensures { decode_pairs 0 digits.now ≡ Ok octets.new }
{
    for i in 0..octets.len() {
        octets[i] = value_of(digits[2 * i]) * 16 + value_of(digits[2 * i + 1]);
    }
}

/// A few octets that digits spell. They are written where no memory is asked for.
fn few_of(alloc: Global, digits: &[u8]) -> Result<Octets, AllocError>
    requires digits { AllPass is_hex_digit digits.now }
    requires even { length digits.now % 2 ≡ 0 }
    requires few { length digits.now / 2 ≤ 32 }
    ensures { IfOk result (λ octets. decode_pairs 0 digits.now ≡ Ok octets) }
{
    let mut room = [0u8; FEW];
    let octets = &mut room[..digits.len() / 2];
    decode_over(digits, octets);
    Octets::from_slice(alloc, octets)
}

/// The octets that digits spell, however many they are.
fn many_of(alloc: Global, digits: &[u8]) -> Result<Octets, AllocError>
    requires digits { AllPass is_hex_digit digits.now }
    requires even { length digits.now % 2 ≡ 0 }
    ensures { IfOk result (λ octets. decode_pairs 0 digits.now ≡ Ok octets) }
{
    let mut octets = vec![in alloc; 0u8; digits.len() / 2]?;
    decode_over(digits, octets.as_mut_slice());
    Ok(Octets::from_vec(octets))
}

/// The octets that hexadecimal digits of either case spell, or `None` where the octets are no such
/// digits or an odd number of them.
pub(crate) fn decoded(alloc: Global, digits: &[u8]) -> Result<Option<Octets>, AllocError>
    ensures { IfOk result (λ found. found ≡ result_ok (decode_of digits.now)) }
{
    if digits.len() % 2 != 0 {
        return Ok(None);
    }
    if !are_digits(digits) {
        return Ok(None);
    }
    if digits.len() / 2 <= FEW {
        Ok(Some(few_of(alloc, digits)?))
    } else {
        Ok(Some(many_of(alloc, digits)?))
    }
}
