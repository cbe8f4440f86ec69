// SPDX-License-Identifier: MIT
ghost use Rattle.std.specs.Prelude.{◌≡◌, ◌==◌, ◌<◌, length, position, IfSome};

use memchr::memchr;

/// The place of the first LF.
pub fn first_lf(octets: &[u8]) -> Option<usize>
    ensures place { result ≡ position (λ octet. octet == 10) octets.now }
    ensures inside { IfSome result (λ place. place < length octets.now) }
{
    memchr(b'\n', octets)
}
