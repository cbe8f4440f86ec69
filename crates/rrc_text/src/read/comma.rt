// SPDX-License-Identifier: MIT
ghost use Rattle.std.specs.Prelude.{◌≡◌, ◌==◌, ◌<◌, length, position, option_map, IfSome};
ghost use Rattle.rrc_text.specs.Commas.{is_comma, cut_at_comma};

fn first_comma(octets: &[u8]) -> Option<usize>
    ensures place { result ≡ position is_comma octets.now }
    ensures inside { IfSome result (λ place. place < length octets.now) }
{
    octets.iter().position(|&octet| octet == b',')
}

/// The octets before the first comma, and those behind it.
pub fn cut_at_comma(octets: &[u8]) -> Option<(&[u8], &[u8])>
    ensures { option_map (λ cut. (cut.0.now, cut.1.now)) result ≡ cut_at_comma octets.now }
{
    let end = first_comma(octets)?;
    Some((&octets[..end], &octets[end + 1..]))
}
