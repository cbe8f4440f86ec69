// SPDX-License-Identifier: MIT
ghost use Rattle.std.specs.Prelude.{◌≡◌, ◌+◌, ◌≤◌, ◌++◌, length, take, drop, IfSome, IfNone};
ghost use Rattle.rrc_shelf.specs.Asks.{datum, data_text, AreNarrow, AreTellable, IsFilled, WritesOn};

use rrc_name::Octets;

/// Data have at most so many octets, since a length has 16 bits.
const MOST: usize = 65_535;

/// Copies octets to a place of a buffer.
pub(crate) fn put(buffer: &mut [u8], at: usize, octets: &[u8])
    requires { at + length octets.now ≤ length buffer.old }
    ensures { buffer.new ≡ take at buffer.old ++ octets.now ++ drop (at + length octets.now) buffer.old }
{
    buffer[at..at + octets.len()].copy_from_slice(octets);
}

/// Writes a datum behind its length.
fn put_datum(buffer: &mut [u8], at: usize, octets: &[u8])
    requires room { at + length (datum octets.now) ≤ length buffer.old }
    requires narrow { length octets.now ≤ 65535 }
    ensures { WritesOn at (datum octets.now) buffer.old buffer.new }
{
    let size = octets.len();
    put(buffer, at, &[(size / 256) as u8, (size % 256) as u8]);
    put(buffer, at + 2, octets);
}

/// How many octets data take, each behind its length, where each has as many as its length can
/// tell, and they can be counted.
pub(crate) fn size_of_data(items: &[Octets]) -> Option<usize>
    ensures size { IfSome result (λ size. size ≡ length (data_text items.now)) }
    ensures some { IfSome result (λ size. AreTellable items.now) }
    ensures none { IfNone result (AreTellable items.now → ⊥) }
{
    let mut size = 0usize;
    for octets in items {
        if octets.len() > MOST {
            return None;
        }
        size = size.checked_add(octets.len() + 2)?;
    }
    Some(size)
}

/// Writes an owner to the front of a buffer, and behind it data.
pub(crate) fn fill(buffer: &mut [u8], owner: &[u8], items: &[Octets])
    requires room { length (owner.now ++ data_text items.now) ≤ length buffer.old }
    requires narrow { AreNarrow items.now }
    ensures { IsFilled buffer.old (owner.now ++ data_text items.now) buffer.new }
{
    put(buffer, 0, owner);
    let mut at = owner.len();
    for octets in items {
        let octets = octets.as_slice();
        put_datum(buffer, at, octets);
        at += octets.len() + 2;
    }
}
