// SPDX-License-Identifier: MIT
ghost use Rattle.std.specs.Prelude.{◌≡◌, ◌≤◌, ◌∷◌, [], ◌++◌, length, decimal};
ghost use Rattle.std.specs.List.{flat_map};
ghost use Rattle.hex.specs.Hex.{encode_lower};
ghost use Rattle.rrc_name.specs.Wire.{IsWireForm, labels_of};
ghost use Rattle.rrc_name.specs.Text.{spelling_of, dotted, text_of};
ghost use Rattle.rrc_text.specs.Output.{Puts};

use crate::write::output::Output;
use rrc_name::{Name, first_label, is_spelled_as_it_is, octet_text};
use std::io::Write;

/// So many octets are printed in hexadecimal at once.
const FEW: usize = 64;

/// Puts a word behind what was put.
pub fn put_word<W: Write>(output: &mut Output<'_, W>, word: &str)
    requires { length word.now ≤ 4096 }
    ensures { Puts W.contents output.old output.new word.now }
{
    output.put(word.as_bytes());
}

/// Puts a number in decimal.
pub fn put_number<W: Write>(output: &mut Output<'_, W>, number: u64)
    ensures { Puts W.contents output.old output.new (decimal number) }
{
    let mut room = itoa::Buffer::new();
    output.put(room.format(number).as_bytes());
}

/// The octets of a label, each as the text of a name spells it.
fn put_each<W: Write>(output: &mut Output<'_, W>, label: &[u8])
    ensures { Puts W.contents output.old output.new (flat_map spelling_of label.now) }
{
    for &octet in label {
        put_word(output, octet_text(octet).as_str());
    }
}

/// A label as the text of a name spells it, at once where each octet spells itself.
fn put_spelled<W: Write>(output: &mut Output<'_, W>, label: &[u8])
    requires { length label.now ≤ 63 }
    ensures { Puts W.contents output.old output.new (flat_map spelling_of label.now) }
{
    if is_spelled_as_it_is(label) {
        output.put(label);
    } else {
        put_each(output, label);
    }
}

/// A label, and the dot behind it.
fn put_label<W: Write>(output: &mut Output<'_, W>, label: &[u8])
    requires { length label.now ≤ 63 }
    ensures { Puts W.contents output.old output.new (flat_map spelling_of label.now ++ (46 ∷ [])) }
{
    put_spelled(output, label);
    put_word(output, ".");
}

/// The labels of a name, each with a dot behind it.
fn put_labels<W: Write>(output: &mut Output<'_, W>, wire: &[u8])
    requires { IsWireForm wire.now }
    ensures { Puts W.contents output.old output.new (dotted (labels_of wire.now)) }
{
    let mut rest = wire;
    while let Some((label, behind)) = first_label(rest) {
        put_label(output, label);
        rest = behind;
    }
}

/// Puts a name as its text spells it.
pub fn put_name<W: Write>(output: &mut Output<'_, W>, name: &Name)
    ensures { Puts W.contents output.old output.new (text_of name.now) }
{
    let wire = name.as_slice();
    match first_label(wire) {
        None => put_word(output, "."),
        Some(_) => put_labels(output, wire),
    }
}

/// A few octets in hexadecimal.
fn put_few<W: Write>(output: &mut Output<'_, W>, octets: &[u8])
    requires { length octets.now ≤ 64 }
    ensures { Puts W.contents output.old output.new (encode_lower octets.now) }
{
    let mut room = [0u8; 2 * FEW];
    let digits = &mut room[..2 * octets.len()];
    let Ok(()) = hex::encode_to_slice(octets, digits) else {
        unreachable!()
    };
    output.put(digits);
}

/// Octets in hexadecimal.
pub(crate) fn put_octets<W: Write>(output: &mut Output<'_, W>, octets: &[u8])
    ensures { Puts W.contents output.old output.new (encode_lower octets.now) }
{
    let mut rest = octets;
    while !rest.is_empty() {
        let (few, behind) = rest.split_at(rest.len().min(FEW));
        put_few(output, few);
        rest = behind;
    }
}
