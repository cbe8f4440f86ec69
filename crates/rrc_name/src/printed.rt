// SPDX-License-Identifier: MIT
ghost use Rattle.std.specs.Prelude.{◌≡◌, ◌+◌, ◌<◌, [], ◌∷◌, ◌++◌, IfOk, OnOk, IsTrue, string_bytes};
ghost use Rattle.std.specs.List.{flat_map};
ghost use Rattle.rrc_name.specs.Text.{decimal_of, spelling_of, dotted, text_of};
ghost use Rattle.rrc_name.specs.Wire.{labels_of, IsWireForm};

use crate::label::first_label;
use arrayvec::ArrayString;
use std::alloc::{AllocError, Global};

/// A backslash and the three digits of an octet's decimal number.
fn by_number(octet: u8) -> ArrayString<4>
    ensures { result.bytes ≡ 92 ∷ decimal_of octet }
{
    let mut text = ArrayString::new();
    text.push('\\');
    text.push(char::from(b'0' + octet / 100));
    text.push(char::from(b'0' + octet / 10 % 10));
    text.push(char::from(b'0' + octet % 10));
    text
}

/// How the text of a name spells an octet of a label: one to four octets. It takes no memory.
pub fn octet_text(octet: u8) -> ArrayString<4>
    ensures { result.bytes ≡ spelling_of octet }
{
    let mut text = ArrayString::new();
    match octet {
        b'.' | b'\\' => {
            text.push('\\');
            text.push(char::from(octet));
        }
        b'!'..=b'~' => text.push(char::from(octet)),
        _ => return by_number(octet),
    }
    text
}

/// Whether each octet spells itself, as those of most labels do.
pub fn is_spelled_as_it_is(label: &[u8]) -> bool
    ensures { IsTrue result → flat_map spelling_of label.now ≡ label.now }
{
    for &octet in label {
        if !matches!(octet, b'!'..=b'-' | b'/'..=b'[' | b']'..=b'~') {
            return false;
        }
    }
    true
}

fn push_label(text: &mut String, label: &[u8]) -> Result<(), AllocError>
    ensures { OnOk result (string_bytes text.new ≡ string_bytes text.old ++ (flat_map spelling_of label.now ++ 46 ∷ [])) }
{
    for &octet in label {
        text.push_str(octet_text(octet).as_str())?;
    }
    text.push('.')
}

/// The labels of a name, each with a dot behind it.
fn labels_in(alloc: Global, wire: &[u8]) -> Result<String, AllocError>
    requires { IsWireForm wire.now }
    ensures { IfOk result (λ text. string_bytes text ≡ dotted (labels_of wire.now)) }
{
    let mut text = String::new(alloc);
    let mut rest = wire;
    while let Some((label, behind)) = first_label(rest) {
        push_label(&mut text, label)?;
        rest = behind;
    }
    Ok(text)
}

/// The text of the name with this wire form.
pub(crate) fn text_in(alloc: Global, wire: &[u8]) -> Result<String, AllocError>
    requires { IsWireForm wire.now }
    ensures { IfOk result (λ text. string_bytes text ≡ text_of wire.now) }
{
    match first_label(wire) {
        None => String::from_str(alloc, "."),
        Some(_) => labels_in(alloc, wire),
    }
}
