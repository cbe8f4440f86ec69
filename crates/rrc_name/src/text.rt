// SPDX-License-Identifier: MIT
ghost use Rattle.std.specs.Prelude.{◌≡◌, ◌⊎◌, [], ◌++◌, ◌∷◌, IfOk, IfErr, OnErr, MatchResult, bytes_eq, Err};
ghost use Rattle.rrc_name.specs.Reading.{spelled_by, with_label, name_from, name_ends};

use crate::fault::NameFault;
use std::alloc::Global;

/// How far an escape has been read.
#[derive(Clone, Copy)]
pub(crate) enum Escape {
    Unescaped,
    Begun,
    OneDigit(u8),
    TwoDigits(u8, u8),
}

/// What an octet of a text spells.
#[derive(Clone, Copy)]
pub(crate) enum Spelled {
    /// A part of an escape.
    Part(Escape),
    /// An octet of a label.
    Octet(u8),
    /// The end of a label.
    Dot,
    NoSpelling,
}

fn unescaped(octet: u8) -> Spelled
    ensures { result ≡ spelled_by Escape.Unescaped octet }
{
    match octet {
        b'.' => Spelled::Dot,
        b'\\' => Spelled::Part(Escape::Begun),
        b'!'..=b'~' => Spelled::Octet(octet),
        _ => Spelled::NoSpelling,
    }
}

fn behind_backslash(octet: u8) -> Spelled
    ensures { result ≡ spelled_by Escape.Begun octet }
{
    match octet {
        b'0'..=b'9' => Spelled::Part(Escape::OneDigit(octet - b'0')),
        b'!'..=b'~' => Spelled::Octet(octet),
        _ => Spelled::NoSpelling,
    }
}

fn last_digit(hundreds: u8, tens: u8, octet: u8) -> Spelled
    ensures { result ≡ spelled_by (Escape.TwoDigits hundreds tens) octet }
{
    if !octet.is_ascii_digit() {
        return Spelled::NoSpelling;
    }
    let number = 100 * u16::from(hundreds) + 10 * u16::from(tens) + u16::from(octet - b'0');
    match u8::try_from(number) {
        Ok(number) => Spelled::Octet(number),
        Err(_) => Spelled::NoSpelling,
    }
}

fn spell(escape: Escape, octet: u8) -> Spelled
    ensures { result ≡ spelled_by escape octet }
{
    match escape {
        Escape::Unescaped => unescaped(octet),
        Escape::Begun => behind_backslash(octet),
        Escape::OneDigit(hundreds) => match octet {
            b'0'..=b'9' => Spelled::Part(Escape::TwoDigits(hundreds, octet - b'0')),
            _ => Spelled::NoSpelling,
        },
        Escape::TwoDigits(hundreds, tens) => last_digit(hundreds, tens, octet),
    }
}

/// Puts a label, which is then empty, behind those before it.
fn end_label(before: &mut Vec<u8>, label: &mut Vec<u8>) -> Result<(), NameFault>
    ensures ok { IfOk result (λ _. with_label before.old.items label.old.items ≡ Ok before.new.items) }
    ensures cleared { IfOk result (λ _. label.new.items ≡ []) }
    ensures err { IfErr result (λ fault. (fault ≡ NameFault.Memory) ⊎ (with_label before.old.items label.old.items ≡ Err fault)) }
{
    let size = match u8::try_from(label.len()) {
        Ok(size) if size <= 63 => size,
        _ => return Err(NameFault::LabelTooLong),
    };
    if size == 0 {
        return Err(NameFault::EmptyLabel);
    }
    if before.len() + label.len() > 253 {
        return Err(NameFault::NameTooLong);
    }
    before.push(size)?;
    before.extend_from_slice(label.as_slice())?;
    label.clear();
    Ok(())
}

/// The wire form of the name that a text spells.
pub(crate) fn wire_in(alloc: Global, text: &[u8]) -> Result<Vec<u8>, NameFault>
    ensures ok { IfOk result (λ wire. name_from [] [] Escape.Unescaped text.now ≡ Ok wire.items) }
    ensures err { IfErr result (λ fault. (fault ≡ NameFault.Memory) ⊎ (name_from [] [] Escape.Unescaped text.now ≡ Err fault)) }
{
    let mut before = Vec::new(alloc);
    let mut label = Vec::new(alloc);
    let mut escape = Escape::Unescaped;
    for &octet in text {
        match spell(escape, octet) {
            Spelled::Part(more) => escape = more,
            Spelled::Octet(octet) => {
                label.push(octet)?;
                escape = Escape::Unescaped;
            }
            Spelled::Dot => {
                end_label(&mut before, &mut label)?;
                escape = Escape::Unescaped;
            }
            Spelled::NoSpelling => return Err(NameFault::BadEscape),
        }
    }
    end_name(before, label, escape)
}

/// The wire form of a name whose text has ended.
fn end_name(mut before: Vec<u8>, mut label: Vec<u8>, escape: Escape) -> Result<Vec<u8>, NameFault>
    ensures ok { IfOk result (λ wire. name_ends before.items label.items escape ≡ Ok wire.items) }
    ensures err { IfErr result (λ fault. (fault ≡ NameFault.Memory) ⊎ (name_ends before.items label.items escape ≡ Err fault)) }
{
    match escape {
        Escape::Unescaped => {}
        _ => return Err(NameFault::BadEscape),
    }
    if before.is_empty() || !label.is_empty() {
        end_label(&mut before, &mut label)?;
    }
    before.push(0)?;
    Ok(before)
}
