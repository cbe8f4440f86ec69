// SPDX-License-Identifier: MIT
ghost use Rattle.std.specs.Prelude.{IfOk};
ghost use Rattle.rrc_name.specs.Wire.{IsWireForm};
ghost use Rattle.rrc_archive.specs.ArchiveFields.{slot_of, slot_and_class_of, key_at};
ghost use Rattle.rrc_archive.specs.ArchiveLaw.{IsNumber, HoldsSlot, HoldsKey};
ghost use Rattle.rrc_text.specs.Fields.{said_at};
ghost use Rattle.rrc_text.specs.Gives.{Gives};
ghost use Rattle.rrc_text.specs.Names.{name_of};

use rrc_name::class::IN;
use rrc_name::{Key, Name, Slot};
use rrc_text::{LineFault, field_at, first_slash, name_in, word_in};
use std::alloc::Global;

/// A type, `nx`, or `failed` and a type.
fn slot_in(text: &[u8]) -> Result<Slot, LineFault>
    ensures held { IfOk result HoldsSlot }
    ensures exact { Gives (λ slot. slot) result (slot_of text.now) }
{
    if text == b"nx".as_slice() {
        return Ok(Slot::Nx);
    }
    match text.strip_prefix(b"failed".as_slice()) {
        Some(digits) => Ok(Slot::Failed(word_in(digits)?)),
        None => Ok(Slot::Set(word_in(text)?)),
    }
}

/// A slot, and the class behind a slash, or IN, and the octets behind them.
fn slot_at(octets: &[u8]) -> Result<(Slot, u16, &[u8]), LineFault>
    ensures held { IfOk result (λ found. HoldsSlot found.0 × IsNumber found.1) }
    ensures exact { Gives (λ found. ((found.0, found.1), found.2.now)) result (said_at slot_and_class_of octets.now) }
{
    let (field, rest) = field_at(octets)?;
    match first_slash(field) {
        Some(place) => {
            let slot = slot_in(&field[..place])?;
            let class = word_in(&field[place + 1..])?;
            Ok((slot, class, rest))
        }
        None => Ok((slot_in(field)?, IN, rest)),
    }
}

/// A name in its spelling, and the octets behind it.
pub(crate) fn owner_at(alloc: Global, octets: &[u8]) -> Result<(Name, &[u8]), LineFault>
    ensures held { IfOk result (λ found. IsWireForm found.0) }
    ensures exact { Gives (λ found. (found.0, found.1.now)) result (said_at name_of octets.now) }
{
    let (field, rest) = field_at(octets)?;
    let name = name_in(alloc, field)?;
    name.is_a_wire_form();
    Ok((name, rest))
}

/// A key, and the octets behind it. Its name is folded, however it is spelled.
#[tactic(auto, unfolding(crate::specs::ArchiveFields::key_at))]
pub(crate) fn key_at(alloc: Global, octets: &[u8]) -> Result<(Key, &[u8]), LineFault>
    ensures held { IfOk result (λ found. HoldsKey found.0) }
    ensures exact { Gives (λ found. (found.0, found.1.now)) result (key_at octets.now) }
{
    let (name, rest) = owner_at(alloc, octets)?;
    let (slot, class, rest) = slot_at(rest)?;
    let key = Key::of(&name, class, slot)?;
    let _ = key.name();
    Ok((key, rest))
}
