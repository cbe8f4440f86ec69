// SPDX-License-Identifier: MIT
ghost use Rattle.std.specs.Prelude.{IfOk, OnOk};
ghost use Rattle.hex.specs.Hex.{IsBytes};
ghost use Rattle.rrc_name.specs.Wire.{IsWireForm};
ghost use Rattle.rrc_archive.specs.ArchiveFields.{with_written, data_of, source_at, positive_at, negative_at, failure_at, body_at};
ghost use Rattle.rrc_archive.specs.ArchiveLaw.{IsNumber, HoldsItems, HoldsBody};
ghost use Rattle.rrc_text.specs.Fields.{said_at};
ghost use Rattle.rrc_text.specs.Gives.{Gives};
ghost use Rattle.rrc_text.specs.Octets.{octets_of};

use crate::read::slot::owner_at;
use rrc_history::{Body, Trust};
use rrc_name::{Name, Octets, RdataList, Sequence, Shared};
use rrc_text::{LineFault, cut_at_comma, field_at, octets_in, trust_at, ttl_at};
use std::alloc::Global;

/// Octets are below 256. The function does nothing.
fn tell_octets(octets: &[u8])
    ensures { IsBytes octets.now }
{
    let _ = octets;
}

/// Octets in hexadecimal, or a dash for none.
fn item_in(alloc: Global, piece: &[u8]) -> Result<Octets, LineFault>
    ensures held { IfOk result IsBytes }
    ensures exact { Gives (λ item. item) result (octets_of piece.now) }
{
    let item = octets_in(alloc, piece)?;
    tell_octets(item.as_slice());
    Ok(item)
}

/// Puts the item of a piece behind the others.
fn add_item(alloc: Global, items: &mut Sequence<Octets>, piece: &[u8]) -> Result<(), LineFault>
    requires { HoldsItems items.old }
    ensures held { OnOk result (HoldsItems items.new) }
    ensures exact { Gives (λ _. items.new) result (with_written items.old piece.now) }
{
    let item = item_in(alloc, piece)?;
    items.push(item)?;
    Ok(())
}

/// Items in hexadecimal with a comma between two, one at least. Repeats are kept.
fn items_in(alloc: Global, field: &[u8]) -> Result<Sequence<Octets>, LineFault>
    ensures held { IfOk result HoldsItems }
    ensures exact { Gives (λ items. items) result (data_of field.now) }
{
    let mut items = Sequence::new(alloc);
    let mut rest = field;
    for _seen in 0..field.len() {
        match cut_at_comma(rest) {
            Some((piece, more)) => {
                add_item(alloc, &mut items, piece)?;
                rest = more;
            }
            None => {
                add_item(alloc, &mut items, rest)?;
                return Ok(items);
            }
        }
    }
    Err(LineFault::NotOne)
}

/// The data of a set, and the octets behind them.
pub(crate) fn data_at(alloc: Global, octets: &[u8]) -> Result<(Shared<RdataList>, &[u8]), LineFault>
    ensures held { IfOk result (λ found. HoldsItems found.0) }
    ensures exact { Gives (λ found. (found.0, found.1.now)) result (said_at data_of octets.now) }
{
    let (field, rest) = field_at(octets)?;
    let items = RdataList::from_vec(items_in(alloc, field)?.into_vec());
    Ok((Shared::new(alloc, items)?, rest))
}

/// The data of an SOA record, and the octets behind them.
pub(crate) fn soa_at(alloc: Global, octets: &[u8]) -> Result<(Shared<Octets>, &[u8]), LineFault>
    ensures held { IfOk result (λ found. IsBytes found.0) }
    ensures exact { Gives (λ found. (found.0, found.1.now)) result (said_at octets_of octets.now) }
{
    let (field, rest) = field_at(octets)?;
    Ok((Shared::new(alloc, item_in(alloc, field)?)?, rest))
}

/// How far data are trusted, for how many seconds they live and whose they are, and the octets
/// behind these.
#[tactic(auto, unfolding(crate::specs::ArchiveFields::source_at))]
fn source_at(alloc: Global, octets: &[u8]) -> Result<(Trust, u32, Name, &[u8]), LineFault>
    ensures held { IfOk result (λ found. IsNumber found.1 × IsWireForm found.2) }
    ensures exact { Gives (λ found. (found.0, found.1, found.2, found.3.now)) result (source_at octets.now) }
{
    let (trust, rest) = trust_at(octets)?;
    let (ttl, rest) = ttl_at(rest)?;
    let (owner, rest) = owner_at(alloc, rest)?;
    Ok((trust, ttl, owner, rest))
}

#[tactic(auto, unfolding(crate::specs::ArchiveFields::positive_at))]
fn positive_at(alloc: Global, octets: &[u8]) -> Result<(Body, &[u8]), LineFault>
    ensures held { IfOk result (λ found. HoldsBody found.0) }
    ensures exact { Gives (λ found. (found.0, found.1.now)) result (positive_at octets.now) }
{
    let (trust, ttl, owner, rest) = source_at(alloc, octets)?;
    let (items, rest) = data_at(alloc, rest)?;
    let body = Body::Positive {
        trust,
        ttl,
        owner,
        items,
    };
    Ok((body, rest))
}

#[tactic(auto, unfolding(crate::specs::ArchiveFields::negative_at))]
fn negative_at(alloc: Global, octets: &[u8]) -> Result<(Body, &[u8]), LineFault>
    ensures held { IfOk result (λ found. HoldsBody found.0) }
    ensures exact { Gives (λ found. (found.0, found.1.now)) result (negative_at octets.now) }
{
    let (trust, ttl, soa_owner, rest) = source_at(alloc, octets)?;
    let (soa, rest) = soa_at(alloc, rest)?;
    let body = Body::Negative {
        trust,
        ttl,
        soa_owner,
        soa,
    };
    Ok((body, rest))
}

#[tactic(auto, unfolding(crate::specs::ArchiveFields::failure_at))]
fn failure_at(octets: &[u8]) -> Result<(Body, &[u8]), LineFault>
    ensures held { IfOk result (λ found. HoldsBody found.0) }
    ensures exact { Gives (λ found. (found.0, found.1.now)) result (failure_at octets.now) }
{
    let (ttl, rest) = ttl_at(octets)?;
    Ok((Body::Failure { ttl }, rest))
}

/// What a key holds, or is to hold, and the octets behind it.
#[tactic(auto, unfolding(crate::specs::ArchiveFields::body_at))]
pub(crate) fn body_at(alloc: Global, octets: &[u8]) -> Result<(Body, &[u8]), LineFault>
    ensures held { IfOk result (λ found. HoldsBody found.0) }
    ensures exact { Gives (λ found. (found.0, found.1.now)) result (body_at octets.now) }
{
    let (word, rest) = field_at(octets)?;
    if word == b"set".as_slice() {
        positive_at(alloc, rest)
    } else if word == b"negative".as_slice() {
        negative_at(alloc, rest)
    } else if word == b"failure".as_slice() {
        failure_at(rest)
    } else {
        Err(LineFault::NotOne)
    }
}
