// SPDX-License-Identifier: MIT
ghost use Rattle.std.specs.Prelude.{IfOk};
ghost use Rattle.hex.specs.Hex.{IsBytes};
ghost use Rattle.rrc_name.specs.Wire.{IsWireForm};
ghost use Rattle.rrc_archive.specs.ArchiveFields.{set_of, soa_of, miss_of, reply_of};
ghost use Rattle.rrc_archive.specs.ArchiveLaw.{IsNumber, HoldsItems, HoldsReply};
ghost use Rattle.rrc_text.specs.Gives.{Gives};

use crate::read::body::{data_at, soa_at};
use crate::read::number::count_at;
use crate::read::slot::owner_at;
use rrc_history::{Reply, RrSet, Soa};
use rrc_text::{LineFault, field_at, has_field, ttl_at};
use std::alloc::Global;

/// How many seconds a set has to live, and the set.
#[tactic(auto, unfolding(crate::specs::ArchiveFields::set_of))]
fn set_in(alloc: Global, octets: &[u8]) -> Result<(u32, RrSet), LineFault>
    ensures held { IfOk result (λ found. IsNumber found.0 × (IsWireForm found.1.owner × HoldsItems found.1.items)) }
    ensures exact { Gives (λ found. (found.0, found.1)) result (set_of octets.now) }
{
    let (left, rest) = ttl_at(octets)?;
    let (owner, rest) = owner_at(alloc, rest)?;
    let (items, _) = data_at(alloc, rest)?;
    Ok((left, RrSet { owner, items }))
}

/// How many seconds a negative answer has to live, and its SOA record.
#[tactic(auto, unfolding(crate::specs::ArchiveFields::soa_of))]
fn soa_in(alloc: Global, octets: &[u8]) -> Result<(u32, Soa), LineFault>
    ensures held { IfOk result (λ found. IsNumber found.0 × (IsWireForm found.1.owner × IsBytes found.1.octets)) }
    ensures exact { Gives (λ found. (found.0, found.1)) result (soa_of octets.now) }
{
    let (left, rest) = ttl_at(octets)?;
    let (owner, rest) = owner_at(alloc, rest)?;
    let (octets, _) = soa_at(alloc, rest)?;
    Ok((left, Soa { owner, octets }))
}

/// From when on it may be tried again, if that is told.
#[tactic(auto, unfolding(crate::specs::ArchiveFields::miss_of))]
fn miss_in(octets: &[u8]) -> Result<Reply, LineFault>
    ensures held { IfOk result HoldsReply }
    ensures exact { Gives (λ reply. reply) result (miss_of octets.now) }
{
    if !has_field(octets) {
        return Ok(Reply::Miss { retry_from: None });
    }
    let (moment, _) = count_at(octets)?;
    Ok(Reply::Miss {
        retry_from: Some(moment),
    })
}

/// The reply that the fields to the end of a line say.
#[tactic(auto, unfolding(crate::specs::ArchiveFields::reply_of))]
pub(crate) fn reply_in(alloc: Global, octets: &[u8]) -> Result<Reply, LineFault>
    ensures held { IfOk result HoldsReply }
    ensures exact { Gives (λ reply. reply) result (reply_of octets.now) }
{
    let (word, rest) = field_at(octets)?;
    if word == b"fresh".as_slice() {
        let (left, set) = set_in(alloc, rest)?;
        Ok(Reply::Fresh { set, left })
    } else if word == b"stale".as_slice() {
        let (left, set) = set_in(alloc, rest)?;
        Ok(Reply::Stale { set, left })
    } else if word == b"nodata".as_slice() {
        let (left, soa) = soa_in(alloc, rest)?;
        Ok(Reply::NoData { soa, left })
    } else if word == b"nxdomain".as_slice() {
        let (left, soa) = soa_in(alloc, rest)?;
        Ok(Reply::NxDomain { soa, left })
    } else if word == b"miss".as_slice() {
        miss_in(rest)
    } else {
        Err(LineFault::NotOne)
    }
}
