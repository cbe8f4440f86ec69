// SPDX-License-Identifier: MIT
ghost use Rattle.std.specs.Prelude.{◌≡◌, drop, IfErr, IfOk, OnErr, OnOk};
ghost use Rattle.std.specs.Option.{option_map};
ghost use Rattle.rrc_shelf.specs.Checks.{number_of, number_of_call, OutOfMemory};
ghost use Rattle.rrc_shelf.specs.Readings.{name_of_kind, number_of_kind, record_of_summary, summary_of, AreChosen, SummaryDue, TellsSummary};

use crate::folded_name::FoldedName;
use crate::names::fold_name;
use crate::reading::Reading;
use crate::status::Status;
use crate::terms::{Division, ResponseTerms};
use rrc_name::Name;
use rrc_sets::{RelevanceLimits, ResponseKind, kind_of};
use rrc_wire::Message;
use std::alloc::Global;

/// What a message says beside what it offers.
#[derive(Drop)]
pub struct Summary {
    pub rcode: u8,
    pub aa: bool,
    pub tc: bool,
    pub kind: ResponseKind,
}

/// What C is told of that.
#[repr(C)]
#[derive(Clone, Copy, Debug)]
pub struct SummaryRecord {
    /// 1 answer, 2 answer whose TTLs differ, 3 no data, 4 no such name, 5 referral, 6 alias, 7
    /// failure, 8 nothing that can be used.
    pub kind: u32,
    pub rcode: u8,
    pub aa: bool,
    pub tc: bool,
}

/// The limits of relevance of a call.
pub(crate) fn relevance_of(terms: &ResponseTerms) -> RelevanceLimits
    ensures { AreChosen terms.now result }
{
    RelevanceLimits {
        lowest_ttl: terms.lowest_ttl,
        clears_denied: terms.clears_denied,
        ..RelevanceLimits::default()
    }
}

/// What a message says for a zone.
pub(crate) fn summary_of(
    alloc: Global,
    message: &Message,
    zone: &Name,
    relevance: &RelevanceLimits,
) -> Result<Summary, Status>
    ensures summary { IfOk result (λ summary. summary ≡ summary_of relevance.now message.now zone.now) }
    ensures memory { IfErr result (λ status. OutOfMemory (number_of status)) }
{
    let kind = kind_of(alloc, message, zone, relevance)?;
    Ok(Summary {
        rcode: message.rcode,
        aa: message.aa,
        tc: message.tc,
        kind,
    })
}

fn number_of_kind(kind: &ResponseKind) -> u32
    ensures { result ≡ number_of_kind kind.now }
{
    match kind {
        ResponseKind::Answer => 1,
        ResponseKind::UnequalTtls => 2,
        ResponseKind::NoData => 3,
        ResponseKind::NxDomain => 4,
        ResponseKind::Referral(_) => 5,
        ResponseKind::Alias(_) => 6,
        ResponseKind::Failure => 7,
        ResponseKind::Unusable => 8,
    }
}

/// The name of a kind, if it has one.
fn name_of_kind(kind: &ResponseKind) -> Option<&Name>
    ensures { option_map (λ name. name.now) result ≡ name_of_kind kind.now }
{
    match kind {
        ResponseKind::Referral(zone) => Some(zone),
        ResponseKind::Alias(name) => Some(name),
        ResponseKind::Answer => None,
        ResponseKind::UnequalTtls => None,
        ResponseKind::NoData => None,
        ResponseKind::NxDomain => None,
        ResponseKind::Failure => None,
        ResponseKind::Unusable => None,
    }
}

fn record_of_summary(summary: &Summary) -> SummaryRecord
    ensures { result ≡ record_of_summary summary.now }
{
    SummaryRecord {
        kind: number_of_kind(&summary.kind),
        rcode: summary.rcode,
        aa: summary.aa,
        tc: summary.tc,
    }
}

/// Tells what a reading says, and makes the name of its kind, where it has one. It takes no memory.
pub fn tell_summary(
    reading: &Reading,
    name: &mut FoldedName,
    told: &mut SummaryRecord,
) -> Result<(), Status>
    ensures ok { OnOk result (TellsSummary reading.now told.new name.old name.new) }
    ensures name { OnErr result (name.new ≡ name.old) }
    ensures behind { drop name.new.size name.new.octets ≡ drop name.new.size name.old.octets }
    ensures told { OnErr result (told.new ≡ told.old) }
    ensures due { SummaryDue reading.now (number_of_call result) }
{
    let division = Division {
        count: reading.parts,
        seed: reading.seed,
    };
    if let Some(octets) = name_of_kind(&reading.summary.kind) {
        fold_name(octets.as_slice(), &division, name)?;
    }
    *told = record_of_summary(&reading.summary);
    Ok(())
}
