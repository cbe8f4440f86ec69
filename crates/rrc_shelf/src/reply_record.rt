// SPDX-License-Identifier: MIT
ghost use Rattle.std.specs.Prelude.{◌≡◌, IfSome, IfNone};
ghost use Rattle.std.specs.Option.{option_map};
ghost use Rattle.rrc_shelf.specs.Asks.{fields_of, record_of, told_of, AreTellable};
ghost use Rattle.rrc_history.specs.Views.{held_in, reply_in};

use crate::entry_record::{EntryRecord, record_of};
use crate::text::size_of_data;
use rrc_cache::Lookup;
use rrc_history::ReplyRef;
use rrc_name::Octets;
use std::slice;

/// What a reply is, which entry gives it, and how many octets of the buffer it takes: those of the
/// owner and behind them those of the data.
#[repr(C)]
#[derive(Clone, Copy, Debug)]
pub struct ReplyRecord {
    /// 1 fresh, 2 stale, 3 no data, 4 no such name, 5 nothing, 6 nothing since asking has failed
    /// recently.
    pub kind: u32,
    /// The type of the question that was answered: as it was asked, or CNAME.
    pub rtype: u32,
    /// For how many seconds the reply holds.
    pub left: u32,
    /// From when on asking that has failed may be tried again.
    pub retry_from: u64,
    /// The octets of the owner's wire form.
    pub owner_size: u64,
    /// The octets of the data, each datum behind the two of its length.
    pub data_size: u64,
    /// What gives the reply, which a miss has not.
    pub entry: EntryRecord,
}

/// The owner of a reply's data, which a miss has none of.
pub(crate) fn owner_of<'a>(reply: ReplyRef<'a>) -> &'a [u8]
    ensures { result.now ≡ (fields_of (reply_in reply.entry)).owner }
{
    match reply {
        ReplyRef::Fresh { set, .. } | ReplyRef::Stale { set, .. } => set.owner.as_slice(),
        ReplyRef::NoData { soa, .. } | ReplyRef::NxDomain { soa, .. } => soa.owner.as_slice(),
        ReplyRef::Miss { .. } => &[],
    }
}

/// The data of a reply.
pub(crate) fn data_of<'a>(reply: ReplyRef<'a>) -> &'a [Octets]
    ensures { result.now ≡ (fields_of (reply_in reply.entry)).items }
{
    match reply {
        ReplyRef::Fresh { set, .. } | ReplyRef::Stale { set, .. } => set.items.as_slice(),
        ReplyRef::NoData { soa, .. } | ReplyRef::NxDomain { soa, .. } => {
            slice::from_ref(&**soa.octets)
        }
        ReplyRef::Miss { .. } => &[],
    }
}

#[inline(always)]
fn kind_of(reply: ReplyRef<'_>) -> u32
    ensures { result ≡ (fields_of (reply_in reply.entry)).kind }
{
    match reply {
        ReplyRef::Fresh { .. } => 1,
        ReplyRef::Stale { .. } => 2,
        ReplyRef::NoData { .. } => 3,
        ReplyRef::NxDomain { .. } => 4,
        ReplyRef::Miss { retry_from: None } => 5,
        ReplyRef::Miss {
            retry_from: Some(_),
        } => 6,
    }
}

#[inline(always)]
fn left_of(reply: ReplyRef<'_>) -> u32
    ensures { result ≡ (fields_of (reply_in reply.entry)).left }
{
    match reply {
        ReplyRef::Fresh { left, .. }
        | ReplyRef::Stale { left, .. }
        | ReplyRef::NoData { left, .. }
        | ReplyRef::NxDomain { left, .. } => left,
        ReplyRef::Miss { .. } => 0,
    }
}

#[inline(always)]
fn retry_of(reply: ReplyRef<'_>) -> u64
    ensures { result ≡ (fields_of (reply_in reply.entry)).retry_from }
{
    match reply {
        ReplyRef::Miss {
            retry_from: Some(moment),
        } => moment,
        _ => 0,
    }
}

/// The record of a reply to a question of a type, where each of its data has as many octets as its
/// length can tell, and all can be counted.
#[inline(always)]
pub(crate) fn told_of(rtype: u16, lookup: Lookup<'_>) -> Option<ReplyRecord>
    ensures told { IfSome result (λ told. told ≡ told_of rtype (reply_in lookup.entry.reply) (record_of (option_map held_in lookup.entry.entry) lookup.entry.age)) }
    ensures some { IfSome result (λ told. AreTellable (fields_of (reply_in lookup.entry.reply)).items) }
    ensures none { IfNone result (AreTellable (fields_of (reply_in lookup.entry.reply)).items → ⊥) }
{
    let reply = lookup.reply;
    let data_size = size_of_data(data_of(reply))? as u64;
    Some(ReplyRecord {
        kind: kind_of(reply),
        rtype: u32::from(rtype),
        left: left_of(reply),
        retry_from: retry_of(reply),
        owner_size: owner_of(reply).len() as u64,
        data_size,
        entry: record_of(lookup.entry, lookup.age),
    })
}
