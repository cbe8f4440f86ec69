// SPDX-License-Identifier: MIT
//! What a cache was told and what it answered: bodies, offers, asks, and the events of its history.
#![tactic(auto)]

mod ask;
mod ask_ref;
mod audits;
mod body;
mod chains;
mod chapter;
pub mod classless;
mod entry_list;
mod event;
mod images;
mod judge;
mod laws;
mod octets;
mod offer;
mod past;
mod renewal;
mod repeats;
mod reply;
mod rules;
mod snapshot;

pub use ask::{Ask, Mode, Purpose};
pub use ask_ref::AskRef;
pub use audits::{FirstBad, audit};
pub use body::{Body, Trust};
pub use chains::{ChainFault, Whole, chain, join_chained};
pub use chapter::Chapter;
pub use entry_list::{Entries, EntryList};
pub use event::{Event, Outcome, Reply, RrSet, Soa, Tag};
pub use images::{
    ClassFault, events_from_classless, from_classless, images_are_right_alike,
    snapshot_from_classless, snapshot_without_class,
};
pub use judge::{Found, Held, governing, recent_failure, reply_of, retry_from, span, verdict};
pub use laws::{
    calls_determine_the_history, legal_histories_keep_the_laws, same_snapshots_are_one,
    snapshots_lead_to_themselves, sound_entries_have_no_fault,
};
pub use octets::{BLOCK_OCTETS, ENTRY_OCTETS, INLINE_OCTETS, SHARED_OCTETS, VALUE_OCTETS};
pub use offer::{Offer, OfferFault};
pub use reply::{ReplyRef, SetRef, SoaRef};
pub use rrc_name as name;
pub use rules::{LAST_MOMENT, NUMBER_LIMIT, Rules};
pub use snapshot::{Entry, NoSnapshot, Snapshot, SnapshotFault};
