// SPDX-License-Identifier: MIT
//! What each call for C does to a shelf, or reads in it, by the terms that C says: all but the
//! handles behind which C keeps its shelves.
#![tactic(auto)]

mod aliases;
mod asking;
mod asks;
mod chapter_lines;
mod counts;
mod division;
mod empty_shelf;
mod entry_record;
mod folded_name;
mod intake;
mod lookup;
mod message;
mod names;
mod numbers;
mod offered;
mod question;
mod reading;
mod reply_record;
mod response;
mod shares;
mod sizes;
mod status;
mod stored;
mod summary;
mod sweeps;
mod taken;
mod terms;
mod text;
mod trims;
mod upkeep;

pub use asking::{ask_shelf, ask_shelf_alias, peek_at_alias, peek_at_shelf};
pub use chapter_lines::{Line, tell_line};
pub use counts::{Bounds, Counts};
pub use empty_shelf::new_shelf;
pub use entry_record::EntryRecord;
pub use folded_name::FoldedName;
pub use intake::{offer_message, offer_part, take_failure, take_negative, take_set};
pub use lookup::stored_in;
pub use message::read;
pub use names::fold_name;
pub use numbers::{number_of_call, number_of_reply, number_of_u32, number_of_u64};
pub use offered::{take_offer_at, tell_offer_at};
pub use reading::{Placed, Reading};
pub use reply_record::ReplyRecord;
pub use response::read_response;
pub use shares::{
    a_refused_share_leaves_what_a_part_leaves, a_share_is_what_a_part_is_offered, offer_share,
    parts_concerned,
};
pub use sizes::Sizes;
pub use status::{NO_OFFERS, Status};
pub use stored::Stored;
pub use summary::{Summary, SummaryRecord, tell_summary};
pub use sweeps::{Swept, sweep, sweep_some};
pub use taken::{Taken, stop_recording, take_chapters};
pub use terms::{
    Division, FailureTerms, LinePlace, NegativeTerms, OfferPick, Question, ResponseTerms, SetTerms,
    Share, ShelfRules, SweepTerms, TrimTerms,
};
pub use trims::{Trimmed, trim};
pub use upkeep::{drop_chapters, expiry_of, fault_in, record, sizes_of, stop_and_drop};
