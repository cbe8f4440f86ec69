// SPDX-License-Identifier: MIT
//! A part of the cache, lent to one thread: each call appends one event to its history and answers
//! what stands in it.
#![tactic(auto)]

mod aged_held;
mod ahead;
mod answer;
mod chapter_entries;
mod classless;
mod clocked;
mod closing;
mod entries;
mod entry_map;
mod expiries;
mod expiry_queue;
mod filtered_entries;
mod hashed;
mod history;
mod holdings;
mod judge;
mod keyed;
mod lean;
mod lookup;
mod name_hash;
mod negative_filter;
mod octet_count;
mod opening_tail;
mod overwriting;
mod part;
mod pick;
mod rechecks;
mod recording;
mod refusal;
mod replaced;
mod restored;
mod seeded;
mod store;
mod sweep;

pub use classless::{ChapterFault, classless_chapter, classless_chapter_seeded};
pub use lean::LeanPart;
pub use lookup::Lookup;
pub use name_hash::{NameHash, keyed_hash};
pub use part::Part;
pub use pick::Pick;
pub use rechecks::{RecheckFault, recheck, recheck_seeded};
pub use recording::{NotRecorded, records_chain_where_nothing_lies_between};
pub use refusal::Refusal;
pub use restored::{NotRestored, restored_chapter};
pub use rrc_history::{LAST_MOMENT, ReplyRef, SetRef, SoaRef};
