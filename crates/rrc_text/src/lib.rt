// SPDX-License-Identifier: MIT
//! What the texts of the cache have in common: how the fields of a line are read, and how a text is
//! written, piece by piece, through a buffer.
#![tactic(auto)]

mod fault;
mod kind;
mod read;
mod write;

pub use fault::ReplayFault;
pub use kind::Kind;
pub use read::comma::cut_at_comma;
pub use read::field::{field_at, has_field};
pub use read::lf::first_lf;
pub use read::line_fault::LineFault;
pub use read::name::{name_in, names_are_spelled};
pub use read::number::{first_slash, kind_in, number_in, trust_at, ttl_at, word_in};
pub use read::octets::octets_in;
pub use read::word::{mode_at, purpose_at};
pub use write::buffer::Buffer;
pub use write::output::Output;
pub use write::pieces::{put_name, put_number, put_word};
pub use write::reply::{outcome_word, put_class, put_item, put_items, put_reply, put_slot};
