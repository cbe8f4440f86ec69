// SPDX-License-Identifier: MIT
//! What a response of the DNS offers to a cache: its RRsets with their ranks of trust and their
//! times to live.
#![tactic(auto)]

mod alias;
mod class;
mod cleared;
mod denial;
mod fault;
mod host;
mod kind;
mod limits;
mod measure;
mod message;
mod query;
mod rank;
mod relevance;
mod relevant;
mod reply;
mod response;
mod section;
mod set;
mod times;
mod trees;
mod walks;

pub use fault::SetsFault;
pub use kind::{ResponseKind, kind_of};
pub use limits::Limits;
pub use message::{answer_in, offers_in, relevant_offers_in};
pub use query::{Query, QueryFault};
pub use relevance::RelevanceLimits;
pub use relevant::relevant_offers;
pub use reply::offers;
pub use rrc_name::part_of;
pub use times::life;
