// SPDX-License-Identifier: MIT
//! What a line of a trace calls for: its offers and its asks, and the operations that they are.
#![tactic(auto)]

mod config;
mod offers;
mod operations;
mod script;
mod scripts;

pub use config::Config;
pub use offers::{ask_at, failure_at, offer_at, offers_fetched};
pub use script::Script;
pub use scripts::{one_script, script_of};
