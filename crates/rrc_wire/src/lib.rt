// SPDX-License-Identifier: MIT
//! The message reader: a response of the DNS read whole and exactly, or its first fault.
//!
//! The addresses that a response has in its answer:
//!
//! ```text
//! use rrc_wire::{Octets, WireFault, read_message};
//!
//! fn addresses_in(alloc: Global, response: &[u8]) -> Result<Vec<Octets>, WireFault> {
//!     let message = read_message(alloc, response)?;
//!     let mut addresses = Vec::new(alloc);
//!     for rr in &message.answer {
//!         if rr.rtype == 1 {
//!             addresses.push(rr.rdata.clone()?)?;
//!         }
//!     }
//!     Ok(addresses)
//! }
//! ```
#![tactic(auto)]

mod data;
mod fault;
mod field;
mod front;
mod header;
mod item;
mod layout;
mod message;
mod name;
mod plain;
mod question;
pub mod rcode;
mod record;
mod same;
mod source;

pub use fault::WireFault;
pub use front::{Front, begins_with_question, front_of};
pub use layout::{is_kept, is_kept_class};
pub use message::{
    Message, chains_lead_to_names, first_fault_is_the_readers, one_message_or_fault, read_message,
};
pub use plain::{plain_rdata, read_data_are_plain};
pub use question::Question;
pub use record::Rr;
pub use rrc_name::{Name, NameFault, Octets, Sequence};
pub use same::{laws_of_sameness, lowered_rdata, same_rdata};
