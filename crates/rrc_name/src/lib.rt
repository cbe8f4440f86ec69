// SPDX-License-Identifier: MIT
//! Names of the DNS, and the keys under which a cache keeps what it knows of them.
#![tactic(auto)]

pub mod class;
pub mod classless;
mod fault;
mod key;
mod key_ref;
mod label;
mod laws;
mod name;
mod name_ref;
mod octets;
mod order;
mod parts;
mod printed;
mod rdata_list;
pub mod rtype;
mod sequence;
mod shared;
mod slot;
mod text;
mod wire;

pub use fault::{NameFault, WireNameFault};
pub use key::Key;
pub use key_ref::KeyRef;
pub use label::first_label;
pub use laws::{one_name_or_fault, one_wire_form_or_fault, reading_undoes_printing};
pub use name::Name;
pub use name_ref::NameRef;
pub use octets::Octets;
pub use parts::part_of;
pub use printed::{is_spelled_as_it_is, octet_text};
pub use rdata_list::RdataList;
pub use sequence::Sequence;
pub use shared::Shared;
pub use slot::Slot;
