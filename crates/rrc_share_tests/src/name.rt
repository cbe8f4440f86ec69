// SPDX-License-Identifier: MIT
mod names;
mod parts;
mod rdata_lists;
mod sequences;

use rrc_name::Name;
use std::alloc::Global;
use std::process::Abort;

/// The name of a text.
pub(crate) fn name(rt: &impl Abort, alloc: Global, text: &str) -> Name {
    Name::from_text(alloc, text).expect(rt, text)
}
