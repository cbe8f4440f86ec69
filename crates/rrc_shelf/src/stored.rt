// SPDX-License-Identifier: MIT
use crate::entry_record::EntryRecord;

/// What is kept of a name and a class for a type.
#[repr(C)]
#[derive(Clone, Copy, Debug)]
pub struct Stored {
    /// Data of the type, or that there are none.
    pub set: EntryRecord,
    /// That the name does not exist.
    pub nxdomain: EntryRecord,
    /// That asking for data of the type failed.
    pub failure: EntryRecord,
}
