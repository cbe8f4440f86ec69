// SPDX-License-Identifier: MIT
/// How much a shelf holds.
#[repr(C)]
#[derive(Clone, Copy, Debug)]
pub struct Sizes {
    /// The keys, those that are fully expired and not yet swept with them.
    pub keys: u64,
    /// The events of the open chapter, of which there are none while nothing is recorded.
    pub events: u64,
    /// The closed chapters, of which there are none while nothing is recorded.
    pub chapters: u64,
    /// The octets that the entries of the keys have.
    pub octets: u64,
}
