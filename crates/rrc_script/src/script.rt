// SPDX-License-Identifier: MIT
use rrc_collate::{Fate, Operations};

/// What a line calls for: its operations, in order of place, and what becomes of it as a fetch.
#[derive(Debug, Drop)]
pub struct Script {
    pub operations: Operations,
    pub fate: Fate,
}
