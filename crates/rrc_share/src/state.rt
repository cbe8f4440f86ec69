// SPDX-License-Identifier: MIT
use crate::shelf::Shelf;
use rrc_cache::LeanPart;

/// A part that records nothing, or one that records, on its shelf.
#[derive(Debug, Drop)]
pub(crate) enum ShelfState {
    Lean(LeanPart),
    Recorded(Shelf),
}
