// SPDX-License-Identifier: MIT
//! The cache that threads share: parts under locks, each of which records its history in chapters,
//! or records nothing.
#![tactic(auto)]

mod cache_shelf;
mod calls;
mod recording;
mod shared;
mod shelf;
mod state;
mod switches;
mod trim;

pub use cache_shelf::{CacheShelf, NotSwitched};
pub use calls::{on_shelf_ask, on_shelf_checkpoint, on_shelf_offer, on_shelf_sweep};
pub use recording::Recording;
pub use shared::SharedCache;
pub use shelf::Shelf;
