// SPDX-License-Identifier: MIT
//! The cache for resolvers that are written in C.
#![tactic(auto)]

mod ask_calls;
mod boxed;
mod chapter_calls;
mod chapters;
mod handle;
mod handle_status;
mod look;
mod offer_calls;
mod offers;
mod reading_calls;
mod shelf_calls;
mod shelf_handle;
mod sight;
mod upkeep_calls;
