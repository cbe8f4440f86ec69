// SPDX-License-Identifier: MIT
//! Tests of `rrc_name`, `rrc_history`, `rrc_cache` and `rrc_share`, by their public calls.
#![tactic(auto)]

#[cfg(test)]
mod cache;
#[cfg(test)]
mod history;
#[cfg(test)]
mod name;
#[cfg(test)]
mod share;
