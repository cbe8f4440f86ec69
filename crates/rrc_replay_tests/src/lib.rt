// SPDX-License-Identifier: MIT
//! Tests of `rrc_wire`, `rrc_sets`, `rrc_trace`, `rrc_archive`, `rrc_report`, `rrc_marks` and
//! `rrc_replay`, by their public calls, and of `rrc_collate` by those of `rrc_report`.
#![tactic(auto)]

#[cfg(test)]
mod archive;
#[cfg(test)]
mod marks;
#[cfg(test)]
mod replay;
#[cfg(test)]
mod report;
#[cfg(test)]
mod sets;
#[cfg(test)]
mod trace;
#[cfg(test)]
mod wire;
