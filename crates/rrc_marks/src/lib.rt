// SPDX-License-Identifier: MIT
//! Marks that one thread at a time holds, and numbers that threads draw once each, over words that
//! change in single atomic steps under a rule.
#![tactic(auto)]

mod began;
mod fault;
mod law;
mod marks;
mod pass;
mod rule;

pub use began::Began;
pub use fault::MarksFault;
pub use law::{each_step_is_counted, each_step_keeps_the_rule, the_rule_tells_passes_apart};
pub use marks::Marks;
pub use pass::Pass;
