// SPDX-License-Identifier: MIT
//! Replays traces by many workers on one cache that they share, and a whole run from its trace to
//! its report; and audits archives of histories.
#![tactic(auto)]

mod answers;
mod audit;
mod audited;
mod calls;
mod gate;
mod history;
mod unlawful;
mod whole_run;
mod worker;
mod workers;

pub use audit::Audit;
pub use audited::{Audited, Finding, audit_archive};
pub use gate::{Gate, OpenGate};
pub use history::{HistoryFault, history_in};
pub use rrc_archive as archive;
pub use rrc_report as report;
pub use rrc_report::usual_limits;
pub use rrc_trace as trace;
pub use unlawful::{Due, Reason};
pub use whole_run::run;
pub use workers::replay;
