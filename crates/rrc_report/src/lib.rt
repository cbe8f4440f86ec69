// SPDX-License-Identifier: MIT
//! The report of a replay by many workers: whether what the workers say they did is just what the
//! lines of a trace call for.
#![tactic(auto)]

mod answer_table;
mod answers;
mod calls;
mod checked_report;
mod completions;
mod done;
mod joined;
mod laws;
mod limits;
mod report;
mod tasks;
mod wholes;

pub use answers::{answer_line, fetched, first_look};
pub use calls::{Calls, Refused, called};
pub use checked_report::collate;
pub use completions::one_completion;
pub use done::{Answered, Done};
pub use laws::one_report_by_one_worker;
pub use limits::usual_limits;
pub use report::Report;
pub use rrc_script as script;
pub use rrc_script::Config;
