// SPDX-License-Identifier: MIT
//! The texts of the replay: traces of the operations of the cache, which are read, and reports of
//! their answers, which are written.
#![tactic(auto)]

mod answer;
mod line;
mod questions;
mod read;
mod trace;
mod write;

pub use answer::{Answer, Told};
pub use line::{Failed, Fetch, Line, Put, Response};
pub use questions::Questions;
pub use read::trace::{one_trace_or_fault, read_trace};
pub use rrc_text::ReplayFault;
pub use trace::Trace;
pub use write::report::write_report;
