// SPDX-License-Identifier: MIT
//! What a page of a browser calls: the report of a trace by one worker, with no thread and no lock,
//! the histories behind it, and what the keys held.
#![tactic(auto)]

mod histories;
mod options;
mod own_cache;
mod page_calls;
mod replay;
mod span_lines;
mod spans;
mod told;
