// SPDX-License-Identifier: MIT
//! A reader and a writer for tests: one call fails, and those behind it go on.
#![tactic(auto)]

mod countdown;
mod reader;
mod writer;

pub use reader::FailsOnce;
pub use writer::{Stumble, Stumbling};
