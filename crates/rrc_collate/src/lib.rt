// SPDX-License-Identifier: MIT
//! Whether what workers say that they did fits the histories of a cache's parts: the words for it,
//! and the checks.
#![tactic(auto)]

mod drawn;
mod draws;
mod falls;
mod fetches;
mod fit;
mod hands;
mod laws;
mod operations;
mod order;
mod other_values;
mod owners;
mod script;
mod task;
mod task_draws;
mod turns;
mod valued;

pub use drawn::Drawn;
pub use fit::collate;
pub use laws::each_line_stands;
pub use operations::{OperationRef, Operations};
pub use script::{Call, Operation};
pub use task::{Fate, Task};
