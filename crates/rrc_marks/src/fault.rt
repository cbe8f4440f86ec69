// SPDX-License-Identifier: MIT
// Why no table of marks was made.
use thiserror::Error;

/// Why no table was made.
#[derive(Clone, Copy, Debug, PartialEq, Eq, Error)]
pub enum MarksFault {
    /// A number of marks, lines or turns is outside its limits.
    #[error("the marks, lines or turns are outside their limits")]
    BadNumber = 1,
    /// Memory was refused.
    #[error("memory was refused")]
    Memory = 2,
}
