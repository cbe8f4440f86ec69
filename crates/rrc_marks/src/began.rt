// SPDX-License-Identifier: MIT
// What a try to begin a mark met.

/// The answer to a try to begin a mark.
#[derive(Clone, Copy, Debug, PartialEq, Eq)]
pub enum Began {
    /// The mark was free, and the pass holds it now.
    Mine,
    /// A pass held the mark.
    Taken,
}
