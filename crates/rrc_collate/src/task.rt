// SPDX-License-Identifier: MIT
use crate::operations::Operations;

/// What became of a line that may be a fetch.
#[derive(Clone, Copy, Debug, PartialEq, Eq, Hash)]
pub enum Fate {
    /// It is no fetch, or needed none.
    Plain,
    /// It joined another fetch of its question.
    Joined { question: usize },
    /// It fetched its question, which is of a name in the part `home`.
    Fetched { question: usize, home: usize },
}

/// A line that a worker says it did, with the operations that the line then called for, in order of
/// place.
#[derive(Debug, Drop)]
pub struct Task {
    pub worker: usize,
    pub line: usize,
    pub fate: Fate,
    pub operations: Operations,
}
