// SPDX-License-Identifier: MIT
use rrc_name::Sequence;
use rrc_trace::Answer;

/// A line that a worker did, and what it got. Whom an offer evicted no call answers, so no answer
/// of a worker's names a key: the events do.
#[derive(Debug, Drop)]
pub struct Answered {
    /// The number of the line.
    pub line: usize,
    pub answer: Answer,
}

/// What a worker did: its lines, in order, with what they got.
#[derive(Debug, Drop)]
pub struct Done {
    pub answers: Sequence<Answered>,
}
