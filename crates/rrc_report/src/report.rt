// SPDX-License-Identifier: MIT
use rrc_history::Whole;
use rrc_name::Sequence;
use rrc_trace::Answer;

/// What a replay of a trace by many workers gave.
#[derive(Debug, Drop)]
pub struct Report {
    /// What each line got, in order.
    pub lines: Sequence<Answer>,
    /// The lines of each worker, in order.
    pub shares: Sequence<Sequence<usize>>,
    /// The whole history of each part.
    pub wholes: Sequence<Whole>,
}
