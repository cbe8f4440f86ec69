// SPDX-License-Identifier: MIT
use crate::line::Line;
use crate::questions::Questions;
use rrc_name::Sequence;
use std::marker::Model;

/// The lines of a trace, in order: at most 1,000,000, which fetch at most 4,096 questions. Each has
/// a moment of at most 2^40 seconds, and a type that it names is one that is kept. A put has 1 to
/// 256 data, each of them plain data of its type, as `plain_rdata` takes them, and no two of them
/// the same by `same_rdata`. Contracts see the list of lines.
#[derive(Debug, Drop)]
pub struct Trace {
    pub lines: Sequence<Line>,
    /// The questions that the lines fetch.
    pub(crate) questions: Questions,
}

impl Model for Trace {
    ghost use Rattle.std.specs.Prelude.{◌≡◌, List};
    ghost use Rattle.rrc_trace.specs.declared.line.Line.{Line};
    ghost use Rattle.rrc_trace.specs.Lawful.{AreLawful};
    ghost use Rattle.rrc_trace.specs.Questions.{questions_of};

    ghost Value = { List Line };

    ghost view = { λ t. t.lines };

    ghost invariant = { λ t. AreLawful t.lines × (t.questions ≡ questions_of t.lines) };
}

impl Trace {
    ghost use Rattle.std.specs.Prelude.{◌≡◌};
    ghost use Rattle.rrc_trace.specs.Questions.{questions_of};

    /// The questions that the lines fetch, each once, in the order in which they stand first.
    pub fn questions(&self) -> &Questions
        ensures { result.now ≡ questions_of self.now }
    {
        &self.questions
    }
}
