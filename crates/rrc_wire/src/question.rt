// SPDX-License-Identifier: MIT
ghost use Rattle.std.specs.Prelude.{◌≡◌, ◌≤◌, length, IfOk};
ghost use Rattle.rrc_wire.specs.Reading.{Gives};
ghost use Rattle.rrc_wire.specs.Question.{question_at};

use crate::fault::WireFault;
use crate::field::{within, word_at};
use crate::name::read_name;
use crate::source::Source;
use rrc_name::Name;
use std::alloc::AllocError;

/// What a message answers (RFC 1035 section 4.1.2).
#[derive(Debug, Drop, PartialEq, Eq)]
pub struct Question {
    pub name: Name,
    pub qtype: u16,
    pub qclass: u16,
}

impl Clone for Question {
    ghost use Rattle.std.specs.Prelude.{◌≡◌};

    ghost is_clone = { λ a b. b ≡ a };

    fn clone(&self) -> Result<Question, AllocError> {
        Ok(Question {
            name: self.name.clone()?,
            qtype: self.qtype,
            qclass: self.qclass,
        })
    }
}

/// The question at a place, and the place behind it.
#[tactic(auto, unfolding(crate::specs::Question::question_at))]
pub(crate) fn read_question(
    source: &mut Source<'_>,
    place: usize,
) -> Result<(Question, usize), WireFault>
    ensures gives { Gives (λ read. read) result (question_at source.old place) }
    ensures within { IfOk result (λ read. read.1 ≤ length source.old) }
    ensures same { source.new ≡ source.old }
{
    let message = source.message();
    let (name, fields) = read_name(source, place)?;
    let next = within(message, fields, 4)?;
    let question = Question {
        name,
        qtype: word_at(message, fields),
        qclass: word_at(message, fields + 2),
    };
    Ok((question, next))
}
