// SPDX-License-Identifier: MIT
ghost use Rattle.std.specs.Prelude.{◌≡◌, [], length, IfOk, OnOk, OnErr};
ghost use Rattle.rrc_trace.specs.Questions.{question_of, fetched_by, with_question, number_among};

use crate::line::{Fetch, Line};
use rrc_name::{Key, Slot};
use std::alloc::{AllocError, Global};
use std::collections::BTreeMap;
use std::marker::Model;

/// The questions that lines fetch, each once, in the order in which they stand first. A question is
/// a name, in whatever case it is written, a class and a type, and its number is its place.
/// Contracts see the list of the questions.
#[derive(Debug, Drop)]
pub struct Questions {
    keys: Vec<Key>,
    /// The number of each question. It is a tree and no table of hashes, since who writes a trace
    /// picks its questions.
    numbers: BTreeMap<Key, usize>,
}

impl Model for Questions {
    ghost use Rattle.std.specs.Prelude.{List};
    ghost use Rattle.rrc_name.specs.Key.{KeyOf};
    ghost use Rattle.rrc_trace.specs.Questions.{FindsNumbers};

    ghost Value = { List KeyOf };

    ghost view = { λ q. q.keys.items };

    ghost invariant = { λ q. FindsNumbers q.numbers q.keys.items };
}

/// The question of a fetch.
fn question_of(fetch: &Fetch) -> Result<Key, AllocError>
    ensures { IfOk result (λ key. key ≡ question_of fetch.now) }
{
    Key::of(&fetch.name, fetch.class, Slot::Set(fetch.rtype))
}

impl Questions {
    ghost use Rattle.std.specs.Prelude.{Some};

    /// No questions. It takes no memory.
    pub fn new(alloc: Global) -> Questions
        ensures { result ≡ [] }
    {
        Questions {
            keys: Vec::new(alloc),
            numbers: BTreeMap::new(alloc),
        }
    }

    /// Adds the question that a line fetches, if it fetches one and that is new. An `Err` leaves
    /// all as it was.
    pub(crate) fn add(&mut self, line: &Line) -> Result<(), AllocError>
        ensures ok { OnOk result (self.new ≡ with_question self.old (fetched_by line.now)) }
        ensures err { OnErr result (self.new ≡ self.old) }
    {
        match line {
            Line::Fetch(fetch) => self.add_question(question_of(fetch)?),
            _ => Ok(()),
        }
    }

    /// Adds a question, if it is new.
    fn add_question(&mut self, question: Key) -> Result<(), AllocError>
        ensures ok { OnOk result (self.new ≡ with_question self.old (Some question)) }
        ensures err { OnErr result (self.new ≡ self.old) }
    {
        if self.numbers.contains_key(&question) {
            return Ok(());
        }
        self.keys.reserve(1)?;
        self.numbers.insert(question.clone()?, self.keys.len())?;
        self.keys.push_reserved(question);
        Ok(())
    }

    /// The number of the question of a fetch, if it is one of these. It takes memory only to fold
    /// the name.
    pub fn number(&self, fetch: &Fetch) -> Result<Option<usize>, AllocError>
        ensures { IfOk result (λ number. number ≡ number_among self.now (question_of fetch.now)) }
    {
        Ok(self.numbers.get(&question_of(fetch)?).copied())
    }

    /// How many questions there are.
    pub fn len(&self) -> usize
        ensures { result ≡ length self.now }
    {
        self.keys.len()
    }
}
