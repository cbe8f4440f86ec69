// SPDX-License-Identifier: MIT
ghost use Rattle.std.specs.Prelude.{◌≡◌, ◌<◌, ◌≤◌, [], length};
ghost use Rattle.rrc_marks.specs.Seen.{IsPassOf};
ghost use Rattle.rrc_trace.specs.Questions.{questions_of};

use crate::answers::answer;
use crate::gate::Gate;
use rrc_marks::{Marks, Pass};
use rrc_name::Sequence;
use rrc_report::{Answered, Done, Refused};
use rrc_script::Config;
use rrc_share::SharedCache;
use rrc_trace::Trace;
use std::alloc::Global;
use std::sync::Wait;

/// What the workers of a replay share.
#[derive(Drop)]
pub(crate) struct Common<'a, G> {
    pub(crate) trace: &'a Trace,
    pub(crate) config: &'a Config,
    pub(crate) cache: &'a SharedCache,
    pub(crate) marks: &'a Marks,
    pub(crate) gate: &'a G,
    pub(crate) ghost lines: { marks.now.lines ≡ length trace.now },
    pub(crate) ghost marked: { length (questions_of trace.now) ≤ marks.now.marks },
}

/// A worker: what it shares with the others, and its pass.
#[derive(Drop)]
pub(crate) struct Worker<'a, G> {
    pub(crate) common: &'a Common<'a, G>,
    pub(crate) pass: Pass,
    pub(crate) ghost own: { IsPassOf common.now.marks.now pass },
    pub(crate) ghost free: { pass.view.held ≡ [] },
}

/// A line that a worker could not answer, and why.
#[derive(Clone, Copy, Debug)]
pub(crate) struct Stop {
    pub(crate) line: usize,
    pub(crate) why: Refused,
}

/// What a worker did, and where it stopped, unless no line was left.
#[derive(Debug, Drop)]
pub(crate) struct Worked {
    pub(crate) done: Done,
    pub(crate) stop: Option<Stop>,
}

/// Takes one line after another, until none is left or one is refused.
pub(crate) fn work<R: Wait, G: Gate>(rt: &R, alloc: Global, worker: Worker<'_, G>) -> Worked {
    let Worker { common, mut pass } = worker;
    let mut answers = Sequence::new(alloc);
    while pass.turns() > 0 {
        let Some(number) = common.marks.draw(&mut pass) else {
            break;
        };
        let line = number as usize;
        if let Err(why) = do_line(rt, alloc, common, &mut pass, line, &mut answers) {
            return Worked {
                done: Done { answers },
                stop: Some(Stop { line, why }),
            };
        }
    }
    Worked {
        done: Done { answers },
        stop: None,
    }
}

/// Answers a line, and keeps the answer.
fn do_line<R: Wait, G: Gate>(
    rt: &R,
    alloc: Global,
    common: &Common<'_, G>,
    pass: &mut Pass,
    line: usize,
    answers: &mut Sequence<Answered>,
) -> Result<(), Refused>
    requires line { line < length common.now.trace.now }
    requires own { IsPassOf common.now.marks.now pass.old }
    requires free { pass.old.view.held ≡ [] }
    ensures own { pass.new.table ≡ pass.old.table }
    ensures free { pass.new.view.held ≡ [] }
    ensures turns { pass.new.view.turns ≡ pass.old.view.turns }
{
    common.gate.before(line);
    let answer = answer(rt, alloc, common, pass, line)?;
    common.gate.after(line);
    answers.push(Answered { line, answer })?;
    Ok(())
}
