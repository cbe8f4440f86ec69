// SPDX-License-Identifier: MIT
ghost use Rattle.std.specs.Prelude.{◌≡◌, ◌<◌, ◌≤◌, [], length};
ghost use Rattle.std.specs.List.{Contains};
ghost use Rattle.rrc_marks.specs.Seen.{IsPassOf};
ghost use Rattle.rrc_history.specs.Lives.{LAST_MOMENT};

use crate::calls::SharedCalls;
use crate::gate::Gate;
use crate::worker::Common;
use rrc_marks::{Began, Pass};
use rrc_report::{Refused, answer_line, fetched, first_look};
use rrc_trace::{Answer, Fetch, Line};
use std::alloc::Global;
use std::sync::Wait;

/// Fetches, unless another worker is fetching the question. The mark of the question is held from
/// then on until all is asked.
fn fetch_or_join<R: Wait, G: Gate>(
    alloc: Global,
    common: &Common<'_, G>,
    cache: &mut SharedCalls<'_, '_, R>,
    pass: &mut Pass,
    line: usize,
    fetch: &Fetch,
) -> Result<Answer, Refused>
    requires stands { Contains common.now.trace.now (Line.Fetch fetch.now) }
    requires timely { fetch.now.moment ≤ LAST_MOMENT }
    requires own { IsPassOf common.now.marks.now pass.old }
    requires free { pass.old.view.held ≡ [] }
    ensures own { pass.new.table ≡ pass.old.table }
    ensures free { pass.new.view.held ≡ [] }
    ensures turns { pass.new.view.turns ≡ pass.old.view.turns }
{
    let Some(mark) = common.trace.questions().number(fetch)? else {
        unreachable!()
    };
    if common.marks.begin(pass, mark) == Began::Taken {
        return Ok(Answer::Joined);
    }
    common.gate.inside(line);
    let answer = fetched(alloc, cache, &common.config.limits, line as u64, fetch);
    common.marks.finish(pass, mark);
    answer
}

/// Answers a fetch: what the cache has, or when to try again, or what was fetched, by this worker
/// or another one.
fn answer_fetch<R: Wait, G: Gate>(
    alloc: Global,
    common: &Common<'_, G>,
    cache: &mut SharedCalls<'_, '_, R>,
    pass: &mut Pass,
    line: usize,
    fetch: &Fetch,
) -> Result<Answer, Refused>
    requires stands { Contains common.now.trace.now (Line.Fetch fetch.now) }
    requires timely { fetch.now.moment ≤ LAST_MOMENT }
    requires own { IsPassOf common.now.marks.now pass.old }
    requires free { pass.old.view.held ≡ [] }
    ensures own { pass.new.table ≡ pass.old.table }
    ensures free { pass.new.view.held ≡ [] }
    ensures turns { pass.new.view.turns ≡ pass.old.view.turns }
{
    match first_look(cache, line as u64, fetch)? {
        Some(answer) => Ok(answer),
        None => fetch_or_join(alloc, common, cache, pass, line, fetch),
    }
}

/// Makes a line's calls, and tells what they got.
pub(crate) fn answer<R: Wait, G: Gate>(
    rt: &R,
    alloc: Global,
    common: &Common<'_, G>,
    pass: &mut Pass,
    number: usize,
) -> Result<Answer, Refused>
    requires line { number < length common.now.trace.now }
    requires own { IsPassOf common.now.marks.now pass.old }
    requires free { pass.old.view.held ≡ [] }
    ensures own { pass.new.table ≡ pass.old.table }
    ensures free { pass.new.view.held ≡ [] }
    ensures turns { pass.new.view.turns ≡ pass.old.view.turns }
{
    let trace = common.trace;
    let mut cache = SharedCalls {
        rt,
        cache: common.cache,
    };
    match &trace.lines.as_slice()[number] {
        Line::Fetch(fetch) => answer_fetch(alloc, common, &mut cache, pass, number, fetch),
        line => answer_line(
            alloc,
            &mut cache,
            &common.config.limits,
            number as u64,
            line,
        ),
    }
}
