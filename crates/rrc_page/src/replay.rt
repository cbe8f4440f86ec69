// SPDX-License-Identifier: MIT
ghost use Rattle.std.specs.Prelude.{◌≡◌, ◌<◌, length, IfOk, IfErr};
ghost use Rattle.rrc_report.specs.Faults.{IsOfReplay};
ghost use Rattle.rrc_report.specs.Reports.{IsCollated};
ghost use Rattle.rrc_page.specs.Replay.{IsFaultOf, IsTheReport};

use crate::own_cache::OwnCache;
use rrc_name::Sequence;
use rrc_report::{Answered, Done, Refused, Report, answer_line, collate, one_report_by_one_worker};
use rrc_script::Config;
use rrc_trace::{ReplayFault, Trace, one_trace_or_fault, read_trace};
use std::alloc::Global;

/// What a line got.
fn answered(
    alloc: Global,
    cache: &mut OwnCache,
    config: &Config,
    trace: &Trace,
    line: usize,
) -> Result<Answered, ReplayFault>
    requires { line < length trace.now }
    ensures { IfErr result (IsOfReplay (length trace.now)) }
{
    let calls = &trace.lines.as_slice()[line];
    match answer_line(alloc, cache, &config.limits, line as u64, calls) {
        Ok(answer) => Ok(Answered { line, answer }),
        Err(Refused::Spent) => Err(ReplayFault::Spent(line as u64)),
        Err(Refused::Memory) => Err(ReplayFault::Memory),
    }
}

/// What the lines of a trace got, one after another.
fn done_alone(
    alloc: Global,
    cache: &mut OwnCache,
    config: &Config,
    trace: &Trace,
) -> Result<Done, ReplayFault>
    ensures { IfErr result (IsOfReplay (length trace.now)) }
{
    let mut answers = Sequence::new(alloc);
    for line in 0..trace.lines.len() {
        answers.push(answered(alloc, cache, config, trace, line)?)?;
    }
    Ok(Done { answers })
}

/// Replays a trace by the one worker that this thread is, and holds what it did against the
/// histories of the parts.
fn replay_alone(alloc: Global, trace: &Trace, config: &Config) -> Result<Report, ReplayFault>
    ensures collated { IfOk result (IsCollated config.now trace.now) }
    ensures err { IfErr result (IsOfReplay (length trace.now)) }
{
    let Ok(mut cache) = OwnCache::new(alloc, config.parts, config.rules) else {
        return Err(ReplayFault::Memory);
    };
    let own = done_alone(alloc, &mut cache, config, trace)?;
    let mut done = Vec::with_capacity(alloc, 1)?;
    done.push(own)?;
    collate(alloc, trace, config, cache.into_shelves(), done)
}

/// Reads a trace, and makes the report of it by one worker.
#[tactic(auto, using(crate::proofs::OneReport::the_report))]
pub(crate) fn report_of(
    alloc: Global,
    octets: &[u8],
    config: &Config,
) -> Result<Report, ReplayFault>
    requires { config.now.workers ≡ 1 }
    ensures ok { IfOk result (IsTheReport config.now octets.now) }
    ensures err { IfErr result (IsFaultOf octets.now) }
{
    one_trace_or_fault();
    one_report_by_one_worker();
    let mut reader = octets;
    let trace = read_trace(alloc, &mut reader)?;
    replay_alone(alloc, &trace, config)
}
