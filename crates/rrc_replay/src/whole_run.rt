// SPDX-License-Identifier: MIT
ghost use Rattle.std.specs.Prelude.{◌≢◌, length, IfOk, IfErr, OnOk};
ghost use Rattle.std.specs.Io.KnownBytes.{IsAtEnd};
ghost use Rattle.rrc_report.specs.Reports.{IsCollated};
ghost use Rattle.rrc_report.specs.Faults.{IsOfReplay};
ghost use Rattle.rrc_replay.specs.Run.{Reports, IsReportOf, IsFaultOfRun, LeavesWriter};

use crate::audit::{Audit, audit_all};
use crate::gate::Gate;
use crate::workers::replay;
use rrc_report::Report;
use rrc_script::Config;
use rrc_trace::{ReplayFault, Trace, read_trace, write_report};
use std::alloc::Global;
use std::io::{Read, Write};
use std::sync::Wait;
use std::thread::Threads;

/// Reads a whole trace, has many workers replay it, audits their histories where that is wanted,
/// and writes the report. Config, seed and gate are those of `replay`. No answer depends on the
/// audit: a history that is not legal would be `NotLegal`, and never is.
///
/// What was read is a trace, and what was written is the text of a report that is collated for it,
/// and nothing else. The faults are those of `read_trace` and `replay`, after which nothing is
/// written, and `Write`, after which a beginning of the report is.
pub fn run<T: Threads + Wait + Sync, R: Read, W: Write, G: Gate + Sync>(
    rt: &T,
    alloc: Global,
    reader: &mut R,
    writer: &mut W,
    config: &Config,
    seed: [u8; 16],
    audit: Audit,
    gate: &G,
) -> Result<(), ReplayFault>
    ensures ok { OnOk result (Reports config.now (R.remaining reader.old) (W.contents writer.old) (W.contents writer.new)) }
    ensures whole { OnOk result (IsAtEnd (R.remaining reader.new)) }
    ensures fault { IfErr result (IsFaultOfRun (R.remaining reader.old)) }
    ensures writer { IfErr result (LeavesWriter config.now (R.remaining reader.old) (W.contents writer.old) (W.contents writer.new)) }
{
    let report = reported(rt, alloc, reader, config, seed, audit, gate)?;
    write_report(alloc, writer, report.lines.as_slice())
}

/// Reads a whole trace and makes the report of it.
fn reported<T: Threads + Wait + Sync, R: Read, G: Gate + Sync>(
    rt: &T,
    alloc: Global,
    reader: &mut R,
    config: &Config,
    seed: [u8; 16],
    audit: Audit,
    gate: &G,
) -> Result<Report, ReplayFault>
    ensures ok { IfOk result (IsReportOf config.now (R.remaining reader.old)) }
    ensures whole { OnOk result (IsAtEnd (R.remaining reader.new)) }
    ensures fault { IfErr result (IsFaultOfRun (R.remaining reader.old)) }
    ensures no_write { IfErr result (λ fault. fault ≢ ReplayFault.Write) }
{
    let trace = read_trace(alloc, reader)?;
    audited(rt, alloc, &trace, config, seed, audit, gate)
}

/// Replays a trace, and audits the histories of the parts where that is wanted.
fn audited<T: Threads + Wait + Sync, G: Gate + Sync>(
    rt: &T,
    alloc: Global,
    trace: &Trace,
    config: &Config,
    seed: [u8; 16],
    audit: Audit,
    gate: &G,
) -> Result<Report, ReplayFault>
    ensures collated { IfOk result (IsCollated config.now trace.now) }
    ensures err { IfErr result (IsOfReplay (length trace.now)) }
{
    let report = replay(rt, alloc, trace, config, seed, gate)?;
    audit_all(alloc, report.wholes.as_slice(), seed, audit)?;
    Ok(report)
}
