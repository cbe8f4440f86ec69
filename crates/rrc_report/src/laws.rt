// SPDX-License-Identifier: MIT
ghost use Rattle.rrc_report.specs.OneWorker.{OneReportByOneWorker};

use rrc_wire::one_message_or_fault;

/// With one worker a trace has one report: what the lines got, the share, and the history of each
/// part are determined by the trace and the config. The function does nothing; its contract is the
/// law.
pub fn one_report_by_one_worker()
    ensures { OneReportByOneWorker }
{
    one_message_or_fault();
}
