// SPDX-License-Identifier: MIT
ghost use Rattle.std.specs.Prelude.{◌≡◌, List, length, map, IfOk, IfErr, IfSome, IfNone};
ghost use Rattle.rrc_history.specs.declared.event.Event.{Event};
ghost use Rattle.rrc_text.specs.declared.fault.ReplayFault.TheVariants as faults;
ghost use Rattle.rrc_collate.specs.Collated.{histories_of};
ghost use Rattle.rrc_report.specs.Reports.{IsCollated, Holds, lines_done};
ghost use Rattle.rrc_report.specs.Collates.{IsWhy};
ghost use Rattle.rrc_report.specs.Steps.{AreFitting};

use crate::answer_table::lines_of;
use crate::done::Done;
use crate::report::Report;
use crate::tasks::tasks_of;
use crate::wholes::wholes_of;
use rrc_collate::Drawn;
use rrc_history::Whole;
use rrc_name::Sequence;
use rrc_script::{Config, one_script};
use rrc_share::Shelf;
use rrc_trace::{ReplayFault, Trace};
use std::alloc::{AllocError, Global};

/// The lines that a worker says it did, in order.
fn share_of(alloc: Global, done: &Done) -> Result<Sequence<usize>, AllocError>
    ensures { IfOk result (λ share. share ≡ lines_done done.now) }
{
    let answers = done.answers.as_slice();
    let mut share = Vec::with_capacity(alloc, answers.len())?;
    for answered in answers {
        share.push(answered.line)?;
    }
    Ok(Sequence::from_vec(share))
}

/// The lines of each worker, in order.
fn shares_of(alloc: Global, done: &[Done]) -> Result<Sequence<Sequence<usize>>, AllocError>
    ensures { IfOk result (λ shares. shares ≡ map lines_done done.now) }
{
    let mut shares = Vec::with_capacity(alloc, done.len())?;
    for one in done {
        shares.push(share_of(alloc, one)?)?;
    }
    Ok(Sequence::from_vec(shares))
}

/// The events of what workers say that they did, where these fit the histories of the parts, or
/// `None` where no events do.
#[tactic(auto, using(crate::proofs::Tasked::workers_below, crate::proofs::Tasked::parts_below, crate::proofs::Tasked::are_numbered))]
fn events_of<'a>(
    alloc: Global,
    trace: &Trace,
    config: &Config,
    wholes: &'a [Whole],
    done: &[Done],
) -> Result<Option<Vec<Drawn<'a>>>, ReplayFault>
    requires workers { length done.now ≡ config.now.workers }
    requires parts { length wholes.now ≡ config.now.parts }
    ensures some { IfOk result (λ found. IfSome found (λ events. AreFitting config.now trace.now done.now (histories_of wholes.now) (map (λ own. map (λ event. event.now) own.items) events.items))) }
    ensures only { IfOk result (λ found. IfSome found (λ events. (others : List (List Event)) → AreFitting config.now trace.now done.now (histories_of wholes.now) others → others ≡ map (λ own. map (λ event. event.now) own.items) events.items)) }
    ensures none { IfOk result (λ found. IfNone found ((others : List (List Event)) → AreFitting config.now trace.now done.now (histories_of wholes.now) others → ⊥)) }
    ensures err { IfErr result (λ fault. fault ≡ faults.Memory) }
{
    one_script();
    let questions = trace.questions();
    let Some(tasks) = tasks_of(alloc, trace, config, questions, done)? else {
        return Ok(None);
    };
    Ok(rrc_collate::collate(
        alloc,
        trace.lines.len(),
        config.workers,
        questions.len(),
        wholes,
        tasks.as_slice(),
    )?)
}

/// The report of a replay: what each line got, from what the workers say that they did and the
/// shelves that they left.
///
/// `Strayed` where no report that holds these is one of the trace; `Spent` of the number of lines
/// where a part's last chapter can't be closed; `Memory`. Its time is linear in lines, offers and
/// events, times log n for the questions.
#[tactic(auto, using(crate::proofs::ReportLaws::given_shared_out, crate::proofs::ReportLaws::events_given))]
pub fn collate(
    alloc: Global,
    trace: &Trace,
    config: &Config,
    shelves: Vec<Shelf>,
    done: Vec<Done>,
) -> Result<Report, ReplayFault>
    ensures collated { IfOk result (IsCollated config.now trace.now) }
    ensures holds { IfOk result (Holds shelves.items done.items) }
    ensures err { IfErr result (IsWhy config.now trace.now shelves.items done.items) }
{
    let count = trace.lines.len();
    if done.len() != config.workers || shelves.len() != config.parts {
        return Err(ReplayFault::Strayed);
    }
    let Some(wholes) = wholes_of(alloc, &config.rules, count as u64, shelves)? else {
        return Err(ReplayFault::Strayed);
    };
    let Some(events) = events_of(alloc, trace, config, wholes.as_slice(), done.as_slice())? else {
        return Err(ReplayFault::Strayed);
    };
    let shares = shares_of(alloc, done.as_slice())?;
    let Some(lines) = lines_of(alloc, count, done, events.as_slice())? else {
        return Err(ReplayFault::Strayed);
    };
    drop(events);
    Ok(Report {
        lines,
        shares,
        wholes,
    })
}
