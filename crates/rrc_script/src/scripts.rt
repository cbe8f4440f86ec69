// SPDX-License-Identifier: MIT
ghost use Rattle.std.specs.Prelude.{◌≡◌, [], ◌∷◌, ◌++◌, map, IfOk, IfErr, IfSome, IfNone};
ghost use Rattle.rrc_wire.specs.FirstFault.{FirstFault};
ghost use Rattle.rrc_trace.specs.Lawful.{IsLawful};
ghost use Rattle.rrc_text.specs.declared.fault.ReplayFault.TheVariants as faults;
ghost use Rattle.rrc_script.specs.declared.script.Script.{Script};
ghost use Rattle.rrc_script.specs.Scripts.{offer_of, failure_of, offering, asking, sweeping, plain, first_ask, fetching, Joins, Gets, Responds, HasFaultOf, HasScript, OneScript};

use crate::config::Config;
use crate::offers::{failure_at, offer_at, offers_fetched};
use crate::operations::{add_offers, asking, fetching, first_ask, offering, sweeping};
use crate::script::Script;
use rrc_collate::{Fate, Operations};
use rrc_name::part_of;
use rrc_sets::offers_in;
use rrc_trace::{Answer, Fetch, Line, Questions, ReplayFault, Response};
use rrc_wire::{WireFault, one_message_or_fault, read_message};
use std::alloc::Global;

/// The script of a line that fetches nothing.
fn plain(operations: Operations) -> Script
    ensures { result ≡ plain operations }
{
    Script {
        operations,
        fate: Fate::Plain,
    }
}

/// The script of a response that is a message, or `None` where it is none.
fn response_script(
    alloc: Global,
    config: &Config,
    response: &Response,
) -> Result<Option<Script>, ReplayFault>
    ensures some { IfOk result (λ found. IfSome found (Responds config.now response.now.octets response.now.zone response.now.moment)) }
    ensures none { IfOk result (λ found. IfNone found ((script : Script) → Responds config.now response.now.octets response.now.zone response.now.moment script → ⊥)) }
    ensures err { IfErr result (λ fault. fault ≡ faults.Memory) }
{
    let octets = response.octets.as_slice();
    let offers = match offers_in(
        alloc,
        octets,
        &response.zone,
        response.moment,
        &config.limits,
    ) {
        Ok(offers) => offers,
        Err(WireFault::Memory) => return Err(ReplayFault::Memory),
        Err(_) => {
            one_message_or_fault();
            return Ok(None);
        }
    };
    let mut operations = Vec::with_capacity(alloc, offers.len())?;
    add_offers(config, &mut operations, offers)?;
    Ok(Some(plain(Operations::from_vec(operations))))
}

/// The first fault of octets, or `None` where they are a message.
fn first_fault(alloc: Global, octets: &[u8]) -> Result<Option<WireFault>, ReplayFault>
    ensures some { IfOk result (λ found. IfSome found (FirstFault octets.now)) }
    ensures none { IfOk result (λ found. IfNone found ((fault : WireFault) → FirstFault octets.now fault → ⊥)) }
    ensures err { IfErr result (λ fault. fault ≡ faults.Memory) }
{
    let fault = match read_message(alloc, octets) {
        Ok(_) => {
            one_message_or_fault();
            return Ok(None);
        }
        Err(WireFault::Memory) => return Err(ReplayFault::Memory),
        Err(fault) => fault,
    };
    Ok(Some(fault))
}

/// The script of a response whose octets have a first fault of this number, or `None` where they
/// have none of it.
fn refused_script(
    alloc: Global,
    response: &Response,
    number: u8,
) -> Result<Option<Script>, ReplayFault>
    ensures some { IfOk result (λ found. IfSome found (λ script. HasFaultOf response.now.octets number × (script ≡ plain []))) }
    ensures none { IfOk result (λ found. IfNone found (HasFaultOf response.now.octets number → ⊥)) }
    ensures err { IfErr result (λ fault. fault ≡ faults.Memory) }
{
    let Some(fault) = first_fault(alloc, response.octets.as_slice())? else {
        return Ok(None);
    };
    if fault.number() == number {
        return Ok(Some(plain(Operations::none(alloc))));
    }
    one_message_or_fault();
    Ok(None)
}

/// The script of a fetch that another one of its question stood in for, or `None` where its
/// question has no number.
fn joined_script(
    config: &Config,
    questions: &Questions,
    fetch: &Fetch,
) -> Result<Option<Script>, ReplayFault>
    ensures some { IfOk result (λ found. IfSome found (Joins config.now questions.now fetch.now)) }
    ensures none { IfOk result (λ found. IfNone found ((script : Script) → Joins config.now questions.now fetch.now script → ⊥)) }
    ensures err { IfErr result (λ fault. fault ≡ faults.Memory) }
{
    let Some(question) = questions.number(fetch)? else {
        return Ok(None);
    };
    Ok(Some(Script {
        operations: Operations::alone(first_ask(config, fetch)?),
        fate: Fate::Joined { question },
    }))
}

/// The script of a fetch that was made, or `None` where its question has no number.
fn fetched_script(
    alloc: Global,
    config: &Config,
    questions: &Questions,
    fetch: &Fetch,
) -> Result<Option<Script>, ReplayFault>
    ensures some { IfOk result (λ found. IfSome found (Gets config.now questions.now fetch.now)) }
    ensures none { IfOk result (λ found. IfNone found ((script : Script) → Gets config.now questions.now fetch.now script → ⊥)) }
    ensures err { IfErr result (λ fault. fault ≡ faults.Memory) }
{
    let Some(question) = questions.number(fetch)? else {
        return Ok(None);
    };
    let offers = offers_fetched(alloc, fetch, &config.limits)?;
    let operations = fetching(alloc, config, fetch, offers)?;
    let home = part_of(&fetch.name, config.parts);
    Ok(Some(Script {
        operations,
        fate: Fate::Fetched { question, home },
    }))
}

/// What a fetch calls for, where it got an answer of this kind, or `None` where it can't get one.
fn fetch_script(
    alloc: Global,
    config: &Config,
    questions: &Questions,
    fetch: &Fetch,
    answer: &Answer,
) -> Result<Option<Script>, ReplayFault>
    ensures some { IfOk result (λ found. IfSome found (HasScript config.now questions.now (Line.Fetch fetch.now) answer.now)) }
    ensures none { IfOk result (λ found. IfNone found ((script : Script) → HasScript config.now questions.now (Line.Fetch fetch.now) answer.now script → ⊥)) }
    ensures err { IfErr result (λ fault. fault ≡ faults.Memory) }
{
    match answer {
        Answer::Hit(_) => Ok(Some(plain(Operations::alone(first_ask(config, fetch)?)))),
        Answer::Held(_) => Ok(Some(plain(Operations::alone(first_ask(config, fetch)?)))),
        Answer::Joined => joined_script(config, questions, fetch),
        Answer::Fetched { .. } => fetched_script(alloc, config, questions, fetch),
        _ => Ok(None),
    }
}

/// What a line calls for, where it got an answer of this kind, or `None` where it can't get one.
pub fn script_of(
    alloc: Global,
    config: &Config,
    questions: &Questions,
    line: &Line,
    answer: &Answer,
) -> Result<Option<Script>, ReplayFault>
    requires { IsLawful line.now }
    ensures some { IfOk result (λ found. IfSome found (HasScript config.now questions.now line.now answer.now)) }
    ensures none { IfOk result (λ found. IfNone found ((script : Script) → HasScript config.now questions.now line.now answer.now script → ⊥)) }
    ensures err { IfErr result (λ fault. fault ≡ faults.Memory) }
{
    let limits = &config.limits;
    match (line, answer) {
        (Line::Put(put), Answer::Put(_)) => {
            let offer = offer_at(put, limits)?;
            Ok(Some(plain(Operations::alone(offering(config, offer)))))
        }
        (Line::Ask(ask), Answer::Ask(_)) => {
            Ok(Some(plain(Operations::alone(asking(config, ask.clone()?)))))
        }
        (Line::Fail(failed), Answer::Fail(_)) => {
            let offer = failure_at(
                failed.moment,
                &failed.name,
                failed.class,
                failed.rtype,
                limits,
            )?;
            Ok(Some(plain(Operations::alone(offering(config, offer)))))
        }
        (Line::Response(response), Answer::Response(_)) => response_script(alloc, config, response),
        (Line::Response(response), Answer::Refused(number)) => refused_script(
            alloc, response, *number,
        ),
        (Line::Fetch(fetch), _) => fetch_script(alloc, config, questions, fetch, answer),
        (Line::Sweep(moment), Answer::Swept(_)) => Ok(Some(plain(sweeping(config, *moment)))),
        (Line::Checkpoint, Answer::Closed) => Ok(Some(plain(Operations::none(alloc)))),
        _ => Ok(None),
    }
}

/// A line has one script for an answer: so what a report of a trace tells is determined by its
/// lines. The function does nothing; its contract is the law.
pub fn one_script()
    ensures { OneScript }
{
    one_message_or_fault();
}
