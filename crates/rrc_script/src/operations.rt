// SPDX-License-Identifier: MIT
ghost use Rattle.std.specs.Prelude.{◌≡◌, [], ◌∷◌, ◌++◌, map, IfOk, OnOk};
ghost use Rattle.rrc_script.specs.Scripts.{offering, asking, sweeping, first_ask, fetching};

use crate::config::Config;
use crate::offers::ask_at;
use rrc_collate::{Call, Operation, Operations};
use rrc_history::{Ask, Mode, Offer};
use rrc_name::part_of;
use rrc_trace::Fetch;
use std::alloc::{AllocError, Global};

/// An offer, to the part that its name lies in.
pub(crate) fn offering(config: &Config, offer: Offer) -> Operation
    ensures { result ≡ offering config.now.parts offer }
{
    Operation {
        part: part_of(offer.key.name(), config.parts),
        call: Call::Offer(offer),
    }
}

/// An ask, of the part that its name lies in.
pub(crate) fn asking(config: &Config, ask: Ask) -> Operation
    ensures { result ≡ asking config.now.parts ask }
{
    Operation {
        part: part_of(&ask.name, config.parts),
        call: Call::Ask(ask),
    }
}

/// Puts offers behind operations, in order.
pub(crate) fn add_offers(
    config: &Config,
    operations: &mut Vec<Operation>,
    offers: Vec<Offer>,
) -> Result<(), AllocError>
    ensures { OnOk result (operations.new.items ≡ operations.old.items ++ map (offering config.now.parts) offers.items) }
{
    for offer in offers {
        operations.push(offering(config, offer))?;
    }
    Ok(())
}

/// What a fetch asks first.
pub(crate) fn first_ask(config: &Config, fetch: &Fetch) -> Result<Operation, AllocError>
    ensures { IfOk result (λ operation. operation ≡ first_ask config.now.parts fetch.now) }
{
    Ok(asking(config, ask_at(fetch, Mode::Failed)?))
}

/// The operations of a fetch that was made.
pub(crate) fn fetching(
    alloc: Global,
    config: &Config,
    fetch: &Fetch,
    offers: Vec<Offer>,
) -> Result<Operations, AllocError>
    ensures { IfOk result (λ operations. operations ≡ fetching config.now.parts fetch.now offers.items) }
{
    let mut operations = Vec::with_capacity(alloc, offers.len() + 2)?;
    operations.push(first_ask(config, fetch)?)?;
    add_offers(config, &mut operations, offers)?;
    operations.push(asking(config, ask_at(fetch, Mode::Now)?))?;
    Ok(Operations::from_vec(operations))
}

/// A sweep of each part, in order.
pub(crate) fn sweeping(config: &Config, moment: u64) -> Operations
    ensures { result ≡ sweeping moment 0 config.now.parts }
{
    Operations::everywhere(config.parts, Call::Sweep(moment))
}
