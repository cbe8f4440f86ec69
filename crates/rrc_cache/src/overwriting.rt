// SPDX-License-Identifier: MIT
ghost use Rattle.std.specs.Prelude.{◌≡◌, OnOk, OnErr};
ghost use Rattle.rrc_history.specs.Past.{entry_of};

use rrc_history::{Body, Entry, Offer};
use std::alloc::AllocError;

/// Writes what an offer stores over an entry of its key. An `Err` leaves it as it was.
pub(crate) fn write_entry(entry: &mut Entry, offer: &Offer, number: u64) -> Result<(), AllocError>
    requires { entry.old.key ≡ offer.now.key }
    ensures ok { OnOk result (entry.new ≡ entry_of offer.now number) }
    ensures err { OnErr result (entry.new ≡ entry.old) }
{
    write_body(&mut entry.body, &offer.body)?;
    entry.moment = offer.moment;
    entry.number = number;
    Ok(())
}

/// Writes a body over another. The owner of a set stays where that of the new one is spelled alike.
/// An `Err` leaves it as it was.
fn write_body(body: &mut Body, offered: &Body) -> Result<(), AllocError>
    ensures ok { OnOk result (body.new ≡ offered.now) }
    ensures err { OnErr result (body.new ≡ body.old) }
{
    match (body, offered) {
        (
            Body::Positive {
                trust,
                ttl,
                owner,
                items,
            },
            Body::Positive {
                trust: offered_trust,
                ttl: offered_ttl,
                owner: offered_owner,
                items: offered_items,
            },
        ) if *owner == *offered_owner => {
            *items = offered_items.clone()?;
            *trust = *offered_trust;
            *ttl = *offered_ttl;
        }
        (body, offered) => *body = offered.clone()?,
    }
    Ok(())
}
