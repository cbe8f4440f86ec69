// SPDX-License-Identifier: MIT
ghost use Rattle.std.specs.Prelude.{◌≡◌, ◌≤◌, Some, None, is_some, if◌then◌else◌};
ghost use Rattle.rrc_history.specs.Views.{held_in};
ghost use Rattle.rrc_cache.specs.Counted.{counted_octets};
ghost use Rattle.rrc_cache.specs.ExpiryQueue.{replaced_of};

use crate::expiry_queue::full_expiry;
use rrc_history::Held;

/// Of an entry that another replaces: its number, from when on it is fully expired, and where
/// octets are counted its octets, modulo 2^64.
#[derive(Clone, Copy)]
pub(crate) struct Replaced {
    pub(crate) number: u64,
    pub(crate) expires: u64,
    pub(crate) octets: Option<u64>,
}

impl Replaced {
    pub(crate) fn of(held: Held<'_>, stale: u64, counts: bool) -> Replaced
        requires { stale ≤ 604800 }
        ensures { result ≡ replaced_of stale (is_some result.octets) (held_in held.entry) }
    {
        Replaced {
            number: held.number,
            expires: full_expiry(held.body, held.moment, stale),
            octets: octets_if(counts, held),
        }
    }
}

/// The octets of what is held, modulo 2^64, where they are counted.
fn octets_if(counts: bool, held: Held<'_>) -> Option<u64>
    ensures { result ≡ (if is_some result then Some (counted_octets (held_in held.entry)) else None) }
{
    if counts {
        Some(held.body.octets_under(held.key))
    } else {
        None
    }
}
