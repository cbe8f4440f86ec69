// SPDX-License-Identifier: MIT
ghost use Rattle.std.specs.Prelude.{◌≡◌};
ghost use Rattle.std.specs.Option.{option_map};
ghost use Rattle.rrc_shelf.specs.Asks.{kind_of_entry, record_of};
ghost use Rattle.rrc_history.specs.Views.{held_in};

use rrc_history::{Body, Held};
use rrc_name::Slot;

/// What is kept under a key: what it is, how far it is trusted, its time to live when it was
/// stored, when and by which event that was, and behind how many others it stands. All is 0 where
/// nothing is kept.
#[repr(C)]
#[derive(Clone, Copy, Debug)]
pub struct EntryRecord {
    /// 0 nothing, 1 data, 3 that there are none of the type, 4 that the name does not exist, 6 that
    /// asking failed.
    pub kind: u32,
    /// 1 to 4 from low to high, or 0 of a failure.
    pub trust: u32,
    /// In seconds.
    pub ttl: u32,
    /// In seconds.
    pub moment: u64,
    /// The number of the event that stored it.
    pub number: u64,
    /// How many touches came after its last one.
    pub age: u64,
}

/// What is kept under a key of which nothing is.
pub(crate) const NOTHING: EntryRecord = EntryRecord {
    kind: 0,
    trust: 0,
    ttl: 0,
    moment: 0,
    number: 0,
    age: 0,
};

#[inline(always)]
fn kind_of_entry(held: Held<'_>) -> u32
    ensures { result ≡ kind_of_entry (held_in held.entry) }
{
    let key = held.key;
    match (held.body, key.slot) {
        (Body::Positive { .. }, _) => 1,
        (Body::Negative { .. }, Slot::Nx) => 4,
        (Body::Negative { .. }, _) => 3,
        (Body::Failure { .. }, _) => 6,
    }
}

/// The record of an entry of this age, if there is one.
#[inline(always)]
pub(crate) fn record_of(held: Option<Held<'_>>, age: u64) -> EntryRecord
    ensures { result ≡ record_of (option_map held_in held.entry) age }
{
    let Some(held) = held else {
        return NOTHING;
    };
    let (trust, ttl) = match held.body {
        Body::Positive { trust, ttl, .. } | Body::Negative { trust, ttl, .. } => {
            (u32::from(trust.rank()), *ttl)
        }
        Body::Failure { ttl } => (0, *ttl),
    };
    EntryRecord {
        kind: kind_of_entry(held),
        trust,
        ttl,
        moment: held.moment,
        number: held.number,
        age,
    }
}
