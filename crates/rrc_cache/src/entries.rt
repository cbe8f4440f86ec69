// SPDX-License-Identifier: MIT
ghost use Rattle.std.specs.Prelude.{◌≡◌, ◌≤◌, length, true, IfOk, OnErr};
ghost use Rattle.rrc_history.specs.Fits.{fits};
ghost use Rattle.rrc_history.specs.Past.{entry_of};
ghost use Rattle.rrc_cache.specs.Keyed.{name_hash};
ghost use Rattle.rrc_cache.specs.Taken.{IsPlaced, IsTaken};

use crate::ahead;
use crate::replaced::Replaced;
use crate::store::Store;
use rrc_history::{Entry, Offer, Outcome, verdict};
use rrc_name::{Key, KeyRef};
use std::alloc::AllocError;

/// What a kept offer stores.
fn entry_of(offer: &Offer, number: u64) -> Result<Entry, AllocError>
    ensures { IfOk result (λ entry. entry ≡ entry_of offer.now number) }
{
    Ok(Entry {
        key: offer.key.clone()?,
        body: offer.body.clone()?,
        moment: offer.moment,
        number,
    })
}

/// Puts an entry in front, and removes the key touched least recently where there are then more
/// than there may be. An `Err` leaves the entries as they were.
fn place(
    store: &mut Store,
    hash: u64,
    entry: Entry,
    capacity: u64,
) -> Result<Option<Key>, AllocError>
    requires hash { hash ≡ name_hash store.old.seeded entry.key.name }
    requires some { 1 ≤ capacity }
    requires room { length store.old.entries ≤ capacity }
    ensures ok { IfOk result (λ evicted. IsPlaced capacity entry store.old.entries evicted store.new.entries) }
    ensures stale { store.new.stale ≡ store.old.stale }
    ensures err { OnErr result (store.new ≡ store.old) }
{
    store.has_distinct_keys();
    store.put(hash, entry)?;
    if store.len() as u64 > capacity {
        Ok(store.remove_last())
    } else {
        Ok(None)
    }
}

/// Judges an offer, and changes the entries as its outcome says. Its name is hashed once. An `Err`
/// leaves them as they were.
pub(crate) fn take(
    store: &mut Store,
    offer: &Offer,
    number: u64,
    capacity: u64,
) -> Result<(Outcome, Option<Key>), AllocError>
    requires some { 1 ≤ capacity }
    requires room { length store.old.entries ≤ capacity }
    ensures ok { IfOk result (λ told. IsTaken capacity number offer.now store.old.entries told.0 told.1 store.new.entries) }
    ensures fit { fits offer.now.key offer.now.body ≡ true }
    ensures stale { store.new.stale ≡ store.old.stale }
    ensures err { OnErr result (store.new ≡ store.old) }
{
    ahead::load_last(store);
    let key = KeyRef::of(&offer.key);
    let hash = store.hash_of(key.name);
    let held = store.get(hash, key).held;
    let outcome = verdict(held, offer);
    let evicted = match (outcome, held) {
        (Outcome::Kept, Some(held)) => {
            let replaced = Replaced::of(held, store.stale(), store.counts_octets());
            store.replace(hash, offer, number, replaced)?;
            None
        }
        (Outcome::Kept, None) => place(store, hash, entry_of(offer, number)?, capacity)?,
        (Outcome::Cleared, _) => {
            store.remove(hash, key);
            None
        }
        (Outcome::LessTrusted, _) => None,
    };
    Ok((outcome, evicted))
}
