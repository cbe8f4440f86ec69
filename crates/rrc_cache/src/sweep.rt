// SPDX-License-Identifier: MIT
ghost use Rattle.std.specs.Prelude.{◌≡◌, ◌≤◌, IfOk};
ghost use Rattle.std.specs.List.Sorted.{IsStrictlySortedBy};
ghost use Rattle.rrc_name.specs.Key.{KeyOf, key_order};
ghost use Rattle.rrc_history.specs.Lives.{LAST_MOMENT};
ghost use Rattle.rrc_history.specs.Past.{is_among};
ghost use Rattle.rrc_history.specs.Entries.{staying};
ghost use Rattle.rrc_cache.specs.Taken.{AreExpiredKeys};

use crate::store::Store;
use rrc_name::{Key, KeyRef};
use std::alloc::{AllocError, Global};

/// Puts keys into their order, each once. It takes no memory.
fn put_in_order(keys: &mut Vec<Key>)
    ensures sorted { IsStrictlySortedBy key_order keys.new.items }
    ensures same { (key : KeyOf) → is_among key keys.new.items ≡ is_among key keys.old.items }
{
    keys.sort_unstable();
    keys.dedup();
}

/// The keys of the fully expired entries, in the order of keys.
pub(crate) fn expired_keys(
    alloc: Global,
    store: &mut Store,
    moment: u64,
) -> Result<Vec<Key>, AllocError>
    requires { moment ≤ LAST_MOMENT }
    ensures expired { IfOk result (λ keys. AreExpiredKeys store.old.stale moment store.old.entries keys.items) }
    ensures same { store.new ≡ store.old }
{
    let mut keys = store.find_expired(alloc, moment)?;
    put_in_order(&mut keys);
    Ok(keys)
}

/// Removes the entries of keys, and lets the expiries that were due go. It takes no memory.
pub(crate) fn remove(store: &mut Store, keys: &[Key])
    ensures { store.new ≡ record store.old { entries = staying (λ key. is_among key keys.now) store.old.entries } }
{
    for key in keys {
        let key = KeyRef::of(key);
        store.remove(store.hash_of(key.name), key);
    }
    requeue(store, keys.len());
}

/// Lets the expiries go that were due, after so many keys were removed. Where a key holds an entry
/// still, one goes back at the present expiry of that.
fn requeue(store: &mut Store, removed: usize)
    ensures { store.new ≡ store.old }
{
    for _ in 0..store.count_due(removed) {
        store.requeue();
    }
}
