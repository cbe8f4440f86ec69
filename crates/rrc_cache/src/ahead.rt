// SPDX-License-Identifier: MIT
//! What a call counts the owners of comes from memory, as a rule: it was not touched for long. A
//! count waits for every load before it, and no load behind it begins before it is made. So what is
//! counted late is loaded early, beside what the call loads anyway.

use crate::store::Store;
use rrc_history::Body;

/// Begins to load the data of a body.
pub(crate) fn load_data(body: &Body) {
    match body {
        Body::Positive { items, .. } => {
            let _ = items.owners();
        }
        Body::Negative { soa, .. } => {
            let _ = soa.owners();
        }
        Body::Failure { .. } => {}
    }
}

/// Begins to load the name and the data of the last entry, which a put to a full part evicts.
pub(crate) fn load_last(store: &Store) {
    if let Some(held) = store.last() {
        let key = held.key;
        let _ = key.name.wire.owners();
        load_data(held.body);
    }
}
