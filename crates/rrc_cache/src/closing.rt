// SPDX-License-Identifier: MIT
ghost use Rattle.std.specs.Prelude.{◌≡◌, [], IfOk};

use rrc_history::{EntryList, Rules, Snapshot};
use rrc_name::Shared;
use std::alloc::{AllocError, Global};

/// The snapshot that a history begins with: it has no entries.
pub(crate) fn nothing(alloc: Global, rules: Rules) -> Result<Shared<Snapshot>, AllocError>
    ensures { IfOk result (λ snapshot. snapshot ≡ record { rules = rules; first = 0; entries = [] }) }
{
    let snapshot = Snapshot {
        rules,
        first: 0,
        entries: EntryList::new(alloc),
    };
    Ok(Shared::new(alloc, snapshot)?)
}
