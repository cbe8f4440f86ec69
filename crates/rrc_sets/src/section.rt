// SPDX-License-Identifier: MIT
ghost use Rattle.std.specs.Prelude.{◌≡◌, IfOk};
ghost use Rattle.rrc_sets.specs.Sets.{sets_of};

use crate::set::Set;
use crate::trees::sets_by_trees;
use crate::walks::sets_by_walks;
use rrc_wire::Rr;
use std::alloc::{AllocError, Global};

/// So many records of a section are few: to build trees of them takes longer than to walk over
/// them. Walks over more would take a time that grows with the square of their number.
const FEW: usize = 16;

/// The sets of a section's records (RFC 2181 section 5), in order of their first records.
pub(crate) fn sets_of(alloc: Global, records: &[Rr]) -> Result<Vec<Set>, AllocError>
    ensures { IfOk result (λ sets. sets.items ≡ sets_of records.now) }
{
    if records.len() <= FEW {
        sets_by_walks(alloc, records)
    } else {
        sets_by_trees(alloc, records)
    }
}
