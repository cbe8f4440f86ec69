// SPDX-License-Identifier: MIT
ghost use Rattle.std.specs.Prelude.{◌≡◌, ◌<◌, OnOk, IfOk, IfSome, position, length, count_by};
ghost use Rattle.rrc_sets.specs.Sets.{same_set, sets_of};
ghost use Rattle.rrc_sets.specs.Gathering.{holds, with_record};

use crate::set::Set;
use rrc_wire::Rr;
use std::alloc::{AllocError, Global};

/// The place of the set that a record is one of.
fn place_of(sets: &[Set], rr: &Rr) -> Option<usize>
    ensures place { result ≡ position (λ set. holds set rr.now) sets.now }
    ensures inside { IfSome result (λ place. place < length sets.now) }
{
    sets.iter().position(|set| set.holds(rr))
}

/// Whether two records are of one set.
fn is_of_set(rr: &Rr, other: &Rr) -> bool
    ensures { result ≡ same_set rr.now other.now }
{
    rr.rtype == other.rtype && rr.owner.same(&other.owner)
}

/// How many of some records are of the set of a record.
fn count_of_set(records: &[Rr], rr: &Rr) -> usize
    ensures { result ≡ count_by (same_set rr.now) records.now }
{
    let mut count = 0;
    for other in records {
        if is_of_set(rr, other) {
            count += 1;
        }
    }
    count
}

/// Puts one of a section's records into its set, or else into one of its own behind the others.
fn put(alloc: Global, sets: &mut Vec<Set>, records: &[Rr], rr: &Rr) -> Result<(), AllocError>
    ensures { OnOk result (sets.new.items ≡ with_record sets.old.items rr.now) }
{
    match place_of(sets.as_slice(), rr) {
        Some(place) => sets[place].grow(rr)?,
        None => sets.push(Set::alone(alloc, rr, count_of_set(records, rr))?)?,
    }
    Ok(())
}

/// The sets of a section's records, where each is sought by a walk over the sets and over the data
/// of one of them.
pub(crate) fn sets_by_walks(alloc: Global, records: &[Rr]) -> Result<Vec<Set>, AllocError>
    ensures { IfOk result (λ sets. sets.items ≡ sets_of records.now) }
{
    let mut sets = Vec::new(alloc);
    for rr in records {
        put(alloc, &mut sets, records, rr)?;
    }
    Ok(sets)
}
