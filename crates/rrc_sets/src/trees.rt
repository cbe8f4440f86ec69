// SPDX-License-Identifier: MIT
ghost use Rattle.std.specs.Prelude.{◌≡◌, [], IfOk, OnOk, not, length};
ghost use Rattle.std.specs.Option.{unwrap_or};
ghost use Rattle.rrc_name.specs.Wire.{folded};
ghost use Rattle.rrc_wire.specs.SameRdata.{lowered_rdata};
ghost use Rattle.rrc_sets.specs.Sets.{sets_of};
ghost use Rattle.rrc_sets.specs.Gathering.{with_record};
ghost use Rattle.rrc_sets.specs.Trees.{place_at, has_at, FindsPlaces};

use crate::set::Set;
use rrc_wire::{Rr, lowered_rdata};
use std::alloc::{AllocError, Global};
use std::collections::{BTreeMap, BTreeSet};
use std::marker::Model;

/// The sets of the records so far, with ordered trees in which the set of a record and its data are
/// found. They are trees and no tables of hashes, since who sends a message picks its names and
/// data.
#[derive(Drop)]
pub(crate) struct Gathered {
    sets: Vec<Set>,
    /// The place of each set, by its type and its owner with the letters lowered.
    places: BTreeMap<(u16, Vec<u8>), usize>,
    /// The place of a set with each of its data, with the letters of their names lowered.
    seen: BTreeSet<(usize, Vec<u8>)>,
}

impl Model for Gathered {
    ghost use Rattle.std.specs.Prelude.{List};
    ghost use Rattle.rrc_sets.specs.Sets.{SetOf};
    ghost use Rattle.rrc_sets.specs.Trees.{FindsPlaces, FindsData};

    ghost Value = { List SetOf };

    ghost view = { λ g. g.sets.items };

    ghost invariant = { λ g. FindsPlaces g.places g.sets.items × FindsData g.seen g.sets.items };
}

/// A record's type, and its owner with the letters lowered.
fn key_of(rr: &Rr) -> Result<(u16, Vec<u8>), AllocError>
    ensures rtype { IfOk result (λ key. key.0 ≡ rr.now.rtype) }
    ensures owner { IfOk result (λ key. key.1.items ≡ folded rr.now.owner) }
{
    Ok((rr.rtype, rr.owner.wire.lowered()?.into_vec()?))
}

/// The place of a record's set, or that behind the others, which is then the place of sets of its
/// type and owner.
fn place_of(
    places: &mut BTreeMap<(u16, Vec<u8>), usize>,
    sets: &[Set],
    rr: &Rr,
) -> Result<usize, AllocError>
    requires { FindsPlaces places.old sets.now }
    ensures place { IfOk result (λ place. place ≡ unwrap_or (place_at sets.now rr.now.rtype (folded rr.now.owner)) (length sets.now)) }
    ensures finds { OnOk result (FindsPlaces places.new (with_record sets.now rr.now)) }
{
    let key = key_of(rr)?;
    match places.get(&key).copied() {
        Some(place) => Ok(place),
        None => {
            places.insert(key, sets.len())?;
            Ok(sets.len())
        }
    }
}

/// Puts a record into the set at its place, or else into one of its own behind the others.
fn put_at(
    alloc: Global,
    sets: &mut Vec<Set>,
    place: usize,
    rr: &Rr,
    is_new: bool,
) -> Result<(), AllocError>
    requires place { place ≡ unwrap_or (place_at sets.old.items rr.now.rtype (folded rr.now.owner)) (length sets.old.items) }
    requires is_new { is_new ≡ not (has_at sets.old.items place (lowered_rdata rr.now.rtype rr.now.rdata)) }
    ensures { OnOk result (sets.new.items ≡ with_record sets.old.items rr.now) }
{
    if place < sets.len() {
        sets[place].take(rr, is_new)?;
    } else {
        sets.push(Set::alone(alloc, rr, 1)?)?;
    }
    Ok(())
}

impl Gathered {
    /// No sets.
    fn new(alloc: Global) -> Gathered
        ensures { result ≡ [] }
    {
        Gathered {
            sets: Vec::new(alloc),
            places: BTreeMap::new(alloc),
            seen: BTreeSet::new(alloc),
        }
    }

    /// Puts a record into its set, or else into one of its own behind the others.
    fn put(self, alloc: Global, rr: &Rr) -> Result<Gathered, AllocError>
        ensures { IfOk result (λ more. more ≡ with_record self rr.now) }
    {
        let Gathered {
            mut sets,
            mut places,
            mut seen,
        } = self;
        let place = place_of(&mut places, sets.as_slice(), rr)?;
        let lowered = lowered_rdata(alloc, rr.rtype, rr.rdata.as_slice())?.into_vec()?;
        let is_new = seen.insert((place, lowered))?;
        put_at(alloc, &mut sets, place, rr, is_new)?;
        Ok(Gathered { sets, places, seen })
    }
}

/// The sets of a section's records (RFC 2181 section 5), in order of their first records, in a time
/// that grows little faster than their number.
pub(crate) fn sets_by_trees(alloc: Global, records: &[Rr]) -> Result<Vec<Set>, AllocError>
    ensures { IfOk result (λ sets. sets.items ≡ sets_of records.now) }
{
    let mut gathered = Gathered::new(alloc);
    for rr in records {
        gathered = gathered.put(alloc, rr)?;
    }
    Ok(gathered.sets)
}
