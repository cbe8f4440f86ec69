// SPDX-License-Identifier: MIT
ghost use Rattle.std.specs.Prelude.{◌≡◌, ◌≤◌, ◌∷◌, [], drop, length, take, IfErr, IfNone, IfOk, IfSome, OnOk};
ghost use Rattle.rrc_cache.specs.Seeds.{IsHashOf};
ghost use Rattle.rrc_shelf.specs.Asks.{octets_of};
ghost use Rattle.rrc_shelf.specs.Refusals.{wire_check, FoldingDue, IsFoldedName};
ghost use Rattle.rrc_shelf.specs.Shelves.{keyed_part_of};
ghost use Rattle.rrc_shelf.specs.Checks.{memory, number_of, number_of_call, Refuses};
ghost use Rattle.rrc_name.specs.Key.{IsFolded};
ghost use Rattle.rrc_name.specs.NameRef.{name_in};
ghost use Rattle.rrc_name.specs.Wire.{folded, IsWireForm};

use crate::division::{check_division, part_of_hash};
use crate::folded_name::FoldedName;
use crate::status::Status;
use crate::terms::Division;
use rrc_cache::{NameHash, keyed_hash};
use rrc_name::{Name, NameRef, WireNameFault};
use std::alloc::Global;

/// The name whose wire form some octets are.
pub(crate) fn name_of(alloc: Global, octets: &[u8]) -> Result<Name, Status>
    ensures name { IfOk result (λ name. name ≡ octets.now) }
    ensures wire_form { OnOk result (IsWireForm octets.now) }
    ensures refused { IfErr result (λ status. Refuses (memory ∷ wire_check octets.now ∷ []) (number_of status)) }
{
    match Name::from_wire(alloc, octets) {
        Ok(name) => Ok(name),
        Err(WireNameFault::Memory) => Err(Status::Memory),
        Err(_) => Err(Status::BadName),
    }
}

/// The name whose wire form some octets are, lent. It takes no memory.
fn lent_from(octets: &[u8]) -> Result<NameRef<'_>, Status>
    ensures name { IfOk result (λ name. name_in name ≡ octets.now) }
    ensures wire_form { OnOk result (IsWireForm octets.now) }
    ensures refused { IfErr result (λ status. Refuses (wire_check octets.now ∷ []) (number_of status)) }
{
    match NameRef::from_wire(octets) {
        Ok(name) => Ok(name),
        Err(_) => Err(Status::BadName),
    }
}

/// Writes octets, folded, to where a name has its own, of a name that is none. They are folded in
/// place, since to make an array of them and to move it there takes a third longer.
#[inline(always)]
fn write_folded(wire: &[u8], made: &mut FoldedName)
    requires fits { length wire.now ≤ 255 }
    requires none { made.old.size ≡ 0 }
    ensures octets { take (length wire.now) made.new.octets ≡ folded wire.now }
    ensures behind { drop (length wire.now) made.new.octets ≡ drop (length wire.now) made.old.octets }
{
    for at in 0..wire.len() {
        made.octets[at] = wire[at].to_ascii_lowercase();
    }
}

/// Writes a name, folded, with its hash by the seed of a division, and the part that it lies in.
#[inline(always)]
fn write_hashed(name: NameRef<'_>, division: &Division, made: &mut FoldedName)
    requires parts { 1 ≤ division.now.count }
    ensures made { 1 ≤ made.new.size }
    ensures octets { octets_of made.new ≡ folded (name_in name.entry) }
    ensures behind { drop made.new.size made.new.octets ≡ drop made.new.size made.old.octets }
    ensures seed { made.new.seed ≡ division.now.seed }
    ensures part { made.new.part ≡ keyed_part_of division.now.seed (name_in name.entry) division.now.count }
{
    let wire = name.as_slice();
    made.size = 0;
    write_folded(wire, made);
    let hash = keyed_hash(&made.octets[..wire.len()], &division.seed);
    made.hash = hash;
    made.part = part_of_hash(hash, division.count);
    made.seed = division.seed;
    made.size = wire.len() as u8;
}

/// Makes the name that some octets are, folded and hashed by the seed of a division. It takes no
/// memory.
pub fn fold_name(octets: &[u8], division: &Division, made: &mut FoldedName) -> Result<(), Status>
    ensures name { OnOk result (IsFoldedName octets.now division.now made.new) }
    ensures behind { drop made.new.size made.new.octets ≡ drop made.new.size made.old.octets }
    ensures refused { IfErr result (λ _. made.new ≡ made.old) }
    ensures due { FoldingDue octets.now division.now (number_of_call result) }
{
    check_division(division)?;
    write_hashed(lent_from(octets)?, division, made);
    Ok(())
}

/// A folded name, lent with its hash; `None` where none was made.
#[inline(always)]
pub(crate) fn lent(name: &FoldedName) -> Option<(NameRef<'_>, NameHash)>
    ensures name { IfSome result (λ lent. name_in lent.0 ≡ octets_of name.now) }
    ensures low { IfSome result (λ lent. IsFolded (name_in lent.0)) }
    ensures hash { IfSome result (λ lent. IsHashOf lent.1 (name_in lent.0)) }
    ensures made { IfSome result (λ lent. 1 ≤ name.now.size) }
    ensures none { IfNone result (name.now.size ≡ 0) }
{
    if name.size == 0 {
        return None;
    }
    let octets = &name.octets[..usize::from(name.size)];
    let hash = NameHash {
        hash: name.hash,
        seed: name.seed,
    };
    Some((NameRef::lent(octets), hash))
}
