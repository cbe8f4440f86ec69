// SPDX-License-Identifier: MIT
ghost use Rattle.std.specs.Prelude.{◌≡◌, ◌≤◌, ◌<◌, ◌/◌, ◌%◌, ◌^◌, ◌∷◌, [], true, IfErr, OnOk};
ghost use Rattle.rrc_shelf.specs.Shelves.{keyed_part_of};
ghost use Rattle.rrc_shelf.specs.Checks.{number_of, unless, Passes, Refuses};
ghost use Rattle.rrc_shelf.specs.Refusals.{division_checks, is_seed};
ghost use Rattle.rrc_name.specs.Key.{IsFolded};
ghost use Rattle.rrc_name.specs.NameRef.{name_in};

use crate::status::Status;
use crate::terms::Division;
use rrc_cache::keyed_hash;
use rrc_name::NameRef;

/// The most parts that there may be, and the usual number.
const MOST_PARTS: u64 = 64;

/// Whether there may be so many parts.
fn check_parts(parts: u64) -> Result<(), Status>
    ensures fit { OnOk result ((1 ≤ parts) × (parts ≤ 64)) }
    ensures refused { IfErr result (λ status. Refuses (unless Status.BadRules ((1 ≤ parts) × (parts ≤ 64)) ∷ []) (number_of status)) }
{
    if !(1..=MOST_PARTS).contains(&parts) {
        return Err(Status::BadRules);
    }
    Ok(())
}

/// Whether an octet of a seed is other than 0.
#[tactic(auto, unfolding(crate::specs::Refusals::is_seed))]
fn is_seed(seed: &[u8; 16]) -> bool
    ensures { result ≡ is_seed seed.now }
{
    seed.iter().any(|octet| *octet != 0)
}

/// Whether a seed is none that was forgotten.
pub(crate) fn check_seed(seed: &[u8; 16]) -> Result<(), Status>
    ensures fit { OnOk result (is_seed seed.now ≡ true) }
    ensures refused { IfErr result (λ status. Refuses (unless Status.BadSeed (is_seed seed.now ≡ true) ∷ []) (number_of status)) }
{
    if !is_seed(seed) {
        return Err(Status::BadSeed);
    }
    Ok(())
}

/// Whether names may be divided so.
pub(crate) fn check_division(division: &Division) -> Result<(), Status>
    ensures fit { OnOk result (Passes (division_checks division.now)) }
    ensures refused { IfErr result (λ status. Refuses (division_checks division.now) (number_of status)) }
{
    check_parts(division.count)?;
    check_seed(&division.seed)
}

/// The part, below `parts`, that all keys of a name lie in whose hash this is. The usual number of
/// parts is told apart, since to divide by a number that the compiler knows takes no division.
pub(crate) fn part_of_hash(hash: u64, parts: u64) -> u64
    requires { 1 ≤ parts }
    ensures value { result ≡ hash / 2 ^ 32 % parts }
    ensures below { result < parts }
{
    let upper = hash / (1 << 32);
    if parts == MOST_PARTS {
        upper % MOST_PARTS
    } else {
        upper % parts
    }
}

/// The part, below `parts`, which is 1 to 64, that all keys of a name lie in, by a seed. Who does
/// not know the seed cannot pick names of one part. It takes no memory, and so wants the name
/// folded.
pub(crate) fn keyed_part_of(name: NameRef<'_>, division: &Division) -> u64
    requires folded { IsFolded (name_in name) }
    requires some { 1 ≤ division.now.count }
    ensures value { result ≡ keyed_part_of division.now.seed (name_in name.entry) division.now.count }
    ensures below { result < division.now.count }
{
    part_of_hash(keyed_hash(name.as_slice(), &division.seed), division.count)
}
