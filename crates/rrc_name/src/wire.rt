// SPDX-License-Identifier: MIT
ghost use Rattle.std.specs.Prelude.{◌≡◌, ◌≢◌, ◌≤◌, [], ◌∷◌, IfOk, IfErr};
ghost use Rattle.rrc_name.specs.Wire.{IsWireForm};
ghost use Rattle.rrc_name.specs.WireFault.{IsFaultyBehind, IsFirstFaultOfWire, LabelStands};

use crate::fault::WireNameFault;

/// What stands behind the next label of a name whose labels before it take so many octets.
fn behind_label(before: usize, octets: &[u8]) -> Result<&[u8], WireNameFault>
    requires few { before ≤ 254 }
    requires no_end { octets.now ≢ 0 ∷ [] }
    ensures ok { IfOk result (λ behind. LabelStands before octets.now behind.now) }
    ensures err { IfErr result (λ fault. IsFaultyBehind before octets.now fault) }
{
    let Some((&size, behind)) = octets.split_first() else {
        return Err(WireNameFault::Short);
    };
    let size = usize::from(size);
    if size == 0 {
        return Err(WireNameFault::LeftOver);
    }
    if size > 63 {
        return Err(WireNameFault::LabelTooLong);
    }
    if before + size > 253 {
        return Err(WireNameFault::NameTooLong);
    }
    match behind.split_at_checked(size) {
        None => Err(WireNameFault::Short),
        Some((_, behind)) => Ok(behind),
    }
}

/// Whether the octets are the wire form of a name; else their first fault.
pub(crate) fn test_wire_form(octets: &[u8]) -> Result<(), WireNameFault>
    ensures ok { IfOk result (λ _. IsWireForm octets.now) }
    ensures err { IfErr result (λ fault. IsFirstFaultOfWire octets.now fault) }
{
    let mut rest = octets;
    while rest != b"\0".as_slice() {
        rest = behind_label(octets.len() - rest.len(), rest)?;
    }
    Ok(())
}
