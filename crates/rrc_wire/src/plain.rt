// SPDX-License-Identifier: MIT
ghost use Rattle.std.specs.Prelude.{◌≡◌, ◌⊎◌, ℕ, List, IfOk, IfErr, OnOk, IfSome, IfNone};
ghost use Rattle.rrc_wire.specs.Shown.{as_layout};
ghost use Rattle.rrc_wire.specs.Plain.{IsNameThen, AreNamesThen, is_filled, IsPlain, is_plain};
ghost use Rattle.rrc_wire.specs.ReadPlain.{ReadsPlainData};

use crate::fault::WireFault;
use crate::layout::{Layout, layout_of};
use rrc_name::Octets;
use std::alloc::Global;

/// A name has at most so many octets in all (RFC 1035 section 2.3.4).
const MOST_OF_A_NAME: usize = 255;

/// Data have at most so many octets, since RDLENGTH has 16 bits (RFC 1035 section 3.2.1).
const MOST_OF_DATA: usize = 65_535;

/// The octets behind the name that some octets begin with, or `None` where they begin with no name.
fn behind_name(octets: &[u8]) -> Option<&[u8]>
    ensures name { IfSome result (λ behind. IsNameThen 255 octets.now behind.now) }
    ensures none { IfNone result ((behind : List ℕ) → IsNameThen 255 octets.now behind → ⊥) }
{
    let mut rest = octets;
    let mut room = MOST_OF_A_NAME;
    while let Some((first, others)) = rest.split_first() {
        let size = usize::from(*first);
        if size == 0 {
            return Some(others);
        }
        // a label leaves room for the zero octet that ends its name
        if size > 63 || size > others.len() || size + 2 > room {
            return None;
        }
        room -= size + 1;
        rest = &others[size..];
    }
    None
}

/// The octets behind so many names end to end, or `None` where the octets begin with fewer.
fn behind_names(octets: &[u8], names: u8) -> Option<&[u8]>
    ensures names { IfSome result (λ behind. AreNamesThen names octets.now behind.now) }
    ensures none { IfNone result ((behind : List ℕ) → AreNamesThen names octets.now behind → ⊥) }
{
    let mut rest = octets;
    for _ in 0..names {
        match behind_name(rest) {
            Some(behind) => rest = behind,
            None => return None,
        }
    }
    Some(rest)
}

/// Whether octets fill a layout, with none left over and none missing.
fn is_filled(layout: Layout, octets: &[u8]) -> bool
    ensures { result ≡ is_filled (as_layout layout) octets.now }
{
    let before = usize::from(layout.before);
    if before > octets.len() {
        return false;
    }
    match behind_names(&octets[before..], layout.names) {
        Some(behind) => behind.len() == usize::from(layout.behind),
        None => false,
    }
}

/// Whether octets are plain data of a type, as `plain_rdata` takes them.
pub(crate) fn is_plain(rtype: u16, octets: &[u8]) -> bool
    ensures { result ≡ is_plain rtype octets.now }
{
    octets.len() <= MOST_OF_DATA
        && match layout_of(rtype) {
            Some(layout) => is_filled(layout, octets),
            None => true,
        }
}

/// The same octets, where they are plain data of a type: at most 65,535 of them that fill its
/// layout, each name whole, of at most 255 octets and with no pointer (RFC 3597 section 4). Data of
/// a type without a layout are any octets.
///
/// `BadData` is answered where they are not, or `Memory` where memory was refused.
pub fn plain_rdata(alloc: Global, rtype: u16, octets: &[u8]) -> Result<Octets, WireFault>
    ensures ok { IfOk result (λ rdata. rdata ≡ octets.now) }
    ensures plain { OnOk result (IsPlain rtype octets.now) }
    ensures err { IfErr result (λ fault. (fault ≡ WireFault.Memory) ⊎ ((fault ≡ WireFault.BadData) × ¬ IsPlain rtype octets.now)) }
{
    if !is_plain(rtype, octets) {
        return Err(WireFault::BadData);
    }
    Ok(Octets::from_slice(alloc, octets)?)
}

/// The law of the data that are read: those of each kept record of a message are plain data of its
/// type.
pub fn read_data_are_plain()
    ensures { ReadsPlainData }
{}
