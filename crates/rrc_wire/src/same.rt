// SPDX-License-Identifier: MIT
ghost use Rattle.std.specs.Prelude.{◌≡◌, ◌↔◌, ℕ, List, Some, IsTrue, IfOk};
ghost use Rattle.std.specs.Cmp.{IsEquivalence};
ghost use Rattle.std.specs.List.{concat};
ghost use Rattle.rrc_wire.specs.Plain.{Fills, parts_in, IsPlain, is_plain};
ghost use Rattle.rrc_wire.specs.Shown.{as_layout};
ghost use Rattle.rrc_wire.specs.SameRdata.{lowered_by, lowered_rdata, LowersNames, IsSameRdata, same_rdata};

use crate::layout::{Layout, layout_of};
use crate::plain::is_plain;
use rrc_name::Octets;
use std::alloc::{AllocError, Global};

/// What data of a layout are made of: fixed octets, names end to end, fixed octets.
fn parts_of(layout: Layout, octets: &[u8]) -> (&[u8], &[u8], &[u8])
    requires { Fills (as_layout layout) octets.now }
    ensures before { result.0.now ≡ (parts_in (as_layout layout) octets.now).before }
    ensures names { result.1.now ≡ concat (parts_in (as_layout layout) octets.now).names }
    ensures behind { result.2.now ≡ (parts_in (as_layout layout) octets.now).behind }
{
    let (before, rest) = octets.split_at(usize::from(layout.before));
    let (names, behind) = rest.split_at(rest.len() - usize::from(layout.behind));
    (before, names, behind)
}

/// Whether data of a layout are the same but for the case of letters in their names.
fn has_same_parts(layout: Layout, a: &[u8], b: &[u8]) -> bool
    requires a_fills { Fills (as_layout layout) a.now }
    requires b_fills { Fills (as_layout layout) b.now }
    ensures { IsTrue result ↔ (lowered_by (Some (as_layout layout)) a.now ≡ lowered_by (Some (as_layout layout)) b.now) }
{
    let (before, names, behind) = parts_of(layout, a);
    let (other_before, other_names, other_behind) = parts_of(layout, b);
    before == other_before && names.eq_ignore_ascii_case(other_names) && behind == other_behind
}

/// Whether data of a type are the same: where both are plain, as `plain_rdata` takes them, the
/// letters A to Z of their names are read as a to z (RFC 4343 section 3); every other octet has to
/// be equal (RFC 3597 section 6). It takes no memory.
pub fn same_rdata(rtype: u16, a: &[u8], b: &[u8]) -> bool
    ensures value { result ≡ same_rdata rtype a.now b.now }
    ensures meaning { IsTrue result ↔ IsSameRdata rtype a.now b.now }
{
    match layout_of(rtype) {
        Some(layout) if is_plain(rtype, a) && is_plain(rtype, b) => has_same_parts(layout, a, b),
        _ => a == b,
    }
}

/// Lowers the letters A to Z of the names in data of a layout.
fn lower_names(layout: Layout, octets: &mut [u8])
    requires { Fills (as_layout layout) octets.old }
    ensures { octets.new ≡ lowered_by (Some (as_layout layout)) octets.old }
{
    let end = octets.len() - usize::from(layout.behind);
    octets[usize::from(layout.before)..end].make_ascii_lowercase();
}

/// A copy of data of a layout with the letters A to Z of their names as a to z.
fn lowered_by(alloc: Global, layout: Layout, octets: &[u8]) -> Result<Octets, AllocError>
    requires { Fills (as_layout layout) octets.now }
    ensures { IfOk result (λ lowered. lowered ≡ lowered_by (Some (as_layout layout)) octets.now) }
{
    let mut lowered = Vec::from_slice(alloc, octets)?;
    lower_names(layout, lowered.as_mut_slice());
    Ok(Octets::from_vec(lowered))
}

/// The data with the letters A to Z of their names as a to z (RFC 4343 section 3), where they are
/// plain, as `plain_rdata` takes them; all others stay as they are (RFC 3597 section 6). Data of a
/// type are the same, as `same_rdata` has it, exactly where they are lowered to the same octets.
pub fn lowered_rdata(alloc: Global, rtype: u16, octets: &[u8]) -> Result<Octets, AllocError>
    ensures { IfOk result (λ lowered. lowered ≡ lowered_rdata rtype octets.now) }
{
    match layout_of(rtype) {
        Some(layout) if is_plain(rtype, octets) => lowered_by(alloc, layout, octets),
        _ => Octets::from_slice(alloc, octets),
    }
}

/// The laws of sameness: the test in its definition tells which data are plain; plain data are
/// lowered name by name, and stay plain; and of data of one type sameness is an equivalence, so
/// which of the same data stands for them makes no difference.
pub fn laws_of_sameness()
    ensures plain { (rtype : ℕ) (octets : List ℕ) → IsTrue (is_plain rtype octets) ↔ IsPlain rtype octets }
    ensures lowered { LowersNames }
    ensures stays_plain { (rtype : ℕ) (octets : List ℕ) → is_plain rtype (lowered_rdata rtype octets) ≡ is_plain rtype octets }
    ensures equivalence { (rtype : ℕ) → IsEquivalence (same_rdata rtype) }
{}
