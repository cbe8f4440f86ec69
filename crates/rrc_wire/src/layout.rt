// SPDX-License-Identifier: MIT
ghost use Rattle.std.specs.Prelude.{◌≡◌};
ghost use Rattle.std.specs.Option.{option_map};
ghost use Rattle.rrc_wire.specs.Shown.{as_layout};
ghost use Rattle.rrc_wire.specs.Layout.{layout_of, is_kept_type, is_kept_class, is_kept};

use rrc_name::class::CH;
use rrc_name::rtype::A;

/// How the data of a type stand in a message: fixed octets, names, fixed octets.
#[derive(Clone, Copy, Debug, PartialEq, Eq)]
pub(crate) struct Layout {
    pub(crate) before: u8,
    pub(crate) names: u8,
    pub(crate) behind: u8,
}

fn row(before: u8, names: u8, behind: u8) -> Option<Layout>
    ensures { result ≡ Some (record { before = before; names = names; behind = behind }) }
{
    Some(Layout {
        before,
        names,
        behind,
    })
}

/// The layout of a type whose data hold names (RFC 1035 section 3.3, RFC 1183, RFC 2163 and RFC
/// 2782), or `None` where they are opaque octets.
#[tactic(auto, unfolding(crate::specs::Layout::layout_of))]
pub(crate) fn layout_of(rtype: u16) -> Option<Layout>
    ensures { option_map as_layout result ≡ layout_of rtype }
{
    match rtype {
        // NS, MD, MF, CNAME, MB, MG, MR, PTR
        2 | 3 | 4 | 5 | 7 | 8 | 9 | 12 => row(0, 1, 0),
        // SOA, whose last four octets are MINIMUM
        6 => row(0, 2, 20),
        // MINFO, RP
        14 | 17 => row(0, 2, 0),
        // MX, AFSDB, RT
        15 | 18 | 21 => row(2, 1, 0),
        // PX
        26 => row(2, 2, 0),
        // SRV
        33 => row(6, 1, 0),
        _ => None,
    }
}

/// Whether records of a type are kept in some class.
fn is_kept_type(rtype: u16) -> bool
    ensures { result ≡ is_kept_type rtype }
{
    !matches!(rtype, 0 | 24 | 30 | 35 | 41 | 46 | 128..=255)
}

/// Whether records of a class are kept: IN (1), CH (3) and HS (4) (RFC 1035 section 3.2.4). It
/// takes no memory.
pub fn is_kept_class(class: u16) -> bool
    ensures { result ≡ is_kept_class class }
{
    matches!(class, 1 | 3 | 4)
}

/// Whether records of a type are kept in a class: in IN (1) and HS (4) every type but 0, SIG (24),
/// NXT (30), NAPTR (35), OPT (41), RRSIG (46), and the types 128 to 255 of questions and of
/// messages; in CH (3) the same but A (1), whose data hold a name there. It takes no memory.
pub fn is_kept(rtype: u16, class: u16) -> bool
    ensures { result ≡ is_kept rtype class }
{
    is_kept_type(rtype) && is_kept_class(class) && !(rtype == A && class == CH)
}
