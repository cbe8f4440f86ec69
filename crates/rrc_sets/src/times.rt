// SPDX-License-Identifier: MIT
ghost use Rattle.std.specs.Prelude.{◌≡◌, ◌≤◌, IfSome, slice_index};
ghost use Rattle.rrc_sets.specs.Life.{life, lowest_life, are_one, set_life};

use crate::limits::Limits;

/// The seconds that data live whose time to live is written so (RFC 2181 section 8, RFC 8767
/// section 4): no more than the cap. A time to live with its top bit set is a large one, so it is
/// capped too. It takes no memory.
pub fn life(ttl: u32, limits: &Limits) -> u32
    ensures { result ≡ life ttl limits.now }
{
    ttl.min(limits.cap)
}

/// The first of some times, or 0.
fn first_of(ttls: &[u32]) -> u32
    ensures { result ≡ slice_index ttls.now 0 }
{
    if ttls.is_empty() { 0 } else { ttls[0] }
}

/// Whether all times are the same, as they are written.
fn are_one(ttls: &[u32]) -> bool
    ensures { result ≡ are_one ttls.now }
{
    let first = first_of(ttls);
    ttls.iter().all(|ttl| *ttl == first)
}

/// The lowest life of times to live.
fn lowest_life(ttls: &[u32], limits: &Limits) -> u32
    ensures value { result ≡ lowest_life limits.now ttls.now }
    ensures capped { result ≤ limits.now.cap }
{
    let mut lowest = limits.cap;
    for ttl in ttls {
        lowest = lowest.min(life(*ttl, limits));
    }
    lowest
}

/// The life of a set whose records have these times to live (RFC 2181 section 5.2), and none where
/// they differ and may not: they may in a reply that is authoritative.
pub(crate) fn set_life(ttls: &[u32], may_differ: bool, limits: &Limits) -> Option<u32>
    ensures value { result ≡ set_life limits.now may_differ ttls.now }
    ensures capped { IfSome result (λ ttl. ttl ≤ limits.now.cap) }
{
    if may_differ || are_one(ttls) {
        Some(lowest_life(ttls, limits))
    } else {
        None
    }
}
