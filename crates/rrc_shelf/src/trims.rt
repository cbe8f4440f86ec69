// SPDX-License-Identifier: MIT
ghost use Rattle.std.specs.Prelude.{IfErr, IfOk, OnOk};
ghost use Rattle.rrc_shelf.specs.Checks.{number_of, Passes, Refuses};
ghost use Rattle.rrc_shelf.specs.Upkeep.{trim_checks, TrimsShelf, TrimsUntil};

use crate::status::Status;
use crate::terms::TrimTerms;
use rrc_history::{LAST_MOMENT, Tag};
use rrc_share::CacheShelf;

/// What a trim came to.
#[repr(C)]
#[derive(Clone, Copy, Debug)]
pub struct Trimmed {
    /// How many keys went, but for those that held what has no time.
    pub removed: u64,
    /// The octets that the keys take which are left.
    pub octets: u64,
}

/// Whether a trim may be made.
fn check(trim: &TrimTerms) -> Result<(), Status>
    ensures fit { OnOk result (Passes (trim_checks trim.now)) }
    ensures refused { IfErr result (λ status. Refuses (trim_checks trim.now) (number_of status)) }
{
    if trim.limit == 0 || trim.most == 0 {
        return Err(Status::BadRules);
    }
    if trim.moment > LAST_MOMENT {
        return Err(Status::MomentTooLarge);
    }
    Ok(())
}

/// Removes keys of a shelf, the one touched least recently first, until they take no more octets
/// than the limit, or as many went as are to go at most.
pub fn trim(shelf: &mut CacheShelf, terms: &TrimTerms) -> Result<Trimmed, Status>
    ensures ok { IfOk result (λ trimmed. TrimsShelf terms.now trimmed shelf.old shelf.new) }
    ensures err { IfErr result (λ status. TrimsUntil (number_of status) terms.now shelf.old shelf.new) }
{
    check(terms)?;
    let tag = Tag {
        line: terms.line,
        place: 0,
    };
    let removed = shelf.trim(tag, terms.moment, terms.limit, terms.most as usize)?;
    Ok(Trimmed {
        removed: removed as u64,
        octets: shelf.octets(),
    })
}
