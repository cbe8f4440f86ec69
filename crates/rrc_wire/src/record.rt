// SPDX-License-Identifier: MIT
ghost use Rattle.std.specs.Prelude.{◌≡◌, ◌≤◌, ◌&&◌, ◌==◌, [], length, IfOk};
ghost use Rattle.std.specs.Option.{option_to_list};
ghost use Rattle.rrc_wire.specs.Reading.{Gives, times};
ghost use Rattle.rrc_wire.specs.Record.{record_at, section_at};

use crate::data::read_data;
use crate::fault::WireFault;
use crate::field::{long_at, within, word_at};
use crate::layout::is_kept;
use crate::name::read_name;
use crate::source::Source;
use rrc_name::{Name, Octets, Sequence};
use std::alloc::AllocError;
use std::marker::Model;

/// A kept record (RFC 1035 section 4.1.3): its type is one that is kept in its class, and its data
/// are plain data of that type, since the names in them are expanded.
#[derive(Debug, Drop, PartialEq, Eq)]
pub struct Rr {
    pub owner: Name,
    pub class: u16,
    pub rtype: u16,
    /// As it is written, in seconds, all 32 bits (RFC 2181 section 8).
    pub ttl: u32,
    pub rdata: Octets,
}

impl Model for Rr {
    ghost use Rattle.rrc_wire.specs.Kept.{RrOf, AreKept};

    ghost Value = { RrOf };

    ghost view = { λ r. record { owner = r.owner; class = r.class; rtype = r.rtype; ttl = r.ttl; rdata = r.rdata } };

    ghost invariant = { λ r. AreKept r.rtype r.class r.rdata };

    ghost inverse = { λ r. record { owner = r.owner; class = r.class; rtype = r.rtype; ttl = r.ttl; rdata = r.rdata } };
}

impl Clone for Rr {
    ghost use Rattle.std.specs.Prelude.{◌≡◌};

    ghost is_clone = { λ a b. b ≡ a };

    fn clone(&self) -> Result<Rr, AllocError> {
        Ok(Rr {
            owner: self.owner.clone()?,
            class: self.class,
            rtype: self.rtype,
            ttl: self.ttl,
            rdata: self.rdata.clone()?,
        })
    }
}

/// The record at a place, where it is kept, and the place behind it.
fn read_record(source: &mut Source<'_>, place: usize) -> Result<(Option<Rr>, usize), WireFault>
    ensures gives { Gives (λ read. (option_to_list read.0, read.1)) result (record_at source.old place) }
    ensures same { source.new ≡ source.old }
{
    let message = source.message();
    let (owner, fields) = read_name(source, place)?;
    let data = within(message, fields, 10)?;
    let end = within(message, data, usize::from(word_at(message, fields + 8)))?;
    let rtype = word_at(message, fields);
    let class = word_at(message, fields + 2);
    if !is_kept(rtype, class) {
        return Ok((None, end));
    }
    let rr = Rr {
        owner,
        class,
        rtype,
        ttl: long_at(message, fields + 4),
        rdata: read_data(source, rtype, data, end)?,
    };
    Ok((Some(rr), end))
}

/// The kept ones of so many records from a place on, and the place behind them.
#[tactic(auto, unfolding(crate::specs::Record::section_at))]
pub(crate) fn read_section(
    source: &mut Source<'_>,
    records: u16,
    place: usize,
) -> Result<(Sequence<Rr>, usize), WireFault>
    ensures gives { Gives (λ read. read) result (section_at source.old records place) }
    ensures same { source.new ≡ source.old }
{
    let mut kept = Sequence::new(source.alloc());
    let mut next = place;
    for _ in 0..records {
        let (rr, behind) = read_record(source, next)?;
        match rr {
            Some(rr) => kept.push(rr)?,
            None => {}
        }
        next = behind;
    }
    Ok((kept, next))
}
