// SPDX-License-Identifier: MIT
ghost use Rattle.std.specs.Prelude.{◌≡◌, ◌^◌, length, min, IfOk, IfErr, MatchOption};
ghost use Rattle.std.specs.Option.{IfSome};
ghost use Rattle.rrc_wire.specs.Chain.{PointsTo, PointsNowhere, Leads, AreEnds};
ghost use Rattle.rrc_wire.specs.Name.{IsNameAt};

use crate::fault::WireFault;
use crate::item::{Item, Run, item_at};
use rrc_name::Name;
use std::alloc::Global;
use std::marker::Model;

/// Pointers lead to places below this one (RFC 1035 section 4.1.4).
const POINTED: usize = 1 << 14;

/// A name that was read, and the place where it stands.
#[derive(Drop)]
pub(crate) struct Standing {
    pub(crate) place: usize,
    pub(crate) name: Name,
}

/// A message as it is read, where its chains of pointers end, and the name that was read last.
/// Contracts see its octets.
#[derive(Drop)]
pub(crate) struct Source<'m> {
    alloc: Global,
    message: &'m [u8],
    // For each place that a pointer can lead to, where its chain ends. It is empty until a chain of
    // two pointers is met, so that most messages need none.
    ends: Vec<u16>,
    // Most owners are pointers to the name that was read before them.
    last: Option<Standing>,
}

impl<'m> Model for Source<'m> {
    ghost use Rattle.std.specs.Prelude.{ℕ, List};
    ghost use Rattle.rrc_wire.specs.Chain.{IsTable};
    ghost use Rattle.rrc_wire.specs.Last.{IsLast};

    ghost Value = { List ℕ };

    ghost view = { λ s. s.message.now };

    ghost invariant = { λ s. IsTable s.message.now s.ends.items × IsLast s.message.now s.last };
}

impl<'m> Source<'m> {
    /// A message of which nothing was read. It takes no memory.
    pub(crate) fn new(alloc: Global, message: &'m [u8]) -> Source<'m>
        ensures { result ≡ message.now }
    {
        Source {
            alloc,
            message,
            ends: Vec::new(alloc),
            last: None,
        }
    }

    /// The allocator that what is read is kept by.
    pub(crate) fn alloc(&self) -> Global {
        self.alloc
    }

    /// The message's octets.
    pub(crate) fn message(&self) -> &'m [u8]
        ensures { result.now ≡ self.now }
    {
        self.message
    }

    /// The name that was read last, if it stands at a place.
    pub(crate) fn last_name_at(&self, place: usize) -> Option<&Name>
        ensures { IfSome result (λ name. IsNameAt self.now place name.now) }
    {
        match &self.last {
            Some(last) if last.place == place => Some(&last.name),
            _ => None,
        }
    }

    /// Remembers a name that stands at a place as the one that was read last.
    pub(crate) fn remember(&mut self, place: usize, name: Name)
        requires { IsNameAt self.old place name }
        ensures { self.new ≡ self.old }
    {
        self.last = Some(Standing { place, name });
    }

    /// Where the chain of pointers ends that begins at a place.
    pub(crate) fn end_of_chain(&mut self, place: usize) -> Result<usize, WireFault>
        ensures ok { IfOk result (Leads self.old place) }
        ensures err { IfErr result (λ fault. fault ≡ WireFault.Memory) }
        ensures same { self.new ≡ self.old }
    {
        match target_of(self.message, place) {
            None => Ok(place),
            Some(target) => {
                if self.ends.is_empty() {
                    self.ends = ends_of(self.alloc, self.message)?;
                }
                Ok(usize::from(self.ends[target]))
            }
        }
    }
}

/// Where the pointer leads that stands at a place, if a pointer to a lower one does.
pub(crate) fn target_of(message: &[u8], place: usize) -> Option<usize>
    ensures { MatchOption result (PointsNowhere message.now place) (PointsTo message.now place) }
{
    match item_at(message, Run::to_end(message, place), 0, place) {
        Ok(Item::Pointer(target)) => Some(target),
        Ok(Item::End | Item::Label(_)) => None,
        Err(_) => None,
    }
}

/// Where the chains of pointers end that begin at the places of a message.
fn ends_of(alloc: Global, message: &[u8]) -> Result<Vec<u16>, WireFault>
    ensures ok { IfOk result (λ ends. AreEnds message.now ends.items) }
    ensures whole { IfOk result (λ ends. length ends.items ≡ min (length message.now) (2 ^ 14)) }
    ensures err { IfErr result (λ fault. fault ≡ WireFault.Memory) }
{
    let size = message.len().min(POINTED);
    let mut ends = Vec::with_capacity(alloc, size)?;
    for place in 0..size {
        let end = match target_of(message, place) {
            Some(target) => ends[target],
            None => place as u16,
        };
        ends.push(end)?;
    }
    Ok(ends)
}
