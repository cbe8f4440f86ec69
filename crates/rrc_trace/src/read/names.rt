// SPDX-License-Identifier: MIT
ghost use Rattle.std.specs.Prelude.{◌≡◌, Some, IfSome};
ghost use Rattle.rrc_text.specs.Fields.{said_at};
ghost use Rattle.rrc_text.specs.Gives.{Gives};
ghost use Rattle.rrc_text.specs.Names.{name_of};

use rrc_name::{Name, Octets};
use rrc_text::{LineFault, field_at, name_in};
use std::alloc::{AllocError, Global};
use std::hash::{FoldHasher, Hasher};
use std::marker::Model;

/// So many names have a place at first.
const FIRST_PLACES: usize = 64;

/// No more names than these have a place.
const MOST_PLACES: usize = 65_536;

/// A field of a line, and the name that it spells.
#[derive(Drop)]
struct Spelling {
    field: Octets,
    name: Name,
}

impl Model for Spelling {
    ghost use Rattle.std.specs.Prelude.{◌≡◌, ⊤, Some};
    ghost use Rattle.rrc_text.specs.Names.{name_of};

    ghost Value = { ⊤ };

    ghost view = { λ _. tt };

    ghost invariant = { λ s. name_of s.field ≡ Some s.name };
}

/// The names that were read not long ago, each at the place that its field has: the lines of a
/// trace are mostly about few names, and then share them.
#[derive(Drop)]
pub(crate) struct Names {
    spellings: Vec<Option<Spelling>>,
    /// How many names have been read since there are so many places.
    read: usize,
}

/// So many places with no name.
fn places(alloc: Global, count: usize) -> Result<Vec<Option<Spelling>>, AllocError> {
    let mut spellings = Vec::with_capacity(alloc, count)?;
    for _ in 0..count {
        spellings.push(None)?;
    }
    Ok(spellings)
}

/// A number that differs for most fields. Fields of one number share a place in turn, and nothing
/// else comes of it: a trace whose fields are picked to share one takes as long as one whose names
/// are all different.
fn number_of(field: &[u8]) -> u64 {
    let mut hasher = FoldHasher::default();
    hasher.write(field);
    hasher.finish()
}

impl Names {
    /// No names.
    pub(crate) fn new(alloc: Global) -> Result<Names, AllocError> {
        Ok(Names {
            spellings: places(alloc, FIRST_PLACES)?,
            read: 0,
        })
    }

    /// The place of a field. There is a power of two of places.
    fn place_of(&self, field: &[u8]) -> usize {
        number_of(field) as usize & (self.spellings.len().wrapping_sub(1))
    }

    /// The name that was last read from a field that is spelled so, where it still has its place.
    fn name_at(&self, place: usize, field: &[u8]) -> Option<&Name>
        ensures { IfSome result (λ name. name_of field.now ≡ Some name.now) }
    {
        match self.spellings.get(place) {
            Some(Some(spelling)) if spelling.field.as_slice() == field => Some(&spelling.name),
            _ => None,
        }
    }

    /// Gives a spelling a place, and all names more places once as many were read as there are.
    /// Those that had one lose it then.
    fn keep(&mut self, alloc: Global, place: usize, spelling: Spelling) -> Result<(), AllocError> {
        let count = self.spellings.len();
        if self.read < count || count >= MOST_PLACES {
            self.read = self.read.wrapping_add(1);
            if let Some(kept) = self.spellings.get_mut(place) {
                *kept = Some(spelling);
            }
        } else {
            self.spellings = places(alloc, count * 4)?;
            self.read = 0;
        }
        Ok(())
    }

    /// The name that a field spells, shared where it was read not long ago.
    fn name_in(&mut self, alloc: Global, field: &[u8]) -> Result<Name, LineFault>
        ensures { Gives (λ name. name) result (name_of field.now) }
    {
        let place = self.place_of(field);
        if let Some(name) = self.name_at(place, field) {
            return Ok(name.clone()?);
        }
        let name = name_in(alloc, field)?;
        let spelling = Spelling {
            field: Octets::from_slice(alloc, field)?,
            name: name.clone()?,
        };
        self.keep(alloc, place, spelling)?;
        Ok(name)
    }
}

/// A name, and the octets behind it.
pub(crate) fn name_at<'a>(
    alloc: Global,
    names: &mut Names,
    octets: &'a [u8],
) -> Result<(Name, &'a [u8]), LineFault>
    ensures { Gives (λ found. (found.0, found.1.now)) result (said_at name_of octets.now) }
{
    let (field, rest) = field_at(octets)?;
    Ok((names.name_in(alloc, field)?, rest))
}
