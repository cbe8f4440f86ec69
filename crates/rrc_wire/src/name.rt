// SPDX-License-Identifier: MIT
ghost use Rattle.std.specs.Prelude.{◌≡◌, ◌≤◌, length, IfOk};
ghost use Rattle.rrc_name.specs.Wire.{IsWireForm};
ghost use Rattle.rrc_wire.specs.Reading.{Gives};
ghost use Rattle.rrc_wire.specs.Item.{to_end};
ghost use Rattle.rrc_wire.specs.Name.{name_at, standing_at};
ghost use Rattle.rrc_wire.specs.Shown.{as_run};

use crate::fault::WireFault;
use crate::item::{Item, Run, item_at};
use crate::source::{Source, target_of};
use rrc_name::{Name, Octets, Shared};

/// Names with a pointer are read into room for so many octets at first, which is enough for most.
const USUAL_SIZE: usize = 64;

/// A name has at most so many octets in all (RFC 1035 section 2.3.4), and so it has fewer than half
/// as many labels.
const MOST_SIZE: usize = 255;

/// How much room to ask for where a name is read that begins at a place: that of its octets, where
/// it has no pointer. It is only a guess, so that a name which is kept has no room to spare, and no
/// reading rests on it.
fn room_for_name(message: &[u8], place: usize) -> usize
    ensures { result ≤ 255 }
{
    let mut room = 1;
    let mut next = place;
    for _label in 0..MOST_SIZE / 2 {
        match message.get(next) {
            Some(0) => return room.min(MOST_SIZE),
            Some(&size) if size < 64 => {
                room += 1 + usize::from(size);
                next += 1 + usize::from(size);
            }
            _ => return USUAL_SIZE,
        }
    }
    USUAL_SIZE
}

/// The name whose first run begins at a place and may read up to the message's end, and the place
/// behind the name. A pointer to the name that was read last shares it, and takes no memory.
pub(crate) fn read_name(source: &mut Source<'_>, place: usize) -> Result<(Name, usize), WireFault>
    ensures gives { Gives (λ read. read) result (name_at source.old (to_end source.old place)) }
    ensures within { IfOk result (λ read. read.1 ≤ length source.old) }
    ensures same { source.new ≡ source.old }
{
    match target_of(source.message(), place) {
        Some(target) => Ok((name_standing_at(source, target)?, place + 2)),
        None => read_and_remember(source, place),
    }
}

/// The name that stands at a place, shared if it was read last.
fn name_standing_at(source: &mut Source<'_>, place: usize) -> Result<Name, WireFault>
    ensures gives { Gives (λ name. name) result (standing_at source.old place) }
    ensures same { source.new ≡ source.old }
{
    match source.last_name_at(place) {
        Some(name) => Ok(name.clone()?),
        None => {
            let (name, _behind) = read_and_remember(source, place)?;
            Ok(name)
        }
    }
}

/// The name at a place, which is then the one that was read last, and the place behind it.
fn read_and_remember(source: &mut Source<'_>, place: usize) -> Result<(Name, usize), WireFault>
    ensures gives { Gives (λ read. read) result (name_at source.old (to_end source.old place)) }
    ensures within { IfOk result (λ read. read.1 ≤ length source.old) }
    ensures same { source.new ≡ source.old }
{
    let first = Run::to_end(source.message(), place);
    let (wire, behind) = read_wire(source, first)?;
    let name = Name {
        wire: Shared::new(source.alloc(), wire)?,
    };
    source.remember(place, name.clone()?);
    Ok((name, behind))
}

/// The octets of the name whose first run is given, with the pointers in it followed, and the place
/// behind it. A chain of pointers is one step.
pub(crate) fn read_wire(source: &mut Source<'_>, first: Run) -> Result<(Octets, usize), WireFault>
    requires { first.end ≤ length source.old }
    ensures gives { Gives (λ read. read) result (name_at source.old (as_run first)) }
    ensures wire_form { IfOk result (λ read. IsWireForm read.0) }
    ensures within { IfOk result (λ read. read.1 ≤ first.end) }
    ensures same { source.new ≡ source.old }
{
    let message = source.message();
    let room = room_for_name(message, first.start);
    let mut wire = Octets::with_capacity(source.alloc(), room)?;
    let mut run = first;
    let mut place = first.start;
    let mut behind = None;
    loop {
        match item_at(message, run, wire.len(), place)? {
            Item::End => {
                wire.push(0)?;
                return Ok((wire, behind.unwrap_or(place + 1)));
            }
            Item::Label(size) => {
                let next = place + 1 + size;
                wire.extend_from_slice(&message[place..next])?;
                place = next;
            }
            Item::Pointer(target) => {
                behind = Some(behind.unwrap_or(place + 2));
                place = source.end_of_chain(target)?;
                run = Run::to_end(message, place);
            }
        }
    }
}
