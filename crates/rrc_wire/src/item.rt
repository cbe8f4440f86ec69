// SPDX-License-Identifier: MIT
ghost use Rattle.std.specs.Prelude.{◌≡◌, ◌<◌, ◌≤◌, length};
ghost use Rattle.rrc_wire.specs.Item.{item_at, label_at, pointer_at, to_end, in_data};
ghost use Rattle.rrc_wire.specs.Reading.{Agrees};
ghost use Rattle.rrc_wire.specs.Shown.{as_item, as_run};

use crate::fault::WireFault;
use crate::field::word_at;

/// What stands at a place of a name (RFC 1035 section 4.1.4).
#[derive(Clone, Copy)]
pub(crate) enum Item {
    /// The zero octet that ends a name.
    End,
    /// A label of 1 to 63 octets, behind its length octet.
    Label(usize),
    /// The name goes on at this place, in a new run.
    Pointer(usize),
}

/// A run of labels: where it began, the place that it may not pass, and the fault of passing it.
#[derive(Clone, Copy)]
pub(crate) struct Run {
    pub(crate) start: usize,
    pub(crate) end: usize,
    pub(crate) past: WireFault,
}

impl Run {
    /// The run that begins at a place and may read up to the message's end.
    pub(crate) fn to_end(message: &[u8], start: usize) -> Run
        ensures { as_run result ≡ to_end message.now start }
    {
        Run {
            start,
            end: message.len(),
            past: WireFault::Short,
        }
    }

    /// The run that begins in the data of a record, which end at `end`.
    pub(crate) fn in_data(start: usize, end: usize) -> Run
        ensures { as_run result ≡ in_data start end }
    {
        Run {
            start,
            end,
            past: WireFault::BadData,
        }
    }
}

/// A label of so many octets, in a name that has `size` octets before it.
fn label_at(run: Run, size: usize, place: usize, octets: usize) -> Result<Item, WireFault>
    requires size { size ≤ 255 }
    requires label { octets < 64 }
    requires place { place < run.end }
    ensures { Agrees as_item result (label_at (as_run run) size place octets) }
{
    if size + octets + 2 > 255 {
        return Err(WireFault::NameTooLong);
    }
    if octets >= run.end - place {
        return Err(run.past);
    }
    Ok(Item::Label(octets))
}

/// The pointer whose first octet stands at a place.
fn pointer_at(message: &[u8], run: Run, place: usize) -> Result<Item, WireFault>
    requires within { run.end ≤ length message.now }
    requires place { place < run.end }
    ensures { Agrees as_item result (pointer_at message.now (as_run run) place) }
{
    if run.end - place < 2 {
        return Err(run.past);
    }
    let target = usize::from(word_at(message, place) & 0x3fff);
    if target >= run.start {
        return Err(WireFault::BadPointer);
    }
    Ok(Item::Pointer(target))
}

/// The item at a place, of a name that has `size` octets before it.
pub(crate) fn item_at(
    message: &[u8],
    run: Run,
    size: usize,
    place: usize,
) -> Result<Item, WireFault>
    requires within { run.end ≤ length message.now }
    requires size { size ≤ 255 }
    ensures { Agrees as_item result (item_at message.now (as_run run) size place) }
{
    if place >= run.end {
        return Err(run.past);
    }
    match message[place] {
        0 => Ok(Item::End),
        octet @ 1..64 => label_at(run, size, place, usize::from(octet)),
        64..192 => Err(WireFault::ReservedLabel),
        192.. => pointer_at(message, run, place),
    }
}
