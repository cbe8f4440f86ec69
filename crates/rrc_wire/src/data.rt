// SPDX-License-Identifier: MIT
ghost use Rattle.std.specs.Prelude.{◌≡◌, ◌≤◌, ◌+◌, length, IfOk};
ghost use Rattle.rrc_wire.specs.Reading.{Gives, times};
ghost use Rattle.rrc_wire.specs.Plain.{Fills, IsPlain};
ghost use Rattle.rrc_wire.specs.Shown.{as_layout};
ghost use Rattle.rrc_wire.specs.Data.{data_at, laid_out_at, name_in_data};

use crate::fault::WireFault;
use crate::item::Run;
use crate::layout::{Layout, layout_of};
use crate::name::read_wire;
use crate::source::Source;
use rrc_name::Octets;

/// So many names one after another in the data of a record, which end at `end`, behind the data
/// before them; and the place behind them.
fn read_names(
    source: &mut Source<'_>,
    names: u8,
    mut before: Octets,
    place: usize,
    end: usize,
) -> Result<(Octets, usize), WireFault>
    requires { end ≤ length source.old }
    ensures gives { Gives (λ read. read) result (times (name_in_data source.old end) names before place) }
    ensures fills { IfOk result (λ read. Fills (record { before = length before; names = names; behind = 0 }) read.0) }
    ensures same { source.new ≡ source.old }
{
    let mut next = place;
    for _ in 0..names {
        let (name, behind) = read_wire(source, Run::in_data(next, end))?;
        before.extend_from_slice(name.as_slice())?;
        next = behind;
    }
    Ok((before, next))
}

/// The data from `place` to `end` of a layout, with their names expanded.
fn read_laid_out(
    source: &mut Source<'_>,
    layout: Layout,
    place: usize,
    end: usize,
) -> Result<Octets, WireFault>
    requires begins { place ≤ end }
    requires ends { end ≤ length source.old }
    ensures gives { Gives (λ octets. octets) result (laid_out_at source.old (as_layout layout) place end) }
    ensures fills { IfOk result (Fills (as_layout layout)) }
    ensures same { source.new ≡ source.old }
{
    let message = source.message();
    let before = usize::from(layout.before);
    if before > end - place {
        return Err(WireFault::BadData);
    }
    let names = place + before;
    let data = Octets::from_slice(source.alloc(), &message[place..names])?;
    let (mut data, next) = read_names(source, layout.names, data, names, end)?;
    if next > end || end - next != usize::from(layout.behind) {
        return Err(WireFault::BadData);
    }
    data.extend_from_slice(&message[next..end])?;
    Ok(data)
}

/// The data from `place` to `end` of a kept record, with the names in them expanded, so that they
/// are plain data of its type. There are as many as RDLENGTH tells, which has 16 bits.
pub(crate) fn read_data(
    source: &mut Source<'_>,
    rtype: u16,
    place: usize,
    end: usize,
) -> Result<Octets, WireFault>
    requires begins { place ≤ end }
    requires ends { end ≤ length source.old }
    requires short { end ≤ place + 65535 }
    ensures gives { Gives (λ octets. octets) result (data_at source.old rtype place end) }
    ensures plain { IfOk result (IsPlain rtype) }
    ensures same { source.new ≡ source.old }
{
    match layout_of(rtype) {
        Some(layout) => read_laid_out(source, layout, place, end),
        None => Ok(Octets::from_slice(source.alloc(), &source.message()[place..end])?),
    }
}
