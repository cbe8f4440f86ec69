// SPDX-License-Identifier: MIT
ghost use Rattle.std.specs.Prelude.{◌≡◌};
ghost use Rattle.rrc_text.specs.Gives.{Gives};
ghost use Rattle.rrc_text.specs.Names.{name_of, SaysWhatIsSpelled};

use crate::read::line_fault::LineFault;
use rrc_name::{Name, NameFault};
use std::alloc::Global;
use std::str;

/// The name that a field spells, in its spelling.
pub fn name_in(alloc: Global, field: &[u8]) -> Result<Name, LineFault>
    ensures { Gives (λ name. name) result (name_of field.now) }
{
    if !field.is_ascii() {
        return Err(LineFault::NotOne);
    }
    let Ok(text) = str::from_utf8(field) else {
        return Err(LineFault::NotOne);
    };
    match Name::from_text(alloc, text) {
        Ok(name) => Ok(name),
        Err(NameFault::Memory) => Err(LineFault::Memory),
        Err(_) => Err(LineFault::NotOne),
    }
}

/// A field says the name that it spells, and where it spells none it says none (RFC 1035 section
/// 5.1). The function does nothing; its contract is the law.
pub fn names_are_spelled()
    ensures { SaysWhatIsSpelled }
{}
