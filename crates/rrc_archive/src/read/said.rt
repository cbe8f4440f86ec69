// SPDX-License-Identifier: MIT
ghost use Rattle.std.specs.Prelude.{◌≡◌, ◌↔◌, ◌∷◌, ◌++◌, [], IsTrue, IfOk};
ghost use Rattle.rrc_archive.specs.Archive.{line_text};
ghost use Rattle.rrc_archive.specs.ArchiveLines.{said_text};
ghost use Rattle.rrc_archive.specs.Tells.{IfNotOne};

use crate::archive::ArchiveLine;
use crate::write::archive::write_archive_line;
use rrc_history::{Entry, Event, Rules};
use rrc_text::LineFault;
use std::alloc::Global;

/// What the fields of a line of an archive say. Other lines may say the same, as with more spaces,
/// until it is compared with the line that is written of it.
#[derive(Drop)]
pub(crate) enum Said {
    Chapter {
        number: u64,
        first: u64,
        rules: Rules,
    },
    Entry(Entry),
    Event(Event),
}

impl Said {
    fn line(&self) -> ArchiveLine<'_>
        ensures { line_text result ≡ said_text self.now }
    {
        match self {
            Said::Chapter {
                number,
                first,
                rules,
            } => ArchiveLine::Chapter {
                number: *number,
                first: *first,
                rules: *rules,
            },
            Said::Entry(entry) => ArchiveLine::Entry(entry),
            Said::Event(event) => ArchiveLine::Event(event),
        }
    }

    /// Whether it is written as just this line, which has its LF. It is written to a buffer whose
    /// octets are not needed any more.
    pub(crate) fn is_written_as(
        &self,
        alloc: Global,
        buffer: &mut Vec<u8>,
        line: &[u8],
    ) -> Result<bool, LineFault>
        ensures spelled { IfOk result (λ is. IsTrue is ↔ (line.now ≡ said_text self.now ++ 10 ∷ [])) }
        ensures memory { IfNotOne result ⊥ }
    {
        buffer.clear();
        match write_archive_line(alloc, buffer, self.line()) {
            Ok(()) => Ok(buffer.as_slice() == line),
            Err(_) => Err(LineFault::Memory),
        }
    }
}
