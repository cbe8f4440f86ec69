// SPDX-License-Identifier: MIT
ghost use Rattle.std.specs.Prelude.{◌≡◌, ◌++◌, ◌∷◌, [], OnOk, IfOk};
ghost use Rattle.std.specs.List.{flat_map};
ghost use Rattle.rrc_archive.specs.Archive.{line_text};
ghost use Rattle.rrc_page.specs.Texts.{event_line, histories_text, part_text};

use rrc_archive::{ArchiveLine, write_archive_line};
use rrc_history::{Event, Whole};
use std::alloc::{AllocError, Global};

/// Puts a line of an archive behind a text.
fn put_line(alloc: Global, text: &mut Vec<u8>, line: ArchiveLine<'_>) -> Result<(), AllocError>
    ensures { OnOk result (text.new.items ≡ text.old.items ++ (line_text line.entry ++ 10 ∷ [])) }
{
    match write_archive_line(alloc, text, line) {
        Ok(()) => Ok(()),
        Err(_) => Err(AllocError),
    }
}

/// Puts a line for each event behind a text.
fn put_events(alloc: Global, text: &mut Vec<u8>, events: &[Event]) -> Result<(), AllocError>
    ensures { OnOk result (text.new.items ≡ text.old.items ++ flat_map event_line events.now) }
{
    for event in events {
        put_line(alloc, text, ArchiveLine::Event(event))?;
    }
    Ok(())
}

/// Puts the history of a part behind a text.
fn put_part(alloc: Global, text: &mut Vec<u8>, whole: &Whole) -> Result<(), AllocError>
    ensures { OnOk result (text.new.items ≡ text.old.items ++ part_text whole.now) }
{
    let head = ArchiveLine::Chapter {
        number: 1,
        first: whole.snapshot.first,
        rules: whole.snapshot.rules(),
    };
    put_line(alloc, text, head)?;
    put_events(alloc, text, whole.events.as_slice())
}

/// The histories of parts, each as an archive of one chapter tells it.
pub(crate) fn histories_text(alloc: Global, wholes: &[Whole]) -> Result<Vec<u8>, AllocError>
    ensures { IfOk result (λ text. text.items ≡ histories_text wholes.now) }
{
    let mut text = Vec::new(alloc);
    for whole in wholes {
        put_part(alloc, &mut text, whole)?;
    }
    Ok(text)
}
