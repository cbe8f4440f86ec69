// SPDX-License-Identifier: MIT
ghost use Rattle.std.specs.Prelude.{◌≡◌, ◌∷◌, ◌++◌, [], length, take, drop, IfOk, IfErr};
ghost use Rattle.std.specs.Option.{option_map};
ghost use Rattle.rrc_archive.specs.Archive.{line_text};
ghost use Rattle.rrc_shelf.specs.Upkeep.{line_at, LineDue, TellsLine};
ghost use Rattle.rrc_shelf.specs.Checks.{number_of, OnDone, OnRefused, OutOfMemory};
ghost use Rattle.rrc_shelf.specs.Asks.{IsFilled};

use crate::status::{NO_LINE, Status};
use crate::terms::LinePlace;
use crate::text::put;
use rrc_archive::{ArchiveLine, archive_line, write_archive_line};
use rrc_history::Chapter;
use std::alloc::Global;

/// How many octets a line of a chapter has, with its LF, and how many of them were written.
#[repr(C)]
#[derive(Clone, Copy, Debug)]
pub struct Line {
    pub size: u64,
    pub written: u64,
}

/// A line of a chapter, both counted from 0, where there are both.
fn line_at<'a>(chapters: &'a [Chapter], place: &LinePlace) -> Option<ArchiveLine<'a>>
    ensures { option_map line_text result ≡ line_at chapters.now place.now }
{
    let chapter = chapters.get(place.chapter as usize)?;
    archive_line(chapter, place.line as usize)
}

/// The text of a line, with its LF.
fn text_of(alloc: Global, line: ArchiveLine<'_>) -> Result<Vec<u8>, Status>
    ensures text { IfOk result (λ text. text.items ≡ line_text line.entry ++ 10 ∷ []) }
    ensures memory { IfErr result (λ status. OutOfMemory (number_of status)) }
{
    let mut text = Vec::new(alloc);
    match write_archive_line(alloc, &mut text, line) {
        Ok(()) => Ok(text),
        Err(_) => Err(Status::Memory),
    }
}

/// The octets from a place on.
fn behind(text: &[u8], from: u64) -> &[u8]
    ensures { result.now ≡ drop from text.now }
{
    text.get(from as usize..).unwrap_or(&[])
}

/// Writes octets to the front of a buffer, as many as fit, and tells how many they are.
fn fill_with(buffer: &mut [u8], octets: &[u8]) -> u64
    ensures filled { IsFilled buffer.old (take (length buffer.old) octets.now) buffer.new }
    ensures written { result ≡ length (take (length buffer.old) octets.now) }
{
    let size = octets.len().min(buffer.len());
    put(buffer, 0, &octets[..size]);
    size as u64
}

/// Tells of a line of a chapter the octets from a place on, as many as fit the buffer.
pub fn tell_line(
    alloc: Global,
    chapters: &[Chapter],
    place: &LinePlace,
    buffer: &mut [u8],
    told: &mut Line,
) -> u32
    ensures due { LineDue chapters.now place.now result }
    ensures done { OnDone result (TellsLine chapters.now place.now told.new buffer.old buffer.new) }
    ensures told { OnRefused result (told.new ≡ told.old) }
    ensures buffer { OnRefused result (buffer.new ≡ buffer.old) }
{
    let Some(line) = line_at(chapters, place) else {
        return NO_LINE;
    };
    match text_of(alloc, line) {
        Err(status) => status.number(),
        Ok(text) => {
            let text = text.as_slice();
            let written = fill_with(buffer, behind(text, place.from));
            *told = Line {
                size: text.len() as u64,
                written,
            };
            0
        }
    }
}
