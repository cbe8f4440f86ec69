// SPDX-License-Identifier: MIT
ghost use Rattle.std.specs.Prelude.{◌≡◌, ◌++◌, ◌-◌, take, length, IfOk, IfErr, MatchOption, OnOk};
ghost use Rattle.rrc_archive.specs.Archive.{archive_text};
ghost use Rattle.rrc_archive.specs.ArchiveFaults.{TellsNoArchive, TellsFirstLine};
ghost use Rattle.rrc_archive.specs.ArchiveFields.{entry_of};
ghost use Rattle.rrc_archive.specs.ArchiveSaid.{told_by, head_of, said_of, GoesOnNowhere};
ghost use Rattle.rrc_text.specs.Gives.{Gives};
ghost use Rattle.rrc_archive.specs.Tells.{Tells, IfNotOne};
ghost use Rattle.rrc_archive.specs.ArchiveLaw.{OneArchive, IsOnlyArchive, HoldsEntry, HoldsChapter};
ghost use Rattle.rrc_text.specs.Cuts.{IsUnended};
ghost use Rattle.std.specs.List.{AllByRecursion};
ghost use Rattle.rrc_archive.specs.ArchiveLines.{HoldsSaid, IsFaultOfArchive, IsCutBehindLf};

use crate::archive::{ArchiveFault, WrittenChapter};
use crate::read::body::body_at;
use crate::read::chapters::Chapters;
use crate::read::event::{asked_in, offered_in, swept_in};
use crate::read::number::count_at;
use crate::read::said::Said;
use crate::read::slot::key_at;
use rrc_history::{Entry, Rules};
use rrc_text::{LineFault, field_at, first_lf};
use std::alloc::Global;

/// What a line says whose first word was `chapter`.
#[tactic(auto, unfolding(crate::specs::ArchiveSaid::head_of))]
fn head_in(octets: &[u8]) -> Result<Said, LineFault>
    ensures held { IfOk result HoldsSaid }
    ensures exact { Tells told_by result (head_of octets.now) }
{
    let (number, rest) = count_at(octets)?;
    let (first, rest) = count_at(rest)?;
    let (capacity, rest) = count_at(rest)?;
    let (chapter, rest) = count_at(rest)?;
    let (stale, _) = count_at(rest)?;
    match Rules::new(capacity, chapter, stale) {
        Some(rules) => Ok(Said::Chapter {
            number,
            first,
            rules,
        }),
        None => Err(LineFault::NotOne),
    }
}

/// The entry of a line whose first word was `entry`.
#[tactic(auto, unfolding(crate::specs::ArchiveFields::entry_of))]
fn entry_in(alloc: Global, octets: &[u8]) -> Result<Entry, LineFault>
    ensures held { IfOk result HoldsEntry }
    ensures exact { Gives (λ entry. entry) result (entry_of octets.now) }
{
    let (number, rest) = count_at(octets)?;
    let (moment, rest) = count_at(rest)?;
    let (key, rest) = key_at(alloc, rest)?;
    let (body, _) = body_at(alloc, rest)?;
    Ok(Entry {
        key,
        body,
        moment,
        number,
    })
}

/// What the fields of a line without its LF say. Whether there are more of them is not looked at.
#[tactic(auto, unfolding(crate::specs::ArchiveSaid::said_of))]
fn said_in(alloc: Global, octets: &[u8]) -> Result<Said, LineFault>
    ensures held { IfOk result HoldsSaid }
    ensures exact { Tells told_by result (said_of octets.now) }
{
    let (word, rest) = field_at(octets)?;
    if word == b"chapter".as_slice() {
        head_in(rest)
    } else if word == b"entry".as_slice() {
        Ok(Said::Entry(entry_in(alloc, rest)?))
    } else if word == b"offer".as_slice() {
        Ok(Said::Event(offered_in(alloc, rest)?))
    } else if word == b"ask".as_slice() {
        Ok(Said::Event(asked_in(alloc, rest)?))
    } else if word == b"sweep".as_slice() {
        Ok(Said::Event(swept_in(alloc, rest)?))
    } else {
        Err(LineFault::NotOne)
    }
}

/// The octets of a line before its LF.
fn without_lf(line: &[u8]) -> &[u8]
    ensures { result.now ≡ take (length line.now - 1) line.now }
{
    &line[..line.len().saturating_sub(1)]
}

/// Puts what a line with its LF tells behind what those before it told. What its fields say is
/// written again: of all lines whose fields say the same, this has to be the one that is written.
fn add_line(
    alloc: Global,
    chapters: &mut Chapters,
    buffer: &mut Vec<u8>,
    line: &[u8],
) -> Result<(), LineFault>
    requires { AllByRecursion HoldsChapter chapters.old }
    ensures held { OnOk result (AllByRecursion HoldsChapter chapters.new) }
    ensures text { OnOk result (archive_text chapters.new ≡ archive_text chapters.old ++ line.now) }
    ensures refused { IfNotOne result (GoesOnNowhere chapters.old line.now) }
{
    let said = said_in(alloc, without_lf(line))?;
    if !said.is_written_as(alloc, buffer, line)? {
        return Err(LineFault::NotOne);
    }
    chapters.add(alloc, said)
}

/// The first line with its LF, and the octets behind it. `None` where there is no LF.
fn cut_behind_lf(octets: &[u8]) -> Option<(&[u8], &[u8])>
    ensures { MatchOption result (IsUnended octets.now) (λ cut. IsCutBehindLf octets.now cut.0.now cut.1.now) }
{
    let end = first_lf(octets)?;
    Some(octets.split_at(end + 1))
}

/// The chapters that an archive tells. Octets are one where they are just what is written of these
/// chapters, octet for octet.
///
/// `BadLine` tells the first line at which they are none: the lines before it are an archive, and
/// with that line none goes on, whatever is behind it. So each archive is read, but for want of
/// memory. `Memory` comes at will. The time goes with the octets, and so does the memory.
pub fn read_archive(alloc: Global, octets: &[u8]) -> Result<Vec<WrittenChapter>, ArchiveFault>
    ensures ok { IfOk result (λ chapters. octets.now ≡ archive_text chapters.items) }
    ensures held { IfOk result (λ chapters. AllByRecursion HoldsChapter chapters.items) }
    ensures only { IfOk result (λ chapters. IsOnlyArchive octets.now chapters.items) }
    ensures line { IfErr result (IsFaultOfArchive octets.now) }
    ensures none { IfErr result (TellsNoArchive octets.now) }
    ensures first { IfErr result (TellsFirstLine octets.now) }
{
    let mut chapters = Chapters::new(alloc);
    let mut buffer = Vec::new(alloc);
    let mut rest = octets;
    let mut number = 0;
    while let Some((line, behind)) = cut_behind_lf(rest) {
        match add_line(alloc, &mut chapters, &mut buffer, line) {
            Ok(()) => {}
            Err(LineFault::NotOne) => return Err(ArchiveFault::BadLine(number)),
            Err(LineFault::Memory) => return Err(ArchiveFault::Memory),
        }
        rest = behind;
        number += 1;
    }
    if !rest.is_empty() {
        return Err(ArchiveFault::BadLine(number));
    }
    Ok(chapters.into_vec()?)
}

/// Octets are the archive of one list of chapters at most, so what is read of them is what was
/// written. The function does nothing; its contract is the law.
pub fn one_archive()
    ensures { OneArchive }
{}
