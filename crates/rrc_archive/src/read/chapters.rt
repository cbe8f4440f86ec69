// SPDX-License-Identifier: MIT
ghost use Rattle.std.specs.Prelude.{◌≡◌, ◌∷◌, ◌++◌, [], List, IfOk, OnOk};
ghost use Rattle.rrc_archive.specs.Archive.{WrittenOf, chapter_text, archive_text, entry_text, event_text};
ghost use Rattle.rrc_archive.specs.ArchiveLaw.{HoldsEntry, HoldsEvent, HoldsChapter};
ghost use Rattle.rrc_archive.specs.ArchiveLines.{said_text, HoldsSaid};
ghost use Rattle.rrc_archive.specs.ArchiveSaid.{MayFollow};
ghost use Rattle.rrc_archive.specs.Tells.{IfNotOne};
ghost use Rattle.std.specs.List.{AllByRecursion};
ghost use Rattle.std.specs.Option.{option_to_list};

use crate::archive::WrittenChapter;
use crate::read::said::Said;
use rrc_history::{Entry, Event};
use rrc_text::LineFault;
use std::alloc::{AllocFailed, Global};
use std::marker::Model;

/// Chapters, of which the last one is not complete. Contracts see the list of them.
#[derive(Drop)]
pub(crate) struct Chapters {
    /// Those before the last one. Without a last one there are none.
    before: Vec<WrittenChapter>,
    last: Option<WrittenChapter>,
}

impl Model for Chapters {
    ghost use Rattle.std.specs.Prelude.{◌≡◌, List, [], ◌++◌, None};
    ghost use Rattle.std.specs.Option.{option_to_list};
    ghost use Rattle.rrc_archive.specs.Archive.{WrittenOf};

    ghost Value = { List WrittenOf };

    ghost view = { λ c. c.before.items ++ option_to_list c.last };

    ghost invariant = { λ c. c.last ≡ None → c.before.items ≡ [] };
}

/// Puts an entry behind the others. None comes behind an event.
fn add_entry(chapter: &mut WrittenChapter, entry: Entry) -> Result<(), LineFault>
    requires chapter { HoldsChapter chapter.old }
    requires entry { HoldsEntry entry }
    ensures held { OnOk result (HoldsChapter chapter.new) }
    ensures text { OnOk result (chapter_text chapter.new ≡ chapter_text chapter.old ++ (entry_text entry ++ 10 ∷ [])) }
    ensures refused { IfNotOne result (chapter.old.events ≡ [] → ⊥) }
{
    if !chapter.events.is_empty() {
        return Err(LineFault::NotOne);
    }
    chapter.entries.push(entry)?;
    Ok(())
}

/// Puts an event behind the others.
fn add_event(chapter: &mut WrittenChapter, event: Event) -> Result<(), LineFault>
    requires chapter { HoldsChapter chapter.old }
    requires event { HoldsEvent event }
    ensures held { OnOk result (HoldsChapter chapter.new) }
    ensures text { OnOk result (chapter_text chapter.new ≡ chapter_text chapter.old ++ (event_text event ++ 10 ∷ [])) }
    ensures refused { IfNotOne result ⊥ }
{
    chapter.events.push(event)?;
    Ok(())
}

impl Chapters {
    /// No chapters.
    pub(crate) fn new(alloc: Global) -> Chapters
        ensures { result ≡ [] }
    {
        Chapters {
            before: Vec::new(alloc),
            last: None,
        }
    }

    /// Puts a chapter behind the others.
    fn begin(&mut self, chapter: WrittenChapter) -> Result<(), AllocFailed<WrittenChapter>>
        ensures { OnOk result (self.new ≡ self.old ++ chapter ∷ []) }
    {
        match self.last.replace(chapter) {
            Some(complete) => self.before.push(complete),
            None => Ok(()),
        }
    }

    /// Puts what a line says behind what those before it said. `NotOne` where no chapter has begun,
    /// and for an entry behind an event.
    pub(crate) fn add(&mut self, alloc: Global, said: Said) -> Result<(), LineFault>
        requires chapters { AllByRecursion HoldsChapter self.old }
        requires said { HoldsSaid said }
        ensures held { OnOk result (AllByRecursion HoldsChapter self.new) }
        ensures text { OnOk result (archive_text self.new ≡ archive_text self.old ++ (said_text said ++ 10 ∷ [])) }
        ensures refused { IfNotOne result (MayFollow self.old said → ⊥) }
    {
        match said {
            Said::Chapter {
                number,
                first,
                rules,
            } => self.begin(WrittenChapter {
                number,
                first,
                rules,
                entries: Vec::new(alloc),
                events: Vec::new(alloc),
            })?,
            Said::Entry(entry) => match &mut self.last {
                Some(chapter) => add_entry(chapter, entry)?,
                None => return Err(LineFault::NotOne),
            },
            Said::Event(event) => match &mut self.last {
                Some(chapter) => add_event(chapter, event)?,
                None => return Err(LineFault::NotOne),
            },
        }
        Ok(())
    }

    /// All of them.
    pub(crate) fn into_vec(self) -> Result<Vec<WrittenChapter>, AllocFailed<WrittenChapter>>
        ensures { IfOk result (λ chapters. chapters.items ≡ self) }
    {
        let mut chapters = self.before;
        match self.last {
            Some(chapter) => chapters.push(chapter)?,
            None => {}
        }
        Ok(chapters)
    }
}
