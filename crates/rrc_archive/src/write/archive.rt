// SPDX-License-Identifier: MIT
ghost use Rattle.std.specs.Prelude.{◌∷◌, ◌++◌, [], decimal, map, OnOk, IfErr};
ghost use Rattle.std.specs.Io.KnownBytes.{Appends};
ghost use Rattle.rrc_archive.specs.Archive.{head_text, entry_text, event_text, evicted_fields};
ghost use Rattle.rrc_archive.specs.Archive.{line_text, text_of_lines, written_of, chapter_text};
ghost use Rattle.rrc_text.specs.Grammar.{purpose_word, mode_word};
ghost use Rattle.rrc_text.specs.Output.{Puts};
ghost use Rattle.rrc_text.specs.Replies.{outcome_text, reply_text};
ghost use Rattle.rrc_text.specs.Writer.{LeavesText};

use crate::archive::ArchiveLine;
use crate::write::fields::{
    mode_word, purpose_word, put_body, put_evicted, put_key_fields, put_keys, put_tag,
};
use rrc_history::{
    Ask, Chapter, Entry, EntryList, Event, Mode, Offer, Outcome, Purpose, Reply, Rules, Tag,
};
use rrc_name::{Key, Slot};
use rrc_text::{
    Buffer, Output, ReplayFault, outcome_word, put_class, put_name, put_number, put_reply,
    put_slot, put_word,
};
use std::alloc::Global;
use std::io::Write;

/// The rules of a part.
fn put_rules<W: Write>(output: &mut Output<'_, W>, rules: Rules)
    ensures { Puts W.contents output.old output.new (decimal rules.capacity ++ (32 ∷ (decimal rules.chapter ++ (32 ∷ decimal rules.stale)))) }
{
    put_number(output, rules.capacity);
    put_word(output, " ");
    put_number(output, rules.chapter);
    put_word(output, " ");
    put_number(output, rules.stale);
}

/// What a chapter begins with.
fn put_head<W: Write>(output: &mut Output<'_, W>, number: u64, first: u64, rules: Rules)
    ensures { Puts W.contents output.old output.new (head_text number first rules) }
{
    put_word(output, "chapter ");
    put_number(output, number);
    put_word(output, " ");
    put_number(output, first);
    put_word(output, " ");
    put_rules(output, rules);
}

/// What a key held.
fn put_entry<W: Write>(output: &mut Output<'_, W>, entry: &Entry)
    ensures { Puts W.contents output.old output.new (entry_text entry.now) }
{
    put_word(output, "entry ");
    put_number(output, entry.number);
    put_word(output, " ");
    put_number(output, entry.moment);
    put_word(output, " ");
    put_key_fields(output, &entry.key);
    put_word(output, " ");
    put_body(output, &entry.body);
}

/// What became of an offer, and the key that it evicted.
fn put_outcome<W: Write>(output: &mut Output<'_, W>, outcome: Outcome, evicted: &Option<Key>)
    ensures { Puts W.contents output.old output.new (outcome_text outcome ++ evicted_fields evicted.now) }
{
    put_word(output, outcome_word(outcome));
    put_evicted(output, evicted);
}

/// An offer, and what became of it.
fn put_offered<W: Write>(
    output: &mut Output<'_, W>,
    outcome: Outcome,
    tag: Tag,
    offer: &Offer,
    evicted: &Option<Key>,
)
    ensures { Puts W.contents output.old output.new (event_text (Event.Offered outcome tag offer.now evicted.now)) }
{
    put_word(output, "offer ");
    put_tag(output, tag);
    put_word(output, " ");
    put_number(output, offer.moment);
    put_word(output, " ");
    put_key_fields(output, &offer.key);
    put_word(output, " ");
    put_body(output, &offer.body);
    put_word(output, " ");
    put_outcome(output, outcome, evicted);
}

/// What an ask was for, whether a stale answer would do, and its reply.
fn put_replied<W: Write>(output: &mut Output<'_, W>, purpose: Purpose, mode: Mode, reply: &Reply)
    ensures { Puts W.contents output.old output.new (purpose_word purpose ++ (32 ∷ (mode_word mode ++ (32 ∷ reply_text reply.now)))) }
{
    put_word(output, purpose_word(purpose));
    put_word(output, " ");
    put_word(output, mode_word(mode));
    put_word(output, " ");
    put_reply(output, reply);
}

/// An ask, and its reply.
fn put_asked<W: Write>(output: &mut Output<'_, W>, tag: Tag, ask: &Ask, reply: &Reply)
    ensures { Puts W.contents output.old output.new (event_text (Event.Asked tag ask.now reply.now)) }
{
    put_word(output, "ask ");
    put_tag(output, tag);
    put_word(output, " ");
    put_number(output, ask.moment);
    put_word(output, " ");
    put_name(output, &ask.name);
    put_word(output, " ");
    put_slot(output, Slot::Set(ask.rtype));
    put_class(output, ask.class);
    put_word(output, " ");
    put_replied(output, ask.purpose, ask.mode, reply);
}

/// A sweep, and the keys that it removed.
fn put_swept<W: Write>(output: &mut Output<'_, W>, tag: Tag, moment: u64, gone: &[Key])
    ensures { Puts W.contents output.old output.new (event_text (Event.Swept tag moment gone.now)) }
{
    put_word(output, "sweep ");
    put_tag(output, tag);
    put_word(output, " ");
    put_number(output, moment);
    put_keys(output, gone);
}

fn put_event<W: Write>(output: &mut Output<'_, W>, event: &Event)
    ensures { Puts W.contents output.old output.new (event_text event.now) }
{
    match event {
        Event::Offered {
            outcome,
            tag,
            offer,
            evicted,
        } => put_offered(output, *outcome, *tag, offer, evicted),
        Event::Asked { tag, ask, reply } => put_asked(output, *tag, ask, reply),
        Event::Swept { tag, moment, gone } => put_swept(output, *tag, *moment, gone.as_slice()),
    }
}

/// A line, without its LF.
fn put_line<W: Write>(output: &mut Output<'_, W>, line: ArchiveLine<'_>)
    ensures { Puts W.contents output.old output.new (line_text line.entry) }
{
    match line {
        ArchiveLine::Chapter {
            number,
            first,
            rules,
        } => put_head(output, number, first, rules),
        ArchiveLine::Entry(entry) => put_entry(output, entry),
        ArchiveLine::Event(event) => put_event(output, event),
    }
}

/// A line, with its LF.
pub(crate) fn put_archive_line<W: Write>(output: &mut Output<'_, W>, line: ArchiveLine<'_>)
    ensures { Puts W.contents output.old output.new (line_text line.entry ++ 10 ∷ []) }
{
    put_line(output, line);
    put_word(output, "\n");
}

/// A line for each entry.
fn put_entries<W: Write>(output: &mut Output<'_, W>, entries: &EntryList)
    ensures { Puts W.contents output.old output.new (text_of_lines (map entry_text entries.now)) }
{
    for place in 0..entries.len() {
        put_archive_line(output, ArchiveLine::Entry(entries.entry(place)));
    }
}

/// A line for each event.
fn put_events<W: Write>(output: &mut Output<'_, W>, events: &[Event])
    ensures { Puts W.contents output.old output.new (text_of_lines (map event_text events.now)) }
{
    for event in events {
        put_archive_line(output, ArchiveLine::Event(event));
    }
}

/// The lines of a chapter.
fn put_chapter<W: Write>(output: &mut Output<'_, W>, chapter: &Chapter)
    ensures { Puts W.contents output.old output.new (chapter_text (written_of chapter.now)) }
{
    let snapshot = chapter.snapshot();
    let head = ArchiveLine::Chapter {
        number: chapter.number(),
        first: snapshot.first,
        rules: snapshot.rules(),
    };
    put_archive_line(output, head);
    put_entries(output, &snapshot.entries);
    put_events(output, chapter.events());
}

/// Writes a line of an archive, with its LF, at most 4,096 octets at once, and flushes. `Memory`
/// where room for so many is refused, before anything is written. `Write` where a write or the
/// flush failed, or a write took nothing; a beginning of the line went out then.
pub fn write_archive_line<W: Write>(
    alloc: Global,
    writer: &mut W,
    line: ArchiveLine<'_>,
) -> Result<(), ReplayFault>
    ensures ok { OnOk result (Appends (W.contents writer.old) (W.contents writer.new) (line_text line.entry ++ 10 ∷ [])) }
    ensures err { IfErr result (LeavesText (W.contents writer.old) (W.contents writer.new) (line_text line.entry ++ 10 ∷ [])) }
{
    let mut buffer = Buffer::reserved(alloc)?;
    let mut output = Output {
        writer,
        buffer: &mut buffer,
        failed: false,
    };
    put_archive_line(&mut output, line);
    output.finish()
}

/// Writes the lines of a chapter, as `write_archive_line` does one: what a reader of its archive
/// learns of it. All of them go through one buffer.
pub fn write_chapter<W: Write>(
    alloc: Global,
    writer: &mut W,
    chapter: &Chapter,
) -> Result<(), ReplayFault>
    ensures ok { OnOk result (Appends (W.contents writer.old) (W.contents writer.new) (chapter_text (written_of chapter.now))) }
    ensures err { IfErr result (LeavesText (W.contents writer.old) (W.contents writer.new) (chapter_text (written_of chapter.now))) }
{
    let mut buffer = Buffer::reserved(alloc)?;
    let mut output = Output {
        writer,
        buffer: &mut buffer,
        failed: false,
    };
    put_chapter(&mut output, chapter);
    output.finish()
}
