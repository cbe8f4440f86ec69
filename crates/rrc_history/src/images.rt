// SPDX-License-Identifier: MIT
ghost use Rattle.std.specs.Prelude.{◌≡◌, map, IfOk};
ghost use Rattle.std.specs.Option.{option_map};
ghost use Rattle.rrc_name.specs.Images.{image_of as image_of_key};
ghost use Rattle.rrc_history.specs.Images.{image_of_event, image_of_snapshot, image_of_entry, image_of_offer, image_of_ask, image_of_chapter, entry_without_class, snapshot_without_class};
ghost use Rattle.rrc_history.specs.ImageLaws.{RightWhereImageIs, LegalWhereImageIs, ImageAnswersAlike, AnswersAsBefore, HoldsOneClass};
ghost use Rattle.rrc_history.specs.Chapters.{LeadTo};

use crate::ask::Ask;
use crate::chapter::Chapter;
use crate::classless;
use crate::entry_list::EntryList;
use crate::event::Event;
use crate::offer::Offer;
use crate::snapshot::{Entry, Snapshot};
use rrc_name::class::IN;
use rrc_name::classless::Key as ClasslessKey;
use rrc_name::{Key, Sequence, Shared};
use std::alloc::{AllocError, AllocFailed, Global};
use thiserror::Error;

/// Why no chapter was made of one that was made before keys had a class.
#[derive(Clone, Copy, Debug, PartialEq, Eq, Hash, Error)]
pub enum ClassFault {
    #[error("memory was refused")]
    Memory,
}

impl ClassFault {
    ghost use Rattle.std.specs.Prelude.{◌≡◌};
    ghost use Rattle.rrc_history.specs.Faults.{class_fault_number};

    /// The number of the fault, which is 1.
    pub fn number(&self) -> u8
        ensures value { result ≡ class_fault_number self.now }
    {
        match self {
            ClassFault::Memory => 1,
        }
    }
}

impl From<AllocError> for ClassFault {
    ghost use Rattle.std.specs.Prelude.{◌≡◌};
    ghost use Rattle.rrc_history.specs.declared.images.ClassFault.TheVariants.{Memory};

    ghost from_gives = { λ _ fault. fault ≡ Memory };

    fn from(_refused: AllocError) -> ClassFault {
        ClassFault::Memory
    }
}

impl<T: Drop> From<AllocFailed<T>> for ClassFault {
    ghost use Rattle.std.specs.Prelude.{◌≡◌};
    ghost use Rattle.rrc_history.specs.declared.images.ClassFault.TheVariants.{Memory};

    ghost from_gives = { λ _ fault. fault ≡ Memory };

    fn from(_refused: AllocFailed<T>) -> ClassFault {
        ClassFault::Memory
    }
}

/// An event that was made before keys had a class is right after others exactly where its image in
/// class IN is right after theirs; so a history was legal exactly where its image is. An ask in
/// class IN is answered after the images as it was before asks had a class. The function does
/// nothing; its contract is the law.
pub fn images_are_right_alike()
    ensures right { RightWhereImageIs }
    ensures legal { LegalWhereImageIs }
    ensures answers { ImageAnswersAlike }
{}

/// What a chapter is now that was made before keys had a class: all its keys, offers and asks are
/// in class IN (RFC 1035 section 3.2.4), and all else is equal. Asks in class IN are answered after
/// its events as they were before they had a class, and asks in any other class by nothing.
///
/// No octets of names and data are copied: both chapters share them. The time goes with the number
/// of the entries, of the events and of the keys that sweeps removed. An `Err` says that memory was
/// refused.
pub fn from_classless(alloc: Global, chapter: &classless::Chapter) -> Result<Chapter, ClassFault>
    ensures image { IfOk result (λ made. made ≡ image_of_chapter chapter.now) }
    ensures leads { IfOk result (λ made. LeadTo made.snapshot made.events made.closing) }
    ensures answers { IfOk result (λ made. AnswersAsBefore chapter.now made) }
    ensures one_class { IfOk result (λ made. HoldsOneClass made) }
{
    Ok(Chapter {
        number: chapter.number,
        snapshot: Shared::new(alloc, snapshot_from_classless(alloc, &chapter.snapshot)?)?,
        events: Sequence::from_vec(events_from_classless(alloc, chapter.events.as_slice())?),
        closing: Shared::new(alloc, snapshot_from_classless(alloc, &chapter.closing)?)?,
    })
}

/// What a snapshot is now that was made before keys had a class.
pub fn snapshot_from_classless(
    alloc: Global,
    snapshot: &classless::Snapshot,
) -> Result<Snapshot, AllocError>
    ensures { IfOk result (λ made. made ≡ image_of_snapshot snapshot.now) }
{
    Ok(Snapshot {
        rules: snapshot.rules,
        first: snapshot.first,
        entries: EntryList::from_vec(entries_of(alloc, snapshot.entries.as_slice())?),
    })
}

fn entries_of(alloc: Global, entries: &[classless::Entry]) -> Result<Vec<Entry>, AllocError>
    ensures { IfOk result (λ made. made.items ≡ map image_of_entry entries.now) }
{
    let mut made = Vec::with_capacity(alloc, entries.len())?;
    for entry in entries {
        made.push(entry_of(entry)?)?;
    }
    Ok(made)
}

fn entry_of(entry: &classless::Entry) -> Result<Entry, AllocError>
    ensures { IfOk result (λ made. made ≡ image_of_entry entry.now) }
{
    Ok(Entry {
        key: entry.key.image()?,
        body: entry.body.clone()?,
        moment: entry.moment,
        number: entry.number,
    })
}

/// What events are now that were made before keys had a class.
pub fn events_from_classless(
    alloc: Global,
    events: &[classless::Event],
) -> Result<Vec<Event>, AllocError>
    ensures { IfOk result (λ made. made.items ≡ map image_of_event events.now) }
{
    let mut made = Vec::with_capacity(alloc, events.len())?;
    for event in events {
        made.push(event_of(alloc, event)?)?;
    }
    Ok(made)
}

fn event_of(alloc: Global, event: &classless::Event) -> Result<Event, AllocError>
    ensures { IfOk result (λ made. made ≡ image_of_event event.now) }
{
    match event {
        classless::Event::Offered {
            outcome,
            tag,
            offer,
            evicted,
        } => Ok(Event::Offered {
            outcome: *outcome,
            tag: *tag,
            offer: offer_of(offer)?,
            evicted: evicted_of(evicted)?,
        }),
        classless::Event::Asked { tag, ask, reply } => Ok(Event::Asked {
            tag: *tag,
            ask: ask_of(ask)?,
            reply: reply.clone()?,
        }),
        classless::Event::Swept { tag, moment, gone } => Ok(Event::Swept {
            tag: *tag,
            moment: *moment,
            gone: Sequence::from_vec(keys_of(alloc, gone.as_slice())?),
        }),
    }
}

fn offer_of(offer: &classless::Offer) -> Result<Offer, AllocError>
    ensures { IfOk result (λ made. made ≡ image_of_offer offer.now) }
{
    Ok(Offer {
        key: offer.key.image()?,
        body: offer.body.clone()?,
        moment: offer.moment,
    })
}

fn ask_of(ask: &classless::Ask) -> Result<Ask, AllocError>
    ensures { IfOk result (λ made. made ≡ image_of_ask ask.now) }
{
    Ok(Ask {
        name: ask.name.clone()?,
        class: IN,
        rtype: ask.rtype,
        moment: ask.moment,
        purpose: ask.purpose,
        mode: ask.mode,
    })
}

fn evicted_of(evicted: &Option<ClasslessKey>) -> Result<Option<Key>, AllocError>
    ensures { IfOk result (λ made. made ≡ option_map image_of_key evicted.now) }
{
    match evicted {
        None => Ok(None),
        Some(key) => Ok(Some(key.image()?)),
    }
}

fn keys_of(alloc: Global, keys: &[ClasslessKey]) -> Result<Vec<Key>, AllocError>
    ensures { IfOk result (λ made. made.items ≡ map image_of_key keys.now) }
{
    let mut made = Vec::with_capacity(alloc, keys.len())?;
    for key in keys {
        made.push(key.image()?)?;
    }
    Ok(made)
}

/// The snapshot of which one is the image whose keys are all in class IN.
pub fn snapshot_without_class(
    alloc: Global,
    snapshot: &Snapshot,
) -> Result<classless::Snapshot, AllocError>
    requires { map image_of_entry (map entry_without_class snapshot.now.entries) ≡ snapshot.now.entries }
    ensures { IfOk result (λ made. made ≡ snapshot_without_class snapshot.now) }
{
    Ok(classless::Snapshot {
        rules: snapshot.rules,
        first: snapshot.first,
        entries: Sequence::from_vec(entries_without_class(alloc, &snapshot.entries)?),
    })
}

fn entries_without_class(
    alloc: Global,
    entries: &EntryList,
) -> Result<Vec<classless::Entry>, AllocError>
    ensures { IfOk result (λ made. made.items ≡ map entry_without_class entries.now) }
{
    let mut made = Vec::with_capacity(alloc, entries.len())?;
    for place in 0..entries.len() {
        made.push(entry_without_class(entries.entry(place))?)?;
    }
    Ok(made)
}

fn entry_without_class(entry: &Entry) -> Result<classless::Entry, AllocError>
    ensures { IfOk result (λ made. made ≡ entry_without_class entry.now) }
{
    Ok(classless::Entry {
        key: ClasslessKey::of_image(&entry.key)?,
        body: entry.body.clone()?,
        moment: entry.moment,
        number: entry.number,
    })
}
