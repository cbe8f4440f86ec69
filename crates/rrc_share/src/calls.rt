// SPDX-License-Identifier: MIT
ghost use Rattle.std.specs.Prelude.{◌≡◌, ◌↔◌, IsTrue, IfErr, IfOk, OnOk, OnErr, Err};
ghost use Rattle.rrc_cache.specs.Part.{IsCloseDue, IsOfMoments, IsSound};
ghost use Rattle.rrc_share.specs.Shelf.{AppendsAsk, AppendsOffer, AppendsSweep, CanWrite, HasMadeRoom, IsShelfDue, IsLeft, ShelvesChapter};

use crate::shelf::Shelf;
use rrc_cache::{LAST_MOMENT, Part, Refusal};
use rrc_history::{Ask, NUMBER_LIMIT, Offer, Outcome, Reply, Tag};

/// Whether one more event can be written, where need be in the next chapter.
fn can_write(part: &Part) -> bool
    ensures room { IsTrue result ↔ CanWrite part.now }
    ensures sound { IsSound part.now }
{
    let written = part.events().len() as u64;
    let next = part.snapshot().first + written;
    let is_wide = written < part.snapshot().rules().chapter;
    next < NUMBER_LIMIT && (is_wide || part.number() < NUMBER_LIMIT)
}

/// Whether a shelf could take a call at this moment.
fn admit(part: &Part, moment: u64) -> Result<(), Refusal>
    ensures due { IsShelfDue part.now moment result }
    ensures only { IfErr result IsOfMoments }
    ensures sound { IsSound part.now }
{
    if !can_write(part) {
        return Err(Refusal::HistoryFull);
    }
    if moment > LAST_MOMENT {
        return Err(Refusal::MomentTooLarge);
    }
    Ok(())
}

/// Closes the chapter that is open, and opens the next. No event is written.
///
/// `HistoryFull` comes exactly where the chapter's number is 2^62, else `Memory`. A shelf that
/// refuses is as it was.
pub fn on_shelf_checkpoint(shelf: &mut Shelf) -> Result<(), Refusal>
    ensures ok { OnOk result (ShelvesChapter shelf.old shelf.new) }
    ensures err { OnErr result (shelf.new ≡ shelf.old) }
    ensures due { IsCloseDue shelf.old.part result }
{
    if shelf.part.number() >= NUMBER_LIMIT {
        return Err(Refusal::HistoryFull);
    }
    shelf.closed.reserve(1)?;
    let chapter = shelf.part.checkpoint()?;
    shelf.closed.push_reserved(chapter);
    Ok(())
}

/// Closes the chapter that is open where it is full. An `Err` leaves the shelf as it was.
fn make_room(shelf: &mut Shelf) -> Result<(), Refusal>
    requires { CanWrite shelf.old.part }
    ensures ok { OnOk result (HasMadeRoom shelf.old shelf.new) }
    ensures err { OnErr result (shelf.new ≡ shelf.old) }
    ensures memory { OnErr result (result ≡ Err Refusal.Memory) }
{
    if shelf.part.events().len() as u64 >= shelf.part.snapshot().rules().chapter {
        on_shelf_checkpoint(shelf)?;
    }
    Ok(())
}

/// Closes the chapter where it is full, and then offers to the part (`Part::offer`).
///
/// `HistoryFull` comes first, exactly where the next event's number is 2^62, or where the chapter
/// is full and its number is 2^62; then `MomentTooLarge` (above 2^40 seconds), then `Memory`. After
/// a refusal the history is as it was; a chapter that was full may be closed.
pub fn on_shelf_offer(shelf: &mut Shelf, tag: Tag, offer: Offer) -> Result<Outcome, Refusal>
    ensures ok { IfOk result (AppendsOffer shelf.old shelf.new tag offer) }
    ensures err { OnErr result (IsLeft shelf.old shelf.new) }
    ensures due { IsShelfDue shelf.old.part offer.moment result }
{
    admit(&shelf.part, offer.moment)?;
    make_room(shelf)?;
    shelf.part.offer(tag, offer)
}

/// Closes the chapter where it is full, and then asks the part (`Part::ask`). The refusals are
/// those of `on_shelf_offer`.
pub fn on_shelf_ask(shelf: &mut Shelf, tag: Tag, ask: &Ask) -> Result<Reply, Refusal>
    ensures ok { IfOk result (AppendsAsk shelf.old shelf.new tag ask.now) }
    ensures err { OnErr result (IsLeft shelf.old shelf.new) }
    ensures due { IsShelfDue shelf.old.part ask.now.moment result }
{
    admit(&shelf.part, ask.moment)?;
    make_room(shelf)?;
    shelf.part.ask(tag, ask)
}

/// Closes the chapter where it is full, and then sweeps the part (`Part::sweep`). The refusals are
/// those of `on_shelf_offer`.
pub fn on_shelf_sweep(shelf: &mut Shelf, tag: Tag, moment: u64) -> Result<usize, Refusal>
    ensures ok { IfOk result (AppendsSweep shelf.old shelf.new tag moment) }
    ensures err { OnErr result (IsLeft shelf.old shelf.new) }
    ensures due { IsShelfDue shelf.old.part moment result }
{
    admit(&shelf.part, moment)?;
    make_room(shelf)?;
    shelf.part.sweep(tag, moment)
}
