// SPDX-License-Identifier: MIT
ghost use Rattle.std.specs.Prelude.{◌≡◌, ℕ, ◌+◌, ◌≤◌, ◌↔◌, ◌∷◌, [], length, false, IsTrue, IfOk, IfErr, OnOk, OnErr};
ghost use Rattle.rrc_cache.specs.Lookups.{TellsLookup};
ghost use Rattle.rrc_cache.specs.Seeds.{IsHashOf};
ghost use Rattle.rrc_shelf.specs.Asks.{fields_of, reply_of, AnswersOr, AreTellable, TellsOr, TellsRecord};
ghost use Rattle.rrc_shelf.specs.Checks.{number_of, number_of_call, number_of_reply, Due, IsDone, Refuses};
ghost use Rattle.rrc_shelf.specs.Refusals.{AnswerDue, NoteDue, WriteDue, reply_check, telling_checks};
ghost use Rattle.rrc_shelf.specs.Shelves.{IsLeftAs, MakesAsk};
ghost use Rattle.rrc_history.specs.Views.{ask_in};

use crate::reply_record::{ReplyRecord, data_of, owner_of, told_of};
use crate::status::Status;
use crate::text::fill;
use rrc_cache::{Lookup, NameHash};
use rrc_history::{Ask, AskRef, Reply, ReplyRef, Tag};
use rrc_share::CacheShelf;
use std::alloc::Global;

/// Whether a buffer has as many octets as a reply takes.
#[inline(always)]
pub(crate) fn has_room(buffer: &[u8], told: &ReplyRecord) -> bool
    ensures { IsTrue result ↔ (told.now.owner_size + told.now.data_size ≤ length buffer.now) }
{
    let room = buffer.len() as u64;
    told.owner_size <= room && told.data_size <= room - told.owner_size
}

/// The record of the reply that a shelf has, as it was looked up.
#[inline(always)]
fn record_in(shelf: &CacheShelf, ask: AskRef<'_>, lookup: Lookup<'_>) -> Result<ReplyRecord, Status>
    requires { TellsLookup shelf.now.shelf.part (ask_in ask) lookup }
    ensures record { IfOk result (TellsRecord (ask_in ask.entry) shelf.now) }
    ensures tellable { OnOk result (AreTellable (fields_of (reply_of shelf.now (ask_in ask.entry))).items) }
    ensures refused { IfErr result (λ status. Refuses (reply_check (reply_of shelf.now (ask_in ask.entry)) ∷ []) (number_of status)) }
{
    match told_of(ask.rtype, lookup) {
        Some(record) => Ok(record),
        None => Err(Status::WideAnswer),
    }
}

/// Tells a reply as it was looked up, and writes it to a buffer, where that has room for it; false
/// is answered where it has not.
#[inline(always)]
fn tell(
    shelf: &CacheShelf,
    ask: AskRef<'_>,
    lookup: Lookup<'_>,
    told: &mut ReplyRecord,
    buffer: &mut [u8],
) -> Result<bool, Status>
    requires { TellsLookup shelf.now.shelf.part (ask_in ask) lookup }
    ensures ok { IfOk result (λ fits. TellsOr fits (ask_in ask.entry) shelf.now told.new buffer.old buffer.new) }
    ensures err { OnErr result ((told.new ≡ told.old) × (buffer.new ≡ buffer.old)) }
    ensures tellable { OnOk result (AreTellable (fields_of (reply_of shelf.now (ask_in ask.entry))).items) }
    ensures refused { IfErr result (λ status. Refuses (reply_check (reply_of shelf.now (ask_in ask.entry)) ∷ []) (number_of status)) }
{
    let record = record_in(shelf, ask, lookup)?;
    let fits = has_room(buffer, &record);
    if fits {
        fill(buffer, owner_of(lookup.reply), data_of(lookup.reply));
    }
    *told = record;
    Ok(fits)
}

/// Tells what a shelf would answer, and writes nothing. False is answered where the buffer is too
/// small.
#[inline(always)]
pub(crate) fn show(
    shelf: &CacheShelf,
    ask: AskRef<'_>,
    hash: NameHash,
    told: &mut ReplyRecord,
    buffer: &mut [u8],
) -> Result<bool, Status>
    requires { IsHashOf hash (ask_in ask).name }
    ensures ok { IfOk result (λ fits. TellsOr fits (ask_in ask.entry) shelf.now told.new buffer.old buffer.new) }
    ensures err { OnErr result ((told.new ≡ told.old) × (buffer.new ≡ buffer.old)) }
    ensures due { Due (telling_checks (reply_of shelf.now (ask_in ask.entry)) (length buffer.old)) IsDone (number_of_reply result) }
{
    show_lookup(shelf, ask, shelf.lookup(ask, hash), told, buffer)
}

/// Tells what a shelf would answer, as it was looked up.
#[inline(always)]
pub(crate) fn show_lookup(
    shelf: &CacheShelf,
    ask: AskRef<'_>,
    lookup: Lookup<'_>,
    told: &mut ReplyRecord,
    buffer: &mut [u8],
) -> Result<bool, Status>
    requires { TellsLookup shelf.now.shelf.part (ask_in ask) lookup }
    ensures ok { IfOk result (λ fits. TellsOr fits (ask_in ask.entry) shelf.now told.new buffer.old buffer.new) }
    ensures err { OnErr result ((told.new ≡ told.old) × (buffer.new ≡ buffer.old)) }
    ensures due { Due (telling_checks (reply_of shelf.now (ask_in ask.entry)) (length buffer.old)) IsDone (number_of_reply result) }
{
    tell(shelf, ask, lookup, told, buffer)
}

/// Writes the event of a question, and answers the reply that the shelf has.
fn write_ask(shelf: &mut CacheShelf, ask: &Ask, line: u64) -> Result<Reply, Status>
    ensures ok { OnOk result (MakesAsk shelf.old shelf.new (record { line = line; place = 0 }) ask.now (reply_of shelf.old ask.now)) }
    ensures reply { IfOk result (λ reply. reply ≡ reply_of shelf.old ask.now) }
    ensures left { OnErr result (IsLeftAs shelf.old shelf.new) }
    ensures due { WriteDue shelf.old ask.now.moment (number_of_call result) }
{
    Ok(shelf.ask(Tag { line, place: 0 }, ask)?)
}

/// Answers a question whose reply is sized first, so that no event is written where the buffer is
/// too small.
fn answer_sized(
    shelf: &mut CacheShelf,
    ask: &Ask,
    hash: NameHash,
    line: u64,
    told: &mut ReplyRecord,
    buffer: &mut [u8],
) -> Result<bool, Status>
    requires { IsHashOf hash ask.now.name }
    ensures ok { IfOk result (λ fits. AnswersOr fits ask.now line told.new buffer.old buffer.new shelf.old shelf.new) }
    ensures err { OnErr result ((told.new ≡ told.old) × (buffer.new ≡ buffer.old)) }
    ensures left { OnErr result (IsLeftAs shelf.old shelf.new) }
    ensures due { Due (telling_checks (reply_of shelf.old ask.now) (length buffer.old)) (WriteDue shelf.old ask.now.moment) (number_of_reply result) }
{
    let lent = ask.as_ref();
    let record = record_in(shelf, lent, shelf.lookup(lent, hash))?;
    let is_written = has_room(buffer, &record);
    if is_written {
        let reply = write_ask(shelf, ask, line)?;
        let lent = ReplyRef::of(&reply);
        fill(buffer, owner_of(lent), data_of(lent));
    }
    *told = record;
    Ok(is_written)
}

/// Refuses a question with a status, after what is found out first: that no record can tell the
/// reply, or that the buffer is too small, and then its size is told.
fn refuse(
    shelf: &CacheShelf,
    ask: AskRef<'_>,
    hash: NameHash,
    status: Status,
    told: &mut ReplyRecord,
    buffer: &[u8],
) -> Result<bool, Status>
    requires due { NoteDue shelf.now (ask_in ask).moment (number_of status) }
    requires hash { IsHashOf hash (ask_in ask).name }
    ensures ok { IfOk result (λ fits. (line : ℕ) → AnswersOr fits (ask_in ask.entry) line told.new buffer.now buffer.now shelf.now shelf.now) }
    ensures err { OnErr result (told.new ≡ told.old) }
    ensures due { Due (telling_checks (reply_of shelf.now (ask_in ask.entry)) (length buffer.now)) (NoteDue shelf.now (ask_in ask.entry).moment) (number_of_reply result) }
{
    let record = record_in(shelf, ask, shelf.lookup(ask, hash))?;
    if has_room(buffer, &record) {
        return Err(status);
    }
    *told = record;
    Ok(false)
}

/// Answers a question of which nothing is recorded: it is looked up once, and the reply is copied
/// to the buffer alone. It takes no memory.
#[inline(always)]
fn answer_lean(
    shelf: &mut CacheShelf,
    ask: AskRef<'_>,
    hash: NameHash,
    line: u64,
    told: &mut ReplyRecord,
    buffer: &mut [u8],
) -> Result<bool, Status>
    requires lean { shelf.old.records ≡ false }
    requires hash { IsHashOf hash (ask_in ask).name }
    ensures ok { IfOk result (λ fits. AnswersOr fits (ask_in ask.entry) line told.new buffer.old buffer.new shelf.old shelf.new) }
    ensures err { OnErr result ((told.new ≡ told.old) × (buffer.new ≡ buffer.old)) }
    ensures left { OnErr result (IsLeftAs shelf.old shelf.new) }
    ensures due { Due (telling_checks (reply_of shelf.old (ask_in ask.entry)) (length buffer.old)) (NoteDue shelf.old (ask_in ask.entry).moment) (number_of_reply result) }
{
    let (lookup, pick) = match shelf.judge(ask, hash) {
        Ok(judged) => judged,
        Err(refusal) => return refuse(shelf, ask, hash, Status::from(refusal), told, buffer),
    };
    let fits = tell(shelf, ask, lookup, told, buffer)?;
    if fits {
        shelf.note_asked(Tag { line, place: 0 }, ask, pick);
    }
    Ok(fits)
}

/// Answers a question, which is one event. False is answered where the buffer is too small, and
/// then no event is written. It takes memory only where the history is recorded, which keeps the
/// question.
pub(crate) fn answer(
    alloc: Global,
    shelf: &mut CacheShelf,
    ask: AskRef<'_>,
    hash: NameHash,
    line: u64,
    told: &mut ReplyRecord,
    buffer: &mut [u8],
) -> Result<bool, Status>
    requires { IsHashOf hash (ask_in ask).name }
    ensures ok { IfOk result (λ fits. AnswersOr fits (ask_in ask.entry) line told.new buffer.old buffer.new shelf.old shelf.new) }
    ensures err { OnErr result ((told.new ≡ told.old) × (buffer.new ≡ buffer.old)) }
    ensures left { OnErr result (IsLeftAs shelf.old shelf.new) }
    ensures due { AnswerDue shelf.old.records shelf.old (reply_of shelf.old (ask_in ask.entry)) (length buffer.old) (ask_in ask.entry).moment (number_of_reply result) }
{
    if shelf.is_recording() {
        answer_sized(shelf, &ask.to_owned(alloc)?, hash, line, told, buffer)
    } else {
        answer_lean(shelf, ask, hash, line, told, buffer)
    }
}
