// SPDX-License-Identifier: MIT
ghost use Rattle.std.specs.Prelude.{◌≡◌, length, IfOk, OnErr, OnOk};
ghost use Rattle.rrc_shelf.specs.Asks.{ask_or_alias, asked, AnswersOr, TellsOr};
ghost use Rattle.rrc_shelf.specs.Checks.{number_of_reply, Passes};
ghost use Rattle.rrc_shelf.specs.Refusals.{AskDue, PeekDue, question_checks};
ghost use Rattle.rrc_shelf.specs.Shelves.{IsLeftAs};

use crate::aliases::ask_or_alias;
use crate::asks::{answer, show, show_lookup};
use crate::folded_name::FoldedName;
use crate::question::question_of;
use crate::reply_record::ReplyRecord;
use crate::status::Status;
use crate::terms::Question;
use rrc_share::CacheShelf;
use std::alloc::Global;

/// Asks a shelf, whose names are hashed under the seed, what C asks.
pub fn ask_shelf(
    alloc: Global,
    shelf: &mut CacheShelf,
    seed: &[u8; 16],
    name: &FoldedName,
    question: &Question,
    told: &mut ReplyRecord,
    buffer: &mut [u8],
) -> Result<bool, Status>
    ensures ok { IfOk result (λ fits. AnswersOr fits (asked name.now question.now) question.now.line told.new buffer.old buffer.new shelf.old shelf.new) }
    ensures err { OnErr result ((told.new ≡ told.old) × (buffer.new ≡ buffer.old)) }
    ensures left { OnErr result (IsLeftAs shelf.old shelf.new) }
    ensures fit { OnOk result (Passes (question_checks name.now question.now seed.now)) }
    ensures due { AskDue name.now question.now seed.now (asked name.now question.now) (length buffer.old) shelf.old (number_of_reply result) }
{
    let (ask, hash) = question_of(name, question, seed)?;
    answer(alloc, shelf, ask, hash, question.line, told, buffer)
}

/// The same, but that the name's CNAME record may be told in place of data of the type.
pub fn ask_shelf_alias(
    alloc: Global,
    shelf: &mut CacheShelf,
    seed: &[u8; 16],
    name: &FoldedName,
    question: &Question,
    told: &mut ReplyRecord,
    buffer: &mut [u8],
) -> Result<bool, Status>
    ensures ok { IfOk result (λ fits. AnswersOr fits (ask_or_alias shelf.old (asked name.now question.now)) question.now.line told.new buffer.old buffer.new shelf.old shelf.new) }
    ensures err { OnErr result ((told.new ≡ told.old) × (buffer.new ≡ buffer.old)) }
    ensures left { OnErr result (IsLeftAs shelf.old shelf.new) }
    ensures fit { OnOk result (Passes (question_checks name.now question.now seed.now)) }
    ensures due { AskDue name.now question.now seed.now (ask_or_alias shelf.old (asked name.now question.now)) (length buffer.old) shelf.old (number_of_reply result) }
{
    let (ask, hash) = question_of(name, question, seed)?;
    let (chosen, _) = ask_or_alias(shelf, ask, hash);
    answer(alloc, shelf, chosen, hash, question.line, told, buffer)
}

/// Tells C what a shelf would answer to what it asks. It takes no memory.
pub fn peek_at_shelf(
    shelf: &CacheShelf,
    seed: &[u8; 16],
    name: &FoldedName,
    question: &Question,
    told: &mut ReplyRecord,
    buffer: &mut [u8],
) -> Result<bool, Status>
    ensures ok { IfOk result (λ fits. TellsOr fits (asked name.now question.now) shelf.now told.new buffer.old buffer.new) }
    ensures err { OnErr result ((told.new ≡ told.old) × (buffer.new ≡ buffer.old)) }
    ensures fit { OnOk result (Passes (question_checks name.now question.now seed.now)) }
    ensures due { PeekDue name.now question.now seed.now (asked name.now question.now) (length buffer.old) shelf.now (number_of_reply result) }
{
    let (ask, hash) = question_of(name, question, seed)?;
    show(shelf, ask, hash, told, buffer)
}

/// The same, but that the name's CNAME record may be told in place of data of the type.
pub fn peek_at_alias(
    shelf: &CacheShelf,
    seed: &[u8; 16],
    name: &FoldedName,
    question: &Question,
    told: &mut ReplyRecord,
    buffer: &mut [u8],
) -> Result<bool, Status>
    ensures ok { IfOk result (λ fits. TellsOr fits (ask_or_alias shelf.now (asked name.now question.now)) shelf.now told.new buffer.old buffer.new) }
    ensures err { OnErr result ((told.new ≡ told.old) × (buffer.new ≡ buffer.old)) }
    ensures fit { OnOk result (Passes (question_checks name.now question.now seed.now)) }
    ensures due { PeekDue name.now question.now seed.now (ask_or_alias shelf.now (asked name.now question.now)) (length buffer.old) shelf.now (number_of_reply result) }
{
    let (ask, hash) = question_of(name, question, seed)?;
    let (chosen, lookup) = ask_or_alias(shelf, ask, hash);
    show_lookup(shelf, chosen, lookup, told, buffer)
}
