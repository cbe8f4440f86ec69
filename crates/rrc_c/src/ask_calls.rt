// SPDX-License-Identifier: MIT
ghost use Rattle.std.specs.Prelude.{◌≡◌, ◌↔◌, length, None, IfSome, IsSomeAnd};
ghost use Rattle.rrc_shelf.specs.Checks.{number_of_reply, OnDone, OnRefused, OnSmall, OnUntold, Passes};
ghost use Rattle.rrc_c.specs.Handles.{BothHold, BothOrNone};
ghost use Rattle.rrc_c.specs.declared.handle_status.TheConstants.{NO_SHELF};
ghost use Rattle.rrc_shelf.specs.Shelves.{IsLeftAs};
ghost use Rattle.rrc_shelf.specs.Asks.{ask_or_alias, asked, Answers, TellsHeld, TellsReply, TellsSizeOf};
ghost use Rattle.rrc_shelf.specs.Refusals.{AskDue, PeekDue, StoredDue, question_checks};

use crate::handle_status::NO_SHELF;
use crate::look::ShelfLook;
use crate::shelf_handle::ShelfHandle;
use rrc_shelf::{
    FoldedName, Question, ReplyRecord, Stored, ask_shelf, ask_shelf_alias, number_of_reply,
    peek_at_alias, peek_at_shelf, stored_in,
};
use std::alloc::Global;

/// Asks a shelf, which is one event.
#[unsafe(no_mangle)]
pub extern "C" fn rrc_ask(
    alloc: Global,
    handle: &mut ShelfHandle,
    name: &FoldedName,
    question: &Question,
    told: &mut ReplyRecord,
    buffer: &mut [u8],
) -> u32
    ensures none { (result ≡ NO_SHELF) ↔ (handle.old.held.seal.shelf ≡ None) }
    ensures done { OnDone result (BothHold handle.old.held.seal.shelf handle.new.held.seal.shelf (λ old new. Answers (asked name.now question.now) question.now.line told.new buffer.old buffer.new old new)) }
    ensures small { OnSmall result (BothHold handle.old.held.seal.shelf handle.new.held.seal.shelf (λ old new. (new ≡ old) × TellsSizeOf (asked name.now question.now) old told.new buffer.old buffer.new)) }
    ensures refused { OnRefused result (BothOrNone handle.old.held.seal.shelf handle.new.held.seal.shelf IsLeftAs) }
    ensures buffer { OnRefused result (buffer.new ≡ buffer.old) }
    ensures told { OnUntold result (told.new ≡ told.old) }
    ensures seed { handle.new.seed ≡ handle.old.seed }
    ensures fit { OnDone result (Passes (question_checks name.now question.now handle.old.seed)) }
    ensures due { IfSome handle.old.held.seal.shelf (λ shelf. AskDue name.now question.now handle.old.seed (asked name.now question.now) (length buffer.old) shelf result) }
{
    let seed = handle.seed;
    let Some(shelf) = handle.held.get_mut() else {
        return NO_SHELF;
    };
    let fits = ask_shelf(alloc, shelf, &seed, name, question, told, buffer);
    number_of_reply(fits)
}

/// Asks a shelf as `rrc_ask` does, but that the name's CNAME record may be told in place of data of
/// the type.
#[unsafe(no_mangle)]
pub extern "C" fn rrc_ask_alias(
    alloc: Global,
    handle: &mut ShelfHandle,
    name: &FoldedName,
    question: &Question,
    told: &mut ReplyRecord,
    buffer: &mut [u8],
) -> u32
    ensures none { (result ≡ NO_SHELF) ↔ (handle.old.held.seal.shelf ≡ None) }
    ensures done { OnDone result (BothHold handle.old.held.seal.shelf handle.new.held.seal.shelf (λ old new. Answers (ask_or_alias old (asked name.now question.now)) question.now.line told.new buffer.old buffer.new old new)) }
    ensures small { OnSmall result (BothHold handle.old.held.seal.shelf handle.new.held.seal.shelf (λ old new. (new ≡ old) × TellsSizeOf (ask_or_alias old (asked name.now question.now)) old told.new buffer.old buffer.new)) }
    ensures refused { OnRefused result (BothOrNone handle.old.held.seal.shelf handle.new.held.seal.shelf IsLeftAs) }
    ensures buffer { OnRefused result (buffer.new ≡ buffer.old) }
    ensures told { OnUntold result (told.new ≡ told.old) }
    ensures seed { handle.new.seed ≡ handle.old.seed }
    ensures fit { OnDone result (Passes (question_checks name.now question.now handle.old.seed)) }
    ensures due { IfSome handle.old.held.seal.shelf (λ shelf. AskDue name.now question.now handle.old.seed (ask_or_alias shelf (asked name.now question.now)) (length buffer.old) shelf result) }
{
    let seed = handle.seed;
    let Some(shelf) = handle.held.get_mut() else {
        return NO_SHELF;
    };
    let fits = ask_shelf_alias(alloc, shelf, &seed, name, question, told, buffer);
    number_of_reply(fits)
}

/// Tells what a shelf would answer, and writes no event.
#[unsafe(no_mangle)]
pub extern "C" fn rrc_peek(
    look: &mut ShelfLook,
    name: &FoldedName,
    question: &Question,
    told: &mut ReplyRecord,
    buffer: &mut [u8],
) -> u32
    ensures kept { look.new.look.sight.shelf ≡ look.old.look.sight.shelf }
    ensures life { look.new.look.sight.life ≡ look.old.look.sight.life }
    ensures none { (result ≡ NO_SHELF) ↔ (look.old.look.sight.shelf ≡ None) }
    ensures done { OnDone result (IsSomeAnd look.old.look.sight.shelf (λ shelf. TellsReply (asked name.now question.now) shelf told.new buffer.old buffer.new)) }
    ensures small { OnSmall result (IsSomeAnd look.old.look.sight.shelf (λ shelf. TellsSizeOf (asked name.now question.now) shelf told.new buffer.old buffer.new)) }
    ensures buffer { OnRefused result (buffer.new ≡ buffer.old) }
    ensures told { OnUntold result (told.new ≡ told.old) }
    ensures fit { OnDone result (Passes (question_checks name.now question.now look.old.seed)) }
    ensures due { IfSome look.old.look.sight.shelf (λ shelf. PeekDue name.now question.now look.old.seed (asked name.now question.now) (length buffer.old) shelf result) }
{
    let seed = look.seed;
    let Some(glance) = look.look.take() else {
        return NO_SHELF;
    };
    let fits = peek_at_shelf(glance.get(), &seed, name, question, told, buffer);
    look.look.put(glance);
    number_of_reply(fits)
}

/// Tells what `rrc_ask_alias` would answer, and writes no event.
#[unsafe(no_mangle)]
pub extern "C" fn rrc_peek_alias(
    look: &mut ShelfLook,
    name: &FoldedName,
    question: &Question,
    told: &mut ReplyRecord,
    buffer: &mut [u8],
) -> u32
    ensures kept { look.new.look.sight.shelf ≡ look.old.look.sight.shelf }
    ensures life { look.new.look.sight.life ≡ look.old.look.sight.life }
    ensures none { (result ≡ NO_SHELF) ↔ (look.old.look.sight.shelf ≡ None) }
    ensures done { OnDone result (IsSomeAnd look.old.look.sight.shelf (λ shelf. TellsReply (ask_or_alias shelf (asked name.now question.now)) shelf told.new buffer.old buffer.new)) }
    ensures small { OnSmall result (IsSomeAnd look.old.look.sight.shelf (λ shelf. TellsSizeOf (ask_or_alias shelf (asked name.now question.now)) shelf told.new buffer.old buffer.new)) }
    ensures buffer { OnRefused result (buffer.new ≡ buffer.old) }
    ensures told { OnUntold result (told.new ≡ told.old) }
    ensures fit { OnDone result (Passes (question_checks name.now question.now look.old.seed)) }
    ensures due { IfSome look.old.look.sight.shelf (λ shelf. PeekDue name.now question.now look.old.seed (ask_or_alias shelf (asked name.now question.now)) (length buffer.old) shelf result) }
{
    let seed = look.seed;
    let Some(glance) = look.look.take() else {
        return NO_SHELF;
    };
    let fits = peek_at_alias(glance.get(), &seed, name, question, told, buffer);
    look.look.put(glance);
    number_of_reply(fits)
}

/// Tells what a shelf holds of a name and a class for a type: data or that there are none, that the
/// name does not exist, that asking failed. Of the question the type and the class are read.
#[unsafe(no_mangle)]
pub extern "C" fn rrc_stored(
    look: &mut ShelfLook,
    name: &FoldedName,
    question: &Question,
    stored: &mut Stored,
) -> u32
    ensures kept { look.new.look.sight.shelf ≡ look.old.look.sight.shelf }
    ensures life { look.new.look.sight.life ≡ look.old.look.sight.life }
    ensures none { (result ≡ NO_SHELF) ↔ (look.old.look.sight.shelf ≡ None) }
    ensures done { OnDone result (IsSomeAnd look.old.look.sight.shelf (TellsHeld name.now question.now stored.new)) }
    ensures stored { OnRefused result (stored.new ≡ stored.old) }
    ensures due { IfSome look.old.look.sight.shelf (λ shelf. StoredDue name.now question.now look.old.seed result) }
{
    let seed = look.seed;
    let Some(glance) = look.look.take() else {
        return NO_SHELF;
    };
    let told = stored_in(glance.get(), &seed, name, question);
    look.look.put(glance);
    match told {
        Ok(told) => {
            *stored = told;
            0
        }
        Err(status) => status.number(),
    }
}
