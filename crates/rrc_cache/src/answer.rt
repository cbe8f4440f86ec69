// SPDX-License-Identifier: MIT
ghost use Rattle.std.specs.Prelude.{◌≡◌, ◌<◌, ◌≤◌, None, IfOk, IfSome};
ghost use Rattle.std.specs.List.{AllByRecursion};
ghost use Rattle.std.specs.Option.{option_map};
ghost use Rattle.rrc_history.specs.declared.event.Event.TheVariants.{Asked};
ghost use Rattle.rrc_history.specs.Entries.{answered_from};
ghost use Rattle.rrc_history.specs.Past.{key_at};
ghost use Rattle.rrc_history.specs.Lives.{IsTimely};
ghost use Rattle.rrc_history.specs.Views.{ask_in, held_in};
ghost use Rattle.rrc_cache.specs.Keyed.{name_hash};
ghost use Rattle.rrc_cache.specs.Taken.{IsAnswered, IsCompared, HasName, slot_of};

use crate::judge;
use crate::store::Store;
use rrc_history::{Ask, AskRef, Event, Held, Reply, Tag};
use rrc_name::Slot;
use std::alloc::AllocError;

/// The ask, as its event is to keep it: with the name of the entry that answers, so that the
/// caller's is not kept as well.
fn kept_ask(ask: &Ask, answering: Option<Held<'_>>) -> Result<Ask, AllocError>
    requires { IfSome (option_map held_in answering) (HasName ask.now.name) }
    ensures { IfOk result (λ kept. kept ≡ ask.now) }
{
    match answering {
        Some(held) => {
            let key = held.key;
            Ok(Ask {
                name: key.name.clone()?,
                class: ask.class,
                rtype: ask.rtype,
                moment: ask.moment,
                purpose: ask.purpose,
                mode: ask.mode,
            })
        }
        None => ask.clone(),
    }
}

fn slot_of(answering: Option<Held<'_>>) -> Option<Slot>
    ensures { result ≡ slot_of (option_map held_in answering.entry) }
{
    match answering {
        Some(held) => {
            let key = held.key;
            Some(key.slot)
        }
        None => None,
    }
}

/// The slot of the entry that answers, of this age, where that is to be moved to the front. Of the
/// age 0 it stands there, so an ask that it answers is no touch.
#[inline(always)]
pub(crate) fn slot_to_move(answering: Option<Held<'_>>, age: u64) -> Option<Slot>
    ensures in_front { age ≡ 0 → result ≡ None }
    ensures behind { 0 < age → result ≡ slot_of (option_map held_in answering.entry) }
{
    if age == 0 { None } else { slot_of(answering) }
}

/// What an ask, whose name has the hash, is answered, the ask as its event is to keep it, and the
/// slot of the entry to be moved to the front.
pub(crate) fn answer(
    store: &Store,
    hash: u64,
    ask: &Ask,
    stale: u64,
) -> Result<(Reply, Ask, Option<Slot>), AllocError>
    requires hash { hash ≡ name_hash store.now.seeded ask.now.name }
    requires stale { stale ≤ 604800 }
    requires timely { AllByRecursion IsTimely store.now.entries }
    ensures answered { IfOk result (λ told. IsAnswered stale ask.now store.now.entries told.0 told.2) }
    ensures asked { IfOk result (λ told. told.1 ≡ ask.now) }
{
    store.has_distinct_keys();
    let lookup = judge::judge(store, hash, ask.as_ref(), stale);
    Ok((
        lookup.reply.to_owned()?,
        kept_ask(ask, lookup.entry)?,
        slot_to_move(lookup.entry, lookup.age),
    ))
}

/// The event that tells an ask, as it is to be kept, and its reply.
pub(crate) fn event_of(tag: Tag, ask: Ask, reply: &Reply) -> Result<Event, AllocError>
    ensures { IfOk result (λ event. event ≡ Asked tag ask reply.now) }
{
    Ok(Event::Asked {
        tag,
        ask,
        reply: reply.clone()?,
    })
}

/// Whether an ask, whose name has the hash, is answered just this reply, and the slot of the entry
/// that answers. It takes no memory.
pub(crate) fn compare(
    store: &Store,
    hash: u64,
    ask: AskRef<'_>,
    stale: u64,
    reply: &Reply,
) -> (bool, Option<Slot>)
    requires hash { hash ≡ name_hash store.now.seeded (ask_in ask).name }
    requires stale { stale ≤ 604800 }
    requires timely { AllByRecursion IsTimely store.now.entries }
    ensures { IsCompared stale (ask_in ask.entry) store.now.entries reply.now result.0 result.1 }
{
    let lookup = judge::judge(store, hash, ask, stale);
    (lookup.reply.is(reply), slot_of(lookup.entry))
}

/// Moves the entry that gave an answer to the front. It takes no memory. The hint is as a rule the
/// hash of the ask's name (`Store::promote`).
pub(crate) fn touch(store: &mut Store, hint: u64, ask: AskRef<'_>, slot: Option<Slot>)
    ensures { store.new ≡ record store.old { entries = answered_from (option_map (key_at (ask_in ask.entry)) slot) store.old.entries } }
{
    if let Some(slot) = slot {
        store.promote(hint, ask.key_at(slot));
    }
}
