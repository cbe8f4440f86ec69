// SPDX-License-Identifier: MIT
ghost use Rattle.std.specs.Prelude.{◌≡◌, ◌≤◌, None, false, IfNone, IfSome};
ghost use Rattle.std.specs.List.{AllByRecursion};
ghost use Rattle.std.specs.Option.{option_map};
ghost use Rattle.rrc_history.specs.Entries.{found_among};
ghost use Rattle.rrc_history.specs.Judged.{reply_by, answering};
ghost use Rattle.rrc_history.specs.Lives.{IsTimely};
ghost use Rattle.rrc_history.specs.Past.{entry_at, key_at};
ghost use Rattle.rrc_history.specs.Views.{ask_in, held_in, reply_in};
ghost use Rattle.rrc_cache.specs.Ages.{age_by, ahead_of};
ghost use Rattle.rrc_cache.specs.Keyed.{name_hash};

use crate::aged_held::AgedHeld;
use crate::lookup::Lookup;
use crate::store::Store;
use rrc_history::{AskRef, Found, Held, ReplyRef, governing, recent_failure, reply_of, retry_from};
use rrc_name::Slot;

/// The NXDOMAIN or failure that is cached of an ask's name, which is none where none may be.
#[inline(always)]
fn get_negative<'a>(
    store: &'a Store,
    hash: u64,
    ask: AskRef<'_>,
    slot: Slot,
    may_be_kept: bool,
) -> AgedHeld<'a>
    requires hash { hash ≡ name_hash store.now.seeded (ask_in ask).name }
    requires kept { may_be_kept ≡ false → entry_at (key_at (ask_in ask) slot) store.now.entries ≡ None }
    ensures held { option_map held_in result.held ≡ entry_at (key_at (ask_in ask.entry) slot) store.now.entries }
    ensures ahead { IfSome result.held (λ _. ahead_of (key_at (ask_in ask.entry) slot) store.now.entries ≤ result.age) }
{
    if may_be_kept {
        store.get(hash, ask.key_at(slot))
    } else {
        AgedHeld { held: None, age: 0 }
    }
}

/// The age of the entry that governs, of those of the set and of the NXDOMAIN.
fn governing_age(governing: Option<Held<'_>>, set: u64, nx: u64) -> u64
    ensures { result ≡ age_by (option_map held_in governing.entry) set nx }
{
    match governing {
        Some(held) => {
            let key = held.key;
            match key.slot {
                Slot::Nx => nx,
                Slot::Set(_) | Slot::Failed(_) => set,
            }
        }
        None => 0,
    }
}

/// What an ask, whose name has the hash, is answered from what is kept, the entry that answers, and
/// its age. That the name does not exist, and that asking failed, are looked up only where NXDOMAIN
/// or a failure may be cached of the name, and that asking failed only where no entry answers
/// without it.
#[inline(always)]
pub(crate) fn judge<'a>(store: &'a Store, hash: u64, ask: AskRef<'_>, stale: u64) -> Lookup<'a>
    requires hash { hash ≡ name_hash store.now.seeded (ask_in ask).name }
    requires stale { stale ≤ 604800 }
    requires timely { AllByRecursion IsTimely store.now.entries }
    ensures reply { reply_in result.reply ≡ reply_by stale (found_among store.now.entries (ask_in ask.entry)) (ask_in ask.entry) }
    ensures answering { option_map held_in result.entry ≡ answering (found_among store.now.entries (ask_in ask.entry)) (ask_in ask.entry) (reply_in result.reply) }
    ensures ahead { IfSome result.entry (λ held. ahead_of held.key.now store.now.entries ≤ result.age) }
    ensures miss { IfNone result.entry (result.age ≡ 0) }
{
    // Neither the filter nor the set is usually in the processor's cache. The filter is read first,
    // so that both are loaded at the same time.
    let may_hold = store.may_hold_negative(hash);
    let set = store.get(hash, ask.key_at(Slot::Set(ask.rtype)));
    let nx = get_negative(store, hash, ask, Slot::Nx, may_hold);
    let governing = governing(set.held, nx.held, ask.moment);
    let age = governing_age(governing, set.age, nx.age);
    if let Some(reply) = reply_of(governing, ask, stale, None) {
        return Lookup {
            reply,
            entry: governing,
            age,
        };
    }
    let failed = get_negative(store, hash, ask, Slot::Failed(ask.rtype), may_hold);
    let found = Found {
        set: set.held,
        nx: nx.held,
        failed: failed.held,
    };
    let failure = recent_failure(found, ask.moment);
    match reply_of(governing, ask, stale, failure) {
        Some(reply) => Lookup {
            reply,
            entry: governing,
            age,
        },
        None => {
            let retry_from = retry_from(failure);
            Lookup {
                reply: ReplyRef::Miss { retry_from },
                entry: None,
                age: 0,
            }
        }
    }
}
