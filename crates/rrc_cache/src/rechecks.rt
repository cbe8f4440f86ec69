// SPDX-License-Identifier: MIT
ghost use Rattle.std.specs.Prelude.{◌≡◌, ◌∷◌, ◌&&◌, ◌≤◌, reverse, true, false, IfOk, IfErr, OnOk};
ghost use Rattle.rrc_history.specs.Auditing.{outcome_eq};
ghost use Rattle.rrc_history.specs.Lives.{LAST_MOMENT};
ghost use Rattle.rrc_history.specs.Past.{moment_of};
ghost use Rattle.rrc_history.specs.Right.{IsLegal, IsRight};
ghost use Rattle.rrc_history.specs.Sound.{AreSound};
ghost use Rattle.rrc_cache.specs.Calls.{Leaves, IsMadeAgain, evicted_eq};
ghost use Rattle.rrc_cache.specs.Rechecks.{IsFault};

use crate::part::KNOWN_SEED;
use crate::seeded::Seeded;
use crate::store::Store;
use crate::{answer, entries, sweep};
use rrc_history::{Event, FirstBad, LAST_MOMENT, Outcome, Rules, Snapshot};
use rrc_name::Key;
use std::alloc::{AllocError, Global};
use thiserror::Error;

/// Why a history was not found legal.
#[derive(Clone, Copy, Debug, PartialEq, Eq, Hash, Error)]
pub enum RecheckFault {
    #[error(transparent)]
    FirstBad(FirstBad),
    #[error("memory was refused")]
    Memory,
}

impl From<AllocError> for RecheckFault {
    ghost use Rattle.std.specs.Prelude.{◌≡◌};
    ghost use Rattle.rrc_cache.specs.declared.rechecks.RecheckFault.TheVariants.{Memory};

    ghost from_gives = { λ _ fault. fault ≡ Memory };

    fn from(_refused: AllocError) -> RecheckFault {
        RecheckFault::Memory
    }
}

/// Whether events, the oldest first, are a legal history from a snapshot, as `rrc_history::audit`
/// tells it, and else the first that is not right; or `Memory`.
///
/// It keeps what the snapshot holds, makes each call again, and compares what that writes. So its
/// time is that of the calls, in a long history as in a short one, and its memory that of the keys.
/// Keys are hashed behind a known seed: for a history whose names anyone may have picked,
/// `recheck_seeded` takes one that nobody knows.
pub fn recheck(alloc: Global, snapshot: &Snapshot, events: &[Event]) -> Result<(), RecheckFault>
    ensures ok { OnOk result (IsLegal snapshot.now (reverse events.now)) }
    ensures err { IfErr result (IsFault snapshot.now events.now) }
{
    recheck_seeded(alloc, snapshot, events, KNOWN_SEED)
}

/// What `recheck` tells, with keys hashed behind a seed. No answer depends on it.
pub fn recheck_seeded(
    alloc: Global,
    snapshot: &Snapshot,
    events: &[Event],
    seed: [u8; 16],
) -> Result<(), RecheckFault>
    ensures ok { OnOk result (IsLegal snapshot.now (reverse events.now)) }
    ensures err { IfErr result (IsFault snapshot.now events.now) }
{
    drop(replayed(alloc, Seeded::new(seed), snapshot, events)?);
    Ok(())
}

/// What legal events leave of a snapshot, or the first of them that is not right.
pub(crate) fn replayed(
    alloc: Global,
    seeded: Seeded,
    snapshot: &Snapshot,
    events: &[Event],
) -> Result<Store, RecheckFault>
    ensures ok { IfOk result (λ store. Leaves snapshot.now (reverse events.now) store.entries) }
    ensures err { IfErr result (IsFault snapshot.now events.now) }
{
    let mut store = Store::of(alloc, seeded, snapshot)?;
    for (place, event) in events.iter().enumerate() {
        if !is_right(alloc, &mut store, snapshot, &events[..place], event)? {
            return Err(RecheckFault::FirstBad(FirstBad(place)));
        }
    }
    Ok(store)
}

/// Whether an event is right behind others that left what the store holds. Where it is, the store
/// then holds what it leaves.
pub(crate) fn is_right(
    alloc: Global,
    store: &mut Store,
    snapshot: &Snapshot,
    past: &[Event],
    event: &Event,
) -> Result<bool, AllocError>
    requires leaves { Leaves snapshot.now (reverse past.now) store.old.entries }
    requires stale { store.old.stale ≡ snapshot.now.rules.stale }
    ensures right { IfOk result (λ is. is ≡ true → Leaves snapshot.now (event.now ∷ reverse past.now) store.new.entries) }
    ensures wrong { IfOk result (λ is. is ≡ false → IsRight snapshot.now (reverse past.now) event.now → ⊥) }
    ensures stale { store.new.stale ≡ store.old.stale }
{
    if u128::from(snapshot.first) + past.len() as u128 >= 1 << 62 {
        return Ok(false);
    }
    if event.moment() > LAST_MOMENT {
        return Ok(false);
    }
    let number = snapshot.first + past.len() as u64;
    is_made_again(alloc, store, snapshot.rules(), number, event)
}

/// Makes the call of an event again, and answers whether that writes just this event.
fn is_made_again(
    alloc: Global,
    store: &mut Store,
    rules: Rules,
    number: u64,
    event: &Event,
) -> Result<bool, AllocError>
    requires kept { AreSound rules.capacity number store.old.entries }
    requires stale { store.old.stale ≡ rules.stale }
    requires moment { moment_of event.now ≤ LAST_MOMENT }
    ensures again { IfOk result (λ same. IsMadeAgain rules number store.old.entries event.now same store.new.entries) }
    ensures stale { store.new.stale ≡ store.old.stale }
{
    match event {
        Event::Offered {
            offer,
            outcome,
            evicted,
            ..
        } => {
            let (became, went) = entries::take(store, offer, number, rules.capacity)?;
            Ok(is_told(became, &went, *outcome, evicted))
        }
        Event::Asked { ask, reply, .. } => {
            let ask = ask.as_ref();
            let hash = store.hash_of(ask.name);
            let (same, slot) = answer::compare(store, hash, ask, rules.stale, reply);
            answer::touch(store, hash, ask, slot);
            Ok(same)
        }
        Event::Swept { moment, gone, .. } => {
            let expired = sweep::expired_keys(alloc, store, *moment)?;
            sweep::remove(store, expired.as_slice());
            Ok(expired.as_slice() == gone.as_slice())
        }
    }
}

/// Whether an outcome and an evicted key are those that an event tells.
fn is_told(became: Outcome, went: &Option<Key>, outcome: Outcome, evicted: &Option<Key>) -> bool
    ensures { result ≡ (outcome_eq became outcome && evicted_eq went.now evicted.now) }
{
    became == outcome && is_same_key(went, evicted)
}

fn is_same_key(key: &Option<Key>, other: &Option<Key>) -> bool
    ensures { result ≡ evicted_eq key.now other.now }
{
    match (key, other) {
        (None, None) => true,
        (Some(key), Some(other)) => *key == *other,
        _ => false,
    }
}
