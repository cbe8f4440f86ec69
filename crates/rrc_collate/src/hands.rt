// SPDX-License-Identifier: MIT
ghost use Rattle.std.specs.Prelude.{◌≡◌, ◌<◌, ◌++◌, [], ◌∷◌, ◌↔◌, length, drop, replicate, slice_set, slice_get, slice_index_or, is_some, IfOk, IfSome, OnOk, IsTrue};
ghost use Rattle.std.specs.Option.{option_copied};
ghost use Rattle.std.specs.List.{All};
ghost use Rattle.rrc_collate.specs.Hands.{AreNamed, AreDealt};

use crate::script::tag_of;
use rrc_history::Event;
use std::alloc::{AllocError, Global};
use std::collections::VecDeque;
use std::marker::Model;

/// The events of a part, dealt to the workers that took their lines: to each worker its own, in
/// order. Contracts see the list of the hands, and each as the list of its events.
#[derive(Drop)]
pub(crate) struct Hands<'a> {
    hands: Vec<VecDeque<&'a Event>>,
}

impl<'a> Model for Hands<'a> {
    ghost use Rattle.std.specs.Prelude.{List, map};
    ghost use Rattle.rrc_history.specs.declared.event.Event.{Event};

    ghost Value = { List (List Event) };

    ghost view = { λ h. map (λ hand. map (λ event. event.now) hand.items) h.hands.items };
}

impl<'a> Hands<'a> {
    /// So many empty hands.
    fn empty(alloc: Global, workers: usize) -> Result<Hands<'a>, AllocError>
        ensures { IfOk result (λ hands. hands ≡ replicate workers []) }
    {
        let mut hands = Vec::with_capacity(alloc, workers)?;
        for _ in 0..workers {
            hands.push(VecDeque::new(alloc))?;
        }
        Ok(Hands { hands })
    }

    /// Puts an event behind the others of a worker.
    fn put(&mut self, worker: usize, event: &'a Event) -> Result<(), AllocError>
        requires { worker < length self.old }
        ensures { OnOk result (self.new ≡ slice_set self.old worker (slice_index_or self.old worker [] ++ event.now ∷ [])) }
    {
        self.hands[worker].push_back(event)?;
        Ok(())
    }

    /// Takes the first event of a worker's hand, if it has one.
    pub(crate) fn take(&mut self, worker: usize) -> Option<&'a Event>
        requires { worker < length self.old }
        ensures first { option_copied result ≡ slice_get (slice_index_or self.old worker []) 0 }
        ensures rest { self.new ≡ slice_set self.old worker (drop 1 (slice_index_or self.old worker [])) }
    {
        self.hands[worker].pop_front()
    }

    /// Whether every hand is empty.
    pub(crate) fn is_empty(&self) -> bool
        ensures { IsTrue result ↔ All (λ hand. hand ≡ []) self.now }
    {
        for hand in &self.hands {
            if !is_nothing(hand) {
                return false;
            }
        }
        true
    }
}

/// Whether a hand is empty.
fn is_nothing(hand: &VecDeque<&Event>) -> bool
    ensures { IsTrue result ↔ (hand.now.items ≡ []) }
{
    hand.is_empty()
}

/// Deals the events of a part. `owners` has the worker that took each line. `None` where an event
/// names a line that it has not.
pub(crate) fn deal<'a>(
    alloc: Global,
    workers: usize,
    owners: &[usize],
    events: &'a [Event],
) -> Result<Option<Hands<'a>>, AllocError>
    requires { All (λ owner. owner < workers) owners.now }
    ensures named { IfOk result (λ dealt. IsTrue (is_some dealt) ↔ AreNamed (length owners.now) events.now) }
    ensures dealt { IfOk result (λ dealt. IfSome dealt (λ hands. AreDealt workers owners.now events.now hands)) }
{
    let mut hands = Hands::empty(alloc, workers)?;
    for event in events {
        let line = tag_of(event).line as usize;
        if line >= owners.len() {
            return Ok(None);
        }
        hands.put(owners[line], event)?;
    }
    Ok(Some(hands))
}
