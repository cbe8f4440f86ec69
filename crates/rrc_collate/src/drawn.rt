// SPDX-License-Identifier: MIT
ghost use Rattle.std.specs.Prelude.{◌≡◌, [], ◌∷◌, ◌++◌, IfOk, OnOk};

use rrc_history::Event;
use std::alloc::{AllocError, Global};
use std::marker::Model;
use std::slice;

/// How events are held: one alone in the value itself.
#[derive(Drop)]
pub(crate) enum HeldEvents<'a> {
    Nothing,
    Alone(&'a Event),
    Listed(Vec<&'a Event>),
}

/// The events of a line, in the order of its operations. Contracts see the list of them. Nearly
/// each line has one, and a trace may have as many of these lists as lines: so one alone, and none,
/// take no memory.
#[derive(Drop)]
pub struct Drawn<'a> {
    held: HeldEvents<'a>,
}

impl<'a> Model for Drawn<'a> {
    ghost use Rattle.rrc_collate.specs.Drawn.{DrawnOf, drawn_of};

    ghost Value = { DrawnOf };

    ghost view = { λ d. drawn_of d.held };
}

impl<'a> Drawn<'a> {
    /// No events, with room for so many.
    pub(crate) fn with_capacity(alloc: Global, events: usize) -> Result<Drawn<'a>, AllocError>
        ensures { IfOk result (λ drawn. drawn.items ≡ []) }
    {
        if events > 1 {
            Ok(Drawn {
                held: HeldEvents::Listed(Vec::with_capacity(alloc, events)?),
            })
        } else {
            Ok(Drawn {
                held: HeldEvents::Nothing,
            })
        }
    }

    /// Puts an event behind the others.
    pub(crate) fn push(&mut self, alloc: Global, event: &'a Event) -> Result<(), AllocError>
        ensures items { OnOk result (self.new.items ≡ self.old.items ++ event.entry ∷ []) }
    {
        match &mut self.held {
            HeldEvents::Nothing => self.held = HeldEvents::Alone(event),
            HeldEvents::Alone(first) => {
                let mut events = Vec::with_capacity(alloc, 2)?;
                events.push(*first)?;
                events.push(event)?;
                self.held = HeldEvents::Listed(events);
            }
            HeldEvents::Listed(events) => events.push(event)?,
        }
        Ok(())
    }

    pub fn as_slice(&self) -> &[&'a Event]
        ensures value { result.now ≡ self.now.items }
    {
        match &self.held {
            HeldEvents::Nothing => &[],
            HeldEvents::Alone(event) => slice::from_ref(event),
            HeldEvents::Listed(events) => events.as_slice(),
        }
    }
}
