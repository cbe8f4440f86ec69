// SPDX-License-Identifier: MIT
ghost use Rattle.std.specs.Prelude.{◌≡◌, ◌<◌, ◌↔◌, [], length, drop, map, slice_set, slice_index_or, IfOk, IfSome, IfNone, IsTrue};
ghost use Rattle.std.specs.List.{All};
ghost use Rattle.rrc_collate.specs.Draws.{IsNext, IsFirst, HasNoFirst, IsDrawn, IsOnlyDraw, CanNotDraw};

use crate::drawn::Drawn;
use crate::hands::Hands;
use crate::operations::Operations;
use crate::script::{Call, is_call_of, tag_of};
use rrc_history::{Event, Tag};
use std::alloc::{AllocError, Global};

/// Whether an event is of this call, and stands in the trace where it is to.
fn is_next(event: &Event, tag: Tag, call: &Call) -> bool
    ensures { IsTrue result ↔ IsNext tag call.now event.now }
{
    let found = tag_of(event);
    found.line == tag.line && found.place == tag.place && is_call_of(event, call)
}

/// Takes the first event of a worker's hand, and answers it where it is of this call.
fn take_next<'a>(hands: &mut Hands<'a>, worker: usize, tag: Tag, call: &Call) -> Option<&'a Event>
    requires { worker < length hands.old }
    ensures some { IfSome result (λ event. IsFirst tag call.now event.now (slice_index_or hands.old worker [])) }
    ensures none { IfNone result (HasNoFirst tag call.now (slice_index_or hands.old worker [])) }
    ensures rest { hands.new ≡ slice_set hands.old worker (drop 1 (slice_index_or hands.old worker [])) }
{
    let event = hands.take(worker)?;
    if is_next(event, tag, call) {
        Some(event)
    } else {
        None
    }
}

/// The events of a line, one for each of its operations, in order of place. Each is the next of the
/// worker's in the part that the operation goes to, and is taken from there. `None` where one of
/// them is not of its operation.
pub(crate) fn draw<'a>(
    alloc: Global,
    parts: &mut [Hands<'a>],
    worker: usize,
    line: u64,
    script: &Operations,
) -> Result<Option<Drawn<'a>>, AllocError>
    requires workers { All (λ hands. worker < length hands) parts.old }
    requires parts { All (λ operation. operation.part < length parts.old) script.now }
    ensures drawn { IfOk result (λ drawn. IfSome drawn (λ events. IsDrawn parts.old worker line script.now (map (λ event. event.now) events.items) parts.new)) }
    ensures only { IfOk result (λ drawn. IfSome drawn (λ events. IsOnlyDraw parts.old worker line script.now (map (λ event. event.now) events.items) parts.new)) }
    ensures none { IfOk result (λ drawn. IfNone drawn (CanNotDraw parts.old worker line script.now)) }
{
    let mut events = Drawn::with_capacity(alloc, script.len())?;
    for place in 0..script.len() {
        let operation = script.at(place);
        let tag = Tag {
            line,
            place: place as u64,
        };
        match take_next(&mut parts[operation.part], worker, tag, operation.call) {
            None => return Ok(None),
            Some(event) => events.push(alloc, event)?,
        }
    }
    Ok(Some(events))
}
