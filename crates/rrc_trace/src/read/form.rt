// SPDX-License-Identifier: MIT
ghost use Rattle.rrc_text.specs.Fields.{said_at};
ghost use Rattle.rrc_text.specs.Gives.{Gives};
ghost use Rattle.rrc_trace.specs.Forms.{form_of};

use rrc_text::{LineFault, field_at};

/// What the first word of a line says that the line is.
#[derive(Clone, Copy)]
pub(crate) enum Form {
    Put,
    Ask,
    Fail,
    Response,
    Fetch,
    Sweep,
    Checkpoint,
}

/// The form of a line, and the octets behind its word.
pub(crate) fn form_at(octets: &[u8]) -> Result<(Form, &[u8]), LineFault>
    ensures { Gives (λ found. (found.0, found.1.now)) result (said_at form_of octets.now) }
{
    let (field, rest) = field_at(octets)?;
    if field == b"put".as_slice() {
        Ok((Form::Put, rest))
    } else if field == b"ask".as_slice() {
        Ok((Form::Ask, rest))
    } else if field == b"fail".as_slice() {
        Ok((Form::Fail, rest))
    } else if field == b"response".as_slice() {
        Ok((Form::Response, rest))
    } else if field == b"fetch".as_slice() {
        Ok((Form::Fetch, rest))
    } else if field == b"sweep".as_slice() {
        Ok((Form::Sweep, rest))
    } else if field == b"checkpoint".as_slice() {
        Ok((Form::Checkpoint, rest))
    } else {
        Err(LineFault::NotOne)
    }
}
