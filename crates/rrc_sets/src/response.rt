// SPDX-License-Identifier: MIT
use crate::limits::Limits;
use rrc_name::Name;
use rrc_wire::Message;

/// A response, and what else counts for what it offers.
#[derive(Clone, Copy, Debug)]
pub(crate) struct Response<'a> {
    pub(crate) message: &'a Message,
    /// The zone whose servers were asked.
    pub(crate) zone: &'a Name,
    /// When it came, in seconds.
    pub(crate) moment: u64,
    pub(crate) limits: &'a Limits,
}
