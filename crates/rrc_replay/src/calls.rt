// SPDX-License-Identifier: MIT
use rrc_history::{Ask, Offer, Outcome, Reply, Tag};
use rrc_report::{Calls, Refused, called};
use rrc_share::SharedCache;
use std::sync::Wait;

/// The cache that the workers share, as one of them calls it.
#[derive(Drop)]
pub(crate) struct SharedCalls<'a, 'b, R> {
    pub(crate) rt: &'a R,
    pub(crate) cache: &'b SharedCache,
}

impl<R: Wait> Calls for SharedCalls<'_, '_, R> {
    ghost count = { λ s. s.cache.now };

    // Any answer: the report holds the answers against the histories of the parts.
    ghost makes = { λ old call new. Unit {0} };

    fn parts(&self) -> usize {
        self.cache.parts()
    }

    fn offer(&mut self, tag: Tag, offer: Offer) -> Result<Outcome, Refused> {
        called(self.cache.offer(self.rt, tag, offer))
    }

    fn ask(&mut self, tag: Tag, ask: &Ask) -> Result<Reply, Refused> {
        called(self.cache.ask(self.rt, tag, ask))
    }

    fn sweep_part(&mut self, part: usize, tag: Tag, moment: u64) -> Result<usize, Refused> {
        called(self.cache.sweep_part(self.rt, part, tag, moment))
    }

    fn close_part(&mut self, part: usize) -> Result<(), Refused> {
        called(self.cache.checkpoint_part(self.rt, part))
    }
}
