// SPDX-License-Identifier: MIT
ghost use Rattle.std.specs.Prelude.{◌≡◌, true, false, IfOk, IfErr, OnOk, OnErr};
ghost use Rattle.rrc_history.specs.Fits.{fits, is_set, is_failed, is_lifetime};

use crate::body::Body;
use rrc_name::{Key, Slot};
use std::alloc::AllocError;
use std::marker::Model;
use thiserror::Error;

/// A body that a cache is to keep under a key, at a moment in seconds. The body fits the key.
#[derive(Debug, Drop)]
pub struct Offer {
    pub key: Key,
    pub body: Body,
    pub moment: u64,
}

impl Model for Offer {
    ghost use Rattle.std.specs.Prelude.{◌≡◌, true};
    ghost use Rattle.rrc_history.specs.Fits.{OfferOf, fits};

    ghost Value = { OfferOf };

    ghost view = { λ o. record { key = o.key; body = o.body; moment = o.moment } };

    ghost invariant = { λ o. fits o.key o.body ≡ true };

    ghost inverse = { λ o. record { key = o.key; body = o.body; moment = o.moment } };
}

/// Why a body was not taken.
#[derive(Debug, Drop, Error)]
pub enum OfferFault {
    /// The body does not fit the key. Both are handed back.
    #[error("the body does not fit the key")]
    WrongBody { key: Key, body: Body },
}

impl OfferFault {
    ghost use Rattle.rrc_history.specs.Faults.{number_of};

    /// The number of the fault: 1 for `WrongBody`.
    pub fn number(&self) -> u8
        ensures value { result ≡ number_of self.now }
    {
        match self {
            OfferFault::WrongBody { .. } => 1,
        }
    }
}

/// Whether a body may stand under a key.
pub(crate) fn is_fit(key: &Key, body: &Body) -> bool
    ensures { result ≡ fits key.now body.now }
{
    match body {
        Body::Positive {
            owner,
            items,
            ttl,
            ..
        } => is_set(key.slot) && owner.same(&key.name) && !items.is_empty() && is_lifetime(*ttl),
        Body::Negative { ttl, .. } => !is_failed(key.slot) && is_lifetime(*ttl),
        Body::Failure { ttl } => is_failed(key.slot) && is_lifetime(*ttl),
    }
}

fn is_set(slot: Slot) -> bool
    ensures { result ≡ is_set slot }
{
    matches!(slot, Slot::Set(_))
}

fn is_failed(slot: Slot) -> bool
    ensures { result ≡ is_failed slot }
{
    matches!(slot, Slot::Failed(_))
}

fn is_lifetime(ttl: u32) -> bool
    ensures { result ≡ is_lifetime ttl }
{
    ttl < 1 << 31
}

impl Offer {
    /// An offer, where the body fits the key: a positive one a `Slot::Set` of its owner's folded
    /// name, with one item at least, a negative one a `Slot::Set` or `Slot::Nx`, a failure a
    /// `Slot::Failed`; each with a ttl of at most 2^31 - 1 seconds (RFC 2181 section 8). It takes
    /// no memory.
    pub fn new(key: Key, body: Body, moment: u64) -> Result<Offer, OfferFault>
        ensures ok { IfOk result (λ offer. offer ≡ record { key = key; body = body; moment = moment }) }
        ensures fits { OnOk result (fits key body ≡ true) }
        ensures wrong_body { OnErr result (fits key body ≡ false) }
        ensures handed_back { IfErr result (λ fault. fault ≡ OfferFault.WrongBody key body) }
    {
        if is_fit(&key, &body) {
            Ok(Offer { key, body, moment })
        } else {
            Err(OfferFault::WrongBody { key, body })
        }
    }
}

impl Clone for Offer {
    ghost is_clone = { λ a b. b ≡ a };

    fn clone(&self) -> Result<Offer, AllocError> {
        Ok(Offer {
            key: self.key.clone()?,
            body: self.body.clone()?,
            moment: self.moment,
        })
    }
}
