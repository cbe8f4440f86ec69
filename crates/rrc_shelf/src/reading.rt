// SPDX-License-Identifier: MIT
ghost use Rattle.std.specs.Prelude.{◌≡◌};
ghost use Rattle.std.specs.List.{All};

use crate::summary::Summary;
use rrc_history::Offer;

/// An offer, and the part that its name lies in.
#[derive(Drop)]
pub struct Placed {
    pub part: u64,
    pub offer: Offer,
}

/// What a message says, and what it offers, all at the moment of its reading, each offer beside the
/// part, of 1 to 64 parts, that its name lies in by a seed.
#[derive(Drop)]
pub struct Reading {
    pub parts: u64,
    pub moment: u64,
    pub seed: [u8; 16],
    pub summary: Summary,
    pub placed: Vec<Placed>,
    pub ghost moments: { All (λ one. one.offer.moment ≡ moment) placed.items },
}
