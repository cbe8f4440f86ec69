// SPDX-License-Identifier: MIT
ghost use Rattle.std.specs.Prelude.{◌≡◌};
ghost use Rattle.rrc_history.specs.Lives.{rank};

use rrc_name::{Name, Octets, RdataList, Shared};
use std::alloc::AllocError;

/// How far the place where a set stood is trusted (RFC 2181 section 5.4.1), from low to high.
#[derive(Clone, Copy, Debug, PartialEq, Eq, PartialOrd, Ord, Hash)]
pub enum Trust {
    /// The additional section, or the authority section of a reply that is not authoritative: glue.
    /// It never answers a question.
    Additional = 1,
    /// The answer section in any other case than the last one.
    NonAuthoritativeAnswer = 2,
    /// The authority section of an authoritative reply.
    Authority = 3,
    /// The answer section of an authoritative reply, under the name that was asked for.
    AuthoritativeAnswer = 4,
}

impl Trust {
    /// The rank, 1 to 4: data replace unexpired data of no higher one (RFC 2181 section 5.4.1).
    pub fn rank(self) -> u8
        ensures { result ≡ rank self }
    {
        match self {
            Trust::Additional => 1,
            Trust::NonAuthoritativeAnswer => 2,
            Trust::Authority => 3,
            Trust::AuthoritativeAnswer => 4,
        }
    }
}

/// What a key may hold.
#[derive(Debug, Drop)]
pub enum Body {
    /// The data of an RRset, one at least, under the spelling of its owner as received; for `ttl`
    /// seconds.
    Positive {
        trust: Trust,
        ttl: u32,
        owner: Name,
        items: Shared<RdataList>,
    },
    /// That the name or the type does not exist, with the SOA record that says so, its data
    /// expanded (RFC 2308 section 5); for `ttl` seconds.
    Negative {
        trust: Trust,
        ttl: u32,
        soa_owner: Name,
        soa: Shared<Octets>,
    },
    /// That asking failed (RFC 8767 section 5); for `ttl` seconds.
    Failure {
        ttl: u32,
    },
}

impl Clone for Body {
    ghost use Rattle.std.specs.Prelude.{◌≡◌};

    ghost is_clone = { λ a b. b ≡ a };

    fn clone(&self) -> Result<Body, AllocError> {
        match self {
            Body::Positive {
                owner,
                items,
                trust,
                ttl,
            } => Ok(Body::Positive {
                owner: owner.clone()?,
                items: items.clone()?,
                trust: *trust,
                ttl: *ttl,
            }),
            Body::Negative {
                soa_owner,
                soa,
                trust,
                ttl,
            } => Ok(Body::Negative {
                soa_owner: soa_owner.clone()?,
                soa: soa.clone()?,
                trust: *trust,
                ttl: *ttl,
            }),
            Body::Failure { ttl } => Ok(Body::Failure { ttl: *ttl }),
        }
    }
}

impl PartialEq for Body {
    ghost use Rattle.rrc_history.specs.Equality.{body_eq};
    ghost use Rattle.rrc_history.specs.lemmas.EqualityLaws.{body_eq-laws};
    ghost use Rattle.std.specs.Cmp.{partial_equiv_from_equiv};

    ghost eq = { body_eq };

    ghost laws = { partial_equiv_from_equiv body_eq-laws };

    fn eq(&self, other: &Body) -> bool {
        match (self, other) {
            (
                Body::Positive {
                    trust,
                    ttl,
                    owner,
                    items,
                },
                Body::Positive {
                    trust: other_trust,
                    ttl: other_ttl,
                    owner: other_owner,
                    items: other_items,
                },
            ) => {
                *trust as u8 == *other_trust as u8
                    && ttl == other_ttl
                    && owner == other_owner
                    && items == other_items
            }
            (
                Body::Negative {
                    trust,
                    ttl,
                    soa_owner,
                    soa,
                },
                Body::Negative {
                    trust: other_trust,
                    ttl: other_ttl,
                    soa_owner: other_owner,
                    soa: other_soa,
                },
            ) => {
                *trust as u8 == *other_trust as u8
                    && ttl == other_ttl
                    && soa_owner == other_owner
                    && soa == other_soa
            }
            (Body::Failure { ttl }, Body::Failure { ttl: other_ttl }) => ttl == other_ttl,
            _ => false,
        }
    }
}

impl Eq for Body {
    ghost use Rattle.rrc_history.specs.lemmas.EqualityLaws.{body_eq-laws};

    ghost laws = { body_eq-laws };
}
