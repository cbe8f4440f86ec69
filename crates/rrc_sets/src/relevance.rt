// SPDX-License-Identifier: MIT
ghost use Rattle.std.specs.Prelude.{◌≡◌};

/// How much of a response is relevant at most. They bound the time that it takes to tell, which is
/// in proportion to the octets of the message times the aliases and hosts, and what one message
/// leaves in a cache: a relevant RRset has no more than `octets`.
#[derive(Clone, Copy, Debug, PartialEq, Eq, Hash)]
pub struct RelevanceLimits {
    /// The most aliases behind the question's name (RFC 1034 section 3.6.2): 0 to 255, by default
    /// 11.
    pub aliases: u8,
    /// The most hosts whose addresses are relevant: 0 to 255, by default 20. They are named by NS,
    /// MX and SRV records, and each counts once.
    pub hosts: u8,
    /// The most octets of the rdata of an RRset, all together: by default 16,384.
    pub octets: u32,
    /// Whether NS RRsets of the authority section are relevant in referrals alone (RFC 1034 section
    /// 4.3.2): where AA is clear and their owner is below the zone; or where they were themselves
    /// asked for. By default so: else the servers of a zone may prolong its delegation, also one
    /// that its parent has ended.
    pub only_referrals: bool,
    /// Whether an RRset whose records have different TTLs is relevant where AA is clear, with the
    /// lowest of them. By default it is not: RFC 2181 section 5.2 has a reply that is not
    /// authoritative treated as an error there.
    pub lowest_ttl: bool,
    /// Whether an authoritative denial of a name (RFC 2308 section 2.1) comes with offers that
    /// clear what is held of it: of its addresses, its alias, and the type that was asked for. By
    /// default it does not, and what was stored before it answers again once it is gone.
    pub clears_denied: bool,
}

impl Default for RelevanceLimits {
    ghost use Rattle.rrc_sets.specs.Relevance.{AreDefault};

    ghost is_default = { AreDefault };

    fn default() -> RelevanceLimits {
        RelevanceLimits {
            aliases: 11,
            hosts: 20,
            octets: 16_384,
            only_referrals: true,
            lowest_ttl: false,
            clears_denied: false,
        }
    }
}
