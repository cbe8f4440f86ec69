// SPDX-License-Identifier: MIT
//! The numbers of the types that the rules speak of, and of the query type for all of them.

/// An IPv4 address (RFC 1035 section 3.4.1).
pub const A: u16 = 1;

/// A name server of a zone (RFC 1035 section 3.3.11).
pub const NS: u16 = 2;

/// The canonical name of an alias (RFC 1035 section 3.3.1).
pub const CNAME: u16 = 5;

/// The start of a zone of authority (RFC 1035 section 3.3.13).
pub const SOA: u16 = 6;

/// A mail exchange (RFC 1035 section 3.3.9).
pub const MX: u16 = 15;

/// An IPv6 address (RFC 3596 section 2.1).
pub const AAAA: u16 = 28;

/// The host of a service (RFC 2782).
pub const SRV: u16 = 33;

/// The canonical name of all names below an owner (RFC 6672 section 2.1).
pub const DNAME: u16 = 39;

/// A digest of a key of the zone below a cut (RFC 4034 section 5).
pub const DS: u16 = 43;

/// All types, in a question (RFC 1035 section 3.2.3, RFC 8482).
pub const ANY: u16 = 255;
