// SPDX-License-Identifier: MIT
//! The numbers of the classes that the rules speak of (RFC 1035 section 3.2.4).

/// The Internet.
pub const IN: u16 = 1;

/// Chaosnet.
pub const CH: u16 = 3;
