// SPDX-License-Identifier: MIT
//! Response codes (RFC 1035 section 4.1.1).

/// No error.
pub const NOERROR: u8 = 0;

/// The server could not read the query.
pub const FORMERR: u8 = 1;

/// The name does not exist.
pub const NXDOMAIN: u8 = 3;

/// The server does not do what was asked for.
pub const NOTIMP: u8 = 4;

/// The server will not do what was asked for.
pub const REFUSED: u8 = 5;
