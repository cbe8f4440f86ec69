// SPDX-License-Identifier: MIT
/// A type and a class of records (RFC 1035 section 3.2).
#[derive(Clone, Copy, Debug)]
pub struct Kind {
    pub rtype: u16,
    pub class: u16,
}
