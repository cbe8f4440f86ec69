// SPDX-License-Identifier: MIT
/// What became of the offers of a message: how many were kept, how many cleared what their key
/// held, and how many were outranked, since what their key holds is trusted more.
#[repr(C)]
#[derive(Clone, Copy, Debug)]
pub struct Counts {
    pub kept: u64,
    pub cleared: u64,
    pub outranked: u64,
}

/// How long what a response says may be kept, in seconds.
#[repr(C)]
#[derive(Clone, Copy, Debug)]
pub struct Bounds {
    /// The most that data live: 1 to 604,800.
    pub cap: u32,
    /// The most that a negative answer lives: 1 to 604,800.
    pub negative_cap: u32,
    /// How long a failure is remembered: 1 to 300.
    pub recheck: u32,
}
