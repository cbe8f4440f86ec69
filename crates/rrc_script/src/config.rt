// SPDX-License-Identifier: MIT
ghost use Rattle.std.specs.Prelude.{◌≡◌, ◌↔◌, ◌≤◌, IsSome, IfSome};

use rrc_history::Rules;
use rrc_sets::Limits;

/// How a trace is replayed: by how many workers, over how many parts of a cache, and by which rules
/// and limits.
#[derive(Clone, Copy, Debug, PartialEq, Eq, Hash)]
pub struct Config {
    /// How many workers take the lines: 1 to 64.
    pub workers: usize,
    /// How many parts the cache has: 1 to 64.
    pub parts: usize,
    /// The rules of each part.
    pub rules: Rules,
    pub limits: Limits,
    pub ghost some_workers: { 1 ≤ workers },
    pub ghost few_workers: { workers ≤ 64 },
    pub ghost some_parts: { 1 ≤ parts },
    pub ghost few_parts: { parts ≤ 64 },
}

impl Config {
    ghost use Rattle.rrc_script.specs.Configs.{MayBeConfig, ConfigIs};

    /// The config of so many workers and parts, where each number is 1 to 64.
    pub fn new(workers: usize, parts: usize, rules: Rules, limits: Limits) -> Option<Config>
        ensures within { IsSome result ↔ MayBeConfig workers parts }
        ensures value { IfSome result (λ config. ConfigIs config workers parts rules limits) }
    {
        if !(1..=64).contains(&workers) || !(1..=64).contains(&parts) {
            return None;
        }
        Some(Config {
            workers,
            parts,
            rules,
            limits,
        })
    }
}
