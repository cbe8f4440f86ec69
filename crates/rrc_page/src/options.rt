// SPDX-License-Identifier: MIT
ghost use Rattle.std.specs.Prelude.{IfSome, IfNone};
ghost use Rattle.rrc_page.specs.Options.{IsConfigOf, MayBeOptions};

use rrc_history::Rules;
use rrc_report::usual_limits;
use rrc_script::Config;

/// Over how many parts a trace is replayed, and by which rules. The ranges are those of the
/// program's options.
#[repr(C)]
#[derive(Clone, Copy, Debug)]
pub struct Options {
    /// How many parts the cache has, 1 to 64.
    pub parts: u64,
    /// The most keys that a part holds, 1 to 65,536.
    pub capacity: u64,
    /// The most events of a chapter, 1 to 1,048,576.
    pub chapter: u64,
    /// For how many seconds past its time to live a set may answer, 0 to 604,800.
    pub stale: u64,
}

/// The config of one worker, where each option is in its range.
pub(crate) fn config_of(options: &Options) -> Option<Config>
    ensures some { IfSome result (IsConfigOf options.now) }
    ensures none { IfNone result (MayBeOptions options.now → ⊥) }
{
    let rules = Rules::new(options.capacity, options.chapter, options.stale)?;
    Config::new(1, options.parts as usize, rules, usual_limits())
}
