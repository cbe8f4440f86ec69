// SPDX-License-Identifier: MIT
ghost use Rattle.std.specs.Prelude.{◌≡◌};
ghost use Rattle.rrc_report.specs.Limits.{LIMITS};

use rrc_sets::Limits;

/// The limits by which the program replays a trace: data live for a week at most (RFC 8767 section
/// 4), a negative answer for three hours (RFC 2308 section 5), and a failure is remembered for half
/// a minute (RFC 2308 section 7, RFC 8767 section 5).
pub fn usual_limits() -> Limits
    ensures { result ≡ LIMITS }
{
    Limits {
        cap: 604_800,
        negative_cap: 10_800,
        recheck: 30,
    }
}
