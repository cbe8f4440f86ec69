// SPDX-License-Identifier: MIT
ghost use Rattle.std.specs.Prelude.{◌≡◌};
ghost use Rattle.rrc_fakes.specs.Countdown.{is_due, behind};

/// Counts a call. Whether it is the one that goes wrong.
pub(crate) fn count_down(calls: &mut Option<usize>) -> bool
    ensures due { result ≡ is_due calls.old }
    ensures counts { calls.new ≡ behind calls.old }
{
    match *calls {
        Some(0) => {
            *calls = None;
            true
        }
        Some(count) => {
            *calls = Some(count - 1);
            false
        }
        None => false,
    }
}
