// SPDX-License-Identifier: MIT
ghost use Rattle.std.specs.Prelude.{◌≡◌, ◌<◌, ◌≤◌, ◌⊎◌, length};
ghost use Rattle.rrc_text.specs.Faults.{fault_number};
ghost use Rattle.rrc_page.specs.Told.{IsFilled, OnDone, OnSmall, OnRefused, line_of};

use rrc_trace::ReplayFault;

/// What a page is told beside the text: how many octets the text has, or at which line of the
/// trace, counted from 0, the fault is. What a call has no use for is 0.
#[repr(C)]
#[derive(Clone, Copy, Debug)]
pub struct Told {
    pub size: u64,
    pub line: u64,
}

/// What a page is told where the text is longer than the buffer. 1 to 9 are the numbers of faults.
const SMALL_BUFFER: u32 = 10;

/// What a page is told where an option is not in its range.
pub(crate) const BAD_OPTIONS: u32 = 11;

/// Writes a text to the front of a buffer, where it has room, and tells its size.
pub(crate) fn tell_text(text: &[u8], buffer: &mut [u8], told: &mut Told) -> u32
    ensures either { (result ≡ 0) ⊎ (result ≡ 10) }
    ensures done { OnDone result (IsFilled text.now buffer.old buffer.new) }
    ensures small { OnSmall result (length buffer.old < length text.now) }
    ensures kept { OnRefused result (buffer.new ≡ buffer.old) }
    ensures size { told.new.size ≡ length text.now }
{
    *told = Told {
        size: text.len() as u64,
        line: 0,
    };
    if text.len() > buffer.len() {
        return SMALL_BUFFER;
    }
    buffer[..text.len()].copy_from_slice(text);
    0
}

/// The number of a fault, and the line that it is at, or 0.
#[tactic(auto, using(crate::proofs::FaultNumbers::least, crate::proofs::FaultNumbers::most))]
pub(crate) fn tell_fault(fault: ReplayFault, told: &mut Told) -> u32
    ensures number { result ≡ fault_number fault }
    ensures some { 1 ≤ result }
    ensures few { result ≤ 9 }
    ensures line { told.new.line ≡ line_of fault }
{
    let line = match fault {
        ReplayFault::BadLine(line) => line,
        ReplayFault::Spent(line) => line,
        ReplayFault::TooManyQuestions(line) => line,
        _ => 0,
    };
    *told = Told { size: 0, line };
    u32::from(fault.number())
}
