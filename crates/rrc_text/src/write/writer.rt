// SPDX-License-Identifier: MIT
ghost use Rattle.std.specs.Prelude.{◌≡◌, IfOk, OnOk, OnErr, take, Err, ℕ};
ghost use Rattle.std.specs.Io.KnownBytes.{Appends};
ghost use Rattle.rrc_text.specs.Writer.{AppendsFront};

use crate::fault::ReplayFault;
use std::io::Write;

/// Writes octets. `Write` where a write failed or took nothing; a beginning of the octets went out
/// then. Nothing that failed is tried again.
pub(crate) fn write_out<W: Write>(writer: &mut W, octets: &[u8]) -> Result<(), ReplayFault>
    ensures ok { OnOk result (Appends (W.contents writer.old) (W.contents writer.new) octets.now) }
    ensures err { OnErr result (result ≡ Err ReplayFault.Write) }
    ensures front { OnErr result (AppendsFront (W.contents writer.old) (W.contents writer.new) octets.now) }
{
    let mut written = 0;
    for _ in 0..octets.len() {
        if written >= octets.len() {
            break;
        }
        match writer.write(&octets[written..]) {
            Ok(0) => return Err(ReplayFault::Write),
            Ok(taken) => written += taken,
            Err(_) => return Err(ReplayFault::Write),
        }
    }
    Ok(())
}
