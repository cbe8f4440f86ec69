// SPDX-License-Identifier: MIT
ghost use Rattle.std.specs.Prelude.{◌≡◌, IfOk, OnErr};
ghost use Rattle.rrc_shelf.specs.Checks.{number_of_call, number_of_reply};

use crate::status::{SMALL_BUFFER, Status};

/// What C is told of a call that only does something.
pub fn number_of_call(done: Result<(), Status>) -> u32
    ensures value { result ≡ number_of_call done }
    ensures shelf { result ≡ 1 → ⊥ }
{
    match done {
        Ok(()) => 0,
        Err(status) => status.number(),
    }
}

/// What C is told of a call that tells a number, which is then written.
pub fn number_of_u32(done: Result<u32, Status>, out: &mut u32) -> u32
    ensures offers { result ≡ 18 → ⊥ }
    ensures told { IfOk done (λ number. out.new ≡ number) }
    ensures kept { OnErr done (out.new ≡ out.old) }
    ensures status { result ≡ number_of_call done }
    ensures shelf { result ≡ 1 → ⊥ }
{
    match done {
        Ok(number) => {
            *out = number;
            0
        }
        Err(status) => status.number(),
    }
}

/// The same of a number of 64 bits.
pub fn number_of_u64(done: Result<u64, Status>, out: &mut u64) -> u32
    ensures told { IfOk done (λ number. out.new ≡ number) }
    ensures kept { OnErr done (out.new ≡ out.old) }
    ensures status { result ≡ number_of_call done }
    ensures shelf { result ≡ 1 → ⊥ }
{
    match done {
        Ok(number) => {
            *out = number;
            0
        }
        Err(status) => status.number(),
    }
}

/// What C is told of a call that tells a reply.
pub fn number_of_reply(fits: Result<bool, Status>) -> u32
    ensures value { result ≡ number_of_reply fits }
    ensures shelf { result ≡ 1 → ⊥ }
    ensures offers { result ≡ 18 → ⊥ }
{
    match fits {
        Ok(true) => 0,
        Ok(false) => SMALL_BUFFER,
        Err(status) => status.number(),
    }
}
