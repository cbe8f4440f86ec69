// SPDX-License-Identifier: MIT
use crate::{FAULT, random_seed};
use rrc_replay::{Audited, Finding, audit_archive};
use std::io;
use std::io::{ErrorKind, Read, Write};
use std::process::ExitCode;

/// Why nothing was found of an archive, or what was found not told.
#[derive(Clone, Copy, Debug)]
enum AuditFault {
    Read,
    Write,
    Memory,
}

impl AuditFault {
    fn words(self) -> &'static str {
        match self {
            AuditFault::Read => "the archive could not be read",
            AuditFault::Write => "what was found could not be written",
            AuditFault::Memory => "memory was refused",
        }
    }
}

/// All that is on standard input.
fn read_all(rt: &HostRuntime) -> Result<Vec<u8>, AuditFault> {
    let mut octets = Vec::new(rt.alloc());
    match rt.reader().read_to_end(&mut octets) {
        Ok(_) => Ok(octets),
        Err(error) if error.kind() == ErrorKind::OutOfMemory => Err(AuditFault::Memory),
        Err(_) => Err(AuditFault::Read),
    }
}

fn write_all(rt: &HostRuntime, text: &[u8]) -> io::Result<()> {
    let mut writer = io::writer(rt);
    writer.write_all(text)?;
    writer.flush()
}

/// What was found of the archive on standard input, once it was told on standard output.
fn found(rt: &HostRuntime) -> Result<Finding, AuditFault> {
    let seed = random_seed(rt).map_err(|_| AuditFault::Read)?;
    let octets = read_all(rt)?;
    let audited: Audited = match audit_archive(rt.alloc(), octets.as_slice(), seed) {
        Ok(audited) => audited,
        Err(_) => return Err(AuditFault::Memory),
    };
    match write_all(rt, audited.text.as_slice()) {
        Ok(()) => Ok(audited.finding),
        Err(_) => Err(AuditFault::Write),
    }
}

/// Audits the history that the archive on standard input tells, and tells on standard output what
/// was found: status 0 where it is legal.
pub(crate) fn audited(rt: &HostRuntime) -> ExitCode {
    match found(rt) {
        Ok(Finding::Legal) => ExitCode::SUCCESS,
        Ok(Finding::NotLegal) => ExitCode::from(FAULT),
        Err(fault) => {
            let words = fault.words();
            let _ = eprintln!(rt; "rrcache: {words}");
            ExitCode::from(FAULT)
        }
    }
}
