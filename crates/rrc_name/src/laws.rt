// SPDX-License-Identifier: MIT
ghost use Rattle.rrc_name.specs.Reading.{IsReadAsSpelled};
ghost use Rattle.rrc_name.specs.Text.{IsReadAgain, OneNameOrFault};
ghost use Rattle.rrc_name.specs.WireFault.{OneFormOrFault};

/// The text of each name spells that name, octet for octet: `Name::from_text` undoes
/// `Name::to_text`. The function does nothing; its contract is the law.
pub fn reading_undoes_printing()
    ensures { IsReadAgain }
{}

/// Each text spells exactly one name, or it has exactly one first fault, and never both (RFC 1035
/// section 5.1); reading octet by octet answers which. The function does nothing; its contract is
/// the law.
pub fn one_name_or_fault()
    ensures one { OneNameOrFault }
    ensures read { IsReadAsSpelled }
{}

/// Octets are the wire form of a name, or they have exactly one first fault, and never both (RFC
/// 1035 section 3.1). The function does nothing; its contract is the law.
pub fn one_wire_form_or_fault()
    ensures { OneFormOrFault }
{}
