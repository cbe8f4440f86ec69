// SPDX-License-Identifier: MIT
ghost use Rattle.std.specs.Prelude.{◌≡◌, ◌+◌, ◌≤◌, length};
ghost use Rattle.rrc_wire.specs.Front.{begins_with_question, front_of, has_fields, same_spelling};

use crate::field::word_at;
use crate::header::{SIZE, flag, rcode_of};
use crate::question::Question;

/// What the header of any message tells (RFC 1035 section 4.1.1), also of a query or of one whose
/// other octets are no message.
#[derive(Clone, Copy, Debug, PartialEq, Eq, Hash)]
pub struct Front {
    pub id: u16,
    /// QR: the message is a response.
    pub is_response: bool,
    pub rcode: u8,
    /// QDCOUNT: how many questions there are.
    pub questions: u16,
}

/// What a header tells that octets begin with, which takes 12 octets. It takes no memory.
pub fn front_of(octets: &[u8]) -> Option<Front>
    ensures { result ≡ front_of octets.now }
{
    if octets.len() < SIZE {
        return None;
    }
    let flags = word_at(octets, 2);
    Some(Front {
        id: word_at(octets, 0),
        is_response: flag(flags, 15),
        rcode: rcode_of(flags),
        questions: word_at(octets, 4),
    })
}

/// Whether two names are the same, the case of letters told apart or not.
fn same_spelling(with_case: bool, a: &[u8], b: &[u8]) -> bool
    ensures { result ≡ same_spelling with_case a.now b.now }
{
    if with_case {
        a == b
    } else {
        a == b || a.eq_ignore_ascii_case(b)
    }
}

/// Whether the type and class of a question stand at a place.
fn has_fields(octets: &[u8], place: usize, question: &Question) -> bool
    requires { place + 4 ≤ length octets.now }
    ensures { result ≡ has_fields question.now octets.now place }
{
    word_at(octets, place) == question.qtype && word_at(octets, place + 2) == question.qclass
}

/// Whether this question stands right behind the header of octets, with its name written out, as
/// the first name of a message is (RFC 1035 section 4.1.4). Letters have to be of the same case or
/// not. The time is in proportion to the name's octets, however many there are behind it, and it
/// takes no memory.
#[tactic(auto, unfolding(crate::specs::Front::begins_with_question))]
pub fn begins_with_question(octets: &[u8], question: &Question, with_case: bool) -> bool
    ensures { result ≡ begins_with_question with_case question.now octets.now }
{
    let name = question.name.as_slice();
    let fields = SIZE + name.len();
    octets.len() >= fields + 4
        && same_spelling(with_case, name, &octets[SIZE..fields])
        && has_fields(octets, fields, question)
}
