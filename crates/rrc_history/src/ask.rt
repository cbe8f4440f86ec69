// SPDX-License-Identifier: MIT
use crate::ask_ref::AskRef;
use rrc_name::Name;
use std::alloc::AllocError;
use std::marker::Model;

/// What an answer is for.
#[derive(Clone, Copy, Debug, PartialEq, Eq, Hash)]
pub enum Purpose {
    /// Anything, as the addresses of a server: glue will do.
    Any,
    /// To answer a question: glue will not do (RFC 2181 section 5.4.1).
    Answer,
}

/// Whether a stale answer will do (RFC 8767 section 5).
#[derive(Clone, Copy, Debug, PartialEq, Eq, Hash)]
pub enum Mode {
    /// It will not, as for a query that asks for no recursion.
    NoStale,
    /// It will where asking has failed recently.
    Failed,
    /// It will, since the client has waited long enough.
    Now,
}

/// A question of a resolver's to its cache, at a moment in seconds. The name is folded.
#[derive(Debug, Drop)]
pub struct Ask {
    pub name: Name,
    pub class: u16,
    pub rtype: u16,
    pub moment: u64,
    pub purpose: Purpose,
    pub mode: Mode,
}

impl Model for Ask {
    ghost use Rattle.rrc_name.specs.Key.{IsFolded};
    ghost use Rattle.rrc_history.specs.Asked.{AskOf};

    ghost Value = { AskOf };

    ghost view = { λ a. record { name = a.name; class = a.class; rtype = a.rtype; moment = a.moment; purpose = a.purpose; mode = a.mode } };

    ghost invariant = { λ a. IsFolded a.name };

    ghost inverse = { λ a. record { name = a.name; class = a.class; rtype = a.rtype; moment = a.moment; purpose = a.purpose; mode = a.mode } };
}

impl Ask {
    ghost use Rattle.std.specs.Prelude.{◌≡◌};
    ghost use Rattle.rrc_history.specs.Views.{ask_in};

    /// The ask, lent.
    pub fn as_ref(&self) -> AskRef<'_>
        ensures { ask_in result ≡ self.now }
    {
        AskRef {
            name: self.name.as_ref(),
            class: self.class,
            rtype: self.rtype,
            moment: self.moment,
            purpose: self.purpose,
            mode: self.mode,
        }
    }
}

impl Clone for Ask {
    ghost use Rattle.std.specs.Prelude.{◌≡◌};

    ghost is_clone = { λ a b. b ≡ a };

    fn clone(&self) -> Result<Ask, AllocError> {
        Ok(Ask {
            name: self.name.clone()?,
            class: self.class,
            rtype: self.rtype,
            moment: self.moment,
            purpose: self.purpose,
            mode: self.mode,
        })
    }
}
