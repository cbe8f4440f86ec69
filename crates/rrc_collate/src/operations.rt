// SPDX-License-Identifier: MIT
ghost use Rattle.std.specs.Prelude.{◌≡◌, ◌<◌, [], ◌∷◌, length, slice_get, Some};
ghost use Rattle.rrc_collate.specs.Operations.{lent_operation, everywhere};

use crate::script::{Call, Operation};
use std::alloc::Global;
use std::marker::Model;

/// In which form operations are held: one alone, and one call on each part, in the value itself.
#[derive(Debug, Drop)]
pub(crate) enum Form {
    Alone(Operation),
    Listed(Vec<Operation>),
    /// This call on each of so many parts, in order of the parts.
    Everywhere { parts: usize, call: Call },
}

/// An operation whose call is lent: of operations that are one call on each part, none is made.
#[derive(Clone, Copy)]
pub struct OperationRef<'a> {
    pub part: usize,
    pub call: &'a Call,
}

/// The operations of a line, in order of place. Contracts see the list of them. Nearly each line
/// has one, a sweep has one for each part, and a trace may have as many of these lists as lines: so
/// one alone, none, and the same call on each part take no memory.
#[derive(Debug, Drop)]
pub struct Operations {
    held: Form,
}

impl Model for Operations {
    ghost use Rattle.std.specs.Prelude.{List};
    ghost use Rattle.rrc_collate.specs.declared.script.Operation.{Operation};
    ghost use Rattle.rrc_collate.specs.Operations.{operations_of};

    ghost Value = { List Operation };

    ghost view = { λ o. operations_of o.held };
}

fn lent(operation: &Operation) -> OperationRef<'_>
    ensures { lent_operation result ≡ operation.now }
{
    OperationRef {
        part: operation.part,
        call: &operation.call,
    }
}

impl Operations {
    /// No operations.
    pub fn none(alloc: Global) -> Operations
        ensures { result ≡ [] }
    {
        Operations {
            held: Form::Listed(Vec::new(alloc)),
        }
    }

    /// One operation alone.
    pub fn alone(operation: Operation) -> Operations
        ensures { result ≡ operation ∷ [] }
    {
        Operations {
            held: Form::Alone(operation),
        }
    }

    /// The operations of a vector.
    pub fn from_vec(operations: Vec<Operation>) -> Operations
        ensures { result ≡ operations.items }
    {
        Operations {
            held: Form::Listed(operations),
        }
    }

    /// This call on each of so many parts, in order of the parts.
    pub fn everywhere(parts: usize, call: Call) -> Operations
        ensures { result ≡ everywhere call 0 parts }
    {
        Operations {
            held: Form::Everywhere { parts, call },
        }
    }

    /// How many operations there are.
    pub fn len(&self) -> usize
        ensures { result ≡ length self.now }
    {
        match &self.held {
            Form::Alone(_) => 1,
            Form::Listed(operations) => operations.len(),
            Form::Everywhere { parts, .. } => *parts,
        }
    }

    /// The operation at a place.
    pub fn at(&self, place: usize) -> OperationRef<'_>
        requires { place < length self.now }
        ensures { slice_get self.now place ≡ Some (lent_operation result) }
    {
        match &self.held {
            Form::Alone(operation) => lent(operation),
            Form::Listed(operations) => lent(&operations[place]),
            Form::Everywhere { call, .. } => OperationRef { part: place, call },
        }
    }
}
