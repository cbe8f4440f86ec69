// SPDX-License-Identifier: MIT
ghost use Rattle.std.specs.Prelude.{◌≡◌, List, [], ◌++◌, ◌∷◌, length, IfErr, IsTrue, OnOk, OnErr, ◌↔◌};
ghost use Rattle.std.specs.Cmp.Lexicographic.{pointwise, lists_equiv, lists_per};
ghost use Rattle.std.specs.Slice.Iter.{iter_rest};

use std::alloc::{AllocError, AllocFailed, Global};
use std::marker::Model;
use std::slice;

/// Some values in order. Contracts see the list of them.
#[derive(Debug, Drop)]
pub struct Sequence<T> {
    values: Vec<T>,
}

impl<T> Model for Sequence<T> {
    ghost Value = { List T };

    ghost view = { λ s. s.values.items };
}

impl<T> Sequence<T> {
    /// No values. It takes no memory.
    pub fn new(alloc: Global) -> Sequence<T>
        ensures { result ≡ [] }
    {
        Sequence {
            values: Vec::new(alloc),
        }
    }

    /// The values of a vector.
    pub fn from_vec(values: Vec<T>) -> Sequence<T>
        ensures { result ≡ values.items }
    {
        Sequence { values }
    }

    /// Puts a value behind the others. An `Err` leaves them as they were.
    pub fn push(&mut self, value: T) -> Result<(), AllocFailed<T>>
        ensures ok { OnOk result (self.new ≡ self.old ++ value ∷ []) }
        ensures err { OnErr result (self.new ≡ self.old) }
        ensures value_returned { IfErr result (λ refused. refused.value ≡ value) }
    {
        self.values.push(value)
    }

    pub fn iter(&self) -> slice::Iter<'_, T>
        ensures { iter_rest result ≡ self.now }
    {
        self.values.iter()
    }

    pub fn is_empty(&self) -> bool
        ensures { IsTrue result ↔ (self.now ≡ []) }
    {
        self.values.is_empty()
    }

    pub fn into_vec(self) -> Vec<T>
        ensures { result.items ≡ self }
    {
        self.values
    }

    pub fn as_slice(&self) -> &[T]
        ensures { result.now ≡ self.now }
    {
        self.values.as_slice()
    }

    pub fn len(&self) -> usize
        ensures { result ≡ length self.now }
    {
        self.values.len()
    }
}

impl<'a, T> IntoIterator for &'a Sequence<T> {
    ghost use Rattle.std.specs.Prelude.{◌<◌, ◌^◌};
    ghost use Rattle.std.specs.Slice.Iter.{iter_steps};
    ghost use Rattle.std.specs.Iterator.Runs.{EveryRun, ItemsMapTo};

    type Item = &'a T;

    type IntoIter = slice::Iter<'a, T>;

    ghost into_iter_gives = { λ s r. (iter_rest r ≡ s.now) × (length (iter_rest r) < 2 ^ 64) × EveryRun (iter_steps {A = T}) (λ p. ItemsMapTo p (λ y. y.now) (iter_rest p.from)) };

    fn into_iter(self) -> slice::Iter<'a, T> {
        self.values.as_slice().iter()
    }
}

impl<T: PartialEq> PartialEq for Sequence<T> {
    ghost eq = { pointwise T.eq };

    ghost laws = { lists_per T.PartialEq.laws };

    fn eq(&self, other: &Sequence<T>) -> bool {
        self.values.as_slice() == other.values.as_slice()
    }
}

impl<T: Eq> Eq for Sequence<T> {
    ghost laws = { lists_equiv T.Eq.laws };
}

impl<T: Clone> Clone for Sequence<T> {
    ghost use Rattle.std.specs.List.{AllZip};

    // Each value is a clone of its fellow, and there are as many.
    ghost is_clone = { λ a b. AllZip T.is_clone a b };

    fn clone(&self) -> Result<Sequence<T>, AllocError> {
        Ok(Sequence {
            values: self.values.clone()?,
        })
    }
}
