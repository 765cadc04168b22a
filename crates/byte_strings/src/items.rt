ghost use Rattle.std.proofs.lemmas.Cmp.{lists_equiv};
ghost use Rattle.std.specs.Cmp.Lexicographic.{pointwise, lists_per};
ghost use Rattle.std.specs.Prelude.{◌≡◌, ◌++◌, ◌∷◌, [], length, ◌↔◌, IsTrue, IfOk, OnOk, OnErr};

use std::alloc::{AllocError, Global};
use std::marker::Model;

/// Values in a row.
#[derive(Debug, Drop)]
pub struct Items<T> {
    values: Vec<T>,
}

impl<T> Model for Items<T> {
    ghost use Rattle.std.specs.Prelude.{List};

    ghost Value = { List T };

    ghost view = { λ items. items.values.items };
}

impl<T> Items<T> {
    /// No values. It takes no memory.
    pub fn new(alloc: Global) -> Items<T>
        ensures { result ≡ [] }
    {
        Items {
            values: Vec::new(alloc),
        }
    }

    pub fn as_slice(&self) -> &[T]
        ensures { result.now ≡ self.now }
    {
        self.values.as_slice()
    }

    pub fn len(&self) -> usize
        ensures { result ≡ length self.now }
    {
        self.values.len()
    }

    pub fn is_empty(&self) -> bool
        ensures { IsTrue result ↔ (self.now ≡ []) }
    {
        self.values.is_empty()
    }

    /// Puts a value after the others.
    pub fn push(&mut self, value: T) -> Result<(), AllocError>
    where
        T: Drop,
        ensures ok { OnOk result (self.new ≡ self.old ++ value ∷ []) }
        ensures err { OnErr result (self.new ≡ self.old) }
    {
        self.values.push(value)?;
        Ok(())
    }
}

impl<T> From<Vec<T>> for Items<T> {
    ghost from_gives = { λ values items. items ≡ values.items };

    fn from(values: Vec<T>) -> Items<T> {
        Items { values }
    }
}

impl<T: PartialEq> PartialEq for Items<T> {
    ghost eq = { λ left right. pointwise T.eq left right };

    ghost laws = { lists_per T.laws };

    fn eq(&self, other: &Items<T>) -> bool {
        self.values == other.values
    }
}

impl<T: Eq> Eq for Items<T> {
    ghost laws = { lists_equiv T.Eq.laws };
}
