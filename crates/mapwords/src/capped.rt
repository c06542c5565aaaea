ghost use Rattle.std.specs.Prelude.{◌≡◌, ◌<◌, ◌≤◌, [], ◌∷◌, ◌++◌, length, nat_le, OnOk, OnErr};

use std::alloc::{AllocError, Global};
use std::marker::Model;

/// A list of at most `N` elements.
#[derive(Drop)]
pub struct Capped<T, const N: usize> {
    items: Vec<T>,
}

impl<T, const N: usize> Model for Capped<T, N> {
    ghost use Rattle.std.specs.Prelude.{◌≤◌, List, length};
    ghost use Rattle.std.specs.Coded.{coded_list};

    ghost Value = { List T };

    ghost coded = { coded_list T.code };

    ghost view = { λ a. a.items.items };

    ghost invariant = { λ a. length a.items.items ≤ N };
}

impl<T, const N: usize> Capped<T, N> {
    /// No elements. It takes no memory.
    pub fn new(alloc: Global) -> Self
        ensures { result ≡ [] }
    {
        Capped {
            items: Vec::new(alloc),
        }
    }

    /// The list of these elements.
    pub fn of(items: Vec<T>) -> Self
        requires { length items.items ≤ N }
        ensures { result ≡ items.items }
    {
        Capped { items }
    }

    /// Whether there is no room for a further element.
    pub fn is_full(&self) -> bool
        ensures { result ≡ nat_le N (length self.now) }
    {
        self.items.len() >= N
    }

    /// The elements, in order.
    pub fn as_slice(&self) -> &[T]
        ensures value { result.now ≡ self.now }
        ensures limit { length result.now ≤ N }
    {
        self.items.as_slice()
    }

    /// The elements, in order.
    pub fn into_vec(self) -> Vec<T>
        ensures value { result.items ≡ self }
        ensures limit { length result.items ≤ N }
    {
        let Capped { items } = self;
        items
    }
}

impl<T: Drop, const N: usize> Capped<T, N> {
    /// Adds an element at the end. Where memory is refused nothing changes.
    pub fn push(&mut self, item: T) -> Result<(), AllocError>
        requires { length self.old < N }
        ensures ok { OnOk result (self.new ≡ self.old ++ item ∷ []) }
        ensures err { OnErr result (self.new ≡ self.old) }
    {
        self.items.push(item)?;
        Ok(())
    }
}
