ghost use Rattle.std.specs.Prelude.{◌≡◌, ◌++◌, ◌+◌, ◌<◌, ◌^◌, [], length, IfOk, OnOk, OnErr};

use crate::{Duplicate, Items, Shared};
use std::alloc::{AllocError, Global};
use std::marker::Model;

/// A list that several owners share, with all of its elements. Contracts see it as the list of its elements. One
/// without elements takes no memory.
#[derive(Drop)]
pub struct SharedItems<T> {
    items: Option<Shared<Items<T>>>,
}

impl<T> Model for SharedItems<T> {
    ghost use Rattle.std.specs.Prelude.{List, []};
    ghost use Rattle.std.specs.Coded.{coded_list};
    ghost use Rattle.std.specs.Option.{option_map_or};

    ghost Value = { List T };

    ghost coded = { coded_list T.code };

    ghost view = { λ s. option_map_or (λ elements. elements) s.items [] };
}

impl<T> SharedItems<T> {
    /// No elements.
    pub fn empty() -> Self
        ensures { result ≡ [] }
    {
        SharedItems { items: None }
    }

    /// The same list, for a further owner. It takes no memory; the error is that there are too many owners.
    pub fn share(&self) -> Result<Self, AllocError>
        ensures { IfOk result (λ s. s ≡ self.now) }
    {
        match &self.items {
            Some(items) => Ok(SharedItems {
                items: Some(items.share()?),
            }),
            None => Ok(SharedItems { items: None }),
        }
    }

    /// The elements, in order.
    pub fn as_slice(&self) -> &[T]
        ensures { result.now ≡ self.now }
    {
        match &self.items {
            Some(items) => items.get().as_slice(),
            None => &[],
        }
    }

    /// How many elements there are.
    pub fn len(&self) -> usize
        ensures { result ≡ length self.now }
    {
        self.as_slice().len()
    }
}

impl<T: Drop> SharedItems<T> {
    /// The elements, with their first owner.
    pub fn new(alloc: Global, items: Items<T>) -> Result<Self, AllocError>
        ensures { IfOk result (λ s. s ≡ items) }
    {
        Ok(SharedItems {
            items: Some(Shared::new(alloc, items)?),
        })
    }
}

impl<T: Duplicate> SharedItems<T> {
    /// Gives this owner a list of its own, with further elements at the end. Where memory is refused nothing
    /// changes.
    pub fn append(&mut self, alloc: Global, more: Items<T>) -> Result<(), AllocError>
        requires { length self.old + length more < 2 ^ 64 }
        ensures ok { OnOk result (self.new ≡ self.old ++ more) }
        ensures err { OnErr result (self.new ≡ self.old) }
    {
        let mut items = Vec::with_capacity(alloc, self.len() + more.len())?;
        for item in self.as_slice() {
            items.push(item.duplicate(alloc)?)?;
        }
        items.append(&mut more.into_vec())?;
        *self = SharedItems::new(alloc, Items::of(items))?;
        Ok(())
    }
}
