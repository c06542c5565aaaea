ghost use Rattle.std.specs.Prelude.{◌≡◌, [], take, drop, slice_get, option_map, IfOk};

use crate::{Shared, Texts};
use std::alloc::{AllocError, Global};
use std::marker::Model;

/// The values of a feature: some successive ones of texts that many features share. Contracts see the list of the
/// values. Without values it takes no memory.
#[derive(Drop)]
pub struct Values {
    texts: Option<Shared<Texts>>,
    first: u32,
    count: u32,
}

impl Model for Values {
    ghost use Rattle.std.specs.Prelude.{List, ℕ, [], take, drop};
    ghost use Rattle.std.specs.Option.{option_map_or};

    ghost Value = { List (List ℕ) };

    ghost view = { λ v. take v.count (drop v.first (option_map_or (λ texts. texts) v.texts [])) };
}

impl Values {
    /// No values.
    pub fn none() -> Self
        ensures { result ≡ [] }
    {
        Values {
            texts: None,
            first: 0,
            count: 0,
        }
    }

    /// So many of the texts, from the one of an index on.
    pub fn of(texts: Shared<Texts>, first: u32, count: u32) -> Self
        ensures { result ≡ take count (drop first texts) }
    {
        Values {
            texts: Some(texts),
            first,
            count,
        }
    }

    /// All of the texts. They may not be more than 2^32.
    pub fn all_of(alloc: Global, texts: Texts) -> Result<Self, AllocError>
        ensures { IfOk result (λ values. values ≡ texts) }
    {
        let Ok(count) = u32::try_from(texts.len()) else {
            return Err(AllocError);
        };
        if count == 0 {
            return Ok(Values::none());
        }
        let mut texts = texts;
        texts.shrink_to_fit();
        Ok(Values::of(Shared::new(alloc, texts)?, 0, count))
    }

    /// The same values, for a further owner. It takes no memory; the error is that there are too many owners.
    pub fn share(&self) -> Result<Self, AllocError>
        ensures { IfOk result (λ values. values ≡ self.now) }
    {
        match &self.texts {
            Some(texts) => Ok(Values::of(texts.share()?, self.first, self.count)),
            None => Ok(Values::none()),
        }
    }

    /// The value of an index.
    pub fn get(&self, index: usize) -> Option<&str>
        ensures { option_map (λ value. value.now) result ≡ slice_get self.now index }
    {
        if index >= self.count as usize {
            return None;
        }
        match &self.texts {
            Some(texts) => texts.get().get(self.first as usize + index),
            None => None,
        }
    }
}
