ghost use Rattle.std.specs.Prelude.{◌≡◌, ◌∷◌, [], IfOk};

use crate::{Items, Part, SharedItems};
use std::alloc::{AllocError, Global};
use std::marker::Model;
use std::slice;

/// The parts of a feature. Contracts see the list of them. One part takes no memory beside the list, and copies share
/// any other number.
#[derive(Drop)]
pub struct PartList {
    parts: Parts,
}

#[derive(Drop)]
enum Parts {
    One(Part),
    Many(SharedItems<Part>),
}

impl Model for PartList {
    ghost use Rattle.std.specs.Prelude.{List};
    ghost use Rattle.geom.specs.World.{Place};
    ghost use Rattle.mapdefs.specs.Parts.{parts_of};

    ghost Value = { List (List Place) };

    ghost view = { λ p. parts_of p.parts };
}

impl PartList {
    /// No parts.
    pub fn empty() -> Self
        ensures { result ≡ [] }
    {
        PartList {
            parts: Parts::Many(SharedItems::empty()),
        }
    }

    /// The list of one part.
    pub fn one(part: Part) -> Self
        ensures { result ≡ part ∷ [] }
    {
        PartList {
            parts: Parts::One(part),
        }
    }

    /// The list of these parts.
    pub fn of(alloc: Global, parts: Items<Part>) -> Result<Self, AllocError>
        ensures { IfOk result (λ list. list ≡ parts) }
    {
        if let [part] = parts.as_slice() {
            return Ok(PartList::one(part.share()?));
        }
        let parts = SharedItems::new(alloc, parts)?;
        Ok(PartList {
            parts: Parts::Many(parts),
        })
    }

    /// The same parts, for a further owner. It takes no memory; the error is that there are too many owners.
    pub fn share(&self) -> Result<Self, AllocError>
        ensures { IfOk result (λ list. list ≡ self.now) }
    {
        match &self.parts {
            Parts::One(part) => Ok(PartList::one(part.share()?)),
            Parts::Many(parts) => Ok(PartList {
                parts: Parts::Many(parts.share()?),
            }),
        }
    }

    /// The parts, in order.
    pub fn as_slice(&self) -> &[Part]
        ensures { result.now ≡ self.now }
    {
        match &self.parts {
            Parts::One(part) => slice::from_ref(part),
            Parts::Many(parts) => parts.as_slice(),
        }
    }
}
