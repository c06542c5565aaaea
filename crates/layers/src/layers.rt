ghost use Rattle.std.specs.Prelude.{◌≡◌, ◌<◌, length, IfOk, OnOk, IfErr, OnErr, MatchResult};
ghost use Rattle.mapdefs.specs.Change.{CanTakeAt, emptied, extended, with_layer};
ghost use Rattle.mapdefs.specs.Name.{index_of};
ghost use Rattle.layers.specs.Change.{is_of_points};

use crate::boxes::extended_grid;
use crate::draft::Draft;
use crate::fault::{ChangeError, Refusal};
use crate::grids::{SharedGrid, grids_of, share_all};
use csvpoints::Table;
use geom::WorldBox;
use mapdefs::{Duplicate, Feature, Geometry, Items, Map, Near};
use std::alloc::{AllocError, Global};
use std::marker::Model;

/// A map whose layers may be switched, emptied and filled, with an index of the features of each.
#[derive(Drop)]
pub struct Layers {
    alloc: Global,
    served: Map,
    grids: Vec<SharedGrid>,
}

impl Model for Layers {
    ghost use Rattle.mapdefs.specs.contracts.expr.Expr as expr;
    ghost use Rattle.std.specs.Coded.{codes};
    ghost use Rattle.std.specs.Prelude.{◌≡◌, map};
    ghost use Rattle.mapdefs.specs.declared.map.MapFields.{MapFields};
    ghost use Rattle.layers.specs.Boxes.{boxes_of};

    ghost Value = { MapFields };

    ghost coded = { Prim.hlevel (codes, expr.the_row.coded) };

    ghost view = { λ l. l.served };

    ghost invariant = { λ l. l.grids.items ≡ map boxes_of l.served.layers };
}

/// Whether the features are points.
pub fn is_of_points(kind: Geometry) -> bool
    ensures { result ≡ is_of_points kind }
{
    matches!(kind, Geometry::Point)
}

impl Layers {
    ghost use Rattle.layers.specs.Change.{switch, clear, append, found_points, IsErrorOf, IsFoundAt};

    /// The layers of this map. It keeps the allocator.
    pub fn of(alloc: Global, map: Map) -> Result<Self, AllocError>
        ensures { IfOk result (λ l. l ≡ map) }
    {
        let grids = grids_of(alloc, map.get().layers.as_slice())?;
        Ok(Layers {
            alloc,
            served: map,
            grids,
        })
    }

    /// The map as it is now.
    pub fn map(&self) -> &Map
        ensures { result.now ≡ self.now }
    {
        &self.served
    }

    /// The number of layers.
    pub fn len(&self) -> usize
        ensures { result ≡ length self.now.layers }
    {
        self.served.get().layers.len()
    }

    /// The index of the first layer with that name.
    pub fn by_name(&self, name: &[u8]) -> Option<usize>
        ensures { result ≡ index_of name.now self.now.layers }
    {
        self.served.find(name)
    }

    /// The index of the layer of points with that name.
    pub fn points_named(&self, name: &[u8]) -> Result<usize, Refusal>
        ensures value { MatchResult result
            (λ index. IsFoundAt (found_points name.now self.now) index self.now)
            (λ refusal. found_points name.now self.now ≡ Err refusal) }
        ensures within { IfOk result (λ index. index < length self.now.layers) }
    {
        match self.served.find(name) {
            Some(index) => {
                if !is_of_points(self.served.get().layers.as_slice()[index].get().kind) {
                    return Err(Refusal::NotPoints);
                }
                Ok(index)
            }
            None => Err(Refusal::UnknownLayer),
        }
    }

    /// Switches a layer on or off. A refused call changes nothing.
    pub fn switch(&mut self, name: &[u8], on: bool) -> Result<(), Refusal>
        ensures { MatchResult result
            (λ _. switch name.now on self.old ≡ Ok self.new)
            (λ refusal. (switch name.now on self.old ≡ Err refusal) × (self.new ≡ self.old)) }
    {
        match self.served.find(name) {
            Some(index) => {
                self.served.switch(index, on);
                Ok(())
            }
            None => Err(Refusal::UnknownLayer),
        }
    }

    /// Takes all features out of a layer of points. It takes no memory, and a refused call changes nothing.
    pub fn clear(&mut self, name: &[u8]) -> Result<(), Refusal>
        ensures { MatchResult result
            (λ _. clear name.now self.old ≡ Ok self.new)
            (λ refusal. (clear name.now self.old ≡ Err refusal) × (self.new ≡ self.old)) }
    {
        match self.points_named(name) {
            Ok(index) => {
                self.clear_at(index);
                Ok(())
            }
            Err(refusal) => Err(refusal),
        }
    }

    // Takes all features out of the layer at an index.
    pub(crate) fn clear_at(&mut self, index: usize)
        requires { index < length self.old.layers }
        ensures { self.new ≡ with_layer index emptied self.old }
    {
        self.served.clear(index);
        self.grids[index] = SharedGrid::empty();
    }

    // Appends features to those of the layer at an index. Where memory is refused nothing changes: the growths
    // come before the changes. Where there are no features the layer keeps its list and its grid.
    pub(crate) fn extend_at(&mut self, index: usize, more: Items<Feature>) -> Result<(), AllocError>
        requires { CanTakeAt more index self.old.layers }
        ensures ok { OnOk result (self.new ≡ with_layer index (extended more) self.old) }
        ensures err { OnErr result (self.new ≡ self.old) }
    {
        if more.len() == 0 {
            return Ok(());
        }
        let grid = extended_grid(self.alloc, &self.grids[index], more.as_slice())?;
        self.served.append(self.alloc, index, more)?;
        self.grids[index] = grid;
        Ok(())
    }

    /// Appends the rows of a table to the features of a layer of points, as a batch of this one change does. A
    /// refused call changes nothing.
    pub fn append(&mut self, name: &[u8], table: Table) -> Result<(), ChangeError>
        ensures done { OnOk result (append name.now table self.old ≡ Ok self.new) }
        ensures refused { IfErr result (IsErrorOf (append name.now table self.old)) }
        ensures kept { OnErr result (self.new ≡ self.old) }
    {
        match self.served.find(name) {
            Some(index) => {
                let mut draft = Draft::of(self.alloc, self.copy()?)?;
                match draft.append_at(index, table) {
                    Ok(()) => {
                        *self = draft.into_layers()?;
                        Ok(())
                    }
                    Err(error) => Err(error),
                }
            }
            None => Err(ChangeError::Refused(Refusal::UnknownLayer)),
        }
    }

    /// Equal layers that share the features and the grids with these.
    pub fn copy(&self) -> Result<Self, AllocError>
        ensures { IfOk result (λ l. l ≡ self.now) }
    {
        let served = self.served.duplicate(self.alloc)?;
        let grids = share_all(self.alloc, &self.grids)?;
        Ok(Layers {
            alloc: self.alloc,
            served,
            grids,
        })
    }
}

impl Near for Layers {
    ghost map_of = { λ l. l };

    fn candidates(&self, layer: usize, window: WorldBox) -> Result<Vec<u32>, AllocError> {
        self.grids[layer].candidates(self.alloc, window)
    }
}
