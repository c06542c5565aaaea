ghost use Rattle.std.specs.Prelude.{◌≡◌, ◌<◌, length, slice_get, Some, Ok, Err, IfOk, OnOk, IfErr, OnErr, MatchResult};
ghost use Rattle.std.specs.List.{AllZip};
ghost use Rattle.mapdefs.specs.Change.{HasRoomFor};
ghost use Rattle.mapdefs.specs.declared.layer.LayerFields.{LayerFields};
ghost use Rattle.layers.specs.Draft.{extended_first, with_more};

use crate::fault::{ChangeError, Refusal};
use crate::layers::{Layers, is_of_points};
use crate::values::all_fitted;
use csvpoints::{Table, TableFields};
use mapdefs::{Feature, Items, Layer, MAX_FEATURES};
use std::alloc::{AllocError, Global};
use std::marker::Model;

/// Layers of which the changes of a batch are collected. Contracts see the map with all changes.
///
/// Appended features wait beside the layers. So `into_layers` makes the list and the grid of a layer once,
/// however many commands changed it.
#[derive(Drop)]
pub struct Draft {
    alloc: Global,
    layers: Layers,
    more: Vec<Items<Feature>>,
}

impl Model for Draft {
    ghost use Rattle.mapdefs.specs.contracts.expr.Expr as expr;
    ghost use Rattle.std.specs.Coded.{codes};
    ghost use Rattle.std.specs.List.{AllZip};
    ghost use Rattle.mapdefs.specs.Change.{HasRoomFor};
    ghost use Rattle.mapdefs.specs.declared.map.MapFields.{MapFields};
    ghost use Rattle.layers.specs.Draft.{with_more};

    ghost Value = { MapFields };

    ghost coded = { Prim.hlevel (codes, expr.the_row.coded) };

    ghost view = { λ d. with_more d.more.items d.layers };

    // Each layer has room for the features that wait beside it.
    ghost invariant = { λ d. AllZip HasRoomFor d.more.items d.layers.layers };
}

// A list beside each layer, with no features yet.
fn none_beside(alloc: Global, layers: &[Layer]) -> Result<Vec<Items<Feature>>, AllocError>
    ensures none { IfOk result (λ more. extended_first more.items layers.now ≡ layers.now) }
    ensures room { IfOk result (λ more. AllZip HasRoomFor more.items layers.now) }
{
    let mut more = Vec::with_capacity(alloc, layers.len())?;
    for layer in layers {
        let _fields = layer.get();
        more.push(Items::new(alloc))?;
    }
    Ok(more)
}

// The layers, with each list of features appended to the layer at its index.
fn extended_all(layers: Layers, more: Vec<Items<Feature>>) -> Result<Layers, AllocError>
    requires { AllZip HasRoomFor more.items layers.layers }
    ensures { IfOk result (λ l. l ≡ with_more more.items layers) }
{
    let mut extended = layers;
    let mut index = 0;
    for features in more {
        extended.extend_at(index, features)?;
        index += 1;
    }
    Ok(extended)
}

impl Draft {
    ghost use Rattle.layers.specs.Change.{switch, clear, append_at, found_points, IsErrorOf, IsFoundAt};

    /// The draft that begins with these layers. It keeps the allocator.
    pub fn of(alloc: Global, layers: Layers) -> Result<Self, AllocError>
        ensures { IfOk result (λ d. d ≡ layers) }
    {
        let more = none_beside(alloc, layers.map().get().layers.as_slice())?;
        Ok(Draft {
            alloc,
            layers,
            more,
        })
    }

    /// The layers with all changes.
    pub fn into_layers(self) -> Result<Layers, AllocError>
        ensures { IfOk result (λ l. l ≡ self) }
    {
        let Draft {
            alloc: _,
            layers,
            more,
        } = self;
        extended_all(layers, more)
    }

    /// The index of the layer of points with that name.
    pub fn points_named(&self, name: &[u8]) -> Result<usize, Refusal>
        ensures value { MatchResult result
            (λ index. IsFoundAt (found_points name.now self.now) index self.now)
            (λ refusal. found_points name.now self.now ≡ Err refusal) }
        ensures within { IfOk result (λ index. index < length self.now.layers) }
    {
        self.layers.points_named(name)
    }

    /// The names of the columns of longitudes and latitudes in the tables of the layer at an index.
    pub fn coordinate_columns(&self, index: usize) -> (&str, &str)
        requires { index < length self.now.layers }
        ensures { (layer : LayerFields) × (slice_get self.now.layers index ≡ Some layer) × (result.0.now ≡ layer.csv_x) × (result.1.now ≡ layer.csv_y) }
    {
        let layer = self.layers.map().get().layers.as_slice()[index].get();
        (layer.csv_x.as_str(), layer.csv_y.as_str())
    }

    /// Switches a layer on or off. A refused call changes nothing.
    pub fn switch(&mut self, name: &[u8], on: bool) -> Result<(), Refusal>
        ensures { MatchResult result
            (λ _. switch name.now on self.old ≡ Ok self.new)
            (λ refusal. (switch name.now on self.old ≡ Err refusal) × (self.new ≡ self.old)) }
    {
        self.layers.switch(name, on)
    }

    /// Takes all features out of a layer of points. It takes no memory, and a refused call changes nothing.
    pub fn clear(&mut self, name: &[u8]) -> Result<(), Refusal>
        ensures { MatchResult result
            (λ _. clear name.now self.old ≡ Ok self.new)
            (λ refusal. (clear name.now self.old ≡ Err refusal) × (self.new ≡ self.old)) }
    {
        match self.layers.points_named(name) {
            Ok(index) => {
                self.layers.clear_at(index);
                self.more[index] = Items::new(self.alloc);
                Ok(())
            }
            Err(refusal) => Err(refusal),
        }
    }

    /// Appends the rows of a table to the features of the layer of points at an index. A refused call changes
    /// nothing.
    pub fn append_at(&mut self, index: usize, table: Table) -> Result<(), ChangeError>
        requires { index < length self.old.layers }
        ensures done { OnOk result (append_at index table self.old ≡ Ok self.new) }
        ensures refused { IfErr result (IsErrorOf (append_at index table self.old)) }
        ensures kept { OnErr result (self.new ≡ self.old) }
    {
        let layer = self.layers.map().get().layers.as_slice()[index].get();
        if !is_of_points(layer.kind) {
            return Err(ChangeError::Refused(Refusal::NotPoints));
        }
        let TableFields { columns, features } = table.into_fields();
        let count = layer.features.len() + self.more[index].len();
        if features.len() > MAX_FEATURES - count {
            return Err(ChangeError::Refused(Refusal::Full));
        }
        let fitted = all_fitted(
            self.alloc,
            layer.items.as_slice(),
            columns.as_slice(),
            features,
        )?;
        let waiting = &mut self.more[index];
        waiting.append(fitted)?;
        Ok(())
    }
}
