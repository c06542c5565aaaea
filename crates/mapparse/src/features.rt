ghost use Rattle.std.specs.Prelude.{◌≡◌, ◌+◌, ◌≤◌, [], ◌++◌, map, take, length, unwrap_or, All, IfOk, OnOk};
ghost use Rattle.std.specs.List.{slice_split};
ghost use Rattle.csvpoints.specs.Table.{IsPointWith};
ghost use Rattle.mapdefs.specs.LayerLimits.{HasValues};
ghost use Rattle.mapdefs.specs.declared.limits.TheConstants.{MAX_FEATURES, MAX_ITEMS};
ghost use Rattle.mapparse.specs.Mapping.{is_semicolon, padded, values_of, feature_of, named_items};
ghost use Rattle.mapparse.specs.Tables.{rows_of};

use crate::texts::semicolon_parts;
use csvpoints::{Rows, Table, TableFields};
use mapdefs::{
    Feature, FeatureFields, Items, MAX_FEATURES, MAX_ITEMS, PartList, Shared, SharedItems, Text,
    Texts, Values,
};
use maptree::{Capped, FeatureTree};
use std::alloc::{AllocError, Global};

// The values of a feature's items, as many as the layer has items.
fn values_of(items: Option<Text>, count: usize, alloc: Global) -> Result<Values, AllocError>
    ensures { IfOk result (λ made. made ≡ values_of count items) }
{
    let mut values = match &items {
        Some(text) => first_parts(text.as_str(), count, alloc)?,
        None => Texts::new(alloc),
    };
    fill_up(&mut values, count)?;
    Values::all_of(alloc, values)
}

// Adds empty values up to so many.
fn fill_up(values: &mut Texts, count: usize) -> Result<(), AllocError>
    ensures { OnOk result (values.new ≡ padded count values.old) }
{
    while values.len() < count {
        values.push("")?;
    }
    Ok(())
}

// The first texts between semicolons, so many at most.
fn first_parts(text: &str, count: usize, alloc: Global) -> Result<Texts, AllocError>
    ensures { IfOk result (λ made. made ≡ take count (slice_split is_semicolon text.now)) }
{
    let mut parts = semicolon_parts(text, alloc)?;
    parts.truncate(count);
    copies_of(&parts, alloc)
}

// Copies of parts of a source, in their order.
fn copies_of(parts: &[&str], alloc: Global) -> Result<Texts, AllocError>
    ensures { IfOk result (λ made. made ≡ map (λ x. x.now) parts.now) }
{
    let mut copies = Texts::new(alloc);
    for part in parts {
        copies.push(part)?;
    }
    Ok(copies)
}

// The text of a feature's label, for copies of the map to share.
fn shared_text(text: Option<Text>, alloc: Global) -> Result<Option<Shared<Text>>, AllocError>
    ensures { IfOk result (λ made. made ≡ text) }
{
    match text {
        Some(text) => Ok(Some(Shared::new(alloc, text)?)),
        None => Ok(None),
    }
}

// The feature of a layer with so many items.
fn feature_of(tree: FeatureTree, count: usize, alloc: Global) -> Result<Feature, AllocError>
    ensures { IfOk result (λ made. made ≡ feature_of count tree) }
{
    let FeatureTree { parts, text, items } = tree;
    Ok(Feature::new(FeatureFields {
        parts: PartList::of(alloc, parts.into_items())?,
        text: shared_text(text, alloc)?,
        values: values_of(items, count, alloc)?,
    }))
}

// The features that the mapfile gives a layer with so many items, in their order.
fn features_of(
    trees: Vec<FeatureTree>,
    count: usize,
    alloc: Global,
) -> Result<Vec<Feature>, AllocError>
    ensures { IfOk result (λ made. made.items ≡ map (feature_of count) trees.items) }
{
    let mut features = Vec::with_capacity(alloc, trees.len())?;
    for tree in trees {
        features.push(feature_of(tree, count, alloc)?)?;
    }
    Ok(features)
}

// The rows of a table as features, if there is a table.
fn features_of_rows(rows: Option<Rows>, alloc: Global) -> Result<Items<Feature>, AllocError>
    ensures { IfOk result (λ made. made ≡ unwrap_or rows []) }
{
    match rows {
        Some(rows) => rows.into_features(alloc),
        None => Ok(Items::new(alloc)),
    }
}

// The names of the items that a layer is given.
fn given_items(items: Option<Capped<Text, MAX_ITEMS>>, alloc: Global) -> Items<Text>
    ensures value { result ≡ unwrap_or items [] }
    ensures limit { length result ≤ MAX_ITEMS }
{
    match items {
        Some(items) => Items::of(items.into_vec()),
        None => Items::new(alloc),
    }
}

// The items of a layer, and the rows of its table.
fn items_and_rows(
    items: Option<Capped<Text, MAX_ITEMS>>,
    table: Option<Table>,
    alloc: Global,
) -> (Items<Text>, Option<Rows>)
    ensures items { result.0 ≡ named_items items table }
    ensures limit { length result.0 ≤ MAX_ITEMS }
    ensures rows { unwrap_or result.1 [] ≡ rows_of table }
    ensures values { All (HasValues (length result.0)) (rows_of table) }
{
    match table {
        Some(table) => {
            let TableFields { columns, features } = table.into_fields();
            (columns, Some(features))
        }
        None => (given_items(items, alloc), None),
    }
}

/// The items of a layer, and its features with their values: those that the mapfile gives it, and after them the
/// rows of its table.
pub fn with_items(
    items: Option<Capped<Text, MAX_ITEMS>>,
    trees: Capped<FeatureTree, MAX_FEATURES>,
    table: Option<Table>,
    alloc: Global,
) -> Result<(Items<Text>, SharedItems<Feature>), AllocError>
    ensures items { IfOk result (λ made. made.0 ≡ named_items items table) }
    ensures features { IfOk result (λ made. made.1 ≡ map (feature_of (length made.0)) trees ++ rows_of table) }
    ensures item_count { IfOk result (λ made. length made.0 ≤ MAX_ITEMS) }
    ensures given { IfOk result (λ _. length trees ≤ MAX_FEATURES) }
    ensures rows { IfOk result (λ made. All (HasValues (length made.0)) (rows_of table)) }
{
    let (items, rows) = items_and_rows(items, table, alloc);
    let mut features = Items::of(features_of(trees.into_vec(), items.len(), alloc)?);
    features.append(features_of_rows(rows, alloc)?)?;
    Ok((items, SharedItems::new(alloc, features)?))
}
