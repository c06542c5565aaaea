ghost use Rattle.std.specs.Prelude.{◌≡◌, ◌≤◌, ◌*◌, ◌++◌, length, map, slice_range, IfOk, OnOk};
ghost use Rattle.csvpoints.specs.Rows.{chosen_of, point_with, rows_of, value_in, with_values_in};

use geom::World;
use mapdefs::{Feature, FeatureFields, Items, Part, PartList, Shared, Texts, Values};
use std::alloc::{AllocError, Global};
use std::marker::Model;
use std::ops::Range;

/// The rows of a table: a place and so many texts each. Contracts see the features that they are.
#[derive(Drop)]
pub struct Rows {
    // How many texts a row has.
    count: usize,
    places: Items<World>,
    texts: Texts,
}

impl Model for Rows {
    ghost use Rattle.std.specs.Prelude.{◌≡◌, ◌*◌, List, length};
    ghost use Rattle.mapdefs.specs.declared.feature.FeatureFields.{FeatureFields};
    ghost use Rattle.csvpoints.specs.Rows.{rows_of};

    ghost Value = { List FeatureFields };

    ghost view = { λ r. rows_of r.count r.places r.texts };

    ghost invariant = { λ r. length r.texts ≡ length r.places * r.count };
}

// The feature at a place, with these values.
fn point_with(values: Values, place: World) -> Feature
    ensures { result ≡ point_with values place }
{
    Feature::new(FeatureFields {
        parts: PartList::one(Part::at(place)),
        text: None,
        values,
    })
}

// The features of places, each with so many of the texts in order, which they share.
fn features_of(
    alloc: Global,
    count: u32,
    places: &[World],
    texts: &Shared<Texts>,
) -> Result<Items<Feature>, AllocError>
    ensures { IfOk result (λ made. made ≡ rows_of count places.now texts.now) }
{
    let mut features = Vec::with_capacity(alloc, places.len())?;
    let mut first: u32 = 0;
    for place in places {
        let values = Values::of(texts.share()?, first, count);
        features.push(point_with(values, *place))?;
        first = first.checked_add(count).ok_or(AllocError)?;
    }
    Ok(Items::of(features))
}

// The value of a row in a column, or empty where there is no column. The texts from the first to the end are the row's.
fn value_in(texts: &Texts, first: usize, end: usize, column: Option<usize>) -> &str
    requires { first ≤ end }
    ensures { result.now ≡ value_in (slice_range texts.now first end) column }
{
    match column {
        Some(column) if column < end - first => match texts.get(first + column) {
            Some(value) => value,
            None => "",
        },
        _ => "",
    }
}

// Adds the values of a row in some columns. The texts of the range are the row's.
fn add_values(
    chosen: &mut Texts,
    texts: &Texts,
    row: Range<usize>,
    columns: &[Option<usize>],
) -> Result<(), AllocError>
    requires { row.start ≤ row.end }
    ensures { OnOk result (chosen.new ≡ chosen.old ++ map (value_in (slice_range texts.now row.start row.end)) columns.now) }
{
    for column in columns {
        chosen.push(value_in(texts, row.start, row.end, *column))?;
    }
    Ok(())
}

// Texts in rows of so many each.
#[derive(Drop)]
struct TextRows<'a> {
    width: usize,
    texts: &'a Texts,
}

impl TextRows<'_> {
    // The values in some columns of the rows of places.
    fn chosen_of(
        &self,
        alloc: Global,
        places: &[World],
        columns: &[Option<usize>],
    ) -> Result<Texts, AllocError>
        ensures { IfOk result (λ chosen. chosen ≡ chosen_of columns.now self.now.width places.now self.now.texts.now) }
    {
        let mut chosen = Texts::new(alloc);
        let mut first: usize = 0;
        for _place in places {
            let end = first.checked_add(self.width).ok_or(AllocError)?;
            add_values(&mut chosen, self.texts, first..end, columns)?;
            first = end;
        }
        Ok(chosen)
    }
}

impl Rows {
    /// The rows of places, each with so many of the texts in order.
    pub(crate) fn of(count: usize, places: Items<World>, texts: Texts) -> Self
        requires { length texts ≡ length places * count }
        ensures { result ≡ rows_of count places texts }
    {
        Rows {
            count,
            places,
            texts,
        }
    }

    /// How many rows there are.
    pub fn len(&self) -> usize
        ensures { result ≡ length self.now }
    {
        self.places.len()
    }

    /// The same rows with their values in some columns, where a value without a column is empty.
    pub fn with_values_in(
        self,
        alloc: Global,
        columns: &[Option<usize>],
    ) -> Result<Self, AllocError>
        ensures { IfOk result (λ rows. rows ≡ map (with_values_in columns.now) self) }
    {
        let Rows {
            count,
            places,
            texts,
        } = self;
        let rows = TextRows {
            width: count,
            texts: &texts,
        };
        let chosen = rows.chosen_of(alloc, places.as_slice(), columns)?;
        Ok(Rows::of(columns.len(), places, chosen))
    }

    /// The rows as features. These share one piece of memory with the texts of all of them.
    pub fn into_features(self, alloc: Global) -> Result<Items<Feature>, AllocError>
        ensures { IfOk result (λ features. features ≡ self) }
    {
        let Rows {
            count,
            places,
            mut texts,
        } = self;
        let Ok(count) = u32::try_from(count) else {
            return Err(AllocError);
        };
        texts.shrink_to_fit();
        features_of(alloc, count, places.as_slice(), &Shared::new(alloc, texts)?)
    }
}
