ghost use Rattle.std.specs.Prelude.{◌≡◌, ◌≤◌};
ghost use Rattle.std.specs.List.{flat_map};
ghost use Rattle.mapdefs.specs.StyleLimits.{IsStyleWithinLimits};
ghost use Rattle.mapdefs.specs.declared.limits.TheConstants.{MAX_FINE_SQUARE};
ghost use Rattle.canvas.specs.Shapes.{discs, marks, stamps};
ghost use Rattle.inking.specs.Styles.{disc_shapes, point_shapes, symbol_shapes};
ghost use Rattle.canvas.specs.Painted.{IsPainted};

use canvas::{Canvas, fill_disc, fill_square};
use geom::{Device, Factor, Pixel, World};
use mapdefs::{Part, Pixmap, Rgb, Style, StyleFields, SymbolShape};
use scanfill::Cover;
use scene::Scene;
use strokes::{Disc, Square};
use symbols::Stamp;

/// Paints the points of these parts by each style, in order. It takes no memory.
pub fn paint_points(canvas: &mut Canvas, scene: &Scene<'_>, parts: &[Part], styles: &[Style])
    ensures { IsPainted canvas.old canvas.new
        (flat_map (λ style. flat_map (λ part. flat_map (point_shapes scene.now.view scene.now.map.symbols style) part) parts.now) styles.now) }
{
    for style in styles {
        paint_by_style(canvas, scene, parts, style);
    }
}

// Paints the points of these parts by one style.
fn paint_by_style(canvas: &mut Canvas, scene: &Scene<'_>, parts: &[Part], style: &Style)
    ensures { IsPainted canvas.old canvas.new (flat_map (λ part. flat_map (point_shapes scene.now.view scene.now.map.symbols style.now) part) parts.now) }
{
    for part in parts {
        paint_part(canvas, scene, part.as_slice(), style);
    }
}

// Paints the points of one part.
fn paint_part(canvas: &mut Canvas, scene: &Scene<'_>, part: &[World], style: &Style)
    ensures { IsPainted canvas.old canvas.new (flat_map (point_shapes scene.now.view scene.now.map.symbols style.now) part.now) }
{
    for place in part {
        paint_point(canvas, scene, *place, style);
    }
}

// Paints one point: the style's symbol, or a square.
fn paint_point(canvas: &mut Canvas, scene: &Scene<'_>, place: World, style: &Style)
    ensures { IsPainted canvas.old canvas.new (point_shapes scene.now.view scene.now.map.symbols style.now place) }
{
    let style = style.get();
    let at = scene.projection().device(place);
    let factor = scene.factor();
    match style.symbol {
        Some(index) => {
            if let Some(symbol) = scene.symbol(index) {
                paint_symbol(canvas, factor, at, &symbol.shape, style);
            }
        }
        None => mark(canvas, at.pixel(), factor.fine(style.size), style.colour),
    }
}

// Paints a symbol at a point: a disc, or a pixmap.
fn paint_symbol(
    canvas: &mut Canvas,
    factor: Factor,
    at: Device,
    symbol: &SymbolShape,
    style: &StyleFields,
)
    requires { IsStyleWithinLimits style.now }
    ensures { IsPainted canvas.old canvas.new (symbol_shapes factor style.now at symbol.now) }
{
    match symbol {
        SymbolShape::Disc => paint_disc(canvas, factor, at, style),
        SymbolShape::Pixmap(pixmap) => stamp(canvas, at.pixel(), pixmap),
    }
}

// Paints the disc of a style round a point, and then its outline, the ring in it.
fn paint_disc(canvas: &mut Canvas, factor: Factor, at: Device, style: &StyleFields)
    requires { IsStyleWithinLimits style.now }
    ensures { IsPainted canvas.old canvas.new (disc_shapes factor style.now at) }
{
    let size = factor.fine(style.size);
    let width = factor.fine(u16::from(style.width)) as u8;
    fill_round(canvas, Disc::new(at, size), style.colour);
    fill_round(canvas, Disc::ring(at, size, width), style.outline);
}

// Fills a disc, where there is a colour.
fn fill_round(canvas: &mut Canvas, disc: Disc, colour: Option<Rgb>)
    ensures { IsPainted canvas.old canvas.new (discs disc colour) }
{
    if let Some(colour) = colour {
        fill_disc(canvas, disc, colour);
    }
}

// Stamps a pixmap round a pixel, row by row.
fn stamp(canvas: &mut Canvas, pixel: Pixel, pixmap: &Pixmap)
    ensures { IsPainted canvas.old canvas.new (stamps pixel pixmap.now) }
{
    let stamp = Stamp::new(pixmap, pixel);
    let (width, height) = (canvas.width(), canvas.height());
    let rows = stamp.rows(width, height);
    for row in rows.from..rows.to {
        canvas.colour_row(row, &stamp.row_pixels(row, width.pixels()));
    }
}

// Paints the square of a size round a pixel, where there is a colour.
fn mark(canvas: &mut Canvas, pixel: Pixel, size: u16, colour: Option<Rgb>)
    requires some { 1 ≤ size }
    requires most { size ≤ MAX_FINE_SQUARE }
    ensures { IsPainted canvas.old canvas.new (marks (record { pixel = pixel; size = size }) colour) }
{
    if let Some(colour) = colour {
        fill_square(canvas, Square::new(pixel, size), colour);
    }
}
