ghost use Rattle.std.specs.Prelude.{◌≡◌, ◌≤◌, IfOk, OnOk, Some, length, pos};
ghost use Rattle.std.specs.List.{flat_map, list_any};
ghost use Rattle.std.specs.Str.{chars};
ghost use Rattle.bdffont.specs.declared.text.TheConstants.{MAX_CHARACTERS};
ghost use Rattle.labelink.specs.Ink.{outlines_glyph};
ghost use Rattle.labelink.specs.declared.reach.Reach.TheVariants.{Neighbours, Disc};
ghost use Rattle.compose.specs.Drawn.{HasLabels};
ghost use Rattle.compose.specs.Labels.{candidate_shapes, inks, label_shapes, outlines, reach_of, text_shapes};
ghost use Rattle.canvas.specs.Painted.{IsFilled, IsPainted};

use canvas::{Canvas, paint_cover, paint_covers};
use geom::Pixel;
use labelcache::{Cache, Candidate, Placed};
use labelink::{DiscChords, GlyphOutline, PlacedGlyph, Reach, outline_runs, text_glyphs};
use mapdefs::{Font, Rgb};
use scene::Scene;
use std::alloc::{AllocError, Global};
use std::marker::Model;

// A text on the picture: its glyphs, each with its position.
#[derive(Drop)]
struct WrittenText<'a> {
    font: &'a Font,
    text: &'a str,
    at: Pixel,
    glyphs: Vec<PlacedGlyph<'a>>,
}

impl<'a> Model for WrittenText<'a> {
    ghost use Rattle.std.specs.Prelude.{◌≡◌};
    ghost use Rattle.std.specs.Str.{chars};
    ghost use Rattle.labelink.specs.Ink.{glyphs_from};
    ghost use Rattle.canvas.specs.Shapes.{Written};

    ghost Value = { Written };

    ghost view = { λ w. record { font = w.font.now; characters = chars w.text.now; at = w.at } };

    ghost invariant = { λ w. w.glyphs.items ≡ glyphs_from w.font.now w.at 0 (chars w.text.now) };
}

impl<'a> WrittenText<'a> {
    // The text whose corner is a pixel.
    fn new(alloc: Global, font: &'a Font, text: &'a str, at: Pixel) -> Result<Self, AllocError>
        requires { length (chars text.now) ≤ MAX_CHARACTERS }
        ensures { IfOk result (λ w. w ≡ record { font = font.now; characters = chars text.now; at = at }) }
    {
        Ok(WrittenText {
            font,
            text,
            at,
            glyphs: text_glyphs(alloc, font, text, at)?,
        })
    }

    // Paints the outline round all glyphs, where there is a colour.
    fn paint_outline(
        &self,
        canvas: &mut Canvas,
        reach: Reach,
        colour: Option<Rgb>,
    ) -> Result<(), AllocError>
        ensures { OnOk result (IsPainted canvas.old canvas.new (outlines self.now reach colour)) }
    {
        match colour {
            Some(colour) => paint_outlines(canvas, &self.glyphs, reach, colour),
            None => Ok(()),
        }
    }

    // Paints the glyphs, where there is a colour.
    fn paint_ink(&self, canvas: &mut Canvas, colour: Option<Rgb>) -> Result<(), AllocError>
        ensures { OnOk result (IsPainted canvas.old canvas.new (inks self.now colour)) }
    {
        match colour {
            Some(colour) => paint_covers(canvas, &self.glyphs, colour),
            None => Ok(()),
        }
    }
}

// Gives the colour to the pixels of the outline of some glyph.
fn paint_outlines(
    canvas: &mut Canvas,
    glyphs: &[PlacedGlyph<'_>],
    reach: Reach,
    colour: Rgb,
) -> Result<(), AllocError>
    ensures { OnOk result (IsFilled (λ i j. list_any (λ g. outlines_glyph reach g (pos i) (pos j)) glyphs.now) (λ i j. Some colour) canvas.old canvas.new) }
{
    match reach {
        Reach::Neighbours => paint_neighbours(canvas, glyphs, colour),
        Reach::Disc(pixels) => {
            let chords = DiscChords::new(canvas.alloc(), pixels)?;
            paint_discs(canvas, glyphs, &chords, colour)
        }
    }
}

// Gives it to the neighbours of the ink of some glyph.
fn paint_neighbours(
    canvas: &mut Canvas,
    glyphs: &[PlacedGlyph<'_>],
    colour: Rgb,
) -> Result<(), AllocError>
    ensures { OnOk result (IsFilled (λ i j. list_any (λ g. outlines_glyph Neighbours g (pos i) (pos j)) glyphs.now) (λ i j. Some colour) canvas.old canvas.new) }
{
    for glyph in glyphs {
        paint_cover(canvas, &GlyphOutline::of(glyph), colour)?;
    }
    Ok(())
}

// Gives it to the pixels in the discs round the ink of some glyph.
fn paint_discs(
    canvas: &mut Canvas,
    glyphs: &[PlacedGlyph<'_>],
    chords: &DiscChords,
    colour: Rgb,
) -> Result<(), AllocError>
    ensures { OnOk result (IsFilled (λ i j. list_any (λ g. outlines_glyph (Disc chords.now) g (pos i) (pos j)) glyphs.now) (λ i j. Some colour) canvas.old canvas.new) }
{
    for glyph in glyphs {
        let runs = outline_runs(canvas.alloc(), glyph, chords)?;
        paint_covers(canvas, &runs, colour)?;
    }
    Ok(())
}

/// How far the outline of a candidate reaches.
pub fn reach_of(candidate: &Candidate<'_>) -> Reach
    ensures { result ≡ reach_of candidate.now }
{
    if candidate.factor().times() > 1 {
        Reach::Disc(candidate.outline_width())
    } else {
        Reach::Neighbours
    }
}

/// Paints a candidate's text in a font, with its corner at a pixel: its outline, and then its glyphs.
pub fn paint_text(
    canvas: &mut Canvas,
    font: &Font,
    candidate: &Candidate<'_>,
    at: Pixel,
) -> Result<(), AllocError>
    ensures { OnOk result (IsPainted canvas.old canvas.new (text_shapes candidate.now at font.now)) }
{
    let text = WrittenText::new(canvas.alloc(), font, candidate.text(), at)?;
    let label = candidate.label();
    text.paint_outline(canvas, reach_of(candidate), label.outline)?;
    text.paint_ink(canvas, label.colour)
}

// Paints a candidate's text with its corner at a pixel, in the font of its label.
fn paint_candidate(
    canvas: &mut Canvas,
    fonts: &[Font],
    candidate: &Candidate<'_>,
    at: Pixel,
) -> Result<(), AllocError>
    ensures { OnOk result (IsPainted canvas.old canvas.new (candidate_shapes fonts.now candidate.now at)) }
{
    match candidate.label().font_in(fonts) {
        Some(font) => paint_text(canvas, font, candidate, at),
        None => Ok(()),
    }
}

// Paints a label.
fn paint_label(
    canvas: &mut Canvas,
    fonts: &[Font],
    labels: &Cache<'_>,
    label: Placed,
) -> Result<(), AllocError>
    ensures { OnOk result (IsPainted canvas.old canvas.new (label_shapes fonts.now labels.now label)) }
{
    match labels.candidate(label.number) {
        Some(candidate) => paint_candidate(canvas, fonts, candidate, label.at),
        None => Ok(()),
    }
}

// Paints labels, in the order in which they were placed.
fn paint_placed(
    canvas: &mut Canvas,
    fonts: &[Font],
    labels: &Cache<'_>,
    placed: &[Placed],
) -> Result<(), AllocError>
    ensures { OnOk result (IsPainted canvas.old canvas.new (flat_map (label_shapes fonts.now labels.now) placed.now)) }
{
    for label in placed {
        paint_label(canvas, fonts, labels, *label)?;
    }
    Ok(())
}

/// Places labels of the candidates on the scene's picture and paints them.
pub fn paint_labels(
    canvas: &mut Canvas,
    scene: &Scene<'_>,
    labels: &Cache<'_>,
) -> Result<(), AllocError>
    ensures { OnOk result (HasLabels scene.now labels.now canvas.old canvas.new) }
{
    let fonts = scene.fonts();
    let projection = scene.projection();
    let placed = labels.place(
        projection.width().pixels(),
        projection.height().pixels(),
        fonts,
    )?;
    paint_placed(canvas, fonts, labels, &placed)
}
