ghost use Rattle.std.specs.Prelude.{◌≡◌, ◌≤◌, ◌*◌, true, int_lt, IfOk};
ghost use Rattle.mapdefs.specs.declared.limits.TheConstants.{MAX_FINE_WIDTH, MAX_LINE_WIDTH};
ghost use Rattle.strokes.specs.Strip.{is_small_point};
ghost use Rattle.viewport.specs.View.{IsView, device_point, window};
ghost use Rattle.inking.specs.Rounded.{are_apart};

use canvas::Canvas;
use geom::{Device, Micro, World, WorldBox};
use mapdefs::{BlockBox, Rgb};
use scene::Scene;
use std::alloc::AllocError;
use std::marker::Model;
use strokes::{Chords, RoundSegment, RoundStep, is_small_point};
use viewport::Projection;

/// The pen of a round line: the projection of its places, the chords of its width, and its colour; and the window of the
/// world outside of which its line covers no pixel of the picture.
#[derive(Drop)]
pub struct RoundPen<'a> {
    projection: &'a Projection,
    window: WorldBox,
    chords: Chords,
    colour: Rgb,
}

impl<'a> Model for RoundPen<'a> {
    ghost use Rattle.inking.specs.Stroked.{IsPen, PenValue};

    ghost Value = { PenValue };

    ghost view = { λ p. record { view = p.projection.now; width = p.chords; colour = p.colour } };

    ghost invariant = { λ p. IsPen (record { view = p.projection.now; width = p.chords; colour = p.colour }) p.window };
}

impl<'a> RoundPen<'a> {
    /// The pen of a width, 1 to `MAX_FINE_WIDTH` pixels of the picture, and a colour, on the picture of a scene. It takes
    /// the chords that the canvas keeps of this width, or memory for new ones. The canvas keeps its window.
    pub fn new(
        canvas: &mut Canvas,
        scene: &'a Scene<'_>,
        width: u8,
        colour: Rgb,
    ) -> Result<Self, AllocError>
        requires some { 1 ≤ width }
        requires most { width ≤ MAX_FINE_WIDTH }
        ensures same { canvas.new ≡ canvas.old }
        ensures value { IfOk result (λ pen. pen ≡ record { view = scene.now.view; width = width; colour = colour }) }
    {
        let projection = scene.projection();
        let _columns = projection.columns();
        let chords = canvas.lend_chords(width)?;
        Ok(RoundPen {
            projection,
            window: canvas.window(projection, u16::from(width)),
            chords,
            colour,
        })
    }

    /// The pen of so many pixels of the map, 1 to `MAX_LINE_WIDTH`, and a colour.
    pub fn of_map(
        canvas: &mut Canvas,
        scene: &'a Scene<'_>,
        width: u8,
        colour: Rgb,
    ) -> Result<Self, AllocError>
        requires some { 1 ≤ width }
        requires most { width ≤ MAX_LINE_WIDTH }
        ensures same { canvas.new ≡ canvas.old }
        ensures value { IfOk result (λ pen. pen ≡ record { view = scene.now.view; width = scene.now.view.factor * width; colour = colour }) }
    {
        let width = scene.factor().fine(u16::from(width)) as u8;
        RoundPen::new(canvas, scene, width, colour)
    }

    /// Gives its chords to the canvas, which keeps them for the next pen of the width.
    pub fn put_down(self, canvas: &mut Canvas)
        ensures { canvas.new ≡ canvas.old }
    {
        canvas.return_chords(self.chords);
    }

    /// The point of a place.
    pub fn device(&self, place: World) -> Device
        ensures { result ≡ device_point self.now.view place }
    {
        self.projection.device(place)
    }

    /// Whether a block's box lies apart from the window, so that no pixel of the picture is covered within it.
    pub fn misses(&self, block: BlockBox) -> bool
        ensures value { result ≡ are_apart (window self.now.view self.now.width) block }
        ensures limits { IsView self.now.view }
    {
        let window = self.window;
        let (minx, maxx) = (block.minx().get(), block.maxx().get());
        let (miny, maxy) = (block.miny().get(), block.maxy().get());
        is_before(maxx, window.minx())
            || is_before(window.maxx(), minx)
            || is_before(maxy, window.miny())
            || is_before(window.maxy(), miny)
    }

    /// The round segment between two points.
    pub fn segment(&self, from: Device, to: Device) -> RoundSegment
        ensures { result ≡ record { edge = record { from = from; to = to }; width = self.now.width } }
    {
        RoundSegment::new(from, to, self.chords.width())
    }

    /// The same between points near to the picture.
    pub fn step(&self, from: Device, to: Device) -> RoundStep<'_>
        requires from { is_small_point from ≡ true }
        requires to { is_small_point to ≡ true }
        ensures { result ≡ record { edge = record { from = from; to = to }; width = self.now.width } }
    {
        RoundStep::new(&self.chords, from, to)
    }

    /// The colour.
    pub fn colour(&self) -> Rgb
        ensures { result ≡ self.now.colour }
    {
        self.colour
    }
}

// Whether a number is less than another one.
fn is_before(a: Micro, b: Micro) -> bool
    ensures { result ≡ int_lt a b }
{
    a.millionths() < b.millionths()
}
