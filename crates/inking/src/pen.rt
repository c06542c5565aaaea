ghost use Rattle.std.specs.Prelude.{◌≡◌, ◌≤◌, ◌*◌, ◌&&◌, true, int_le};
ghost use Rattle.mapdefs.specs.declared.limits.TheConstants.{MAX_FINE_WIDTH, MAX_LINE_WIDTH};
ghost use Rattle.viewport.specs.View.{device_point};
ghost use Rattle.inking.specs.Stroked.{IsQuiet, has_box, has_place};

use crate::grain::{Grain, box_of};
use canvas::Canvas;
use geom::{
    Device, GREATEST_COORDINATE as MOST, LEAST_COORDINATE as LEAST, Micro, World, WorldBox,
};
use mapdefs::{BlockBox, Rgb};
use scene::Scene;
use std::marker::Model;
use viewport::Projection;

/// The pen of a line: the grain of its places' projection, its width and its colour, and the window of the
/// world outside of which its vertices cover no pixel of the picture.
#[derive(Drop)]
pub struct Pen<'a> {
    grain: Grain<'a>,
    window: WorldBox,
    width: u8,
    colour: Rgb,
}

impl<'a> Model for Pen<'a> {
    ghost use Rattle.inking.specs.Stroked.{IsPen, PenValue};

    ghost Value = { PenValue };

    ghost view = { λ p. record { view = p.grain; width = p.width; colour = p.colour } };

    ghost invariant = { λ p. IsPen (record { view = p.grain; width = p.width; colour = p.colour }) p.window };
}

impl<'a> Pen<'a> {
    /// The pen of a width, 1 to `MAX_FINE_WIDTH` pixels of the picture, and a colour, on the picture of a scene. The canvas keeps its window.
    pub fn new(canvas: &mut Canvas, scene: &'a Scene<'_>, width: u8, colour: Rgb) -> Self
        requires some { 1 ≤ width }
        requires most { width ≤ MAX_FINE_WIDTH }
        ensures same { canvas.new ≡ canvas.old }
        ensures value { result ≡ record { view = scene.now.view; width = width; colour = colour } }
    {
        let projection = scene.projection();
        let _columns = projection.columns();
        Pen {
            grain: Grain::new(projection),
            window: canvas.window(projection, u16::from(width)),
            width,
            colour,
        }
    }

    /// The pen of so many pixels of the map, 1 to `MAX_LINE_WIDTH`, and a colour.
    pub fn of_map(canvas: &mut Canvas, scene: &'a Scene<'_>, width: u8, colour: Rgb) -> Self
        requires some { 1 ≤ width }
        requires most { width ≤ MAX_LINE_WIDTH }
        ensures same { canvas.new ≡ canvas.old }
        ensures value { result ≡ record { view = scene.now.view; width = scene.now.view.factor * width; colour = colour } }
    {
        let width = scene.factor().fine(u16::from(width)) as u8;
        Pen::new(canvas, scene, width, colour)
    }

    /// The projection of the line's places.
    pub fn projection(&self) -> &Projection
        ensures { result.now ≡ self.now.view }
    {
        self.grain.projection()
    }

    /// The width of the line.
    pub fn width(&self) -> u8
        ensures value { result ≡ self.now.width }
        ensures some { 1 ≤ result }
        ensures most { result ≤ MAX_FINE_WIDTH }
    {
        self.width
    }

    /// The colour of the line.
    pub fn colour(&self) -> Rgb
        ensures { result ≡ self.now.colour }
    {
        self.colour
    }

    /// A box with a place, which lies at that point of the picture. The box is quiet beside it. It
    /// is the part of the world west, east, south or north of the window, if the place lies there,
    /// since a step within it covers no pixel. Else it is places of the place's pixel if the width
    /// is odd, since a step between them covers the square round it alone. Else it is the place
    /// alone.
    #[inline(always)]
    pub fn quiet_at(&self, place: World, at: Device) -> WorldBox
        requires { at ≡ device_point self.now.view place }
        ensures has { has_place result place ≡ true }
        ensures quiet { IsQuiet self.now place result }
    {
        let (x, y) = (place.x().get().millionths(), place.y().get().millionths());
        let window = self.window;
        if x < window.minx().millionths() {
            box_of(LEAST, LEAST, window.minx().millionths() - 1, MOST)
        } else if x > window.maxx().millionths() {
            box_of(window.maxx().millionths() + 1, LEAST, MOST, MOST)
        } else if y < window.miny().millionths() {
            box_of(LEAST, LEAST, MOST, window.miny().millionths() - 1)
        } else if y > window.maxy().millionths() {
            box_of(LEAST, window.maxy().millionths() + 1, MOST, MOST)
        } else if self.width % 2 == 0 {
            box_of(x, y, x, y)
        } else {
            self.grain.around(place, at)
        }
    }
}

/// Whether a place lies in a box, or on its border.
pub fn has_place(area: &WorldBox, place: World) -> bool
    ensures { result ≡ has_place area.now place }
{
    let (x, y) = (place.x().get().millionths(), place.y().get().millionths());
    is_between(area.minx().millionths(), x, area.maxx().millionths())
        && is_between(area.miny().millionths(), y, area.maxy().millionths())
}

/// Whether a block's box lies in a box.
pub fn has_box(area: &WorldBox, block: BlockBox) -> bool
    ensures { result ≡ has_box area.now block }
{
    let (minx, maxx) = (block.minx().get(), block.maxx().get());
    let (miny, maxy) = (block.miny().get(), block.maxy().get());
    encloses(area.minx(), minx, maxx, area.maxx()) && encloses(area.miny(), miny, maxy, area.maxy())
}

// Whether the numbers from one to another lie between the least and the most.
fn encloses(least: Micro, from: Micro, to: Micro, most: Micro) -> bool
    ensures { result ≡ (int_le least from && int_le to most) }
{
    least.millionths() <= from.millionths() && to.millionths() <= most.millionths()
}

// Whether a number lies between two others, inclusive.
fn is_between(least: i64, number: i64, most: i64) -> bool
    ensures { result ≡ (int_le least number && int_le number most) }
{
    least <= number && number <= most
}
