ghost use Rattle.std.specs.Prelude.{◌≡◌, ◌≤◌, IsTrue};
ghost use Rattle.geom.specs.Side.{IsPictureSide};
ghost use Rattle.geom.specs.World.{IsExtent};
ghost use Rattle.viewport.specs.View.{window};
ghost use Rattle.viewport.specs.declared.view.TheConstants.{MAX_MARGIN};

use geom::WorldBox;
use std::marker::Model;
use viewport::{Projection, View};

/// The window of a view with a margin of pixels round its picture.
#[derive(Drop)]
pub struct MarginWindow {
    view: View,
    margin: u16,
    area: WorldBox,
}

impl Model for MarginWindow {
    ghost use Rattle.canvas.specs.Margin.{MarginWindowValue};
    ghost use Rattle.std.specs.Prelude.{◌≡◌};
    ghost use Rattle.viewport.specs.View.{window};

    ghost Value = { MarginWindowValue };

    ghost view = { λ w. record { view = w.view; margin = w.margin } };

    ghost invariant = { λ w. w.area ≡ window w.view w.margin };
}

impl MarginWindow {
    /// The window of a projection with a margin.
    pub fn new(projection: &Projection, margin: u16) -> Self
        requires { margin ≤ MAX_MARGIN }
        ensures { result ≡ record { view = projection.now; margin = margin } }
    {
        MarginWindow {
            view: projection.view(),
            margin,
            area: projection.window(margin),
        }
    }

    /// Whether it is of a projection and a margin.
    pub fn is_of(&self, projection: &Projection, margin: u16) -> bool
        ensures { IsTrue result → self.now ≡ record { view = projection.now; margin = margin } }
    {
        self.margin == margin && projection.shows(self.view)
    }

    /// The part of the world that it has.
    pub fn area(&self) -> WorldBox
        ensures { result ≡ window self.now.view self.now.margin }
    {
        self.area
    }
}
