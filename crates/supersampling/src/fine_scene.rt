ghost use Rattle.std.specs.Prelude.{◌≡◌};
ghost use Rattle.viewport.specs.View.{IsOnSide, block_of};

use mapdefs::Map;
use scaledenom::Scale;
use scene::Scene;
use std::marker::Model;
use viewport::{Fine, Stretch};

/// What a `Scene` is to a picture, to a smoothed one: a map, the fine picture that is painted, and the scale at which layers
/// and classes show.
#[derive(Drop)]
pub struct FineScene<'a> {
    map: &'a Map,
    fine: Fine,
    scale: Scale,
}

impl<'a> Model for FineScene<'a> {
    ghost use Rattle.mapdefs.specs.contracts.expr.Expr as expr;
    ghost use Rattle.std.specs.Coded.{codes};
    ghost use Rattle.scene.specs.Scene.{SceneValue};

    ghost Value = { SceneValue };

    ghost coded = { Prim.hlevel (codes, expr.the_row.coded) };

    ghost view = { λ s. record { map = s.map.now; view = s.fine; scale = s.scale } };
}

impl<'a> FineScene<'a> {
    /// The fine scene of a map, at a scale.
    pub fn new(map: &'a Map, fine: Fine, scale: Scale) -> Self
        ensures { result ≡ record { map = map.now; view = fine; scale = scale } }
    {
        FineScene { map, fine, scale }
    }

    /// The fine picture.
    pub fn fine(&self) -> &Fine
        ensures { result.now ≡ self.now.view }
    {
        &self.fine
    }

    /// The scene of a block of the fine picture.
    pub fn block(&self, across: Stretch, down: Stretch) -> Scene<'a>
        requires across { IsOnSide self.now.view.columns across.first across.count }
        requires down { IsOnSide self.now.view.rows down.first down.count }
        ensures { result ≡ record self.now { view = block_of self.now.view across down } }
    {
        Scene::new(self.map, self.fine.block(across, down), self.scale)
    }
}
