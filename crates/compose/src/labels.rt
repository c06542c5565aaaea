ghost use Rattle.std.specs.Prelude.{◌≡◌, ◌<◌, All, IfOk, length};
ghost use Rattle.labelcache.specs.Candidate.{IsTextCorner};
ghost use Rattle.viewport.specs.View.{whole_of};
ghost use Rattle.compose.specs.Labels.{ArePlaced, candidate_list};

use crate::label_scene::LabelScene;
use crate::labelled_layer::add_layer;
use labelcache::{Cache, Placed};
use mapdefs::Near;
use scene::Scene;
use std::alloc::{AllocError, Global};
use std::marker::Model;

/// The labels of a whole picture: the candidates, and those that are placed, in the order in which they were placed.
#[derive(Drop)]
pub struct Labels<'a> {
    candidates: Cache<'a>,
    placed: Vec<Placed>,
}

impl<'a> Model for Labels<'a> {
    ghost use Rattle.std.specs.Prelude.{All};
    ghost use Rattle.labelcache.specs.Candidate.{IsTextCorner};
    ghost use Rattle.labelcache.specs.declared.cache.Placed.{Placed};
    ghost use Rattle.compose.specs.Labels.{LabelsValue};

    ghost Value = { LabelsValue };

    ghost view = { λ l. record { candidates = l.candidates; placed = l.placed.items } };

    ghost invariant = { λ l. All (λ (label : Placed). IsTextCorner label.at) l.placed.items };
}

// The candidates of the chosen layers.
fn candidates_of<'a, N: Near>(
    alloc: Global,
    scene: &LabelScene<'_, 'a>,
    near: &N,
    chosen: &[usize],
) -> Result<Cache<'a>, AllocError>
    requires near { N.map_of near.now ≡ scene.now.map }
    requires layers { All (λ index. index < length scene.now.map.layers) chosen.now }
    ensures { IfOk result (λ labels. labels ≡ candidate_list scene.now.view scene.now.scale scene.now.map chosen.now) }
{
    let mut labels = Cache::new(alloc);
    for index in chosen {
        add_layer(&mut labels, scene, near, *index)?;
    }
    Ok(labels)
}

impl<'a> Labels<'a> {
    /// The labels of the chosen layers on the whole picture, with whose first pixel the scene's canvas begins. It takes
    /// memory for the candidates and for their placement; `AllocError` comes only where this is refused.
    pub fn of_whole<N: Near>(
        alloc: Global,
        scene: &Scene<'a>,
        near: &N,
        chosen: &[usize],
    ) -> Result<Self, AllocError>
        requires near { N.map_of near.now ≡ scene.now.map }
        requires layers { All (λ index. index < length scene.now.map.layers) chosen.now }
        requires left { scene.now.view.left ≡ 0 }
        requires top { scene.now.view.top ≡ 0 }
        ensures candidates { IfOk result
            (λ labels. labels.candidates ≡ candidate_list (whole_of scene.now.view) scene.now.scale scene.now.map chosen.now) }
        ensures placed { IfOk result (λ labels. ArePlaced (whole_of scene.now.view) scene.now.map.fonts labels.candidates labels.placed) }
    {
        let whole = LabelScene::of_whole(scene);
        let candidates = candidates_of(alloc, &whole, near, chosen)?;
        let placed = whole.place(&candidates)?;
        Ok(Labels { candidates, placed })
    }

    /// Where its memory comes from.
    pub fn alloc(&self) -> Global {
        *self.placed.allocator()
    }

    /// The candidates.
    pub fn candidates(&self) -> &Cache<'a>
        ensures { result.now ≡ self.now.candidates }
    {
        &self.candidates
    }

    /// The labels that are placed.
    pub fn placed(&self) -> &[Placed]
        ensures value { result.now ≡ self.now.placed }
        ensures corners { All (λ label. IsTextCorner label.at) result.now }
    {
        self.placed.as_slice()
    }
}
