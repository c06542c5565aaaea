ghost use Rattle.std.specs.Prelude.{◌≡◌, IfOk, IfSome};
ghost use Rattle.compose.specs.Drawn.{HasLabels, blank_of};

use crate::ink::paint_labels;
use canvas::Canvas;
use labelcache::Cache;
use mapdefs::Rgb;
use scene::Scene;
use std::alloc::{AllocError, Global};
use std::marker::Model;

/// A picture while it is drawn: the canvas, and the candidates for its labels so far, where they are collected. The
/// candidates borrow their texts and labels from the map.
#[derive(Drop)]
pub struct Drawing<'a> {
    pub(crate) canvas: Canvas,
    pub(crate) labels: Option<Cache<'a>>,
}

impl<'a> Model for Drawing<'a> {
    ghost use Rattle.compose.specs.Drawn.{DrawingValue};

    ghost Value = { DrawingValue };

    ghost view = { λ d. record { canvas = d.canvas; labels = d.labels } };
}

impl<'a> Drawing<'a> {
    /// A drawing of the background on a canvas as wide and as high as the scene's picture. Candidates are collected after
    /// those that are given, or not at all.
    pub fn new(
        alloc: Global,
        scene: &Scene<'_>,
        background: Option<Rgb>,
        labels: Option<Cache<'a>>,
    ) -> Result<Self, AllocError>
        ensures { IfOk result (λ drawing. drawing ≡ record { canvas = blank_of scene.now.view background; labels = labels.entry }) }
    {
        Ok(Drawing {
            canvas: Canvas::new(alloc, scene, background)?,
            labels,
        })
    }

    /// The canvas, without labels.
    pub fn into_canvas(self) -> Canvas
        ensures { result ≡ self.entry.canvas }
    {
        self.canvas
    }

    /// The canvas, with the labels of the candidates placed and painted over it, where they were collected.
    pub fn into_labelled(self, scene: &Scene<'_>) -> Result<Canvas, AllocError>
        ensures { IfOk result (λ canvas. IfSome self.entry.labels (λ candidates. HasLabels scene.now candidates self.entry.canvas canvas)) }
    {
        let Drawing { mut canvas, labels } = self;
        let Some(labels) = labels else {
            return Ok(canvas);
        };
        paint_labels(&mut canvas, scene, &labels)?;
        Ok(canvas)
    }
}
