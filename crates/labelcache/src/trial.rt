ghost use Rattle.std.specs.Prelude.{◌≡◌, ◌↔◌, false, map, All, IsTrue, IfSome, IfNone, OnOk};
ghost use Rattle.geom.specs.PxBox.{IsInside};
ghost use Rattle.labelcache.specs.Candidate.{IsTextCorner};
ghost use Rattle.labelcache.specs.LabelBox.{corner_at, positions, size_in, taken_at};
ghost use Rattle.labelcache.specs.Placement.{IsClear};
ghost use Rattle.labelcache.specs.Placing.{HasNoFree, FitsNowhere, IsFar, IsFirstFree, IsFirstFit, IsFree, Tries};

use crate::cache::Placed;
use crate::candidate::Candidate;
use crate::label_box::{AUTOMATIC, TextSize, corner_at, taken_at};
use crate::page::Page;
use crate::placing::Placing;
use geom::{Pixel, PxBox};
use mapdefs::{LabelFields, Position};
use std::alloc::AllocError;

/// The corner of a text, and the box that its label takes there.
#[derive(Clone, Copy)]
pub struct Fit {
    pub at: Pixel,
    pub taken: PxBox,
}

// The fit at a position of a candidate whose text has that size.
fn fit_at(page: &Page<'_>, candidate: &Candidate<'_>, size: TextSize, position: Position) -> Fit
    requires { size ≡ size_in page.now.fonts candidate.now }
    ensures corner { IsTextCorner result.at }
    ensures at { result.at ≡ corner_at candidate.now.anchor (size_in page.now.fonts candidate.now) position }
    ensures taken { result.taken ≡ taken_at page.now.fonts candidate.now result.at }
{
    let at = corner_at(candidate.anchor(), size, position);
    let taken = taken_at(at, size, candidate);
    Fit { at, taken }
}

// Whether a box lies in the picture, or the label may be cut at its border.
fn is_shown(page: &Page<'_>, label: &LabelFields, taken: PxBox) -> bool
    ensures { IsTrue result ↔ (label.now.partials ≡ false → IsInside taken page.now.width page.now.height) }
{
    label.partials || taken.inside(page.width(), page.height())
}

// Whether a box is clear of the labels so far, or the label is forced.
fn is_clear(placing: &Placing<'_>, label: &LabelFields, taken: PxBox) -> bool
    ensures { IsTrue result ↔ (label.now.force ≡ false → All (IsClear taken) placing.now.labels) }
{
    label.force || placing.is_clear(taken)
}

// Whether a label may take a box on the picture, against the labels so far.
fn is_free(placing: &Placing<'_>, page: &Page<'_>, label: &LabelFields, taken: PxBox) -> bool
    ensures { IsTrue result ↔ IsFree page.now label.now placing.now.labels taken }
{
    is_shown(page, label, taken) && is_clear(placing, label, taken)
}

// The first of some positions where a candidate's text is free, with its corner there and the box that it takes.
fn first_free(
    placing: &Placing<'_>,
    page: &Page<'_>,
    candidate: &Candidate<'_>,
    positions: &[Position],
) -> Option<Fit>
    ensures corner { IfSome result (λ fit. IsTextCorner fit.at) }
    ensures some { IfSome result
        (λ fit. IsFirstFree page.now placing.now.labels candidate.now
        (map (corner_at candidate.now.anchor (size_in page.now.fonts candidate.now)) positions.now)
        fit.at fit.taken) }
    ensures none { IfNone result
        (HasNoFree page.now placing.now.labels candidate.now
        (map (corner_at candidate.now.anchor (size_in page.now.fonts candidate.now)) positions.now)) }
{
    let size = page.size_of(candidate);
    let label = candidate.label();
    for position in positions {
        let fit = fit_at(page, candidate, size, *position);
        let taken = fit.taken;
        if is_free(placing, page, label, taken) {
            return Some(fit);
        }
    }
    None
}

// The first position where a candidate's text is free: of the automatic ones, or of the label's own one.
fn first_position(
    placing: &Placing<'_>,
    page: &Page<'_>,
    candidate: &Candidate<'_>,
    position: Position,
) -> Option<Fit>
    ensures corner { IfSome result (λ fit. IsTextCorner fit.at) }
    ensures some { IfSome result
        (λ fit. IsFirstFree page.now placing.now.labels candidate.now
        (map (corner_at candidate.now.anchor (size_in page.now.fonts candidate.now)) (positions position))
        fit.at fit.taken) }
    ensures none { IfNone result
        (HasNoFree page.now placing.now.labels candidate.now
        (map (corner_at candidate.now.anchor (size_in page.now.fonts candidate.now)) (positions position))) }
{
    match position {
        Position::Automatic => first_free(placing, page, candidate, &AUTOMATIC),
        position => first_free(placing, page, candidate, &[position]),
    }
}

// Whether a candidate keeps its distance to the labels so far, or its label is forced.
fn is_far(placing: &Placing<'_>, candidate: &Candidate<'_>) -> bool
    ensures { IsTrue result ↔ (candidate.now.label.force ≡ false → IsFar candidate.now placing.now.candidates) }
{
    candidate.label().force || placing.is_far(candidate)
}

// The first of a candidate's corners where it fits, with the box that it takes there. The distance doesn't depend
// on the corner, so it is tested once.
fn first_fit(placing: &Placing<'_>, page: &Page<'_>, candidate: &Candidate<'_>) -> Option<Fit>
    ensures corner { IfSome result (λ fit. IsTextCorner fit.at) }
    ensures some { IfSome result (λ fit. IsFirstFit page.now placing.now candidate.now fit.at fit.taken) }
    ensures none { IfNone result (FitsNowhere page.now placing.now candidate.now) }
{
    if !is_far(placing, candidate) {
        return None;
    }
    match first_position(placing, page, candidate, candidate.label().position) {
        Some(fit) => Some(fit),
        None => None,
    }
}

/// Tries the candidate of that number against the labels so far. If it fits somewhere, its label is added.
pub fn try_candidate<'a>(
    placing: &mut Placing<'a>,
    page: &Page<'_>,
    number: usize,
    candidate: &Candidate<'a>,
) -> Result<(), AllocError>
    ensures { OnOk result (Tries page.now number candidate.now placing.old placing.new) }
{
    match first_fit(placing, page, candidate) {
        Some(fit) => {
            let label = Placed {
                number,
                at: fit.at,
                taken: fit.taken,
            };
            placing.add(label, candidate.copy())
        }
        None => Ok(()),
    }
}
