ghost use Rattle.std.specs.Prelude.{◌≡◌, All, ◌+◌, ◌≤◌, ◌<◌, length, IfOk, OnOk};
ghost use Rattle.labelcache.specs.Candidate.{AreWithinPriorities, IsTextCorner};
ghost use Rattle.labelcache.specs.Placement.{IsPlacement, setting};
ghost use Rattle.labelcache.specs.Placing.{IsPlacedTo};

use crate::cache::Placed;
use crate::candidate::Candidate;
use crate::page::Page;
use crate::placing::Placing;
use crate::trial::try_candidate;
use mapdefs::MAX_PRIORITY;
use std::alloc::{AllocError, Global};

/// How far the order of trial has come: to a number of a priority.
#[derive(Clone, Copy)]
pub struct Turn {
    pub priority: u8,
    pub number: usize,
}

// Tries the candidate of a number, if the candidate has the priority.
fn place_number<'a>(
    placing: &mut Placing<'a>,
    page: &Page<'_>,
    candidates: &[Candidate<'a>],
    turn: Turn,
) -> Result<(), AllocError>
    requires number { turn.number < length candidates.now }
    requires placed { IsPlacedTo (setting page.now candidates.now) turn.priority (turn.number + 1) placing.old }
    ensures { OnOk result (IsPlacedTo (setting page.now candidates.now) turn.priority turn.number placing.new) }
{
    let candidate = &candidates[turn.number];
    if candidate.label().priority != turn.priority {
        return Ok(());
    }
    try_candidate(placing, page, turn.number, candidate)?;
    Ok(())
}

// Tries the candidates of a priority, by falling number.
fn place_priority<'a>(
    placing: &mut Placing<'a>,
    page: &Page<'_>,
    candidates: &[Candidate<'a>],
    priority: u8,
) -> Result<(), AllocError>
    requires { IsPlacedTo (setting page.now candidates.now) priority (length candidates.now) placing.old }
    ensures { OnOk result (IsPlacedTo (setting page.now candidates.now) priority 0 placing.new) }
{
    let mut number = candidates.len();
    while number > 0 {
        number -= 1;
        let turn = Turn { priority, number };
        place_number(placing, page, candidates, turn)?;
    }
    Ok(())
}

/// The placement of candidates on a page.
pub fn place_all(
    alloc: Global,
    page: &Page<'_>,
    candidates: &[Candidate<'_>],
) -> Result<Vec<Placed>, AllocError>
    requires { AreWithinPriorities candidates.now }
    ensures corners { IfOk result (λ labels. All (λ label. IsTextCorner label.at) labels.items) }
    ensures placed { IfOk result (λ labels. IsPlacement (setting page.now candidates.now) labels.items) }
{
    let mut placing = Placing::new(alloc, page.width(), page.height())?;
    let mut priority = MAX_PRIORITY;
    while priority > 0 {
        place_priority(&mut placing, page, candidates, priority)?;
        priority -= 1;
    }
    Ok(placing.into_labels())
}
