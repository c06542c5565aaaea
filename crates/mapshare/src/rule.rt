//! The rule between readers and the writer.

ghost use Rattle.mapshare.specs.Seeing.{Keeps, Shows, nothing_seen};

use crate::replica::Replica;
use crossbeam_utils::rule::{Outcome, Protocol};
use history::Naming;
use left_right::{reader, writer};
use std::marker::{Brand, PhantomData};

/// The identity of a sharing: the history of its batches, and the state that it opened in. Each call that opens one
/// picks it.
pub trait Sharing: Naming {
    ghost use Rattle.batches.specs.Batch.{State};

    /// The state at the opening.
    ghost opening: { State };
}

impl Sharing for Brand {
    ghost use Rattle.mapshare.specs.Unopened.{no_state};

    ghost opening = { no_state };
}

/// The view of a reader's end, or of the writer's. No value of it is made.
pub struct View {
    /// The batches that were shown last.
    pub seen: [[u8; 0]; 0],
}

/// The rule: the published replica is the opening state after the batches of its prefix, which begins with the batches
/// that each end has seen.
pub struct Ruled<S> {
    of: PhantomData<S>,
}

impl<S: Sharing> Protocol<Replica<S>, View> for Ruled<S> {
    ghost holds = { Keeps S.opening };

    ghost first = { nothing_seen };
}

/// A step that shows a replica: it is made by its batches, which begin with those seen before and are those seen after.
pub struct Sees<S> {
    of: PhantomData<S>,
}

impl<S: Sharing> Outcome<Replica<S>, View> for Sees<S> {
    ghost then = { λ before _ replica after. Shows S.opening before replica after };
}

/// A publish, which states nothing more than the history does.
pub struct Moves;

impl<J: Naming> Outcome<Replica<J>, View> for Moves {
    ghost then = { λ _ _ _ _. Unit {0} };
}

/// The administrator's end.
pub type MapWriter<S> = writer::Writer<Replica<S>, Replica<S>, View, Ruled<S>>;

/// A reader's end.
pub type MapReader<S> = reader::Reader<Replica<S>, View, Ruled<S>>;

/// A reader's end while it reads.
pub type MapReading<S> = reader::Reading<Replica<S>, View, Ruled<S>>;
