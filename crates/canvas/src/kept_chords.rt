ghost use Rattle.std.specs.Prelude.{◌≡◌, ◌≤◌, ◌<◌, length, IfOk, OnOk};
ghost use Rattle.mapdefs.specs.declared.limits.TheConstants.{MAX_FINE_WIDTH};

use std::alloc::{AllocError, Global};
use strokes::Chords;

/// The chords of discs that were made for a picture, so that those of a width are made once, and not for each line.
#[derive(Drop)]
pub struct KeptChords {
    // At the index of a width its chords, if there are some.
    by_width: Vec<Option<Chords>>,
}

impl KeptChords {
    // None yet. It takes no memory.
    pub(crate) fn new(alloc: Global) -> Self {
        KeptChords {
            by_width: Vec::new(alloc),
        }
    }

    // Takes the chords of a width, which are made if they aren't there.
    pub(crate) fn take(&mut self, width: u8) -> Result<Chords, AllocError>
        requires some { 1 ≤ width }
        requires most { width ≤ MAX_FINE_WIDTH }
        ensures { IfOk result (λ chords. chords ≡ width) }
    {
        let at = usize::from(width);
        if at < self.by_width.len() {
            if let Some(chords) = self.by_width[at].take() {
                if chords.width() == width {
                    return Ok(chords);
                }
            }
        }
        Chords::new(*self.by_width.allocator(), width)
    }

    // Keeps chords for the next line of their width. They are dropped where memory is refused.
    pub(crate) fn keep(&mut self, chords: Chords) {
        let at = usize::from(chords.width());
        if self.make_room(at).is_ok() {
            self.by_width[at] = Some(chords);
        }
    }

    // Makes room for the chords at an index.
    fn make_room(&mut self, at: usize) -> Result<(), AllocError>
        requires { at ≤ MAX_FINE_WIDTH }
        ensures { OnOk result (at < length self.new.by_width.items) }
    {
        for _ in self.by_width.len()..at + 1 {
            self.by_width.push(None)?;
        }
        Ok(())
    }
}
