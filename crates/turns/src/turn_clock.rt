ghost use Rattle.std.specs.Prelude.{◌≡◌, ◌≤◌, ℕ, false, max, true};

/// The clock of a worker, which a turn reads behind a query.
pub trait TurnClock {
    ghost use Rattle.std.specs.Prelude.{ℕ};

    // The clock may show this moment.
    ghost shows: { Self → ℕ → Type 0 };

    /// The milliseconds that it shows.
    fn moment(&self) -> u64
        ensures { shows self.now result };
}

// When a turn ended that began at a moment: behind a query the clock is read again, since an answer may take long.
pub(crate) fn end_of<C: TurnClock>(clock: &C, asked: bool, began: u64) -> u64
    ensures later { began ≤ result }
    ensures read { asked ≡ true → (moment : ℕ) × C.shows clock.now moment × (result ≡ max began moment) }
    ensures unasked { asked ≡ false → result ≡ began }
{
    if asked {
        began.max(clock.moment())
    } else {
        began
    }
}
