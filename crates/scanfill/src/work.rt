ghost use Rattle.std.specs.Prelude.{◌≡◌, ◌+◌, ◌-◌, ◌^◌, min};

/// How much work was done: it counts the divisions that walks make at their start.
#[derive(Clone, Copy)]
pub struct Work {
    /// The number of divisions. It stays at its greatest value.
    pub divisions: u64,
}

impl Work {
    /// No work yet.
    pub fn new() -> Self
        ensures { result ≡ record { divisions = 0 } }
    {
        Work { divisions: 0 }
    }

    /// Counts so many divisions more.
    pub fn add(&mut self, divisions: u64)
        ensures { self.new ≡ record { divisions = min (self.old.divisions + divisions) (2 ^ 64 - 1) } }
    {
        self.divisions = self.divisions.saturating_add(divisions);
    }
}
