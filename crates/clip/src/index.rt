ghost use Rattle.std.specs.Prelude.{◌≡◌, min};
ghost use Rattle.clip.specs.EdgeClass.{at_least_zero};

/// The index, cut to 0 below and to `end` above.
pub fn clamped(index: i128, end: u16) -> u16
    ensures { result ≡ min (at_least_zero index) end }
{
    if index <= 0 {
        0
    } else if index < i128::from(end) {
        index as u16
    } else {
        end
    }
}
