ghost use Rattle.std.specs.Prelude.{◌≡◌, ◌<◌, ◌≤◌, ◌*◌, ◌+◌, ◌-◌, ◌^◌, ◌↔◌, ℕ, length, IsTrue};
ghost use Rattle.std.specs.Int.{bit_at};
ghost use Rattle.collide.specs.Bits.{AreSet, HasAny};

/// Sets the bits of some words from one to before another.
pub fn set_all(words: &mut [u64], from: usize, past: usize)
    requires { past ≤ 64 * length words.old }
    ensures count { length words.new ≡ length words.old }
    ensures bits { AreSet from past words.old words.new }
{
    for number in from / 64..past.div_ceil(64) {
        words[number] |= mask(number, from, past);
    }
}

/// Whether one of the bits of some words from one to before another is set.
pub fn has_any(words: &[u64], from: usize, past: usize) -> bool
    requires { past ≤ 64 * length words.now }
    ensures { IsTrue result ↔ HasAny from past words.now }
{
    for number in from / 64..past.div_ceil(64) {
        if words[number] & mask(number, from, past) != 0 {
            return true;
        }
    }
    false
}

// The bits of the word of a number that lie from one to before another of all bits.
fn mask(number: usize, from: usize, past: usize) -> u64
    requires { number < 2 ^ 58 }
    ensures { (k : ℕ) → k < 64 → (bit_at result k ≡ 1) ↔ ((from ≤ number * 64 + k) × (number * 64 + k < past)) }
{
    let start = number * 64;
    let low = from.saturating_sub(start).min(64);
    let high = past.saturating_sub(start).min(64);
    ones_below(high) & !ones_below(low)
}

// So many ones, from the lowest bit on.
fn ones_below(count: usize) -> u64
    requires { count ≤ 64 }
    ensures { result ≡ 2 ^ count - 1 }
{
    if count == 0 {
        return 0;
    }
    u64::MAX >> (64 - count)
}
