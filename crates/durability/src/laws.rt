//! Laws of the definitions. A law is a function without arguments whose contract states it.

ghost use Rattle.std.specs.Prelude.{◌≡◌, ℕ, List, Option, length};
ghost use Rattle.durability.specs.Law.{IsDurable, IsWhole, Skips};

/// The laws hold whatever batches do to a state, and whatever happens to a service that keeps them. The batches of the service begin
/// with all that was ever published, each was submitted, and each is accepted after those before it. Each state that was published is
/// the one after the batches that were published with it, however often the journal was compacted before. Until it is for the first
/// time, it has all batches.
pub fn durable<S>()
    ensures durable { (accepted : S → List ℕ → Option S) (skipping : ℕ → S → S) (fingerprint : List ℕ) (start : S)
        → Skips skipping → length fingerprint ≡ 32 → IsDurable accepted skipping fingerprint start }
    ensures whole { (accepted : S → List ℕ → Option S) (skipping : ℕ → S → S) (fingerprint : List ℕ) (start : S)
        → Skips skipping → length fingerprint ≡ 32 → IsWhole accepted skipping fingerprint start }
{}
