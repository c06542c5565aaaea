//! Laws of the definitions. A law is a function without arguments whose contract states it.

ghost use Rattle.std.specs.Prelude.{ℕ, List};
ghost use Rattle.journal.specs.Law.{IsDigest, HasOneReading, WrittenIsRead, StopsAnywhere, BeginsAnywhere, DamageIsSeen, HasOneName, DamagedNameIsSeen, DamagedDigestIsSeen, PartIsRefused};

/// The promises of the format, for any digest and any name of a journal. The last is of SHA-256.
pub fn promises()
    ensures one { (digest : List ℕ → List ℕ) (name : List ℕ) → IsDigest digest → HasOneReading digest name }
    ensures written { (digest : List ℕ → List ℕ) (name : List ℕ) → IsDigest digest → WrittenIsRead digest name }
    ensures stops { (digest : List ℕ → List ℕ) (name : List ℕ) → IsDigest digest → StopsAnywhere digest name }
    ensures begins { (digest : List ℕ → List ℕ) (name : List ℕ) → IsDigest digest → BeginsAnywhere digest name }
    ensures damage { (digest : List ℕ → List ℕ) (name : List ℕ) → IsDigest digest → DamageIsSeen digest name }
    ensures named { (digest : List ℕ → List ℕ) → IsDigest digest → HasOneName digest }
    ensures other_name { (digest : List ℕ → List ℕ) → IsDigest digest → DamagedNameIsSeen digest }
    ensures other_digest { (digest : List ℕ → List ℕ) → IsDigest digest → DamagedDigestIsSeen digest }
    ensures part { PartIsRefused }
{}
