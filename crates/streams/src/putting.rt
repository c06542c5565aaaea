ghost use Rattle.std.specs.Prelude.{◌≡◌, ◌++◌, ℕ, List, true, OnOk, OnErr, MatchResult};
ghost use Rattle.std.specs.List.{flat_map};
ghost use Rattle.streams.specs.Sent.{IsSent, IsCutSomewhere};

use crate::gathered::Gathered;
use crate::{PutFailed, Sink};

/// Puts all of the bytes into the sink, or fails after a prefix of them.
pub fn put_all<S: Sink>(sink: &mut S, bytes: &[u8]) -> Result<(), PutFailed>
    ensures sent { OnOk result (IsSent S.held S.taken sink.old bytes.now sink.new) }
    ensures cut { OnErr result (IsCutSomewhere S.held S.taken sink.old bytes.now sink.new) }
    ensures flag { MatchResult result (λ _. S.put_failed sink.new ≡ S.put_failed sink.old) (λ _. S.put_failed sink.new ≡ true) }
{
    let mut rest = bytes;
    while !rest.is_empty() {
        let count = sink.put(rest)?;
        rest = &rest[count..];
    }
    Ok(())
}

// Gathers a piece after the gathered bytes. Where it doesn't fit, the gathered bytes go out full. The rest of the piece
// then goes out without being gathered.
fn put_piece<S: Sink>(sink: &mut S, gathered: &mut Gathered, piece: &[u8]) -> Result<(), PutFailed>
    ensures sent { OnOk result ((text : List ℕ) × IsSent S.held S.taken sink.old text sink.new × (text ++ gathered.new ≡ gathered.old ++ piece.now)) }
    ensures cut { OnErr result (IsCutSomewhere S.held S.taken sink.old (gathered.old ++ piece.now) sink.new) }
    ensures flag { MatchResult result (λ _. S.put_failed sink.new ≡ S.put_failed sink.old) (λ _. S.put_failed sink.new ≡ true) }
{
    let rest = gathered.fill(piece);
    if rest.is_empty() {
        return Ok(());
    }
    put_all(sink, gathered.as_slice())?;
    gathered.clear();
    put_all(sink, rest)
}

/// Puts some pieces into the sink, one after the other, or fails after a prefix of their bytes. Up to 4,096 bytes leave
/// in one call. Where there are more, the first 4,096 do, and then the rest of the piece that they end in, without
/// being gathered.
pub fn put_pieces<S: Sink>(sink: &mut S, pieces: &[&[u8]]) -> Result<(), PutFailed>
    ensures sent { OnOk result (IsSent S.held S.taken sink.old (flat_map (λ piece. piece.now) pieces.now) sink.new) }
    ensures cut { OnErr result (IsCutSomewhere S.held S.taken sink.old (flat_map (λ piece. piece.now) pieces.now) sink.new) }
    ensures flag { MatchResult result (λ _. S.put_failed sink.new ≡ S.put_failed sink.old) (λ _. S.put_failed sink.new ≡ true) }
{
    let mut gathered = Gathered::new();
    for piece in pieces {
        put_piece(sink, &mut gathered, piece)?;
    }
    put_all(sink, gathered.as_slice())
}
