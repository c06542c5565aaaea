//! Records: a batch with its number, and the digest of both.

ghost use Rattle.std.specs.Prelude.{◌≡◌, ◌↔◌, ◌≤◌, ◌<◌, ◌-◌, ◌++◌, ℕ, List, length, take, drop, IfOk, IsTrue, MatchOption, OnOk};
ghost use Rattle.sha2.specs.Sha256.{sha256};
ghost use Rattle.journal.specs.Slip.{stuffed};
ghost use Rattle.journal.specs.Name.{name_bytes};
ghost use Rattle.journal.specs.Record.{body, sequence_bytes, record_of};
ghost use Rattle.journal.specs.Reading.{IsDecoded, IsFrameOf, IsRecordFrame};

use crate::name::{JournalName, update_with_name};
use crate::slip::{END, is_equal, push_stuffed, unstuff};
use sha2::{Digest, Sha256};
use std::alloc::{AllocError, Global};

// The bytes of a digest.
const DIGEST: usize = 32;

// The bytes of a number.
pub(crate) const SEQUENCE: usize = 8;

// A number in 8 bytes, the highest first.
#[tactic(auto, unfolding(crate::specs::Record::sequence_bytes))]
pub(crate) fn sequence(number: u64) -> [u8; 8]
    ensures { result ≡ sequence_bytes number }
{
    number.to_be_bytes()
}

// The digest of a record's number and batch, after the name of the journal.
fn digest_of(name: &JournalName, decoded: &[u8]) -> [u8; 32]
    ensures { result ≡ sha256 (name_bytes name.now ++ decoded.now) }
{
    let mut hasher = Sha256::new();
    update_with_name(&mut hasher, name);
    hasher.update(decoded);
    hasher.finalize()
}

// The digest of a number and a batch, after the name of the journal.
fn record_digest(name: &JournalName, sequence: &[u8; 8], batch: &[u8]) -> [u8; 32]
    ensures { result ≡ sha256 (name_bytes name.now ++ (sequence.now ++ batch.now)) }
{
    let mut hasher = Sha256::new();
    update_with_name(&mut hasher, name);
    hasher.update(sequence.as_slice());
    hasher.update(batch);
    hasher.finalize()
}

/// Adds the record of the batch that has a number. The one error is that memory was refused; then a part of it may have been added.
pub fn push_record(
    out: &mut Vec<u8>,
    name: &JournalName,
    number: u64,
    batch: &[u8],
) -> Result<(), AllocError>
    ensures spelled { OnOk result (out.new.items ≡ out.old.items ++ record_of sha256 (name_bytes name.now) (sequence_bytes number) batch.now) }
{
    let sequence = sequence(number);
    let digest = record_digest(name, &sequence, batch);
    out.reserve(batch.len())?;
    out.push(END)?;
    push_stuffed(out, &sequence)?;
    push_stuffed(out, batch)?;
    push_stuffed(out, &digest)?;
    out.push(END)?;
    Ok(())
}

// Whether some bytes end with the digest of those before it.
fn ends_with_digest(name: &JournalName, bytes: &[u8]) -> bool
    requires { 32 ≤ length bytes.now }
    ensures { IsTrue result ↔ (drop (length bytes.now - 32) bytes.now ≡ sha256 (name_bytes name.now ++ take (length bytes.now - 32) bytes.now)) }
{
    let (decoded, digest) = bytes.split_at(bytes.len() - DIGEST);
    digest == digest_of(name, decoded).as_slice()
}

// The number and the batch of a record, from the bytes between its two ENDs.
fn decode_frame(
    alloc: Global,
    name: &JournalName,
    frame: &[u8],
) -> Result<Option<Vec<u8>>, AllocError>
    ensures { IfOk result (λ found. MatchOption found
        ((sequence batch : List ℕ) → length sequence ≡ 8 → frame.now ≡ stuffed (body sha256 (name_bytes name.now) sequence batch) → ⊥)
        (λ decoded. IsDecoded sha256 (name_bytes name.now) frame.now decoded.items)) }
{
    let Some(mut decoded) = unstuff(alloc, frame)? else {
        return Ok(None);
    };
    if decoded.len() < SEQUENCE + DIGEST {
        return Ok(None);
    }
    if !ends_with_digest(name, decoded.as_slice()) {
        return Ok(None);
    }
    decoded.truncate(decoded.len() - DIGEST);
    Ok(Some(decoded))
}

/// The batch of the record of a number, from the bytes between its two ENDs: none where they aren't those of such a record. The one
/// error is that memory was refused.
pub fn decode(
    alloc: Global,
    name: &JournalName,
    number: u64,
    frame: &[u8],
) -> Result<Option<Vec<u8>>, AllocError>
    ensures numbered { IfOk result (λ found. MatchOption found
        ((batch : List ℕ) → IsFrameOf sha256 (name_bytes name.now) number batch frame.now → ⊥)
        (λ batch. IsFrameOf sha256 (name_bytes name.now) number batch.items frame.now)) }
{
    let Some(decoded) = decode_frame(alloc, name, frame)? else {
        return Ok(None);
    };
    let (sequence_found, batch) = decoded.as_slice().split_at(SEQUENCE);
    if !is_equal(sequence_found, sequence(number).as_slice()) {
        return Ok(None);
    }
    Ok(Some(batch.to_vec(alloc)?))
}

/// Whether some bytes are those between the two ENDs of a record, whatever its number. The one error is that memory was refused.
pub fn is_record(alloc: Global, name: &JournalName, frame: &[u8]) -> Result<bool, AllocError>
    ensures any { IfOk result (λ is. IsTrue is ↔ IsRecordFrame sha256 (name_bytes name.now) frame.now) }
{
    match decode_frame(alloc, name, frame)? {
        Some(_) => Ok(true),
        None => Ok(false),
    }
}
