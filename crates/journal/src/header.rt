//! The header of a journal, which names the format and the journal.

ghost use Rattle.std.specs.Prelude.{◌≡◌, ◌++◌, if◌then◌else◌, ℕ, List, Some, length, OnOk, IfOk, IfErr, MatchOption};
ghost use Rattle.sha2.specs.Sha256.{sha256};
ghost use Rattle.journal.specs.Header.{IsHeaderFault};
ghost use Rattle.journal.specs.Name.{IsBounded, name_bytes, name_of};
ghost use Rattle.journal.specs.Record.{signature, compacted_signature, earlier_signature, sequence_bytes, header};
ghost use Rattle.journal.specs.declared.name.Compaction.{Compaction};

use crate::name::{Compaction, JournalName, digest_of_bytes, digest_of_name, push_name};
use crate::record::SEQUENCE;
use crate::slip::is_equal;
use std::alloc::AllocError;
use thiserror::Error;

/// The first bytes of each journal that was never compacted: the name of the format, and its version.
pub const SIGNATURE: [u8; 18] = *b"KESMOCH JOURNAL 1\n";

// The first bytes of one that was, which programs of earlier versions refuse.
const COMPACTED_SIGNATURE: [u8; 18] = *b"KESMOCH JOURNAL 3\n";

// The first bytes of one that a program of version 2 compacted.
const EARLIER_SIGNATURE: [u8; 18] = *b"KESMOCH JOURNAL 2\n";

// The bytes of the name of a compacted journal: two numbers, and a fingerprint.
const COMPACTED_NAME: usize = 48;

/// The bytes of the longest header.
pub const MAX_HEADER: usize = 98;

/// Why a header isn't that of a map's journal.
#[derive(Clone, Copy, Debug, Error, PartialEq, Eq)]
pub enum HeaderFault {
    /// The file begins with no signature.
    #[error("the file is not a journal")]
    NotAJournal,
    /// The journal was compacted by an earlier program, whose headers have no digest.
    #[error("the journal is of an earlier form (KESMOCH JOURNAL 2), which this program doesn't read")]
    EarlierForm,
    /// The header of a compacted journal is cut short, or its digest isn't that of its name.
    #[error("the header of the journal is damaged")]
    Damaged,
    /// The fingerprint is that of another map, or of other files.
    #[error("the journal is of another map")]
    OtherMap,
}

// The bytes after a prefix, where the bytes begin with it.
fn after_prefix<'a>(prefix: &[u8], bytes: &'a [u8]) -> Option<&'a [u8]>
    ensures { MatchOption result ((rest : List ℕ) → bytes.now ≡ prefix.now ++ rest → ⊥) (λ rest. bytes.now ≡ prefix.now ++ rest.now) }
{
    if bytes.len() < prefix.len() {
        return None;
    }
    let (begin, rest) = bytes.split_at(prefix.len());
    if !is_equal(begin, prefix) {
        return None;
    }
    Some(rest)
}

// The bytes after the signature of a journal that was never compacted.
#[tactic(auto, unfolding(crate::specs::Record::signature))]
fn after_signature(bytes: &[u8]) -> Option<&[u8]>
    ensures { MatchOption result ((rest : List ℕ) → bytes.now ≡ signature ++ rest → ⊥) (λ rest. bytes.now ≡ signature ++ rest.now) }
{
    after_prefix(&SIGNATURE, bytes)
}

// The bytes after the signature of a journal that was compacted.
#[tactic(auto, unfolding(crate::specs::Record::compacted_signature))]
fn after_compacted_signature(bytes: &[u8]) -> Option<&[u8]>
    ensures { MatchOption result ((rest : List ℕ) → bytes.now ≡ compacted_signature ++ rest → ⊥) (λ rest. bytes.now ≡ compacted_signature ++ rest.now) }
{
    after_prefix(&COMPACTED_SIGNATURE, bytes)
}

// The bytes after the signature of a journal that an earlier program compacted.
#[tactic(auto, unfolding(crate::specs::Record::earlier_signature))]
fn after_earlier_signature(bytes: &[u8]) -> Option<&[u8]>
    ensures { MatchOption result ((rest : List ℕ) → bytes.now ≡ earlier_signature ++ rest → ⊥) (λ rest. bytes.now ≡ earlier_signature ++ rest.now) }
{
    after_prefix(&EARLIER_SIGNATURE, bytes)
}

// The number in 8 bytes, the highest first.
fn number_in(bytes: &[u8]) -> u64
    requires { length bytes.now ≡ 8 }
    ensures { sequence_bytes result ≡ bytes.now }
{
    u64::from_be_bytes([
        bytes[0], bytes[1], bytes[2], bytes[3], bytes[4], bytes[5], bytes[6], bytes[7],
    ])
}

// The number in the first 8 bytes, and the bytes after it: none where there are fewer.
fn first_number(bytes: &[u8]) -> Option<(u64, &[u8])>
    ensures { MatchOption result ((number : ℕ) (rest : List ℕ) → bytes.now ≡ sequence_bytes number ++ rest → ⊥)
        (λ r. bytes.now ≡ sequence_bytes r.0 ++ r.1.now) }
{
    if bytes.len() < SEQUENCE {
        return None;
    }
    let (first, rest) = bytes.split_at(SEQUENCE);
    Some((number_in(first), rest))
}

// The compaction in the name of a map's journal, if some bytes are such a name.
fn compaction_in(fingerprint: &[u8; 32], name: &[u8]) -> Option<Compaction>
    ensures { MatchOption result
        ((compaction : Compaction) → name.now ≡ name_of fingerprint.now (Some compaction) → ⊥)
        (λ compaction. IsBounded (Some compaction) × (name.now ≡ name_of fingerprint.now (Some compaction))) }
{
    let Some((skipped, rest)) = first_number(name) else {
        return None;
    };
    let Some((written, found)) = first_number(rest) else {
        return None;
    };
    if !is_equal(found, fingerprint.as_slice()) {
        return None;
    }
    Some(Compaction { skipped, written })
}

// The name at the start of some bytes, where its digest follows, and the bytes after that.
fn sealed_name(bytes: &[u8]) -> Option<(&[u8], &[u8])>
    ensures { MatchOption result ((name rest : List ℕ) → length name ≡ 48 → bytes.now ≡ name ++ (sha256 name ++ rest) → ⊥)
        (λ r. (length r.0.now ≡ 48) × (bytes.now ≡ r.0.now ++ (sha256 r.0.now ++ r.1.now))) }
{
    if bytes.len() < COMPACTED_NAME {
        return None;
    }
    let (name, after) = bytes.split_at(COMPACTED_NAME);
    let digest = digest_of_bytes(name);
    let Some(rest) = after_prefix(digest.as_slice(), after) else {
        return None;
    };
    Some((name, rest))
}

/// The name of the journal of a map that bytes begin with, and the bytes after its header.
pub fn after_header<'a>(
    fingerprint: &[u8; 32],
    bytes: &'a [u8],
) -> Result<(JournalName, &'a [u8]), HeaderFault>
    ensures journal { IfOk result (λ r. bytes.now ≡ header sha256 (name_bytes r.0) ++ r.1.now) }
    ensures of_map { IfOk result (λ r. r.0.fingerprint ≡ fingerprint.now) }
    ensures bounded { IfOk result (λ r. IsBounded r.0.compaction) }
    ensures fault { IfErr result (IsHeaderFault fingerprint.now bytes.now) }
{
    let fingerprint = *fingerprint;
    if let Some(rest) = after_signature(bytes) {
        return match after_prefix(&fingerprint, rest) {
            Some(rest) => Ok((
                JournalName {
                    fingerprint,
                    compaction: None,
                },
                rest,
            )),
            None => Err(HeaderFault::OtherMap),
        };
    }
    if after_earlier_signature(bytes).is_some() {
        return Err(HeaderFault::EarlierForm);
    }
    let Some(rest) = after_compacted_signature(bytes) else {
        return Err(HeaderFault::NotAJournal);
    };
    let Some((name, rest)) = sealed_name(rest) else {
        return Err(HeaderFault::Damaged);
    };
    let Some(compaction) = compaction_in(&fingerprint, name) else {
        return Err(HeaderFault::OtherMap);
    };
    let name = JournalName {
        fingerprint,
        compaction: Some(compaction),
    };
    Ok((name, rest))
}

// Adds the signature of a journal.
#[tactic(auto, unfolding(crate::specs::Record::signature, crate::specs::Record::compacted_signature))]
fn push_signature(out: &mut Vec<u8>, is_compacted: bool) -> Result<(), AllocError>
    ensures { OnOk result (out.new.items ≡ out.old.items ++ (if is_compacted then compacted_signature else signature)) }
{
    if is_compacted {
        out.extend_from_slice(&COMPACTED_SIGNATURE)
    } else {
        out.extend_from_slice(&SIGNATURE)
    }
}

/// Adds the header of a journal. The one error is that memory was refused.
pub fn push_header(out: &mut Vec<u8>, name: &JournalName) -> Result<(), AllocError>
    ensures { OnOk result (out.new.items ≡ out.old.items ++ header sha256 (name_bytes name.now)) }
{
    let is_compacted = name.compaction.is_some();
    push_signature(out, is_compacted)?;
    push_name(out, name)?;
    if is_compacted {
        out.extend_from_slice(&digest_of_name(name))?;
    }
    Ok(())
}
