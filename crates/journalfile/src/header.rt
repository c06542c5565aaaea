//! Reading the header of a journal.

ghost use Rattle.std.specs.Prelude.{◌≡◌, ◌++◌, drop, IfOk, IfErr, OnOk};
ghost use Rattle.sha2.specs.Sha256.{sha256};
ghost use Rattle.journal.specs.Name.{IsBounded, name_bytes};
ghost use Rattle.journal.specs.Record.{header};
ghost use Rattle.journalfile.specs.Frames.{IsAhead, IsRead};
ghost use Rattle.journalfile.specs.Recovery.{IsNameFault};

use crate::frames::Frames;
use crate::log::Log;
use crate::recovery::RecoverFault;
use journal::{JournalName, MAX_HEADER, after_header};

/// Reads the header of a journal of a map, and returns the name in it.
pub(crate) fn read_header<L: Log>(
    frames: &mut Frames,
    log: &mut L,
    fingerprint: &[u8; 32],
) -> Result<JournalName, RecoverFault<L::Failure>>
    requires start { frames.old.position ≡ 0 }
    requires ahead { L.reliable → IsAhead (L.content log.old) frames.old }
    ensures ahead { L.reliable → OnOk result (IsAhead (L.content log.old) frames.new) }
    ensures header { L.reliable → IfOk result (λ name. L.content log.old
        ≡ header sha256 (name_bytes name) ++ drop frames.new.position (L.content log.old)) }
    ensures of_map { IfOk result (λ name. name.fingerprint ≡ fingerprint.now) }
    ensures bounded { IfOk result (λ name. IsBounded name.compaction) }
    ensures fault { L.reliable → IfErr result (λ fault. IsNameFault fingerprint.now L.content log.old log.new fault) }
    ensures read { L.reliable → IsRead L.content L.may_leave L.moment L.left_since log.old log.new }
{
    let bytes = frames.next_bytes(log, MAX_HEADER)?;
    match after_header(fingerprint, bytes.as_slice()) {
        Ok((name, rest)) => {
            frames.go_to(bytes.len() - rest.len());
            Ok(name)
        }
        Err(fault) => Err(RecoverFault::Header(fault)),
    }
}
