//! The fingerprint of a map.

ghost use Rattle.std.specs.Prelude.{◌≡◌, ◌++◌, ℕ, List};
ghost use Rattle.sha2.specs.Hashers.{Holds256};
ghost use Rattle.journal.specs.Fingerprint.{file_message, fingerprint_of, sized};

use crate::record::sequence;
use sha2::{Digest, Sha256};

/// A file that a mapfile uses.
#[derive(Clone, Copy)]
pub struct UsedFile<'a> {
    /// The name of the file in the mapfile.
    pub name: &'a [u8],
    /// Its bytes, or none where the file is missing.
    pub content: Option<&'a [u8]>,
}

// Adds some bytes after their length.
fn add_sized(hasher: &mut Sha256, bytes: &[u8])
    ensures { (m : List ℕ) → Holds256 hasher.old m → Holds256 hasher.new (m ++ sized bytes.now) }
{
    let length = sequence(bytes.len() as u64);
    hasher.update(length.as_slice());
    hasher.update(bytes);
}

// Adds a file.
fn add_file(hasher: &mut Sha256, file: &UsedFile)
    ensures { (m : List ℕ) → Holds256 hasher.old m → Holds256 hasher.new (m ++ file_message file.now) }
{
    add_sized(hasher, file.name);
    match file.content {
        Some(bytes) => {
            hasher.update([1].as_slice());
            add_sized(hasher, bytes);
        }
        None => hasher.update([0].as_slice()),
    }
}

/// The fingerprint of a map: the digest of its mapfile and of the files that it uses, in the order of their first use. Another
/// mapfile, another file or a missing file makes another text to digest.
pub fn fingerprint_of(mapfile: &[u8], files: &[UsedFile]) -> [u8; 32]
    ensures { result ≡ fingerprint_of mapfile.now files.now }
{
    let mut hasher = Sha256::new();
    add_sized(&mut hasher, mapfile);
    for file in files {
        add_file(&mut hasher, file);
    }
    hasher.finalize()
}
