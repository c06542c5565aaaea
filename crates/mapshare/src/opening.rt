ghost use Rattle.std.specs.Prelude.{◌≡◌, ◌<◌, ◌≤◌, ◌⊎◌, ◌↔◌, [], drop, All, IfOk, IsErrOf, vec_len};
ghost use Rattle.mapshare.specs.Reader.{free};
ghost use Rattle.mapshare.specs.declared.opening.TheConstants.{MAX_READERS};

use crate::admin::{Admin, UnwrittenHistory};
use crate::reader::Reader;
use crate::replica::Replica;
use crate::rule::{MapWriter, Sharing};
use history::{Blank, Prefix};
use mapmachine::Machine;
use std::alloc::{AllocError, Global};
use std::sync::Wait;
use thiserror::Error;

/// How many readers a map has, at most.
pub const MAX_READERS: usize = 32;

/// Why a map can't be shared.
#[derive(Debug, Drop, Error)]
pub enum ShareFault {
    /// There would be no reader, or too many.
    #[error("a map is shared by 1 to 32 readers")]
    Count,
    /// Memory was refused.
    #[error("out of memory")]
    NoMemory,
}

// A replica of the machine as it is, with no batch.
fn replica_of<S: Sharing>(machine: &Machine, prefix: &Prefix<S>) -> Result<Replica<S>, AllocError>
    ensures { IfOk result (λ replica. (replica.machine ≡ machine.now) × (replica.prefix ≡ prefix.now)) }
{
    Ok(Replica {
        machine: machine.copy()?,
        prefix: prefix.copy(),
    })
}

// The writer of two such replicas.
fn writer_of<S: Sharing>(
    alloc: Global,
    machine: &Machine,
    prefix: &Prefix<S>,
    count: usize,
) -> Result<MapWriter<S>, AllocError>
    requires opening { machine.now ≡ S.opening }
    requires empty { prefix.now ≡ [] }
    requires count { (0 < count) × (count ≤ MAX_READERS) }
    ensures shown { IfOk result (λ writer. writer.desk.shown.value.prefix ≡ []) }
    ensures none_left { IfOk result (λ writer. drop writer.behind writer.log.items ≡ []) }
{
    let first = replica_of(machine, prefix)?;
    let second = replica_of(machine, prefix)?;
    MapWriter::new(alloc, first, second, count)
}

// So many readers, which know nothing.
fn readers_of<S: Sharing>(
    alloc: Global,
    writer: &MapWriter<S>,
    prefix: &Prefix<S>,
    count: usize,
) -> Result<Vec<Reader<S>>, AllocError>
    requires { prefix.now ≡ [] }
    ensures count { IfOk result (λ readers. vec_len readers ≡ count) }
    ensures known { IfOk result (λ readers. All (λ reader. reader ≡ free []) readers.items) }
{
    let mut readers = Vec::new(alloc);
    for _ in 0..count {
        let end = writer.factory().reader()?;
        readers.push(Reader::new(end, prefix.copy()))?;
    }
    Ok(readers)
}

/// Shares a map: it gives the administrator and so many readers. The caller names the sharing, by `S`, and the type of what keeps its
/// batches, by `K`, and hands over a history of its own for it. The machine is copied three times; the copies share its features.
pub fn open<S: Sharing, K, R: AllocGlobal + Wait>(
    rt: &R,
    blank: Blank,
    machine: &Machine,
    count: usize,
) -> Result<(Admin<S, K>, Vec<Reader<S>>), ShareFault>
    requires history { blank.seen.book ≡ S.book }
    requires opening { machine.now ≡ S.opening }
    ensures admin { IfOk result (λ r. r.0 ≡ record { published = []; pending = [] }) }
    ensures readers { IfOk result (λ r. vec_len r.1 ≡ count) }
    ensures known { IfOk result (λ r. All (λ reader. reader ≡ free []) r.1.items) }
    ensures count { IsErrOf result ShareFault.Count ↔ ((count ≡ 0) ⊎ (MAX_READERS < count)) }
{
    let alloc = rt.alloc();
    let (history, prefix) = blank.named::<S>();
    if count == 0 || count > MAX_READERS {
        return Err(ShareFault::Count);
    }
    let Ok(checked) = machine.copy() else {
        return Err(ShareFault::NoMemory);
    };
    let Ok(writer) = writer_of(alloc, machine, &prefix, count) else {
        return Err(ShareFault::NoMemory);
    };
    match readers_of(alloc, &writer, &prefix, count) {
        Ok(readers) => {
            let unwritten = UnwrittenHistory { history, prefix };
            Ok((Admin::new(alloc, writer, checked, unwritten), readers))
        }
        Err(_) => {
            let _edition = writer.take(rt);
            Err(ShareFault::NoMemory)
        }
    }
}
