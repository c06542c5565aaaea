ghost use Rattle.std.specs.Prelude.{◌≡◌, Ok, IfOk, IfErr};
ghost use Rattle.mapwords.specs.Fault.{IsFaultOf};
ghost use Rattle.mapparse.specs.Parsed.{parsed, wanted};

use crate::fault::FileFault;
use crate::files::Files;
use crate::mapping::map_of;
use crate::uses::{files_fault, uses_of};
use mapdefs::{Items, Map, Text};
use maptree::{MapTree, ParseFault, read};
use std::alloc::{AllocError, Global};
use std::marker::Model;

/// A mapfile that was read, seen as its tree. It has no fault but those of the files that it uses.
#[derive(Drop)]
pub struct Mapfile {
    tree: MapTree,
}

impl Model for Mapfile {
    ghost use Rattle.mapdefs.specs.contracts.expr.Expr as expr;
    ghost use Rattle.maptree.specs.declared.tree.MapTree.{MapTree as Tree};
    ghost use Rattle.std.specs.Coded.{codes};

    ghost Value = { Tree };

    ghost coded = { Prim.hlevel (codes, expr.the_row.coded) };

    ghost view = { λ m. m.tree };
}

impl Mapfile {
    ghost use Rattle.maplex.specs.Lexed.{lexed};
    ghost use Rattle.maptree.specs.Source.{tree_of};
    ghost use Rattle.mapparse.specs.Mapping.{map_of};
    ghost use Rattle.mapparse.specs.Fault.{fault_in};
    ghost use Rattle.mapparse.specs.Uses.{IsOfUse, files_fault, uses_of};
    ghost use Rattle.std.specs.Prelude.{IfSome, option_map};

    /// Reads a mapfile in one pass, or reports its first fault with its line.
    ///
    /// The memory that it takes is in proportion to the source, and a source that is refused leaves none
    /// behind.
    pub fn read(alloc: Global, source: &[u8]) -> Result<Self, ParseFault>
        ensures tree { IfOk result (λ mapfile. tree_of (lexed source.now) ≡ Ok mapfile) }
        ensures fault { IfErr result (IsFaultOf (tree_of (lexed source.now))) }
    {
        let tree = read(alloc, source)?;
        Ok(Mapfile { tree })
    }

    /// The names of the files that it uses, each once, in the order of their first use. A name that a
    /// later one of its keyword replaces doesn't count.
    pub fn wanted(&self, alloc: Global) -> Result<Items<Text>, AllocError>
        ensures { IfOk result (λ names. names ≡ uses_of self.now) }
    {
        uses_of(&self.tree, alloc)
    }

    /// The fault of the first used of the files that have one, with its cause. It is `None` where no file
    /// has one.
    pub fn files_fault(&self, alloc: Global, files: &Files) -> Result<Option<FileFault>, AllocError>
        ensures fault { IfOk result (λ found. option_map fault_in found ≡ files_fault files.now self.now) }
        ensures said { IfOk result (λ found. IfSome found (IsOfUse files.now self.now)) }
    {
        files_fault(&self.tree, files, alloc)
    }

    /// The map that it describes with these files, or the first fault of a file. That is `MissingFile` for
    /// one that is missing, and `BadFile` for one that isn't what it is used as.
    pub fn into_map(self, alloc: Global, files: &Files) -> Result<Map, ParseFault>
        ensures map { IfOk result (λ map. map_of files.now self ≡ Ok map) }
        ensures fault { IfErr result (IsFaultOf (map_of files.now self)) }
    {
        let Mapfile { tree } = self;
        map_of(tree, files, alloc)
    }
}

/// The names of the files that a mapfile uses, as `Mapfile::wanted` has them, or its first fault with its
/// line.
///
/// `parse` has this fault too, whatever the files are.
pub fn wanted(alloc: Global, source: &[u8]) -> Result<Items<Text>, ParseFault>
    ensures names { IfOk result (λ names. wanted source.now ≡ Ok names) }
    ensures fault { IfErr result (IsFaultOf (wanted source.now)) }
{
    let mapfile = Mapfile::read(alloc, source)?;
    let names = mapfile.wanted(alloc);
    // Dropped by name, through the one drop of its type.
    drop(mapfile);
    Ok(names?)
}

/// Reads a mapfile: the map that it describes with these files, or its first fault with its line.
///
/// `parsed` is either a map or a fault. Unless memory is refused, which is `NoMemory`, the call gives the
/// map or the fault that `parsed` is, by the two clauses. The faults of files come after all others.
pub fn parse(alloc: Global, source: &[u8], files: &Files) -> Result<Map, ParseFault>
    ensures map { IfOk result (λ map. parsed files.now source.now ≡ Ok map) }
    ensures fault { IfErr result (IsFaultOf (parsed files.now source.now)) }
{
    let mapfile = Mapfile::read(alloc, source)?;
    mapfile.into_map(alloc, files)
}
