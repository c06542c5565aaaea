ghost use Rattle.std.specs.Prelude.{◌≡◌, Ok, Err, IfOk, IfErr, MatchResult};
ghost use Rattle.maplex.specs.Lexed.{lexed};
ghost use Rattle.mapwords.specs.Fault.{IsFaultOf};
ghost use Rattle.maptree.specs.Answer.{answer};
ghost use Rattle.maptree.specs.Pass.{map_body, pass_of};
ghost use Rattle.maptree.specs.Source.{tree_of};

use crate::reader::Reader;
use crate::tree::MapTree;
use maplex::Tokens;
use mapwords::{Fault, Keyword, ParseFault, ParseKind, fault_of, missing};
use std::alloc::Global;

// Reads the keyword MAP.
fn begin(tokens: &mut Tokens) -> Result<(), Fault>
    ensures { MatchResult result
        (λ _. pass_of tokens.old ≡ map_body tokens.new.tail tokens.new.tokens)
        (λ fault. pass_of tokens.old ≡ Err fault) }
{
    match tokens.next() {
        Ok(token) if Keyword::Map.is_at(&token) => Ok(()),
        Ok(token) => Err(fault_of(ParseKind::UnknownWord, &token)),
        Err(tail) => Err(missing(tail)),
    }
}

// Reads the tokens that are left. The reader is lent, since what it owns is dropped once by its owner.
fn read_tokens(
    reader: &mut Reader,
    tokens: &mut Tokens,
    alloc: Global,
) -> Result<MapTree, ParseFault>
    ensures { MatchResult result
        (λ tree. answer reader.old tokens.old.tokens tokens.old.tail ≡ Ok tree)
        (IsFaultOf (answer reader.old tokens.old.tokens tokens.old.tail)) }
{
    loop {
        match tokens.next() {
            Ok(token) => reader.take(&token, alloc)?,
            Err(tail) => return Ok(reader.finish(tail, alloc)?),
        }
    }
}

// Reads the tokens of the source in one pass.
fn pass(source: &[u8], alloc: Global) -> Result<MapTree, ParseFault>
    ensures { MatchResult result
        (λ tree. pass_of (lexed source.now) ≡ Ok tree)
        (IsFaultOf (pass_of (lexed source.now))) }
{
    let mut tokens = Tokens::new(source);
    begin(&mut tokens)?;
    let mut reader = Reader::new(alloc)?;
    let found = read_tokens(&mut reader, &mut tokens, alloc);
    // Dropped by name, through the one drop of its type.
    drop(reader);
    found
}

/// Reads a mapfile in one pass: what its blocks say, or its first fault with its line.
///
/// `tree_of` is either a tree or a fault. Unless memory is refused, which is `NoMemory`, the call gives
/// the tree or the fault that `tree_of` is, by the two clauses. A source that is refused leaves no memory
/// behind.
pub fn read(alloc: Global, source: &[u8]) -> Result<MapTree, ParseFault>
    ensures tree { IfOk result (λ tree. tree_of (lexed source.now) ≡ Ok tree) }
    ensures fault { IfErr result (IsFaultOf (tree_of (lexed source.now))) }
{
    pass(source, alloc)
}
