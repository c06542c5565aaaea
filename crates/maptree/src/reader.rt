ghost use Rattle.std.specs.Prelude.{◌≡◌, List, [], ◌∷◌, IfOk, OnOk, IfErr};
ghost use Rattle.maplex.specs.Token.{TokenValue};
ghost use Rattle.maplex.specs.declared.fault.Tail.{Tail};
ghost use Rattle.maptree.specs.Pass.{map_body};

use crate::context::{Context, go_on};
use crate::draft::Drafts;
use crate::tree::MapTree;
use maplex::{Tail, Token};
use mapvalues::Stack;
use mapwords::{Block, Fault, ParseFault, ParseKind, fault_of, missing};
use std::alloc::{AllocError, Global};

/// Reads what comes after the keyword MAP, token by token.
#[derive(Drop)]
pub struct Reader {
    /// What the next token is read as, and the contexts round that. There is none after the END of MAP.
    pub contexts: Stack<Context>,
    /// What was read of the open blocks.
    pub drafts: Drafts,
}

impl Reader {
    ghost use Rattle.maptree.specs.Answer.{answer, IsStepErrorOf};

    /// A reader after the keyword MAP.
    pub fn new(alloc: Global) -> Result<Self, AllocError>
        ensures { IfOk result (λ reader.
            (ts : List TokenValue) (tail : Tail) → answer reader ts tail ≡ map_body tail ts) }
    {
        let mut contexts = Stack::new(alloc);
        contexts.push(Context::Keywords(Block::Map))?;
        Ok(Reader {
            contexts,
            drafts: Drafts::new(alloc),
        })
    }

    /// Reads the next token.
    pub fn take(&mut self, token: &Token, alloc: Global) -> Result<(), ParseFault>
        ensures ok { OnOk result ((ts : List TokenValue) (tail : Tail) →
            answer self.old (token.now ∷ ts) tail ≡ answer self.new ts tail) }
        ensures err { IfErr result (IsStepErrorOf self.old token.now) }
    {
        let Some(context) = self.contexts.pop() else {
            return Err(fault_of(ParseKind::UnknownWord, token).into());
        };
        let next = self.drafts.read_token(alloc, &context, token)?;
        go_on(&mut self.contexts, context, next)?;
        Ok(())
    }

    /// The map, by what comes after the last token. It is taken from the reader.
    pub fn finish(&mut self, tail: Tail, alloc: Global) -> Result<MapTree, Fault>
        ensures { result ≡ answer self.old [] tail }
    {
        match tail {
            Tail::Ends(_) => match self.contexts.pop() {
                None => Ok(self.drafts.take_map(alloc)),
                Some(_) => Err(missing(tail)),
            },
            Tail::Breaks(_) => Err(missing(tail)),
        }
    }
}
