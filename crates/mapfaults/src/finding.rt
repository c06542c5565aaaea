ghost use Rattle.std.specs.Prelude.{◌≡◌, [], ◌∷◌, None, Some, Ok, IfOk, MatchResult};
ghost use Rattle.maplex.specs.Lexed.{lexed, stopped};
ghost use Rattle.mapfaults.specs.Explained.{begun, stepped, IsStop, IsWalked, IsFinding, standing};

use crate::openings::{Opening, go_on};
use crate::quoted::QuotedTexts;
use maplex::{Tail, Token, Tokens};
use maptree::{Context, Drafts};
use mapvalues::Stack;
use mapwords::{
    Block, Expected, Fault, Keyword, ParseFault, ParseKind, TextKeyword, fault_of, is_end, missing,
};
use std::alloc::{AllocError, Global};
use std::mem;

/// The first fault of a mapfile, with what a message on it needs.
#[derive(Drop)]
pub struct Explained<'a> {
    /// Its line, counted from 1.
    pub line: u64,
    /// What is wrong there.
    pub kind: ParseKind,
    /// The token that is refused with it. There is none after the last token.
    pub token: Option<Token<'a>>,
    /// What is open there: nothing before MAP, and nothing after its END.
    pub openings: Stack<Opening<'a>>,
    /// What else a message on it may need.
    pub hints: Hints<'a>,
}

/// What a message on a fault may need of the mapfile before it.
#[derive(Clone, Copy)]
pub struct Hints<'a> {
    /// MAP was read.
    pub begun: bool,
    /// The last NAME of a LAYER.
    pub name: &'a str,
    /// What the open block lacks of what its END requires, if it lacks something, as the SYMBOL of a MAP.
    pub missing: Option<&'static str>,
    /// The quoted texts up to the fault, with its token.
    pub quoted: QuotedTexts,
}

/// What is found of a mapfile.
#[derive(Drop)]
pub enum Finding<'a> {
    /// It has no fault.
    Sound,
    /// It has a fault.
    Faulty(Explained<'a>),
    /// Memory was refused.
    NoMemory,
}

// Reads tokens, and keeps what is open.
#[derive(Drop)]
struct Walker<'a> {
    openings: Stack<Opening<'a>>,
    drafts: Drafts,
    hints: Hints<'a>,
}

impl<'a> Walker<'a> {
    // A walker after MAP, unless memory is refused.
    fn new(token: &Token<'a>, alloc: Global) -> Result<Self, AllocError>
        ensures { IfOk result (λ walker. standing walker.openings walker.drafts ≡ begun token.now) }
    {
        let mut openings = Stack::new(alloc);
        openings.push(Opening::new(Context::Keywords(Block::Map), token))?;
        Ok(Walker {
            openings,
            drafts: Drafts::new(alloc),
            hints: Hints {
                begun: true,
                name: "",
                missing: None,
                quoted: QuotedTexts::NONE,
            },
        })
    }

    // Keeps what a message may need, before a token of a context.
    fn note(&mut self, context: &Context, token: &Token<'a>)
        ensures { standing self.new.openings self.new.drafts ≡ standing self.old.openings self.old.drafts }
    {
        self.hints.quoted = self.hints.quoted.after(token);
        self.hints.missing = None;
        match context {
            Context::Values(Block::Layer, Expected::Text(TextKeyword::Name)) => {
                self.hints.name = token.text;
            }
            Context::Keywords(block) if is_end(token) => {
                self.hints.missing = self.drafts.missing_part(*block);
            }
            Context::Keywords(_) | Context::Values(..) | Context::Latitude(_) => {}
        }
    }

    // Reads the next token in the context that is open. A token that has a fault leaves that open.
    fn read_in(
        &mut self,
        inner: Opening<'a>,
        token: &Token<'a>,
        alloc: Global,
    ) -> Result<(), ParseFault>
        ensures { let old = standing (inner.entry ∷ self.old.openings) self.old.drafts in MatchResult result
            (λ _. stepped old token.now ≡ Ok (standing self.new.openings self.new.drafts))
            (IsStop old token.now self.new.openings) }
    {
        match self.drafts.read_token(alloc, &inner.context, token) {
            Ok(next) => match go_on(&mut self.openings, inner, next, token) {
                Ok(()) => Ok(()),
                Err(_) => Err(ParseFault::NoMemory),
            },
            Err(error) => match self.openings.push(inner) {
                Ok(()) => Err(error),
                Err(_) => Err(ParseFault::NoMemory),
            },
        }
    }

    // Reads the next token.
    fn take(&mut self, token: &Token<'a>, alloc: Global) -> Result<(), ParseFault>
        ensures { MatchResult result
            (λ _. stepped (standing self.old.openings self.old.drafts) token.now ≡ Ok (standing self.new.openings self.new.drafts))
            (IsStop (standing self.old.openings self.old.drafts) token.now self.new.openings) }
    {
        let Some(inner) = self.openings.pop() else {
            return Err(ParseFault::At {
                line: token.line,
                kind: ParseKind::UnknownWord,
            });
        };
        self.note(&inner.context, token);
        self.read_in(inner, token, alloc)
    }

    // What is found at a fault. What is open is taken from the walker.
    fn stop(&mut self, fault: Fault, token: Option<Token<'a>>, alloc: Global) -> Explained<'a>
        ensures { result ≡ record { line = fault.line; kind = fault.kind; token = token.entry; openings = self.old.openings; hints = self.old.hints } }
    {
        Explained {
            line: fault.line,
            kind: fault.kind,
            token,
            openings: mem::replace(&mut self.openings, Stack::new(alloc)),
            hints: self.hints,
        }
    }

    // What is found after the last token.
    fn finish(&mut self, tail: Tail, alloc: Global) -> Finding<'a>
        ensures { IsWalked (standing self.old.openings self.old.drafts) (stopped tail) result }
    {
        match tail {
            Tail::Ends(line) => {
                if self.openings.is_empty() {
                    return Finding::Sound;
                }
                let kind = ParseKind::MissingEnd;
                Finding::Faulty(self.stop(Fault { line, kind }, None, alloc))
            }
            Tail::Breaks(fault) => {
                let line = fault.line;
                let kind = ParseKind::Lex(fault.kind);
                Finding::Faulty(self.stop(Fault { line, kind }, None, alloc))
            }
        }
    }
}

// Reads the tokens after MAP. The walker is lent, since what it owns is dropped once by its owner.
fn walk<'a>(walker: &mut Walker<'a>, tokens: &mut Tokens<'a>, alloc: Global) -> Finding<'a>
    ensures { IsWalked (standing walker.old.openings walker.old.drafts) tokens.old result }
{
    loop {
        match tokens.next() {
            Ok(token) => match walker.take(&token, alloc) {
                Ok(()) => {}
                Err(ParseFault::At { line, kind }) => {
                    let fault = Fault { line, kind };
                    return Finding::Faulty(walker.stop(fault, Some(token), alloc));
                }
                Err(ParseFault::NoMemory) => return Finding::NoMemory,
            },
            Err(tail) => return walker.finish(tail, alloc),
        }
    }
}

// A fault before MAP.
fn outside<'a>(alloc: Global, fault: Fault, token: Option<Token<'a>>) -> Explained<'a>
    ensures line { result.line ≡ fault.line }
    ensures kind { result.kind ≡ fault.kind }
    ensures token { result.token ≡ token.entry }
    ensures openings { result.openings ≡ [] }
{
    Explained {
        line: fault.line,
        kind: fault.kind,
        token,
        openings: Stack::new(alloc),
        hints: Hints {
            begun: false,
            name: "",
            missing: None,
            quoted: QuotedTexts::NONE,
        },
    }
}

/// Reads a mapfile once more for a message on its first fault.
///
/// Unless memory is refused, it finds a fault exactly where `tree_of` is one. It finds its line and
/// its kind, the token that is refused with it, if it has one, and all that is open there.
pub fn explain<'a>(alloc: Global, source: &'a [u8]) -> Finding<'a>
    ensures { IsFinding (lexed source.now) result }
{
    let mut tokens = Tokens::new(source);
    match tokens.next() {
        Ok(token) if Keyword::Map.is_at(&token) => match Walker::new(&token, alloc) {
            Ok(mut walker) => {
                let found = walk(&mut walker, &mut tokens, alloc);
                // Dropped by name, through the one drop of its type.
                drop(walker);
                found
            }
            Err(_) => Finding::NoMemory,
        },
        Ok(token) => {
            let fault = fault_of(ParseKind::UnknownWord, &token);
            Finding::Faulty(outside(alloc, fault, Some(token)))
        }
        Err(tail) => Finding::Faulty(outside(alloc, missing(tail), None)),
    }
}
