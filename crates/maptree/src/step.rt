ghost use Rattle.std.specs.Prelude.{◌≡◌, ◌<◌, Ok, Err, IfOk, OnOk, MatchResult, option_and_then};
ghost use Rattle.mapdefs.specs.declared.limits.TheConstants.{MAX_VERTICES};
ghost use Rattle.mapwords.specs.Fault.{IsErrorOf};
ghost use Rattle.mapwords.specs.declared.role.Block.{Block as BlockValue};
ghost use Rattle.maptree.specs.declared.draft.Drafts.{Drafts as DraftsValue};
ghost use Rattle.mapwords.specs.Given.{given_step, is_beyond};
ghost use Rattle.mapwords.specs.Keyword.{keyword_at};
ghost use Rattle.mapwords.specs.Value.{font_name_at};
ghost use Rattle.maptree.specs.Data.{lacks_room};
ghost use Rattle.maptree.specs.Parts.{vertex_count};
ghost use Rattle.mapwords.specs.Table.{role_in, role_of};
ghost use Rattle.maptree.specs.Smoothing.{is_smooth};
ghost use Rattle.maptree.specs.Step.{read_end, read_keyword, note_step, coordinate_at, read_longitude, read_latitude, skip, read_pair, read_token};

use crate::context::{Context, Move};
use crate::draft::Drafts;
use crate::files::lacks_room;
use crate::smoothing::is_smooth;
use geom::{Coordinate, World};
use maplex::Token;
use mapwords::{
    Block, Expected, Fault, Keyword, ParseFault, ParseKind, Role, ValueStep, coordinate_in,
    fault_of, font_name_at, is_early_end, is_end, is_value, pair_expects, role_in, role_of,
    value_step,
};
use std::alloc::{AllocError, Global};

// Skips a token, unless it ends the block or opens another one.
fn skip(block: Block, token: &Token) -> Move
    ensures { (d : DraftsValue) → skip block (option_and_then (role_of block) (keyword_at token.now)) d ≡ Ok (result, d) }
{
    let role = match Keyword::at(token) {
        Some(keyword) => role_of(block, keyword),
        None => None,
    };
    match role {
        Some(Role::Closes) => Move::Leaves,
        Some(Role::Opens(inner)) => Move::Enters(Context::Keywords(inner)),
        Some(Role::Takes(_)) | None => Move::GoesOn(Context::Keywords(block)),
    }
}

// Reads the END of METADATA or VALIDATION, or a key.
fn read_pair(block: Block, token: &Token) -> Result<Move, Fault>
    ensures { (d : DraftsValue) → MatchResult result
        (λ next. read_pair block d token.now ≡ Ok (next, d))
        (λ fault. read_pair block d token.now ≡ Err fault) }
{
    if is_end(token) {
        return Ok(Move::Leaves);
    }
    if !is_value(token) {
        return Err(fault_of(ParseKind::WrongValue, token));
    }
    let expected = pair_expects(block, token.text);
    Ok(Move::Enters(Context::Values(block, expected)))
}

// Reads a token of a value, which isn't an END, nor the key of one font too many. What is read is still to be noted.
fn read_step(
    expected: &Expected,
    is_too_many: bool,
    token: &Token,
    alloc: Global,
) -> Result<ValueStep, ParseFault>
    ensures { let given = given_step is_too_many expected.now token.now in
        (b : BlockValue) (d : DraftsValue) → MatchResult result
        (λ step. note_step b given d ≡ note_step b (Ok step) d)
        (IsErrorOf (note_step b given d)) }
{
    if is_early_end(expected, token) {
        return Err(fault_of(ParseKind::MissingValue, token).into());
    }
    if is_too_many {
        return Err(fault_of(ParseKind::Limit, token).into());
    }
    value_step(expected, token, alloc)
}

impl Drafts {
    // Reads the END of a block.
    fn read_end(&mut self, block: Block, token: &Token, alloc: Global) -> Result<Move, ParseFault>
        ensures { MatchResult result
            (λ next. read_end block self.old token.now ≡ Ok (next, self.new))
            (IsErrorOf (read_end block self.old token.now)) }
    {
        if self.is_full(block) {
            return Err(fault_of(ParseKind::Limit, token).into());
        }
        self.close(block, token, alloc)?;
        Ok(Move::Leaves)
    }

    // What a keyword does in a block. What the MAP said before a SYMBOL may let that be a disc.
    fn role_of(&self, block: Block, keyword: Keyword) -> Option<Role>
        ensures { result ≡ role_in block (is_smooth self.now.map.values) keyword }
    {
        match block {
            Block::Symbol => role_in(block, is_smooth(&self.map.values), keyword),
            _ => role_in(block, false, keyword),
        }
    }

    // Reads a keyword of a block.
    fn read_keyword(
        &mut self,
        block: Block,
        token: &Token,
        alloc: Global,
    ) -> Result<Move, ParseFault>
        ensures { MatchResult result
            (λ next. read_keyword block self.old token.now ≡ Ok (next, self.new))
            (IsErrorOf (read_keyword block self.old token.now)) }
    {
        let role = match Keyword::at(token) {
            Some(keyword) => self.role_of(block, keyword),
            None => None,
        };
        match role {
            None => Err(fault_of(ParseKind::UnknownWord, token).into()),
            Some(Role::Closes) => self.read_end(block, token, alloc),
            Some(Role::Opens(inner)) if self.is_full(inner) => {
                Err(fault_of(ParseKind::Limit, token).into())
            }
            Some(Role::Opens(inner)) => Ok(Move::Enters(Context::Keywords(inner))),
            Some(Role::Takes(expected)) => Ok(Move::Enters(Context::Values(block, expected))),
        }
    }

    // Whether the token of a value is the key of a font that the map has no room for.
    fn is_too_many(&self, block: Block, expected: &Expected, token: &Token) -> bool
        ensures { result ≡ is_beyond (lacks_room block self.now.map.files) (font_name_at expected.now token.now) }
    {
        match font_name_at(expected, token) {
            Some(name) => lacks_room(block, self.map.files.as_slice(), name),
            None => false,
        }
    }

    // Notes a step of a value of a block.
    fn note_step(
        &mut self,
        block: Block,
        step: ValueStep,
        alloc: Global,
    ) -> Result<Move, AllocError>
        ensures { IfOk result (λ next. note_step block (Ok step) self.old ≡ Ok (next, self.new)) }
    {
        match step {
            ValueStep::More(next) => Ok(Move::GoesOn(Context::Values(block, next))),
            ValueStep::Whole(value) => {
                self.set(block, value, alloc)?;
                Ok(Move::Leaves)
            }
        }
    }

    // The coordinate that the token is, of a vertex that the feature has room for.
    fn coordinate_at(&self, token: &Token) -> Result<Coordinate, Fault>
        ensures value { result ≡ coordinate_at self.now token.now }
        ensures room { OnOk result (vertex_count self.now.feature.parts < MAX_VERTICES) }
    {
        if self.feature.parts.is_full() {
            return Err(fault_of(ParseKind::Limit, token));
        }
        match coordinate_in(token) {
            Some(number) => Ok(number),
            None => Err(fault_of(ParseKind::WrongValue, token)),
        }
    }

    // Reads the longitude of a vertex, or the END of POINTS.
    fn read_longitude(&mut self, token: &Token, alloc: Global) -> Result<Move, ParseFault>
        ensures { MatchResult result
            (λ next. read_longitude self.old token.now ≡ Ok (next, self.new))
            (IsErrorOf (read_longitude self.old token.now)) }
    {
        if is_end(token) {
            return self.read_end(Block::Points, token, alloc);
        }
        let longitude = self.coordinate_at(token)?;
        Ok(Move::GoesOn(Context::Latitude(longitude)))
    }

    // Reads the latitude of a vertex.
    fn read_latitude(&mut self, longitude: Coordinate, token: &Token) -> Result<Move, ParseFault>
        ensures { MatchResult result
            (λ next. read_latitude longitude self.old token.now ≡ Ok (next, self.new))
            (IsErrorOf (read_latitude longitude self.old token.now)) }
    {
        if is_end(token) {
            return Err(fault_of(ParseKind::MissingValue, token).into());
        }
        let latitude = self.coordinate_at(token)?;
        let vertex = World::new(longitude, latitude);
        self.feature.parts.push(vertex)?;
        Ok(Move::GoesOn(Context::Keywords(Block::Points)))
    }

    /// Reads a token in its context, and notes what was read. The result is how reading goes on. After an error
    /// the drafts are of no further use.
    pub fn read_token(
        &mut self,
        alloc: Global,
        context: &Context,
        token: &Token,
    ) -> Result<Move, ParseFault>
        ensures { MatchResult result
            (λ next. read_token context.now self.old token.now ≡ Ok (next, self.new))
            (IsErrorOf (read_token context.now self.old token.now)) }
    {
        match context {
            Context::Keywords(block) => match *block {
                Block::Points => self.read_longitude(token, alloc),
                Block::Validation => Ok(read_pair(Block::Validation, token)?),
                Block::WebMetadata => Ok(read_pair(Block::WebMetadata, token)?),
                Block::LayerMetadata => Ok(read_pair(Block::LayerMetadata, token)?),
                Block::Projection | Block::Skipped | Block::SkippedLabel => Ok(skip(*block, token)),
                Block::Map
                | Block::Web
                | Block::Symbol
                | Block::Layer
                | Block::Class
                | Block::Style
                | Block::Label
                | Block::Feature => self.read_keyword(*block, token, alloc),
            },
            Context::Values(block, expected) => {
                let is_too_many = self.is_too_many(*block, expected, token);
                let step = read_step(expected, is_too_many, token, alloc)?;
                Ok(self.note_step(*block, step, alloc)?)
            }
            Context::Latitude(longitude) => self.read_latitude(*longitude, token),
        }
    }
}
