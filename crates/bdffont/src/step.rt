ghost use Rattle.std.specs.Prelude.{◌≡◌, IfOk, IfErr};
ghost use Rattle.bdffont.specs.Keyword.{keyword_in};
ghost use Rattle.bdffont.specs.Sections.{opened, closed, draft_of, before, in_header, between, encoded, advanced, bounded, rows_of, in_glyph, with_glyph, in_rows, section_after, has_properties, says, start, IsStop};

use crate::bits::{is_row, push_row};
use crate::fault::FontKind;
use crate::fields::{Encoding, advance_at, box_at, count_at, encoding_at};
use crate::keyword::Keyword;
use crate::section::{Draft, FontHeader, GlyphHeader, GlyphRows, ReaderState, Section};
use mapdefs::{FontFields, Glyph, Items, MAX_GLYPHS};
use std::alloc::{AllocError, Global};

/// Why reading stops at a line.
#[derive(Clone, Copy)]
pub enum LineError {
    Fault(FontKind),
    NoMemory,
}

impl From<FontKind> for LineError {
    ghost use Rattle.bdffont.specs.declared.step.LineError.TheVariants.{Fault};

    ghost from_gives = { λ kind stop. stop ≡ Fault kind };

    fn from(kind: FontKind) -> LineError {
        LineError::Fault(kind)
    }
}

impl From<AllocError> for LineError {
    ghost use Rattle.bdffont.specs.declared.step.LineError.TheVariants.{NoMemory};

    ghost from_gives = { λ _ stop. stop ≡ NoMemory };

    fn from(_error: AllocError) -> LineError {
        LineError::NoMemory
    }
}

// The section after STARTCHAR.
fn opened(draft: Draft) -> Result<Section, FontKind>
    ensures { result ≡ opened draft }
{
    if draft.started < MAX_GLYPHS {
        let header = GlyphHeader {
            encoding: None,
            advance: None,
            bounds: None,
        };
        let draft = Draft {
            started: draft.started + 1,
            ..draft
        };
        Ok(Section::InGlyph(draft, header))
    } else {
        Err(FontKind::Limit)
    }
}

// The section after ENDFONT.
fn closed(draft: Draft) -> Result<Section, FontKind>
    ensures { result ≡ closed draft }
{
    if draft.started as u64 == draft.count {
        Ok(Section::Ended(FontFields {
            side: draft.side,
            bounds: draft.bounds,
            glyphs: draft.glyphs,
        }))
    } else {
        Err(FontKind::Count)
    }
}

// The font of a header that has all its fields, with no glyphs.
fn draft_of(header: FontHeader, alloc: Global) -> Result<Draft, FontKind>
    ensures { result ≡ draft_of header }
{
    match (header.bounds, header.count) {
        (Some(bounds), Some(count)) => Ok(Draft {
            most: header.most,
            side: bounds.side(),
            bounds: bounds.get(),
            count,
            started: 0,
            glyphs: Items::new(alloc),
        }),
        _ => Err(FontKind::Field),
    }
}

// The section after the first line.
fn before(most: u8, keyword: Option<Keyword>) -> Result<Section, FontKind>
    ensures { result ≡ before most keyword }
{
    match keyword {
        Some(Keyword::StartFont) => Ok(Section::InHeader(FontHeader {
            most,
            bounds: None,
            count: None,
        })),
        _ => Err(FontKind::Start),
    }
}

// The section after a line of the font's header.
fn in_header(header: FontHeader, line: &[u8], alloc: Global) -> Result<Section, FontKind>
    ensures { result ≡ in_header header (keyword_in line.now) line.now }
{
    match Keyword::at(line) {
        None => Ok(Section::InHeader(header)),
        Some(Keyword::FontBoundingBox) => {
            let bounds = Some(box_at(header.most, line)?);
            Ok(Section::InHeader(FontHeader { bounds, ..header }))
        }
        Some(Keyword::Chars) => {
            let count = Some(count_at(line)?);
            Ok(Section::InHeader(FontHeader { count, ..header }))
        }
        Some(Keyword::StartChar) => opened(draft_of(header, alloc)?),
        Some(Keyword::EndFont) => closed(draft_of(header, alloc)?),
        Some(_) => Err(FontKind::Field),
    }
}

// The section after a line between two glyphs.
fn between(draft: Draft, keyword: Option<Keyword>) -> Result<Section, FontKind>
    ensures { result ≡ between draft keyword }
{
    match keyword {
        None => Ok(Section::Between(draft)),
        Some(Keyword::StartChar) => opened(draft),
        Some(Keyword::EndFont) => closed(draft),
        Some(_) => Err(FontKind::Field),
    }
}

// The rows of a glyph whose header has all its fields, before the first of them.
fn rows_of(header: GlyphHeader, alloc: Global) -> Result<GlyphRows, FontKind>
    ensures { result ≡ rows_of header }
{
    match (header.encoding, header.advance, header.bounds) {
        (Some(encoding), Some(advance), Some(bounds)) => Ok(GlyphRows {
            encoding,
            advance,
            bounds,
            pixels: Items::new(alloc),
            left: bounds.get().height,
        }),
        _ => Err(FontKind::Field),
    }
}

// The header of a glyph with its encoding.
fn encoded(header: GlyphHeader, line: &[u8]) -> Result<GlyphHeader, FontKind>
    ensures { result ≡ encoded header line.now }
{
    let encoding = Some(encoding_at(line)?);
    Ok(GlyphHeader { encoding, ..header })
}

// The header of a glyph with its advance.
fn advanced(header: GlyphHeader, line: &[u8]) -> Result<GlyphHeader, FontKind>
    ensures { result ≡ advanced header line.now }
{
    let advance = Some(advance_at(line)?);
    Ok(GlyphHeader { advance, ..header })
}

// The header of a glyph with its box.
fn bounded(most: u8, header: GlyphHeader, line: &[u8]) -> Result<GlyphHeader, FontKind>
    ensures { result ≡ bounded most header line.now }
{
    let bounds = Some(box_at(most, line)?);
    Ok(GlyphHeader { bounds, ..header })
}

// The section after a line of a glyph's header.
fn in_glyph(
    draft: Draft,
    header: GlyphHeader,
    line: &[u8],
    alloc: Global,
) -> Result<Section, FontKind>
    ensures { result ≡ in_glyph draft header (keyword_in line.now) line.now }
{
    match Keyword::at(line) {
        None => Ok(Section::InGlyph(draft, header)),
        Some(Keyword::Encoding) => Ok(Section::InGlyph(draft, encoded(header, line)?)),
        Some(Keyword::Dwidth) => Ok(Section::InGlyph(draft, advanced(header, line)?)),
        Some(Keyword::Bbx) => {
            let next = bounded(draft.most, header, line)?;
            Ok(Section::InGlyph(draft, next))
        }
        Some(Keyword::Bitmap) => Ok(Section::InRows(draft, rows_of(header, alloc)?)),
        Some(_) => Err(FontKind::Field),
    }
}

// The font with a glyph whose rows are read. One that is no character is dropped.
fn with_glyph(draft: Draft, rows: GlyphRows) -> Result<Draft, AllocError>
    ensures { IfOk result (λ next. next ≡ with_glyph draft rows) }
{
    match rows.encoding {
        Encoding::NoCharacter => Ok(draft),
        Encoding::Character(encoding) => {
            let mut draft = draft;
            draft.side = draft.side.max(rows.bounds.side());
            draft.glyphs.push(Glyph {
                encoding,
                advance: rows.advance,
                bounds: rows.bounds.get(),
                rows: rows.pixels,
            })?;
            Ok(draft)
        }
    }
}

// The section after a row, or after the ENDCHAR that follows the last one.
fn in_rows(draft: Draft, rows: GlyphRows, line: &[u8]) -> Result<Section, LineError>
    ensures section { IfOk result (λ p. in_rows draft rows line.now ≡ Ok p) }
    ensures stop { IfErr result (λ stop. IsStop stop (in_rows draft rows line.now)) }
{
    if rows.left > 0 {
        let width = rows.bounds.get().width;
        if !is_row(line, width) {
            return Err(LineError::Fault(FontKind::Row));
        }
        let mut rows = rows;
        push_row(&mut rows.pixels, line, width)?;
        rows.left -= 1;
        Ok(Section::InRows(draft, rows))
    } else {
        match Keyword::at(line) {
            Some(Keyword::EndChar) => Ok(Section::Between(with_glyph(draft, rows)?)),
            _ => Err(LineError::Fault(FontKind::Row)),
        }
    }
}

// The section after a line that is not one of the properties.
fn section_after(section: Section, line: &[u8], alloc: Global) -> Result<Section, LineError>
    ensures section { IfOk result (λ p. section_after section line.now ≡ Ok p) }
    ensures stop { IfErr result (λ stop. IsStop stop (section_after section line.now)) }
{
    match section {
        Section::Before(most) => Ok(before(most, Keyword::at(line))?),
        Section::InHeader(header) => Ok(in_header(header, line, alloc)?),
        Section::Between(draft) => Ok(between(draft, Keyword::at(line))?),
        Section::InGlyph(draft, header) => Ok(in_glyph(draft, header, line, alloc)?),
        Section::InRows(draft, rows) => in_rows(draft, rows, line),
        Section::Ended(font) => Ok(Section::Ended(font)),
    }
}

// Whether properties may stand in the section.
fn has_properties(section: &Section) -> bool
    ensures { result ≡ has_properties section.now }
{
    matches!(
        section,
        Section::InHeader(_) | Section::Between(_) | Section::InGlyph(_, _)
    )
}

impl ReaderState {
    /// Before the first line, with boxes of sides and offsets of at most so many pixels.
    pub fn start(most: u8) -> ReaderState
        ensures { result ≡ start most }
    {
        ReaderState {
            section: Section::Before(most),
            in_properties: false,
        }
    }

    /// The state after a line.
    pub fn read_line(self, line: &[u8], alloc: Global) -> Result<ReaderState, LineError>
        ensures state { IfOk result (λ s. says self line.now ≡ Ok s) }
        ensures stop { IfErr result (λ stop. IsStop stop (says self line.now)) }
    {
        if self.in_properties {
            let closes = matches!(Keyword::at(line), Some(Keyword::EndProperties));
            return Ok(ReaderState {
                in_properties: !closes,
                ..self
            });
        }
        let opens = matches!(Keyword::at(line), Some(Keyword::StartProperties));
        if opens && has_properties(&self.section) {
            return Ok(ReaderState {
                in_properties: true,
                ..self
            });
        }
        Ok(ReaderState {
            section: section_after(self.section, line, alloc)?,
            in_properties: false,
        })
    }
}
