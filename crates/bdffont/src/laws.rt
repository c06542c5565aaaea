//! Laws of the definitions. A law is a function without arguments whose contract states it.

ghost use Rattle.bdffont.specs.Bits.{WrittenRowIsRead};
ghost use Rattle.bdffont.specs.File.{FileHasOneFont, SideIsOfBoxes};
ghost use Rattle.bdffont.specs.Ink.{InkIsOfACharacter};
ghost use Rattle.bdffont.specs.Writing.{OtherLinesAreSkipped, WrittenFontIsRead};

/// A row of pixels that is written out in hexadecimal digits, four pixels in each and the leftmost as
/// its highest bit, is a row of its width and is read back.
pub fn written_row_is_read()
    ensures { WrittenRowIsRead }
{}

/// A font that is written out is read as that font, where its boxes are within the side that is let through: its box, the
/// number of its glyphs, and of each glyph STARTCHAR, ENCODING, DWIDTH, BBX, BITMAP, its rows and ENDCHAR.
pub fn written_font_is_read()
    ensures { WrittenFontIsRead }
{}

/// A line whose first word is no keyword, after STARTFONT and outside of a glyph's rows, changes nothing.
pub fn other_lines_are_skipped()
    ensures { OtherLinesAreSkipped }
{}

/// A file has one font. Two fonts that are ordered by their encodings, and have for each encoding the first
/// glyph of the file with it, are the same.
pub fn file_has_one_font()
    ensures { FileHasOneFont }
{}

/// The side of a font that is read is the greatest side or offset that its box has, or a glyph of the file that is a
/// character, also one whose encoding another one has before it.
pub fn side_is_of_boxes()
    ensures { SideIsOfBoxes }
{}

/// A text has ink where the glyph of one of its characters has, the pen having advanced by those
/// before it, and nowhere else.
pub fn ink_is_of_a_character()
    ensures { InkIsOfACharacter }
{}
