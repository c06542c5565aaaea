ghost use Rattle.std.specs.Prelude.{◌≡◌, ◌≤◌, length, IfOk};
ghost use Rattle.std.specs.Str.{chars};
ghost use Rattle.bdffont.specs.declared.text.TheConstants.{MAX_CHARACTERS};
ghost use Rattle.bdffont.specs.Ink.{advance_of};
ghost use Rattle.labelcache.specs.Advances.{AreAdvances};
ghost use Rattle.labelcache.specs.LabelBox.{size_of};

use crate::label_box::TextSize;
use bdffont::{advance_of, split_char};
use mapdefs::Font;
use std::alloc::{AllocError, Global};
use std::marker::Model;

// How many characters have their advances stored: those of ASCII.
const AT_HAND: u32 = 128;

/// A font, with the advances of its first characters stored. Texts of ASCII are measured without a search for their
/// characters.
#[derive(Drop)]
pub struct Advances<'a> {
    font: &'a Font,
    first: Vec<u8>,
}

impl<'a> Model for Advances<'a> {
    ghost use Rattle.mapdefs.specs.declared.font.FontFields.{FontFields};
    ghost use Rattle.labelcache.specs.Advances.{AreAdvances};

    ghost Value = { FontFields };

    ghost view = { λ a. a.font.now };

    ghost invariant = { λ a. AreAdvances a.font.now a.first.items };
}

// The advances of the first characters.
fn first_advances(alloc: Global, font: &Font) -> Result<Vec<u8>, AllocError>
    ensures { IfOk result (λ first. AreAdvances font.now first.items) }
{
    let glyphs = font.get().glyphs.as_slice();
    let mut first = Vec::new(alloc);
    for character in 0..AT_HAND {
        first.push(advance_of(glyphs, character))?;
    }
    Ok(first)
}

impl<'a> Advances<'a> {
    /// The advances of a font.
    pub fn of(alloc: Global, font: &'a Font) -> Result<Self, AllocError>
        ensures { IfOk result (λ a. a ≡ font.now) }
    {
        Ok(Advances {
            font,
            first: first_advances(alloc, font)?,
        })
    }

    // How far the pen advances after a character.
    fn after(&self, character: u32) -> u8
        ensures { result ≡ advance_of self.now.glyphs character }
    {
        match self.first.get(character as usize) {
            Some(advance) => *advance,
            None => advance_of(self.font.get().glyphs.as_slice(), character),
        }
    }

    /// The sides of a text in the font.
    pub fn size_of(&self, text: &str) -> TextSize
        requires { length (chars text.now) ≤ MAX_CHARACTERS }
        ensures { result ≡ size_of self.now text.now }
    {
        let mut width = 0;
        let mut rest = text;
        while let Some((character, after)) = split_char(rest) {
            width += u32::from(self.after(character));
            rest = after;
        }
        TextSize {
            width,
            height: u32::from(self.font.get().bounds.height),
        }
    }
}
