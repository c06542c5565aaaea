ghost use Rattle.std.specs.Prelude.{◌≡◌, ◌≤◌, IfOk};
ghost use Rattle.std.specs.Option.{option_copied};
ghost use Rattle.collide.specs.declared.marks.TheConstants.{MAX_SIDE};
ghost use Rattle.mapdefs.specs.Fonts.{label_font};
ghost use Rattle.labelcache.specs.LabelBox.{size_in};
ghost use Rattle.labelcache.specs.Placement.{IsPage};

use crate::advances::Advances;
use crate::candidate::Candidate;
use crate::label_box::TextSize;
use mapdefs::{Font, LabelFields};
use std::alloc::{AllocError, Global};
use std::marker::Model;

/// What labels are placed on: a picture of that width and height, each at most `MAX_SIDE` pixels, and the fonts of its texts.
#[derive(Drop)]
pub struct Page<'a> {
    width: u16,
    height: u16,
    fonts: Vec<Advances<'a>>,
}

impl<'a> Model for Page<'a> {
    ghost use Rattle.labelcache.specs.Placement.{IsPage, PageValue};

    ghost Value = { PageValue };

    ghost view = { λ p. record { width = p.width; height = p.height; fonts = p.fonts.items } };

    ghost invariant = { λ p. IsPage p.width p.height };
}

// The advances of each font.
fn advances_of<'a>(alloc: Global, fonts: &'a [Font]) -> Result<Vec<Advances<'a>>, AllocError>
    ensures { IfOk result (λ advances. advances.items ≡ fonts.now) }
{
    let mut advances = Vec::with_capacity(alloc, fonts.len())?;
    for font in fonts {
        advances.push(Advances::of(alloc, font)?)?;
    }
    Ok(advances)
}

impl<'a> Page<'a> {
    /// The page with that width and height and these fonts.
    pub fn new(
        alloc: Global,
        width: u16,
        height: u16,
        fonts: &'a [Font],
    ) -> Result<Self, AllocError>
        requires { IsPage width height }
        ensures { IfOk result (λ page. page ≡ record { width = width; height = height; fonts = fonts.now }) }
    {
        Ok(Page {
            width,
            height,
            fonts: advances_of(alloc, fonts)?,
        })
    }

    /// The width of the picture, in columns.
    pub fn width(&self) -> u16
        ensures value { result ≡ self.now.width }
        ensures limits { result ≤ MAX_SIDE }
    {
        self.width
    }

    /// The height of the picture, in rows.
    pub fn height(&self) -> u16
        ensures value { result ≡ self.now.height }
        ensures limits { result ≤ MAX_SIDE }
    {
        self.height
    }

    // The font of a label, if it is there.
    fn font_of(&self, label: &LabelFields) -> Option<&Advances<'a>>
        ensures { option_copied result ≡ label_font self.now.fonts label.now }
    {
        self.fonts.get(label.font?)
    }

    /// The sides of a candidate's text in its font.
    pub fn size_of(&self, candidate: &Candidate<'_>) -> TextSize
        ensures { result ≡ size_in self.now.fonts candidate.now }
    {
        match self.font_of(candidate.label()) {
            Some(font) => font.size_of(candidate.text()),
            None => TextSize {
                width: 0,
                height: 0,
            },
        }
    }
}
