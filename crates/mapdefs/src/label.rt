ghost use Rattle.std.specs.Prelude.{◌≡◌};
ghost use Rattle.std.specs.Option.{option_copied};
ghost use Rattle.mapdefs.specs.Fonts.{label_font};

use crate::{Font, Limited, Limits, Rgb};

/// Where a label's text stands, seen from its anchor: above, centred or below, and left, centred or
/// right. `Automatic` leaves the choice to the placement.
#[derive(Clone, Copy, Debug)]
pub enum Position {
    UpperLeft,
    UpperCentre,
    UpperRight,
    CentreLeft,
    Centre,
    CentreRight,
    LowerLeft,
    LowerCentre,
    LowerRight,
    Automatic,
}

/// What a label says.
#[derive(Drop)]
pub struct LabelFields {
    /// The colour of the glyphs; without one they leave no ink.
    pub colour: Option<Rgb>,
    /// The colour round them; without one they have no outline.
    pub outline: Option<Rgb>,
    /// How wide the outline is on a fine picture, in pixels of the map. Elsewhere it has the eight neighbours of ink.
    pub outline_width: u8,
    /// The font of the text, by its index in the map's; without one there is no label.
    pub font: Option<usize>,
    /// Whether it names a font that the map doesn't have. It has that of labels that name none, if there is one.
    pub lacks_font: bool,
    /// Labels of higher priority go first.
    pub priority: u8,
    pub position: Position,
    /// How far the text's box is widened on each side, in pixels.
    pub buffer: u8,
    /// How far labels of the same text stay apart, in pixels.
    pub mindistance: u16,
    /// Whether a part of the label may lie off the picture.
    pub partials: bool,
    /// Whether it is placed over other labels.
    pub force: bool,
}

impl Limits for LabelFields {
    ghost use Rattle.mapdefs.specs.StyleLimits.{IsLabelWithinLimits};

    ghost within = { IsLabelWithinLimits };
}

impl LabelFields {
    /// The font of the label, if it has one that is among the fonts of its map.
    pub fn font_in<'f>(&self, fonts: &'f [Font]) -> Option<&'f Font>
        ensures { option_copied result ≡ label_font fonts.now self.now }
    {
        fonts.get(self.font?)
    }
}

/// The label of a class. Its outline's width is 1 to `MAX_OUTLINE_WIDTH`, its priority 1 to `MAX_PRIORITY`, its buffer at
/// most `MAX_BUFFER` and its distance at most `MAX_DISTANCE`.
pub type Label = Limited<LabelFields>;
