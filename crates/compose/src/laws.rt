//! Laws of the definitions. A law is a function without arguments whose contract states it.

ghost use Rattle.compose.specs.Anchor.{AnchorsAreNear};
ghost use Rattle.compose.specs.Blocks.{BlocksAreParts, BlocksPaintParts, BlocksPaintTheSame, PaintedBlocksAreBlocks, ShapesMove};
ghost use Rattle.compose.specs.Classes.{CommonClassIsOfAll};
ghost use Rattle.compose.specs.Labels.{FoundLabelAll};
ghost use Rattle.compose.specs.Near.{CandidatesPaintAll, PaintsNear};
ghost use Rattle.compose.specs.Picture.{HasOnePicture, LastMentionsPaintAll};
ghost use Rattle.compose.specs.Walk.{PaintListIsOfClassified};

/// A feature that paints a pixel of the picture has its box in the window of its layer's margin. So what is
/// painted doesn't depend on how features are found.
pub fn paints_near()
    ensures { PaintsNear }
{}

/// Painting the candidates, in order, gives each pixel the colour that painting all features gives it.
pub fn candidates_paint_all()
    ensures { CandidatesPaintAll }
{}

/// The paint list is what is painted of the classified features, which give the candidates for labels, too.
pub fn paint_list_is_of_classified()
    ensures { PaintListIsOfClassified }
{}

/// A feature whose anchor lies in the picture has its box in the window of every margin, 0 included.
pub fn anchors_are_near()
    ensures { AnchorsAreNear }
{}

/// What is found in a window of the picture gives the candidates that all features of the layer
/// give, in the same order. This holds whatever the margin is, and whatever else is found. So the
/// candidates' numbers and the labels are the same.
pub fn found_label_all()
    ensures { FoundLabelAll }
{}

/// A map has at most one picture in a view.
pub fn one_picture()
    ensures { HasOnePicture }
{}

/// A list of layers in which one stands twice gives each pixel the colour that the list without its first mention gives it.
pub fn last_mentions_paint_all()
    ensures { LastMentionsPaintAll }
{}

/// A first class of a layer that has no expression and no bounds on the scale is the class of each of its features.
pub fn common_class()
    ensures { CommonClassIsOfAll }
{}

/// A shape as it lies from a pixel covers, as many columns and rows behind it, what the shape covers, and gives it the
/// same colours.
pub fn shapes_move()
    ensures { ShapesMove }
{}

/// What is painted on a block of a picture is what is painted on the whole, from the block's first pixel.
pub fn blocks_paint_the_same()
    ensures { BlocksPaintTheSame }
{}

/// On a block of a picture each pixel has the colour that it has on the whole, whatever is placed on the whole.
pub fn blocks_are_parts()
    ensures features { BlocksPaintParts }
    ensures all { BlocksAreParts }
{}

/// The background that is painted over with what a block has is the block of the whole picture.
pub fn painted_blocks()
    ensures { PaintedBlocksAreBlocks }
{}
