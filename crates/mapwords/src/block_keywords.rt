ghost use Rattle.std.specs.Prelude.{◌≡◌};
ghost use Rattle.mapwords.specs.Table.{map_role, web_role, symbol_role, smooth_symbol_role, unused_layer_role, layer_role, class_role, style_role, label_role, feature_role, skipped_role, skipped_label_role, end_role, role_of, role_in};

use crate::keyword::Keyword;
use crate::role::{Block, Expected, Role};
use crate::table::{ColourKeyword, CountKeyword, FlagKeyword, OnlyWord, ScaleKeyword, TextKeyword};

// The keywords of MAP.
fn map_role(keyword: Keyword) -> Option<Role>
    ensures { result ≡ map_role keyword }
{
    match keyword {
        Keyword::Layer => Some(Role::Opens(Block::Layer)),
        Keyword::Web => Some(Role::Opens(Block::Web)),
        Keyword::Symbol => Some(Role::Opens(Block::Symbol)),
        Keyword::Name => Some(Role::Takes(Expected::Text(TextKeyword::Name))),
        Keyword::Extent => Some(Role::Takes(Expected::West)),
        Keyword::Config => Some(Role::Takes(Expected::ConfigKey)),
        Keyword::Angle
        | Keyword::Debug
        | Keyword::FontSet
        | Keyword::ImageType
        | Keyword::MaxSize
        | Keyword::Resolution
        | Keyword::ShapePath
        | Keyword::Status
        | Keyword::Units => Some(Role::Takes(Expected::Unused(0))),
        Keyword::Size => Some(Role::Takes(Expected::Unused(1))),
        Keyword::ImageColor => Some(Role::Takes(Expected::Colour(ColourKeyword::ImageColor))),
        Keyword::Legend
        | Keyword::OutputFormat
        | Keyword::QueryMap
        | Keyword::Reference
        | Keyword::ScaleBar => Some(Role::Opens(Block::Skipped)),
        Keyword::Projection => Some(Role::Opens(Block::Projection)),
        Keyword::End => Some(Role::Closes),
        _ => None,
    }
}

// The keywords of WEB.
fn web_role(keyword: Keyword) -> Option<Role>
    ensures { result ≡ web_role keyword }
{
    match keyword {
        Keyword::Metadata => Some(Role::Opens(Block::WebMetadata)),
        Keyword::Validation => Some(Role::Opens(Block::Validation)),
        Keyword::Empty
        | Keyword::Error
        | Keyword::Footer
        | Keyword::Header
        | Keyword::ImagePath
        | Keyword::ImageUrl
        | Keyword::Log
        | Keyword::MaxScaleDenom
        | Keyword::MinScaleDenom
        | Keyword::Template => Some(Role::Takes(Expected::Unused(0))),
        Keyword::End => Some(Role::Closes),
        _ => None,
    }
}

// The keywords of SYMBOL.
fn symbol_role(keyword: Keyword) -> Option<Role>
    ensures { result ≡ symbol_role keyword }
{
    match keyword {
        Keyword::Name => Some(Role::Takes(Expected::Text(TextKeyword::Name))),
        Keyword::GeometryType => Some(Role::Takes(Expected::Pixmap)),
        Keyword::Image => Some(Role::Takes(Expected::Text(TextKeyword::Image))),
        Keyword::Transparent => Some(Role::Takes(Expected::Unused(0))),
        Keyword::AnchorPoint => Some(Role::Takes(Expected::Unused(1))),
        Keyword::End => Some(Role::Closes),
        _ => None,
    }
}

// The keywords of SYMBOL in a smoothed map.
fn smooth_symbol_role(keyword: Keyword) -> Option<Role>
    ensures { result ≡ smooth_symbol_role keyword }
{
    match keyword {
        Keyword::GeometryType => Some(Role::Takes(Expected::SymbolType)),
        Keyword::Points => Some(Role::Takes(Expected::Radii(2))),
        Keyword::Filled => Some(Role::Takes(Expected::Filled)),
        _ => symbol_role(keyword),
    }
}

// The keywords of LAYER that are read without effect.
fn unused_layer_role(keyword: Keyword) -> Option<Role>
    ensures { result ≡ unused_layer_role keyword }
{
    match keyword {
        Keyword::Debug
        | Keyword::Dump
        | Keyword::Footer
        | Keyword::Group
        | Keyword::Header
        | Keyword::LabelMaxScaleDenom
        | Keyword::LabelMinScaleDenom
        | Keyword::Status
        | Keyword::Units => Some(Role::Takes(Expected::Unused(0))),
        Keyword::Extent => Some(Role::Takes(Expected::Unused(3))),
        Keyword::LabelCache => Some(Role::Takes(Expected::Only(OnlyWord::On))),
        Keyword::ToleranceUnits => Some(Role::Takes(Expected::Only(OnlyWord::Pixels))),
        _ => None,
    }
}

// The keywords of LAYER.
fn layer_role(keyword: Keyword) -> Option<Role>
    ensures { result ≡ layer_role keyword }
{
    match keyword {
        Keyword::Name => Some(Role::Takes(Expected::Text(TextKeyword::Name))),
        Keyword::GeometryType => Some(Role::Takes(Expected::Geometry)),
        Keyword::ClassItem => Some(Role::Takes(Expected::Text(TextKeyword::ClassItem))),
        Keyword::LabelItem => Some(Role::Takes(Expected::Text(TextKeyword::LabelItem))),
        Keyword::Data => Some(Role::Takes(Expected::Table)),
        Keyword::Template => Some(Role::Takes(Expected::Text(TextKeyword::Template))),
        Keyword::Tolerance => Some(Role::Takes(Expected::Count(CountKeyword::Tolerance))),
        Keyword::MinScaleDenom => Some(Role::Takes(Expected::Scale(ScaleKeyword::Min))),
        Keyword::MaxScaleDenom => Some(Role::Takes(Expected::Scale(ScaleKeyword::Max))),
        Keyword::Processing => Some(Role::Takes(Expected::Setting)),
        Keyword::Metadata => Some(Role::Opens(Block::LayerMetadata)),
        Keyword::Class => Some(Role::Opens(Block::Class)),
        Keyword::Feature => Some(Role::Opens(Block::Feature)),
        Keyword::Projection => Some(Role::Opens(Block::Projection)),
        Keyword::Validation => Some(Role::Opens(Block::Validation)),
        Keyword::End => Some(Role::Closes),
        _ => unused_layer_role(keyword),
    }
}

// The keywords of CLASS.
fn class_role(keyword: Keyword) -> Option<Role>
    ensures { result ≡ class_role keyword }
{
    match keyword {
        Keyword::Style => Some(Role::Opens(Block::Style)),
        Keyword::Label => Some(Role::Opens(Block::Label)),
        Keyword::Expression => Some(Role::Takes(Expected::Rule)),
        Keyword::MinScaleDenom => Some(Role::Takes(Expected::Scale(ScaleKeyword::Min))),
        Keyword::MaxScaleDenom => Some(Role::Takes(Expected::Scale(ScaleKeyword::Max))),
        Keyword::Group | Keyword::Name | Keyword::Status | Keyword::Template | Keyword::Title =>
            Some(Role::Takes(Expected::Unused(0))),
        Keyword::End => Some(Role::Closes),
        _ => None,
    }
}

// The keywords of STYLE.
fn style_role(keyword: Keyword) -> Option<Role>
    ensures { result ≡ style_role keyword }
{
    match keyword {
        Keyword::Color => Some(Role::Takes(Expected::Colour(ColourKeyword::Color))),
        Keyword::OutlineColor => Some(Role::Takes(Expected::Colour(ColourKeyword::OutlineColor))),
        Keyword::Width => Some(Role::Takes(Expected::Count(CountKeyword::Width))),
        Keyword::Size => Some(Role::Takes(Expected::Count(CountKeyword::Size))),
        Keyword::Symbol => Some(Role::Takes(Expected::Text(TextKeyword::Symbol))),
        Keyword::Antialias
        | Keyword::MaxSize
        | Keyword::MaxWidth
        | Keyword::MinSize
        | Keyword::MinWidth => Some(Role::Takes(Expected::Unused(0))),
        Keyword::End => Some(Role::Closes),
        _ => None,
    }
}

// The keywords of LABEL.
fn label_role(keyword: Keyword) -> Option<Role>
    ensures { result ≡ label_role keyword }
{
    match keyword {
        Keyword::Color => Some(Role::Takes(Expected::Colour(ColourKeyword::Color))),
        Keyword::OutlineColor => Some(Role::Takes(Expected::Colour(ColourKeyword::OutlineColor))),
        Keyword::Priority => Some(Role::Takes(Expected::Count(CountKeyword::Priority))),
        Keyword::Position => Some(Role::Takes(Expected::Position)),
        Keyword::Buffer => Some(Role::Takes(Expected::Count(CountKeyword::Buffer))),
        Keyword::MinDistance => Some(Role::Takes(Expected::Count(CountKeyword::MinDistance))),
        Keyword::Partials => Some(Role::Takes(Expected::Flag(FlagKeyword::Partials))),
        Keyword::Force => Some(Role::Takes(Expected::Flag(FlagKeyword::Force))),
        Keyword::OutlineWidth => Some(Role::Takes(Expected::Text(TextKeyword::OutlineWidth))),
        Keyword::Font => Some(Role::Takes(Expected::Text(TextKeyword::Font))),
        Keyword::Antialias
        | Keyword::Encoding
        | Keyword::GeometryType
        | Keyword::MaxSize
        | Keyword::MinFeatureSize
        | Keyword::MinSize
        | Keyword::RepeatDistance
        | Keyword::Size => Some(Role::Takes(Expected::Unused(0))),
        Keyword::Offset => Some(Role::Takes(Expected::Unused(1))),
        Keyword::Style => Some(Role::Opens(Block::Skipped)),
        Keyword::End => Some(Role::Closes),
        _ => None,
    }
}

// The keywords of FEATURE.
fn feature_role(keyword: Keyword) -> Option<Role>
    ensures { result ≡ feature_role keyword }
{
    match keyword {
        Keyword::Points => Some(Role::Opens(Block::Points)),
        Keyword::Text => Some(Role::Takes(Expected::Text(TextKeyword::Text))),
        Keyword::Items => Some(Role::Takes(Expected::Text(TextKeyword::Items))),
        Keyword::End => Some(Role::Closes),
        _ => None,
    }
}

// What opens blocks inside a block that is skipped.
fn skipped_role(keyword: Keyword) -> Option<Role>
    ensures { result ≡ skipped_role keyword }
{
    match keyword {
        Keyword::Label => Some(Role::Opens(Block::SkippedLabel)),
        Keyword::Metadata => Some(Role::Opens(Block::Skipped)),
        Keyword::Validation => Some(Role::Opens(Block::Projection)),
        Keyword::End => Some(Role::Closes),
        _ => None,
    }
}

// What opens blocks inside a LABEL that is skipped.
fn skipped_label_role(keyword: Keyword) -> Option<Role>
    ensures { result ≡ skipped_label_role keyword }
{
    match keyword {
        Keyword::Label => Some(Role::Opens(Block::SkippedLabel)),
        Keyword::Metadata | Keyword::Style => Some(Role::Opens(Block::Skipped)),
        Keyword::Validation => Some(Role::Opens(Block::Projection)),
        Keyword::End => Some(Role::Closes),
        _ => None,
    }
}

// What closes a block without keywords.
fn end_role(keyword: Keyword) -> Option<Role>
    ensures { result ≡ end_role keyword }
{
    match keyword {
        Keyword::End => Some(Role::Closes),
        _ => None,
    }
}

/// What a keyword does in a block, if it is a keyword of the block.
pub fn role_of(block: Block, keyword: Keyword) -> Option<Role>
    ensures { result ≡ role_of block keyword }
{
    match block {
        Block::Map => map_role(keyword),
        Block::Web => web_role(keyword),
        Block::Symbol => symbol_role(keyword),
        Block::Layer => layer_role(keyword),
        Block::Class => class_role(keyword),
        Block::Style => style_role(keyword),
        Block::Label => label_role(keyword),
        Block::Feature => feature_role(keyword),
        Block::Skipped => skipped_role(keyword),
        Block::SkippedLabel => skipped_label_role(keyword),
        Block::Points
        | Block::WebMetadata
        | Block::LayerMetadata
        | Block::Validation
        | Block::Projection => end_role(keyword),
    }
}

/// What a keyword does in a block of a map that is smoothed, or isn't, if it is a keyword of the block.
pub fn role_in(block: Block, is_smooth: bool, keyword: Keyword) -> Option<Role>
    ensures { result ≡ role_in block is_smooth keyword }
{
    match block {
        Block::Symbol if is_smooth => smooth_symbol_role(keyword),
        _ => role_of(block, keyword),
    }
}
