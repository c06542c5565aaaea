//! Laws of the definitions. A law is a function without arguments whose contract states it.

ghost use Rattle.capabilities.specs.Boxes.{ExtentIsRead};
ghost use Rattle.capabilities.specs.Texts.{TextsChangeNoTags, TitlesAreRead, NamesAreRead};

/// Whatever the texts of a map are, its document has the tags and the attributes of the document of the
/// same map with empty texts.
pub fn texts_change_no_tags()
    ensures { TextsChangeNoTags }
{}

/// The contents of the elements `Title` of a document, unescaped, are those of the service and of the outermost layer,
/// which are the map's title. Then comes the title of each layer that is switched on.
pub fn titles_are_read()
    ensures { TitlesAreRead }
{}

/// The contents of its elements `Name` are the name of the service, and then that of each such layer.
pub fn names_are_read()
    ensures { NamesAreRead }
{}

/// The boxes of a document, each read in the system that it names as a query's BBOX is, are the extent of the map. So
/// are the four sides of its geographic box. The box in metres, where there is one, is what the square world has of the
/// extent, its sides rounded outwards.
pub fn extent_is_read()
    ensures { ExtentIsRead }
{}
