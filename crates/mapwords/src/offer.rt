ghost use Rattle.std.specs.Prelude.{◌≡◌};
ghost use Rattle.std.specs.List.{list_all, slice_split};
ghost use Rattle.mapwords.specs.Offer.{is_space, has_name, is_anyway, is_taken, name_of, offered};

/// What a value of a CONFIG may offer.
#[derive(Clone, Copy)]
pub enum Offer {
    /// Pictures as PNG, by the key WMS_FORMATS.
    Png,
    /// Web mercator, by the key WMS_CRS.
    Mercator,
}

// Whether a text has this name, of those that stand apart by spaces.
fn has_name(name: &str, text: &str) -> bool
    ensures { result ≡ has_name name.now text.now }
{
    text.split(' ').any(|part| name == part)
}

impl Offer {
    // The name by which a value offers it.
    fn name(self) -> &'static str
        ensures { result.now ≡ name_of self }
    {
        match self {
            Offer::Png => "image/png",
            Offer::Mercator => "EPSG:3857",
        }
    }

    // Whether a name of the same kind is offered anyway.
    fn is_anyway(self, name: &str) -> bool
        ensures { result ≡ is_anyway self name.now }
    {
        match self {
            Offer::Png => {
                name == "image/x-portable-pixmap" || name == "image/x-portable-arbitrarymap"
            }
            Offer::Mercator => false,
        }
    }

    // Whether its key takes a name. Between two spaces there may be none.
    fn is_taken(self, name: &str) -> bool
        ensures { result ≡ is_taken self name.now }
    {
        name == "" || name == self.name() || self.is_anyway(name)
    }

    // Whether its key takes each name of a text.
    fn are_taken(self, text: &str) -> bool
        ensures { result ≡ list_all (is_taken self) (slice_split is_space text.now) }
    {
        text.split(' ').all(|name| self.is_taken(name))
    }

    /// Whether it is offered by a value of its key, if that takes each of the value's names.
    pub fn offered(self, text: &str) -> Option<bool>
        ensures { result ≡ offered self text.now }
    {
        if self.are_taken(text) {
            Some(has_name(self.name(), text))
        } else {
            None
        }
    }
}
