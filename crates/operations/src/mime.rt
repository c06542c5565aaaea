ghost use Rattle.std.specs.Prelude.{◌≡◌};
ghost use Rattle.operations.specs.Mime.{mime_text};

/// What the body of an answer is.
#[derive(Clone, Copy, Debug, PartialEq, Eq)]
pub enum Mime {
    /// A picture as Portable Network Graphics.
    Png,
    /// A picture as Netpbm's portable pixmap.
    Pixmap,
    /// A picture as Netpbm's portable arbitrary map.
    ArbitraryMap,
    /// An XML document.
    Xml,
    /// A text.
    Plain,
}

impl Mime {
    /// The type as it is written.
    #[tactic(auto, unfolding(crate::specs::Mime::mime_text))]
    pub fn text(self) -> &'static str
        ensures { result.now ≡ mime_text self }
    {
        match self {
            Mime::Png => "image/png",
            Mime::Pixmap => "image/x-portable-pixmap",
            Mime::ArbitraryMap => "image/x-portable-arbitrarymap",
            Mime::Xml => "text/xml",
            Mime::Plain => "text/plain",
        }
    }
}
