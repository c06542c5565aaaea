ghost use Rattle.std.specs.Prelude.{◌≡◌};
ghost use Rattle.mapwords.specs.Colour.{component_of, component_of_count, rgb_of, hex_colour};

use geom::Micro;
use hex::FromHex;
use mapdefs::Rgb;

/// A colour component, as it is written: red, green or blue.
#[derive(Clone, Copy)]
pub enum Component {
    /// Its level.
    Level(u8),
    /// There is no colour.
    Absent,
}

impl Component {
    // The component that a count means.
    fn of_count(count: i64) -> Option<Component>
        ensures { result ≡ component_of_count count }
    {
        if count == -1 {
            return Some(Component::Absent);
        }
        u8::try_from(count).ok().map(Component::Level)
    }

    /// The component that the text means.
    pub fn read(text: &str) -> Option<Component>
        ensures { result ≡ component_of text.now }
    {
        match Micro::read_count(text.as_bytes()) {
            Some(count) => Component::of_count(count),
            None => None,
        }
    }
}

/// The colour of the components red, green and blue. It is `None` where one of them is absent.
pub fn rgb_of(red: Component, green: Component, blue: Component) -> Option<Rgb>
    ensures { result ≡ rgb_of red green blue }
{
    match (red, green, blue) {
        (Component::Level(red), Component::Level(green), Component::Level(blue)) => {
            Some(Rgb { red, green, blue })
        }
        _ => None,
    }
}

/// The colour that a text `#rrggbb` means.
pub fn hex_colour(text: &str) -> Option<Rgb>
    ensures { result ≡ hex_colour text.now }
{
    let [b'#', digits @ ..] = text.as_bytes() else {
        return None;
    };
    let [red, green, blue] = <[u8; 3] as FromHex>::from_hex(digits).ok()?;
    Some(Rgb { red, green, blue })
}
