ghost use Rattle.std.specs.Prelude.{◌≡◌, ◌+◌, ◌<◌, length};
ghost use Rattle.plural_lexer.specs.Places.{place_after};

/// A line and a column, both from 1.
#[derive(Clone, Copy, Debug, PartialEq, Eq)]
pub struct Place {
    pub line: u32,
    pub column: u32,
}

/// The place behind some bytes.
pub fn moved(place: Place, bytes: &[u8]) -> Place
    requires line { place.line + length bytes.now < 4294967296 }
    requires column { place.column + length bytes.now < 4294967296 }
    ensures { result ≡ place_after place bytes.now }
{
    let mut place = place;
    for byte in bytes {
        place = if *byte == b'\n' {
            Place {
                line: place.line + 1,
                column: 1,
            }
        } else {
            Place {
                line: place.line,
                column: place.column + 1,
            }
        };
    }
    place
}
