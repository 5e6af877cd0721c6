ghost use Rattle.std.specs.Prelude.{◌≡◌, ◌+◌, ◌≤◌, length};
ghost use Rattle.ir_lexer.specs.Places.{HasRoom, next_place, place_after};

use oi_base::Place;

/// The place after one more byte: a line feed ends a line, and columns count bytes.
pub fn next_place(place: Place, b: u8) -> Place
    requires room { HasRoom place 1 }
    ensures { result ≡ next_place place b }
{
    if b == b'\n' {
        Place {
            line: place.line + 1,
            column: 1,
        }
    } else {
        Place {
            line: place.line,
            column: place.column + 1,
        }
    }
}

/// The place after these bytes.
pub fn place_after(place: Place, bytes: &[u8]) -> Place
    requires room { HasRoom place (length bytes.now) }
    ensures place { result ≡ place_after place bytes.now }
    ensures line { result.line ≤ place.line + length bytes.now }
    ensures column { result.column ≤ place.column + length bytes.now }
{
    let mut place = place;
    for b in bytes {
        place = next_place(place, *b);
    }
    place
}
