//! Lines and words of a text.

ghost use Rattle.std.specs.Prelude.{◌≡◌, ◌≤◌, IfSome, length, position, ◌==◌};
ghost use Rattle.std.specs.List.{position_or_len};
ghost use Rattle.decisions.specs.Ends.{end_of};

/// Where the first line ends: after its line feed, or at the end of the text.
pub fn line_end(bytes: &[u8]) -> usize
    ensures end { result ≡ end_of bytes.now }
    ensures within { result ≤ length bytes.now }
{
    let at = place_of_byte(bytes, b'\n');
    if at < bytes.len() { at + 1 } else { at }
}

/// How many bytes stand before the first such byte.
pub fn place_of_byte(bytes: &[u8], byte: u8) -> usize
    ensures place { result ≡ position_or_len (λ b. b == byte) bytes.now }
    ensures within { result ≤ length bytes.now }
{
    match first_place(bytes, byte) {
        Some(at) => at,
        None => bytes.len(),
    }
}

fn first_place(bytes: &[u8], byte: u8) -> Option<usize>
    ensures place { result ≡ position (λ b. b == byte) bytes.now }
    ensures within { IfSome result (λ at. at ≤ length bytes.now) }
{
    bytes.iter().position(|b| *b == byte)
}
