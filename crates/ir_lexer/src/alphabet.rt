ghost use Rattle.std.specs.Prelude.{◌≡◌, ◌≤◌, length};
ghost use Rattle.std.specs.List.{prefix_len, list_all};
ghost use Rattle.std.specs.Char.{is_ascii_digit};
ghost use Rattle.ir_lexer.specs.Alphabet.{is_run_byte, is_separator, is_sign, begins_with, run_of, without_minus, is_int};

/// Is the byte one of a run: an ASCII letter or digit, or one of `_`, `.`, `$` and `-`?
pub fn is_run_byte(b: u8) -> bool
    ensures { result ≡ is_run_byte b }
{
    b.is_ascii_alphanumeric() || matches!(b, b'_' | b'.' | b'$' | b'-')
}

/// Does the byte separate tokens?
pub fn is_separator(b: u8) -> bool
    ensures { result ≡ is_separator b }
{
    matches!(b, b' ' | b'\t' | b'\r' | b'\n')
}

/// Is the byte a token by itself?
pub fn is_sign(b: u8) -> bool
    ensures { result ≡ is_sign b }
{
    matches!(
        b,
        b'=' | b','
            | b'('
            | b')'
            | b'['
            | b']'
            | b'{'
            | b'}'
            | b'!'
            | b'*'
            | b'<'
            | b'>'
            | b':'
            | b'|'
    )
}

/// Is this byte the first of the text?
pub fn begins_with(b: u8, text: &[u8]) -> bool
    ensures { result ≡ begins_with b text.now }
{
    match text {
        [] => false,
        [first, ..] => *first == b,
    }
}

/// How many bytes the longest run at the start takes.
fn run_len(text: &[u8]) -> usize
    ensures { result ≡ prefix_len is_run_byte text.now }
{
    for (at, b) in text.iter().enumerate() {
        if !is_run_byte(*b) {
            return at;
        }
    }
    text.len()
}

/// The longest run at the start, which may be empty.
pub fn run_of(text: &[u8]) -> &[u8]
    ensures run { result.now ≡ run_of text.now }
    ensures within { length result.now ≤ length text.now }
{
    &text[..run_len(text)]
}

/// A run without a leading `-`.
pub fn without_minus(run: &[u8]) -> &[u8]
    ensures { result.now ≡ without_minus run.now }
{
    match run {
        [b'-', digits @ ..] => digits,
        _ => run,
    }
}

/// Are these decimal digits?
fn are_digits(digits: &[u8]) -> bool
    ensures { result ≡ list_all is_ascii_digit digits.now }
{
    digits.iter().all(|b| b.is_ascii_digit())
}

/// Is the run decimal digits, with at most one `-` before them?
#[tactic(auto, unfolding(crate::specs::Alphabet::is_int))]
pub fn is_int(run: &[u8]) -> bool
    ensures { result ≡ is_int run.now }
{
    let digits = without_minus(run);
    !digits.is_empty() && are_digits(digits)
}
