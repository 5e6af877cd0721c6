/// A kind of tokens, but for words and signs.
#[derive(Clone, Copy, Debug, PartialEq, Eq)]
pub enum Kind {
    Int,
    Label,
    Local,
    Global,
    Str,
    CStr,
    /// `!` with a run that does not begin with `DI`.
    Meta,
    /// `#` with digits.
    Hash,
    /// A `!` or `#` with another run: it stands in skipped parts alone.
    Skipped,
    End,
}

/// Which words are no attributes in a list, beside those that never are one.
#[derive(Clone, Copy, Debug, PartialEq, Eq)]
pub enum Barred {
    /// None.
    Nothing,
    /// Those that begin a value, where a value, a parameter's name or a type follows the list.
    Values,
    /// Those that begin an instruction or a terminator, where these may follow the list.
    Code,
}
