use oi_base::{Place, Text};

/// A token of the accepted text (LangRef, "Identifiers" and "String constants"). A run is a longest run of ASCII letters
/// and digits and of `_`, `.`, `$` and `-`. Names and strings are given as their bytes: without the signs and quotes
/// around them, and with the escapes of a string replaced. A name in quotes is the same name as its bytes without quotes;
/// it is not empty and holds no zero byte.
#[derive(Debug, Drop)]
pub enum Token {
    /// A run of at most 30 decimal digits, with at most one `-` before them.
    Int(i128),
    /// Any other run.
    Word(Text),
    /// A run or a string with `:` directly after it.
    Label(Text),
    /// `%` with a run or a string directly after it.
    Local(Text),
    /// `@` with a run or a string directly after it.
    Global(Text),
    /// A string: `"`, any bytes but `"`, and `"`. In it `\\` says a backslash, `\` with two hexadecimal digits says that
    /// byte, and any other byte says itself.
    Str(Text),
    /// The run `c` with a string directly after it.
    CStr(Text),
    /// `!` with a run directly after it.
    Meta(Text),
    /// `#` with a run directly after it.
    Hash(Text),
    /// One of the signs `=`, `,`, `(`, `)`, `[`, `]`, `{`, `}`, `!`, `*`, `<`, `>`, `:` and `|`.
    Sign(u8),
    /// The end of the text.
    End,
}

/// A token and the place of its first byte; the end's place is the one after the last byte.
#[derive(Debug, Drop)]
pub struct Spot {
    pub token: Token,
    pub place: Place,
}
