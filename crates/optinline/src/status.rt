//! The statuses that a run answers.

/// The command was carried out.
pub const DONE: u8 = 0;

/// The words are no command.
pub const NO_COMMAND: u8 = 2;

/// A call of the desk failed.
pub const DESK_FAILED: u8 = 3;

/// The module is the text of no valid module.
pub const REFUSED: u8 = 4;

/// The module has more bytes than its limit.
pub const TOO_LONG: u8 = 9;

/// Memory ran out.
pub const NO_MEMORY: u8 = 12;

/// The module is valid, and something of it is not built yet.
pub const NOT_BUILT: u8 = 13;

/// The module is not there.
pub const ABSENT: u8 = 18;

/// The system does not give the program's words. `tool` never answers it.
pub const NO_WORDS: u8 = 19;
