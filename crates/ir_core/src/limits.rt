//! The limits of a module.

/// The most functions that a module may define.
pub const MOST_FUNCTIONS: usize = 4_096;

/// The most calls of defined functions in a module.
pub const MOST_SITES: usize = 4_096;

/// The most parameters of a function, and arguments of a call.
pub const MOST_PARAMS: usize = 8;

/// The most levels of types, or of initialisers, in one another.
pub const MOST_LEVELS: u32 = 64;

/// The largest length of an array, count of an `alloca` or alignment that a text may state.
pub const MOST_LENGTH: u32 = 4_294_967_295;

/// The largest size that a type may have, in bytes.
pub const LARGEST: u32 = 16_777_216;

/// What the size of a larger type stands as.
pub(crate) const TOO_LARGE: u32 = LARGEST + 1;

/// The most bytes of data that a module's globals may take.
pub const MOST_DATA: u32 = 1_048_576;

/// The most bytes of the names of definitions and globals, with `NAME_EXTRA` more for each.
pub const MOST_NAME_BYTES: u32 = 67_108_864;

/// What a name takes besides its bytes.
pub const NAME_EXTRA: u32 = 17;
