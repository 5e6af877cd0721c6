//! Where the parts of the machine's memory stand.

/// The address of the text.
pub const TEXT_START: u32 = 0x0001_0000;

/// The address of the data.
pub const DATA_START: u32 = 0x1000_0000;

/// The address of the stack, which grows downwards from its end.
pub const STACK_START: u32 = 0x7fef_f000;

/// The size of the stack in bytes.
pub const STACK_SIZE: u32 = 0x0010_0000;

/// The end of the stack.
pub const STACK_END: u32 = STACK_START + STACK_SIZE;

/// The size in bytes of the guard, which ends where the stack starts.
pub const GUARD_SIZE: u32 = 0x0002_0000;

/// The address of the guard.
pub const GUARD_START: u32 = STACK_START - GUARD_SIZE;
