/// How a machine stands: it runs, or why it stopped.
#[derive(Clone, Copy, Debug, PartialEq, Eq)]
pub enum Stop {
    /// It goes on.
    Running,
    /// The environment was asked to exit with this word.
    Exit(u32),
    /// An access, or a fetch, at this address was not mapped, not permitted or not aligned.
    Access(u32),
    /// An access, or a fetch, at this address touched the guard below the stack.
    Stack(u32),
    /// This word, which is no instruction or `ebreak`, was to be executed.
    Illegal(u32),
    /// The environment has no call of this number.
    BadCall(u32),
    /// A put found no room.
    OutputFull,
}
