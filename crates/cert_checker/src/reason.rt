/// Which clause a certificate breaks first.
#[derive(Clone, Copy, Debug, PartialEq, Eq)]
pub enum Reason {
    /// A leaf has undecided sites inside its set.
    Open,
    /// A leaf states another value.
    Leaf,
    /// A branch names no undecided site inside the set.
    Branch,
    /// A split lists other functions than the lowest ones of the components.
    Split,
    /// A cut states another bound than the lower one, or one that is below the keep child's worth.
    Cut,
    /// The root's worth and the stub's 16 bytes are not the stated size.
    Root,
    /// The map has not the stated size.
    Map,
}
