use oi_base::{Boxed, FuncId, Items, SiteId};

/// The functions that a split lists, by their numbers. Contracts see the list of them.
pub type FuncList = Boxed<Items<FuncId>>;

/// A node of a certificate's tree. A value is a number of bytes of text, or nothing where no text is possible.
#[derive(Debug, Drop)]
pub enum CertNode {
    /// A leaf and its value.
    Leaf(Option<u32>),
    /// A branch on a site: the child in which it is kept, then the one in which it is inlined.
    Branch(SiteId),
    /// A split into independent parts, each named by the function of its list.
    Split(FuncList),
    /// In place of the second child of a branch: a bound below which no map of that child has a text.
    Cut(Option<u32>),
}

/// Nodes. Contracts see the list of them.
pub type CertNodes = Items<CertNode>;
