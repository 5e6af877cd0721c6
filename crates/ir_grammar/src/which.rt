/// A limit of the accepted text.
#[derive(Clone, Copy, Debug, PartialEq, Eq)]
pub enum Which {
    /// 4,096 definitions, passed at the next `define`.
    Functions,
    /// 4,096 call sites, passed at the place of the next one.
    Sites,
    /// Eight parameters of a function or arguments of a call, passed at what stands after the eighth and a comma.
    Params,
    /// 64 levels of types and initialisers, passed at the bracket that opens the next one.
    Nesting,
    /// 0 to 4,294,967,295, for the length of an array, the count of an `alloca` and an `align`.
    Length,
}
