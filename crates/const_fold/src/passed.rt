use ir_core::FlatBody;

/// A body after a pass, and whether the pass changed anything. Where it did not, the body is the one before the pass.
#[derive(Drop)]
pub struct Passed {
    pub body: FlatBody,
    pub changed: bool,
}
