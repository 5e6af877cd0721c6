ghost use Rattle.ir_core.specs.declared.flat.FlatBody as bodies;
ghost use Rattle.ir_core.specs.WellFormed.{IsWellFormed};
ghost use Rattle.frame_layout.specs.Laws.{HaveHomes, LieApart};

/// In the frame of a formed body exactly the parameters and the registers that are written have homes: phis a slot
/// and a shadow, allocas their memory, all others a slot. It does nothing: its contract is the law.
pub fn registers_have_homes()
    ensures { (b : bodies.FlatBody) → IsWellFormed b → HaveHomes b }
{}

/// In the frame of a formed body no two homes have a byte in common, and each is aligned, after the return address
/// and within the frame. It does nothing: its contract is the law.
pub fn homes_lie_apart()
    ensures { (b : bodies.FlatBody) → IsWellFormed b → LieApart b }
{}
