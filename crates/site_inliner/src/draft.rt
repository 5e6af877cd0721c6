ghost use Rattle.std.specs.Prelude.{◌≡◌, ◌++◌, ◌∷◌, [], OnOk};

use ir_core::{FlatBlock, FlatBlocks, FlatCode, FlatEnd, Phis};
use oi_base::{Items, NoMemory};
use std::alloc::Global;

/// Blocks, and the phis and rows of the next one.
#[derive(Drop)]
pub struct Draft {
    pub blocks: FlatBlocks,
    pub phis: Phis,
    pub code: FlatCode,
}

impl Draft {
    pub fn new(alloc: Global) -> Draft
        ensures { result ≡ record { blocks = []; phis = []; code = [] } }
    {
        Draft {
            blocks: Items::new(alloc),
            phis: Items::new(alloc),
            code: Items::new(alloc),
        }
    }

    /// Ends the block, and begins the next one.
    pub fn cut(&mut self, alloc: Global, end: FlatEnd) -> Result<(), NoMemory>
        ensures blocks { OnOk result (self.new.blocks ≡ self.old.blocks ++ record { phis = self.old.phis; code = self.old.code; end = end } ∷ []) }
        ensures phis { OnOk result (self.new.phis ≡ []) }
        ensures code { OnOk result (self.new.code ≡ []) }
    {
        let phis = std::mem::replace(&mut self.phis, Items::new(alloc));
        let code = std::mem::replace(&mut self.code, Items::new(alloc));
        self.blocks.push(FlatBlock { phis, code, end })?;
        Ok(())
    }
}
