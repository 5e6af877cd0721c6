ghost use Rattle.std.specs.Prelude.{◌≡◌, ◌++◌, ◌∷◌, [], ◌<◌, All, OnOk, length};
ghost use Rattle.rv_isa.specs.Words.{InRange};
ghost use Rattle.rv_select.specs.Pending.{word, IsDraft, IsItem};
ghost use Rattle.rv_select.specs.Lowered.{call_pair};
ghost use Rattle.rv_select.specs.declared.item.Draft.TheVariants as drafts;
ghost use Rattle.rv_select.specs.declared.item.Item.TheVariants as item;

use crate::item::{Draft, Item, Test};
use oi_base::{BlockId, FuncId, NoMemory};
use rv_isa::{Rv, X};
use std::alloc::Global;
use std::marker::Model;

/// A code that is being built, in which blocks have no places yet. Contracts see the list of its drafts.
#[derive(Drop)]
pub struct CodeBuilder {
    drafts: Vec<Draft>,
}

impl Model for CodeBuilder {
    ghost use Rattle.std.specs.Prelude.{List, All};
    ghost use Rattle.rv_select.specs.declared.item.Draft.{Draft};

    ghost Value = { List Draft };

    ghost use Rattle.rv_select.specs.Pending.{IsDraft};

    ghost view = { λ b. b.drafts.items };

    ghost invariant = { λ b. All IsDraft b.drafts.items };
}

impl CodeBuilder {
    pub fn new(alloc: Global) -> CodeBuilder
        ensures { result ≡ [] }
    {
        CodeBuilder {
            drafts: Vec::new(alloc),
        }
    }

    fn draft(&mut self, draft: Draft) -> Result<(), NoMemory>
        requires { IsDraft draft }
        ensures { OnOk result (self.new ≡ self.old ++ draft ∷ []) }
    {
        // The checker asks for the type of what a draft holds.
        let _items: &[Item] = &[];
        self.drafts.push(draft)?;
        Ok(())
    }

    /// Appends an item as it is.
    fn fixed(&mut self, item: Item) -> Result<(), NoMemory>
        requires { IsItem item }
        ensures { OnOk result (self.new ≡ self.old ++ drafts.Fixed item ∷ []) }
    {
        self.draft(Draft::Fixed(item))
    }

    /// Appends an instruction.
    pub fn push(&mut self, i: Rv) -> Result<(), NoMemory>
        requires { InRange i }
        ensures { OnOk result (self.new ≡ self.old ++ word i ∷ []) }
    {
        self.fixed(Item::Word(i))
    }

    /// Appends two instructions.
    pub fn push_two(&mut self, i: Rv, j: Rv) -> Result<(), NoMemory>
        requires first { InRange i }
        requires second { InRange j }
        ensures { OnOk result (self.new ≡ self.old ++ word i ∷ word j ∷ []) }
    {
        self.push(i)?;
        self.push(j)
    }

    /// Appends a jump to a block.
    pub fn jump(&mut self, to: BlockId) -> Result<(), NoMemory>
        ensures { OnOk result (self.new ≡ self.old ++ drafts.Jump to ∷ []) }
    {
        self.draft(Draft::Jump(to))
    }

    /// Appends a branch to a block, at a test of two registers.
    pub fn branch(&mut self, test: Test, r: X, q: X, to: BlockId) -> Result<(), NoMemory>
        requires first { r < 32 }
        requires second { q < 32 }
        ensures { OnOk result (self.new ≡ self.old ++ drafts.Near test r q to ∷ []) }
    {
        self.draft(Draft::Near(test, r, q, to))
    }

    /// Appends a call.
    pub fn call(&mut self, callee: FuncId) -> Result<(), NoMemory>
        ensures { OnOk result (self.new ≡ self.old ++ call_pair callee) }
    {
        self.fixed(Item::CallHigh(callee))?;
        self.fixed(Item::CallLow(callee))
    }

    /// Appends what puts the address of a global plus so many bytes into a register.
    pub fn address(&mut self, r: X, global: u32, bytes: u32) -> Result<(), NoMemory>
        requires { r < 32 }
        ensures { OnOk result (self.new ≡ self.old ++ drafts.Fixed (item.AddressHigh r global bytes) ∷ drafts.Fixed (item.AddressLow r global bytes) ∷ []) }
    {
        self.fixed(Item::AddressHigh(r, global, bytes))?;
        self.fixed(Item::AddressLow(r, global, bytes))
    }

    pub fn as_slice(&self) -> &[Draft]
        ensures all { result.now ≡ self.now }
        ensures drafts { All IsDraft result.now }
    {
        &self.drafts
    }

    pub fn len(&self) -> usize
        ensures { result ≡ length self.now }
    {
        self.drafts.len()
    }
}
