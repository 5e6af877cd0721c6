ghost use Rattle.std.specs.Prelude.{◌≡◌, ◌+◌, ◌<◌, ◌∷◌, [], ℕ, IfOk, OnOk, Some, length, map};
ghost use Rattle.std.specs.List.{flat_map};
ghost use Rattle.ir_core.specs.Formed.{written_by, used_by};
ghost use Rattle.local_passes.specs.DropDead.{if_same, values, used_in, used_for};
ghost use Rattle.local_passes.specs.NeedTables.{Adds, uses_in};

use ir_core::{Entry, FlatBlock, FlatBody, FlatInstr, FlatOp, Phi, Short};
use oi_base::RegId;
use std::alloc::{AllocError, Global};

/// What the phi or the instruction of each register uses, by the registers' numbers.
#[derive(Drop)]
pub struct UseTable {
    uses: Vec<Short<FlatOp, 2>>,
}

impl UseTable {
    /// For so many registers, with nothing used.
    fn new(alloc: Global, regs: usize) -> Result<UseTable, AllocError>
        ensures long { IfOk result (λ t. length t.uses.items ≡ regs) }
        ensures empty { IfOk result (λ t. (q : ℕ) → uses_in t q ≡ []) }
    {
        let mut uses = Vec::new(alloc);
        for _r in 0..regs {
            uses.push(Short::new(alloc))?;
        }
        Ok(UseTable { uses })
    }

    /// What is used by the definition of a register.
    pub fn of(&self, r: RegId) -> &[FlatOp]
        ensures { result.now ≡ uses_in self.now r.0 }
    {
        match self.uses.get(r.0 as usize) {
            Some(operands) => operands.as_slice(),
            None => &[],
        }
    }

    /// Adds an operand that the definition of a register uses.
    fn add(&mut self, r: RegId, o: FlatOp) -> Result<(), AllocError>
        ensures { OnOk result (Adds self.old self.new (λ q. if_same q (Some r.0) (o ∷ []))) }
    {
        let at = r.0 as usize;
        if at < self.uses.len() {
            self.uses[at].push(o)?;
        }
        Ok(())
    }

    fn add_entries(&mut self, r: RegId, entries: &[Entry]) -> Result<(), AllocError>
        ensures { OnOk result (Adds self.old self.new (λ q. if_same q (Some r.0) (map (λ e. e.value) entries.now))) }
    {
        for entry in entries {
            self.add(r, entry.value)?;
        }
        Ok(())
    }

    fn add_instr(&mut self, r: RegId, i: &FlatInstr) -> Result<(), AllocError>
        ensures { OnOk result (Adds self.old self.new (λ q. if_same q (Some r.0) (used_by i.now))) }
    {
        let mut at = 0;
        while let Some(o) = i.operand(at) {
            self.add(r, o)?;
            at += 1;
        }
        Ok(())
    }

    fn add_result(&mut self, i: &FlatInstr) -> Result<(), AllocError>
        ensures { OnOk result (Adds self.old self.new (λ q. if_same q (written_by i.now) (used_by i.now))) }
    {
        match i.result() {
            Some(r) => self.add_instr(r, i),
            None => Ok(()),
        }
    }

    fn add_phis(&mut self, phis: &[Phi]) -> Result<(), AllocError>
        ensures { OnOk result (Adds self.old self.new (λ q. flat_map (λ f. if_same q (Some f.reg.0) (values f)) phis.now)) }
    {
        for phi in phis {
            self.add_entries(phi.reg, phi.entries.as_slice())?;
        }
        Ok(())
    }

    fn add_code(&mut self, code: &[FlatInstr]) -> Result<(), AllocError>
        ensures { OnOk result (Adds self.old self.new (λ q. flat_map (λ i. if_same q (written_by i) (used_by i)) code.now)) }
    {
        for instr in code {
            self.add_result(instr)?;
        }
        Ok(())
    }

    fn add_block(&mut self, block: &FlatBlock) -> Result<(), AllocError>
        ensures { OnOk result (Adds self.old self.new (λ q. used_in q block.now)) }
    {
        self.add_phis(block.phis.as_slice())?;
        self.add_code(block.code.as_slice())?;
        Ok(())
    }

    fn add_blocks(&mut self, blocks: &[FlatBlock]) -> Result<(), AllocError>
        ensures { OnOk result (Adds self.old self.new (λ q. flat_map (used_in q) blocks.now)) }
    {
        for block in blocks {
            self.add_block(block)?;
        }
        Ok(())
    }

    /// The uses of a body's definitions.
    pub fn of_body(alloc: Global, body: &FlatBody) -> Result<UseTable, AllocError>
        ensures { IfOk result (λ t. (q : ℕ) → q < body.now.regs → uses_in t q ≡ used_for body.now q) }
    {
        let mut table = UseTable::new(alloc, body.regs as usize)?;
        table.add_blocks(body.blocks.as_slice())?;
        Ok(table)
    }
}
