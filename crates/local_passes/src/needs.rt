ghost use Rattle.std.specs.Prelude.{◌≡◌, [], ◌∷◌, ◌++◌, MatchOption, IfOk, OnOk, replicate, false};
ghost use Rattle.local_passes.specs.NeedTables.{Marks};

use ir_core::FlatOp;
use oi_base::{Items, RegId};
use std::alloc::{AllocError, Global};

/// Registers that are marked as needed, and those of them whose definitions are still to be looked at.
#[derive(Drop)]
pub struct Needs {
    marks: Items<bool>,
    todo: Items<RegId>,
}

impl Needs {
    /// With no register marked.
    pub fn new(alloc: Global, regs: usize) -> Result<Needs, AllocError>
        ensures marks { IfOk result (λ w. w.marks ≡ replicate regs false) }
        ensures todo { IfOk result (λ w. w.todo ≡ []) }
    {
        let marks = Items::from_vec(vec![in alloc; false; regs]?);
        Ok(Needs {
            marks,
            todo: Items::new(alloc),
        })
    }

    /// The marks, by the registers' numbers.
    pub fn into_marks(self) -> Items<bool>
        ensures { result ≡ self.marks }
    {
        let Needs { marks, todo } = self;
        drop(todo);
        marks
    }

    /// Takes a register whose definition is to be looked at.
    pub fn take(&mut self) -> Option<RegId>
        ensures marks { self.new.marks ≡ self.old.marks }
        ensures todo { MatchOption result ((self.old.todo ≡ []) × (self.new.todo ≡ [])) (λ r. self.old.todo ≡ self.new.todo ++ r ∷ []) }
    {
        self.todo.pop()
    }

    /// Marks a register, if the operand is one of the table, and notes that it is to be looked at, unless it is marked.
    pub fn mark(&mut self, o: FlatOp) -> Result<(), AllocError>
        ensures { OnOk result (Marks self.old self.new (o ∷ [])) }
    {
        match o {
            FlatOp::Reg(r) => self.mark_register(r),
            _ => Ok(()),
        }
    }

    fn mark_register(&mut self, r: RegId) -> Result<(), AllocError>
        ensures { OnOk result (Marks self.old self.new (FlatOp.Reg r ∷ [])) }
    {
        let at = r.0 as usize;
        if at < self.marks.len() {
            if self.marks.as_slice()[at] {
                Ok(())
            } else {
                self.todo.push(r)?;
                self.marks.set(at, true);
                Ok(())
            }
        } else {
            Ok(())
        }
    }

    /// Marks the registers among operands.
    pub fn mark_all(&mut self, operands: &[FlatOp]) -> Result<(), AllocError>
        ensures { OnOk result (Marks self.old self.new operands.now) }
    {
        for o in operands {
            self.mark(*o)?;
        }
        Ok(())
    }
}
