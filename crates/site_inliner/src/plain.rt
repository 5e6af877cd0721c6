ghost use Rattle.std.specs.Prelude.{◌≡◌, ◌<◌, ◌++◌, ℕ, Some, [], All, map, length, slice_get, IfOk, OnOk};
ghost use Rattle.std.specs.List.{filter_map, cons_option};
ghost use Rattle.ir_core.specs.Plain.{plain_body, plain_program};
ghost use Rattle.site_inliner.specs.Measured.{IsMeasuredCode, IsMeasuredOp, IsMeasuredBlock, IsMeasuredFunc};
ghost use Rattle.site_inliner.specs.Parts.{Part, instr_row, instr_phi, block_of, func_number};

use crate::locals::Locals;
use crate::names::{few, func_numbers, label_numbers, register_numbers};
use ir_core::{
    Block, FlatBlock, FlatBlocks, FlatBody, FlatCode, Func, Instr, Module, Phis, Verified,
};
use module_rules::{Numbers, global_numbers};
use oi_base::{FuncId, Items, NoMemory};
use std::alloc::Global;
use std::marker::Model;

/// A verified module, with where its global variables and its functions stand by their names. Contracts see it as the
/// module.
#[derive(Drop)]
pub struct Bodies<'a> {
    source: &'a Module,
    globals: Numbers,
    funcs: Numbers,
}

impl<'a> Model for Bodies<'a> {
    ghost use Rattle.std.specs.Prelude.{◌≡◌, ◌<◌, map, length};
    ghost use Rattle.ir_core.specs.declared.module.Module as modules;
    ghost use Rattle.ir_core.specs.contracts.module.Module as of_module;
    ghost use Rattle.ir_core.specs.Proper.{IsProper};
    ghost use Rattle.ir_core.specs.Valid.{IsValid};
    ghost use Rattle.module_rules.specs.Faults as faults;
    ghost use Rattle.site_inliner.specs.Parts as parts;

    ghost Value = { modules.Module };

    ghost coded = { of_module.the_row.coded };

    ghost view = { λ s. s.source.now };

    ghost invariant = { λ s. IsProper s.source.now × IsValid s.source.now × (s.globals ≡ map faults.global_number s.source.now.globals) × (length s.globals < 4294967296) × (s.funcs ≡ map parts.func_number s.source.now.funcs) × (length s.funcs < 4294967296) };
}

impl<'a> Bodies<'a> {
    /// Of a verified module.
    pub fn of(alloc: Global, v: &'a Verified) -> Result<Bodies<'a>, NoMemory>
        ensures { IfOk result (λ b. b ≡ v.now) }
    {
        let source = v.module();
        let globals = few(global_numbers(alloc, source.globals.as_slice())?)?;
        let funcs = few(func_numbers(alloc, source.funcs.as_slice())?)?;
        Ok(Bodies {
            source,
            globals,
            funcs,
        })
    }

    /// The flat body of a function with every call kept.
    ///
    /// Registers are numbered from the parameters on in the order in which the text defines them, blocks in text order. It
    /// takes time linear in the function, and answers `NoMemory` also where there are 4,294,967,296 registers or blocks.
    pub fn plain(&self, alloc: Global, f: FuncId) -> Result<FlatBody, NoMemory>
        requires { f.0 < length self.now.funcs }
        ensures { IfOk result (λ body. (plain_program self.now).body f.0 ≡ Some body) }
    {
        let func = &self.source.funcs.as_slice()[f.0 as usize];
        self.of_func(alloc, func)
    }

    /// The plain body of one of its functions.
    fn of_func(&self, alloc: Global, func: &Func) -> Result<FlatBody, NoMemory>
        requires { (g : ℕ) × (slice_get self.now.funcs g ≡ Some func.now) }
        ensures { IfOk result (λ body. body ≡ plain_body self.now func.now) }
    {
        let locals = self.locals(alloc, func)?;
        locals.body(alloc)
    }

    /// The module.
    pub(crate) fn source(&self) -> &Module
        ensures { result.now ≡ self.now }
    {
        self.source
    }

    /// The names of its functions.
    pub(crate) fn defined(&self) -> &Numbers
        ensures { result.now ≡ map func_number self.now.funcs }
    {
        &self.funcs
    }

    /// A function by its position.
    pub(crate) fn func(&self, f: FuncId) -> &Func
        requires { f.0 < length self.now.funcs }
        ensures { slice_get self.now.funcs f.0 ≡ Some result.now }
    {
        &self.source.funcs.as_slice()[f.0 as usize]
    }

    /// The names of a function.
    pub(crate) fn locals<'b>(
        &'b self,
        alloc: Global,
        func: &'b Func,
    ) -> Result<Locals<'b>, NoMemory>
        requires { (g : ℕ) × (slice_get self.now.funcs g ≡ Some func.now) }
        ensures same { IfOk result (λ l. l ≡ record { source = self.now; func = func.now }) }
        ensures measured { IfOk result (λ l. IsMeasuredFunc l.source.types.defs l.func) }
    {
        let registers = few(register_numbers(alloc, func)?)?;
        let labels = few(label_numbers(alloc, func.blocks.as_slice())?)?;
        Ok(Locals::of(
            self.source,
            func,
            &self.globals,
            &self.funcs,
            registers,
            labels,
        ))
    }
}

impl<'a> Locals<'a> {
    fn body(&self, alloc: Global) -> Result<FlatBody, NoMemory>
        requires measured { IsMeasuredFunc self.now.source.types.defs self.now.func }
        ensures { IfOk result (λ b. b ≡ plain_body self.now.source self.now.func) }
    {
        let blocks = self.blocks(alloc, self.func().blocks.as_slice())?;
        Ok(FlatBody {
            params: self.param_count(),
            regs: self.register_count(),
            blocks,
        })
    }

    fn blocks(&self, alloc: Global, source: &[Block]) -> Result<FlatBlocks, NoMemory>
        requires measured { All (IsMeasuredBlock self.now.source.types.defs) source.now }
        ensures { IfOk result (λ blocks. blocks ≡ map (block_of self.now) source.now) }
    {
        let mut blocks = Items::new(alloc);
        for block in source {
            blocks.push(self.flat_block(alloc, block)?)?;
        }
        Ok(blocks)
    }

    fn flat_block(&self, alloc: Global, source: &Block) -> Result<FlatBlock, NoMemory>
        requires measured { IsMeasuredBlock self.now.source.types.defs source.now }
        ensures { IfOk result (λ b. b ≡ block_of self.now source.now) }
    {
        let phis = self.phis(alloc, source.code.as_slice())?;
        let code = self.code(alloc, source.code.as_slice())?;
        let end = self.end(alloc, &source.end)?;
        Ok(FlatBlock { phis, code, end })
    }

    fn phis(&self, alloc: Global, source: &[Instr]) -> Result<Phis, NoMemory>
        requires measured { IsMeasuredCode self.now.source.types.defs source.now }
        ensures { IfOk result (λ phis. phis ≡ filter_map (instr_phi self.now) source.now) }
    {
        let mut phis = Items::new(alloc);
        for instr in source {
            self.add_phi(alloc, &mut phis, instr)?;
        }
        Ok(phis)
    }

    fn add_phi(&self, alloc: Global, phis: &mut Phis, instr: &Instr) -> Result<(), NoMemory>
        requires measured { IsMeasuredOp self.now.source.types.defs instr.now.op }
        ensures { OnOk result (phis.new ≡ phis.old ++ cons_option (instr_phi self.now instr.now) []) }
    {
        if let Some(phi) = self.phi(alloc, instr)? {
            phis.push(phi)?;
        }
        Ok(())
    }

    fn code(&self, alloc: Global, source: &[Instr]) -> Result<FlatCode, NoMemory>
        requires measured { IsMeasuredCode self.now.source.types.defs source.now }
        ensures { IfOk result (λ code. code ≡ filter_map (instr_row self.now) source.now) }
    {
        let mut code = Items::new(alloc);
        for instr in source {
            self.add_row(alloc, &mut code, instr)?;
        }
        Ok(code)
    }

    fn add_row(&self, alloc: Global, code: &mut FlatCode, instr: &Instr) -> Result<(), NoMemory>
        requires measured { IsMeasuredOp self.now.source.types.defs instr.now.op }
        ensures { OnOk result (code.new ≡ code.old ++ cons_option (instr_row self.now instr.now) []) }
    {
        if let Some(row) = self.row(alloc, instr)? {
            code.push(row)?;
        }
        Ok(())
    }
}
