ghost use Rattle.std.specs.Prelude.{◌≡◌, map, IfOk, OnOk};
ghost use Rattle.std.specs.List.{flat_map};
ghost use Rattle.ir_core.specs.ValidFunc.{BreaksNames, instr_local, block_locals_at, locals_at};
ghost use Rattle.module_rules.specs.First.{IsFound};
ghost use Rattle.ir_verifier.specs.Faults.{nothing_yet, with_local, with_locals, param_at};

use ir_core::{Block, Func, LocalId, Param};
use module_rules::{Numbers, earlier_if};
use oi_base::{NoMemory, Place};
use std::alloc::Global;
use std::marker::Model;

/// The names that stood so far, and the first place at which one of them stood again.
#[derive(Drop)]
struct Introduced {
    names: Numbers,
    first: Option<Place>,
}

impl Model for Introduced {
    ghost use Rattle.ir_verifier.specs.Faults as faults;

    ghost Value = { faults.Introduced };

    ghost view = { λ s. record { names = s.names; first = s.first } };
}

impl Introduced {
    fn new(alloc: Global) -> Introduced
        ensures { result ≡ nothing_yet }
    {
        Introduced {
            names: Numbers::new(alloc),
            first: None,
        }
    }

    fn first(&self) -> Option<Place>
        ensures { result ≡ self.now.first }
    {
        self.first
    }

    fn add(&mut self, name: LocalId, place: Place) -> Result<(), NoMemory>
        ensures { OnOk result (self.new ≡ with_local self.old (record { name = name; place = place })) }
    {
        let is_new = self.names.add(name.0)?;
        self.first = earlier_if(self.first, !is_new, place);
        Ok(())
    }
}

/// The first parameter, register or block that has the name of one before it.
pub fn first_break(alloc: Global, f: &Func) -> Result<Option<Place>, NoMemory>
    ensures found { IfOk result (IsFound (BreaksNames f.now)) }
{
    let introduced = introduce(alloc, f)?;
    Ok(introduced.first())
}

fn introduce(alloc: Global, f: &Func) -> Result<Introduced, NoMemory>
    ensures { IfOk result (λ s. s ≡ with_locals nothing_yet (locals_at f.now)) }
{
    let mut introduced = Introduced::new(alloc);
    add_params(&mut introduced, f.place, f.params.as_slice())?;
    add_blocks(&mut introduced, f.blocks.as_slice())?;
    Ok(introduced)
}

fn add_params(to: &mut Introduced, place: Place, params: &[Param]) -> Result<(), NoMemory>
    ensures { OnOk result (to.new ≡ with_locals to.old (map (param_at place) params.now)) }
{
    for param in params {
        to.add(param.name, place)?;
    }
    Ok(())
}

fn add_blocks(to: &mut Introduced, blocks: &[Block]) -> Result<(), NoMemory>
    ensures { OnOk result (to.new ≡ with_locals to.old (flat_map block_locals_at blocks.now)) }
{
    for block in blocks {
        add_block(to, block)?;
    }
    Ok(())
}

fn add_block(to: &mut Introduced, block: &Block) -> Result<(), NoMemory>
    ensures { OnOk result (to.new ≡ with_locals to.old (block_locals_at block.now)) }
{
    to.add(block.label, block.place)?;
    for instr in block.code.as_slice() {
        if let Some(name) = instr.result {
            to.add(name, instr.place)?;
        }
    }
    Ok(())
}
