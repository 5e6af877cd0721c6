ghost use Rattle.std.specs.Prelude.{◌≡◌, None, IfOk, OnOk, All, Contains};
ghost use Rattle.oi_base.specs.declared.ids.Place as places;
ghost use Rattle.ir_core.specs.ValidTypes.{BreaksTypeNames, BreaksSizes};
ghost use Rattle.ir_core.specs.ValidOps.{BreaksTypes, BreaksConstants};
ghost use Rattle.ir_core.specs.ValidPaths.{BreaksPhis};
ghost use Rattle.module_rules.specs.First.{earliest, IsFound};
ghost use Rattle.ir_verifier.specs.PhiFaults.{row_at, no_values, agrees_with, with_value, are_listed, entries_agree, has_good_entries, is_good_phi, block_phi_faults, phi_faults, AreMeasured, IsMeasured, IsMeasuredBlock, IsMeasuredFunc};

use crate::meanings::Meaning;
use crate::predecessors::Predecessors;
use ir_core::{Block, Func, IrType, LocalId, Module, Op, Pair};
use module_rules::{Numbers, earlier_if};
use oi_base::{NoMemory, Place};
use std::alloc::Global;
use std::marker::Model;

/// The blocks of the entries of a phi so far, each with the value of its first entry.
#[derive(Drop)]
struct Values {
    labels: Numbers,
    values: Vec<Meaning>,
}

impl Model for Values {
    ghost use Rattle.ir_verifier.specs.PhiFaults as faults;

    ghost Value = { faults.Values };

    ghost view = { λ s. record { labels = s.labels; values = s.values.items } };
}

/// The first phi whose blocks are not exactly the predecessors of its block, or with two values for one of them. Its
/// condition is that the module's types have names and sizes as they must, and that the types and constants of this
/// function of it agree and fit, so that offsets can be told.
pub fn first_break(alloc: Global, m: &Module, f: &Func) -> Result<Option<Place>, NoMemory>
    requires inside { Contains m.now.funcs f.now }
    requires type_names { (p : places.Place) → BreaksTypeNames m.now p → ⊥ }
    requires sizes { (p : places.Place) → BreaksSizes m.now p → ⊥ }
    requires types { (p : places.Place) → BreaksTypes m.now f.now p → ⊥ }
    requires constants { (p : places.Place) → BreaksConstants f.now p → ⊥ }
    ensures found { IfOk result (IsFound (BreaksPhis m.now f.now)) }
{
    let predecessors = Predecessors::of(alloc, f)?;
    first_fault(alloc, m, &predecessors, f)
}

fn first_fault(
    alloc: Global,
    m: &Module,
    predecessors: &Predecessors,
    f: &Func,
) -> Result<Option<Place>, NoMemory>
    requires measured { IsMeasuredFunc m.now.types.defs f.now }
    ensures { IfOk result (λ first. first ≡ earliest None (phi_faults m.now.types.defs predecessors.now f.now)) }
{
    let mut first = None;
    for block in f.blocks.as_slice() {
        first = in_block(alloc, first, m, predecessors, block)?;
    }
    Ok(first)
}

fn in_block(
    alloc: Global,
    before: Option<Place>,
    m: &Module,
    predecessors: &Predecessors,
    block: &Block,
) -> Result<Option<Place>, NoMemory>
    requires measured { IsMeasuredBlock m.now.types.defs block.now }
    ensures { IfOk result (λ first. first ≡ earliest before (block_phi_faults m.now.types.defs predecessors.now block.now)) }
{
    let mut first = before;
    for instr in block.code.as_slice() {
        let good = is_good_phi(alloc, m, predecessors, block.label, &instr.op)?;
        first = earlier_if(first, !good, instr.place);
    }
    Ok(first)
}

fn is_good_phi(
    alloc: Global,
    m: &Module,
    predecessors: &Predecessors,
    label: LocalId,
    op: &Op,
) -> Result<bool, NoMemory>
    requires measured { AreMeasured m.now.types.defs op.now }
    ensures { IfOk result (λ good. good ≡ is_good_phi m.now.types.defs (row_at predecessors.now label) op.now) }
{
    match op {
        Op::Phi(t, entries) => match predecessors.of_block(label) {
            Some(sources) => entries_agree(alloc, m, sources, t, entries.as_slice()),
            None => Ok(false),
        },
        _ => Ok(true),
    }
}

fn entries_agree(
    alloc: Global,
    m: &Module,
    sources: &Numbers,
    t: &IrType,
    entries: &[Pair],
) -> Result<bool, NoMemory>
    requires measured { All (λ e. IsMeasured m.now.types.defs e.value) entries.now }
    ensures { IfOk result (λ good. good ≡ entries_agree m.now.types.defs sources.now t.now no_values entries.now) }
{
    let mut values = Values::new(alloc);
    for entry in entries {
        if !sources.has(entry.from.0) {
            return Ok(false);
        }
        if !values.add(entry.from, Meaning::of(m, t, &entry.value))? {
            return Ok(false);
        }
    }
    Ok(values.have_all(sources.as_slice()))
}

impl Values {
    fn new(alloc: Global) -> Values
        ensures { result ≡ no_values }
    {
        Values {
            labels: Numbers::new(alloc),
            values: Vec::new(alloc),
        }
    }

    /// Whether the block has no value yet, which it then gets, or this one.
    fn add(&mut self, from: LocalId, value: Meaning) -> Result<bool, NoMemory>
        ensures agrees { IfOk result (λ agrees. agrees ≡ agrees_with self.old from.0 value) }
        ensures values { OnOk result (self.new ≡ with_value self.old from.0 value) }
    {
        match self.labels.position(from.0) {
            Some(at) => Ok(match self.values.get(at) {
                Some(first) => first.same(&value),
                None => false,
            }),
            None => {
                self.labels.add(from.0)?;
                self.values.push(value)?;
                Ok(true)
            }
        }
    }

    fn have_all(&self, labels: &[u32]) -> bool
        ensures { result ≡ are_listed self.now.labels labels.now }
    {
        for label in labels {
            if !self.labels.has(*label) {
                return false;
            }
        }
        true
    }
}
